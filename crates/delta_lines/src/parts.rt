// What lines are printed of, borrowed of what has it.
ghost use Rattle.std.specs.Prelude.{◌≡◌};
ghost use Rattle.delta_lines.specs.Delta.{action_name, kind_name as name_of_kind, path_of};
ghost use Rattle.delta_lines.specs.Parts.{action_in, file_in, line_in};

use crate::{DeltaFile, FileAction};
use json_tree::{Millis, Text, Version};
use log_actions::{AddFile, CdcFile, MetaData, Protocol, RemoveFile};
use share_lines::EndLine;

/// What a log says of a file, borrowed. Contracts see it as a [`FileAction`] (`action_in`).
#[derive(Clone, Copy)]
pub enum ActionParts<'a> {
    /// The file came in.
    Add(&'a AddFile),
    /// The file has changed rows.
    Cdc(&'a CdcFile),
    /// The file went.
    Remove(&'a RemoveFile),
}

impl<'a> ActionParts<'a> {
    // Those of an action.
    pub(crate) fn of(action: &'a FileAction) -> ActionParts<'a>
        ensures { action_in result ≡ action.now }
    {
        match action {
            FileAction::Add(file) => ActionParts::Add(file),
            FileAction::Cdc(file) => ActionParts::Cdc(file),
            FileAction::Remove(file) => ActionParts::Remove(file),
        }
    }

    // The path in the log.
    pub(crate) fn path(self) -> &'a Text
        ensures { result.now ≡ path_of (action_in self.entry) }
    {
        match self {
            ActionParts::Add(file) => &file.path,
            ActionParts::Cdc(file) => &file.path,
            ActionParts::Remove(file) => &file.path,
        }
    }

    // The action's name in a log.
    pub(crate) fn word(self) -> &'static str
        ensures { result.now ≡ action_name (action_in self.entry) }
    {
        match self {
            ActionParts::Add(_) => "add",
            ActionParts::Cdc(_) => "cdc",
            ActionParts::Remove(_) => "remove",
        }
    }
}

/// The parts of a file's line, borrowed of what has them, so that nothing is copied to be printed. They are those of [`DeltaFile`], as
/// which contracts see them (`file_in`): its `id` is the path of the action.
#[derive(Drop)]
pub struct DeltaParts<'a> {
    /// Where the file is read: the `path` that is printed.
    pub url: &'a Text,
    /// What the log says.
    pub action: ActionParts<'a>,
    /// `expirationTimestamp`, when the url ends.
    pub expires: Option<Millis>,
    /// `timestamp`. Only changes have it.
    pub time: Option<i64>,
    /// `version`. Only changes have it.
    pub version: Option<Version>,
}

impl<'a> DeltaParts<'a> {
    // Those of a file, by the path of its action.
    pub(crate) fn of_file(file: &'a DeltaFile) -> DeltaParts<'a>
        ensures { path_of file.now.action ≡ file.now.id → file_in result ≡ file.now }
    {
        DeltaParts {
            url: &file.url,
            action: ActionParts::of(&file.action),
            expires: file.expires,
            time: file.time,
            version: file.version,
        }
    }
}

// What a line is printed of.
#[derive(Clone, Copy)]
pub(crate) enum LineParts<'a> {
    Protocol(&'a Protocol),
    MetaData(&'a MetaData),
    File(&'a DeltaParts<'a>),
    End(&'a EndLine),
}

impl<'a> LineParts<'a> {
    // The name of the line's object.
    pub(crate) fn kind_name(self) -> &'static str
        ensures { result.now ≡ name_of_kind (line_in self.entry) }
    {
        match self {
            LineParts::Protocol(_) => "protocol",
            LineParts::MetaData(_) => "metaData",
            LineParts::File(_) => "file",
            LineParts::End(_) => "endStreamAction",
        }
    }
}
