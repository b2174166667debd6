// What the lines of a file and of a table's metadata are printed of, borrowed of what has it: an action
// of a log, or a line of an answer.
ghost use Rattle.std.specs.Prelude.{◌≡◌};
ghost use Rattle.share_lines.specs.Lines.{file_of, meta_of};
ghost use Rattle.std.specs.Prelude.{codes};
ghost use Rattle.share_lines.specs.Parts.{file_in, kind_word, meta_in};

use crate::{FileLine, MetaLine, Millis, Version};
use json_tree::{Pairs, Text, Texts};
use log_actions::{AddFile, FileSize, MetaData};

/// The kinds of lines that have a file.
#[derive(Clone, Copy, Debug, PartialEq, Eq)]
pub enum FileKind {
    /// A file of a version.
    File,
    /// A file that a change adds.
    Add,
    /// A file of changed rows.
    Cdf,
    /// A file that a change removes.
    Remove,
}

impl FileKind {
    // The name of the line's object.
    pub(crate) fn word(self) -> &'static str
        ensures { result.now ≡ kind_word self }
    {
        match self {
            FileKind::File => "file",
            FileKind::Add => "add",
            FileKind::Cdf => "cdf",
            FileKind::Remove => "remove",
        }
    }
}

/// The parts of a file's line, borrowed of what has them, so that nothing is copied to be printed.
/// They are those of [`FileLine`], as which contracts see them (`file_in`).
#[derive(Drop)]
pub struct FileParts<'a> {
    /// `url`, where the file is read.
    pub url: &'a Text,
    /// `id`.
    pub id: &'a Text,
    /// `partitionValues`, texts or nulls by name of column.
    pub values: &'a Pairs,
    /// `size` in bytes.
    pub size: FileSize,
    /// `stats`. Only files and adds print it.
    pub stats: &'a Option<Text>,
    /// `expirationTimestamp`, when the url ends.
    pub expires: Option<Millis>,
    /// `timestamp`. Only changes have it, and each of them does.
    pub time: Option<i64>,
    /// `version`. Only changes have it, and each of them does.
    pub version: Option<Version>,
}

impl<'a> FileParts<'a> {
    /// Those of a log's file: its place and its identifier are the path.
    pub fn of_add(file: &'a AddFile) -> FileParts<'a>
        ensures { file_in result ≡ file_of file.now }
    {
        FileParts {
            url: &file.path,
            id: &file.path,
            values: &file.values,
            size: file.size,
            stats: &file.stats,
            expires: None,
            time: None,
            version: None,
        }
    }

    /// Those of a line.
    pub fn of_line(line: &'a FileLine) -> FileParts<'a>
        ensures { file_in result ≡ line.now }
    {
        FileParts {
            url: &line.url,
            id: &line.id,
            values: &line.values,
            size: line.size,
            stats: &line.stats,
            expires: line.expires,
            time: line.time,
            version: line.version,
        }
    }
}

/// The parts of a metaData's line, as those of [`MetaLine`] (`meta_in`).
#[derive(Drop)]
pub struct MetaParts<'a> {
    /// `id`.
    pub id: &'a Text,
    /// `name`.
    pub name: &'a Option<Text>,
    /// `description`.
    pub description: &'a Option<Text>,
    /// `schemaString`.
    pub schema: &'a Text,
    /// `partitionColumns`.
    pub columns: &'a Texts,
    /// `configuration`.
    pub configuration: &'a Pairs,
}

impl<'a> MetaParts<'a> {
    /// Those of a log's metaData.
    pub fn of_action(meta: &'a MetaData) -> MetaParts<'a>
        ensures { meta_in result ≡ meta_of meta.now }
    {
        MetaParts {
            id: &meta.id,
            name: &meta.name,
            description: &meta.description,
            schema: &meta.schema,
            columns: &meta.columns,
            configuration: &meta.configuration,
        }
    }

    /// Those of a line.
    pub fn of_line(line: &'a MetaLine) -> MetaParts<'a>
        ensures { meta_in result ≡ line.now }
    {
        MetaParts {
            id: &line.id,
            name: &line.name,
            description: &line.description,
            schema: &line.schema,
            columns: &line.columns,
            configuration: &line.configuration,
        }
    }
}
