// What pages give: a protocol where none is held, and actions of files, each with a link, and a change with its version and the version's time.
ghost use Rattle.std.specs.Prelude.{◌≡◌, ℕ, ℤ, unwrap_or};
ghost use Rattle.change_feed.specs.Borrowed.{changed_by};
ghost use Rattle.delta_lines.specs.Delta.{path_of};
ghost use Rattle.delta_lines.specs.Parts.{action_in, file_in};
ghost use Rattle.share_reply.specs.Planned.{given_in};
ghost use Rattle.share_reply.specs.Feeds.{action_of as action_by, plain_protocol};

use change_feed::{Change, ChangedAction};
use delta_lines::{ActionParts, DeltaParts};
use json_tree::{Millis, Pairs, Text, Version};
use log_actions::{AddFile, FileSize, Protocol, ProtocolVersion};
use share_lines::{FileKind, FileParts};

// An action by which a file is given, borrowed of the log, before its link is made.
#[derive(Clone, Copy)]
pub(crate) struct Given<'a> {
    pub(crate) action: ActionParts<'a>,
    pub(crate) time: Option<i64>,
    pub(crate) version: Option<Version>,
}

// What is told where no protocol is held.
pub(crate) fn plain_protocol() -> Protocol
    ensures { result ≡ plain_protocol }
{
    let (Some(min_reader), Some(min_writer)) = (ProtocolVersion::of(1), ProtocolVersion::of(2))
    else {
        unreachable!()
    };
    Protocol {
        min_reader,
        min_writer,
        reader_features: None,
        writer_features: None,
    }
}

fn size_or_zero(size: Option<FileSize>) -> FileSize
    ensures { result ≡ unwrap_or size 0 }
{
    let Some(zero) = FileSize::of(0) else {
        unreachable!()
    };
    size.unwrap_or(zero)
}

fn action_of<'a>(action: ChangedAction<'a>) -> ActionParts<'a>
    ensures action { (version : ℕ) (time : ℤ) → action_in result ≡ action_by (changed_by version time action.entry).action }
    ensures path { (version : ℕ) (time : ℤ) → path_of (action_in result) ≡ (changed_by version time action.entry).path }
{
    match action {
        ChangedAction::Add(file) => ActionParts::Add(file),
        ChangedAction::Cdc(file) => ActionParts::Cdc(file),
        ChangedAction::Remove(file) => ActionParts::Remove(file),
    }
}

// The action by which a change came.
fn came_by<'a>(change: &Change<'a>) -> ActionParts<'a>
    ensures action { action_in result ≡ action_by change.now.action }
    ensures path { path_of (action_in result) ≡ change.now.path }
{
    action_of(change.action())
}

// What the line of what is given so is printed of in the delta format, with that link.
pub(crate) fn delta_parts<'b>(
    url: &'b Text,
    expires: Millis,
    action: ActionParts<'b>,
    time: Option<i64>,
    version: Option<Version>,
) -> DeltaParts<'b>
    ensures { file_in result ≡ given_in url.now expires (record { action = action.entry; time = time; version = version }) }
{
    DeltaParts {
        url,
        action,
        expires: Some(expires),
        time,
        version,
    }
}

impl<'a> Given<'a> {
    ghost use Rattle.std.specs.Prelude.{◌≡◌, ℕ, [], None};
    ghost use Rattle.delta_lines.specs.Formats.{file_line_of, size_of, stats_of, values_of};
    ghost use Rattle.delta_lines.specs.Delta.{path_of};
    ghost use Rattle.delta_lines.specs.Parts.{action_in};
    ghost use Rattle.share_lines.specs.Parts.{file_in as line_file};
    ghost use Rattle.page_token.specs.declared.cursor.TableAccess.{TableAccess};
    ghost use Rattle.share_reply.specs.Feeds.{given_change};
    ghost use Rattle.share_reply.specs.Files.{given_file};
    ghost use Rattle.share_reply.specs.Planned.{given_in, kind_in, linked_in};
    ghost use Rattle.share_reply.specs.declared.keys.ReplyKeys.{ReplyKeys};

    // A file of a version.
    pub(crate) fn of_file(file: &'a AddFile) -> Given<'a>
        ensures { (keys : ReplyKeys) (a : TableAccess) (expires : ℕ) → linked_in keys a expires result ≡ given_file keys a expires file.now }
    {
        Given {
            action: ActionParts::Add(file),
            time: None,
            version: None,
        }
    }

    // A change.
    pub(crate) fn of_change(change: &Change<'a>) -> Given<'a>
        ensures { (keys : ReplyKeys) (a : TableAccess) (expires : ℕ) → linked_in keys a expires result ≡ given_change keys a expires change.now }
    {
        Given {
            action: came_by(change),
            time: Some(change.time()),
            version: Some(change.version()),
        }
    }

    // The path as the log has it.
    pub(crate) fn path(&self) -> &'a Text
        ensures { result.now ≡ path_of (action_in self.now.action) }
    {
        match self.action {
            ActionParts::Add(file) => &file.path,
            ActionParts::Cdc(file) => &file.path,
            ActionParts::Remove(file) => &file.path,
        }
    }

    // The kind of its line in the parquet format.
    pub(crate) fn kind(&self) -> FileKind
        ensures { result ≡ kind_in self.now }
    {
        if self.version.is_none() {
            return FileKind::File;
        }
        match self.action {
            ActionParts::Add(_) => FileKind::Add,
            ActionParts::Cdc(_) => FileKind::Cdf,
            ActionParts::Remove(_) => FileKind::Remove,
        }
    }

    // `partitionValues`; none where a remove doesn't say them, for which `none`, the empty list, is lent.
    fn values<'b>(&'b self, none: &'b Pairs) -> &'b Pairs
        requires { none.now ≡ [] }
        ensures { result.now ≡ values_of (action_in self.now.action) }
    {
        match self.action {
            ActionParts::Add(file) => &file.values,
            ActionParts::Cdc(file) => &file.values,
            ActionParts::Remove(file) => file.values.as_ref().unwrap_or(none),
        }
    }

    // `size` in bytes, 0 where a remove doesn't say it.
    fn size(&self) -> FileSize
        ensures { result ≡ size_of (action_in self.now.action) }
    {
        match self.action {
            ActionParts::Add(file) => file.size,
            ActionParts::Cdc(file) => file.size,
            ActionParts::Remove(file) => size_or_zero(file.size),
        }
    }

    // `stats`. Only an add has them; for the others `none` is lent.
    fn stats<'b>(&'b self, none: &'b Option<Text>) -> &'b Option<Text>
        requires { none.now ≡ None }
        ensures { result.now ≡ stats_of (action_in self.now.action) }
    {
        match self.action {
            ActionParts::Add(file) => &file.stats,
            ActionParts::Cdc(_) | ActionParts::Remove(_) => none,
        }
    }

    // What its line in the parquet format is printed of. What its action doesn't say is lent.
    pub(crate) fn parquet_parts<'b>(
        &'b self,
        url: &'b Text,
        expires: Millis,
        no_values: &'b Pairs,
        no_stats: &'b Option<Text>,
    ) -> FileParts<'b>
        requires values { no_values.now ≡ [] }
        requires stats { no_stats.now ≡ None }
        ensures { line_file result ≡ file_line_of (given_in url.now expires self.now) }
    {
        FileParts {
            url,
            id: self.path(),
            values: self.values(no_values),
            size: self.size(),
            stats: self.stats(no_stats),
            expires: Some(expires),
            time: self.time,
            version: self.version,
        }
    }
}
