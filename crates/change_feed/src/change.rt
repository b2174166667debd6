// A change of the feed.
ghost use Rattle.std.specs.Prelude.{◌≡◌, [], None, unwrap_or};

use json_tree::{Pairs, Text, Version};
use log_actions::{AddFile, CdcFile, FileSize, RemoveFile};
use std::marker::Model;

/// What a version did with the data of a file (Delta Sharing PROTOCOL.md, "Read Change Data Feed from
/// a Table").
#[derive(Clone, Copy, Debug, PartialEq, Eq)]
pub enum ChangeKind {
    /// The file came in with its rows ("Add File").
    Add,
    /// The file has the changed rows themselves, each with how it changed ("CDF File").
    Cdf,
    /// The file went with its rows ("Remove File").
    Remove,
}

/// The action by which a change came, borrowed of its commit.
#[derive(Clone, Copy)]
pub enum ChangedAction<'a> {
    /// A file came in.
    Add(&'a AddFile),
    /// A file has the changed rows themselves.
    Cdc(&'a CdcFile),
    /// A file went.
    Remove(&'a RemoveFile),
}

/// A change of the feed: the action by which it came, and the version and time with which it came.
#[derive(Drop)]
pub struct Change<'a> {
    action: ChangedAction<'a>,
    version: Version,
    time: i64,
}

impl<'a> Model for Change<'a> {
    ghost use Rattle.change_feed.specs.Changes.{ChangedFile};
    ghost use Rattle.change_feed.specs.Borrowed.{changed_by};

    ghost Value = { ChangedFile };

    ghost view = { λ c. changed_by c.version c.time c.action };
}

// The size that is said, or 0.
fn size_or_zero(size: Option<FileSize>) -> FileSize
    ensures { result ≡ unwrap_or size 0 }
{
    match (size, FileSize::of(0)) {
        (Some(size), _) => size,
        (None, Some(zero)) => zero,
        (None, None) => unreachable!(),
    }
}

impl<'a> Change<'a> {
    ghost use Rattle.change_feed.specs.Borrowed.{changed_by};
    ghost use Rattle.change_feed.specs.Changes.{added_file, removed_file, row_file};

    // A file of changed rows.
    pub(crate) fn of_rows(version: Version, time: i64, file: &'a CdcFile) -> Change<'a>
        ensures { result ≡ row_file version time file.now }
    {
        let action = ChangedAction::Cdc(file);
        Change {
            action,
            version,
            time,
        }
    }

    // A file that came in.
    pub(crate) fn of_add(version: Version, time: i64, file: &'a AddFile) -> Change<'a>
        ensures { result ≡ added_file version time file.now }
    {
        let action = ChangedAction::Add(file);
        Change {
            action,
            version,
            time,
        }
    }

    // A file that went.
    pub(crate) fn of_remove(version: Version, time: i64, file: &'a RemoveFile) -> Change<'a>
        ensures { result ≡ removed_file version time file.now }
    {
        let action = ChangedAction::Remove(file);
        Change {
            action,
            version,
            time,
        }
    }

    /// The action by which it came, as its commit has it.
    pub fn action(&self) -> ChangedAction<'a>
        ensures { self.now ≡ changed_by self.now.version self.now.time result }
    {
        self.action
    }

    /// What was done with the file.
    pub fn kind(&self) -> ChangeKind
        ensures { result ≡ self.now.kind }
    {
        match self.action {
            ChangedAction::Add(_) => ChangeKind::Add,
            ChangedAction::Cdc(_) => ChangeKind::Cdf,
            ChangedAction::Remove(_) => ChangeKind::Remove,
        }
    }

    /// `path`, as it is spelt in the log.
    pub fn path(&self) -> &Text
        ensures { result.now ≡ self.now.path }
    {
        match self.action {
            ChangedAction::Add(file) => &file.path,
            ChangedAction::Cdc(file) => &file.path,
            ChangedAction::Remove(file) => &file.path,
        }
    }

    /// `partitionValues`, texts or nulls by name of column; none where a remove doesn't say them, for
    /// which `none`, the empty list, is lent.
    pub fn values<'b>(&'b self, none: &'b Pairs) -> &'b Pairs
        requires { none.now ≡ [] }
        ensures { result.now ≡ self.now.values }
    {
        match self.action {
            ChangedAction::Add(file) => &file.values,
            ChangedAction::Cdc(file) => &file.values,
            ChangedAction::Remove(file) => file.values.as_ref().unwrap_or(none),
        }
    }

    /// `size` in bytes, 0 where a remove doesn't say it.
    pub fn size(&self) -> FileSize
        ensures { result ≡ self.now.size }
    {
        match self.action {
            ChangedAction::Add(file) => file.size,
            ChangedAction::Cdc(file) => file.size,
            ChangedAction::Remove(file) => size_or_zero(file.size),
        }
    }

    /// `stats`, the file's statistics as a text of JSON. Only an add has them; for the others `none` is
    /// lent.
    pub fn stats<'b>(&'b self, none: &'b Option<Text>) -> &'b Option<Text>
        requires { none.now ≡ None }
        ensures { result.now ≡ self.now.stats }
    {
        match self.action {
            ChangedAction::Add(file) => &file.stats,
            ChangedAction::Cdc(_) | ChangedAction::Remove(_) => none,
        }
    }

    /// The version that it came with.
    pub fn version(&self) -> Version
        ensures { result ≡ self.now.version }
    {
        self.version
    }

    /// The version's time, in milliseconds since the start of 1970 in UTC, any number of 64 bits with
    /// sign.
    pub fn time(&self) -> i64
        ensures { result ≡ self.now.time }
    {
        self.time
    }
}
