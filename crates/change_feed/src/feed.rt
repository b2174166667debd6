// The feed of a range of versions.
ghost use Rattle.std.specs.Prelude.{◌≡◌, ◌+◌, ◌^◌, ◌<◌, ◌≤◌, ℕ, List, not, length, map, slice_range, IfOk};
ghost use Rattle.std.specs.List.{list_any, position_from};
ghost use Rattle.std.specs.Arc.{arc_value};
ghost use Rattle.log_actions.specs.declared.actions.Action.{Action};
ghost use Rattle.log_replay.specs.Times.{marks_in};
ghost use Rattle.change_feed.specs.Changes as spec;
ghost use Rattle.change_feed.specs.Feed.{feed_of};
ghost use Rattle.change_feed.specs.Known.{change_by};
ghost use Rattle.change_feed.specs.Shown.{Answers, changes_from, feed_from};

use crate::{Change, FeedRefusal};
use json_tree::Version;
use log_actions::{Action, Commit};
use log_replay::Mark;
use std::alloc::{AllocError, Global};
use std::sync::Arc;

// The first version that is marked as without feed.
fn first_off(marks: &[Mark], from: u64) -> Option<u64>
    requires { from + length marks.now ≤ 2 ^ 63 }
    ensures { result ≡ position_from (λ m. not m.feed) from marks.now }
{
    let mut version = from;
    for mark in marks {
        if !mark.feed {
            return Some(version);
        }
        version += 1;
    }
    None
}

fn is_cdc(action: &Action) -> bool
    ensures { result ≡ spec.is_cdc action.now }
{
    matches!(action, Action::Cdc(_))
}

fn has_cdc(actions: &[Action]) -> bool
    ensures { result ≡ list_any spec.is_cdc actions.now }
{
    actions.iter().any(is_cdc)
}

fn row_change(version: Version, time: i64, action: &Action) -> Option<Change<'_>>
    ensures { result ≡ spec.row_change version time action.now }
{
    match action {
        Action::Cdc(file) => Some(Change::of_rows(version, time, file)),
        _ => None,
    }
}

fn file_change(version: Version, time: i64, action: &Action) -> Option<Change<'_>>
    ensures { result ≡ spec.file_change version time action.now }
{
    match action {
        Action::Add(file) if file.data_change => Some(Change::of_add(version, time, file)),
        Action::Remove(file) if file.data_change => Some(Change::of_remove(version, time, file)),
        _ => None,
    }
}

// What an action changes of a commit that has files of changed rows, or of one that has none.
fn change_of<'a>(
    rows: bool,
    version: Version,
    mark: &Mark,
    action: &'a Action,
) -> Option<Change<'a>>
    ensures { result ≡ change_by rows version mark.now.time action.now }
{
    if rows {
        row_change(version, mark.time, action)
    } else {
        file_change(version, mark.time, action)
    }
}

// The changes of all commits.
fn listed<'a>(
    alloc: Global,
    commits: &'a [Arc<Commit>],
    marks: &[Mark],
    from: u64,
) -> Result<Vec<Change<'a>>, AllocError>
    requires lengths { length commits.now ≡ length marks.now }
    requires versions { from + length commits.now ≤ 2 ^ 63 }
    ensures { IfOk result (λ changes. changes.items ≡ changes_from from marks.now (map arc_value commits.now)) }
{
    let mut changes = Vec::new(alloc);
    for (place, commit) in commits.iter().enumerate() {
        let version = Version::of_small(from + place as u64);
        let mark = &marks[place];
        let actions = commit.actions();
        let rows = has_cdc(actions);
        for action in actions {
            if let Some(change) = change_of(rows, version, mark, action) {
                changes.push(change)?;
            }
        }
    }
    Ok(changes)
}

/// The change feed of a range of versions of a table: those from `from` on whose commits these are,
/// each with its mark. A range of none has no changes. The changes stand in the order of the
/// versions, within a version in the order of its commit (Delta Sharing PROTOCOL.md, "Read Change
/// Data Feed from a Table"). A commit with files of changed rows gives these alone; another gives its
/// adds and removes with `dataChange` (Delta Lake PROTOCOL.md, "Change Data Files").
///
/// `NotEnabled` comes exactly where the feed is off at a version of the range, with the least such
/// version. Time is linear in the actions of the range, whatever stands before and behind it in the
/// log. Nothing of the files is copied: a change borrows what its commit has.
pub fn changes<'a>(
    alloc: Global,
    commits: &'a [Arc<Commit>],
    marks: &[Mark],
    from: u64,
) -> Result<Vec<Change<'a>>, FeedRefusal>
    requires lengths { length commits.now ≡ length marks.now }
    requires versions { from + length commits.now ≤ 2 ^ 63 }
    // the feed of each log of which these are the commits and the marks of a range of versions
    ensures log { (log : List (List Action)) (last : ℕ) → last < length log → map arc_value commits.now ≡ slice_range log from (last + 1)
        → marks.now ≡ slice_range (marks_in log) from (last + 1) → Answers result (feed_of log from last) }
    ensures range { Answers result (feed_from from marks.now (map arc_value commits.now)) }
{
    if let Some(version) = first_off(marks, from) {
        return Err(FeedRefusal::NotEnabled { version });
    }
    Ok(listed(alloc, commits, marks, from)?)
}
