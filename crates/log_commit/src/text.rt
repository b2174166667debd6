// The text of a commit.
ghost use Rattle.std.specs.Prelude.{◌≡◌, ◌↔◌, List, Ok, IfOk};
ghost use Rattle.log_actions.specs.declared.actions.Action.{Action};
ghost use Rattle.log_commit.specs.Texts.{Answers, IsCommitText, commit_in};

use crate::lines::read_lines;
use crate::rules::first_broken;
use crate::{CommitFault, NoCommit};
use log_actions::{Actions, Commit};
use std::alloc::Global;

/// The most bytes of a commit's text, 16 MiB.
pub const MOST_BYTES: usize = 1 << 24;

fn read_commit(alloc: Global, bytes: &[u8]) -> Result<Commit, NoCommit>
    ensures { Answers result (commit_in bytes.now) }
{
    if bytes.len() > MOST_BYTES {
        return Err(NoCommit::Fault(CommitFault::TooLarge));
    }
    let (found, stop) = read_lines(alloc, bytes)?;
    match first_broken(alloc, &found.numbers, &found.actions)? {
        Some(fault) => Err(NoCommit::Fault(fault)),
        None => match stop {
            Some(fault) => Err(NoCommit::Fault(fault)),
            None => Ok(Commit::of(Actions::of(found.actions))),
        },
    }
}

/// The commit whose text the bytes are (Delta Lake PROTOCOL.md, "Delta Log Entries"), or the first fault, as
/// `CommitFault` says:
/// - there are at most 16 MiB, cut at line feeds; a line of spaces, tabs and carriage returns alone gives nothing, each
///   other line is read by `action_of_line`;
/// - at most one protocol and one metaData is among the actions, the path of each add, remove and cdc is good, and no
///   path stands in two adds or removes without a deletion vector.
pub fn commit_of(alloc: Global, bytes: &[u8]) -> Result<Commit, NoCommit>
    ensures value { Answers result (commit_in bytes.now) }
    ensures text { IfOk result (λ commit. IsCommitText bytes.now commit) }
    ensures law { (actions : List Action) → (commit_in bytes.now ≡ Ok actions) ↔ IsCommitText bytes.now actions }
{
    read_commit(alloc, bytes)
}
