// The commit by which a mirror follows what is shared.
ghost use Rattle.std.specs.Prelude.{◌≡◌, ◌==◌, ◌&&◌, ◌++◌, ◌∷◌, [], List, IfOk, IfSome, length, option_map, option_to_list};
ghost use Rattle.log_actions.specs.CommitTexts.{commit_text};
ghost use Rattle.log_actions.specs.declared.actions.Action.{Action};
ghost use Rattle.log_replay.specs.State.{IsHead};
ghost use Rattle.log_replay.specs.Support.{refusal_of};
ghost use Rattle.mirror_table.specs.Goals.{goal_of};
ghost use Rattle.mirror_table.specs.Laws.{HasMirror};
ghost use Rattle.mirror_table.specs.Refusals as spec;
ghost use Rattle.mirror_table.specs.Targets.{has_mark, target};

use crate::changes::{changes, has_mark};
use crate::suits::suits;
use crate::{NoTarget, Shared, Unsuited};
use edge_core::Name;
use log_actions::{Action, Actions, Commit, CommitTime, text_len};
use log_commit::{MOST_BYTES, NoCommit, commit_from};
use log_replay::{Snapshot, refusal_after};
use std::alloc::Global;

// The most bytes of the texts of a log, 64 MiB.
const MOST_LOG_BYTES: u64 = 1 << 26;

fn is_too_large(bytes: u64, commit: &Commit) -> bool
    ensures { result ≡ spec.is_too_large bytes (length (commit_text commit.now)) }
{
    let more = text_len(commit);
    more > MOST_BYTES as u64 || bytes > MOST_LOG_BYTES - more
}

// How many versions a log has, by its last state.
fn versions(state: Option<&Snapshot>) -> Option<u64>
    ensures { IfSome result (λ n. (log : List (List Action)) → IsHead log (option_map (λ s. s.now) state.entry) → length log ≡ n) }
{
    match state {
        Some(state) => state.version().checked_add(1),
        None => Some(0),
    }
}

fn placed(state: Option<&Snapshot>, bytes: u64, commit: Commit) -> Result<Commit, NoTarget>
    ensures { (log : List (List Action)) → IsHead log (option_map (λ s. s.now) state.entry) → spec.Answers result (spec.unless_refused (refusal_of (log ++ commit ∷ [])) bytes commit) }
{
    let Some(versions) = versions(state) else {
        return Err(NoTarget::NoMemory);
    };
    if let Some(refusal) = refusal_after(versions, state, commit.actions()) {
        return Err(Unsuited::Unsupported(refusal).into());
    }
    if is_too_large(bytes, &commit) {
        return Err(NoTarget::TooLarge);
    }
    Ok(commit)
}

fn made(
    alloc: Global,
    state: Option<&Snapshot>,
    bytes: u64,
    actions: Vec<Action>,
) -> Result<Commit, NoTarget>
    ensures { (log : List (List Action)) → IsHead log (option_map (λ s. s.now) state.entry) → spec.Answers result (spec.placed_after log bytes actions.items) }
{
    match commit_from(alloc, Actions::of(actions)) {
        Err(NoCommit::NoMemory) => Err(NoTarget::NoMemory),
        Err(NoCommit::Fault(_)) => Err(Unsuited::BadPath.into()),
        Ok(commit) => placed(state, bytes, commit),
    }
}

fn made_some(
    alloc: Global,
    state: Option<&Snapshot>,
    bytes: u64,
    actions: Vec<Action>,
) -> Result<Option<Commit>, NoTarget>
    ensures { (log : List (List Action)) → IsHead log (option_map (λ s. s.now) state.entry) → spec.Answers result (spec.some_commit (spec.placed_after log bytes actions.items)) }
{
    match made(alloc, state, bytes, actions) {
        Ok(commit) => Ok(Some(commit)),
        Err(end) => Err(end),
    }
}

// Whether nothing differs, and the state has the txn.
fn is_reached(actions: &[Action], state: Option<&Snapshot>, shared: &Shared) -> bool
    ensures { result ≡ ((length actions.now == 2) && has_mark (option_map (λ s. s.now) state.entry) (goal_of shared.now)) }
{
    actions.len() == 2 && has_mark(state, shared)
}

fn followed(
    alloc: Global,
    state: Option<&Snapshot>,
    bytes: u64,
    now: CommitTime,
    shared: &Shared,
) -> Result<Option<Commit>, NoTarget>
    ensures { (log : List (List Action)) → IsHead log (option_map (λ s. s.now) state.entry) → spec.Answers result (spec.placed_or_none log bytes (target (option_map (λ s. s.now) state.entry) now (goal_of shared.now))) }
{
    let actions = changes(alloc, state, now, shared)?;
    if is_reached(&actions, state, shared) {
        return Ok(None);
    }
    made_some(alloc, state, bytes, actions)
}

/// The commit by which the local table at a location follows what is shared, none where its state has all of that
/// already; or why there is none. `state` is the last state of the local log, none where the log is empty, `bytes` how
/// many bytes its texts have, and `now` the moment that the commit tells. The commit is a commitInfo, the txn of the
/// application with the version, the protocol and the metaData where the state has others, a remove of each live file
/// whose path no shared one has, and an add of each shared file that isn't live as it is, both in byte order of path.
/// Lent files are copied into it once; the time is that of sorting them.
pub fn target(
    alloc: Global,
    location: &Name,
    state: Option<&Snapshot>,
    bytes: u64,
    now: CommitTime,
    shared: &Shared,
) -> Result<Option<Commit>, NoTarget>
    ensures value { (log : List (List Action)) → IsHead log (option_map (λ s. s.now) state.entry) → spec.Answers result (spec.followed log (option_map (λ s. s.now) state.entry) location.now bytes now shared.now) }
    ensures reaches { IfOk result (λ commit. (log : List (List Action)) → IsHead log (option_map (λ s. s.now) state.entry) → HasMirror (log ++ option_to_list commit) (goal_of shared.now)) }
{
    suits(alloc, location, shared)?;
    followed(alloc, state, bytes, now, shared)
}
