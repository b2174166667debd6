// What is left to replay for the state of a version.
ghost use Rattle.std.specs.Prelude.{◌≡◌, ◌+◌, ◌-◌, ◌<◌, ◌^◌, ◌++◌, ◌∷◌, [], List, Ok, IfOk, OnOk, length, map};
ghost use Rattle.std.specs.Arc.{arc_value};
ghost use Rattle.log_actions.specs.declared.actions.Action.{Action};
ghost use Rattle.log_replay.specs.Reconciliation.{actions_in};
ghost use Rattle.log_replay.specs.Snapshots.{Answers, next_state};
ghost use Rattle.log_replay.specs.Standing.{IsSupported};
ghost use Rattle.log_replay.specs.State.{state_of};
ghost use Rattle.share_book.specs.Bases.{CanReplay, Makes};

use crate::snapshot::SharedSnapshot;
use log_actions::Commit;
use log_replay::{NoState, Snapshot, advance, replay};
use log_store::Commits;
use std::alloc::{AllocError, Global};
use std::sync::Arc;
use step_count::Steps;

/// What makes the state of a table at a version: a state that is at hand, and the commits after it up to that version.
#[derive(Drop)]
pub struct Replay {
    /// The state of that version or of an earlier one, none where all commits are to be replayed.
    pub base: Option<SharedSnapshot>,
    /// The commits after it.
    pub commits: Commits,
}

fn shared(alloc: Global, state: Snapshot) -> Result<SharedSnapshot, AllocError>
    ensures { IfOk result (λ s. s ≡ state) }
{
    Ok(SharedSnapshot::of(Arc::new(alloc, state)?))
}

fn replay_all<L>(
    alloc: Global,
    commits: &[Arc<Commit>],
    steps: &mut Steps<L>,
) -> Result<SharedSnapshot, NoState>
    requires { 0 < length commits.now }
    ensures state { Answers result (state_of (map arc_value commits.now)) }
    ensures counted { OnOk result (steps.new ≡ steps.old + length (actions_in (map arc_value commits.now))) }
{
    let state = replay(alloc, commits, steps)?;
    Ok(shared(alloc, state)?)
}

// The state after one commit more.
fn next<L>(
    alloc: Global,
    base: &SharedSnapshot,
    commit: &Commit,
    steps: &mut Steps<L>,
) -> Result<SharedSnapshot, NoState>
    requires { base.now.version < 2 ^ 63 - 1 }
    ensures state { (log : List (List Action)) → state_of log ≡ Ok base.now → Answers result (state_of (log ++ commit.now ∷ [])) }
    ensures next { Answers result (next_state base.now commit.now) }
    ensures counted { OnOk result (steps.new ≡ steps.old + length commit.now) }
{
    let state = advance(alloc, base.get(), commit, steps)?;
    Ok(shared(alloc, state)?)
}

// The state of a supported log that begins with the base's commits and goes on with these.
fn state_after<L>(
    alloc: Global,
    base: &SharedSnapshot,
    commits: &[Arc<Commit>],
    steps: &mut Steps<L>,
) -> Result<SharedSnapshot, NoState>
    requires { base.now.version + length commits.now < 2 ^ 63 }
    ensures state { (log : List (List Action)) → state_of log ≡ Ok base.now → IsSupported (log ++ map arc_value commits.now) → Answers result (state_of (log ++ map arc_value commits.now)) }
    ensures counted { OnOk result (steps.new ≡ steps.old + length (actions_in (map arc_value commits.now))) }
{
    let mut state = base.share()?;
    for commit in commits {
        state = next(alloc, &state, commit, steps)?;
    }
    Ok(state)
}

// The work of a replay that nobody counts.
struct Work;

impl Replay {
    /// Whether nothing is left to do: the state is at hand, with a list of what the restriction shows.
    pub(crate) fn is_made(&self, only: Option<&str>) -> bool {
        match &self.base {
            Some(state) => self.commits.items().is_empty() && state.shown(only).is_some(),
            None => false,
        }
    }

    /// The state of a supported log of one commit or more, of which this is the base with the commits after it. The error is want of
    /// memory.
    pub fn made(&self, alloc: Global) -> Result<SharedSnapshot, AllocError>
        requires fits { CanReplay self.now }
        requires of { (commits : List (List Action)) × IsSupported commits × (0 < length commits) × Makes commits self.now }
        ensures { (commits : List (List Action)) → IsSupported commits → Makes commits self.now → IfOk result (λ s. state_of commits ≡ Ok s) }
    {
        let mut steps: Steps<Work> = Steps::new();
        match self.state(alloc, &mut steps) {
            Ok(state) => Ok(state),
            Err(NoState::NoMemory) => Err(AllocError),
            Err(NoState::Refusal(_)) => unreachable!(),
        }
    }

    /// The state of a supported log of which this is the base with the commits after it. `steps` goes up by one for each of their
    /// actions. The error is want of memory for such a log.
    pub fn state<L>(&self, alloc: Global, steps: &mut Steps<L>) -> Result<SharedSnapshot, NoState>
        requires { CanReplay self.now }
        ensures state { (commits : List (List Action)) → IsSupported commits → Makes commits self.now → Answers result (state_of commits) }
        ensures counted { OnOk result (steps.new ≡ steps.old + length (actions_in self.now.commits)) }
    {
        match &self.base {
            Some(base) => state_after(alloc, base, self.commits.items(), steps),
            None => replay_all(alloc, self.commits.items(), steps),
        }
    }
}
