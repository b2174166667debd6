// What a turn gives of a look, with its files.
ghost use Rattle.std.specs.Prelude.{◌≡◌, ◌+◌, List, Option, IfOk, IfSome, OnOk, Some, length, option_map};
ghost use Rattle.log_actions.specs.declared.actions.Action.{Action};
ghost use Rattle.log_replay.specs.Reconciliation.{actions_in};
ghost use Rattle.log_replay.specs.Snapshots.{Answers};
ghost use Rattle.log_replay.specs.Standing.{IsSupported};
ghost use Rattle.log_replay.specs.State.{state_of};
ghost use Rattle.share_book.specs.Bases.{CanReplay, Makes, MakesFound, replayed};
ghost use Rattle.share_book.specs.Looks as looks;
ghost use Rattle.share_book.specs.Making.{IsMade};

use crate::look::{Found, Look, PartFound, Pinned, Seen, TableRefusal, listed_by};
use crate::replay::Replay;
use crate::snapshot::SharedSnapshot;
use log_replay::NoState;
use std::alloc::{AllocError, Global};
use step_count::Steps;

// A part with its files, where there is a version; `made` is the state that its commits make, none where they make none.
fn part_with(part: PartFound, made: Option<SharedSnapshot>) -> PartFound
    ensures { (commits : List (List Action)) → IsMade made (state_of commits) → result ≡ looks.part_with (Some commits) part }
{
    match part {
        PartFound::Version(version) => match made {
            Some(state) => PartFound::Files(version, state),
            None => PartFound::Refused(TableRefusal::Unsupported),
        },
        PartFound::Nothing => PartFound::Nothing,
        PartFound::Files(version, state) => PartFound::Files(version, state),
        PartFound::Feed(feed) => PartFound::Feed(feed),
        PartFound::Refused(why) => PartFound::Refused(why),
    }
}

fn found_with(found: Found, made: Option<SharedSnapshot>) -> Found
    ensures { (commits : List (List Action)) → IsMade made (state_of commits) → result ≡ looks.found_with (Some commits) found }
{
    match found {
        Found::Table(spot, part) => Found::Table(spot, part_with(part, made)),
        Found::Names(names) => Found::Names(names),
        Found::NoTable => Found::NoTable,
    }
}

fn seen_with(seen: Option<Seen>, made: Option<SharedSnapshot>) -> Option<Seen>
    ensures { (commits : List (List Action)) → IsMade made (state_of commits) → result ≡ option_map (looks.seen_with (Some commits)) seen }
{
    let Seen {
        recipient,
        expires,
        found,
    } = seen?;
    Some(Seen {
        recipient,
        expires,
        found: found_with(found, made),
    })
}

// The state that a replay makes, with a list of the files that the restriction shows, where there is one.
fn state_with<L>(
    alloc: Global,
    replay: &Replay,
    only: Option<&str>,
    steps: &mut Steps<L>,
) -> Result<SharedSnapshot, NoState>
    requires { CanReplay replay.now }
    ensures state { (commits : List (List Action)) → IsSupported commits → Makes commits replay.now → Answers result (state_of commits) }
    ensures counted { OnOk result (steps.new ≡ steps.old + length (actions_in replay.now.commits)) }
{
    let state = replay.state(alloc, steps)?;
    match only {
        Some(only) => Ok(state.listed(alloc, only)?),
        None => Ok(state),
    }
}

impl Pinned {
    /// The look, with the files that its commits make. `steps` goes up by one for each action that is replayed. The error is want of
    /// memory.
    pub fn complete<L>(self, alloc: Global, steps: &mut Steps<L>) -> Result<Look, AllocError>
        requires { IfSome self.replay CanReplay }
        ensures at { IfOk result (λ l. l.at ≡ self.look.at) }
        ensures seen { (commits : Option (List (List Action))) → MakesFound commits self.replay → IfOk result (λ l. l.seen ≡ option_map (looks.seen_with commits) self.look.seen) }
        ensures counted { OnOk result ((commits : Option (List (List Action))) → MakesFound commits self.replay → steps.new ≡ steps.old + replayed self.replay) }
    {
        let Pinned {
            look,
            replay,
            is_later,
        } = self;
        let Some(replay) = replay else {
            return Ok(look);
        };
        let made = match state_with(alloc, &replay, listed_by(&look, is_later), steps) {
            Ok(state) => Some(state),
            Err(NoState::Refusal(_)) => None,
            Err(NoState::NoMemory) => return Err(AllocError),
        };
        let Look { at, seen } = look;
        Ok(Look {
            at,
            seen: seen_with(seen, made),
        })
    }
}
