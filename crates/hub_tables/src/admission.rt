// What an offer comes to after a table's commits.
ghost use Rattle.std.specs.Prelude.{◌≡◌, ◌<◌, ℕ, List, Option, Ok, IfOk, length, option_map};
ghost use Rattle.commit_check.specs.Admission.{Answers, admitted};
ghost use Rattle.commit_check.specs.Offers.{read_state};
ghost use Rattle.log_actions.specs.declared.actions.Action.{Action};
ghost use Rattle.log_replay.specs.Standing.{IsSupported};
ghost use Rattle.log_replay.specs.State.{IsHead, state_of};
ghost use Rattle.share_book.specs.Bases.{CanReplay, Makes};
ghost use Rattle.hub_tables.specs.OfferLogs.{IsOfferLog};

use crate::offer_log::OfferLog;
use commit_check::{NotAdmitted, Offer, admit};
use log_actions::{Commit, CommitTime};
use share_book::SharedSnapshot;
use std::alloc::{AllocError, Global};

/// The states that an offer is judged by.
#[derive(Drop)]
pub(crate) struct OfferStates {
    /// That of the version that it read, none where that isn't kept or nothing was read.
    pub(crate) at: Option<SharedSnapshot>,
    /// That of the last version, none where there is none.
    pub(crate) head: Option<SharedSnapshot>,
}

// The state of the version that was read, none where that isn't kept.
fn state_read(alloc: Global, log: &OfferLog) -> Result<Option<SharedSnapshot>, AllocError>
    requires of { (read : Option ℕ) × (commits : List (List Action)) × IsOfferLog read commits log.now }
    ensures { (read : Option ℕ) → (commits : List (List Action)) → IsOfferLog read commits log.now → IfOk result (λ s. s ≡ read_state commits read) }
{
    match &log.read {
        Some(replay) => Ok(Some(replay.made(alloc)?)),
        None => Ok(None),
    }
}

// The last state, none where there is none. It is that of the version that was read, where nothing came after it.
fn head_of(
    alloc: Global,
    log: &OfferLog,
    at: Option<&SharedSnapshot>,
) -> Result<Option<SharedSnapshot>, AllocError>
    requires of { (read : Option ℕ) × (commits : List (List Action)) × IsOfferLog read commits log.now }
    ensures { (read : Option ℕ) → (commits : List (List Action)) → IsOfferLog read commits log.now → option_map (λ s. s.now) at.entry ≡ read_state commits read → IfOk result (IsHead commits) }
{
    match (at, &log.head) {
        (Some(state), _) if log.winners.items().is_empty() => Ok(Some(state.share()?)),
        (_, Some(replay)) => Ok(Some(replay.made(alloc)?)),
        (_, None) => Ok(None),
    }
}

/// The states that an offer is judged by. The error is want of memory.
pub(crate) fn states_of(alloc: Global, log: &OfferLog) -> Result<OfferStates, AllocError>
    requires of { (read : Option ℕ) × (commits : List (List Action)) × IsOfferLog read commits log.now }
    ensures at { (read : Option ℕ) → (commits : List (List Action)) → IsOfferLog read commits log.now → IfOk result (λ s. s.at ≡ read_state commits read) }
    ensures head { (read : Option ℕ) → (commits : List (List Action)) → IsOfferLog read commits log.now → IfOk result (λ s. IsHead commits s.head) }
{
    let at = state_read(alloc, log)?;
    let head = head_of(alloc, log, at.as_ref())?;
    Ok(OfferStates { at, head })
}

/// The commit of an offer, or why there is none.
pub(crate) fn admission(
    alloc: Global,
    log: &OfferLog,
    states: &OfferStates,
    now: CommitTime,
    offer: &Offer,
) -> Result<Commit, NotAdmitted>
    ensures { (commits : List (List Action)) → IsOfferLog offer.now.read commits log.now → states.now.at ≡ read_state commits offer.now.read → IsHead commits states.now.head
        → Answers result (admitted commits now offer.now) }
{
    let at = states.at.as_ref().map(SharedSnapshot::get);
    let head = states.head.as_ref().map(SharedSnapshot::get);
    let winners = log.winners.items();
    admit(alloc, log.versions, winners, at, head, now, offer)
}
