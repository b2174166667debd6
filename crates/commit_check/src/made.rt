// The commit of an offer, and the first action that can't be in it.
ghost use Rattle.std.specs.Prelude.{◌≡◌, ◌||◌, ◌++◌, ◌∷◌, [], List, Some, None, IfOk, is_some, option_map, length, if◌then◌else◌};
ghost use Rattle.std.specs.List.{list_any, position_from};
ghost use Rattle.log_actions.specs.Commits as rule;
ghost use Rattle.log_actions.specs.declared.actions.Action.{Action};
ghost use Rattle.log_replay.specs.State.{IsHead};
ghost use Rattle.log_replay.specs.Support.{refusal_of};
ghost use Rattle.commit_check.specs.Admission as spec;
ghost use Rattle.commit_check.specs.Offers as offers;
ghost use Rattle.commit_check.specs.Places as places;
ghost use Rattle.commit_check.specs.declared.conflict.Conflict.TheVariants as conflict;

use crate::actions::{has_vector, is_info, is_meta_data, is_protocol, path_of};
use crate::conflict::{Conflict, NotAdmitted};
use crate::offer::Offer;
use edge_core::Name;
use log_actions::{Action, Actions, Commit, CommitInfo, CommitTime, path_name, text_len};
use log_commit::{CommitFault, MOST_BYTES, NoCommit, commit_from};
use log_replay::{Snapshot, refusal_after};
use std::alloc::{AllocError, Global};

fn has_no_name(alloc: Global, location: &Name, action: &Action) -> Result<bool, AllocError>
    ensures { IfOk result (λ b. b ≡ spec.has_no_name location.now (spec.path_of action.now)) }
{
    match path_of(action) {
        Some(path) => Ok(path_name(alloc, location, path)?.is_none()),
        None => Ok(false),
    }
}

// Whether an action can't be in an offer, whatever stands before it.
fn is_unfit(alloc: Global, location: &Name, action: &Action) -> Result<bool, AllocError>
    ensures { IfOk result (λ b. b ≡ spec.is_unfit location.now action.now) }
{
    if is_info(action) || has_vector(action) {
        return Ok(true);
    }
    has_no_name(alloc, location, action)
}

// The first of those actions.
fn first_unfit(
    alloc: Global,
    location: &Name,
    actions: &[Action],
) -> Result<Option<u64>, AllocError>
    ensures { IfOk result (λ o. o ≡ position_from (spec.is_unfit location.now) 0 actions.now) }
{
    for place in 0..actions.len() {
        if is_unfit(alloc, location, &actions[place])? {
            return Ok(Some(place as u64));
        }
    }
    Ok(None)
}

// A commitInfo of the moment, and the actions.
fn with_info(alloc: Global, now: CommitTime, actions: &[Action]) -> Result<Actions, AllocError>
    ensures { IfOk result (λ all. all ≡ offers.commit_with now actions.now) }
{
    let mut all = Vec::new(alloc);
    all.push(Action::CommitInfo(CommitInfo {
        timestamp: Some(now),
    }))?;
    for action in actions {
        all.push(action.copy(alloc)?)?;
    }
    Ok(Actions::of(all))
}

// The place in the offer of the action that breaks a rule: faults count from 1, and the commitInfo
// stands in front.
fn place_of(fault: CommitFault) -> u64
    ensures { result ≡ places.place_in fault }
{
    match fault {
        CommitFault::TooLarge => 0,
        CommitFault::Line { n, .. }
        | CommitFault::TwoProtocols { n }
        | CommitFault::TwoMetaData { n }
        | CommitFault::BadPath { n }
        | CommitFault::PathTwice { n } => n.saturating_sub(2),
    }
}

fn lesser(place: Option<u64>, other: u64) -> u64
    ensures { result ≡ places.lesser place other }
{
    match place {
        Some(place) if place < other => place,
        _ => other,
    }
}

fn have_protocol(actions: &[Action]) -> bool
    ensures { result ≡ list_any rule.is_protocol actions.now }
{
    actions.iter().any(is_protocol)
}

fn have_meta_data(actions: &[Action]) -> bool
    ensures { result ≡ list_any rule.is_meta_data actions.now }
{
    actions.iter().any(is_meta_data)
}

// Whether a table is begun without a protocol or a metaData.
fn begins_badly(offer: &Offer) -> bool
    ensures { result ≡ spec.begins_badly offer.now.read offer.now.actions }
{
    let actions = offer.actions.items();
    offer.read.is_none() && !(have_protocol(actions) && have_meta_data(actions))
}

fn is_long(commit: &Commit) -> bool
    ensures { result ≡ spec.is_long commit.now }
{
    text_len(commit) > MOST_BYTES as u64
}

// Whether the whole is no commit of the log.
fn is_bad_whole(versions: u64, head: Option<&Snapshot>, offer: &Offer, commit: &Commit) -> bool
    ensures { (log : List (List Action)) → length log ≡ versions → IsHead log (option_map (λ s. s.now) head.entry)
        → result ≡ (is_some (refusal_of (log ++ commit.now ∷ [])) || (spec.begins_badly offer.now.read offer.now.actions || spec.is_long commit.now)) }
{
    refusal_after(versions, head, commit.actions()).is_some()
        || begins_badly(offer)
        || is_long(commit)
}

fn whole(
    versions: u64,
    head: Option<&Snapshot>,
    offer: &Offer,
    commit: Commit,
) -> Result<Commit, NotAdmitted>
    ensures { (log : List (List Action)) → length log ≡ versions → IsHead log (option_map (λ s. s.now) head.entry)
        → spec.Answers result (spec.unless_conflict (option_map (λ n. conflict.BadOffer n)
        (if is_some (refusal_of (log ++ commit ∷ [])) || (spec.begins_badly offer.now.read offer.now.actions || spec.is_long commit) then Some (length offer.now.actions) else None)) commit) }
{
    if is_bad_whole(versions, head, offer, &commit) {
        return Err(Conflict::BadOffer {
            n: offer.actions.items().len() as u64,
        }
        .into());
    }
    Ok(commit)
}

/// The commit of the offer, or the place of the first action that can't be in it; that is the number
/// of actions where the whole is no commit of the log.
pub(crate) fn made(
    alloc: Global,
    versions: u64,
    head: Option<&Snapshot>,
    now: CommitTime,
    offer: &Offer,
) -> Result<Commit, NotAdmitted>
    ensures { (log : List (List Action)) → length log ≡ versions → IsHead log (option_map (λ s. s.now) head.entry)
        → spec.Answers result (spec.unless_conflict (spec.bad_offer log now offer.now) (offers.commit_with now offer.now.actions)) }
{
    let actions = offer.actions.items();
    let unfit = first_unfit(alloc, &offer.location, actions)?;
    let all = with_info(alloc, now, actions)?;
    match commit_from(alloc, all) {
        Err(NoCommit::NoMemory) => Err(NotAdmitted::NoMemory),
        Err(NoCommit::Fault(fault)) => Err(Conflict::BadOffer {
            n: lesser(unfit, place_of(fault)),
        }
        .into()),
        Ok(commit) => match unfit {
            Some(n) => Err(Conflict::BadOffer { n }.into()),
            None => whole(versions, head, offer, commit),
        },
    }
}
