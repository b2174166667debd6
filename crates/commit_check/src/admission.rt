// Whether an offer may be added to a table's log.
ghost use Rattle.std.specs.Prelude.{◌≡◌, ◌≤◌, ◌^◌, List, IfOk, option_map, map, length};
ghost use Rattle.std.specs.Arc.{arc_value};
ghost use Rattle.std.specs.Option.{option_or};
ghost use Rattle.log_actions.specs.declared.actions.Action.{Action};
ghost use Rattle.log_replay.specs.State.{IsHead, State};
ghost use Rattle.commit_check.specs.Admission as spec;
ghost use Rattle.commit_check.specs.Offers as offers;
ghost use Rattle.commit_check.specs.Winners as won;

use crate::conflict::{Conflict, NotAdmitted};
use crate::made::made;
use crate::offer::Offer;
use crate::offered::Offered;
use crate::reading::Reading;
use crate::winners::first_conflict;
use crate::written::{first_absent, stays_written, takes_data};
use json_tree::Version;
use log_actions::{Commit, CommitTime};
use log_replay::Snapshot;
use std::alloc::{AllocError, Global};
use std::sync::Arc;

// The last version of a log of so many.
fn last_of(versions: u64) -> Option<u64>
    ensures { result ≡ spec.last_of versions }
{
    if 0 < versions {
        Some(versions - 1)
    } else {
        None
    }
}

// The conflict of a version that was read and isn't kept.
fn read_ahead(versions: u64, read: Option<Version>) -> Option<Conflict>
    ensures { result ≡ spec.read_ahead versions read }
{
    let version = read?.get();
    if version < versions {
        None
    } else {
        Some(Conflict::ReadAhead {
            head: last_of(versions),
        })
    }
}

/// The first version after the one that was read, 0 where none was.
pub fn next_version(read: Option<Version>) -> u64
    ensures next { result ≡ won.next_version read }
    ensures most { result ≤ 2 ^ 63 }
{
    match read {
        Some(version) => version.get() + 1,
        None => 0,
    }
}

// What an offer shows before its commit is made.
fn refused_early(versions: u64, head: Option<&Snapshot>, offer: &Offer) -> Option<Conflict>
    ensures { result ≡ option_or (spec.read_ahead versions offer.now.read)
        (spec.unwritten (option_map (λ (s : State). s.protocol) (option_map (λ s. s.now) head.entry)) offer.now.actions) }
{
    if let Some(ahead) = read_ahead(versions, offer.read) {
        return Some(ahead);
    }
    if stays_written(head, offer.actions.items()) {
        None
    } else {
        Some(Conflict::WriterUnsupported)
    }
}

// What an offer shows once its commit is made.
fn refused_late(at: Option<&Snapshot>, head: Option<&Snapshot>, offer: &Offer) -> Option<Conflict>
    ensures { result ≡ option_or (spec.appends_only (option_map (λ (s : State). s.meta) (option_map (λ s. s.now) head.entry)) offer.now.actions)
        (spec.absent (option_map (λ s. s.now) at.entry) offer.now.actions) }
{
    if takes_data(head, offer.actions.items()) {
        return Some(Conflict::AppendOnly);
    }
    match first_absent(at, offer.actions.items()) {
        Some(n) => Some(Conflict::RemoveAbsent { n }),
        None => None,
    }
}

// The first conflict that the winning commits show.
fn winners_conflict(
    alloc: Global,
    winners: &[Arc<Commit>],
    at: Option<&Snapshot>,
    offer: &Offer,
) -> Result<Option<Conflict>, AllocError>
    ensures { (log : List (List Action)) → map arc_value winners.now ≡ won.winners log offer.now.read → option_map (λ s. s.now) at.entry ≡ offers.read_state log offer.now.read
        → IfOk result (λ o. o ≡ spec.winners_conflict log (offers.read_state log offer.now.read) offer.now) }
{
    let offered = Offered::of(alloc, offer.actions.items())?;
    let reading = Reading::of(alloc, &offer.reads, at)?;
    let from = next_version(offer.read);
    Ok(first_conflict(&offered, &reading, from, winners))
}

/// The commit of an offer, to be added to a table's log as its next version: the offer's actions
/// after one commitInfo with the timestamp `now`; or the first conflict that holds, as [`Conflict`]
/// says, or want of memory.
///
/// Of the log it needs no more than how many `versions` it has, the `winners` (the commits after the
/// version that was read, all where none was), the state `at` that version, where that is kept, and
/// the last one, `head`. What it answers is right for each log of which they are.
///
/// Time and memory are those of the offer's actions, of the winners' and of the metaData: no state is
/// copied, and each path is looked up by halving.
pub fn admit(
    alloc: Global,
    versions: u64,
    winners: &[Arc<Commit>],
    at: Option<&Snapshot>,
    head: Option<&Snapshot>,
    now: CommitTime,
    offer: &Offer,
) -> Result<Commit, NotAdmitted>
    ensures { (log : List (List Action)) → length log ≡ versions → map arc_value winners.now ≡ won.winners log offer.now.read
        → option_map (λ s. s.now) at.entry ≡ offers.read_state log offer.now.read → IsHead log (option_map (λ s. s.now) head.entry)
        → spec.Answers result (spec.admitted log now offer.now) }
{
    if let Some(conflict) = refused_early(versions, head, offer) {
        return Err(conflict.into());
    }
    let commit = made(alloc, versions, head, now, offer)?;
    if let Some(conflict) = refused_late(at, head, offer) {
        return Err(conflict.into());
    }
    match winners_conflict(alloc, winners, at, offer)? {
        Some(conflict) => Err(conflict.into()),
        None => Ok(commit),
    }
}
