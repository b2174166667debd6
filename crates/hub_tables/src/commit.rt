// Commits of offers to tables' logs.
ghost use Rattle.std.specs.Prelude.{◌≡◌, ◌≤◌, ◌∷◌, ◌^◌, [], Ok, false, IfOk, None, Some, length};
ghost use Rattle.std.specs.List.{list_any};
ghost use Rattle.edge_core.specs.Faults.{Cause};
ghost use Rattle.log_actions.specs.CommitTexts.{commit_text};
ghost use Rattle.log_actions.specs.Printing.{has_vector};
ghost use Rattle.log_commit.specs.Names.{commit_name};
ghost use Rattle.log_commit.specs.Texts.{commit_in};
ghost use Rattle.log_store.specs.Loads.{Looked};
ghost use Rattle.commit_check.specs.Admission.{Answers, admitted};
ghost use Rattle.share_book.specs.History.{table_on};
ghost use Rattle.share_book.specs.Legal.{There};
ghost use Rattle.share_book.specs.declared.entry.Act.TheVariants as act;
ghost use Rattle.hub_calls.specs.Calls.{IsIdle, acknowledged};
ghost use Rattle.hub_tables.specs.CommitRounds.{Agains, CommitRounds, CommitRuns, HasName, HoldsSome, IsFit, PlacedStore, PlacesOn, RoundLeft, acknowledged_place, acknowledged_round, failed_again, failed_place, failed_round, refused_by, refused_for};
ghost use Rattle.hub_tables.specs.Commits.{CommitBegan, CommitLeaves, CommitLeft, Commits, LacksNext, failed_commit};
ghost use Rattle.hub_tables.specs.RefreshRounds.{OpensOn};
ghost use Rattle.hub_tables.specs.TableCalls.{GoesOn, StopsOn};
ghost use Rattle.hub_tables.specs.TableRounds.{HoldsHead};
ghost use Rattle.hub_tables.specs.TableTurns.{IsLog};

use crate::admission::{admission, states_of};
use crate::caller::Caller;
use crate::refresh::MOST_LOCATION;
use crate::table_rounds::{LogEnd, LogHead, NextCommit, StoredLog};
use crate::table_turns::{KnownLog, NewCommit};
use commit_check::{Conflict, NotAdmitted, Offer};
use edge_core::{Name, Put, Store};
use hub_calls::HubPass;
use log_actions::{Commit, CommitTime, text_len};
use log_commit::bytes_of;
use log_store::{MOST_LOG_BYTES, version_name};
use share_book::{LogState, SharedCommit};
use std::alloc::{AllocError, Global};
use std::sync::{Arc, Wait};

/// Why a commit wasn't made.
#[derive(Clone, Copy, Debug, PartialEq, Eq)]
pub enum CommitRefusal {
    /// No log was loaded from the offer's location.
    NotLoaded,
    /// The log has a version that isn't kept: an object has its name that is no commit, or with which the table isn't read or the
    /// log's printed texts pass 64 MiB.
    Blocked {
        /// The version.
        version: u64,
    },
    /// The store had 64 commits that weren't known, and they are now.
    Contended,
    /// The offer isn't admitted after all commits that the store had.
    Conflict(Conflict),
    /// With the commit the log's printed texts would pass 64 MiB.
    Limit,
    /// The store failed: its count of faults rose in this call. The commit may be stored.
    StoreFault,
    /// Memory is wanting. Nothing was stored.
    NoMemory,
}

// The commit was published; another object has its name; or the caller ended what it began.
#[derive(Clone, Copy)]
enum PlaceEnd {
    Done,
    Exists,
    Limit,
    StoreFault,
    NoMemory,
}

// What is made before a put, so that none of it is wanting after.
#[derive(Drop)]
struct OwnCommit {
    held: Arc<Commit>,
    shared: SharedCommit,
    bytes: Vec<u8>,
    name: Name,
}

// A caller's commit, before it is admitted: its moment, what is offered, and the log on which it is tried.
#[derive(Clone, Copy)]
struct Attempt<'a> {
    moment: CommitTime,
    offer: &'a Offer,
    log: u32,
}

// No memory holds a log of 2^63 versions.
fn prepare(
    alloc: Global,
    location: &Name,
    version: u64,
    commit: Commit,
) -> Result<OwnCommit, AllocError>
    requires short { length location.now ≤ 256 }
    ensures same { IfOk result (λ o. (o.held.value ≡ commit) × (o.shared ≡ commit)) }
    ensures stored { IfOk result (λ o. (o.name ≡ commit_name location.now version) × (o.bytes.items ≡ commit_text commit)) }
    ensures back { IfOk result (λ o. list_any has_vector commit ≡ false → length (commit_text commit) ≤ 2 ^ 24 → commit_in (commit_text commit) ≡ Ok commit) }
{
    if version >= 1 << 63 {
        return Err(AllocError);
    }
    let name = version_name(alloc, location, version)?;
    let bytes = bytes_of(alloc, &commit)?;
    let Ok(held) = Arc::new(alloc, commit) else {
        return Err(AllocError);
    };
    let Ok(other) = Arc::try_clone(&held) else {
        return Err(AllocError);
    };
    Ok(OwnCommit {
        held,
        shared: SharedCommit::of(other),
        bytes,
        name,
    })
}

fn refused(end: LogEnd, version: u64) -> CommitRefusal
    ensures { result ≡ refused_by end version }
{
    match end {
        LogEnd::Blocked => CommitRefusal::Blocked { version },
        LogEnd::StoreFault => CommitRefusal::StoreFault,
        LogEnd::NoMemory => CommitRefusal::NoMemory,
    }
}

fn turned_down(refused: NotAdmitted) -> CommitRefusal
    ensures { result ≡ refused_for refused }
{
    match refused {
        NotAdmitted::Conflict(conflict) => CommitRefusal::Conflict(conflict),
        NotAdmitted::NoMemory => CommitRefusal::NoMemory,
    }
}

impl<'a, R: Wait> Caller<'a, R> {
    // Ends what the caller began.
    fn end_commit(
        &self,
        pass: &mut HubPass,
        log: u32,
        refusal: CommitRefusal,
    ) -> Option<Result<u64, CommitRefusal>>
        requires cell { (pass.old.cell ≡ self.now.cell.now) × (pass.old.holds ≡ false) }
        requires begun { HoldsSome pass.old log }
        ensures same { IsIdle pass.old pass.new }
        ensures told { result ≡ Some (Err refusal) }
        ensures ended { StopsOn pass.old pass.new log [] (act.Abort ∷ []) }
    {
        self.abort_log(pass, log);
        Some(Err(refusal))
    }

    // Puts a commit that the log takes as its next version, and publishes it.
    fn place<W: Store>(
        &self,
        pass: &mut HubPass,
        store: &mut W,
        stored: &StoredLog<'_>,
        head: &LogHead,
        commit: Commit,
    ) -> PlaceEnd
        requires cell { (pass.old.cell ≡ self.now.cell.now) × (pass.old.holds ≡ false) }
        requires short { length stored.now.location.now ≤ 256 }
        requires begun { HoldsHead pass.old stored.now.log head.now }
        requires fits { There (table_on stored.now.log pass.old.seen) (λ t. IsFit t.commits commit) }
        ensures same { IsIdle pass.old pass.new }
        ensures placed { PlacesOn result stored.now.log commit pass.old pass.new }
        ensures store { PlacedStore result (commit_name stored.now.location.now head.now.support.versions) (commit_text commit) (W.objects store.old) (W.objects store.new) (W.alone store.old) (W.alone store.new) }
        ensures cause { Cause (W.faults store.old) (W.faults store.new) (failed_place result) }
        ensures stored { W.stored store.new ≡ acknowledged_place (W.stored store.old) result }
    {
        let len = text_len(&commit);
        if len > MOST_LOG_BYTES - head.bytes {
            self.abort_log(pass, stored.log);
            return PlaceEnd::Limit;
        }
        let Ok(own) = prepare(self.alloc, stored.location, head.support.versions(), commit) else {
            self.abort_log(pass, stored.log);
            return PlaceEnd::NoMemory;
        };
        match store.put_absent(&own.name, &own.bytes) {
            Put::Stored => {
                let new = NewCommit {
                    commit: own.held,
                    shared: own.shared,
                    bytes: len,
                };
                self.own_commit(pass, stored.log, new);
                PlaceEnd::Done
            }
            Put::Exists => PlaceEnd::Exists,
            Put::Failed => {
                self.abort_log(pass, stored.log);
                PlaceEnd::StoreFault
            }
        }
    }

    // The commit that the store has as the next version, since a put answered that it has one. Where it isn't found then, it
    // isn't kept.
    fn again_on_log<W: Store>(
        &self,
        pass: &mut HubPass,
        store: &mut W,
        stored: &StoredLog<'_>,
        head: &mut LogHead,
    ) -> Option<LogEnd>
        requires cell { (pass.old.cell ≡ self.now.cell.now) × (pass.old.holds ≡ false) }
        requires short { length stored.now.location.now ≤ 256 }
        requires begun { HoldsHead pass.old stored.now.log head.old }
        requires exists { HasName (commit_name stored.now.location.now head.old.support.versions) (W.objects store.old) }
        ensures same { IsIdle pass.old pass.new }
        ensures next { Agains result stored.now.location.now stored.now.log head.old head.new (W.objects store.new) pass.old pass.new }
        ensures looked { Looked (W.objects store.old) (W.objects store.new) (W.alone store.old) (W.alone store.new) }
        ensures cause { Cause (W.faults store.old) (W.faults store.new) (failed_again result) }
        ensures stored { W.stored store.new ≡ W.stored store.old }
    {
        match self.next_commit(pass, store, stored, head) {
            NextCommit::Found => None,
            NextCommit::Absent => {
                self.block_log(pass, stored.log);
                Some(LogEnd::Blocked)
            }
            NextCommit::End(end) => Some(end),
        }
    }

    // What the offer comes to after the commits of the log on which the caller has begun.
    fn admit_next(&self, pass: &mut HubPass, attempt: &Attempt<'_>) -> Result<Commit, NotAdmitted>
        requires cell { (pass.old.cell ≡ self.now.cell.now) × (pass.old.holds ≡ false) }
        requires begun { HoldsSome pass.old attempt.now.log }
        ensures same { IsIdle pass.old pass.new }
        ensures goes { GoesOn pass.old pass.new attempt.now.log [] }
        ensures told { There (table_on attempt.now.log pass.old.seen) (λ t. Answers result (admitted t.commits attempt.now.moment attempt.now.offer.now)) }
    {
        let Ok(found) = self.offer_log(pass, attempt.log, attempt.offer) else {
            return Err(NotAdmitted::NoMemory);
        };
        let Ok(states) = states_of(self.alloc, &found) else {
            return Err(NotAdmitted::NoMemory);
        };
        admission(self.alloc, &found, &states, attempt.moment, attempt.offer)
    }

    // The caller's own commit as that version, where no further was there.
    fn own_commit_round<W: Store>(
        &self,
        pass: &mut HubPass,
        store: &mut W,
        attempt: &Attempt<'_>,
        head: &mut LogHead,
        version: u64,
    ) -> Option<Result<u64, CommitRefusal>>
        requires cell { (pass.old.cell ≡ self.now.cell.now) × (pass.old.holds ≡ false) }
        requires short { length attempt.now.offer.now.location ≤ 256 }
        requires begun { HoldsHead pass.old attempt.now.log head.old }
        requires version { version ≡ head.old.support.versions }
        requires absent { There (table_on attempt.now.log pass.old.seen) (λ t. LacksNext attempt.now.offer.now (W.objects store.old) t.commits) }
        ensures same { IsIdle pass.old pass.new }
        ensures round { CommitRounds result attempt.now.moment attempt.now.offer.now attempt.now.log head.old head.new (W.objects store.old) (W.objects store.new) pass.old pass.new }
        ensures store { RoundLeft result attempt.now.moment attempt.now.offer.now attempt.now.log (W.objects store.old) (W.objects store.new) (W.alone store.old) (W.alone store.new) pass.new }
        ensures cause { Cause (W.faults store.old) (W.faults store.new) (failed_round result) }
        ensures stored { W.stored store.new ≡ acknowledged_round (W.stored store.old) result }
    {
        let stored = StoredLog {
            location: &attempt.offer.location,
            log: attempt.log,
        };
        match self.admit_next(pass, attempt) {
            Ok(commit) => match self.place(pass, store, &stored, head, commit) {
                PlaceEnd::Done => Some(Ok(version)),
                PlaceEnd::Exists => match self.again_on_log(pass, store, &stored, head) {
                    None => None,
                    Some(end) => Some(Err(refused(end, version))),
                },
                PlaceEnd::Limit => Some(Err(CommitRefusal::Limit)),
                PlaceEnd::StoreFault => Some(Err(CommitRefusal::StoreFault)),
                PlaceEnd::NoMemory => Some(Err(CommitRefusal::NoMemory)),
            },
            Err(refused) => self.end_commit(pass, attempt.log, turned_down(refused)),
        }
    }

    // One commit more of the store's, or the caller's own.
    fn commit_round<W: Store>(
        &self,
        pass: &mut HubPass,
        store: &mut W,
        attempt: &Attempt<'_>,
        head: &mut LogHead,
    ) -> Option<Result<u64, CommitRefusal>>
        requires cell { (pass.old.cell ≡ self.now.cell.now) × (pass.old.holds ≡ false) }
        requires short { length attempt.now.offer.now.location ≤ 256 }
        requires begun { HoldsHead pass.old attempt.now.log head.old }
        ensures same { IsIdle pass.old pass.new }
        ensures round { CommitRounds result attempt.now.moment attempt.now.offer.now attempt.now.log head.old head.new (W.objects store.old) (W.objects store.new) pass.old pass.new }
        ensures store { RoundLeft result attempt.now.moment attempt.now.offer.now attempt.now.log (W.objects store.old) (W.objects store.new) (W.alone store.old) (W.alone store.new) pass.new }
        ensures cause { Cause (W.faults store.old) (W.faults store.new) (failed_round result) }
        ensures stored { W.stored store.new ≡ acknowledged_round (W.stored store.old) result }
    {
        let version = head.support.versions();
        let stored = StoredLog {
            location: &attempt.offer.location,
            log: attempt.log,
        };
        match self.next_commit(pass, store, &stored, head) {
            NextCommit::Found => None,
            NextCommit::Absent => self.own_commit_round(pass, store, attempt, head, version),
            NextCommit::End(end) => Some(Err(refused(end, version))),
        }
    }

    // Up to 64 rounds.
    fn commit_rounds<W: Store>(
        &self,
        pass: &mut HubPass,
        store: &mut W,
        attempt: &Attempt<'_>,
        head: &mut LogHead,
    ) -> Result<u64, CommitRefusal>
        requires cell { (pass.old.cell ≡ self.now.cell.now) × (pass.old.holds ≡ false) }
        requires short { length attempt.now.offer.now.location ≤ 256 }
        requires begun { HoldsHead pass.old attempt.now.log head.old }
        ensures same { IsIdle pass.old pass.new }
        ensures runs { CommitRuns result attempt.now.moment attempt.now.offer.now (W.objects store.old) (W.objects store.new) pass.old pass.new attempt.now.log }
        ensures store { CommitLeft result attempt.now.moment attempt.now.offer.now attempt.now.log (W.objects store.old) (W.objects store.new) (W.alone store.old) (W.alone store.new) pass.new }
        ensures cause { Cause (W.faults store.old) (W.faults store.new) (failed_commit result) }
        ensures stored { W.stored store.new ≡ acknowledged (W.stored store.old) result }
    {
        for found in 0..64u32 {
            match self.commit_round(pass, store, attempt, head) {
                None => {}
                Some(end) => return end,
            }
        }
        self.abort_log(pass, attempt.log);
        Err(CommitRefusal::Contended)
    }

    // A commit that has begun.
    fn commit_open<W: Store>(
        &self,
        pass: &mut HubPass,
        store: &mut W,
        attempt: &Attempt<'_>,
        state: LogState,
    ) -> Result<u64, CommitRefusal>
        requires cell { (pass.old.cell ≡ self.now.cell.now) × (pass.old.holds ≡ false) }
        requires short { length attempt.now.offer.now.location ≤ 256 }
        requires opened { OpensOn pass.old attempt.now.log state }
        ensures same { IsIdle pass.old pass.new }
        ensures runs { CommitRuns result attempt.now.moment attempt.now.offer.now (W.objects store.old) (W.objects store.new) pass.old pass.new attempt.now.log }
        ensures store { CommitLeft result attempt.now.moment attempt.now.offer.now attempt.now.log (W.objects store.old) (W.objects store.new) (W.alone store.old) (W.alone store.new) pass.new }
        ensures cause { Cause (W.faults store.old) (W.faults store.new) (failed_commit result) }
        ensures stored { W.stored store.new ≡ acknowledged (W.stored store.old) result }
    {
        match state.block {
            Some(version) => {
                self.abort_log(pass, attempt.log);
                Err(CommitRefusal::Blocked { version })
            }
            None => match self.log_head(pass, attempt.log, state) {
                Ok(mut head) => self.commit_rounds(pass, store, attempt, &mut head),
                Err(_) => {
                    self.abort_log(pass, attempt.log);
                    Err(CommitRefusal::NoMemory)
                }
            },
        }
    }

    // Begins on a log.
    fn commit_log<W: Store>(
        &self,
        pass: &mut HubPass,
        store: &mut W,
        attempt: &Attempt<'_>,
    ) -> Result<u64, CommitRefusal>
        requires cell { (pass.old.cell ≡ self.now.cell.now) × (pass.old.holds ≡ false) }
        requires short { length attempt.now.offer.now.location ≤ 256 }
        requires there { IsLog attempt.now.log pass.old.seen }
        ensures same { IsIdle pass.old pass.new }
        ensures began { CommitBegan result attempt.now.moment attempt.now.offer.now (W.objects store.old) (W.objects store.new) pass.old pass.new attempt.now.log }
        ensures store { CommitLeft result attempt.now.moment attempt.now.offer.now attempt.now.log (W.objects store.old) (W.objects store.new) (W.alone store.old) (W.alone store.new) pass.new }
        ensures cause { Cause (W.faults store.old) (W.faults store.new) (failed_commit result) }
        ensures stored { W.stored store.new ≡ acknowledged (W.stored store.old) result }
    {
        match self.begin_log(pass, attempt.log) {
            Some(state) => self.commit_open(pass, store, attempt, state),
            None => Err(CommitRefusal::NoMemory),
        }
    }

    /// Adds the commit of an offer to a table's log, as its next version, and answers the version. Commits that the store has beyond
    /// those that are known are published before. The store's count of stored puts rises by one with `Ok`, and stays with each other answer:
    /// what is acknowledged is this call's own put.
    pub fn commit<W: Store>(
        &self,
        pass: &mut HubPass,
        store: &mut W,
        now: CommitTime,
        offer: &Offer,
    ) -> Result<u64, CommitRefusal>
        requires cell { (pass.old.cell ≡ self.now.cell.now) × (pass.old.holds ≡ false) }
        ensures same { IsIdle pass.old pass.new }
        ensures entries { Commits result now offer.now (W.objects store.old) (W.objects store.new) pass.old pass.new }
        ensures store { CommitLeaves result now offer.now (W.objects store.old) (W.objects store.new) (W.alone store.old) (W.alone store.new) pass.new }
        ensures cause { Cause (W.faults store.old) (W.faults store.new) (failed_commit result) }
        ensures stored { W.stored store.new ≡ acknowledged (W.stored store.old) result }
    {
        if offer.location.as_str().len() > MOST_LOCATION {
            return Err(CommitRefusal::NotLoaded);
        }
        match self.find_log(pass, offer.location.as_str()) {
            Some(KnownLog { log, .. }) => {
                let attempt = Attempt {
                    moment: now,
                    offer,
                    log,
                };
                self.commit_log(pass, store, &attempt)
            }
            None => Err(CommitRefusal::NotLoaded),
        }
    }
}
