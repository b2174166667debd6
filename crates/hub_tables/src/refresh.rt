// Commits that a store has beyond those of a table's log.
ghost use Rattle.std.specs.Prelude.{◌≡◌, ◌≤◌, [], false, IfOk, None, Some, length};
ghost use Rattle.edge_core.specs.Faults.{Cause};
ghost use Rattle.log_actions.specs.CommitTexts.{printed_bytes};
ghost use Rattle.log_store.specs.Loads.{Looked};
ghost use Rattle.hub_calls.specs.Calls.{IsIdle};
ghost use Rattle.hub_tables.specs.TableCalls.{GoesOn};
ghost use Rattle.hub_tables.specs.LogRefreshes.{Refreshes, failed_refresh};
ghost use Rattle.hub_tables.specs.RefreshRounds.{OpensOn, RefreshRuns, RefreshesOn, ended_by, known_by, refused_by};
ghost use Rattle.hub_tables.specs.TableRounds.{HoldsHead};
ghost use Rattle.hub_tables.specs.TableTurns.{IsLog};

use crate::caller::Caller;
use crate::table_rounds::{LogEnd, LogHead, NextCommit, StoredLog, VersionObject, has_version};
use crate::table_turns::KnownLog;
use edge_core::{Name, Store};
use hub_calls::HubPass;
use log_replay::Support;
use log_store::LoadRefusal;
use share_book::LogState;
use std::alloc::{AllocError, Global};
use std::sync::Wait;

// The most bytes of a location.
pub(crate) const MOST_LOCATION: usize = 256;

/// What is known of a table's log after a refresh.
#[derive(Clone, Copy, Debug, PartialEq, Eq)]
pub struct Refreshed {
    /// How many versions are kept.
    pub kept: u64,
    /// The version that isn't kept, where there is one: then it is `kept`, and later ones aren't looked for.
    pub block: Option<u64>,
    /// How many commits were found in this call, at most 64.
    pub found: u32,
}

/// Why a log wasn't refreshed to the end.
#[derive(Clone, Copy, Debug, PartialEq, Eq)]
pub enum RefreshRefusal {
    /// No log was loaded from the location.
    NotLoaded,
    /// The store failed: its count of faults rose in this call.
    StoreFault,
    /// Memory is wanting.
    NoMemory,
}

fn refused(refusal: LoadRefusal) -> RefreshRefusal
    ensures { result ≡ refused_by refusal }
{
    match refusal {
        LoadRefusal::StoreFault => RefreshRefusal::StoreFault,
        LoadRefusal::NoMemory => RefreshRefusal::NoMemory,
    }
}

fn known(state: LogState) -> Refreshed
    ensures { result ≡ known_by state }
{
    Refreshed {
        kept: state.kept,
        block: state.block,
        found: 0,
    }
}

fn ended(end: LogEnd, kept: u64, found: u32) -> Result<Refreshed, RefreshRefusal>
    ensures { result ≡ ended_by end kept found }
{
    match end {
        LogEnd::Blocked => Ok(Refreshed {
            kept,
            block: Some(kept),
            found,
        }),
        LogEnd::StoreFault => Err(RefreshRefusal::StoreFault),
        LogEnd::NoMemory => Err(RefreshRefusal::NoMemory),
    }
}

impl<'a, R: Wait> Caller<'a, R> {
    // What is known of a log for its next version. The state after its commits is kept for the next time. The error is want of memory.
    pub(crate) fn log_head(
        &self,
        pass: &mut HubPass,
        log: u32,
        state: LogState,
    ) -> Result<LogHead, AllocError>
        requires cell { (pass.old.cell ≡ self.now.cell.now) × (pass.old.holds ≡ false) }
        requires opened { OpensOn pass.old log state }
        requires free { state.block ≡ None }
        ensures same { IsIdle pass.old pass.new }
        ensures goes { GoesOn pass.old pass.new log [] }
        ensures head { IfOk result (λ h. HoldsHead pass.new log h) }
    {
        let Some(replay) = self.log_replay(pass, log)? else {
            return Ok(LogHead {
                support: Support::new(),
                bytes: state.bytes,
            });
        };
        let head = replay.made(self.alloc)?;
        self.keep_made(pass, log, &replay, &head);
        let support = Support::of(self.alloc, head.get())?;
        Ok(LogHead {
            support,
            bytes: state.bytes,
        })
    }

    // Up to 64 found commits. The head is lent: one that is owned here would be dropped where each round may end.
    fn refresh_rounds<W: Store>(
        &self,
        pass: &mut HubPass,
        store: &mut W,
        stored: &StoredLog<'_>,
        head: &mut LogHead,
    ) -> Result<Refreshed, RefreshRefusal>
        requires cell { (pass.old.cell ≡ self.now.cell.now) × (pass.old.holds ≡ false) }
        requires short { length stored.now.location.now ≤ 256 }
        requires begun { HoldsHead pass.old stored.now.log head.old }
        ensures same { IsIdle pass.old pass.new }
        ensures runs { RefreshRuns result stored.now.location.now stored.now.log (W.objects store.old) (W.objects store.new) pass.old pass.new }
        ensures looked { Looked (W.objects store.old) (W.objects store.new) (W.alone store.old) (W.alone store.new) }
        ensures cause { Cause (W.faults store.old) (W.faults store.new) (failed_refresh result) }
        ensures stored { W.stored store.new ≡ W.stored store.old }
    {
        for found in 0..64u32 {
            let kept = head.support.versions();
            match self.next_commit(pass, store, stored, head) {
                NextCommit::Found => {}
                NextCommit::Absent => {
                    self.abort_log(pass, stored.log);
                    return Ok(Refreshed {
                        kept,
                        block: None,
                        found,
                    });
                }
                NextCommit::End(end) => return ended(end, kept, found),
            }
        }
        self.abort_log(pass, stored.log);
        Ok(Refreshed {
            kept: head.support.versions(),
            block: None,
            found: 64,
        })
    }

    // A refresh that has begun.
    fn refresh_open<W: Store>(
        &self,
        pass: &mut HubPass,
        store: &mut W,
        stored: &StoredLog<'_>,
        state: LogState,
    ) -> Result<Refreshed, RefreshRefusal>
        requires cell { (pass.old.cell ≡ self.now.cell.now) × (pass.old.holds ≡ false) }
        requires short { length stored.now.location.now ≤ 256 }
        requires opened { OpensOn pass.old stored.now.log state }
        ensures same { IsIdle pass.old pass.new }
        ensures runs { RefreshRuns result stored.now.location.now stored.now.log (W.objects store.old) (W.objects store.new) pass.old pass.new }
        ensures looked { Looked (W.objects store.old) (W.objects store.new) (W.alone store.old) (W.alone store.new) }
        ensures cause { Cause (W.faults store.old) (W.faults store.new) (failed_refresh result) }
        ensures stored { W.stored store.new ≡ W.stored store.old }
    {
        match state.block {
            Some(_) => {
                self.abort_log(pass, stored.log);
                Ok(known(state))
            }
            None => match self.log_head(pass, stored.log, state) {
                Ok(mut head) => self.refresh_rounds(pass, store, stored, &mut head),
                Err(_) => {
                    self.abort_log(pass, stored.log);
                    Err(RefreshRefusal::NoMemory)
                }
            },
        }
    }

    // Begins on a log whose next version is there.
    fn refresh_log<W: Store>(
        &self,
        pass: &mut HubPass,
        store: &mut W,
        stored: &StoredLog<'_>,
    ) -> Result<Refreshed, RefreshRefusal>
        requires cell { (pass.old.cell ≡ self.now.cell.now) × (pass.old.holds ≡ false) }
        requires short { length stored.now.location.now ≤ 256 }
        requires there { IsLog stored.now.log pass.old.seen }
        ensures same { IsIdle pass.old pass.new }
        ensures ran { RefreshesOn result stored.now.location.now stored.now.log (W.objects store.old) (W.objects store.new) pass.old pass.new }
        ensures looked { Looked (W.objects store.old) (W.objects store.new) (W.alone store.old) (W.alone store.new) }
        ensures cause { Cause (W.faults store.old) (W.faults store.new) (failed_refresh result) }
        ensures stored { W.stored store.new ≡ W.stored store.old }
    {
        match self.begin_log(pass, stored.log) {
            Some(state) => self.refresh_open(pass, store, stored, state),
            None => Err(RefreshRefusal::NoMemory),
        }
    }

    /// Publishes the commits that the store has beyond those of the log that was loaded from a location, at most 64 in a call. Nothing is
    /// added where the next version isn't there. Nothing is stored: the store's count of stored puts stays.
    pub fn refresh<W: Store>(
        &self,
        pass: &mut HubPass,
        store: &mut W,
        location: &Name,
    ) -> Result<Refreshed, RefreshRefusal>
        requires cell { (pass.old.cell ≡ self.now.cell.now) × (pass.old.holds ≡ false) }
        ensures same { IsIdle pass.old pass.new }
        ensures entries { Refreshes result location.now (W.objects store.old) (W.objects store.new) pass.old pass.new }
        ensures store { Looked (W.objects store.old) (W.objects store.new) (W.alone store.old) (W.alone store.new) }
        ensures cause { Cause (W.faults store.old) (W.faults store.new) (failed_refresh result) }
        ensures stored { W.stored store.new ≡ W.stored store.old }
    {
        if location.as_str().len() > MOST_LOCATION {
            return Err(RefreshRefusal::NotLoaded);
        }
        let Some(KnownLog { log, state }) = self.find_log(pass, location.as_str()) else {
            return Err(RefreshRefusal::NotLoaded);
        };
        if state.block.is_some() {
            return Ok(known(state));
        }
        match has_version(self.alloc, store, location, state.kept) {
            Ok(VersionObject::Absent) => Ok(known(state)),
            Ok(VersionObject::There) => self.refresh_log(pass, store, &StoredLog { location, log }),
            Err(refusal) => Err(refused(refusal)),
        }
    }
}
