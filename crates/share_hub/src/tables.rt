// The tables' logs of a hub.
ghost use Rattle.std.specs.Prelude.{◌≡◌, false};
ghost use Rattle.edge_core.specs.Faults.{Cause};
ghost use Rattle.log_store.specs.Loads.{Looked};
ghost use Rattle.hub_calls.specs.Calls.{IsIdle, IsKnown, acknowledged};
ghost use Rattle.hub_tables.specs.Commits.{CommitLeaves, Commits, failed_commit};
ghost use Rattle.hub_tables.specs.LogRefreshes.{Refreshes, failed_refresh};

use crate::hub::Hub;
use commit_check::Offer;
use edge_core::{Name, Store};
use hub_calls::HubPass;
use hub_tables::{CommitRefusal, RefreshRefusal, Refreshed};
use log_actions::CommitTime;
use std::alloc::Global;
use std::sync::Wait;

impl Hub {
    /// Adds the commit of an offer to a table's log, as its next version, and answers the version: a commitInfo of the moment
    /// `now`, and then the offer's actions. Where another caller has begun on the log, it waits.
    ///
    /// Commits that the store has beyond those that are known are published before, at most 63 of them; the 64th ends the call
    /// with `Contended`. The offer is admitted after all of them, against what was committed since the version that it read.
    /// Memory for publishing is taken before the put, so a commit that was stored is published too. An object that was put
    /// meanwhile under the name of the commit is read and published, and the order begins again. No turn is held over a call of
    /// the store. Its count of stored puts rises by one with `Ok`, and stays with each other answer: what is acknowledged is this call's own
    /// put.
    pub fn commit<R: Wait, W: Store>(
        &self,
        rt: &R,
        alloc: Global,
        pass: &mut HubPass,
        store: &mut W,
        now: CommitTime,
        offer: &Offer,
    ) -> Result<u64, CommitRefusal>
        requires cell { (pass.old.cell ≡ self.now) × (pass.old.holds ≡ false) }
        ensures same { IsIdle pass.old pass.new }
        ensures entries { Commits result now offer.now (W.objects store.old) (W.objects store.new) pass.old pass.new }
        ensures store { CommitLeaves result now offer.now (W.objects store.old) (W.objects store.new) (W.alone store.old) (W.alone store.new) pass.new }
        ensures cause { Cause (W.faults store.old) (W.faults store.new) (failed_commit result) }
        ensures stored { W.stored store.new ≡ acknowledged (W.stored store.old) result }
        ensures known { IsKnown pass.new }
    {
        let answer = self.tables(rt, alloc).commit(pass, store, now, offer);
        pass.known();
        answer
    }

    /// Publishes the commits that the store has beyond those of the log that was loaded from a location, at most 64 in a call
    /// (Delta Lake PROTOCOL.md, "Delta Log Entries"). An object there that isn't kept blocks the log: one that is no commit, one
    /// with which the table isn't read, or with which the log's printed texts pass 64 MiB.
    ///
    /// It looks for the next version before it begins, and adds no entry where the log is blocked or no object has that
    /// version's name. Where another caller has begun on the log, it waits. Nothing is stored, so the store's count of stored puts
    /// stays, and no turn is held over a call of the store.
    pub fn refresh<R: Wait, W: Store>(
        &self,
        rt: &R,
        alloc: Global,
        pass: &mut HubPass,
        store: &mut W,
        location: &Name,
    ) -> Result<Refreshed, RefreshRefusal>
        requires cell { (pass.old.cell ≡ self.now) × (pass.old.holds ≡ false) }
        ensures same { IsIdle pass.old pass.new }
        ensures entries { Refreshes result location.now (W.objects store.old) (W.objects store.new) pass.old pass.new }
        ensures store { Looked (W.objects store.old) (W.objects store.new) (W.alone store.old) (W.alone store.new) }
        ensures cause { Cause (W.faults store.old) (W.faults store.new) (failed_refresh result) }
        ensures stored { W.stored store.new ≡ W.stored store.old }
        ensures known { IsKnown pass.new }
    {
        let answer = self.tables(rt, alloc).refresh(pass, store, location);
        pass.known();
        answer
    }
}
