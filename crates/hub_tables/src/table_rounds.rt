// Commits that the store has beyond those that are known, published one by one.
ghost use Rattle.std.specs.Prelude.{◌≡◌, ◌<◌, ◌≤◌, ◌^◌, List, IfOk, IfSome, OnOk, OnErr, false, length, map};
ghost use Rattle.std.specs.Arc.{arc_value};
ghost use Rattle.edge_core.specs.Faults.{Cause};
ghost use Rattle.log_actions.specs.declared.actions.Action.{Action};
ghost use Rattle.log_replay.specs.Standing.{IsSupported, standing_of};
ghost use Rattle.log_store.specs.Loads.{IsCounted, IsProbed, Looked};
ghost use Rattle.log_store.specs.Log.{text_at};
ghost use Rattle.log_store.specs.declared.probing.Probed.TheVariants as probed;
ghost use Rattle.log_store.specs.Refusals.{failed_load};
ghost use Rattle.hub_calls.specs.Calls.{IsIdle};
ghost use Rattle.hub_tables.specs.TableRounds.{HoldsHead, IsHeadOf, IsThere, Nexts, PublishesNext, TakesNext, failed_next_commit};

use crate::caller::Caller;
use crate::table_turns::{CommitPublished, NewCommit};
use edge_core::{Measured, Name, Store};
use hub_calls::HubPass;
use log_actions::Commit;
use log_replay::{NoState, Support};
use log_store::{LoadRefusal, MOST_LOG_BYTES, Probed, probe, version_name};
use share_book::SharedCommit;
use std::alloc::Global;
use std::sync::{Arc, Wait};

// What is known of a log for its next version: the protocol and the metaData that hold, and the bytes of its printed texts.
#[derive(Drop)]
pub(crate) struct LogHead {
    pub(crate) support: Support,
    pub(crate) bytes: u64,
}

// Where a table's log stands: its location in the store, and its number in the book.
#[derive(Clone, Copy)]
pub(crate) struct StoredLog<'a> {
    pub(crate) location: &'a Name,
    pub(crate) log: u32,
}

// Whether a commit is kept as a log's next version.
#[derive(Drop)]
pub(crate) enum Taken {
    Kept(NewCommit),
    Unkept,
    NoMemory,
}

// Whether an object has a version's name.
#[derive(Clone, Copy)]
pub(crate) enum VersionObject {
    There,
    Absent,
}

// Why the caller ended what it began.
#[derive(Clone, Copy)]
pub(crate) enum LogEnd {
    Blocked,
    StoreFault,
    NoMemory,
}

// The next version was published; none was there; or the caller ended what it began.
#[derive(Clone, Copy)]
pub(crate) enum NextCommit {
    Found,
    Absent,
    End(LogEnd),
}

// Keeps a commit as the next version, where it is read and the log stays within 64 MiB. Unless it is kept, nothing has changed.
fn take_next(alloc: Global, head: &mut LogHead, commit: Commit, bytes: u64) -> Taken
    requires small { head.old.support.versions < 2 ^ 63 }
    requires fits { head.old.bytes ≤ 2 ^ 26 }
    requires counted { IsCounted (probed.Found commit bytes) }
    ensures { (log : List (List Action)) → IsHeadOf head.old log → TakesNext result log commit bytes head.new }
{
    if bytes > MOST_LOG_BYTES - head.bytes {
        return Taken::Unkept;
    }
    let Ok(held) = Arc::new(alloc, commit) else {
        return Taken::NoMemory;
    };
    let Ok(other) = Arc::try_clone(&held) else {
        return Taken::NoMemory;
    };
    match head.support.admit(alloc, &held) {
        Ok(()) => {
            head.bytes += bytes;
            Taken::Kept(NewCommit {
                commit: held,
                shared: SharedCommit::of(other),
                bytes,
            })
        }
        Err(NoState::Refusal(_)) => Taken::Unkept,
        Err(NoState::NoMemory) => Taken::NoMemory,
    }
}

// Whether the store has an object as a version.
#[tactic(auto, using(crate::proofs::TableRounding::sized_there, crate::proofs::TableRounding::absent_there))]
pub(crate) fn has_version<W: Store>(
    alloc: Global,
    store: &mut W,
    location: &Name,
    version: u64,
) -> Result<VersionObject, LoadRefusal>
    requires short { length location.now ≤ 256 }
    ensures looked { Looked (W.objects store.old) (W.objects store.new) (W.alone store.old) (W.alone store.new) }
    ensures there { IfSome (W.objects store.new) (λ os. IsThere (text_at location.now os version) result) }
    ensures cause { Cause (W.faults store.old) (W.faults store.new) (failed_load result) }
    ensures stored { W.stored store.new ≡ W.stored store.old }
{
    if version >= 1 << 63 {
        return Err(LoadRefusal::NoMemory);
    }
    let name = version_name(alloc, location, version)?;
    match store.size(&name) {
        Measured::Size(_) => Ok(VersionObject::There),
        Measured::Absent => Ok(VersionObject::Absent),
        Measured::Failed => Err(LoadRefusal::StoreFault),
    }
}

impl<'a, R: Wait> Caller<'a, R> {
    // What the store has as a version. No memory holds a log of 2^63 versions.
    fn look_next<W: Store>(
        &self,
        store: &mut W,
        location: &Name,
        version: u64,
    ) -> Result<Probed, LoadRefusal>
        requires short { length location.now ≤ 256 }
        ensures small { OnOk result (version < 2 ^ 63) }
        ensures looked { Looked (W.objects store.old) (W.objects store.new) (W.alone store.old) (W.alone store.new) }
        ensures probed { IfSome (W.objects store.new) (λ os. IsProbed (text_at location.now os version) result) }
        ensures counted { IfOk result IsCounted }
        ensures cause { Cause (W.faults store.old) (W.faults store.new) (failed_load result) }
        ensures stored { W.stored store.new ≡ W.stored store.old }
    {
        if version >= 1 << 63 {
            return Err(LoadRefusal::NoMemory);
        }
        probe(self.alloc, store, location, version)
    }

    // Publishes a commit that the store has as the next version, or blocks the log.
    fn publish_next(
        &self,
        pass: &mut HubPass,
        log: u32,
        head: &mut LogHead,
        commit: Commit,
        bytes: u64,
    ) -> NextCommit
        requires cell { (pass.old.cell ≡ self.now.cell.now) × (pass.old.holds ≡ false) }
        requires begun { HoldsHead pass.old log head.old }
        requires small { head.old.support.versions < 2 ^ 63 }
        requires counted { IsCounted (probed.Found commit bytes) }
        ensures same { IsIdle pass.old pass.new }
        ensures published { PublishesNext result log commit head.new pass.old pass.new }
    {
        match take_next(self.alloc, head, commit, bytes) {
            Taken::Kept(new) => match self.publish_commit(pass, log, new) {
                CommitPublished::Open => NextCommit::Found,
                CommitPublished::NoMemory => NextCommit::End(LogEnd::NoMemory),
            },
            Taken::Unkept => {
                self.block_log(pass, log);
                NextCommit::End(LogEnd::Blocked)
            }
            Taken::NoMemory => {
                self.abort_log(pass, log);
                NextCommit::End(LogEnd::NoMemory)
            }
        }
    }

    // Publishes the commit that the store has as the next version; an object there that isn't kept blocks the log.
    pub(crate) fn next_commit<W: Store>(
        &self,
        pass: &mut HubPass,
        store: &mut W,
        stored: &StoredLog<'_>,
        head: &mut LogHead,
    ) -> NextCommit
        requires cell { (pass.old.cell ≡ self.now.cell.now) × (pass.old.holds ≡ false) }
        requires short { length stored.now.location.now ≤ 256 }
        requires begun { HoldsHead pass.old stored.now.log head.old }
        ensures same { IsIdle pass.old pass.new }
        ensures next { Nexts result stored.now.location.now stored.now.log head.old head.new (W.objects store.new) pass.old pass.new }
        ensures looked { Looked (W.objects store.old) (W.objects store.new) (W.alone store.old) (W.alone store.new) }
        ensures cause { Cause (W.faults store.old) (W.faults store.new) (failed_next_commit result) }
        ensures stored { W.stored store.new ≡ W.stored store.old }
    {
        match self.look_next(store, stored.location, head.support.versions()) {
            Ok(Probed::Found(commit, bytes)) => {
                self.publish_next(pass, stored.log, head, commit, bytes)
            }
            Ok(Probed::Absent) => NextCommit::Absent,
            Ok(Probed::Unreadable(_)) => {
                self.block_log(pass, stored.log);
                NextCommit::End(LogEnd::Blocked)
            }
            Err(LoadRefusal::StoreFault) => {
                self.abort_log(pass, stored.log);
                NextCommit::End(LogEnd::StoreFault)
            }
            Err(LoadRefusal::NoMemory) => {
                self.abort_log(pass, stored.log);
                NextCommit::End(LogEnd::NoMemory)
            }
        }
    }
}
