// Looks for a further version of a log.
ghost use Rattle.std.specs.Prelude.{◌≡◌, ◌<◌, ◌≤◌, ◌^◌, length, false, Some, IfOk, IfSome};
ghost use Rattle.edge_core.specs.Faults.{Cause};
ghost use Rattle.log_store.specs.Loads.{IsCounted, IsProbed, Looked};
ghost use Rattle.log_store.specs.Log.{text_at};
ghost use Rattle.log_store.specs.Refusals.{failed_load};

use crate::reading::{Fetched, MOST_TEXT, fetch, piece_room, version_name};
use crate::refusal::LoadRefusal;
use edge_core::{Name, Store};
use log_actions::{Commit, text_len};
use log_commit::{CommitFault, NoCommit, commit_of};
use std::alloc::Global;

/// What a store has as a version of a log.
#[derive(Drop)]
pub enum Probed {
    /// No object has the version's name.
    Absent,
    /// The version's commit, and how many bytes its printed text has.
    Found(Commit, u64),
    /// The object's bytes are no text of a commit, and why.
    Unreadable(CommitFault),
}

// What the bytes of a version are.
fn probed_in(alloc: Global, bytes: &[u8]) -> Result<Probed, LoadRefusal>
    ensures read { IsProbed (Some bytes.now) result }
    ensures counted { IfOk result IsCounted }
    ensures no_store { failed_load result ≡ false }
{
    match commit_of(alloc, bytes) {
        Ok(commit) => {
            let bytes = text_len(&commit);
            Ok(Probed::Found(commit, bytes))
        }
        Err(NoCommit::Fault(fault)) => Ok(Probed::Unreadable(fault)),
        Err(NoCommit::NoMemory) => Err(LoadRefusal::NoMemory),
    }
}

/// What a store has as the version of a table's log (Delta Lake PROTOCOL.md, "Delta Log Entries"):
/// nothing, a commit, or bytes that are none. The object is read whole, up to 16 MiB and one byte
/// more. Nothing is stored: the store's count of stored puts stays. A fault comes only where its count
/// of faults rose in this call; it says nothing of the version, nor does want of memory.
pub fn probe<W: Store>(
    alloc: Global,
    store: &mut W,
    location: &Name,
    version: u64,
) -> Result<Probed, LoadRefusal>
    requires short { length location.now ≤ 256 }
    requires small { version < 2 ^ 63 }
    ensures looked { Looked (W.objects store.old) (W.objects store.new) (W.alone store.old) (W.alone store.new) }
    ensures probed { IfSome (W.objects store.new) (λ os. IsProbed (text_at location.now os version) result) }
    ensures counted { IfOk result IsCounted }
    ensures cause { Cause (W.faults store.old) (W.faults store.new) (failed_load result) }
    ensures stored { W.stored store.new ≡ W.stored store.old }
{
    let mut piece = piece_room(alloc)?;
    let name = version_name(alloc, location, version)?;
    match fetch(alloc, store, &name, MOST_TEXT, &mut piece)? {
        Fetched::Absent => Ok(Probed::Absent),
        Fetched::TooLong => Ok(Probed::Unreadable(CommitFault::TooLarge)),
        Fetched::Bytes(bytes) => probed_in(alloc, &bytes),
    }
}
