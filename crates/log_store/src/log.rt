// The loading of a log.
ghost use Rattle.std.specs.Prelude.{◌≡◌, ◌<◌, ◌≤◌, [], IfOk, IfSome, None, length, true};
ghost use Rattle.std.specs.Bool.{OnTrue};
ghost use Rattle.edge_core.specs.Faults.{Cause};
ghost use Rattle.edge_core.specs.Objects.{Between};
ghost use Rattle.log_store.specs.Log.{log_in, versions_in};
ghost use Rattle.log_store.specs.Reading.{loaded_of};
ghost use Rattle.log_store.specs.Loads.{IsLoaded, Looked};
ghost use Rattle.log_store.specs.Refusals.{failed_load};

use crate::kept::Kept;
use crate::loaded::{Block, Loaded};
use crate::reading::read_on;
use crate::refusal::LoadRefusal;
use crate::versions::{end_named, folder_name, gap, leading, versions_of, with_beginning};
use edge_core::{Listed, Name, Store};
use std::alloc::Global;

// The versions that are named in the folder of a table's log.
fn listed_versions<W: Store>(
    alloc: Global,
    store: &mut W,
    location: &Name,
) -> Result<Vec<u64>, LoadRefusal>
    requires { length location.now ≤ 256 }
    ensures looked { Looked (W.objects store.old) (W.objects store.new) (W.alone store.old) (W.alone store.new) }
    ensures versions { IfOk result (λ versions. IfSome (W.objects store.new) (λ os. versions.items ≡ versions_in location.now os)) }
    ensures cause { Cause (W.faults store.old) (W.faults store.new) (failed_load result) }
    ensures stored { W.stored store.new ≡ W.stored store.old }
{
    let folder = folder_name(alloc, location)?;
    match store.list(alloc, &folder) {
        Listed::Names(names) => Ok(versions_of(alloc, names.items())?),
        Listed::Failed => Err(LoadRefusal::StoreFault),
        Listed::NoMemory => Err(LoadRefusal::NoMemory),
    }
}

// Keeps the versions that a listing named, up to the block. Behind what it lacked it goes on by name, up to the greatest version that it had.
fn read_listed<W: Store>(
    alloc: Global,
    store: &mut W,
    location: &Name,
    kept: &mut Kept,
    versions: &[u64],
) -> Result<Option<Block>, LoadRefusal>
    requires short { length location.now ≤ 256 }
    requires first { kept.old ≡ [] }
    requires listed { IfSome (W.objects store.old) (λ os. versions.now ≡ versions_in location.now os) }
    ensures looked { Looked (W.objects store.old) (W.objects store.new) (W.alone store.old) (W.alone store.new) }
    ensures log { IfSome (W.objects store.old) (λ os. IfOk result (λ block. loaded_of kept.new block ≡ log_in location.now os)) }
    ensures next { IfOk result (λ block. IfSome block (λ b. b.version ≡ length kept.new)) }
    ensures cause { Cause (W.faults store.old) (W.faults store.new) (failed_load result) }
    ensures stored { W.stored store.new ≡ W.stored store.old }
{
    let count = leading(versions);
    let block = read_on(alloc, store, location, kept, count as u64)?;
    if block.is_some() || count == versions.len() || store.lists_at_once() {
        return Ok(block.or(gap(versions, count)));
    }
    let block = read_on(alloc, store, location, kept, end_named(versions))?;
    Ok(with_beginning(block, versions))
}

/// The log of the table at `location`, a name of at most 256 bytes, as it was at one moment of this
/// call: the commits of versions 0 and on up to the first that isn't kept, and that version with its
/// cause, where it or a later one is named in the folder. Commits that others add later aren't read.
/// A folder that names no version gives no commits and no block.
///
/// Of a store whose listings are of one moment (`Store::lists_at_once`) the log is that moment's. Of
/// any other a version is told as missing only where it is still absent after a later one was seen,
/// and none is read twice: a log grows by one version after the other, so what a listing of a folder
/// that others write to lacks is there by then. It is asked for by its name, and so is each after it,
/// up to the greatest that was listed. What is greater isn't asked for, since others may write faster
/// than we read.
///
/// Nothing is stored: the store's count of stored puts stays. `StoreFault` comes where a call of the store failed, and `NoMemory` for want of
/// memory.
pub fn load<W: Store>(alloc: Global, store: &mut W, location: &Name) -> Result<Loaded, LoadRefusal>
    requires { length location.now ≤ 256 }
    ensures looked { Looked (W.objects store.old) (W.objects store.new) (W.alone store.old) (W.alone store.new) }
    ensures log { Between (W.objects store.old) (W.objects store.new) (λ os. IfOk result (λ loaded. loaded ≡ log_in location.now os)) }
    ensures kept { IfOk result IsLoaded }
    ensures cause { Cause (W.faults store.old) (W.faults store.new) (failed_load result) }
    ensures stored { W.stored store.new ≡ W.stored store.old }
{
    let versions = listed_versions(alloc, store, location)?;
    let mut kept = Kept::new(alloc);
    let block = read_listed(alloc, store, location, &mut kept, &versions)?;
    Ok(kept.loaded(block))
}
