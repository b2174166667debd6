// The log that an edit needs which binds a location of which none was loaded.
ghost use Rattle.std.specs.Prelude.{◌≡◌, IfOk, option_map, List};
ghost use Rattle.edge_core.specs.Faults.{Cause};
ghost use Rattle.log_store.specs.Loads.{IsLoaded, Looked};
ghost use Rattle.log_store.specs.Refusals.{failed_load};
ghost use Rattle.share_book.specs.Legal.{IsKeptLog};
ghost use Rattle.share_book.specs.declared.entry.Entry.{Entry};
ghost use Rattle.hub_catalog.specs.CatalogTurns.{AllowsIn, ChecksIn, start_of_loaded};
ghost use Rattle.hub_catalog.specs.NewLogs.{IsNewLog, failed_allowed};

use crate::catalog_turns::Checked;
use edge_core::Store;
use log_store::{Block, LoadRefusal, Loaded, load};
use share_book::{ReadyLog, ready};
use share_catalog::{Edit, EditRefusal, Location};
use std::alloc::{AllocError, Global};

// Whether an edit may be added, after which log, or why not.
#[derive(Drop)]
pub(crate) enum Allowed {
    Fits(Option<ReadyLog>),
    Refused(EditRefusal),
    Failed(LoadRefusal),
}

fn version_of(block: Option<Block>) -> Option<u64>
    ensures { result ≡ option_map (λ b. b.version) block }
{
    match block {
        Some(block) => Some(block.version),
        None => None,
    }
}

// A log that was loaded from a location, with what the book keeps of it.
fn ready_from(alloc: Global, location: &Location, loaded: Loaded) -> Result<ReadyLog, AllocError>
    requires { IsLoaded loaded }
    ensures { IfOk result (λ s. (s ≡ start_of_loaded location.now loaded) × IsKeptLog s.commits) }
{
    let name = location.name().copy(alloc)?;
    let block = version_of(loaded.block);
    ready(alloc, name, loaded.commits, loaded.bytes, block)
}

// The log at a location, as the store has it at a moment of this call.
fn new_log<W: Store>(
    alloc: Global,
    store: &mut W,
    location: &Location,
) -> Result<ReadyLog, LoadRefusal>
    ensures looked { Looked (W.objects store.old) (W.objects store.new) (W.alone store.old) (W.alone store.new) }
    ensures log { IsNewLog result location.now (W.objects store.old) (W.objects store.new) }
    ensures cause { Cause (W.faults store.old) (W.faults store.new) (failed_load result) }
    ensures stored { W.stored store.new ≡ W.stored store.old }
{
    match load(alloc, store, location.name()) {
        Ok(loaded) => match ready_from(alloc, location, loaded) {
            Ok(log) => Ok(log),
            Err(_) => Err(LoadRefusal::NoMemory),
        },
        Err(refusal) => Err(refusal),
    }
}

// What a check of an edit comes to, with the log that the edit needs.
pub(crate) fn allow<W: Store>(
    alloc: Global,
    store: &mut W,
    edit: &Edit,
    checked: Checked,
) -> Allowed
    ensures looked { Looked (W.objects store.old) (W.objects store.new) (W.alone store.old) (W.alone store.new) }
    ensures allowed { (h : List Entry) → ChecksIn checked edit.now h → AllowsIn result edit.now (W.objects store.old) (W.objects store.new) h }
    ensures cause { Cause (W.faults store.old) (W.faults store.new) (failed_allowed result) }
    ensures stored { W.stored store.new ≡ W.stored store.old }
{
    match checked {
        Checked::Refused(refusal) => Allowed::Refused(refusal),
        Checked::Located => Allowed::Fits(None),
        Checked::Unlocated => match edit.bound_location() {
            Some(location) => match new_log(alloc, store, location) {
                Ok(log) => Allowed::Fits(Some(log)),
                Err(refusal) => Allowed::Failed(refusal),
            },
            None => Allowed::Fits(None),
        },
    }
}
