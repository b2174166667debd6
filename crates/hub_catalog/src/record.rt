// Records of the catalogue, read from a store.
ghost use Rattle.std.specs.Prelude.{◌≡◌, false, IfSome};
ghost use Rattle.edge_core.specs.Faults.{Cause};
ghost use Rattle.log_store.specs.Loads.{Looked};
ghost use Rattle.log_store.specs.Refusals.{failed_load};
ghost use Rattle.hub_catalog.specs.Records.{IsRead, ReadsAs, record_at};

use catalog_log::{RecordFault, edit_of, record_name};
use edge_core::Store;
use log_store::{Fetched, LoadRefusal, fetch};
use share_catalog::Edit;
use std::alloc::Global;

const PIECE: usize = 65_536;

const MOST_RECORD: usize = 16 << 20;

// What a store has as the record of a number.
#[derive(Drop)]
pub(crate) enum Read {
    // No object has its name.
    Absent,
    // The edit that it records.
    Edit(Edit),
    // Why the object is no record. One of more than 16 MiB is none.
    Bad(RecordFault),
}

// What a fetched object is.
fn read_of(alloc: Global, fetched: Fetched) -> Result<Read, LoadRefusal>
    ensures read { ReadsAs fetched result }
    ensures no_store { failed_load result ≡ false }
{
    match fetched {
        Fetched::Absent => Ok(Read::Absent),
        Fetched::TooLong => Ok(Read::Bad(RecordFault::BadRecord)),
        Fetched::Bytes(bytes) => match edit_of(alloc, &bytes) {
            Ok(edit) => Ok(Read::Edit(edit)),
            Err(RecordFault::NoMemory) => Err(LoadRefusal::NoMemory),
            Err(fault) => Ok(Read::Bad(fault)),
        },
    }
}

// The record of that number. Nothing is stored.
pub(crate) fn read_record<W: Store>(
    alloc: Global,
    store: &mut W,
    number: u64,
) -> Result<Read, LoadRefusal>
    ensures looked { Looked (W.objects store.old) (W.objects store.new) (W.alone store.old) (W.alone store.new) }
    ensures record { IfSome (W.objects store.new) (λ os. IsRead (record_at os number) result) }
    ensures cause { Cause (W.faults store.old) (W.faults store.new) (failed_load result) }
    ensures stored { W.stored store.new ≡ W.stored store.old }
{
    let Ok(name) = record_name(alloc, number) else {
        return Err(LoadRefusal::NoMemory);
    };
    let Ok(mut piece) = vec![in alloc; 0; PIECE] else {
        return Err(LoadRefusal::NoMemory);
    };
    match fetch(alloc, store, &name, MOST_RECORD, &mut piece) {
        Ok(fetched) => read_of(alloc, fetched),
        Err(refusal) => Err(refusal),
    }
}
