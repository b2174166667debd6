// The names of records.
ghost use Rattle.std.specs.Prelude.{◌≡◌, IfOk};
ghost use Rattle.catalog_log.specs.RecordNames.{record_name_of};

use edge_core::Name;
use std::alloc::{AllocError, Global};

/// The name of the record of that number, which is counted from 0: `_share_log/N.json`, N being the
/// number in 20 decimal digits. The error is want of memory.
pub fn record_name(alloc: Global, number: u64) -> Result<Name, AllocError>
    ensures { IfOk result (λ n. n ≡ record_name_of number) }
{
    match Name::of(format!(in alloc; "_share_log/{:020}.json", number)?) {
        Some(name) => Ok(name),
        None => unreachable!(),
    }
}
