// A hub is opened over a store.
ghost use Rattle.std.specs.Prelude.{All, ◌≡◌, ◌≤◌, IfOk};
ghost use Rattle.edge_core.specs.Faults.{Cause};
ghost use Rattle.log_store.specs.Loads.{Looked};
ghost use Rattle.hub_calls.specs.Calls.{IsKnown};
ghost use Rattle.hub_catalog.specs.Opens.{OpensAs, failed_open};

use crate::hub::Hub;
use edge_core::Store;
use hub_calls::HubPass;
use hub_catalog::{OpenRefusal, read_book};
use std::alloc::Global;
use turn_cell::TurnCell;

impl Hub {
    /// A hub over the records of a store, and the passes of its callers, of which there are 1 to 65, with the numbers from 0 on.
    ///
    /// The records are read from 0 up to the first that is absent, and the log of each location that one of them binds is
    /// loaded. The history begins with caller 0's Begin, the edits of the records in order, each right after the log that was
    /// loaded for it, and caller 0's Abort. That a log has a version that isn't kept is no refusal. Nothing is stored: the store's
    /// count of stored puts stays. The hub tells for how many callers it was made, and what each pass has seen is legal and theirs
    /// alone (`known`).
    pub fn open<W: Store>(
        alloc: Global,
        store: &mut W,
        callers: u32,
    ) -> Result<(Hub, Vec<HubPass>), OpenRefusal>
        requires callers { (1 ≤ callers) × (callers ≤ 65) }
        ensures opened { OpensAs result callers (W.objects store.old) (W.objects store.new) }
        ensures callers { IfOk result (λ made. made.0.callers ≡ callers) }
        ensures known { IfOk result (λ made. All IsKnown made.1.items) }
        ensures looked { Looked (W.objects store.old) (W.objects store.new) (W.alone store.old) (W.alone store.new) }
        ensures cause { Cause (W.faults store.old) (W.faults store.new) (failed_open result) }
        ensures stored { W.stored store.new ≡ W.stored store.old }
    {
        match read_book(alloc, store) {
            Ok(book) => match TurnCell::new(alloc, book, callers) {
                Ok((cell, passes)) => {
                    passes[0].known();
                    Ok((Hub { cell }, passes))
                }
                Err(_) => Err(OpenRefusal::NoMemory),
            },
            Err(refusal) => Err(refusal),
        }
    }
}
