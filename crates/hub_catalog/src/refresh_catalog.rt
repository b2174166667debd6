// Records of the catalogue that others stored are taken over.
ghost use Rattle.std.specs.Prelude.{◌≡◌, [], false, IfOk, IfSome, IsSome, MatchBool};
ghost use Rattle.std.specs.FinMap as finmap;
ghost use Rattle.edge_core.specs.Faults.{Cause};
ghost use Rattle.catalog_log.specs.RecordNames.{record_name_of};
ghost use Rattle.log_store.specs.Loads.{Looked};
ghost use Rattle.log_store.specs.Refusals.{failed_load};
ghost use Rattle.hub_calls.specs.Calls.{IsIdle};
ghost use Rattle.hub_catalog.specs.CatalogCalls.{HasBegun};
ghost use Rattle.hub_catalog.specs.Refreshes.{IsAhead, failed_ahead, Refreshes, RefreshesBegun, RefreshesOn, failed_refresh};

use crate::caller::Caller;
use crate::found::{CatalogRefusal, Next, refused};
use catalog_log::record_name;
use edge_core::{Measured, Store};
use hub_calls::HubPass;
use log_store::LoadRefusal;
use std::alloc::Global;
use std::sync::Wait;

/// How far the catalogue is known after a refresh.
#[derive(Clone, Copy, Debug, PartialEq, Eq)]
pub struct RefreshedCatalog {
    /// How many edits there are.
    pub edits: u64,
    /// How many of them were found in this call, at most 64. Fewer were found exactly where no further record was there.
    pub found: u32,
}

// Whether the store has a further record.
#[derive(Clone, Copy)]
enum Ahead {
    There,
    Absent,
    Failed(LoadRefusal),
}

// Whether the store has a record of that number.
fn look_ahead<W: Store>(alloc: Global, store: &mut W, number: u64) -> Ahead
    ensures looked { Looked (W.objects store.old) (W.objects store.new) (W.alone store.old) (W.alone store.new) }
    ensures next { IsAhead result number (W.objects store.new) }
    ensures cause { Cause (W.faults store.old) (W.faults store.new) (failed_ahead result) }
    ensures stored { W.stored store.new ≡ W.stored store.old }
{
    let Ok(name) = record_name(alloc, number) else {
        return Ahead::Failed(LoadRefusal::NoMemory);
    };
    match store.size(&name) {
        Measured::Size(_) => Ahead::There,
        Measured::Absent => Ahead::Absent,
        Measured::Failed => Ahead::Failed(LoadRefusal::StoreFault),
    }
}

impl<'a, R: Wait> Caller<'a, R> {
    // Publishes up to 64 records that the store has, and ends what the caller began.
    fn refresh_on<W: Store>(
        &self,
        pass: &mut HubPass,
        store: &mut W,
        first: u64,
    ) -> Result<RefreshedCatalog, CatalogRefusal>
        requires cell { (pass.old.cell ≡ self.now.cell.now) × (pass.old.holds ≡ false) }
        requires begun { HasBegun pass.old first }
        ensures same { IsIdle pass.old pass.new }
        ensures run { RefreshesOn result (W.objects store.old) (W.objects store.new) pass.old pass.new }
        ensures looked { Looked (W.objects store.old) (W.objects store.new) (W.alone store.old) (W.alone store.new) }
        ensures cause { Cause (W.faults store.old) (W.faults store.new) (failed_refresh result) }
        ensures stored { W.stored store.new ≡ W.stored store.old }
    {
        let mut number = first;
        for turn in 0..64u32 {
            match self.next_record(pass, store, number) {
                Next::Found(count) => number = count,
                Next::Absent => {
                    self.abort(pass);
                    return Ok(RefreshedCatalog {
                        edits: number,
                        found: turn,
                    });
                }
                Next::End(refusal) => return Err(refusal),
            }
        }
        self.abort(pass);
        Ok(RefreshedCatalog {
            edits: number,
            found: 64,
        })
    }

    // Begins on the catalogue, and publishes.
    fn refresh_begun<W: Store>(
        &self,
        pass: &mut HubPass,
        store: &mut W,
    ) -> Result<RefreshedCatalog, CatalogRefusal>
        requires cell { (pass.old.cell ≡ self.now.cell.now) × (pass.old.holds ≡ false) }
        ensures run { RefreshesBegun result (W.objects store.old) (W.objects store.new) pass.old pass.new }
        ensures same { IsIdle pass.old pass.new }
        ensures looked { Looked (W.objects store.old) (W.objects store.new) (W.alone store.old) (W.alone store.new) }
        ensures cause { Cause (W.faults store.old) (W.faults store.new) (failed_refresh result) }
        ensures stored { W.stored store.new ≡ W.stored store.old }
    {
        match self.begin(pass) {
            Some(first) => self.refresh_on(pass, store, first),
            None => Err(CatalogRefusal::NoMemory),
        }
    }

    /// Takes over records of the catalogue that others have stored, at most 64 in a call, each with the log that it needs. Nothing is
    /// added where the next record isn't there. Nothing is stored: the store's count of stored puts stays.
    pub fn refresh_catalog<W: Store>(
        &self,
        pass: &mut HubPass,
        store: &mut W,
    ) -> Result<RefreshedCatalog, CatalogRefusal>
        requires cell { (pass.old.cell ≡ self.now.cell.now) × (pass.old.holds ≡ false) }
        ensures same { IsIdle pass.old pass.new }
        ensures entries { Refreshes result (W.objects store.old) (W.objects store.new) pass.old pass.new }
        ensures looked { Looked (W.objects store.old) (W.objects store.new) (W.alone store.old) (W.alone store.new) }
        ensures cause { Cause (W.faults store.old) (W.faults store.new) (failed_refresh result) }
        ensures stored { W.stored store.new ≡ W.stored store.old }
    {
        let edits = self.edit_count(pass);
        match look_ahead(self.alloc, store, edits) {
            Ahead::There => self.refresh_begun(pass, store),
            Ahead::Absent => Ok(RefreshedCatalog { edits, found: 0 }),
            Ahead::Failed(refusal) => Err(refused(refusal)),
        }
    }
}
