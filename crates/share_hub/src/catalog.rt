// The catalogue of a hub.
ghost use Rattle.std.specs.Prelude.{◌≡◌, false};
ghost use Rattle.edge_core.specs.Faults.{Cause};
ghost use Rattle.log_store.specs.Loads.{Looked};
ghost use Rattle.hub_calls.specs.Calls.{IsIdle, IsKnown, acknowledged};
ghost use Rattle.hub_catalog.specs.Edits.{Edits, Leaves, failed_edit};
ghost use Rattle.hub_catalog.specs.Refreshes.{Refreshes, failed_refresh};

use crate::hub::Hub;
use edge_core::Store;
use hub_calls::HubPass;
use hub_catalog::{CatalogRefusal, EditEnd, RefreshedCatalog};
use share_catalog::Edit;
use std::alloc::Global;
use std::sync::Wait;

impl Hub {
    /// Makes an edit of the catalogue as the next record of the store, and answers the record's number. Where another caller
    /// has begun on the catalogue, it waits.
    ///
    /// Records that the store has beyond those that are known are published before, at most 63 of them; the 64th ends the call
    /// with `Contended`. A log is loaded for each edit, found or own, that binds a location of which none was; it is published
    /// in the same turn as the edit, right before it. Memory for publishing is taken before the put, so a record that was
    /// stored is published too. No turn is held over a call of the store. Its count of stored puts rises by one with `Ok`, and stays with
    /// each other answer: what is acknowledged is this call's own put.
    pub fn edit<R: Wait, W: Store>(
        &self,
        rt: &R,
        alloc: Global,
        pass: &mut HubPass,
        store: &mut W,
        edit: &Edit,
    ) -> Result<u64, EditEnd>
        requires cell { (pass.old.cell ≡ self.now) × (pass.old.holds ≡ false) }
        ensures same { IsIdle pass.old pass.new }
        ensures entries { Edits result edit.now (W.objects store.old) (W.objects store.new) pass.old pass.new }
        ensures store { Leaves result edit.now (W.objects store.old) (W.objects store.new) (W.alone store.old) (W.alone store.new) pass.new }
        ensures cause { Cause (W.faults store.old) (W.faults store.new) (failed_edit result) }
        ensures stored { W.stored store.new ≡ acknowledged (W.stored store.old) result }
        ensures known { IsKnown pass.new }
    {
        let answer = self.catalog(rt, alloc).edit(pass, store, edit);
        pass.known();
        answer
    }

    /// Takes over records of the catalogue that others have stored, at most 64 in a call, each with the log that it needs.
    ///
    /// The next record is looked for before anything is begun; where none is there, nothing is added to the history. Where
    /// another caller has begun on the catalogue, it waits. No turn is held over a call of the store, and nothing is stored:
    /// the store's count of stored puts stays.
    pub fn refresh_catalog<R: Wait, W: Store>(
        &self,
        rt: &R,
        alloc: Global,
        pass: &mut HubPass,
        store: &mut W,
    ) -> Result<RefreshedCatalog, CatalogRefusal>
        requires cell { (pass.old.cell ≡ self.now) × (pass.old.holds ≡ false) }
        ensures same { IsIdle pass.old pass.new }
        ensures entries { Refreshes result (W.objects store.old) (W.objects store.new) pass.old pass.new }
        ensures looked { Looked (W.objects store.old) (W.objects store.new) (W.alone store.old) (W.alone store.new) }
        ensures cause { Cause (W.faults store.old) (W.faults store.new) (failed_refresh result) }
        ensures stored { W.stored store.new ≡ W.stored store.old }
        ensures known { IsKnown pass.new }
    {
        let answer = self.catalog(rt, alloc).refresh_catalog(pass, store);
        pass.known();
        answer
    }
}
