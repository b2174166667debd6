// Records that the store has, published one by one.
ghost use Rattle.std.specs.Prelude.{◌≡◌, [], None, Some, false};
ghost use Rattle.edge_core.specs.Faults.{Cause};
ghost use Rattle.log_store.specs.Loads.{Looked};
ghost use Rattle.share_catalog.specs.Catalogue.{refusal_of};
ghost use Rattle.share_book.specs.History.{edits, open_on};
ghost use Rattle.share_book.specs.declared.entry.Act.TheVariants as act;
ghost use Rattle.hub_calls.specs.Calls.{IsIdle};
ghost use Rattle.hub_catalog.specs.CatalogCalls.{Goes, HasBegun, Stops};
ghost use Rattle.hub_catalog.specs.CatalogTurns.{AllowsIn, LoadFits};
ghost use Rattle.hub_catalog.specs.NewLogs.{failed_allowed};
ghost use Rattle.hub_catalog.specs.Records.{HasRecord};
ghost use Rattle.hub_catalog.specs.Rounds.{Nexts, PublishesNext, failed_next, refusal_by};
ghost use Rattle.hub_catalog.specs.declared.found.Next.TheVariants as next;

use crate::caller::Caller;
use crate::catalog_turns::{Published, new_edit};
use crate::new_log::{Allowed, allow};
use crate::record::{Read, read_record};
use edge_core::Store;
use hub_calls::HubPass;
use log_store::LoadRefusal;
use share_book::ReadyLog;
use share_catalog::Edit;
use std::alloc::Global;
use std::sync::Wait;

/// Why found records weren't published to the last.
#[derive(Clone, Copy, Debug, PartialEq, Eq)]
pub enum CatalogRefusal {
    /// An object is there as the next record, and is no record of at most 16 MiB, or the catalogue refuses its edit.
    Blocked {
        /// The record's number.
        number: u64,
    },
    /// The store failed: its count of faults rose in this call.
    StoreFault,
    /// Memory is wanting.
    NoMemory,
}

// How many edits there are after a found record was published; none was there; or the caller ended what it began.
#[derive(Clone, Copy)]
pub(crate) enum Next {
    Found(u64),
    Absent,
    End(CatalogRefusal),
}

// The refusal that a failed load stands for.
pub(crate) fn refused(refusal: LoadRefusal) -> CatalogRefusal
    ensures { result ≡ refusal_by refusal }
{
    match refusal {
        LoadRefusal::StoreFault => CatalogRefusal::StoreFault,
        LoadRefusal::NoMemory => CatalogRefusal::NoMemory,
    }
}

impl<'a, R: Wait> Caller<'a, R> {
    // Whether an edit may be published, and the log that it needs, which is loaded outside the turn.
    pub(crate) fn allow<W: Store>(&self, pass: &mut HubPass, store: &mut W, edit: &Edit) -> Allowed
        requires cell { (pass.old.cell ≡ self.now.cell.now) × (pass.old.holds ≡ false) }
        requires begun { open_on 0 pass.old.seen ≡ Some pass.old.number }
        ensures same { IsIdle pass.old pass.new }
        ensures goes { Goes pass.old pass.new [] }
        ensures allowed { AllowsIn result edit.now (W.objects store.old) (W.objects store.new) pass.new.seen }
        ensures looked { Looked (W.objects store.old) (W.objects store.new) (W.alone store.old) (W.alone store.new) }
        ensures cause { Cause (W.faults store.old) (W.faults store.new) (failed_allowed result) }
        ensures stored { W.stored store.new ≡ W.stored store.old }
    {
        let checked = self.check(pass, edit);
        allow(self.alloc, store, edit, checked)
    }

    // Ends what the caller began.
    fn end(&self, pass: &mut HubPass, refusal: CatalogRefusal) -> Next
        requires cell { (pass.old.cell ≡ self.now.cell.now) × (pass.old.holds ≡ false) }
        requires begun { open_on 0 pass.old.seen ≡ Some pass.old.number }
        ensures same { IsIdle pass.old pass.new }
        ensures ended { (result ≡ next.End refusal) × Stops pass.old pass.new [] None act.Abort }
    {
        self.abort(pass);
        Next::End(refusal)
    }

    // Publishes an edit that the store had, after the log that it needs. Both are lent: owned ones would be dropped in each arm.
    fn publish(&self, pass: &mut HubPass, edit: &Edit, load: &mut Option<ReadyLog>) -> Next
        requires cell { (pass.old.cell ≡ self.now.cell.now) × (pass.old.holds ≡ false) }
        requires begun { open_on 0 pass.old.seen ≡ Some pass.old.number }
        requires admitted { refusal_of (edits pass.old.seen) edit.now ≡ None }
        requires fits { LoadFits pass.old.seen edit.now load.old }
        ensures same { IsIdle pass.old pass.new }
        ensures published { PublishesNext result (record { load = load.old; edit = edit.now }) pass.old pass.new }
    {
        let Some(new) = new_edit(self.alloc, edit, load) else {
            return self.end(pass, CatalogRefusal::NoMemory);
        };
        match self.publish_found(pass, new) {
            Published::Open(count) => Next::Found(count),
            Published::NoMemory => Next::End(CatalogRefusal::NoMemory),
        }
    }

    // Publishes a record that the store has.
    fn found<W: Store>(&self, pass: &mut HubPass, store: &mut W, edit: &Edit, number: u64) -> Next
        requires cell { (pass.old.cell ≡ self.now.cell.now) × (pass.old.holds ≡ false) }
        requires begun { HasBegun pass.old number }
        requires stored { HasRecord (W.objects store.old) number edit.now }
        ensures same { IsIdle pass.old pass.new }
        ensures next { Nexts result number (W.objects store.old) (W.objects store.new) pass.old pass.new }
        ensures looked { Looked (W.objects store.old) (W.objects store.new) (W.alone store.old) (W.alone store.new) }
        ensures cause { Cause (W.faults store.old) (W.faults store.new) (failed_next result) }
        ensures stored { W.stored store.new ≡ W.stored store.old }
    {
        match self.allow(pass, store, edit) {
            Allowed::Fits(mut load) => self.publish(pass, edit, &mut load),
            Allowed::Refused(_) => self.end(pass, CatalogRefusal::Blocked { number }),
            Allowed::Failed(refusal) => self.end(pass, refused(refusal)),
        }
    }

    // Publishes the record of that number, where the store has one.
    pub(crate) fn next_record<W: Store>(
        &self,
        pass: &mut HubPass,
        store: &mut W,
        number: u64,
    ) -> Next
        requires cell { (pass.old.cell ≡ self.now.cell.now) × (pass.old.holds ≡ false) }
        requires begun { HasBegun pass.old number }
        ensures same { IsIdle pass.old pass.new }
        ensures next { Nexts result number (W.objects store.old) (W.objects store.new) pass.old pass.new }
        ensures looked { Looked (W.objects store.old) (W.objects store.new) (W.alone store.old) (W.alone store.new) }
        ensures cause { Cause (W.faults store.old) (W.faults store.new) (failed_next result) }
        ensures stored { W.stored store.new ≡ W.stored store.old }
    {
        match read_record(self.alloc, store, number) {
            Ok(Read::Edit(edit)) => self.found(pass, store, &edit, number),
            Ok(Read::Absent) => Next::Absent,
            Ok(Read::Bad(_)) => self.end(pass, CatalogRefusal::Blocked { number }),
            Err(refusal) => self.end(pass, refused(refusal)),
        }
    }
}
