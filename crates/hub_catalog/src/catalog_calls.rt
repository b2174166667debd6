// Calls of the hub that take one turn on the catalogue.
ghost use Rattle.std.specs.Prelude.{◌≡◌, [], false, None, Some, length};
ghost use Rattle.share_book.specs.History.{edits, open_on};
ghost use Rattle.share_book.specs.declared.entry.Act.TheVariants as act;
ghost use Rattle.hub_calls.specs.Calls.{Adds, IsIdle};
ghost use Rattle.hub_catalog.specs.CatalogCalls.{Begins, Checks, Finds, Starts, Stops};
ghost use Rattle.hub_catalog.specs.CatalogTurns.{TakesEdit};
ghost use Rattle.share_catalog.specs.Catalogue.{refusal_of};

use crate::caller::Caller;
use crate::catalog_turns::{
    Checked, NewEdit, Opened, Published, abort_in, begin_in, check_in, own_in, publish_in,
};
use hub_calls::HubPass;
use share_catalog::Edit;
use std::alloc::Global;
use std::sync::Wait;
use std::thread;

impl<'a, R: Wait> Caller<'a, R> {
    // How many edits there are.
    pub(crate) fn edit_count(&self, pass: &mut HubPass) -> u64
        requires cell { (pass.old.cell ≡ self.now.cell.now) × (pass.old.holds ≡ false) }
        ensures same { IsIdle pass.old pass.new }
        ensures added { Adds pass.old pass.new [] }
        ensures count { result ≡ length (edits pass.new.seen) }
    {
        let turn = self.cell.take(self.rt, pass);
        let count = turn.value.edit_count();
        self.cell.give(pass, turn);
        count
    }

    // One turn, in which the Begin is added unless another is open.
    fn try_begin(&self, pass: &mut HubPass) -> Opened
        requires cell { (pass.old.cell ≡ self.now.cell.now) × (pass.old.holds ≡ false) }
        ensures same { IsIdle pass.old pass.new }
        ensures begun { Begins result pass.old pass.new }
    {
        let number = pass.number();
        let mut turn = self.cell.take(self.rt, pass);
        let opened = begin_in(self.alloc, &mut turn.value, number);
        self.cell.give(pass, turn);
        opened
    }

    // Begins on the catalogue, and waits where another caller has begun. It answers how many edits there are, or None for
    // want of memory.
    pub(crate) fn begin(&self, pass: &mut HubPass) -> Option<u64>
        requires cell { (pass.old.cell ≡ self.now.cell.now) × (pass.old.holds ≡ false) }
        ensures same { IsIdle pass.old pass.new }
        ensures begun { Starts result pass.old pass.new }
    {
        for _ in self.rt.forever() {
            match self.try_begin(pass) {
                Opened::Open(count) => return Some(count),
                Opened::NoMemory => return None,
                Opened::Held => thread::yield_now(),
            }
        }
        unreachable!()
    }

    // Ends what the caller began.
    pub(crate) fn abort(&self, pass: &mut HubPass)
        requires cell { (pass.old.cell ≡ self.now.cell.now) × (pass.old.holds ≡ false) }
        requires begun { open_on 0 pass.old.seen ≡ Some pass.old.number }
        ensures same { IsIdle pass.old pass.new }
        ensures ended { Stops pass.old pass.new [] None act.Abort }
    {
        let number = pass.number();
        let mut turn = self.cell.take(self.rt, pass);
        turn.value.len();
        abort_in(&mut turn.value, number);
        self.cell.give(pass, turn);
    }

    // Whether an edit may be published.
    pub(crate) fn check(&self, pass: &mut HubPass, edit: &Edit) -> Checked
        requires cell { (pass.old.cell ≡ self.now.cell.now) × (pass.old.holds ≡ false) }
        requires begun { open_on 0 pass.old.seen ≡ Some pass.old.number }
        ensures same { IsIdle pass.old pass.new }
        ensures checked { Checks result edit.now pass.old pass.new }
    {
        let turn = self.cell.take(self.rt, pass);
        turn.value.len();
        let checked = check_in(&turn.value, edit);
        self.cell.give(pass, turn);
        checked
    }

    // Publishes an edit that the store had. For want of memory the caller has ended what it began.
    pub(crate) fn publish_found(&self, pass: &mut HubPass, new: NewEdit) -> Published
        requires cell { (pass.old.cell ≡ self.now.cell.now) × (pass.old.holds ≡ false) }
        requires begun { open_on 0 pass.old.seen ≡ Some pass.old.number }
        requires takes { TakesEdit pass.old.seen new }
        ensures same { IsIdle pass.old pass.new }
        ensures found { Finds result (record { load = new.load; edit = new.edit }) pass.old pass.new }
    {
        let number = pass.number();
        let mut turn = self.cell.take(self.rt, pass);
        turn.value.len();
        let published = publish_in(self.alloc, &mut turn.value, number, new);
        self.cell.give(pass, turn);
        published
    }

    // Publishes the caller's own edit.
    pub(crate) fn publish_own(&self, pass: &mut HubPass, new: NewEdit)
        requires cell { (pass.old.cell ≡ self.now.cell.now) × (pass.old.holds ≡ false) }
        requires begun { open_on 0 pass.old.seen ≡ Some pass.old.number }
        requires takes { TakesEdit pass.old.seen new }
        ensures same { IsIdle pass.old pass.new }
        ensures ended { Stops pass.old pass.new [] new.load (act.OwnEdit new.edit) }
    {
        let number = pass.number();
        let mut turn = self.cell.take(self.rt, pass);
        turn.value.len();
        own_in(&mut turn.value, number, new);
        self.cell.give(pass, turn);
    }
}
