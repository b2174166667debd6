// What callers have seen, held together: one history.
ghost use Rattle.std.specs.Prelude.{◌≡◌};
ghost use mathlib.Core.List.{IsPrefix};
ghost use Rattle.turn_cell.specs.Entries.{made_by};
ghost use Rattle.turn_cell.specs.Passes.{mine};
ghost use Rattle.share_book.specs.History.{caller_of};

use crate::hub::Hub;
use hub_calls::HubPass;
use share_book::Book;
use turn_cell::Note;

/// A beginning of a hub's history that was seen, in no caller's name.
pub type HubNote = Note<Book>;

impl Hub {
    /// What a pass has seen, in no caller's name. It waits for nobody, takes no memory and changes no pass; so do the next two.
    pub fn note(&self, pass: &mut HubPass) -> HubNote
        requires cell { pass.old.cell ≡ self.now }
        ensures same { pass.new ≡ pass.old }
        ensures note { (result.cell ≡ self.now) × (result.seen ≡ pass.old.seen) }
    {
        self.cell.note(pass)
    }

    /// Tells the note what a pass has seen. It has then seen both, and maybe more.
    pub fn hear(&self, note: &mut HubNote, pass: &mut HubPass)
        requires cell { (note.old.cell ≡ self.now) × (pass.old.cell ≡ self.now) }
        ensures same { (note.new.cell ≡ note.old.cell) × (pass.new ≡ pass.old) }
        ensures seen { IsPrefix note.old.seen note.new.seen × IsPrefix pass.old.seen note.new.seen }
    {
        self.cell.hear(note, pass);
    }

    /// Holds a pass against a note that has seen as much: the note has no more entries of the pass's number.
    pub fn check(&self, note: &mut HubNote, pass: &mut HubPass)
        requires cell { (note.old.cell ≡ self.now) × (pass.old.cell ≡ self.now) }
        requires seen { IsPrefix pass.old.seen note.old.seen }
        ensures same { (note.new ≡ note.old) × (pass.new ≡ pass.old) }
        ensures mine { made_by caller_of pass.old.number note.old.seen ≡ mine caller_of pass.old }
    {
        self.cell.check(note, pass);
    }
}
