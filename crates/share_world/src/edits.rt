// An edit of the book's catalogue.
ghost use Rattle.std.specs.Prelude.{◌≡◌, ◌<◌, ◌++◌, ◌∷◌, [], IfOk, IfSome, None, OnOk, Some, is_none, slice_index};
ghost use Rattle.share_book.specs.History as history;
ghost use Rattle.share_book.specs.History.{open_on, pending};
ghost use Rattle.share_book.specs.Legal.{TakesLog};
ghost use Rattle.share_catalog.specs.Catalogue.{bound_location, refusal_of};
ghost use Rattle.share_world.specs.Standing.{IsIdle, LoadFits, Stands, edited_history, loaded_by, start_of};
ghost use Rattle.share_world.specs.declared.event.Event.TheVariants as event_is;

use crate::event::Event;
use crate::kept::log_before;
use share_book::{Book, ReadyLog, SharedEdit};
use share_catalog::Edit;
use std::alloc::{AllocError, Global};

// The log that an edit needs which binds a location of which the book has none.
fn load_for(
    alloc: Global,
    book: &Book,
    before: &[Event],
    edit: &Edit,
) -> Result<Option<ReadyLog>, AllocError>
    ensures fits { IfOk result (LoadFits book.now.past.history (bound_location edit.now)) }
    ensures log { IfOk result (λ load. IfSome load (λ s. s ≡ start_of before.now s.location)) }
{
    let Some(location) = edit.bound_location() else {
        return Ok(None);
    };
    if book.has_log(location.as_str()) {
        return Ok(None);
    }
    Ok(Some(log_before(alloc, before, location)?))
}

fn load_in(book: &mut Book, load: Option<ReadyLog>)
    requires room { 0 < slice_index book.old.past.rooms 0 }
    requires line { 0 < book.old.past.log_room }
    requires settled { pending book.old.past.history ≡ None }
    requires begun { open_on 0 book.old.past.history ≡ Some 0 }
    requires fresh { IfSome load (TakesLog book.old.past.history 0) }
    ensures { book.new ≡ loaded_by load book.old }
{
    match load {
        Some(log) => book.load_log(0, log),
        None => {}
    }
}

// Adds an edit that the catalogue takes, after the log that it needs.
fn edit_on(
    alloc: Global,
    book: &mut Book,
    edit: &Edit,
    load: Option<ReadyLog>,
) -> Result<(), AllocError>
    requires idle { IsIdle book.old.past.history }
    requires admitted { refusal_of (history.edits book.old.past.history) edit.now ≡ None }
    requires fits { LoadFits book.old.past.history (bound_location edit.now) load }
    ensures { OnOk result (book.new.past.history ≡ edited_history book.old.past.history load edit.now) }
{
    book.len();
    book.reserve_catalog(alloc)?;
    let shared = SharedEdit::copied(alloc, edit)?;
    let own = edit.copy(alloc)?;
    if book.begin(0, 0) {
        load_in(book, load);
        match book.edit(0, own, shared, true) {
            Ok(()) => Ok(()),
            Err(_) => unreachable!(),
        }
    } else {
        unreachable!()
    }
}

// Whether the catalogue takes an edit.
fn does_admit(book: &Book, edit: &Edit) -> bool
    ensures { result ≡ is_none (refusal_of (history.edits book.now.past.history) edit.now) }
{
    match book.admits(edit) {
        Ok(()) => true,
        Err(_) => false,
    }
}

/// Adds an edit, where the catalogue takes it. The error is want of memory; then the book isn't used any more.
pub(crate) fn edit_in(
    alloc: Global,
    book: &mut Book,
    before: &[Event],
    edit: &Edit,
) -> Result<(), AllocError>
    requires { Stands book.old.past.history before.now }
    ensures { OnOk result (Stands book.new.past.history (before.now ++ event_is.Edit edit.now ∷ [])) }
{
    if does_admit(book, edit) {
        let load = load_for(alloc, book, before, edit)?;
        edit_on(alloc, book, edit, load)
    } else {
        Ok(())
    }
}
