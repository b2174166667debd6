// What is done of the catalogue within one turn.
ghost use Rattle.std.specs.Prelude.{◌≡◌, ◌++◌, ◌∷◌, [], IfSome, None, Some, length, slice_index, ◌≤◌, ◌<◌, true};
ghost use Rattle.share_catalog.specs.Catalogue.{refusal_of};
ghost use Rattle.share_book.specs.Books.{OthersRest, rests};
ghost use Rattle.share_book.specs.History.{entry, edits, open_on, pending};
ghost use Rattle.share_book.specs.declared.entry.Act.TheVariants as act;
ghost use Rattle.hub_catalog.specs.CatalogTurns.{ChecksIn, GoesOn, IsReadyFor, LoadFits, Opens, Publishes, TakesEdit, is_located, loading};

use share_book::{Book, ReadyLog, SharedEdit};
use share_catalog::{Edit, EditRefusal};
use std::alloc::Global;

// Whether a Begin was added, and then how many edits there are.
#[derive(Clone, Copy)]
pub(crate) enum Opened {
    Open(u64),
    Held,
    NoMemory,
}

// How many edits there are after a found one was added. For want of memory the Begin was ended after it.
#[derive(Clone, Copy)]
pub(crate) enum Published {
    Open(u64),
    NoMemory,
}

// Whether an edit may be added, and whether a log of the location that it binds is there.
#[derive(Clone, Copy)]
pub(crate) enum Checked {
    Located,
    Unlocated,
    Refused(EditRefusal),
}

// An edit to add: itself, the copy that readers share, and the log that was loaded for it.
#[derive(Drop)]
pub(crate) struct NewEdit {
    pub(crate) edit: Edit,
    pub(crate) shared: SharedEdit,
    pub(crate) load: Option<ReadyLog>,
}

// Copies of an edit to add, one of which readers share. The log that was loaded for it is lent, and taken. None is want of memory.
pub(crate) fn new_edit(alloc: Global, edit: &Edit, load: &mut Option<ReadyLog>) -> Option<NewEdit>
    ensures { IfSome result (λ n. n ≡ record { edit = edit.now; shared = edit.now; load = load.old }) }
{
    let Ok(shared) = SharedEdit::copied(alloc, edit) else {
        return None;
    };
    let Ok(edit) = edit.copy(alloc) else {
        return None;
    };
    Some(NewEdit {
        edit,
        shared,
        load: load.take(),
    })
}

// Whether a table that an edit binds has a log.
fn is_located(book: &Book, edit: &Edit) -> bool
    ensures { result ≡ is_located book.now.past.history edit.now }
{
    match edit {
        Edit::Bind { binding, .. } => book.has_log(binding.location.as_str()),
        _ => true,
    }
}

pub(crate) fn check_in(book: &Book, edit: &Edit) -> Checked
    ensures { ChecksIn result edit.now book.now.past.history }
{
    match book.admits(edit) {
        Ok(()) => {
            if is_located(book, edit) {
                Checked::Located
            } else {
                Checked::Unlocated
            }
        }
        Err(refusal) => Checked::Refused(refusal),
    }
}

pub(crate) fn begin_in(alloc: Global, book: &mut Book, caller: u32) -> Opened
    requires { rests book.old ≡ true }
    ensures rests { rests book.new ≡ true }
    ensures opened { Opens result caller book.old.past.history book.new.past.history }
{
    book.len();
    match book.reserve_catalog(alloc) {
        Ok(()) => {}
        Err(_) => return Opened::NoMemory,
    }
    let count = book.edit_count();
    if book.begin(caller, 0) {
        Opened::Open(count)
    } else {
        Opened::Held
    }
}

pub(crate) fn abort_in(book: &mut Book, caller: u32)
    requires rests { rests book.old ≡ true }
    requires begun { open_on 0 book.old.past.history ≡ Some caller }
    ensures rests { rests book.new ≡ true }
    ensures added { book.new.past.history ≡ book.old.past.history ++ entry caller 0 act.Abort ∷ [] }
{
    book.len();
    book.abort(caller, 0);
}

// Adds the log that an edit needs.
fn load_in(book: &mut Book, caller: u32, edit: &Edit, load: Option<ReadyLog>)
    requires rests { rests book.old ≡ true }
    requires begun { open_on 0 book.old.past.history ≡ Some caller }
    requires admitted { refusal_of (edits book.old.past.history) edit.now ≡ None }
    requires fits { LoadFits book.old.past.history edit.now load }
    ensures { IsReadyFor caller edit.now load book.old book.new }
{
    book.len();
    match load {
        Some(log) => book.load_log(caller, log),
        None => {}
    }
}

// Takes memory for the next entries after a found edit, or ends what the caller began.
fn go_on(alloc: Global, book: &mut Book, caller: u32) -> Published
    requires others { OthersRest 0 book.old }
    requires settled { pending book.old.past.history ≡ None }
    requires begun { open_on 0 book.old.past.history ≡ Some caller }
    requires room { 1 ≤ slice_index book.old.past.rooms 0 }
    ensures rests { rests book.new ≡ true }
    ensures ended { GoesOn result caller book.old.past.history book.new.past.history }
{
    book.len();
    match book.reserve_catalog(alloc) {
        Ok(()) => Published::Open(book.edit_count()),
        Err(_) => {
            book.abort(caller, 0);
            Published::NoMemory
        }
    }
}

// Publishes an edit that the store had, after the log that it needs.
pub(crate) fn publish_in(alloc: Global, book: &mut Book, caller: u32, new: NewEdit) -> Published
    requires rests { rests book.old ≡ true }
    requires begun { open_on 0 book.old.past.history ≡ Some caller }
    requires takes { TakesEdit book.old.past.history new }
    ensures rests { rests book.new ≡ true }
    ensures published { Publishes result caller new.edit new.load book.old.past.history book.new.past.history }
{
    let NewEdit { edit, shared, load } = new;
    load_in(book, caller, &edit, load);
    match book.edit(caller, edit, shared, false) {
        Ok(()) => go_on(alloc, book, caller),
        Err(_) => unreachable!(),
    }
}

// Publishes the caller's own edit, after the log that it needs.
pub(crate) fn own_in(book: &mut Book, caller: u32, new: NewEdit)
    requires rests { rests book.old ≡ true }
    requires begun { open_on 0 book.old.past.history ≡ Some caller }
    requires takes { TakesEdit book.old.past.history new }
    ensures rests { rests book.new ≡ true }
    ensures added { book.new.past.history ≡ book.old.past.history ++ loading caller new.load (act.OwnEdit new.edit) }
{
    let NewEdit { edit, shared, load } = new;
    load_in(book, caller, &edit, load);
    match book.edit(caller, edit, shared, true) {
        Ok(()) => {}
        Err(_) => unreachable!(),
    }
}
