// The book of the records that a store has.
ghost use Rattle.std.specs.Prelude.{◌≡◌, ◌≤◌, ◌++◌, ◌∷◌, [], None, Some, true, false, IfOk};
ghost use Rattle.edge_core.specs.Faults.{Cause};
ghost use Rattle.log_store.specs.Loads.{Looked};
ghost use Rattle.share_book.specs.Books.{rests};
ghost use Rattle.share_book.specs.History.{edits, entry, open_on};
ghost use Rattle.share_book.specs.declared.entry.Act.TheVariants as act;
ghost use Rattle.share_catalog.specs.Catalogue.{refusal_of};
ghost use Rattle.hub_catalog.specs.CatalogTurns.{LoadFits};
ghost use Rattle.hub_catalog.specs.Opens.{AddsIn, PublishesIn, ReadsBook, RestsAfter, failed_added, failed_open, refusal_for};
ghost use Rattle.hub_catalog.specs.Records.{HasRecord};

use crate::catalog_turns::{Opened, Published, abort_in, begin_in, check_in, new_edit, publish_in};
use crate::new_log::{Allowed, allow};
use crate::record::{Read, read_record};
use catalog_log::RecordFault;
use edge_core::Store;
use log_store::LoadRefusal;
use share_book::{Book, ReadyLog};
use share_catalog::{Edit, EditRefusal};
use std::alloc::{AllocError, Global};

/// Why no hub was opened.
#[derive(Clone, Copy, Debug, PartialEq, Eq)]
pub enum OpenRefusal {
    /// An object is there as the record of that number, and is no record.
    Record {
        /// The record's number.
        number: u64,
        /// The first reason. An object of more than 16 MiB is a `BadRecord`.
        fault: RecordFault,
    },
    /// The catalogue refuses the edit of the record of that number, after those before it.
    Edit {
        /// The record's number.
        number: u64,
        /// The first reason.
        refusal: EditRefusal,
    },
    /// The store failed: its count of faults rose in this call.
    StoreFault,
    /// Memory is wanting.
    NoMemory,
}

fn refused(refusal: LoadRefusal) -> OpenRefusal
    ensures { result ≡ refusal_for refusal }
{
    match refusal {
        LoadRefusal::StoreFault => OpenRefusal::StoreFault,
        LoadRefusal::NoMemory => OpenRefusal::NoMemory,
    }
}

// Whether a further record was there, and its edit was added.
#[derive(Clone, Copy)]
enum Added {
    Found,
    Absent,
    Failed(OpenRefusal),
}

// Publishes an edit that the store has, after the log that it needs.
fn publish(alloc: Global, book: &mut Book, edit: &Edit, load: &mut Option<ReadyLog>) -> Added
    requires rests { rests book.old ≡ true }
    requires begun { open_on 0 book.old.past.history ≡ Some 0 }
    requires admitted { refusal_of (edits book.old.past.history) edit.now ≡ None }
    requires fits { LoadFits book.old.past.history edit.now load.old }
    ensures rests { RestsAfter result book.new }
    ensures added { PublishesIn result (record { load = load.old; edit = edit.now }) book.old.past.history book.new.past.history }
    ensures no_store { failed_added result ≡ false }
{
    let Some(new) = new_edit(alloc, edit, load) else {
        return Added::Failed(OpenRefusal::NoMemory);
    };
    match publish_in(alloc, book, 0, new) {
        Published::Open(_) => Added::Found,
        Published::NoMemory => Added::Failed(OpenRefusal::NoMemory),
    }
}

// Adds the edit of a record that the store has.
fn add_found<W: Store>(
    alloc: Global,
    store: &mut W,
    book: &mut Book,
    edit: &Edit,
    number: u64,
) -> Added
    requires rests { rests book.old ≡ true }
    requires begun { open_on 0 book.old.past.history ≡ Some 0 }
    requires stored { HasRecord (W.objects store.old) number edit.now }
    ensures rests { RestsAfter result book.new }
    ensures added { AddsIn result number (W.objects store.old) (W.objects store.new) book.old.past.history book.new.past.history }
    ensures looked { Looked (W.objects store.old) (W.objects store.new) (W.alone store.old) (W.alone store.new) }
    ensures cause { Cause (W.faults store.old) (W.faults store.new) (failed_added result) }
    ensures stored { W.stored store.new ≡ W.stored store.old }
{
    let checked = check_in(book, edit);
    match allow(alloc, store, edit, checked) {
        Allowed::Fits(mut load) => publish(alloc, book, edit, &mut load),
        Allowed::Refused(refusal) => Added::Failed(OpenRefusal::Edit { number, refusal }),
        Allowed::Failed(refusal) => Added::Failed(refused(refusal)),
    }
}

// Adds the edit of the record of that number, where the store has one.
fn add_next<W: Store>(alloc: Global, store: &mut W, book: &mut Book, number: u64) -> Added
    requires rests { rests book.old ≡ true }
    requires begun { open_on 0 book.old.past.history ≡ Some 0 }
    ensures rests { RestsAfter result book.new }
    ensures added { AddsIn result number (W.objects store.old) (W.objects store.new) book.old.past.history book.new.past.history }
    ensures looked { Looked (W.objects store.old) (W.objects store.new) (W.alone store.old) (W.alone store.new) }
    ensures cause { Cause (W.faults store.old) (W.faults store.new) (failed_added result) }
    ensures stored { W.stored store.new ≡ W.stored store.old }
{
    match read_record(alloc, store, number) {
        Ok(Read::Edit(edit)) => add_found(alloc, store, book, &edit, number),
        Ok(Read::Absent) => Added::Absent,
        Ok(Read::Bad(fault)) => Added::Failed(OpenRefusal::Record { number, fault }),
        Err(refusal) => Added::Failed(refused(refusal)),
    }
}

// A book with a Begin of caller 0.
fn begun(alloc: Global) -> Result<Book, AllocError>
    ensures rests { IfOk result (λ b. rests b ≡ true) }
    ensures begun { IfOk result (λ b. b.past.history ≡ entry 0 0 act.Begin ∷ []) }
{
    let mut book = Book::new(alloc)?;
    match begin_in(alloc, &mut book, 0) {
        Opened::Open(_) => Ok(book),
        Opened::NoMemory => Err(AllocError),
        Opened::Held => unreachable!(),
    }
}

// More records than a history can have entries.
const MOST_RECORDS: u64 = 1 << 63;

/// The book of the records of a store, from 0 up to the first that is absent, each edit right after the log that was loaded for it, between
/// caller 0's Begin and Abort. Nothing is stored: the store's count of stored puts stays.
pub fn read_book<W: Store>(alloc: Global, store: &mut W) -> Result<Book, OpenRefusal>
    ensures rests { IfOk result (λ b. rests b ≡ true) }
    ensures read { ReadsBook result (W.objects store.old) (W.objects store.new) }
    ensures looked { Looked (W.objects store.old) (W.objects store.new) (W.alone store.old) (W.alone store.new) }
    ensures cause { Cause (W.faults store.old) (W.faults store.new) (failed_open result) }
    ensures stored { W.stored store.new ≡ W.stored store.old }
{
    let Ok(mut book) = begun(alloc) else {
        return Err(OpenRefusal::NoMemory);
    };
    for number in 0..MOST_RECORDS {
        match add_next(alloc, store, &mut book, number) {
            Added::Found => {}
            Added::Absent => {
                abort_in(&mut book, 0);
                return Ok(book);
            }
            Added::Failed(refusal) => return Err(refusal),
        }
    }
    Err(OpenRefusal::NoMemory)
}
