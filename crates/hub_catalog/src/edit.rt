// The edits of the catalogue.
ghost use Rattle.std.specs.Prelude.{◌≡◌, [], None, Option, Some, false, IfOk, IfSome, IsSome};
ghost use Rattle.std.specs.FinMap as finmap;
ghost use Rattle.edge_core.specs.Faults.{Cause};
ghost use Rattle.edge_core.specs.Objects.{Lacks};
ghost use Rattle.catalog_log.specs.RecordNames.{record_name_of};
ghost use Rattle.share_catalog.specs.Catalogue.{refusal_of};
ghost use Rattle.share_book.specs.History.{edits, open_on};
ghost use Rattle.share_book.specs.declared.entry.LogStart.{LogStart};
ghost use Rattle.share_book.specs.declared.entry.Act.TheVariants as act;
ghost use Rattle.hub_calls.specs.Calls.{IsIdle, acknowledged};
ghost use Rattle.hub_catalog.specs.CatalogCalls.{HasBegun, Stops};
ghost use Rattle.hub_catalog.specs.CatalogTurns.{LoadFits};
ghost use Rattle.hub_catalog.specs.Edits.{Edits, Leaves, failed_edit};
ghost use Rattle.hub_catalog.specs.Rounds.{IsMade, OwnRounds, RoundStore, Rounds, RunsOn, TriedStore, Tries, acknowledged_round, acknowledged_tried, end_by, failed_round, failed_tried, refusal_by};
ghost use Rattle.hub_catalog.specs.declared.edit.Round.TheVariants as round;

use crate::caller::Caller;
use crate::catalog_turns::{NewEdit, new_edit};
use crate::found::{CatalogRefusal, Next};
use crate::new_log::Allowed;
use catalog_log::{bytes_of_edit, record_name};
use edge_core::{Name, Put, Store};
use hub_calls::HubPass;
use log_store::LoadRefusal;
use share_book::ReadyLog;
use share_catalog::{Edit, EditRefusal};
use std::alloc::{AllocError, Global};
use std::sync::Wait;

/// Why an edit wasn't made.
#[derive(Clone, Copy, Debug, PartialEq, Eq)]
pub enum EditEnd {
    /// An object is there as the next record, and is no record of at most 16 MiB, or the catalogue refuses its edit.
    CatalogBlocked {
        /// The record's number.
        number: u64,
    },
    /// The store had 64 records that weren't known, and they are now.
    Contended,
    /// The catalogue refuses the edit after all records that the store had.
    Refused(EditRefusal),
    /// The store failed: its count of faults rose in this call. The edit's record may be stored.
    StoreFault,
    /// Memory is wanting. Nothing was stored.
    NoMemory,
}

// The caller's edit was published; the store has another record of that number; or the caller ended what it began.
#[derive(Clone, Copy)]
enum Tried {
    Done,
    Exists,
    StoreFault,
    NoMemory,
}

// How many edits there are after a found record was published; the caller's edit was; or the caller ended what it began.
#[derive(Clone, Copy)]
enum Round {
    Found(u64),
    Done,
    End(EditEnd),
}

// What is made before a put, so that none of it is wanting after.
#[derive(Drop)]
struct Own {
    new: Option<NewEdit>,
    bytes: Vec<u8>,
    name: Name,
}

// The record that a caller would put: its edit, and its number.
#[derive(Clone, Copy)]
struct NextRecord<'a> {
    edit: &'a Edit,
    number: u64,
}

// The log is lent, and taken.
fn prepare(
    alloc: Global,
    next: &NextRecord<'_>,
    load: &mut Option<ReadyLog>,
) -> Result<Own, AllocError>
    ensures { IfOk result (λ o. IsMade o next.now.edit.now load.old next.now.number) }
{
    let name = record_name(alloc, next.number)?;
    let bytes = bytes_of_edit(alloc, next.edit)?;
    match new_edit(alloc, next.edit, load) {
        Some(new) => Ok(Own {
            new: Some(new),
            bytes,
            name,
        }),
        None => Err(AllocError),
    }
}

fn end_of(refusal: CatalogRefusal) -> EditEnd
    ensures { result ≡ end_by refusal }
{
    match refusal {
        CatalogRefusal::Blocked { number } => EditEnd::CatalogBlocked { number },
        CatalogRefusal::StoreFault => EditEnd::StoreFault,
        CatalogRefusal::NoMemory => EditEnd::NoMemory,
    }
}

fn failed(refusal: LoadRefusal) -> EditEnd
    ensures { result ≡ end_by (refusal_by refusal) }
{
    match refusal {
        LoadRefusal::StoreFault => EditEnd::StoreFault,
        LoadRefusal::NoMemory => EditEnd::NoMemory,
    }
}

impl<'a, R: Wait> Caller<'a, R> {
    // Ends what the caller began.
    fn end_edit(&self, pass: &mut HubPass, end: EditEnd) -> Round
        requires cell { (pass.old.cell ≡ self.now.cell.now) × (pass.old.holds ≡ false) }
        requires begun { open_on 0 pass.old.seen ≡ Some pass.old.number }
        ensures same { IsIdle pass.old pass.new }
        ensures ended { (result ≡ round.End end) × Stops pass.old pass.new [] None act.Abort }
    {
        self.abort(pass);
        Round::End(end)
    }

    // Puts what was made, and publishes the edit where it was stored. What was made is lent: one that is owned here would be dropped
    // in each arm.
    fn put_made<W: Store>(
        &self,
        pass: &mut HubPass,
        store: &mut W,
        next: &NextRecord<'_>,
        own: &mut Own,
    ) -> Tried
        requires cell { (pass.old.cell ≡ self.now.cell.now) × (pass.old.holds ≡ false) }
        requires begun { HasBegun pass.old next.now.number }
        requires admitted { refusal_of (edits pass.old.seen) next.now.edit.now ≡ None }
        requires made { (l : Option LogStart) × IsMade own.old next.now.edit.now l next.now.number × LoadFits pass.old.seen next.now.edit.now l }
        ensures same { IsIdle pass.old pass.new }
        ensures tried { (l : Option LogStart) → IsMade own.old next.now.edit.now l next.now.number → Tries result next.now.edit.now l pass.old pass.new }
        ensures store { TriedStore result next.now.edit.now next.now.number (W.objects store.old) (W.objects store.new) (W.alone store.old) (W.alone store.new) pass.new }
        ensures cause { Cause (W.faults store.old) (W.faults store.new) (failed_tried result) }
        ensures stored { W.stored store.new ≡ acknowledged_tried (W.stored store.old) result }
    {
        match store.put_absent(&own.name, &own.bytes) {
            Put::Stored => {
                let Some(new) = own.new.take() else {
                    unreachable!();
                };
                self.publish_own(pass, new);
                Tried::Done
            }
            Put::Exists => Tried::Exists,
            Put::Failed => {
                self.abort(pass);
                Tried::StoreFault
            }
        }
    }

    // Puts the record of an edit that may be added, and publishes the edit after the log that it needs.
    fn put_own<W: Store>(
        &self,
        pass: &mut HubPass,
        store: &mut W,
        next: &NextRecord<'_>,
        load: &mut Option<ReadyLog>,
    ) -> Tried
        requires cell { (pass.old.cell ≡ self.now.cell.now) × (pass.old.holds ≡ false) }
        requires begun { HasBegun pass.old next.now.number }
        requires admitted { refusal_of (edits pass.old.seen) next.now.edit.now ≡ None }
        requires fits { LoadFits pass.old.seen next.now.edit.now load.old }
        ensures same { IsIdle pass.old pass.new }
        ensures tried { Tries result next.now.edit.now load.old pass.old pass.new }
        ensures store { TriedStore result next.now.edit.now next.now.number (W.objects store.old) (W.objects store.new) (W.alone store.old) (W.alone store.new) pass.new }
        ensures cause { Cause (W.faults store.old) (W.faults store.new) (failed_tried result) }
        ensures stored { W.stored store.new ≡ acknowledged_tried (W.stored store.old) result }
    {
        match prepare(self.alloc, next, load) {
            Ok(mut own) => self.put_made(pass, store, next, &mut own),
            Err(_) => {
                self.abort(pass);
                Tried::NoMemory
            }
        }
    }

    // The record that the store has, since a put answered that it has one.
    fn again<W: Store>(&self, pass: &mut HubPass, store: &mut W, next: &NextRecord<'_>) -> Round
        requires cell { (pass.old.cell ≡ self.now.cell.now) × (pass.old.holds ≡ false) }
        requires begun { HasBegun pass.old next.now.number }
        requires exists { IfSome (W.objects store.old) (λ os. IsSome (finmap.get os (record_name_of next.now.number))) }
        ensures same { IsIdle pass.old pass.new }
        ensures stored { W.stored store.new ≡ acknowledged_round (W.stored store.old) result }
        ensures round { Rounds result next.now.edit.now next.now.number (W.objects store.old) (W.objects store.new) pass.old pass.new }
        ensures store { RoundStore result next.now.edit.now next.now.number (W.objects store.old) (W.objects store.new) (W.alone store.old) (W.alone store.new) pass.new }
        ensures cause { Cause (W.faults store.old) (W.faults store.new) (failed_round result) }
    {
        match self.next_record(pass, store, next.number) {
            Next::Absent => {
                let number = next.number;
                self.end_edit(pass, EditEnd::CatalogBlocked { number })
            }
            Next::Found(count) => Round::Found(count),
            Next::End(refusal) => Round::End(end_of(refusal)),
        }
    }

    // The caller's own record, or the one that the store has instead.
    fn own<W: Store>(
        &self,
        pass: &mut HubPass,
        store: &mut W,
        next: &NextRecord<'_>,
        load: &mut Option<ReadyLog>,
    ) -> Round
        requires cell { (pass.old.cell ≡ self.now.cell.now) × (pass.old.holds ≡ false) }
        requires begun { HasBegun pass.old next.now.number }
        requires admitted { refusal_of (edits pass.old.seen) next.now.edit.now ≡ None }
        requires fits { LoadFits pass.old.seen next.now.edit.now load.old }
        ensures same { IsIdle pass.old pass.new }
        ensures round { OwnRounds result next.now.edit.now load.old next.now.number (W.objects store.old) (W.objects store.new) pass.old pass.new }
        ensures store { RoundStore result next.now.edit.now next.now.number (W.objects store.old) (W.objects store.new) (W.alone store.old) (W.alone store.new) pass.new }
        ensures cause { Cause (W.faults store.old) (W.faults store.new) (failed_round result) }
        ensures stored { W.stored store.new ≡ acknowledged_round (W.stored store.old) result }
    {
        match self.put_own(pass, store, next, load) {
            Tried::Done => Round::Done,
            Tried::Exists => self.again(pass, store, next),
            Tried::StoreFault => Round::End(EditEnd::StoreFault),
            Tried::NoMemory => Round::End(EditEnd::NoMemory),
        }
    }

    // The caller's own record, where no other is there.
    fn own_round<W: Store>(&self, pass: &mut HubPass, store: &mut W, next: &NextRecord<'_>) -> Round
        requires cell { (pass.old.cell ≡ self.now.cell.now) × (pass.old.holds ≡ false) }
        requires begun { HasBegun pass.old next.now.number }
        requires absent { Lacks (record_name_of next.now.number) (W.objects store.old) }
        ensures same { IsIdle pass.old pass.new }
        ensures round { Rounds result next.now.edit.now next.now.number (W.objects store.old) (W.objects store.new) pass.old pass.new }
        ensures store { RoundStore result next.now.edit.now next.now.number (W.objects store.old) (W.objects store.new) (W.alone store.old) (W.alone store.new) pass.new }
        ensures cause { Cause (W.faults store.old) (W.faults store.new) (failed_round result) }
        ensures stored { W.stored store.new ≡ acknowledged_round (W.stored store.old) result }
    {
        match self.allow(pass, store, next.edit) {
            Allowed::Fits(mut load) => self.own(pass, store, next, &mut load),
            Allowed::Refused(refusal) => self.end_edit(pass, EditEnd::Refused(refusal)),
            Allowed::Failed(refusal) => self.end_edit(pass, failed(refusal)),
        }
    }

    // One record more of the store's, or the caller's own.
    fn round<W: Store>(&self, pass: &mut HubPass, store: &mut W, next: &NextRecord<'_>) -> Round
        requires cell { (pass.old.cell ≡ self.now.cell.now) × (pass.old.holds ≡ false) }
        requires begun { HasBegun pass.old next.now.number }
        ensures same { IsIdle pass.old pass.new }
        ensures round { Rounds result next.now.edit.now next.now.number (W.objects store.old) (W.objects store.new) pass.old pass.new }
        ensures store { RoundStore result next.now.edit.now next.now.number (W.objects store.old) (W.objects store.new) (W.alone store.old) (W.alone store.new) pass.new }
        ensures cause { Cause (W.faults store.old) (W.faults store.new) (failed_round result) }
        ensures stored { W.stored store.new ≡ acknowledged_round (W.stored store.old) result }
    {
        match self.next_record(pass, store, next.number) {
            Next::Found(count) => Round::Found(count),
            Next::Absent => self.own_round(pass, store, next),
            Next::End(refusal) => Round::End(end_of(refusal)),
        }
    }

    // Up to 64 rounds.
    fn rounds<W: Store>(
        &self,
        pass: &mut HubPass,
        store: &mut W,
        edit: &Edit,
        first: u64,
    ) -> Result<u64, EditEnd>
        requires cell { (pass.old.cell ≡ self.now.cell.now) × (pass.old.holds ≡ false) }
        requires begun { HasBegun pass.old first }
        ensures same { IsIdle pass.old pass.new }
        ensures run { RunsOn result edit.now (W.objects store.old) (W.objects store.new) pass.old pass.new }
        ensures store { Leaves result edit.now (W.objects store.old) (W.objects store.new) (W.alone store.old) (W.alone store.new) pass.new }
        ensures cause { Cause (W.faults store.old) (W.faults store.new) (failed_edit result) }
        ensures stored { W.stored store.new ≡ acknowledged (W.stored store.old) result }
    {
        let mut number = first;
        for turn in 0..64u32 {
            match self.round(pass, store, &NextRecord { edit, number }) {
                Round::Found(count) => number = count,
                Round::Done => return Ok(number),
                Round::End(end) => return Err(end),
            }
        }
        self.abort(pass);
        Err(EditEnd::Contended)
    }

    /// Makes an edit of the catalogue as the next record of the store, and answers the record's number. Records that the store has
    /// beyond those that are known are published before. The store's count of stored puts rises by one with `Ok`, and stays with each other
    /// answer: what is acknowledged is this call's own put.
    pub fn edit<W: Store>(
        &self,
        pass: &mut HubPass,
        store: &mut W,
        edit: &Edit,
    ) -> Result<u64, EditEnd>
        requires cell { (pass.old.cell ≡ self.now.cell.now) × (pass.old.holds ≡ false) }
        ensures same { IsIdle pass.old pass.new }
        ensures entries { Edits result edit.now (W.objects store.old) (W.objects store.new) pass.old pass.new }
        ensures store { Leaves result edit.now (W.objects store.old) (W.objects store.new) (W.alone store.old) (W.alone store.new) pass.new }
        ensures cause { Cause (W.faults store.old) (W.faults store.new) (failed_edit result) }
        ensures stored { W.stored store.new ≡ acknowledged (W.stored store.old) result }
    {
        match self.begin(pass) {
            Some(first) => self.rounds(pass, store, edit, first),
            None => Err(EditEnd::NoMemory),
        }
    }
}
