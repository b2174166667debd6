// A store in memory.
ghost use Rattle.std.specs.Prelude.{◌≡◌, ◌<◌, ◌≤◌, length};
ghost use Rattle.edge_core.specs.Objects.{IsPiece};

use crate::calls::Calls;
use crate::foreign::arrive;
use crate::shelf::Shelf;
use crate::{Foreign, Got, Listed, Measured, Name, Put, Store, Stored};
use std::alloc::{AllocError, Global};
use step_count::Steps;

/// A store in memory, with room for a number of objects and of bytes, which it takes when it is made. Names count among
/// the bytes. A put that finds no room fails. The numbers of the calls that are to fail can be given, and objects of others
/// that come at given calls. Each call goes through the names in turn.
#[derive(Drop)]
pub struct MemStore {
    shelf: Shelf,
    foreign: Vec<Foreign>,
    come: usize,
    calls: Calls,
    late: Vec<u64>,
    stored: Steps<Put>,
    ghost within: { come ≤ length foreign.items },
}

// Copies what fits of the bytes from a place on, and says how much.
fn piece_from(bytes: &[u8], from: u64, out: &mut [u8]) -> usize
    requires { 0 < length out.old }
    ensures piece { IsPiece bytes.now from result out.new }
    ensures most { result ≤ length out.new }
{
    let Ok(from) = usize::try_from(from) else {
        return 0;
    };
    if from >= bytes.len() {
        return 0;
    }
    let size = (bytes.len() - from).min(out.len());
    out[..size].copy_from_slice(&bytes[from..from + size]);
    size
}

impl MemStore {
    ghost use Rattle.std.specs.Prelude.{◌≡◌, [], IfOk, ◌&&◌, if◌then◌else◌, is_none, nat_eq, length, true};
    ghost use Rattle.std.specs.Bool.{OnTrue};
    ghost use Rattle.std.specs.FinMap as finmap;
    ghost use Rattle.edge_core.specs.Objects.{GrowsTo};
    ghost use Rattle.edge_core.specs.Calls.{IsFresh, Plans};
    ghost use Rattle.edge_core.specs.Stored.{with_one};
    ghost use Rattle.edge_core.specs.Memory.{store_shelf, store_objects, store_coming, store_calls, store_late, store_alone, store_stored, found_shelf, is_free, Waits};

    /// An empty store with room for so many objects, and for so many bytes of names and objects, and with the objects of
    /// others that are to come, the first first. The error is want of memory.
    pub fn new(
        alloc: Global,
        objects: usize,
        bytes: usize,
        foreign: Vec<Foreign>,
    ) -> Result<MemStore, AllocError>
        ensures shelf { IfOk result (λ s. store_shelf s ≡ (finmap.empty, (objects, bytes))) }
        ensures coming { IfOk result (λ s. store_coming s ≡ foreign.items) }
        ensures calls { IfOk result (λ s. IsFresh (store_calls s)) }
        ensures late { IfOk result (λ s. store_late s ≡ []) }
        ensures stored { IfOk result (λ s. store_stored s ≡ 0) }
    {
        Ok(MemStore {
            shelf: Shelf::new(alloc, objects, bytes)?,
            foreign,
            come: 0,
            calls: Calls::new(alloc),
            late: Vec::new(alloc),
            stored: Steps::new(),
        })
    }

    /// The store where the calls of those numbers fail, counted from 0. A put whose number is in `late` stores before it
    /// fails.
    pub fn with_fails(mut self, fails: Vec<u64>, late: Vec<u64>) -> MemStore
        ensures shelf { store_shelf result ≡ store_shelf self }
        ensures coming { store_coming result ≡ store_coming self }
        ensures calls { Plans (store_calls self) (store_calls result) fails.items }
        ensures late { store_late result ≡ late.items }
        ensures stored { store_stored result ≡ store_stored self }
    {
        self.calls.set_fails(fails);
        self.late = late;
        self
    }

    /// Puts an object, with no call counted: exactly where its name is absent and there is room, which is the answer.
    pub fn stock(&mut self, object: Stored) -> bool
        ensures stored { result ≡ is_free (store_shelf self.old) object.name object.bytes.items }
        ensures shelf { store_shelf self.new ≡ (if result then with_one (store_shelf self.old) object.name object.bytes.items else store_shelf self.old) }
        ensures coming { store_coming self.new ≡ store_coming self.old }
        ensures calls { store_calls self.new ≡ store_calls self.old }
        ensures late { store_late self.new ≡ store_late self.old }
        ensures puts { store_stored self.new ≡ store_stored self.old }
    {
        self.shelf.get(&object.name).is_none() && self.shelf.add(&object.name, &object.bytes)
    }

    // Puts the objects of others that come by the next call.
    fn arrive(&mut self)
        ensures shelf { store_shelf self.new ≡ found_shelf self.old }
        ensures waits { Waits self.old self.new }
        ensures calls { store_calls self.new ≡ store_calls self.old }
        ensures grows { GrowsTo (store_objects self.old) (store_objects self.new) }
        ensures same { OnTrue (store_alone self.old) (store_shelf self.new ≡ store_shelf self.old) }
        ensures stays { OnTrue (store_alone self.old) (store_alone self.new ≡ true) }
        ensures stored { store_stored self.new ≡ store_stored self.old }
    {
        let come = arrive(
            &mut self.shelf,
            &self.foreign[self.come..],
            self.calls.number(),
        );
        self.come += come;
    }
}

impl Store for MemStore {
    ghost use Rattle.std.specs.Prelude.{◌≡◌, ◌<◌, length, Some, true};
    ghost use Rattle.std.specs.Bool.{OnTrue};
    ghost use Rattle.edge_core.specs.Faults.{Cause};
    ghost use Rattle.edge_core.specs.Objects.{Gets, Measures, Puts, Lists, failed_get, failed_size, failed_put, failed_list};
    ghost use Rattle.edge_core.specs.Calls.{due, Counts};
    ghost use Rattle.edge_core.specs.Memory.{store_shelf, store_objects, store_alone, store_faults, store_stored, store_calls, found_shelf, put_shelf, put_fails, Waits};
    ghost use Rattle.edge_core.specs.StoredPuts.{stored_after};

    ghost objects = { λ s. Some (store_objects s) };

    ghost alone = { store_alone };

    ghost faults = { store_faults };

    ghost stored = { store_stored };

    fn get(&mut self, name: &Name, from: u64, out: &mut [u8]) -> Got
        requires { 0 < length out.old }
        ensures bytes { Gets (Some (store_objects self.old)) (Some (store_objects self.new)) (store_alone self.old) name.now from result out.new }
        ensures stays { OnTrue (store_alone self.old) (store_alone self.new ≡ true) }
        ensures cause { Cause (store_faults self.old) (store_faults self.new) (failed_get result) }
        ensures stored { store_stored self.new ≡ store_stored self.old }
        ensures fails { failed_get result ≡ due (store_calls self.old) }
        ensures counts { Counts (store_calls self.old) (store_calls self.new) (failed_get result) }
        ensures shelf { store_shelf self.new ≡ found_shelf self.old }
        ensures waits { Waits self.old self.new }
    {
        self.arrive();
        if self.calls.next() {
            return Got::Failed;
        }
        match self.shelf.get(name) {
            Some(bytes) => Got::Bytes(piece_from(bytes, from, out)),
            None => Got::Absent,
        }
    }

    fn size(&mut self, name: &Name) -> Measured
        ensures size { Measures (Some (store_objects self.old)) (Some (store_objects self.new)) (store_alone self.old) name.now result }
        ensures stays { OnTrue (store_alone self.old) (store_alone self.new ≡ true) }
        ensures cause { Cause (store_faults self.old) (store_faults self.new) (failed_size result) }
        ensures stored { store_stored self.new ≡ store_stored self.old }
        ensures fails { failed_size result ≡ due (store_calls self.old) }
        ensures counts { Counts (store_calls self.old) (store_calls self.new) (failed_size result) }
        ensures shelf { store_shelf self.new ≡ found_shelf self.old }
        ensures waits { Waits self.old self.new }
    {
        self.arrive();
        if self.calls.next() {
            return Measured::Failed;
        }
        match self.shelf.get(name) {
            Some(bytes) => Measured::Size(bytes.len() as u64),
            None => Measured::Absent,
        }
    }

    fn put_absent(&mut self, name: &Name, bytes: &[u8]) -> Put
        ensures object { Puts (Some (store_objects self.old)) (Some (store_objects self.new)) (store_alone self.old) name.now bytes.now result }
        ensures stays { OnTrue (store_alone self.old) (store_alone self.new ≡ true) }
        ensures cause { Cause (store_faults self.old) (store_faults self.new) (failed_put result) }
        ensures stored { store_stored self.new ≡ stored_after (store_stored self.old) result }
        ensures fails { failed_put result ≡ put_fails self.old name.now bytes.now }
        ensures counts { Counts (store_calls self.old) (store_calls self.new) (failed_put result) }
        ensures shelf { store_shelf self.new ≡ put_shelf self.old name.now bytes.now }
        ensures waits { Waits self.old self.new }
    {
        self.arrive();
        let late = self.late.contains(&self.calls.number());
        if self.calls.is_due() && !late {
            self.calls.count(true);
            return Put::Failed;
        }
        if self.shelf.get(name).is_some() {
            self.calls.count(late);
            return if late { Put::Failed } else { Put::Exists };
        }
        let failed = !self.shelf.add(name, bytes) || late;
        self.calls.count(failed);
        if failed {
            Put::Failed
        } else {
            self.stored.tick();
            Put::Stored
        }
    }

    fn lists_at_once(&self) -> bool
        ensures told { result ≡ true }
    {
        true
    }

    fn list(&mut self, alloc: Global, dir: &Name) -> Listed
        ensures names { Lists (Some (store_objects self.old)) (Some (store_objects self.new)) (store_alone self.old) dir.now result }
        ensures stays { OnTrue (store_alone self.old) (store_alone self.new ≡ true) }
        ensures cause { Cause (store_faults self.old) (store_faults self.new) (failed_list result) }
        ensures stored { store_stored self.new ≡ store_stored self.old }
        ensures fails { failed_list result ≡ due (store_calls self.old) }
        ensures counts { Counts (store_calls self.old) (store_calls self.new) (failed_list result) }
        ensures shelf { store_shelf self.new ≡ found_shelf self.old }
        ensures waits { Waits self.old self.new }
    {
        self.arrive();
        if self.calls.next() {
            return Listed::Failed;
        }
        match self.shelf.list(alloc, dir) {
            Ok(names) => Listed::Names(names),
            Err(_) => Listed::NoMemory,
        }
    }
}
