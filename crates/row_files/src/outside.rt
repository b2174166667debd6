// What is outside of a program, in memory, as rows have it.
ghost use Rattle.std.specs.Prelude.{◌≡◌, ◌≤◌, ◌↔◌, All, IsTrue};

use crate::file::{RowFault, RowFile};
use crate::members::{list_at, member_at, number_at, numbers_at};
use crate::parts::{count_of, two};
use edge_core::{Foreign, MemClock, MemSink, MemSource, MemStore, Stored};
use serde_json::Value;
use std::alloc::Global;

// Room for what most rows store and write.
const OBJECTS: u64 = 1_000;

const OBJECT_BYTES: u64 = 4_000_000;

const WRITTEN_BYTES: u64 = 400_000;

const WRITES: u64 = 2_000;

/// Puts objects into a store: a fault where one is there already, or has no room.
pub fn stock(store: &mut MemStore, objects: Vec<Stored>) -> Result<(), RowFault> {
    for object in objects {
        if !store.stock(object) {
            return Err(RowFault::Unknown("room for an object"));
        }
    }
    Ok(())
}

fn push_foreign(file: &RowFile, value: &Value, foreign: &mut Vec<Foreign>) -> Result<(), RowFault> {
    let Some((call, objects)) = two(value) else {
        return Err(RowFault::Member("foreign"));
    };
    let Some(call) = count_of(call) else {
        return Err(RowFault::Member("foreign"));
    };
    for object in file.items(objects)? {
        foreign.push(Foreign { call, object })?;
    }
    Ok(())
}

fn foreign_of(file: &RowFile, of: &Value) -> Result<Vec<Foreign>, RowFault> {
    let values = list_at(of, "foreign")?;
    let mut foreign = Vec::new(file.alloc());
    for value in values {
        push_foreign(file, value, &mut foreign)?;
    }
    Ok(foreign)
}

// The two numbers of the list of that name, or the two others where it is lacking.
fn room_at(of: &Value, name: &'static str, usual: (u64, u64)) -> Result<(usize, usize), RowFault> {
    let (first, second) = match list_at(of, name)? {
        [] => (Some(usual.0), Some(usual.1)),
        [first, second] => (count_of(first), count_of(second)),
        _ => (None, None),
    };
    match (first, second) {
        (Some(first), Some(second)) => Ok((first as usize, second as usize)),
        _ => Err(RowFault::Member(name)),
    }
}

// A store without objects, of which those calls fail.
fn bare_store(file: &RowFile, of: &Value) -> Result<MemStore, RowFault> {
    let (objects, bytes) = room_at(of, "room", (OBJECTS, OBJECT_BYTES))?;
    let fails = numbers_at(file.alloc(), of, "store_fails")?;
    let late = numbers_at(file.alloc(), of, "store_late")?;
    let store = MemStore::new(file.alloc(), objects, bytes, foreign_of(file, of)?)?;
    Ok(store.with_fails(fails, late))
}

fn stock_from(file: &RowFile, of: &Value, store: &mut MemStore) -> Result<(), RowFault> {
    match member_at(of, "objects") {
        Some(value) => stock(store, file.items(value)?),
        None => Ok(()),
    }
}

/// A store with the `objects` of a row, where others put the objects of `foreign`, a list of `[CALL, OBJECTS]`, before the call of that
/// number. The calls of the numbers in `store_fails` fail, counted from the first of all; those that are in `store_late` store before. It
/// has room for as many objects and bytes as `room` says.
pub fn store_of(file: &RowFile, of: &Value) -> Result<MemStore, RowFault> {
    let mut store = bare_store(file, of)?;
    stock_from(file, of, &mut store)?;
    Ok(store)
}

fn listed_sizes(alloc: Global, of: &Value, name: &'static str) -> Result<Vec<usize>, RowFault> {
    let numbers = numbers_at(alloc, of, name)?;
    let mut sizes = Vec::new(alloc);
    for size in numbers {
        sizes.push(size as usize)?;
    }
    Ok(sizes)
}

// Sizes of pieces: those of a list; or a number, which each piece has.
fn sizes_at(alloc: Global, of: &Value, name: &'static str) -> Result<Vec<usize>, RowFault> {
    match number_at(of, name) {
        Ok(Some(size)) => Ok(vec![in alloc; size as usize; 3_000]?),
        _ => listed_sizes(alloc, of, name),
    }
}

/// A source of those bytes in pieces of the sizes `in_sizes`, where the reads of the numbers `in_fails` fail.
pub fn source_of(file: &RowFile, of: &Value, bytes: Vec<u8>) -> Result<MemSource, RowFault> {
    let sizes = sizes_at(file.alloc(), of, "in_sizes")?;
    let fails = numbers_at(file.alloc(), of, "in_fails")?;
    Ok(
        MemSource::new(file.alloc(), bytes)
            .with_sizes(sizes)
            .with_fails(fails),
    )
}

/// A sink that takes pieces of the sizes `out_sizes`, where the writes of the numbers `out_fails` fail, with room for as many bytes and
/// pieces as `out_room` says.
pub fn sink_of(file: &RowFile, of: &Value) -> Result<MemSink, RowFault> {
    let (bytes, pieces) = room_at(of, "out_room", (WRITTEN_BYTES, WRITES))?;
    let sizes = sizes_at(file.alloc(), of, "out_sizes")?;
    let fails = numbers_at(file.alloc(), of, "out_fails")?;
    Ok(
        MemSink::new(file.alloc(), bytes, pieces)?
            .with_sizes(sizes)
            .with_fails(fails),
    )
}

fn are_dated(moments: &[u64]) -> bool
    ensures { IsTrue result ↔ All (λ m. m ≤ 253_402_300_799_999) moments.now }
{
    moments.iter().all(|&moment| moment <= 253_402_300_799_999)
}

/// A clock of the `moments` of a row.
pub fn clock_of(file: &RowFile, of: &Value) -> Result<MemClock, RowFault> {
    let moments = numbers_at(file.alloc(), of, "moments")?;
    if !are_dated(&moments) {
        return Err(RowFault::Member("moments"));
    }
    Ok(MemClock::new(moments))
}
