//! A store that reads objects on in growing pieces.
use crate::calls::get;
use ahead_store::AheadStore;
use edge_core::{Got, MemStore, Name, Stored};
use std::alloc::{AllocError, Global};
use std::test::Fail;

// 3 MiB and 1,000 bytes.
const LONG: usize = 3_146_728;

const ROOM: usize = 65_536;

fn counted(alloc: Global, count: usize) -> Result<Vec<u8>, AllocError> {
    let mut bytes = Vec::with_capacity(alloc, count)?;
    for place in 0..count {
        bytes.push((place % 251) as u8)?;
    }
    Ok(bytes)
}

fn stock(
    alloc: Global,
    store: &mut MemStore,
    object: &str,
    count: usize,
) -> Result<(), AllocError> {
    if let Some(name) = Name::of(String::from_str(alloc, object)?) {
        let bytes = counted(alloc, count)?;
        store.stock(Stored { name, bytes });
    }
    Ok(())
}

// A long and a short object, in a store of which those calls fail.
fn far(alloc: Global, fails: Vec<u64>) -> Result<AheadStore<MemStore>, AllocError> {
    let mut store = MemStore::new(alloc, 2, 4_194_304, Vec::new(alloc))?;
    stock(alloc, &mut store, "t/long", LONG)?;
    stock(alloc, &mut store, "t/short", 70_000)?;
    Ok(AheadStore::new(alloc, store.with_fails(fails, Vec::new(alloc))))
}

fn are_from(bytes: &[u8], from: usize, read: &[u8]) -> bool {
    match bytes.get(from..) {
        Some(rest) => rest.starts_with(read),
        None => false,
    }
}

// How many bytes of the long object come, one read behind the other, until one brings none or fails; none where other bytes come.
fn through(alloc: Global, store: &mut AheadStore<MemStore>, room: usize) -> Option<usize> {
    let (Ok(bytes), Ok(mut out)) = (counted(alloc, LONG), vec![in alloc; 0u8; room]) else {
        return None;
    };
    let mut from = 0usize;
    for _ in 0..=LONG {
        let count = match get(alloc, store, "t/long", from as u64, &mut out) {
            Some(Got::Bytes(count)) if count > 0 => count,
            _ => return Some(from),
        };
        match out.get(..count) {
            Some(read) if are_from(&bytes, from, read) => from = from.saturating_add(count),
            _ => return None,
        }
    }
    None
}

// Where reading stops if the call of that number fails.
fn stops(alloc: Global, call: u64) -> Option<usize> {
    let Ok(fails) = vec![in alloc; call; 1] else {
        return None;
    };
    match far(alloc, fails) {
        Ok(mut store) => through(alloc, &mut store, ROOM),
        Err(_) => None,
    }
}

#[test]
fn an_object_comes_whole_in_rooms_of_any_length(rt: HostRuntime) -> Result<(), Fail> {
    let alloc = rt.alloc();
    for room in [65_536, 1_000, 1, 2_097_152] {
        let mut store = far(alloc, Vec::new(alloc))?;
        assert!(rt; through(alloc, &mut store, room) == Some(LONG));
    }
    Ok(())
}

#[test]
fn each_request_asks_for_twice_as_much_up_to_a_mebibyte(rt: HostRuntime) -> Result<(), Fail> {
    let alloc = rt.alloc();
    let places = [
        0, 65_536, 196_608, 458_752, 983_040, 2_031_616, 3_080_192, LONG, LONG,
    ];
    for (call, place) in (0..).zip(places) {
        assert!(rt; stops(alloc, call) == Some(place));
    }
    Ok(())
}

#[test]
fn objects_read_in_turn_are_not_mixed(rt: HostRuntime) -> Result<(), Fail> {
    let alloc = rt.alloc();
    let mut store = far(alloc, Vec::new(alloc))?;
    let mut out = vec![in alloc; 0u8; ROOM]?;
    let mut few = vec![in alloc; 0u8; 10]?;
    assert!(rt; get(alloc, &mut store, "t/long", 0, &mut out) == Some(Got::Bytes(ROOM)));
    assert!(rt; get(alloc, &mut store, "t/long", 65_536, &mut few) == Some(Got::Bytes(10)));
    assert!(rt; get(alloc, &mut store, "t/short", 65_546, &mut out) == Some(Got::Bytes(4_454)));
    assert!(rt; get(alloc, &mut store, "t/short", 70_000, &mut out) == Some(Got::Bytes(0)));
    assert!(rt; get(alloc, &mut store, "t/long", 65_546, &mut out) == Some(Got::Bytes(ROOM)));
    assert!(rt; out.starts_with(&[35, 36, 37]));
    assert!(rt; get(alloc, &mut store, "t/none", 131_082, &mut out) == Some(Got::Absent));
    Ok(())
}
