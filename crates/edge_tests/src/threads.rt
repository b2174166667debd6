//! Stores, listeners and gates that two threads share.
use crate::calls::{get, list, put, size};
use edge_core::{
    Clock, Gate, Got, HoldGate, Listener, Listening, LockedDoor, LockedStore, Measured, MemClock,
    MemLine, MemListener, MemSink, MemSource, MemStore, OpenGate, Put, SharedDoor, Store, Taken,
};
use std::alloc::{AllocError, Global};
use std::sync::{Arc, Mutex, Wait};
use std::test::Fail;
use std::thread;

const OBJECTS: u32 = 50;

fn put_object<S: Store>(alloc: Global, store: &mut S, folder: &str, number: u32) -> Option<Put> {
    match format!(in alloc; "{folder}/{number}") {
        Ok(object) => put(alloc, store, object.as_str(), b"object"),
        Err(_) => None,
    }
}

// Puts objects into a folder; how many were stored, and how many had been there.
fn fill<S: Store>(alloc: Global, store: &mut S, folder: &str) -> (u32, u32) {
    let mut stored = 0u32;
    let mut there = 0u32;
    for number in 0..OBJECTS {
        match put_object(alloc, store, folder, number) {
            Some(Put::Stored) => stored = stored.saturating_add(1),
            Some(Put::Exists) => there = there.saturating_add(1),
            Some(Put::Failed) | None => {}
        }
    }
    (stored, there)
}

fn shared_store(alloc: Global) -> Result<Arc<Mutex<MemStore>, Global>, AllocError> {
    let inner = MemStore::new(alloc, 200, 10_000, Vec::new(alloc))?;
    Ok(Arc::new(alloc, Mutex::new(inner))?)
}

// How many objects are in the folder `t`.
fn filled<S: Store>(alloc: Global, store: &mut S) -> usize {
    match list(alloc, store, "t") {
        Some(names) => names.items().len(),
        None => 0,
    }
}

// Whether the folder `t` is filled, as either handle sees it.
fn see<S: Store>(alloc: Global, first: &mut S, second: &mut S) -> bool {
    let mut out = [0u8; 9];
    get(alloc, first, "t/7", 2, &mut out) == Some(Got::Bytes(4))
        && get(alloc, second, "u/7", 0, &mut out) == Some(Got::Absent)
        && size(alloc, second, "t/7") == Some(Measured::Size(6))
        && filled(alloc, first) == 50
}

#[test]
fn two_threads_fill_one_store(rt: HostRuntime) -> Result<(), Fail> {
    let alloc = rt.alloc();
    let shared = shared_store(alloc)?;
    let mut first = LockedStore::new(rt.clone()?, Arc::try_clone(&shared)?);
    let mut second = LockedStore::new(rt.clone()?, shared);
    let (one, two) = thread::join(
        &rt,
        || fill(alloc, &mut first, "t"),
        || fill(alloc, &mut second, "t"),
    );
    assert!(rt; one.0.saturating_add(two.0) == OBJECTS);
    assert!(rt; one.1.saturating_add(two.1) == OBJECTS);
    assert!(rt; see(alloc, &mut first, &mut second));
    Ok(())
}

// Serves lines to their end; how many.
fn serve<N: Listener>(door: &mut N) -> u32 {
    let mut served = 0u32;
    if door.listen(80) == Listening::Failed || door.listen(81) == Listening::Open {
        return served;
    }
    for _ in 0..1000u32 {
        match door.accept() {
            Taken::Line(input, output) => door.close(input, output),
            Taken::End | Taken::Failed => return served,
        }
        served = served.saturating_add(1);
    }
    served
}

fn line(alloc: Global) -> Result<MemLine, AllocError> {
    let sink = MemSink::new(alloc, 1, 1)?;
    Ok(MemLine::new(MemSource::new(alloc, Vec::new(alloc)), sink))
}

// A listener of 100 lines, whose calls behind `listen` and those of the lines fail.
fn door(alloc: Global) -> Result<MemListener, AllocError> {
    let fails = Vec::from_slice(alloc, &[101, 102])?;
    let mut lines = Vec::new(alloc);
    for _ in 0..100u32 {
        lines.push(line(alloc)?)?;
    }
    Ok(MemListener::new(alloc, lines)?.with_fails(fails))
}

#[test]
fn two_threads_serve_one_door(rt: HostRuntime) -> Result<(), Fail> {
    let alloc = rt.alloc();
    // A second `listen` at the inner door fails, so it is called once.
    let shared = Arc::new(alloc, Mutex::new(SharedDoor::new(door(alloc)?)))?;
    let mut first = LockedDoor::new(rt.clone()?, Arc::try_clone(&shared)?);
    let mut second = LockedDoor::new(rt.clone()?, shared);
    let mut clock = MemClock::new(Vec::new(alloc));
    let (one, two) = thread::join(
        &rt,
        || serve(&mut first).saturating_add(clock.now() as u32),
        || serve(&mut second),
    );
    assert!(rt; one.saturating_add(two) == 100);
    Ok(())
}

fn request<G: Gate, R: Wait>(gate: &G, rt: &R, caller: u32) {
    gate.pass(rt, caller, 0);
    gate.done(rt, caller, 0);
}

#[test]
fn a_gate_tells_whether_callers_met(rt: HostRuntime) -> Result<(), AllocError> {
    request(&OpenGate, &rt, 1);
    let gate = HoldGate::new();
    thread::join(&rt, || request(&gate, &rt, 1), || request(&gate, &rt, 2));
    assert!(rt; gate.met());
    let gate = HoldGate::with_turns(100);
    thread::join(&rt, || request(&gate, &rt, 1), || {});
    thread::join(&rt, || request(&gate, &rt, 2), || {});
    assert!(rt; !gate.met());
    Ok(())
}
