//! Calls of what is tested, without clauses, so that the proof of a test carries none of theirs. None is answered where what is called
//! can't be made.
use edge_core::{Gave, Got, Listed, Measured, Name, Put, Segments, Sink, Source, Store, Took};
use std::alloc::Global;

// 1 MiB.
pub(crate) const LARGE: usize = 1_048_576;

fn name(alloc: Global, text: &str) -> Option<Name> {
    match String::from_str(alloc, text) {
        Ok(text) => Name::of(text),
        Err(_) => None,
    }
}

pub(crate) fn size<S: Store>(alloc: Global, store: &mut S, object: &str) -> Option<Measured> {
    match name(alloc, object) {
        Some(name) => Some(store.size(&name)),
        None => None,
    }
}

// What is read into the room from a place on.
pub(crate) fn get<S: Store>(
    alloc: Global,
    store: &mut S,
    object: &str,
    from: u64,
    out: &mut [u8],
) -> Option<Got> {
    if out.is_empty() {
        return None;
    }
    match name(alloc, object) {
        Some(name) => Some(store.get(&name, from, out)),
        None => None,
    }
}

pub(crate) fn put<S: Store>(
    alloc: Global,
    store: &mut S,
    object: &str,
    bytes: &[u8],
) -> Option<Put> {
    match name(alloc, object) {
        Some(name) => Some(store.put_absent(&name, bytes)),
        None => None,
    }
}

fn names_in(listed: Listed) -> Option<Segments> {
    match listed {
        Listed::Names(names) => Some(names),
        Listed::Failed | Listed::NoMemory => None,
    }
}

// What a folder lists.
pub(crate) fn list<S: Store>(alloc: Global, store: &mut S, dir: &str) -> Option<Segments> {
    match name(alloc, dir) {
        Some(dir) => names_in(store.list(alloc, &dir)),
        None => None,
    }
}

pub(crate) fn read<S: Source>(source: &mut S, out: &mut [u8]) -> Took {
    if out.is_empty() {
        return Took::Failed;
    }
    source.read(out)
}

pub(crate) fn write<K: Sink>(sink: &mut K, bytes: &[u8]) -> Gave {
    if bytes.is_empty() {
        return Gave::Failed;
    }
    sink.write(bytes)
}
