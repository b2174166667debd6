// What is done step by step, and what is told of it. A script is a text, since a function costs more to prove than a line.
use crate::callers::{Callers, Told};
use crate::objects::{stock, stocked};
use crate::offer::offered;
use edge_core::MemStore;
use std::alloc::Global;
use std::process::Abort;
use std::sync::Wait;

// What is told where there is nothing to tell.
const DONE: Told = ("done", 0, 0);

// How many looks at the versions from 1 to 64, in order, begin with the one before, and have one action left.
fn chained<R: Wait>(rt: &R, alloc: Global, callers: &mut Callers) -> Option<Told> {
    let mut begun = 0u64;
    for version in 1..65u64 {
        if callers.left(rt, alloc, Some(version)) == Some(("begins with", version - 1, 1)) {
            begun = begun.saturating_add(1);
        }
        if callers.files(rt, alloc, Some(version)).is_none() {
            return None;
        }
    }
    Some(("begun", begun, 0))
}

fn stocked_one(alloc: Global, store: &mut MemStore, word: &str) -> Option<Told> {
    if stock(alloc, store, word) {
        Some(DONE)
    } else {
        None
    }
}

fn changed(callers: &mut Callers) -> Option<Told> {
    callers.change();
    Some(DONE)
}

fn met(callers: &mut Callers) -> Option<Told> {
    callers.meet();
    Some(DONE)
}

// What a step is told: `stock` stores the object of that word for someone else; `left` tells with which state a look at the files of a
// version would begin, and how many actions are left to replay; from `change` and `meet` on the other caller calls, and behind `meet`
// it was told what the first has seen. A version that is no number is the latest.
fn told<R: Wait>(
    rt: &R,
    alloc: Global,
    callers: &mut Callers,
    store: &mut MemStore,
    step: (&str, &str),
) -> Option<Told> {
    let (word, of) = step;
    match word {
        "stock" => stocked_one(alloc, store, of),
        "refresh" => callers.refresh(rt, alloc, store),
        "found" => callers.found(rt, alloc, store),
        "names" => callers.names(rt, alloc),
        "files" => callers.files(rt, alloc, of.parse::<u64>().ok()),
        "left" => callers.left(rt, alloc, of.parse::<u64>().ok()),
        "chain" => chained(rt, alloc, callers),
        "offer" => offered(rt, alloc, callers, store),
        "change" => changed(callers),
        "meet" => met(callers),
        _ => None,
    }
}

// Whether that is told in those words.
fn is_told(alloc: Global, told: Option<Told>, wanted: &str) -> bool {
    let Some((word, first, second)) = told else {
        return false;
    };
    match format!(in alloc; "{word} {first} {second}") {
        Ok(text) => text.as_str() == wanted,
        Err(_) => false,
    }
}

// The two parts of a text, the second of which may be lacking.
fn parts<'a>(text: &'a str, at: &str, usual: &'a str) -> (&'a str, &'a str) {
    match text.split_once(at) {
        Some(parts) => parts,
        None => (text, usual),
    }
}

// Whether a line is told so: what is done, with what, and behind a colon what is told of it.
fn holds<R: Wait>(
    rt: &R,
    alloc: Global,
    callers: &mut Callers,
    store: &mut MemStore,
    line: &str,
) -> bool {
    let (step, wanted) = parts(line, ": ", "done 0 0");
    is_told(
        alloc,
        told(rt, alloc, callers, store, parts(step, " ", "")),
        wanted,
    )
}

fn wrong_in<R: Wait>(
    rt: &R,
    alloc: Global,
    callers: &mut Callers,
    store: &mut MemStore,
    script: &str,
) -> Option<usize> {
    for (number, line) in script.split('\n').enumerate() {
        if !holds(rt, alloc, callers, store, line) {
            return Some(number);
        }
    }
    None
}

fn wrong_over<R: Wait>(rt: &R, alloc: Global, store: &mut MemStore, script: &str) -> Option<usize> {
    match Callers::open(alloc, store) {
        Some(mut callers) => wrong_in(rt, alloc, &mut callers, store, script),
        None => Some(0),
    }
}

// The number of the first line that is told otherwise, none where there is none.
fn first_wrong<R: Wait>(rt: &R, alloc: Global, words: &str, script: &str) -> Option<usize> {
    match stocked(alloc, words) {
        Some(mut store) => wrong_over(rt, alloc, &mut store, script),
        None => Some(0),
    }
}

/// Fails at the first line that is told otherwise, over a hub that is opened where those objects are stored.
pub(crate) fn run_script<R: Wait + Abort>(rt: &R, alloc: Global, words: &str, script: &str) {
    assert_eq!(rt; first_wrong(rt, alloc, words, script), None);
}
