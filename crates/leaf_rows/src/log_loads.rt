// Logs that are loaded from a store, and what a store has under a name.
use crate::answer::Answer;
use crate::given::Given;
use crate::holed::Holed;
use edge_core::{MemStore, Name, Store};
use log_store::{Fetched, LoadRefusal, Loaded, Probed, fetch, load, probe};
use row_files::store_of;

// The most bytes of the name of a table's folder.
const MOST_LOCATION: usize = 256;

const MOST_VERSION: u64 = 1 << 62;

const MOST_BYTES: u64 = 1 << 24;

fn add_log(out: &mut Answer, log: &Loaded) {
    for commit in log.commits.items() {
        out.number("commit of ", commit.actions().len() as u64);
        out.word("\n");
    }
    out.number("bytes ", log.bytes);
    out.word(", ");
    out.show(&log.block);
}

fn add_load(out: &mut Answer, loaded: &Result<Loaded, LoadRefusal>) {
    match loaded {
        Ok(log) => add_log(out, log),
        Err(told) => out.show(told),
    }
}

// The store of a row.
fn store_in(given: &Given, out: &mut Answer) -> Option<MemStore> {
    match store_of(given.file, given.with) {
        Ok(store) => Some(store),
        Err(fault) => {
            out.fail(fault);
            None
        }
    }
}

// Each of these makes a call of the store whose arguments are in its bounds.
fn load_from<W: Store>(out: &mut Answer, store: &mut W, location: &Name) {
    if location.as_str().len() <= MOST_LOCATION {
        add_load(out, &load(out.alloc(), store, location));
    }
}

fn load_whole(given: &Given, out: &mut Answer, location: &Name) {
    if let Some(mut store) = store_in(given, out) {
        load_from(out, &mut store, location);
    }
}

// Where a listing lacks the names in a text.
fn load_holed(given: &Given, out: &mut Answer, location: &Name) {
    let hidden = given.text("hides", out);
    if let Some(store) = store_in(given, out) {
        let mut store = Holed { store, hidden };
        load_from(out, &mut store, location);
    }
}

fn load_log(given: &Given, out: &mut Answer) {
    match &given.object_name("table", out) {
        Some(location) if given.has("hides") => load_holed(given, out, location),
        Some(location) => load_whole(given, out, location),
        None => {}
    }
}

fn add_probe(out: &mut Answer, probed: &Result<Probed, LoadRefusal>) {
    match probed {
        Ok(Probed::Absent) => out.word("absent"),
        Ok(Probed::Found(commit, bytes)) => {
            out.number("commit of ", commit.actions().len() as u64);
            out.number(", bytes ", *bytes);
        }
        Ok(Probed::Unreadable(fault)) => out.show(fault),
        Err(told) => out.show(told),
    }
}

fn probe_in(out: &mut Answer, store: &mut MemStore, location: &Name, version: u64) {
    if location.as_str().len() <= MOST_LOCATION && version <= MOST_VERSION {
        add_probe(out, &probe(out.alloc(), store, location, version));
    }
}

fn probe_version(given: &Given, out: &mut Answer) {
    let version = given.number("version", out);
    let location = given.object_name("table", out);
    if let (Some(location), Some(mut store)) = (location, store_in(given, out)) {
        probe_in(out, &mut store, &location, version);
    }
}

fn add_fetch(out: &mut Answer, fetched: &Result<Fetched, LoadRefusal>) {
    match fetched {
        Ok(Fetched::Bytes(bytes)) => out.number("bytes ", bytes.len() as u64),
        Ok(Fetched::Absent) => out.word("absent"),
        Ok(Fetched::TooLong) => out.word("too long"),
        Err(told) => out.show(told),
    }
}

fn fetch_from(out: &mut Answer, store: &mut MemStore, object: &Name, limit: u64) {
    if limit <= MOST_BYTES {
        let mut piece = [0u8; 1000];
        add_fetch(
            out,
            &fetch(out.alloc(), store, object, limit as usize, &mut piece),
        );
    }
}

fn fetch_object(given: &Given, out: &mut Answer) {
    let limit = given.number("limit", out);
    let object = given.object_name("object", out);
    if let (Some(object), Some(mut store)) = (object, store_in(given, out)) {
        fetch_from(out, &mut store, &object, limit);
    }
}

/// Answers a call, where it is one of these.
pub(crate) fn answer(call: &str, given: &Given, out: &mut Answer) -> bool {
    match call {
        "load" => load_log(given, out),
        "probe" => probe_version(given, out),
        "fetch" => fetch_object(given, out),
        _ => return false,
    }
    true
}
