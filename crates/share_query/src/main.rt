//! A query of a table in a folder, as `share_main query LOCATION` answers it: the word is the LOCATION. It is a program of its own since
//! it is built without proofs in little more than half the time of the whole program, for a first look (`demo/query`).
#![tactic(auto)]

use edge_core::{Gathering, OpenGate};
use edge_std::{FileStore, StdClock, StdSink, StdSource};
use query_command::{Edge, End, location_of, query, tell, tell_memory};
use std::process::ExitCode;
use std::{env, io};
use step_count::Steps;

// The one word, or the empty text, which names no location.
fn word_of(rt: &HostRuntime) -> io::Result<String> {
    let mut words = env::args(rt)?.skip(1);
    match (words.next(), words.next()) {
        (Some(word), None) => Ok(word),
        _ => Ok(String::new(rt.alloc())),
    }
}

fn main(rt: HostRuntime) -> io::Result<ExitCode> {
    let mut notes = StdSink::new(rt.stderr());
    let Ok(output) = Gathering::new(rt.alloc(), StdSink::new(rt.stdout())) else {
        return Ok(ExitCode::from(tell_memory(&mut notes)));
    };
    let location = word_of(&rt)?;
    let mut edge = Edge {
        input: StdSource::new(rt.stdin()),
        output,
        notes,
        store: FileStore::new(rt.clone()?, String::from_str(rt.alloc(), ".")?),
        clock: StdClock::new(rt.clone()?),
        gate: OpenGate,
        steps: Steps::<()>::new(),
    };
    let end = match location_of(rt.alloc(), location.as_str()) {
        Ok(Some(location)) => query(rt.alloc(), location.name(), &mut edge),
        Ok(None) => End::Words,
        Err(_) => End::NoMemory,
    };
    tell(&mut edge, &end);
    Ok(ExitCode::from(end.status()))
}
