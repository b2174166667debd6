//! A data provider's server over live Delta tables: the program.
#![tactic(auto)]

use edge_core::{Gathering, LockedDoor, OpenGate, SharedDoor};
use edge_std::{StdClock, StdSink, StdSource, TcpDoor, TcpWay};
use real_store::{PlaceFault, RealStore, StorePlace, tell_place};
use share_commands::{Edge, MOST_WORKERS, run, tell_memory};
use share_pool::Desk;
use std::alloc::{AllocError, Global};
use std::io::ErrorKind;
use std::process::ExitCode;
use std::sync::{Arc, Mutex};
use std::{env, io};
use step_count::Steps;

// The words after the program's name. Words that aren't text are no row of the table of words,
// as no words are.
fn words_of(rt: &HostRuntime) -> Result<Vec<String>, AllocError> {
    let mut words = Vec::new(rt.alloc());
    match env::args(rt) {
        Ok(given) => {
            for word in given.skip(1) {
                words.push(word)?;
            }
        }
        Err(e) if e.kind() == ErrorKind::OutOfMemory => return Err(AllocError),
        Err(_) => {}
    }
    Ok(words)
}

// A door that desks share, and a desk at it.
type Door = Mutex<SharedDoor<TcpDoor>>;

type RealDesk = Desk<LockedDoor<HostRuntime, TcpDoor>, RealStore<HostRuntime>, StdClock, ()>;

fn desk_at(
    rt: &HostRuntime,
    place: &StorePlace,
    door: &Arc<Door, Global>,
) -> Result<RealDesk, PlaceFault> {
    Ok(Desk {
        pass: None,
        door: LockedDoor::new(rt.clone()?, Arc::try_clone(door)?),
        store: place.store(rt)?,
        clock: StdClock::new(rt.clone()?),
        steps: Steps::<()>::new(),
        end: None,
    })
}

// As many desks at one door as a server has workers at most.
fn desks_of(rt: &HostRuntime, place: &StorePlace) -> Result<Vec<RealDesk>, PlaceFault> {
    let door = Arc::new(
        rt.alloc(),
        Mutex::new(SharedDoor::new(TcpDoor::new(rt.clone()?))),
    )?;
    let mut desks = Vec::new(rt.alloc());
    for _ in 0..MOST_WORKERS {
        desks.push(desk_at(rt, place, &door)?)?;
    }
    Ok(desks)
}

// Whether the words are of a command that reads the program's objects. The others do as well where `bucket.json` is wrong.
fn use_objects(words: &[String]) -> bool {
    match words {
        [first, ..] => matches!(first.as_str(), "query" | "stdio" | "serve" | "client"),
        [] => false,
    }
}

// Whether the words begin a server, which adds objects.
fn begin_server(words: &[String]) -> bool {
    match words {
        [word] => word.as_str() == "stdio",
        [word, _, _] => word.as_str() == "serve",
        _ => false,
    }
}

// Where the program's objects are. A bucket is looked at before a server begins.
fn place_of(rt: &HostRuntime, words: &[String]) -> Result<StorePlace, PlaceFault> {
    if !use_objects(words) {
        return Ok(StorePlace::Folder);
    }
    let place = StorePlace::read(rt)?;
    if begin_server(words) {
        place.check(rt)?;
    }
    Ok(place)
}

// A store of its own beside those of the desks.
fn stores_of(
    rt: &HostRuntime,
    words: &[String],
) -> Result<(RealStore<HostRuntime>, Vec<RealDesk>), PlaceFault> {
    let place = place_of(rt, words)?;
    let store = place.store(rt)?;
    let desks = desks_of(rt, &place)?;
    Ok((store, desks))
}

fn main(rt: HostRuntime) -> io::Result<ExitCode> {
    let mut notes = StdSink::new(rt.stderr());
    let (Ok(words), Ok(output)) = (
        words_of(&rt),
        Gathering::new(rt.alloc(), StdSink::new(rt.stdout())),
    ) else {
        return Ok(ExitCode::from(tell_memory(&mut notes)));
    };
    let (store, mut desks) = match stores_of(&rt, &words) {
        Ok(stores) => stores,
        Err(fault) => return Ok(ExitCode::from(tell_place(&mut notes, &fault))),
    };
    let mut edge = Edge {
        input: StdSource::new(rt.stdin()),
        output,
        notes,
        store,
        clock: StdClock::new(rt.clone()?),
        gate: OpenGate,
        steps: Steps::<()>::new(),
    };
    let mut way = TcpWay::new(rt.clone()?);
    Ok(ExitCode::from(run(&rt, rt.alloc(), &words, &mut edge, &mut desks, &mut way)))
}
