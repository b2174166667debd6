// The world of a rehearsal: a server over a store with one table of 50,000 files, and a client of it.
use crate::peer::Peer;
use crate::stop::Stop;
use edge_core::{MemClock, MemStore, Name, OpenGate, Stored};
use share_client::QueryBody;
use share_config::{Profile, config_of, profile_of};
use share_hub::Hub;
use share_serve::Server;
use std::alloc::{AllocError, Global};

/// How many files the table has.
pub(crate) const FILES: u64 = 50_000;

/// How many commits add them.
pub(crate) const COMMITS: u64 = 100;

// How many each adds.
const COMMIT_FILES: u64 = 500;

// The room of the store, in objects and in bytes.
const OBJECTS: usize = 400;

const BYTES: usize = 8_000_000;

/// A day in 2023.
pub(crate) const NOW: u64 = 1_700_000_000_000;

// Keys of 32 bytes each, and the digests of the tokens `admin` and `provider`.
const CONFIG: &str =
    "{\"tokenKey\":\"0101010101010101010101010101010101010101010101010101010101010101\",\
    \"linkKey\":\"0202020202020202020202020202020202020202020202020202020202020202\",\
    \"adminDigest\":\"8c6976e5b5410415bde908bd4dee15dfb167a9c873fc4bb8a81f6f2ab448a918\",\
    \"providerDigests\":[\"5c4c1964340aca5b65393bbe9d3249cdd71be26665b3320ad694f034f2743283\"],\
    \"linkTtlSeconds\":3600,\
    \"endpoint\":\"http://127.0.0.1:8080/delta-sharing\"}";

/// The edits of the catalogue, in order. The digests are those of the tokens `abc` and `def`.
pub(crate) const EDITS: [&str; 6] = [
    "{\"newShare\":{\"name\":\"s1\"}}",
    "{\"bind\":{\"history\":true,\"location\":\"big\",\"schema\":\"sc\",\"share\":\"s1\",\"table\":\"t1\"}}",
    "{\"newRecipient\":{\"digest\":\"ba7816bf8f01cfea414140de5dae2223b00361a396177a9cb410ff61f20015ad\",\"expires\":null,\"name\":\"r1\"}}",
    "{\"grant\":{\"recipient\":\"r1\",\"share\":\"s1\"}}",
    "{\"newShare\":{\"name\":\"s2\"}}",
    "{\"newRecipient\":{\"digest\":\"cb8379ac2098aa165029e3938a51da0bcecfc008fd6795f401178647f96c5b34\",\"expires\":null,\"name\":\"r2\"}}",
];

const PROFILE: &str =
    "{\"bearerToken\":\"abc\",\"endpoint\":\"http://127.0.0.1:8080/delta-sharing\",\"shareCredentialsVersion\":1}";

// What the first commit begins with.
const BEGUN: &str = "{\"protocol\":{\"minReaderVersion\":1,\"minWriterVersion\":2}}\n\
    {\"metaData\":{\"id\":\"big\",\"partitionColumns\":[\"day\"],\"schemaString\":\"{\\\"type\\\":\\\"struct\\\",\\\"fields\\\":[{\\\"name\\\":\\\"day\\\",\\\"type\\\":\\\"integer\\\",\\\"nullable\\\":true,\\\"metadata\\\":{}}]}\"}}\n";

// Without a predicate, and with one: the day is 3.
const WHOLE: &str = "{\"maxFiles\":1000,\"version\":99}";

const PART: &str =
    "{\"jsonPredicateHints\":\"{\\\"children\\\":[{\\\"name\\\":\\\"day\\\",\\\"op\\\":\\\"column\\\",\\\"valueType\\\":\\\"int\\\"},{\\\"op\\\":\\\"literal\\\",\\\"value\\\":\\\"3\\\",\\\"valueType\\\":\\\"int\\\"}],\\\"op\\\":\\\"equal\\\"}\",\"maxFiles\":1000,\"version\":99}";

/// The server of a rehearsal.
pub(crate) type MemPeer = Peer<MemStore, MemClock, OpenGate>;

// The line of a file that is added.
fn push_add(
    alloc: Global,
    text: &mut String,
    path: &str,
    day: u64,
    size: u64,
) -> Result<(), AllocError> {
    text.push_str(&format!(in alloc;
        "{{\"add\":{{\"partitionValues\":{{\"day\":\"{day}\"}},\"path\":\"{path}\",\"size\":{size}}}}}\n"
    )?)
}

/// The path of a file of the table.
pub(crate) fn path_of(alloc: Global, file: u64) -> Result<String, AllocError> {
    format!(in alloc; "f{file:06}.parquet")
}

/// The text of a commit. The day of file i is the last digit of the number and i together.
pub(crate) fn commit_text(alloc: Global, number: u32, version: u64) -> Result<String, AllocError> {
    let mut text = String::new(alloc);
    if version == 0 {
        text.push_str(BEGUN)?;
    }
    let first = version.saturating_mul(COMMIT_FILES);
    for file in first..first.saturating_add(COMMIT_FILES) {
        let day = file.saturating_add(u64::from(number)) % 10;
        let path = path_of(alloc, file)?;
        push_add(alloc, &mut text, &path, day, file.saturating_add(1))?;
    }
    Ok(text)
}

fn stock(alloc: Global, store: &mut MemStore, name: String, text: &str) -> Result<(), Stop> {
    let Some(name) = Name::of(name) else {
        return Err(Stop::Unexpected);
    };
    let bytes = Vec::from_slice(alloc, text.as_bytes())?;
    if store.stock(Stored { name, bytes }) {
        Ok(())
    } else {
        Err(Stop::Unexpected)
    }
}

/// The text of an edit's record.
pub(crate) fn record_text(alloc: Global, edit: &str) -> Result<String, AllocError> {
    format!(in alloc; "{{\"edit\":{edit},\"version\":1}}\n")
}

fn stock_records(alloc: Global, store: &mut MemStore) -> Result<(), Stop> {
    for (number, edit) in EDITS.iter().enumerate() {
        let name = format!(in alloc; "_share_log/{number:020}.json")?;
        stock(alloc, store, name, &record_text(alloc, edit)?)?;
    }
    Ok(())
}

fn stock_commits(alloc: Global, store: &mut MemStore, number: u32) -> Result<(), Stop> {
    for version in 0..COMMITS {
        let name = format!(in alloc; "big/_delta_log/{version:020}.json")?;
        let text = commit_text(alloc, number, version)?;
        stock(alloc, store, name, &text)?;
    }
    Ok(())
}

// A clock that stands still.
fn clock(alloc: Global) -> Result<MemClock, AllocError> {
    let mut moments = Vec::new(alloc);
    moments.push(NOW)?;
    Ok(MemClock::new(moments))
}

/// What the server answers by.
pub(crate) fn server_of_config(alloc: Global) -> Result<Server, Stop> {
    Ok(Server::of(config_of(alloc, CONFIG.as_bytes())?))
}

/// The server over the table of that number, with the share `s1` that recipient `r1` is granted, and a share and a recipient besides.
pub(crate) fn peer_of(alloc: Global, number: u32) -> Result<MemPeer, Stop> {
    let mut store = MemStore::new(alloc, OBJECTS, BYTES, Vec::new(alloc))?;
    stock_records(alloc, &mut store)?;
    stock_commits(alloc, &mut store, number)?;
    let server = server_of_config(alloc)?;
    let (hub, mut passes) = Hub::open(alloc, &mut store, 1)?;
    match passes.pop() {
        Some(pass) => Ok(Peer::new(hub, pass, server, store, clock(alloc)?, OpenGate)),
        None => Err(Stop::Unexpected),
    }
}

/// The profile of `r1`.
pub(crate) fn profile(alloc: Global) -> Result<Profile, Stop> {
    Ok(profile_of(alloc, PROFILE.as_bytes())?)
}

fn body_of(alloc: Global, text: &str) -> Result<QueryBody, Stop> {
    match QueryBody::of(alloc, text)? {
        Some(body) => Ok(body),
        None => Err(Stop::Unexpected),
    }
}

/// What is asked of the whole table, at version 99 and with 1,000 files a page.
pub(crate) fn whole(alloc: Global) -> Result<QueryBody, Stop> {
    body_of(alloc, WHOLE)
}

/// What is asked of the files of day 3, alike.
pub(crate) fn part(alloc: Global) -> Result<QueryBody, Stop> {
    body_of(alloc, PART)
}
