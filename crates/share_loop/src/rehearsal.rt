// A rehearsal of the client and the server.
ghost use Rattle.std.specs.Prelude.{IfOk};
ghost use Rattle.share_loop.specs.Summaries.{IsSummary};

use crate::link::LoopLink;
use crate::machine::{is_equal, version_in};
use crate::stop::Stop;
use crate::summary::{ReadCount, Reads, Summary, text_of};
use crate::turns::all_planned;
use crate::world;
use edge_core::{Link, Opened, Sink, Source};
use http_wire::{Reply, Responses, write_all};
use json_tree::Text;
use share_client::{Client, QueryBody, SharedTable, TableRead};
use std::alloc::{AllocError, Global};
use std::sync::Wait;

// It asks for the latest version of the table.
const VERSION: &str = "GET /delta-sharing/shares/s1/schemas/sc/tables/t1/version HTTP/1.1\r\n\
    Host: x\r\n\
    Authorization: Bearer abc\r\n\
    Connection: close\r\n\r\n";

fn text(alloc: Global, text: &str) -> Result<Text, AllocError> {
    Ok(Text::of(String::from_str(alloc, text)?))
}

fn table(alloc: Global) -> Result<SharedTable, AllocError> {
    Ok(SharedTable {
        share: text(alloc, "s1")?,
        schema: text(alloc, "sc")?,
        table: text(alloc, "t1")?,
    })
}

fn count_of(read: &TableRead) -> ReadCount {
    let mut bytes = 0u64;
    for file in &read.files {
        bytes = bytes.saturating_add(file.size.get());
    }
    ReadCount {
        pages: read.pages,
        files: read.files.len() as u64,
        bytes,
    }
}

// Reads the table, and gives the version that was read and what came.
fn read<L: Link>(
    alloc: Global,
    client: &Client,
    link: &mut L,
    body: &QueryBody,
) -> Result<(u64, ReadCount), Stop> {
    let read = client.read_table(alloc, link, &table(alloc)?, body)?;
    Ok((read.version, count_of(&read)))
}

// The version that the reply states.
fn version_of(reply: &Reply) -> Option<u64> {
    match reply {
        Reply::Response { fields, .. } => version_in(fields),
        _ => None,
    }
}

fn ask<S: Source, K: Sink>(
    alloc: Global,
    input: &mut S,
    output: &mut K,
) -> Result<Reply, AllocError> {
    match write_all(output, VERSION.as_bytes()) {
        Ok(()) => Responses::new(alloc).next(alloc, input, false),
        Err(_) => Err(AllocError),
    }
}

// The table's latest version.
fn head<L: Link>(alloc: Global, link: &mut L) -> Result<u64, Stop> {
    match link.open("127.0.0.1", 8080) {
        Opened::Line(mut input, mut output) => {
            let reply = ask(alloc, &mut input, &mut output);
            link.close(input, output);
            version_of(&reply?).ok_or(Stop::Unexpected)
        }
        Opened::Failed => Err(Stop::NoMemory),
    }
}

// Reads the table twice, and asks for its version.
fn read_all<L: Link>(alloc: Global, link: &mut L) -> Result<Reads, Stop> {
    let client = Client::new(world::profile(alloc)?);
    let (version, whole) = read(alloc, &client, link, &world::whole(alloc)?)?;
    let (again, part) = read(alloc, &client, link, &world::part(alloc)?)?;
    if again != version {
        return Err(Stop::Unexpected);
    }
    Ok(Reads {
        version,
        whole,
        part,
        head: head(alloc, link)?,
    })
}

fn summary_of<R: Wait + Copy>(rt: R, alloc: Global, number: u32) -> Result<Summary, Stop> {
    let peer = world::peer_of(alloc, number)?;
    let mut link = LoopLink::new(rt, alloc, peer, all_planned(alloc, number)?)?;
    let reads = read_all(alloc, &mut link)?;
    let keys = world::server_of_config(alloc)?.keys;
    let is_core_equal = is_equal(alloc, &keys, number, &link.take_heard())?;
    Ok(Summary {
        reads,
        is_core_equal,
    })
}

/// Rehearses the reads of a client and the server over a table of 50,000 files in 100 commits, all in memory. The client reads version 99 twice,
/// 1,000 files a page: the whole table, and the files of day 3. Before each page but a read's first a provider commits to the table, and
/// the administrator grants another share to another recipient, or takes the grant back. At the end the table's version is asked for. Then
/// the same commits, edits and requests go through the pure machine, and its replies are compared with what the server wrote.
/// The number shifts the files' days, and which files the provider removes.
///
/// The answer is the lines of what was read, each number as the client had it, and of the comparison. A rehearsal that goes on to an answer of another
/// kind than a page, or a version, has zeros for all numbers, and `core differs`. The error is want of memory.
pub fn rehearse<R: Wait + Copy>(rt: R, alloc: Global, number: u32) -> Result<Text, AllocError>
    ensures { IfOk result IsSummary }
{
    match summary_of(rt, alloc, number) {
        Ok(summary) => text_of(alloc, &summary),
        Err(Stop::Unexpected) => text_of(alloc, &Summary::nothing()),
        Err(Stop::NoMemory) => Err(AllocError),
    }
}
