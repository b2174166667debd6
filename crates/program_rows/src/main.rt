//! The program whole: its commands, the sessions of its server, a recipient's client, and the pure machine. Rows of what stands outside,
//! and of what is printed, answered or stored.
//!
//! - A row with `words` runs a command: `in` is its input, `objects` those of the store, `lines` those of its link to peers, `desks` those
//!   of a server, each with the `lines` of its door; `status`, `out` and `notes` are what comes of it. A desk that has `objects` has a
//!   store of its own, with `foreign` and `store_fails`; `end` is how its worker ended.
//! - A row with the `call` `fetch`, `size`, `pieces`, `read` or `delta` has a client make it: `answer` and `out` are what comes of it.
//! - A row with the `call` `served` has a client ask a server in this process, one with `world` or `worlds` runs the pure machine.
//! - Each other row has sessions of a server.
//!
//! What comes on a line stands `in` it, by default from port 8080 of `peer`; what it is to be told stands in `told`, and a line without
//! that isn't opened. `read_faults` and `write_faults` are how often it is to fail, by default never. The calls that fail, and the sizes
//! of pieces, are those of `row_files`; those of the notes stand in `on_notes`, and the door of a desk fails at the calls of
//! `door_fails`. Where a row says no sizes, what comes on a line comes in 1, 20 and 5 bytes first and is written in 1 and 30, and a
//! command writes 1 and 7 bytes first.
//!
//! A row of sessions has the `objects` of a store, what others put before which call of it (`foreign`), the text of the `config` (that of
//! the name `config` where it has none), and `connections` one after another; a row of one connection has the members of it itself. At
//! the end the objects of `behind` are stored with these bytes, and those of the names `absent` aren't.
//!
//! A connection has the number of its `server`, 0 where it has none: a server is opened when it is first named, over the one store.
//! Then others store the objects of `later`, before anything comes. It has the `moments` of the clock; `turns`, each a request and its
//! response, or all that comes as `in` and all that is written as `out`; and how it ends (`end`). A sink that `gathers` keeps what is
//! written up to a flush: `kept` is what it still has at the end, and a number in `out_fails` is that of a flush that hands on. `pieces`
//! are the sizes of the first writes. `opening` is why no server is opened: then that is all.
#![tactic(auto)]

mod clients;
mod commands;
mod lines;
mod loops;
mod places;
mod sessions;
mod worlds;

use crate::clients::client_row;
use crate::commands::command_row;
use crate::loops::served_row;
use crate::sessions::session_row;
use crate::worlds::{world_row, worlds_row};
use row_files::{RowFault, RowFile, Told, member_at, run_rows, word_at};
use serde_json::Value;
use std::io;
use std::process::ExitCode;
use std::sync::Wait;
use std::thread::Threads;

// Runs a row, and compares what comes of it.
fn run_row<R: Threads + Wait + Sync>(
    rt: &R,
    file: &RowFile,
    row: &Value,
    told: &mut Told,
) -> Result<(), RowFault> {
    match word_at(row, "call") {
        None if member_at(row, "words").is_some() => command_row(rt, file, row, told),
        None => session_row(rt, file, row, told),
        Some("world") => world_row(file, row, told),
        Some("served") => served_row(rt, file, row, told),
        Some("worlds") => worlds_row(file, row, told),
        Some(call) => client_row(file, row, call, told),
    }
}

// Only the handle of `main` can wait and start threads, so it is passed beside the runtime.
fn run_all<R: Threads + Wait + Sync>(rt: &R, host: &HostRuntime) -> io::Result<ExitCode> {
    run_rows(
        host,
        &|file: &RowFile, row: &Value, told: &mut Told| {
            let ran = run_row(rt, file, row, told);
            told.end(ran);
        },
    )
}

fn main(rt: HostRuntime) -> io::Result<ExitCode> {
    run_all(&rt, &rt)
}
