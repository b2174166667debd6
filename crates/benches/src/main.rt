//! What scripts of `bench/` measure and no run of the shipped program shows.
//!
//! Words: `cell` or `lock`, the number of threads (1 to 65) and the number of turns of each, for `bench/turns`; or `json`, for
//! `bench/query_bench`: each line of the standard input is read as a JSON value, which is dropped at once. It prints nothing: the scripts
//! have the clock. The status is 1 where a line is no JSON value, memory was wanting, or the words are others, else 0.
#![tactic(auto)]

mod turns;

use crate::turns::{Load, run_cell, run_lock};
use json_tree::tree_of;
use std::alloc::Global;
use std::io::Read;
use std::process::ExitCode;
use std::sync::Wait;
use std::thread::Threads;
use std::{env, io};

fn words_of(rt: &HostRuntime) -> io::Result<Vec<String>> {
    let mut words = Vec::new(rt.alloc());
    for word in env::args(rt)?.skip(1) {
        words.push(word)?;
    }
    Ok(words)
}

fn are_values(alloc: Global, bytes: &[u8]) -> bool {
    bytes
        .split(|byte| *byte == b'\n')
        .all(|line| line.is_empty() || tree_of(alloc, line).is_ok())
}

fn read_json(rt: &HostRuntime) -> io::Result<bool> {
    let mut bytes = Vec::new(rt.alloc());
    rt.stdin().read_to_end(&mut bytes)?;
    Ok(are_values(rt.alloc(), &bytes))
}

// Only `main`'s handle can wait and start threads, so it is passed beside the runtime.
fn run<R: Threads + Wait + Sync>(rt: &R, host: &HostRuntime, words: &[String]) -> io::Result<bool> {
    let Some((word, words)) = words.split_first() else {
        return Ok(false);
    };
    match (word.as_str(), Load::of(words)) {
        ("cell", Some(load)) => run_cell(rt, host.alloc(), load)?,
        ("lock", Some(load)) => run_lock(rt, host.alloc(), load)?,
        ("json", None) => return read_json(host),
        _ => return Ok(false),
    }
    Ok(true)
}

fn main(rt: HostRuntime) -> io::Result<ExitCode> {
    let words = words_of(&rt)?;
    let good = run(&rt, &rt, &words)?;
    Ok(ExitCode::from(if good { 0 } else { 1 }))
}
