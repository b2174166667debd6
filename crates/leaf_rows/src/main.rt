//! Calls of the libraries that need no server. A row names a `call`, what it is called `with` (its own members where it has no such one),
//! and what it `gives` as a text. Each module tells of its calls.
#![tactic(auto)]

mod answer;
mod asked;
mod catalog;
mod configs;
mod deltas;
mod doors;
mod given;
mod heads;
mod holed;
mod lines;
mod log_lines;
mod log_loads;
mod log_states;
mod memory;
mod messages;
mod names;
mod partitions;
mod ranges;
mod servers;
mod signs;
mod tables;
mod tokens;
mod trees;
mod wire;

use answer::Answer;
use given::Given;
use row_files::{RowFault, RowFile, Told, run_rows, text_at};
use serde_json::Value;
use std::io;
use std::process::ExitCode;

// Whether one of the modules knows the call, which answers it then.
macro_rules! first_knows {
    ($call:expr, $given:expr, $out:expr, $($module:ident),*) => {
        $(
            if $module::answer($call, $given, $out) {
                return true;
            }
        )*
    };
}

fn is_known(call: &str, given: &Given, out: &mut Answer) -> bool {
    first_knows!(
        call, given, out, asked, catalog, configs, deltas, doors, heads, lines, log_lines,
        log_loads, log_states, memory, messages, names, partitions, ranges, servers, signs, tables,
        tokens, trees, wire
    );
    false
}

fn answered(call: &str, given: &Given) -> Result<Vec<u8>, RowFault> {
    let mut out = Answer::new(given.file.alloc());
    if is_known(call, given, &mut out) {
        out.end()
    } else {
        Err(RowFault::Unknown("the call"))
    }
}

// Compares what a row's call answers with what it is to give.
fn run(file: &RowFile, row: &Value, told: &mut Told) -> Result<(), RowFault> {
    let Some(call) = row.get("call").and_then(Value::as_str) else {
        return Err(RowFault::Member("call"));
    };
    let with = row.get("with").unwrap_or(row);
    let wanted = text_at(file, row, "gives")?;
    let came = answered(call, &Given { file, with })?;
    Ok(told.compare(call, &wanted, &came)?)
}

fn main(rt: HostRuntime) -> io::Result<ExitCode> {
    run_rows(
        &rt,
        &|file: &RowFile, row: &Value, told: &mut Told| {
            let ran = run(file, row, told);
            told.end(ran);
        },
    )
}
