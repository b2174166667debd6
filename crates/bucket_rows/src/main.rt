//! Calls of the libraries of a store over S3's protocol. A row names a `call`, has what it is called with, and what it `gives` as a text.
#![tactic(auto)]

mod decided;
mod listed;
mod signed;
mod stored;

use row_files::{RowFault, RowFile, Told, run_rows, text_at, word_at};
use serde_json::Value;
use std::io;
use std::process::ExitCode;

fn answered(file: &RowFile, row: &Value) -> Result<Vec<u8>, RowFault> {
    match word_at(row, "call") {
        Some("authorization") => signed::authorization_of(file, row),
        Some("head") => signed::head_of(file, row),
        Some("listing") => listed::listing_told(file, row),
        Some("code") => listed::code_told(file, row),
        Some("put") => decided::put_told(file, row),
        Some("get") => decided::get_told(file, row),
        Some("size") => decided::size_told(file, row),
        Some("store") => stored::store_told(file, row),
        _ => Err(RowFault::Unknown("the call")),
    }
}

// Compares what a row's call answers with what it is to give.
fn run(file: &RowFile, row: &Value, told: &mut Told) -> Result<(), RowFault> {
    let wanted = text_at(file, row, "gives")?;
    let came = answered(file, row)?;
    Ok(told.compare("answer", &wanted, &came)?)
}

fn main(rt: HostRuntime) -> io::Result<ExitCode> {
    run_rows(
        &rt,
        &|file: &RowFile, row: &Value, told: &mut Told| {
            let end = run(file, row, told);
            told.end(end);
        },
    )
}
