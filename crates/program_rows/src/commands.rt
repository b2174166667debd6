// Commands, from words and stored bytes to printed lines.
use crate::lines::{compare_count, compare_lines, line_of, link_of, sink_in_pieces};
use edge_core::{MemClock, MemLine, MemLink, MemListener, MemSink, MemSource, MemStore, OpenGate};
use row_files::{
    RowFault, RowFile, Told, clock_of, list_at, member_at, numbers_at, source_of, store_of,
    text_at, text_or_nothing,
};
use serde_json::Value;
use share_commands::{Edge, run};
use share_pool::{Desk, ServeEnd};
use std::sync::Wait;
use std::thread::Threads;
use step_count::Steps;

type Memory = Edge<MemSource, MemSink, MemSink, MemStore, MemClock, OpenGate, ()>;

type MemDesk = Desk<MemListener, MemStore, MemClock, ()>;

fn push_command_words(
    file: &RowFile,
    row: &Value,
    words: &mut Vec<String>,
    told: &mut Told,
) -> Result<(), RowFault> {
    for value in list_at(row, "words")? {
        words.push(told.characters(file.text(value)))?;
    }
    Ok(())
}

// What is written goes out in pieces of one byte and of seven, and then whole.
fn written(file: &RowFile, of: &Value) -> Result<MemSink, RowFault> {
    sink_in_pieces(file, of, &[1, 7])
}

// Where the notes go: `on_notes` says of their writes what the row itself says of the output's.
fn notes_of(file: &RowFile, row: &Value) -> Result<MemSink, RowFault> {
    match member_at(row, "on_notes") {
        Some(of) => written(file, of),
        None => written(file, &Value::Null),
    }
}

fn edge_of(file: &RowFile, row: &Value) -> Result<Memory, RowFault> {
    let clock = clock_of(file, row)?;
    let input = source_of(file, row, text_or_nothing(file, row, "in")?)?;
    let output = written(file, row)?;
    let notes = notes_of(file, row)?;
    Ok(Edge {
        input,
        output,
        notes,
        store: store_of(file, row)?,
        clock,
        gate: OpenGate,
        steps: Steps::new(),
    })
}

fn push_lines(file: &RowFile, of: &Value, lines: &mut Vec<MemLine>) -> Result<(), RowFault> {
    for line in list_at(of, "lines")? {
        lines.push(line_of(file, line)?)?;
    }
    Ok(())
}

fn door_of(file: &RowFile, of: &Value) -> Result<MemListener, RowFault> {
    let fails = numbers_at(file.alloc(), of, "door_fails")?;
    let mut lines = Vec::new(file.alloc());
    push_lines(file, of, &mut lines)?;
    Ok(MemListener::new(file.alloc(), lines)?.with_fails(fails))
}

// A desk of a door, over a store of its own: that of its own objects, or else that of the row's.
fn desk_of(file: &RowFile, row: &Value, of: &Value) -> Result<MemDesk, RowFault> {
    let clock = clock_of(file, row)?;
    let door = door_of(file, of)?;
    let stores = if member_at(of, "objects").is_some() {
        of
    } else {
        row
    };
    Ok(MemDesk {
        pass: None,
        door,
        store: store_of(file, stores)?,
        clock,
        steps: Steps::new(),
        end: None,
    })
}

fn push_desks(file: &RowFile, row: &Value, desks: &mut Vec<MemDesk>) -> Result<(), RowFault> {
    for of in list_at(row, "desks")? {
        desks.push(desk_of(file, row, of)?)?;
    }
    Ok(())
}

// Runs the words, and answers the status. What `run` promises isn't needed here, and would make proofs long.
fn status_of<R: Threads + Wait + Sync>(
    rt: &R,
    file: &RowFile,
    words: &[String],
    edge: &mut Memory,
    desks: &mut [MemDesk],
    way: &mut MemLink,
) -> u8 {
    run(rt, file.alloc(), words, edge, desks, way)
}

// Compares what came of the run.
fn compare_edge(file: &RowFile, row: &Value, edge: &Memory, told: &mut Told) {
    told.want(
        "out",
        text_or_nothing(file, row, "out"),
        edge.output.bytes(),
    );
    told.want(
        "notes",
        text_or_nothing(file, row, "notes"),
        edge.notes.bytes(),
    );
}

// Compares how the worker of a desk ended, where the row says it.
fn compare_end(file: &RowFile, of: &Value, end: Option<ServeEnd>, told: &mut Told) {
    if member_at(of, "end").is_some() {
        told.want_shown("the end of a desk", text_at(file, of, "end"), &end);
    }
}

fn compare_desk(file: &RowFile, of: &Value, desk: &MemDesk, told: &mut Told) {
    match list_at(of, "lines") {
        Ok(lines) => compare_lines(file, lines, desk.door.closed(), told),
        Err(fault) => told.fail(fault),
    }
}

fn compare_desks(
    file: &RowFile,
    row: &Value,
    desks: &[MemDesk],
    told: &mut Told,
) -> Result<(), RowFault> {
    for (of, desk) in list_at(row, "desks")?.iter().zip(desks) {
        compare_desk(file, of, desk, told);
        compare_end(file, of, desk.end, told);
    }
    Ok(())
}

// Runs those words at those desks, and compares what came.
fn run_words<R: Threads + Wait + Sync>(
    rt: &R,
    file: &RowFile,
    row: &Value,
    words: &[String],
    desks: &mut [MemDesk],
    way: &mut MemLink,
    told: &mut Told,
) -> Result<(), RowFault> {
    let mut edge = edge_of(file, row)?;
    let status = status_of(rt, file, words, &mut edge, desks, way);
    compare_count(row, "status", u64::from(status), told);
    compare_edge(file, row, &edge, told);
    Ok(())
}

fn run_at_desks<R: Threads + Wait + Sync>(
    rt: &R,
    file: &RowFile,
    row: &Value,
    words: &[String],
    way: &mut MemLink,
    told: &mut Told,
) {
    let mut desks = Vec::new(file.alloc());
    let made = push_desks(file, row, &mut desks);
    told.end(made);
    let ran = run_words(rt, file, row, words, &mut desks, way, told);
    told.end(ran);
    let compared = compare_desks(file, row, &desks, told);
    told.end(compared);
}

/// A row of a command: `words` and `in`, the `objects` of the store, the `lines` to peers and the `desks` of a server, each with its
/// `lines`; then the `status`, `out` and `notes`. A line says what comes `in` on it, from which `host` and `port`, and what it is `told`.
pub(crate) fn command_row<R: Threads + Wait + Sync>(
    rt: &R,
    file: &RowFile,
    row: &Value,
    told: &mut Told,
) -> Result<(), RowFault> {
    let lines = list_at(row, "lines")?;
    let mut words = Vec::new(file.alloc());
    push_command_words(file, row, &mut words, told)?;
    let mut way = link_of(file, lines)?;
    run_at_desks(rt, file, row, &words, &mut way, told);
    compare_lines(file, lines, way.closed(), told);
    Ok(())
}
