// Listeners and links in memory, and sinks that gather.
ghost use Rattle.std.specs.Prelude.{◌≡◌, [], IfOk};
ghost use Rattle.edge_core.specs.Calls.{calls_failed};
ghost use Rattle.edge_core.specs.Memory.{sink_bytes, sink_calls};

use crate::answer::Answer;
use crate::given::Given;
use edge_core::{
    Gathering, Gave, Limited, Link, Listener, MemClosed, MemLine, MemLink, MemListener, MemPeer,
    MemSink, MemSource, Opened, Sink, Source, Taken, Took, write_all,
};
use row_files::{RowFault, number_at, numbers_at, sink_of};
use serde_json::Value;
use std::alloc::{AllocError, Global};

// A sink with room for 8 bytes, whose write of the number 1 is to fail.
fn failing_sink(alloc: Global) -> Result<MemSink, AllocError>
    ensures unfailed { IfOk result (λ s. calls_failed (sink_calls s) ≡ 0) }
    ensures empty { IfOk result (λ s. sink_bytes s ≡ []) }
{
    let fails = Vec::from_slice(alloc, &[1])?;
    let sink = MemSink::new(alloc, 8, 8)?;
    Ok(sink.with_fails(fails))
}

// A line of those bytes, with such a sink.
fn line(alloc: Global, bytes: Vec<u8>) -> Result<MemLine, AllocError> {
    let sink = failing_sink(alloc)?;
    Ok(MemLine::new(MemSource::new(alloc, bytes), sink))
}

// Reads once, and writes what was read, once for each byte.
fn echo<S: Source, K: Sink>(source: &mut S, sink: &mut K) {
    let mut out = [0u8; 4];
    if let Took::Bytes(n) = source.read(&mut out) {
        for at in 0..n.min(4) {
            sink.write(&out[at..at + 1]);
        }
    }
    sink.flush();
}

// Serves a line, if one comes.
fn serve<N: Listener>(door: &mut N) -> &'static str {
    match door.accept() {
        Taken::Line(mut source, mut sink) => {
            echo(&mut source, &mut sink);
            door.close(source, sink);
            "line"
        }
        Taken::End => "end",
        Taken::Failed => "failed",
    }
}

// How a listener answers calls.
fn add_calls<N: Listener>(out: &mut Answer, door: &mut N, calls: &[Value]) {
    for call in calls {
        if call.as_str() == Some("listen") {
            out.show(&door.listen(80));
        } else {
            out.word(serve(door));
        }
        out.word("\n");
    }
}

// Adds what was written to each closed line, in how many pieces, and how often its sink and its source had failed.
fn add_closed(out: &mut Answer, closed: &[MemClosed]) {
    for line in closed {
        out.bytes(line.written());
        out.number(": pieces ", line.sink().pieces().len() as u64);
        out.number(", faults ", line.write_faults());
        out.number(" and ", line.read_faults());
        out.word("\n");
    }
}

fn door_of(given: &Given, lines: &[Value]) -> Result<MemListener, RowFault> {
    let alloc = given.file.alloc();
    let fails = numbers_at(alloc, given.with, "fails")?;
    let mut taken = Vec::new(alloc);
    for text in lines {
        taken.push(line(alloc, given.file.text(text)?)?)?;
    }
    Ok(MemListener::new(alloc, taken)?.with_fails(fails))
}

// The calls of a listener that gives so many lines alone, and then those of the one behind it.
fn add_limited(out: &mut Answer, door: MemListener, limit: u64, calls: &[Value]) -> MemListener {
    let mut limited = Limited::new(door, limit);
    add_calls(out, &mut limited, calls);
    limited.into_inner()
}

fn add_listener(given: &Given, door: MemListener, out: &mut Answer) {
    let limit = number_at(given.with, "limit").unwrap_or(None).unwrap_or(0);
    let limited = given.list("limited", out);
    let mut door = add_limited(out, door, limit, limited);
    let calls = given.list("calls", out);
    add_calls(out, &mut door, calls);
    add_closed(out, door.closed());
}

fn listener(given: &Given, out: &mut Answer) {
    match door_of(given, given.list("lines", out)) {
        Ok(door) => add_listener(given, door, out),
        Err(fault) => out.fail(fault),
    }
}

// Opens a line, serves it as a peer would, and closes it; whether one was opened.
fn visit<P: Link>(link: &mut P, host: &str, port: u16) -> bool {
    match link.open(host, port) {
        Opened::Line(mut source, mut sink) => {
            echo(&mut source, &mut sink);
            link.close(source, sink);
            true
        }
        Opened::Failed => false,
    }
}

fn port(given: &Given, out: &mut Answer) -> u16 {
    match u16::try_from(given.number("port", out)) {
        Ok(port) => port,
        Err(_) => {
            out.lacks("port");
            0
        }
    }
}

fn peer(given: &Given, out: &mut Answer) -> Result<MemPeer, AllocError> {
    let line = line(out.alloc(), given.bytes("text", out))?;
    let port = port(given, out);
    let host = given.text("host", out);
    Ok(MemPeer { host, port, line })
}

fn link_of(given: &Given, out: &mut Answer) -> Result<MemLink, RowFault> {
    let fails = numbers_at(out.alloc(), given.with, "fails")?;
    let mut lines = Vec::new(out.alloc());
    for of in given.list("lines", out) {
        lines.push(peer(&given.of(of), out)?)?;
    }
    Ok(MemLink::new(out.alloc(), lines)?.with_fails(fails))
}

fn add_visits(given: &Given, link: &mut MemLink, out: &mut Answer) {
    for of in given.list("visits", out) {
        let of = given.of(of);
        let port = port(&of, out);
        let host = of.word("host", out);
        out.flag("", visit(link, host, port));
        out.word("\n");
    }
    add_closed(out, link.closed());
}

fn link(given: &Given, out: &mut Answer) {
    match link_of(given, out) {
        Ok(mut link) => add_visits(given, &mut link, out),
        Err(fault) => out.fail(fault),
    }
}

fn write_often<K: Sink>(sink: &mut K, bytes: &[u8], times: u64) -> Result<(), u64> {
    for _ in 1..times {
        write_all(sink, bytes)?;
    }
    write_all(sink, bytes)
}

fn write_at_once<K: Sink>(sink: &mut K, bytes: &[u8]) -> Gave {
    if bytes.is_empty() {
        return Gave::Failed;
    }
    sink.write(bytes)
}

// How a sink answers a step: all of a text is written, so many times, or as much of it as is taken at once, or it is flushed. What is
// kept after it comes behind.
fn step(given: &Given, sink: &mut Gathering<MemSink>, out: &mut Answer) {
    if given.has("all") {
        let times = if given.has("often") {
            given.number("often", out)
        } else {
            1
        };
        let bytes = given.bytes("all", out);
        out.show(&write_often(sink, &bytes, times));
    } else if given.has("write") {
        let bytes = given.bytes("write", out);
        out.show(&write_at_once(sink, &bytes));
    } else {
        out.show(&sink.flush());
    }
    out.word(" keeps ");
    out.bytes(sink.kept());
    out.word("\n");
}

fn add_sink(out: &mut Answer, sink: &MemSink) {
    out.show(&sink.pieces());
    out.number(", faults ", sink.faults());
    out.word("\n");
    out.bytes(sink.bytes());
}

fn add_gathering(given: &Given, sink: MemSink, out: &mut Answer) {
    let Ok(mut sink) = Gathering::new(out.alloc(), sink) else {
        out.fail(RowFault::NoMemory);
        return;
    };
    for of in given.list("steps", out) {
        step(&given.of(of), &mut sink, out);
    }
    add_sink(out, &sink.into_inner());
}

fn gathering(given: &Given, out: &mut Answer) {
    match sink_of(given.file, given.with) {
        Ok(sink) => add_gathering(given, sink, out),
        Err(fault) => out.fail(fault),
    }
}

/// Answers a call, where it is one of these.
pub(crate) fn answer(call: &str, given: &Given, out: &mut Answer) -> bool {
    match call {
        "listener" => listener(given, out),
        "link_lines" => link(given, out),
        "gathering" => gathering(given, out),
        _ => return false,
    }
    true
}
