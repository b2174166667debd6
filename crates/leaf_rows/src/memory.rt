// Names, and sources, sinks, stores and clocks in memory.
use crate::answer::Answer;
use crate::given::Given;
use edge_core::{
    Clock, Gave, Got, Listed, MemSink, MemSource, MemStore, Name, Segment, Segments, Sink, Source,
    Store, Took, is_name_text, is_segment_text, write_all,
};
use row_files::{RowFault, clock_of, sink_of, source_of, store_of};
use serde_json::Value;
use std::alloc::{AllocError, Global};

// Adds the texts of a name's copy and of the name.
fn add_name(out: &mut Answer, name: Name) -> Result<(), AllocError> {
    let copy = name.copy(out.alloc())?;
    out.word("\n");
    out.word(copy.as_str());
    out.word("\n");
    out.word(name.into_text().as_str());
    Ok(())
}

// Whether a text is a name; and where one is made of it, the texts that it has.
fn name(given: &Given, out: &mut Answer) {
    let text = given.text("text", out);
    out.flag("", is_name_text(&text));
    if let Some(name) = Name::of(text) {
        let done = add_name(out, name);
        out.stored(done);
    }
}

fn add_segment(out: &mut Answer, segment: &Segment) -> Result<(), AllocError> {
    let copy = segment.copy(out.alloc())?;
    out.word("\n");
    out.word(segment.as_str());
    out.word("\n");
    out.word(copy.into_text().as_str());
    Ok(())
}

// The same of a segment.
fn segment(given: &Given, out: &mut Answer) {
    let text = given.text("text", out);
    out.flag("", is_segment_text(&text));
    if let Some(segment) = &Segment::of(text) {
        let done = add_segment(out, segment);
        out.stored(done);
    }
}

fn add_segments(out: &mut Answer, segments: &[Segment]) {
    for segment in segments {
        out.word(segment.as_str());
        out.word("\n");
    }
}

fn segments_of(alloc: Global, texts: &[Value]) -> Result<Segments, RowFault> {
    let mut items = Vec::new(alloc);
    for text in texts {
        match Segment::of(String::from_str(alloc, text.as_str().unwrap_or(""))?) {
            Some(segment) => items.push(segment)?,
            None => return Err(RowFault::Member("segments")),
        }
    }
    Ok(Segments::of(items))
}

fn add_copied(out: &mut Answer, segments: &Segments) -> Result<(), AllocError> {
    add_segments(out, segments.items());
    add_segments(out, &segments.copy(out.alloc())?.into_items());
    Ok(())
}

// The segments of a list, and those of its copy.
fn segments(given: &Given, out: &mut Answer) {
    match &segments_of(out.alloc(), given.list("segments", out)) {
        Ok(segments) => {
            let done = add_copied(out, segments);
            out.stored(done);
        }
        Err(fault) => out.fail(*fault),
    }
}

fn room_at(given: &Given, out: &mut Answer) -> Vec<u8> {
    let room = given.number("room_for", out) as usize;
    match vec![in out.alloc(); 0u8; room] {
        Ok(room) => room,
        Err(_) => {
            out.fail(RowFault::NoMemory);
            Vec::new(out.alloc())
        }
    }
}

// How a read answers, and the room after it.
fn add_read(out: &mut Answer, source: &mut MemSource, room: &mut [u8]) {
    let took = if room.is_empty() {
        Took::Failed
    } else {
        source.read(room)
    };
    out.show(&took);
    add_room(out, room);
}

fn add_room(out: &mut Answer, room: &[u8]) {
    out.word(" ");
    out.bytes(room);
    out.word("\n");
}

fn add_reads(given: &Given, source: &mut MemSource, out: &mut Answer) {
    let mut room = room_at(given, out);
    for _ in 0..given.number("reads", out) {
        add_read(out, source, &mut room);
    }
}

fn read(given: &Given, out: &mut Answer) {
    let text = given.bytes("text", out);
    match source_of(given.file, given.with, text) {
        Ok(mut source) => add_reads(given, &mut source, out),
        Err(fault) => out.fail(fault),
    }
}

fn write_at_once(sink: &mut MemSink, bytes: &[u8]) -> Gave {
    if bytes.is_empty() {
        return Gave::Failed;
    }
    sink.write(bytes)
}

fn add_write(out: &mut Answer, sink: &mut MemSink, bytes: &[u8], all: bool) {
    if all {
        out.show(&write_all(sink, bytes));
    } else {
        out.show(&write_at_once(sink, bytes));
    }
    out.word("\n");
}

// How writes answer, and what the sink has then.
fn add_writes(given: &Given, sink: &mut MemSink, out: &mut Answer) {
    let all = given.flag("all", out);
    for text in given.list("writes", out) {
        let text = out.made(given.file.text(text));
        add_write(out, sink, &text, all);
    }
    out.show(&sink.pieces());
    add_room(out, sink.bytes());
}

fn write(given: &Given, out: &mut Answer) {
    match sink_of(given.file, given.with) {
        Ok(mut sink) => add_writes(given, &mut sink, out),
        Err(fault) => out.fail(fault),
    }
}

fn get(store: &mut MemStore, name: &Name, from: u64, room: &mut [u8]) -> Got {
    if room.is_empty() {
        return Got::Failed;
    }
    store.get(name, from, room)
}

fn add_listed(out: &mut Answer, listed: &Listed) {
    match listed {
        Listed::Names(names) => add_segments(out, names.items()),
        Listed::Failed | Listed::NoMemory => out.word("Failed"),
    }
}

// How the store answers a call: a put, the size of an object, a get or a list.
fn ask(call: &Given, store: &mut MemStore, room: &mut [u8], out: &mut Answer) {
    let Some(name) = call.object_name("of", out) else {
        return;
    };
    match call.word("do", out) {
        "put" => {
            let bytes = call.bytes("bytes", out);
            out.show(&store.put_absent(&name, &bytes));
        }
        "size" => out.show(&store.size(&name)),
        "list" => add_listed(out, &store.list(out.alloc(), &name)),
        _ => {
            let from = call.number("from", out);
            out.show(&get(store, &name, from, room));
        }
    }
    add_room(out, room);
}

// How the calls of a store are answered, each with the room into which a get reads behind it.
fn add_answers(given: &Given, store: &mut MemStore, out: &mut Answer) {
    let mut room = room_at(given, out);
    for call in given.list("calls", out) {
        ask(&given.of(call), store, &mut room, out);
    }
}

fn store(given: &Given, out: &mut Answer) {
    match store_of(given.file, given.with) {
        Ok(mut store) => add_answers(given, &mut store, out),
        Err(fault) => out.fail(fault),
    }
}

// What a clock of the moments tells, so often.
fn clock(given: &Given, out: &mut Answer) {
    match clock_of(given.file, given.with) {
        Ok(mut clock) => {
            for _ in 0..given.number("asked", out) {
                out.number("", clock.now());
                out.word("\n");
            }
        }
        Err(fault) => out.fail(fault),
    }
}

/// Answers a call, where it is one of these.
pub(crate) fn answer(call: &str, given: &Given, out: &mut Answer) -> bool {
    match call {
        "name" => name(given, out),
        "segment" => segment(given, out),
        "segments" => segments(given, out),
        "read" => read(given, out),
        "write" => write(given, out),
        "store" => store(given, out),
        "clock" => clock(given, out),
        _ => return false,
    }
    true
}
