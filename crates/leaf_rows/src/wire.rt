// Messages of connections that are read from a source in pieces.
use crate::answer::Answer;
use crate::given::Given;
use crate::messages::flaw_word;
use edge_core::MemSource;
use http_wire::{FinalHead, Message, Reply, Responses, Wire};
use row_files::{RowFault, source_of};
use std::alloc::{AllocError, Global};

// What a session ends with where a read failed.
const FAULT: &[u8] = b"a read failed\nclosed";

// Adds what a message is.
fn add_message(message: &Message, out: &mut Answer) {
    match message {
        Message::Request {
            at,
            head,
            body,
            closes,
        } => {
            out.number("at ", *at);
            out.words(": ", head.method.as_str());
            out.words(" ", head.target.as_str());
            out.number(" 1.", u64::from(head.minor));
            out.flag(" closes=", *closes);
            out.word(" body=");
            out.bytes(body);
        }
        Message::End => out.word("the end"),
        Message::Truncated { at } => {
            out.number("at ", *at);
            out.word(": truncated");
        }
        Message::Bad { at, flaw } => {
            out.number("at ", *at);
            out.words(": ", flaw_word(*flaw));
        }
        Message::ReadFault => out.word("a read failed"),
    }
    out.word("\n");
}

// Adds what the next message is, where the connection is open.
fn add_next(wire: &mut Wire, source: &mut MemSource, out: &mut Answer) {
    if !wire.is_open() {
        return;
    }
    match &wire.next(out.alloc(), source) {
        Ok(message) => add_message(message, out),
        Err(_) => out.fail(RowFault::NoMemory),
    }
}

// What the first messages of a connection are, and whether it is open then.
fn add_session(source: &mut MemSource, most: u64, out: &mut Answer) {
    let mut wire = Wire::new(out.alloc());
    for _ in 0..most {
        add_next(&mut wire, source, out);
    }
    out.word(if wire.is_open() { "open" } else { "closed" });
}

fn most_at(given: &Given, out: &mut Answer) -> u64 {
    if given.has("messages") {
        given.number("messages", out)
    } else {
        1
    }
}

// The source of the bytes `in`.
fn source_in(given: &Given, out: &mut Answer) -> Option<MemSource> {
    let bytes = given.bytes("in", out);
    match source_of(given.file, given.with, bytes) {
        Ok(source) => Some(source),
        Err(fault) => {
            out.fail(fault);
            None
        }
    }
}

fn requests(given: &Given, out: &mut Answer) {
    let most = most_at(given, out);
    if let Some(mut source) = source_in(given, out) {
        add_session(&mut source, most, out);
    }
}

fn source_of_text(alloc: Global, text: &[u8]) -> Result<MemSource, AllocError> {
    Ok(MemSource::new(alloc, Vec::from_slice(alloc, text)?))
}

// A source of a text whose first piece has so many bytes.
fn cut_source(alloc: Global, text: &[u8], cut: usize) -> Result<MemSource, AllocError> {
    let sizes = Vec::from_slice(alloc, &[cut])?;
    Ok(source_of_text(alloc, text)?.with_sizes(sizes))
}

// A source of a text in single bytes where the read behind so many fails.
fn failing_source(alloc: Global, text: &[u8], cut: usize) -> Result<MemSource, AllocError> {
    let sizes = vec![in alloc; 1usize; text.len()]?;
    let fails = Vec::from_slice(alloc, &[cut as u64])?;
    Ok(
        source_of_text(alloc, text)?
            .with_sizes(sizes)
            .with_fails(fails),
    )
}

// What the session of such a source is.
fn session(alloc: Global, source: Result<MemSource, AllocError>, most: u64) -> Vec<u8> {
    let mut out = Answer::new(alloc);
    if let Some(mut source) = out.kept(source) {
        add_session(&mut source, most, &mut out);
    }
    out.end().unwrap_or(Vec::new(alloc))
}

// Whether the session is the front of the other one, up to the fault.
fn is_up_to_fault(came: &[u8], whole: &[u8]) -> bool {
    match came.strip_suffix(FAULT) {
        Some(front) => whole.starts_with(front),
        None => false,
    }
}

// The session of a text, which is the same wherever it is cut, and up to a read that fails; else all that are other ones.
fn requests_cut(given: &Given, out: &mut Answer) {
    let (alloc, most) = (out.alloc(), most_at(given, out));
    let text = given.bytes("in", out);
    let whole = session(alloc, cut_source(alloc, &text, text.len()), most);
    out.bytes(&whole);
    for cut in 1..text.len() {
        let came = session(alloc, cut_source(alloc, &text, cut), most);
        if came != whole {
            out.bytes(&came);
        }
        let failed = session(alloc, failing_source(alloc, &text, cut), most);
        if !is_up_to_fault(&failed, &whole) {
            out.bytes(&failed);
        }
    }
}

fn add_reply(reply: &Reply, out: &mut Answer) {
    match reply {
        Reply::Response {
            at,
            status,
            body,
            ..
        } => {
            out.number("at ", *at);
            out.number(": ", u64::from(*status));
            out.word(" body=");
            out.bytes(body);
        }
        Reply::Bad { at } => {
            out.number("at ", *at);
            out.word(": bad");
        }
        Reply::Truncated { at } => {
            out.number("at ", *at);
            out.word(": truncated");
        }
        Reply::ReadFault => out.word("a read failed"),
    }
    out.word("\n");
}

// What the first response is.
fn response(given: &Given, out: &mut Answer) {
    let to_head = given.flag("to_head", out);
    let Some(mut source) = source_in(given, out) else {
        return;
    };
    match &Responses::new(out.alloc()).next(out.alloc(), &mut source, to_head) {
        Ok(reply) => add_reply(reply, out),
        Err(_) => out.fail(RowFault::NoMemory),
    }
}

fn add_head(head: &FinalHead, out: &mut Answer) {
    match head {
        FinalHead::Head { at, head } => {
            out.number("at ", *at);
            out.number(": ", u64::from(head.status));
        }
        FinalHead::Bad { at } => {
            out.number("at ", *at);
            out.word(": bad");
        }
        FinalHead::Truncated { at } => {
            out.number("at ", *at);
            out.word(": truncated");
        }
        FinalHead::ReadFault => out.word("a read failed"),
    }
    out.word("\n");
}

// What the head of the first response is, where its body isn't read.
fn response_alone(given: &Given, out: &mut Answer) {
    let Some(mut source) = source_in(given, out) else {
        return;
    };
    match &Responses::new(out.alloc()).head(out.alloc(), &mut source) {
        Ok(head) => add_head(head, out),
        Err(_) => out.fail(RowFault::NoMemory),
    }
}

/// Answers a call, where it is one of these.
pub(crate) fn answer(call: &str, given: &Given, out: &mut Answer) -> bool {
    match call {
        "requests" => requests(given, out),
        "requests_cut" => requests_cut(given, out),
        "response" => response(given, out),
        "response_alone" => response_alone(given, out),
        _ => return false,
    }
    true
}
