// Parts of objects: what is asked for, what is sent, and how it is written.
use crate::answer::Answer;
use crate::given::Given;
use file_ranges::content_range::{range_read, range_text};
use file_ranges::part::ByteRange;
use file_ranges::pick::{Picked, pick};
use file_ranges::span::{Span, span_of};
use http_message::head::{Head, head_in};
use row_files::RowFault;
use serde_json::Value;
use std::alloc::AllocError;

fn add_span(head: &Result<Option<Head>, AllocError>, out: &mut Answer) {
    match head {
        Ok(Some(head)) => out.show(&span_of(head)),
        Ok(None) => out.word("no head"),
        Err(_) => out.fail(RowFault::NoMemory),
    }
}

// The span that the head of a request asks for.
fn span(given: &Given, out: &mut Answer) {
    let head = head_in(out.alloc(), &given.bytes("text", out));
    add_span(&head, out);
}

// A span: two places, or `{"from":PLACE}`, or `{"last":COUNT}`.
fn span_in(value: &Value) -> Option<Span> {
    if let Some(place) = value.get("from") {
        return Some(Span::From(place.as_u64()?));
    }
    if let Some(count) = value.get("last") {
        return Some(Span::Last(count.as_u64()?));
    }
    match value.as_array()?.as_slice() {
        [first, last] => Some(Span::FromTo(first.as_u64()?, last.as_u64()?)),
        _ => None,
    }
}

// `w` for the whole object, `x` for nothing of it, else the first and the last place.
fn add_pick(picked: Picked, out: &mut Answer) {
    match picked {
        Picked::Whole => out.word("w"),
        Picked::Out => out.word("x"),
        Picked::Part(range) => {
            out.number("", range.first());
            out.number("-", range.last());
        }
    }
}

// What is sent of an object for each span, and without one.
fn picks(given: &Given, out: &mut Answer) {
    let size = given.number("size", out);
    let mut before = "";
    for value in given.list("spans", out) {
        let span = span_in(value);
        if span.is_none() && !value.is_null() {
            out.lacks("spans");
        }
        out.word(before);
        add_pick(pick(span, size), out);
        before = " ";
    }
}

// How a part is written, how many bytes it has, and whether it is read back.
fn add_part(range: ByteRange, out: &mut Answer) {
    match range_text(out.alloc(), range) {
        Ok(text) => {
            out.word(text.as_str());
            out.number(", ", range.len());
            out.flag(
                " bytes, read=",
                range_read(text.as_str().as_bytes()) == Some(range),
            );
        }
        Err(_) => out.fail(RowFault::NoMemory),
    }
}

fn part(given: &Given, out: &mut Answer) {
    let (first, last) = (given.number("first", out), given.number("last", out));
    match ByteRange::of(first, last, given.number("size", out)) {
        Some(range) => add_part(range, out),
        None => out.word("no part"),
    }
}

/// Answers a call, where it is one of these.
pub(crate) fn answer(call: &str, given: &Given, out: &mut Answer) -> bool {
    match call {
        "span" => span(given, out),
        "picks" => picks(given, out),
        "part" => part(given, out),
        "part_read" => {
            let range = range_read(&given.bytes("text", out));
            out.show(&range);
        }
        _ => return false,
    }
    true
}
