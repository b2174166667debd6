// Texts of messages of HTTP/1.1, and what they are read as.
use crate::answer::Answer;
use crate::given::Given;
use http_message::chunk::chunk_line;
use http_message::ends::{blank_len, end_after, line_count};
use http_message::field::{Fields, count_named, first_named};
use http_message::framing::{Form, closes, request_form};
use http_message::head::{Head, head_in, is_trailers};
use http_message::refusal::Flaw;
use http_message::response::{ResponseHead, is_interim, response_form, response_in};
use row_files::RowFault;
use serde_json::Value;
use std::alloc::AllocError;

// The most bytes of a body.
const MOST: u64 = 16_777_216;

/// The word of what is wrong with a message.
pub(crate) fn flaw_word(flaw: Flaw) -> &'static str {
    flaw.refusal().word()
}

// How many bytes the empty lines in front have, where the first empty line behind `start` ends, and how many lines there are.
fn ends(given: &Given, out: &mut Answer) {
    let text = given.bytes("text", out);
    let start = given.number("start", out) as usize;
    if start > text.len() {
        out.lacks("start");
        return;
    }
    out.number("", blank_len(&text) as u64);
    out.word(" ");
    out.show(&end_after(&text, start, start));
    out.number(" ", line_count(&text) as u64);
}

fn chunk(given: &Given, out: &mut Answer) {
    match chunk_line(&given.bytes("text", out)) {
        Ok(line) => out.show(&line),
        Err(_) => out.word("no line of a chunk"),
    }
}

// Adds a line for each field.
fn add_fields(fields: &Fields, out: &mut Answer) {
    for index in 0..fields.len() {
        out.bytes(fields.name(index));
        out.word(": ");
        out.bytes(fields.value(index));
        out.word("\n");
    }
}

// How a body is framed, or what is wrong with it.
fn add_form(form: Result<Option<Form>, Flaw>, out: &mut Answer) {
    match form {
        Ok(Some(form)) => out.show(&form),
        Ok(None) => out.word("Open"),
        Err(flaw) => out.word(flaw_word(flaw)),
    }
}

// A request's line and fields, whether it is the last one of its connection, and how its body is framed.
fn add_head(head: &Head, out: &mut Answer) {
    out.words(head.method.as_str(), " ");
    out.word(head.target.as_str());
    out.number(" 1.", u64::from(head.minor));
    out.flag(" closes=", closes(head.minor, &head.fields));
    out.word(" ");
    add_form(request_form(MOST, head).map(Some), out);
    out.word("\n");
    add_fields(&head.fields, out);
}

fn add_head_read(head: &Result<Option<Head>, AllocError>, out: &mut Answer) {
    match head {
        Ok(Some(head)) => add_head(head, out),
        Ok(None) => out.word("no head"),
        Err(_) => out.fail(RowFault::NoMemory),
    }
}

fn request_head(given: &Given, out: &mut Answer) {
    let head = head_in(out.alloc(), &given.bytes("text", out));
    add_head_read(&head, out);
}

// A response's status and fields, whether it is an interim one, and how its body is framed.
fn add_reply(to_head: bool, head: &ResponseHead, out: &mut Answer) {
    out.number("", u64::from(head.status));
    out.flag(" interim=", is_interim(head));
    out.word(" ");
    add_form(response_form(MOST, to_head, head), out);
    out.word("\n");
    add_fields(&head.fields, out);
}

fn add_reply_read(
    to_head: bool,
    head: &Result<Option<ResponseHead>, AllocError>,
    out: &mut Answer,
) {
    match head {
        Ok(Some(head)) => add_reply(to_head, head, out),
        Ok(None) => out.word("no head"),
        Err(_) => out.fail(RowFault::NoMemory),
    }
}

fn response_head(given: &Given, out: &mut Answer) {
    let to_head = given.flag("to_head", out);
    let head = response_in(out.alloc(), &given.bytes("text", out));
    add_reply_read(to_head, &head, out);
}

// The two values of a list.
fn two_of(pair: &Value) -> Option<(&Value, &Value)> {
    match pair.as_array()?.as_slice() {
        [first, second] => Some((first, second)),
        _ => None,
    }
}

/// Adds the field of a name and a value to others.
pub(crate) fn push_pair(given: &Given, pair: &Value, fields: &mut Fields, out: &mut Answer) {
    let Some((name, value)) = two_of(pair) else {
        out.lacks("fields");
        return;
    };
    let name = out.made(given.file.text(name));
    let value = out.made(given.file.text(value));
    let done = fields.push(&name, &value);
    out.stored(done);
}

// The fields that are kept, and those of the name `host`: how many, and the first value.
fn kept_fields(given: &Given, out: &mut Answer) {
    let Some(mut fields) = out.kept(Fields::with_capacity(out.alloc(), 0, 0)) else {
        return;
    };
    for pair in given.list("fields", out) {
        push_pair(given, pair, &mut fields, out);
    }
    add_fields(&fields, out);
    out.number("", fields.len() as u64);
    out.number(", ", count_named(&fields, "host") as u64);
    out.word(" of host: ");
    out.bytes(first_named(&fields, "host"));
}

/// Answers a call, where it is one of these.
pub(crate) fn answer(call: &str, given: &Given, out: &mut Answer) -> bool {
    match call {
        "ends" => ends(given, out),
        "chunk_line" => chunk(given, out),
        "trailers" => {
            let found = is_trailers(&given.bytes("text", out));
            out.flag("", found);
        }
        "request_head" => request_head(given, out),
        "response_head" => response_head(given, out),
        "kept_fields" => kept_fields(given, out),
        _ => return false,
    }
    true
}
