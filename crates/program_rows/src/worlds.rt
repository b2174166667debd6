// Worlds: what the requests among commits and edits are answered.
use catalog_log::edit_of;
use hmac_core::HmacKey;
use http_message::field::Fields;
use http_message::head::Head;
use itoa::Buffer;
use json_tree::{Millis, Text};
use log_commit::commit_of;
use row_files::{
    RowFault, RowFile, Told, list_at, member_at, name_of, push_words, text_at, text_or_nothing,
    word_at,
};
use serde_json::Value;
use share_config::{Endpoint, LinkTtl};
use share_core::{Body, Event, Reply, join_pages, run, two_worlds};
use share_lines::Line;
use share_reply::ReplyKeys;
use share_request::request_of;
use std::alloc::{AllocError, Global};
use std::sync::Arc;

const WRONG: RowFault = RowFault::Unknown("the event");

// Keys of 32 bytes 1 and 2, and links that hold for an hour.
fn keys(alloc: Global) -> Result<ReplyKeys, RowFault> {
    let endpoint = String::from_str(alloc, "http://127.0.0.1:8080/delta-sharing")?;
    let (Some(ttl), Some(endpoint)) = (LinkTtl::of(3_600), Endpoint::of(endpoint)) else {
        return Err(RowFault::Unknown("the endpoint"));
    };
    Ok(ReplyKeys {
        token: HmacKey::of(&[1; 32]),
        link: HmacKey::of(&[2; 32]),
        ttl,
        endpoint,
    })
}

// The fields of a request of who has the token `abc`.
fn fields_of(alloc: Global) -> Result<Fields, AllocError> {
    let mut fields = Fields::with_capacity(alloc, 64, 1)?;
    fields.push(b"authorization", b"Bearer abc")?;
    Ok(fields)
}

fn head_of(file: &RowFile, of: &Value, told: &mut Told) -> Result<Head, RowFault> {
    let fields = fields_of(file.alloc())?;
    Ok(Head {
        method: Text::of(told.characters(text_at(file, of, "method"))),
        target: Text::of(told.characters(text_at(file, of, "target"))),
        minor: 1,
        fields,
    })
}

fn push_asked(
    alloc: Global,
    head: &Head,
    body: &[u8],
    now: Millis,
    events: &mut Vec<Event>,
) -> Result<(), RowFault> {
    match request_of(alloc, head, body) {
        Ok(request) => Ok(events.push(Event::Ask(request, now))?),
        Err(_) => Err(RowFault::NoMemory),
    }
}

fn push_edit(alloc: Global, text: &[u8], events: &mut Vec<Event>) -> Result<(), RowFault> {
    match edit_of(alloc, text) {
        Ok(edit) => Ok(events.push(Event::Edit(edit))?),
        Err(_) => Err(WRONG),
    }
}

fn push_commit(
    alloc: Global,
    of: &Value,
    text: &[u8],
    events: &mut Vec<Event>,
) -> Result<(), RowFault> {
    let name = name_of(alloc, word_at(of, "at").unwrap_or(""))?;
    match commit_of(alloc, text) {
        Ok(commit) => Ok(events.push(Event::Commit(name, Arc::new(alloc, commit)?))?),
        Err(_) => Err(WRONG),
    }
}

fn push_request(
    file: &RowFile,
    of: &Value,
    events: &mut Vec<Event>,
    told: &mut Told,
) -> Result<(), RowFault> {
    let Some(now) = Millis::of(0) else {
        return Err(WRONG);
    };
    let body = text_at(file, of, "body")?;
    let head = head_of(file, of, told)?;
    push_asked(file.alloc(), &head, &body, now, events)
}

fn push_event(
    file: &RowFile,
    of: &Value,
    events: &mut Vec<Event>,
    told: &mut Told,
) -> Result<(), RowFault> {
    if member_at(of, "edit").is_some() {
        return push_edit(file.alloc(), &text_at(file, of, "edit")?, events);
    }
    if member_at(of, "commit").is_some() {
        return push_commit(file.alloc(), of, &text_at(file, of, "commit")?, events);
    }
    push_request(file, of, events, told)
}

fn push_events(
    file: &RowFile,
    row: &Value,
    name: &'static str,
    events: &mut Vec<Event>,
    told: &mut Told,
) -> Result<(), RowFault> {
    for of in list_at(row, name)? {
        push_event(file, of, events, told)?;
    }
    Ok(())
}

// Appends a status, and the version that is told.
fn push_head(text: &mut String, status: u16, version: Option<u64>) -> Result<(), AllocError> {
    text.push_str(Buffer::new().format(status))?;
    if let Some(version) = version {
        push_words(text, &[" ", Buffer::new().format(version)])?;
    }
    text.push_str("\n")
}

fn push_heads(text: &mut String, replies: &[Reply]) -> Result<(), AllocError> {
    for reply in replies {
        push_head(text, reply.status, reply.version)?;
    }
    Ok(())
}

// The lines of a body, none where it has others.
fn lines_of(body: &Body) -> Option<&[u8]> {
    match body {
        Body::Lines(_, lines) => Some(lines.get()),
        Body::Empty => Some(b"nothing\n"),
        _ => None,
    }
}

// Appends the lines of replies.
fn push_bodies(text: &mut Vec<u8>, replies: &[Reply]) -> Result<(), RowFault> {
    for reply in replies {
        match lines_of(&reply.body) {
            Some(lines) => text.extend_from_slice(lines)?,
            None => return Err(RowFault::Unknown("a body")),
        }
    }
    Ok(())
}

// The identifier of a line's file.
fn id_of(line: &Line) -> &str {
    match line {
        Line::File(file) => file.id.as_str(),
        _ => "another line",
    }
}

// Appends the files of lines, by their identifiers.
fn push_ids(text: &mut String, lines: &[Line]) -> Result<(), AllocError> {
    for line in lines {
        push_words(text, &[id_of(line), "\n"])?;
    }
    Ok(())
}

// Appends the files of a chain of pages.
fn push_chain(alloc: Global, text: &mut String, replies: &[Reply]) -> Result<(), AllocError> {
    match join_pages(alloc, replies)? {
        Some(lines) => push_ids(text, lines.items()),
        None => text.push_str("no chain\n"),
    }
}

// Compares the files of replies that are a chain of pages.
fn compare_chain(
    file: &RowFile,
    row: &Value,
    name: &'static str,
    replies: &[Reply],
    told: &mut Told,
) {
    let mut text = String::new(file.alloc());
    let done = push_chain(file.alloc(), &mut text, replies);
    told.stored(done);
    told.want(name, text_or_nothing(file, row, name), text.as_bytes());
}

// Compares the statuses and versions of replies.
fn compare_heads(file: &RowFile, row: &Value, replies: &[Reply], told: &mut Told) {
    let mut text = String::new(file.alloc());
    let done = push_heads(&mut text, replies);
    told.stored(done);
    told.want(
        "replies",
        text_or_nothing(file, row, "replies"),
        text.as_bytes(),
    );
}

fn compare_replies(file: &RowFile, row: &Value, replies: &[Reply], told: &mut Told) {
    compare_heads(file, row, replies, told);
    compare_chain(file, row, "all_joined", replies, told);
    let middle = replies.get(1..4).unwrap_or(&[]);
    compare_chain(file, row, "joined", middle, told);
}

/// A row of a world: its `events`; then the statuses and versions of the `replies`, the files of all of them joined, and of the second to
/// the fourth `joined`.
pub(crate) fn world_row(file: &RowFile, row: &Value, told: &mut Told) -> Result<(), RowFault> {
    let keys = keys(file.alloc())?;
    let mut events = Vec::new(file.alloc());
    let made = push_events(file, row, "events", &mut events, told);
    told.end(made);
    compare_replies(file, row, &run(file.alloc(), &keys, &events)?, told);
    Ok(())
}

fn compare_bodies(alloc: Global, replies: &[Reply], others: &[Reply], told: &mut Told) {
    let mut bodies = Vec::new(alloc);
    let mut other = Vec::new(alloc);
    let made = push_bodies(&mut bodies, replies);
    told.end(made);
    let made = push_bodies(&mut other, others);
    told.end(made);
    told.want("bodies of the other world", Ok(bodies), &other);
}

fn compare_worlds(
    file: &RowFile,
    row: &Value,
    replies: &[Reply],
    others: &[Reply],
    told: &mut Told,
) {
    compare_heads(file, row, replies, told);
    compare_heads(file, row, others, told);
    compare_bodies(file.alloc(), replies, others, told);
}

/// A row of two worlds: the `events` of one and the `others`; then the statuses and versions of the `replies` to the recipient `r1`, which
/// are the same in both, as the bodies are.
pub(crate) fn worlds_row(file: &RowFile, row: &Value, told: &mut Told) -> Result<(), RowFault> {
    let keys = keys(file.alloc())?;
    let mut events = Vec::new(file.alloc());
    let mut others = Vec::new(file.alloc());
    let made = push_events(file, row, "events", &mut events, told);
    told.end(made);
    let made = push_events(file, row, "others", &mut others, told);
    told.end(made);
    let replies = two_worlds(file.alloc(), &keys, &events, &others, "r1")?;
    compare_worlds(file, row, &replies.0, &replies.1, told);
    Ok(())
}
