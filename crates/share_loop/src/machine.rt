// The events of a rehearsal, and whether the pure machine's replies to them are the server's.
use crate::line::Exchange;
use crate::stop::Stop;
use crate::turns::{TURNS, commit_in, edit_in, line_after};
use crate::world::{COMMITS, EDITS, NOW, commit_text, record_text};
use catalog_log::{RecordFault, edit_of};
use edge_core::{MemSource, Name};
use http_message::field::{Fields, first_named};
use http_wire::{Message, Reply, Responses, Wire};
use json_tree::Millis;
use log_commit::{NoCommit, commit_of};
use share_core::{Body, Event, run};
use share_reply::ReplyKeys;
use share_request::request_of;
use std::alloc::{AllocError, Global};
use std::sync::Arc;

// ---- the events

fn commit_event(alloc: Global, text: &str) -> Result<Event, Stop> {
    let Some(location) = Name::of(String::from_str(alloc, "big")?) else {
        return Err(Stop::Unexpected);
    };
    match commit_of(alloc, text.as_bytes()) {
        Ok(commit) => Ok(Event::Commit(location, Arc::new(alloc, commit)?)),
        Err(NoCommit::NoMemory) => Err(Stop::NoMemory),
        Err(_) => Err(Stop::Unexpected),
    }
}

fn edit_event(alloc: Global, edit: &str) -> Result<Event, Stop> {
    match edit_of(alloc, record_text(alloc, edit)?.as_bytes()) {
        Ok(edit) => Ok(Event::Edit(edit)),
        Err(RecordFault::NoMemory) => Err(Stop::NoMemory),
        Err(_) => Err(Stop::Unexpected),
    }
}

// The request that was written to a line.
fn ask_event(alloc: Global, bytes: &[u8]) -> Result<Event, Stop> {
    let mut source = MemSource::new(alloc, Vec::from_slice(alloc, bytes)?);
    let message = Wire::new(alloc).next(alloc, &mut source)?;
    let (Message::Request { head, body, .. }, Some(now)) = (message, Millis::of(NOW)) else {
        return Err(Stop::Unexpected);
    };
    Ok(Event::Ask(request_of(alloc, &head, &body)?, now))
}

// What the store has when the server is opened.
fn push_start(alloc: Global, events: &mut Vec<Event>, number: u32) -> Result<(), Stop> {
    for edit in &EDITS {
        events.push(edit_event(alloc, edit)?)?;
    }
    for version in 0..COMMITS {
        let text = commit_text(alloc, number, version)?;
        events.push(commit_event(alloc, &text)?)?;
    }
    Ok(())
}

// What others did before the line of that number.
fn push_turns(alloc: Global, events: &mut Vec<Event>, number: u32, line: u64) -> Result<(), Stop> {
    for turn in 1..TURNS + 1 {
        if line_after(turn) == line {
            let text = commit_in(alloc, number, turn)?;
            events.push(commit_event(alloc, &text)?)?;
            events.push(edit_event(alloc, edit_in(turn))?)?;
        }
    }
    Ok(())
}

fn events_of(alloc: Global, number: u32, heard: &[Exchange]) -> Result<Vec<Event>, Stop> {
    let mut events = Vec::new(alloc);
    push_start(alloc, &mut events, number)?;
    let mut line = 0u64;
    for exchange in heard {
        line = line.saturating_add(1);
        push_turns(alloc, &mut events, number, line)?;
        events.push(ask_event(alloc, &exchange.requests)?)?;
    }
    Ok(events)
}

// ---- the replies

/// The version that fields state.
pub(crate) fn version_in(fields: &Fields) -> Option<u64> {
    let digits = first_named(fields, "delta-table-version");
    std::str::from_utf8(digits).ok()?.parse::<u64>().ok()
}

fn is_body(body: &Body, bytes: &[u8]) -> bool {
    match body {
        Body::Empty => bytes.is_empty(),
        Body::Json(text) => text.as_str().as_bytes() == bytes,
        Body::Lines(_, text) => text.get() == bytes,
        Body::File(..) => false,
    }
}

// Whether the server's response tells what the reply does: status, version and body.
fn is_told(
    alloc: Global,
    reply: &share_core::Reply,
    exchange: &Exchange,
) -> Result<bool, AllocError> {
    let mut source = MemSource::new(alloc, Vec::from_slice(alloc, &exchange.answer)?);
    match Responses::new(alloc).next(alloc, &mut source, false)? {
        Reply::Response {
            status,
            fields,
            body,
            ..
        } => Ok(
            reply.status == status
                && reply.version == version_in(&fields)
                && is_body(&reply.body, &body),
        ),
        _ => Ok(false),
    }
}

/// Whether the pure machine's replies to the events of a rehearsal are those that the server wrote on the client's lines.
pub(crate) fn is_equal(
    alloc: Global,
    keys: &ReplyKeys,
    number: u32,
    heard: &[Exchange],
) -> Result<bool, Stop> {
    let events = events_of(alloc, number, heard)?;
    let replies = run(alloc, keys, &events)?;
    for (reply, exchange) in replies.iter().zip(heard) {
        if !is_told(alloc, reply, exchange)? {
            return Ok(false);
        }
    }
    Ok(replies.len() == heard.len())
}
