// What others ask of the server in a rehearsal, between the pages of the client's reads.
use crate::link::Planned;
use crate::world::{FILES, path_of};
use std::alloc::{AllocError, Global};

// How many pages of the first read follow another: 49 of 50.
const FIRST_TURNS: u64 = 49;

/// How many of both do: 4 of the second's 5 besides.
pub(crate) const TURNS: u64 = 53;

// The version that the client reads, and that the first offer has read too.
const PINNED: u64 = 99;

const GRANT: &str = "{\"grant\":{\"recipient\":\"r2\",\"share\":\"s2\"}}";

const REVOKE: &str = "{\"revoke\":{\"recipient\":\"r2\",\"share\":\"s2\"}}";

fn push_request(
    alloc: Global,
    requests: &mut Vec<u8>,
    route: &str,
    token: &str,
    body: &str,
) -> Result<(), AllocError> {
    let length = body.len();
    let request = format!(in alloc;
        "POST /delta-sharing/{route} HTTP/1.1\r\nHost: x\r\nAuthorization: Bearer {token}\r\nContent-Length: {length}\r\n\r\n{body}"
    )?;
    requests.extend_from_slice(request.as_bytes())
}

// The file that is removed in that turn.
fn gone(number: u32, turn: u64) -> u64 {
    u64::from(number).saturating_add(turn.saturating_mul(7)) % FILES
}

// The offer of that turn: it removes a file of the table and adds a new one.
fn offer(alloc: Global, number: u32, turn: u64) -> Result<String, AllocError> {
    let path = path_of(alloc, gone(number, turn))?;
    let read = PINNED.saturating_add(turn).saturating_sub(1);
    format!(in alloc;
        "{{\"actions\":[{{\"remove\":{{\"path\":\"{path}\"}}}},{{\"add\":{{\"partitionValues\":{{\"day\":\"0\"}},\"path\":\"g{turn:06}.parquet\",\"size\":1}}}}],\"location\":\"big\",\"readVersion\":{read},\"reads\":\"none\"}}"
    )
}

/// The text of that turn's commit.
pub(crate) fn commit_in(alloc: Global, number: u32, turn: u64) -> Result<String, AllocError> {
    let path = path_of(alloc, gone(number, turn))?;
    format!(in alloc;
        "{{\"remove\":{{\"path\":\"{path}\"}}}}\n{{\"add\":{{\"partitionValues\":{{\"day\":\"0\"}},\"path\":\"g{turn:06}.parquet\",\"size\":1}}}}\n"
    )
}

/// That turn's edit.
pub(crate) fn edit_in(turn: u64) -> &'static str {
    if turn % 2 == 1 { GRANT } else { REVOKE }
}

/// The number of the line before which a turn comes, from 1. The first line of each read has none before it.
pub(crate) fn line_after(turn: u64) -> u64 {
    let reads = if turn <= FIRST_TURNS { 1 } else { 2 };
    turn.saturating_add(reads)
}

// What comes in that turn, from 1: a provider's commit, and a grant or its end by the administrator.
fn planned(alloc: Global, number: u32, turn: u64) -> Result<Planned, AllocError> {
    let mut requests = Vec::new(alloc);
    let offer = offer(alloc, number, turn)?;
    push_request(alloc, &mut requests, "provider/commit", "provider", &offer)?;
    push_request(alloc, &mut requests, "admin/edit", "admin", edit_in(turn))?;
    Ok(Planned {
        line: line_after(turn),
        requests,
    })
}

/// What comes between the pages.
pub(crate) fn all_planned(alloc: Global, number: u32) -> Result<Vec<Planned>, AllocError> {
    let mut turns = Vec::new(alloc);
    for turn in 1..TURNS + 1 {
        turns.push(planned(alloc, number, turn)?)?;
    }
    Ok(turns)
}
