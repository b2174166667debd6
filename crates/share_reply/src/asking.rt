// What of the shared state a request asks.
ghost use Rattle.std.specs.Prelude.{◌≡◌, IfOk};
ghost use Rattle.share_book.specs.declared.look.Want.TheVariants as want_is;
ghost use Rattle.share_request.specs.declared.asked.Request.TheVariants as request_is;
ghost use Rattle.share_reply.specs.Asking as asking;
ghost use Rattle.share_reply.specs.Asking.{ask_by, ask_of, asked_at, asked_by, feed_part, files_part, first_bound, from_bound, last_bound, want_of, want_or_names};

use crate::keys::ReplyKeys;
use json_tree::Text;
use log_replay::Bound;
use page_token::{Cursor, cursor_of};
use query_body::QueryBody;
use share_book::{Ask, Part, Want, Who};
use share_catalog::TableName;
use share_request::{Bound as At, ByToken, Request, RequestFault, What};
use signed_link::{LinkParts, parts_of};
use std::alloc::{AllocError, Global};

// ---- which version

// The state that a query asks for.
fn bound_by(version: Option<u64>, moment: Option<i128>) -> Bound
    ensures { result ≡ last_bound (asked_by version moment) }
{
    match version {
        Some(version) => Bound::Version(version),
        None => match moment {
            Some(moment) => Bound::AtOrBefore(moment),
            None => Bound::Latest,
        },
    }
}

// Where a range ends, and the state that is asked for.
fn last_of(at: &Option<At>) -> Bound
    ensures { result ≡ last_bound (asked_at at.now) }
{
    match at {
        None => Bound::Latest,
        Some(At::Version(version)) => Bound::Version(version.get()),
        Some(At::Moment(moment)) => Bound::AtOrBefore(*moment),
    }
}

// Where a range begins.
fn first_of(at: &Option<At>) -> Bound
    ensures { result ≡ first_bound (asked_at at.now) }
{
    match at {
        None => Bound::Latest,
        Some(At::Version(version)) => Bound::Version(version.get()),
        Some(At::Moment(moment)) => Bound::AtOrAfter(*moment),
    }
}

// The version at or after a moment, or the latest.
fn head_of(moment: Option<i128>) -> Bound
    ensures { result ≡ from_bound moment }
{
    match moment {
        None => Bound::Latest,
        Some(moment) => Bound::AtOrAfter(moment),
    }
}

// ---- which part of a table's log

// The version that a token of files tells.
fn files_of(cursor: &Option<Cursor>) -> Part
    ensures { result ≡ asking.files_by cursor.now }
{
    match cursor {
        Some(Cursor::Files(cursor)) => Part::PinnedFiles(cursor.version),
        _ => Part::Place,
    }
}

// The range that a token of changes tells.
fn feed_of(cursor: &Option<Cursor>) -> Part
    ensures { result ≡ asking.feed_by cursor.now }
{
    match cursor {
        Some(Cursor::Feed(cursor)) => Part::PinnedFeed(cursor.from, cursor.to),
        _ => Part::Place,
    }
}

fn query_part(alloc: Global, keys: &ReplyKeys, query: &QueryBody) -> Result<Part, AllocError>
    ensures { IfOk result (λ p. p ≡ files_part keys.now query.now query.now.token) }
{
    match &query.token {
        None => Ok(Part::Files(bound_by(query.version, query.moment))),
        Some(token) => Ok(files_of(&cursor_of(alloc, &keys.token, token.as_str())?)),
    }
}

fn changes_part(
    alloc: Global,
    keys: &ReplyKeys,
    from: &Option<At>,
    to: &Option<At>,
    token: &Option<Text>,
) -> Result<Part, AllocError>
    ensures { IfOk result (λ p. p ≡ feed_part keys.now from.now to.now token.now) }
{
    match token {
        None => Ok(Part::Feed(first_of(from), last_of(to))),
        Some(token) => Ok(feed_of(&cursor_of(alloc, &keys.token, token.as_str())?)),
    }
}

// ---- what

fn table_want(alloc: Global, table: &TableName, part: Part) -> Result<Want, AllocError>
    ensures { IfOk result (λ w. w ≡ want_is.Table table.now part) }
{
    Ok(Want::Table(table.copy(alloc)?, part))
}

fn want_of(alloc: Global, keys: &ReplyKeys, what: &What) -> Result<Want, AllocError>
    ensures { IfOk result (λ w. w ≡ want_of keys.now what.now) }
{
    match what {
        What::Version { table, from } => table_want(alloc, table, Part::Head(head_of(*from))),
        What::Metadata { table, at } => table_want(alloc, table, Part::Files(last_of(at))),
        What::Query { table, body } => table_want(alloc, table, query_part(alloc, keys, body)?),
        What::Changes {
            table,
            from,
            to,
            token,
            ..
        } => table_want(alloc, table, changes_part(alloc, keys, from, to, token)?),
        What::ListShares { .. }
        | What::GetShare { .. }
        | What::ListSchemas { .. }
        | What::ListTables { .. }
        | What::ListAll { .. }
        | What::Commit { .. }
        | What::Refresh { .. }
        | What::Edit { .. } => Ok(Want::Names),
    }
}

fn want_or_names(
    alloc: Global,
    keys: &ReplyKeys,
    asked: &Result<What, RequestFault>,
) -> Result<Want, AllocError>
    ensures { IfOk result (λ w. w ≡ want_or_names keys.now asked.now) }
{
    match asked {
        Ok(what) => want_of(alloc, keys, what),
        Err(_) => Ok(Want::Names),
    }
}

fn ask_of_token(
    alloc: Global,
    keys: &ReplyKeys,
    request: &ByToken,
) -> Result<Option<Ask>, AllocError>
    ensures { IfOk result (λ a. a ≡ ask_of keys.now (request_is.ByToken request.now)) }
{
    let want = want_or_names(alloc, keys, &request.asked)?;
    Ok(Some(Ask {
        who: Who::Token(request.digest),
        want,
    }))
}

fn ask_of_link(parts: Option<LinkParts>) -> Option<Ask>
    ensures { result ≡ ask_by parts }
{
    let parts = parts?;
    Some(Ask {
        who: Who::Named(Text::of(parts.recipient.into_text())),
        want: Want::Table(parts.table, Part::Place),
    })
}

/// Whose view a request is answered from, and what of it: none where it is answered alike whoever asks. What isn't asked of a
/// table's log isn't looked at, and a token or a link that isn't of these keys asks for nothing of it. The error is want of memory.
pub fn ask_of(alloc: Global, keys: &ReplyKeys, request: &Request) -> Result<Option<Ask>, AllocError>
    ensures { IfOk result (λ a. a ≡ ask_of keys.now request.now) }
{
    match request {
        Request::TurnedAway(_) => Ok(None),
        Request::ByToken(request) => ask_of_token(alloc, keys, request),
        Request::ByLink(by) => { Ok(ask_of_link(parts_of(alloc, &keys.link, by.target.as_str())?)) }
    }
}
