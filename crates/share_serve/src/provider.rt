// What providers and the administrator are answered.
ghost use Rattle.std.specs.Prelude.{◌≡◌, ◌++◌, IfOk, OnOk, Some, string_bytes};
ghost use Rattle.std.specs.Fmt.{decimal};
ghost use Rattle.share_reply.specs.Refusing.{plain as plain_of};
ghost use Rattle.share_serve.specs.Providers as spec;
ghost use Rattle.share_serve.specs.Responses.{refusal_response as refusal_is};

use crate::response::{Response, json_response, refusal_response};
use case_table::Refusal;
use commit_check::Conflict;
use itoa::Buffer;
use json_tree::Text;
use share_catalog::EditRefusal;
use share_hub::{CommitRefusal, EditEnd, RefreshRefusal, Refreshed};
use std::alloc::{AllocError, Global};

// ---- texts

// A number in decimal, between these texts.
fn number_text(alloc: Global, before: &str, number: u64, after: &str) -> Result<String, AllocError>
    ensures { IfOk result (λ t. string_bytes t ≡ before.now ++ (decimal number ++ after.now)) }
{
    let mut text = String::from_str(alloc, before)?;
    text.push_str(Buffer::new().format(number))?;
    text.push_str(after)?;
    Ok(text)
}

fn push_number_or_null(text: &mut String, number: Option<u64>) -> Result<(), AllocError>
    ensures { OnOk result (string_bytes text.new ≡ string_bytes text.old ++ spec.number_or_null number) }
{
    match number {
        Some(number) => text.push_str(Buffer::new().format(number)),
        None => text.push_str("null"),
    }
}

fn refreshed_text(alloc: Global, refreshed: Refreshed) -> Result<String, AllocError>
    ensures { IfOk result (λ t. string_bytes t ≡ spec.refreshed_text refreshed) }
{
    let mut text = String::from_str(alloc, "{\"blocked\":")?;
    push_number_or_null(&mut text, refreshed.block)?;
    text.push_str(",\"found\":")?;
    text.push_str(Buffer::new().format(refreshed.found as u64))?;
    text.push_str(",\"kept\":")?;
    text.push_str(Buffer::new().format(refreshed.kept))?;
    text.push_str("}")?;
    Ok(text)
}

fn conflict_text(alloc: Global, conflict: Conflict) -> Result<String, AllocError>
    ensures { IfOk result (λ t. string_bytes t ≡ spec.conflict_text conflict) }
{
    match conflict {
        Conflict::ReadAhead { head: None } => String::from_str(alloc, "ReadAhead none"),
        Conflict::ReadAhead { head: Some(head) } => number_text(alloc, "ReadAhead ", head, ""),
        Conflict::WriterUnsupported => String::from_str(alloc, "WriterUnsupported"),
        Conflict::BadOffer { n } => number_text(alloc, "BadOffer ", n, ""),
        Conflict::AppendOnly => String::from_str(alloc, "AppendOnly"),
        Conflict::RemoveAbsent { n } => number_text(alloc, "RemoveAbsent ", n, ""),
        Conflict::ProtocolChanged { version } => {
            number_text(alloc, "ProtocolChanged ", version, "")
        }
        Conflict::MetadataChanged { version } => {
            number_text(alloc, "MetadataChanged ", version, "")
        }
        Conflict::ConcurrentTransaction { version } => {
            number_text(alloc, "ConcurrentTransaction ", version, "")
        }
        Conflict::ConcurrentDeleteDelete { version } => {
            number_text(alloc, "ConcurrentDeleteDelete ", version, "")
        }
        Conflict::ConcurrentAddAdd { version } => {
            number_text(alloc, "ConcurrentAddAdd ", version, "")
        }
        Conflict::ConcurrentDeleteRead { version } => {
            number_text(alloc, "ConcurrentDeleteRead ", version, "")
        }
        Conflict::ConcurrentAppend { version } => {
            number_text(alloc, "ConcurrentAppend ", version, "")
        }
    }
}

// ---- refusals

fn plain(alloc: Global, refusal: Refusal) -> Result<Response, AllocError>
    ensures { IfOk result (λ r. r ≡ refusal_is (plain_of refusal)) }
{
    refusal_response(alloc, refusal, "")
}

fn commit_refused(alloc: Global, refusal: CommitRefusal) -> Result<Response, AllocError>
    ensures { IfOk result (λ r. spec.refused_or_none (spec.commit_refused refusal) ≡ Some r) }
{
    match refusal {
        CommitRefusal::NotLoaded => plain(alloc, Refusal::NotFound),
        CommitRefusal::Blocked { .. } => plain(alloc, Refusal::UnsupportedTable),
        CommitRefusal::Contended => plain(alloc, Refusal::Contended),
        CommitRefusal::Conflict(conflict) => {
            let detail = conflict_text(alloc, conflict)?;
            refusal_response(alloc, Refusal::Conflict, &detail)
        }
        CommitRefusal::Limit => refusal_response(alloc, Refusal::Limit, "67108864"),
        CommitRefusal::StoreFault => plain(alloc, Refusal::StoreFault),
        CommitRefusal::NoMemory => Err(AllocError),
    }
}

fn edit_refused_by(alloc: Global, refusal: EditRefusal) -> Result<Response, AllocError>
    ensures { IfOk result (λ r. r ≡ refusal_is (spec.edit_refused_by refusal)) }
{
    match refusal {
        EditRefusal::Missing => refusal_response(alloc, Refusal::Conflict, "Missing"),
        EditRefusal::Taken => refusal_response(alloc, Refusal::Conflict, "Taken"),
        EditRefusal::TokenTaken => refusal_response(alloc, Refusal::Conflict, "TokenTaken"),
        EditRefusal::Full { limit } => {
            refusal_response(alloc, Refusal::Limit, Buffer::new().format(limit as u64))
        }
    }
}

fn edit_refused(alloc: Global, end: EditEnd) -> Result<Response, AllocError>
    ensures { IfOk result (λ r. spec.refused_or_none (spec.edit_refused end) ≡ Some r) }
{
    match end {
        EditEnd::CatalogBlocked { number } => {
            refusal_response(alloc, Refusal::CatalogBlocked, Buffer::new().format(number))
        }
        EditEnd::Contended => plain(alloc, Refusal::Contended),
        EditEnd::Refused(refusal) => edit_refused_by(alloc, refusal),
        EditEnd::StoreFault => plain(alloc, Refusal::StoreFault),
        EditEnd::NoMemory => Err(AllocError),
    }
}

fn refresh_refused(alloc: Global, refusal: RefreshRefusal) -> Result<Response, AllocError>
    ensures { IfOk result (λ r. spec.refused_or_none (spec.refresh_refused refusal) ≡ Some r) }
{
    match refusal {
        RefreshRefusal::NotLoaded => plain(alloc, Refusal::NotFound),
        RefreshRefusal::StoreFault => plain(alloc, Refusal::StoreFault),
        RefreshRefusal::NoMemory => Err(AllocError),
    }
}

// ---- responses

/// The response to a commit. The error is want of memory, of the commit's call or for the response.
pub(crate) fn commit_response(
    alloc: Global,
    answer: Result<u64, CommitRefusal>,
) -> Result<Response, AllocError>
    ensures { IfOk result (λ r. spec.commit_response answer ≡ Some r) }
{
    match answer {
        Ok(version) => {
            let text = number_text(alloc, "{\"version\":", version, "}")?;
            Ok(json_response(Text::of(text)))
        }
        Err(refusal) => commit_refused(alloc, refusal),
    }
}

/// The response to an edit. The error is want of memory, of the edit's call or for the response.
pub(crate) fn edit_response(
    alloc: Global,
    answer: Result<u64, EditEnd>,
) -> Result<Response, AllocError>
    ensures { IfOk result (λ r. spec.edit_response answer ≡ Some r) }
{
    match answer {
        Ok(number) => {
            let text = number_text(alloc, "{\"record\":", number, "}")?;
            Ok(json_response(Text::of(text)))
        }
        Err(end) => edit_refused(alloc, end),
    }
}

/// The response to a refresh. The error is want of memory, of the refresh's call or for the response.
pub(crate) fn refresh_response(
    alloc: Global,
    answer: Result<Refreshed, RefreshRefusal>,
) -> Result<Response, AllocError>
    ensures { IfOk result (λ r. spec.refresh_response answer ≡ Some r) }
{
    match answer {
        Ok(refreshed) => Ok(json_response(Text::of(refreshed_text(alloc, refreshed)?))),
        Err(refusal) => refresh_refused(alloc, refusal),
    }
}
