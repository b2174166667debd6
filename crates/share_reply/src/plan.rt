// How a request is answered, before its text is made.
ghost use Rattle.std.specs.Prelude.{◌≡◌, ℕ, List, Option, Result, IfOk, option_map};
ghost use Rattle.page_token.specs.declared.cursor.ListKind.TheVariants as kind;
ghost use Rattle.share_book.specs.Shown.{show, show_found};
ghost use Rattle.share_book.specs.Views.{View};
ghost use Rattle.share_request.specs.declared.asked.Request.TheVariants as request_is;
ghost use Rattle.share_request.specs.declared.asked.ResponseFormat.{ResponseFormat as Format};
ghost use Rattle.share_reply.specs.Answer.{NamesPage, Page, of};
ghost use Rattle.share_reply.specs.Answer as answer;
ghost use Rattle.share_reply.specs.Bodies.{reply_of};
ghost use Rattle.share_reply.specs.Formats.{format_of};
ghost use Rattle.share_reply.specs.Chains.{NextIsSpelt};
ghost use Rattle.share_reply.specs.Lists as lists;
ghost use Rattle.share_reply.specs.Listings.{as_names, as_share};
ghost use Rattle.share_reply.specs.Refusing.{plain, Refused as RefusedView};
ghost use Rattle.share_reply.specs.Feeds as feeds_spec;
ghost use Rattle.share_reply.specs.Files as files_spec;
ghost use Rattle.share_reply.specs.Replies as replies;
ghost use Rattle.share_reply.specs.Replies.{answer_from, answered, seen_for};
ghost use Rattle.share_reply.specs.Stops.{Gives, GivesPage};
ghost use Rattle.share_reply.specs.declared.keys.ReplyKeys.{ReplyKeys as Keys};
ghost use Rattle.share_reply.specs.declared.plan.Plan.TheVariants as plan_is;

use crate::access::Access;
use crate::feeds::{self, ChangesAsked};
use crate::files;
use crate::keys::ReplyKeys;
use crate::lines::LinePlan;
use crate::links::linked_object;
use crate::lists::{Listing, names_text, one_share_text};
use crate::page::Paged;
use crate::refused::Refused;
use crate::stop::Stop;
use case_table::{Method, Refusal};
use edge_core::Name;
use file_ranges::span::Span;
use json_tree::{Millis, Text};
use page_token::ListKind;
use query_body::QueryBody;
use share_book::{Found, Names, Seen};
use share_catalog::{CatalogName, TableName};
use share_request::{ByLink, Request, RequestFault, ResponseFormat, TurnedAway, What};
use signed_link::parts_of;
use std::alloc::{AllocError, Global};

/// How a request is answered, with all that its response says.
#[derive(Drop)]
pub enum Plan<'a> {
    /// It is refused.
    Refused(Refused),
    /// The path's route has these methods alone.
    Only(Method),
    /// A JSON text.
    Json(Text),
    /// The version of a table, and no body.
    Version(u64),
    /// The lines of a version of a table, in that format.
    Lines(u64, ResponseFormat, LinePlan<'a>),
    /// The object of that name in the store, or the part of it that is asked for.
    File(Name, Option<Span>),
}

fn refused<'a>(alloc: Global, refusal: Refusal) -> Plan<'a>
    ensures { result ≡ plan_is.Refused (plain refusal) }
{
    Plan::Refused(Refused::plain(alloc, refusal))
}

// ---- the reply of what is given

fn of_names<'a>(given: Result<Text, Stop>) -> Result<Plan<'a>, AllocError>
    ensures { (keys : Keys) (f : Format) (names : Result NamesPage RefusedView) → Gives given (as_names keys names) → IfOk result (λ p. p ≡ reply_of keys f (of answer.names names)) }
{
    match given {
        Ok(text) => Ok(Plan::Json(text)),
        Err(Stop::Refused(refused)) => Ok(Plan::Refused(refused)),
        Err(Stop::NoMemory) => Err(AllocError),
    }
}

fn of_share<'a>(given: Result<Text, Stop>) -> Result<Plan<'a>, AllocError>
    ensures { (keys : Keys) (f : Format) (share : Result (List ℕ) RefusedView) → Gives given (as_share share) → IfOk result (λ p. p ≡ reply_of keys f (of answer.one_share share)) }
{
    match given {
        Ok(text) => Ok(Plan::Json(text)),
        Err(Stop::Refused(refused)) => Ok(Plan::Refused(refused)),
        Err(Stop::NoMemory) => Err(AllocError),
    }
}

fn of_version<'a>(given: Result<u64, Stop>) -> Result<Plan<'a>, AllocError>
    ensures { (keys : Keys) (f : Format) (version : Result ℕ RefusedView) → Gives given version → IfOk result (λ p. p ≡ reply_of keys f (of answer.at_version version)) }
{
    match given {
        Ok(version) => Ok(Plan::Version(version)),
        Err(Stop::Refused(refused)) => Ok(Plan::Refused(refused)),
        Err(Stop::NoMemory) => Err(AllocError),
    }
}

fn of_page<'a>(
    given: Result<Paged<'a>, Stop>,
    format: ResponseFormat,
) -> Result<Plan<'a>, AllocError>
    ensures reply { (keys : Keys) (page : Result Page RefusedView) → GivesPage keys given.entry page → IfOk result (λ p. p ≡ reply_of keys format (of answer.page page)) }
    ensures spelt { (keys : Keys) (page : Result Page RefusedView) → GivesPage keys given.entry page → IfOk result (λ _. NextIsSpelt keys (of answer.page page)) }
{
    match given {
        Ok(page) => {
            let lines = LinePlan::of(page.lines, format);
            Ok(Plan::Lines(page.version, format, lines))
        }
        Err(Stop::Refused(refused)) => Ok(Plan::Refused(refused)),
        Err(Stop::NoMemory) => Err(AllocError),
    }
}

fn of_object<'a>(given: Result<Name, Stop>, span: Option<Span>) -> Result<Plan<'a>, AllocError>
    ensures { (keys : Keys) (f : Format) (name : Result (List ℕ) RefusedView) → Gives given name → IfOk result (λ p. p ≡ reply_of keys f (answer.of_object span name)) }
{
    match given {
        Ok(name) => Ok(Plan::File(name, span)),
        Err(Stop::Refused(refused)) => Ok(Plan::Refused(refused)),
        Err(Stop::NoMemory) => Err(AllocError),
    }
}

// ---- what is asked of names

fn listing_plan<'a>(
    alloc: Global,
    keys: &ReplyKeys,
    recipient: &Text,
    listing: Listing,
    found: &Found,
) -> Result<Plan<'a>, AllocError>
    ensures { (f : Format) → IfOk result (λ p. p ≡ reply_of keys.now f (replies.of_names (λ seen. of answer.names (lists.names_page keys.now recipient.now seen listing.entry)) (show_found found.now))) }
{
    match found {
        Found::Names(names) => of_names(names_text(alloc, keys, recipient, names, &listing)),
        Found::NoTable | Found::Table(..) => Ok(refused(alloc, Refusal::NotFound)),
    }
}

fn share_plan<'a>(alloc: Global, share: &CatalogName, found: &Found) -> Result<Plan<'a>, AllocError>
    ensures { (keys : Keys) (f : Format) → IfOk result (λ p. p ≡ reply_of keys f (replies.of_names (λ seen. of answer.one_share (lists.share_in seen share.now)) (show_found found.now))) }
{
    match found {
        Found::Names(names) => of_share(one_share_text(alloc, names, share)),
        Found::NoTable | Found::Table(..) => Ok(refused(alloc, Refusal::NotFound)),
    }
}

// ---- what is asked of a table

fn version_plan<'a>(
    alloc: Global,
    recipient: &Text,
    table: &TableName,
    found: &Found,
) -> Result<Plan<'a>, AllocError>
    ensures { (keys : Keys) (f : Format) → IfOk result (λ p. p ≡ reply_of keys f (replies.of_table recipient.now table.now (λ spot a part. of answer.at_version (files_spec.version_in part)) (show_found found.now))) }
{
    match found {
        Found::Table(_, part) => of_version(files::version_in(alloc, part)),
        Found::Names(_) | Found::NoTable => Ok(refused(alloc, Refusal::NotFound)),
    }
}

fn metadata_plan<'a>(
    alloc: Global,
    keys: &'a ReplyKeys,
    recipient: &Text,
    format: ResponseFormat,
    table: &'a TableName,
    found: &'a Found,
) -> Result<Plan<'a>, AllocError>
    ensures reply { IfOk result (λ p. p ≡ reply_of keys.now format (replies.of_table recipient.now table.now (λ spot a part. of answer.page (files_spec.metadata_page part)) (show_found found.now))) }
    ensures spelt { IfOk result (λ _. NextIsSpelt keys.now (replies.of_table recipient.now table.now (λ spot a part. of answer.page (files_spec.metadata_page part)) (show_found found.now))) }
{
    match found {
        Found::Table(spot, part) => {
            let access = Access::of(alloc, recipient, table, spot)?;
            of_page(files::metadata_page(alloc, keys, access, part), format)
        }
        Found::Names(_) | Found::NoTable => Ok(refused(alloc, Refusal::NotFound)),
    }
}

fn query_plan<'a>(
    alloc: Global,
    keys: &'a ReplyKeys,
    recipient: &Text,
    now: Millis,
    table: &'a TableName,
    query: &QueryBody,
    format: ResponseFormat,
    found: &'a Found,
) -> Result<Plan<'a>, AllocError>
    ensures reply { IfOk result (λ p. p ≡ reply_of keys.now format (replies.of_table recipient.now table.now (λ spot a part. of answer.page (files_spec.query_page keys.now a now query.now part)) (show_found found.now))) }
    ensures spelt { IfOk result (λ _. NextIsSpelt keys.now (replies.of_table recipient.now table.now (λ spot a part. of answer.page (files_spec.query_page keys.now a now query.now part)) (show_found found.now))) }
{
    match found {
        Found::Table(spot, part) => {
            let access = Access::of(alloc, recipient, table, spot)?;
            let page = files::query_page(alloc, keys, access, now, query, spot, part);
            of_page(page, format)
        }
        Found::Names(_) | Found::NoTable => Ok(refused(alloc, Refusal::NotFound)),
    }
}

fn changes_plan<'a>(
    alloc: Global,
    keys: &'a ReplyKeys,
    recipient: &Text,
    now: Millis,
    table: &'a TableName,
    asked: &ChangesAsked,
    format: ResponseFormat,
    found: &'a Found,
) -> Result<Plan<'a>, AllocError>
    ensures reply { IfOk result (λ p. p ≡ reply_of keys.now format (replies.of_table recipient.now table.now (λ spot a part. of answer.page (feeds_spec.unrestricted_changes keys.now spot.only a now (record { from = asked.now.from; to = asked.now.to; max = asked.now.max; token = asked.now.token.now }) part)) (show_found found.now))) }
    ensures spelt { IfOk result (λ _. NextIsSpelt keys.now (replies.of_table recipient.now table.now (λ spot a part. of answer.page (feeds_spec.unrestricted_changes keys.now spot.only a now (record { from = asked.now.from; to = asked.now.to; max = asked.now.max; token = asked.now.token.now }) part)) (show_found found.now))) }
{
    match found {
        Found::Table(spot, part) => {
            let access = Access::of(alloc, recipient, table, spot)?;
            let page = feeds::changes_page(alloc, keys, access, now, asked, spot, part);
            of_page(page, format)
        }
        Found::Names(_) | Found::NoTable => Ok(refused(alloc, Refusal::NotFound)),
    }
}

// ---- by what is asked

fn what_plan<'a>(
    alloc: Global,
    keys: &'a ReplyKeys,
    recipient: &Text,
    now: Millis,
    format: ResponseFormat,
    what: &'a What,
    found: &'a Found,
) -> Result<Plan<'a>, AllocError>
    ensures reply { IfOk result (λ p. p ≡ reply_of keys.now format (replies.answer_what keys.now recipient.now now what.now (show_found found.now))) }
    ensures spelt { IfOk result (λ _. NextIsSpelt keys.now (replies.answer_what keys.now recipient.now now what.now (show_found found.now))) }
{
    match what {
        What::ListShares { page } => {
            let listing = Listing::of(ListKind::Shares, "", "", page);
            listing_plan(alloc, keys, recipient, listing, found)
        }
        What::GetShare { share } => share_plan(alloc, share, found),
        What::ListSchemas { share, page } => {
            let listing = Listing::of(ListKind::Schemas, share.as_str(), "", page);
            listing_plan(alloc, keys, recipient, listing, found)
        }
        What::ListTables {
            share,
            schema,
            page,
        } => {
            let listing = Listing::of(ListKind::Tables, share.as_str(), schema.as_str(), page);
            listing_plan(alloc, keys, recipient, listing, found)
        }
        What::ListAll { share, page } => {
            let listing = Listing::of(ListKind::AllTables, share.as_str(), "", page);
            listing_plan(alloc, keys, recipient, listing, found)
        }
        What::Version { table, .. } => version_plan(alloc, recipient, table, found),
        What::Metadata { table, .. } => metadata_plan(alloc, keys, recipient, format, table, found),
        What::Query { table, body } => {
            query_plan(alloc, keys, recipient, now, table, body, format, found)
        }
        What::Changes {
            table,
            from,
            to,
            max,
            token,
        } => {
            let asked = ChangesAsked {
                from: *from,
                to: *to,
                max: *max,
                token,
            };
            changes_plan(alloc, keys, recipient, now, table, &asked, format, found)
        }
        What::Commit { .. } | What::Refresh { .. } | What::Edit { .. } => {
            Ok(refused(alloc, Refusal::NotFound))
        }
    }
}

fn asked_plan<'a>(
    alloc: Global,
    keys: &'a ReplyKeys,
    recipient: &Text,
    now: Millis,
    format: ResponseFormat,
    asked: &'a Result<What, RequestFault>,
    found: &'a Found,
) -> Result<Plan<'a>, AllocError>
    ensures reply { IfOk result (λ p. p ≡ reply_of keys.now format (replies.answer_asked keys.now recipient.now now asked.now (show_found found.now))) }
    ensures spelt { IfOk result (λ _. NextIsSpelt keys.now (replies.answer_asked keys.now recipient.now now asked.now (show_found found.now))) }
{
    match asked {
        Ok(what) => what_plan(alloc, keys, recipient, now, format, what, found),
        Err(fault) => Ok(Plan::Refused(Refused::of_fault(alloc, *fault)?)),
    }
}

// ---- by who asks

fn is_expired(expires: Option<Millis>, now: Millis) -> bool
    ensures { result ≡ replies.is_expired expires now }
{
    match expires {
        Some(end) => end.get() <= now.get(),
        None => false,
    }
}

fn token_plan<'a>(
    alloc: Global,
    keys: &'a ReplyKeys,
    now: Millis,
    format: ResponseFormat,
    asked: &'a Result<What, RequestFault>,
    seen: &'a Option<Seen>,
) -> Result<Plan<'a>, AllocError>
    ensures reply { IfOk result (λ p. p ≡ reply_of keys.now format (replies.answer_to keys.now now asked.now (option_map show seen.now))) }
    ensures spelt { IfOk result (λ _. NextIsSpelt keys.now (replies.answer_to keys.now now asked.now (option_map show seen.now))) }
{
    let Some(seen) = seen else {
        return Ok(refused(alloc, Refusal::Unauthenticated));
    };
    if is_expired(seen.expires, now) {
        return Ok(refused(alloc, Refusal::Unauthenticated));
    }
    asked_plan(
        alloc,
        keys,
        &seen.recipient,
        now,
        format,
        asked,
        &seen.found,
    )
}

fn link_plan<'a>(
    alloc: Global,
    keys: &ReplyKeys,
    now: Millis,
    by: &ByLink,
    seen: &Option<Seen>,
) -> Result<Plan<'a>, AllocError>
    ensures { (f : Format) → IfOk result (λ p. p ≡ reply_of keys.now f (answer_from keys.now now (request_is.ByLink by.now) (option_map show seen.now))) }
{
    let parts = parts_of(alloc, &keys.link, by.target.as_str())?;
    of_object(linked_object(alloc, seen, now, &parts), by.span)
}

fn early_plan<'a>(alloc: Global, why: TurnedAway) -> Plan<'a>
    ensures { (keys : Keys) (f : Format) → result ≡ reply_of keys f (replies.answer_early why) }
{
    match why {
        TurnedAway::WrongMethod(allowed) => Plan::Only(allowed),
        TurnedAway::NoRoute => refused(alloc, Refusal::NotFound),
        TurnedAway::NoBearer => refused(alloc, Refusal::Unauthenticated),
    }
}

/// How a request is answered at a moment, in the format that it asks for, by what is shown of what was seen for what it asks: of a table
/// that is shared in part the files that its restriction shows, and no changes. The plan borrows the keys, the request and what was seen,
/// and copies nothing of a table's files. The error is want of memory.
pub fn plan_of<'a>(
    alloc: Global,
    keys: &'a ReplyKeys,
    request: &'a Request,
    now: Millis,
    seen: &'a Option<Seen>,
) -> Result<Plan<'a>, AllocError>
    ensures reply { IfOk result (λ p. p ≡ reply_of keys.now (format_of request.now) (answer_from keys.now now request.now (option_map show seen.now))) }

    // Where it is a page behind which another is left, there is a token of where that begins.
    ensures spelt { IfOk result (λ _. NextIsSpelt keys.now (answer_from keys.now now request.now (option_map show seen.now))) }

    // What is shown of what was seen is what a view shows for the request: then it is the answer by that view.
    ensures view { (view : Option View) → option_map show seen.now ≡ seen_for keys.now request.now view → IfOk result (λ p. p ≡ reply_of keys.now (format_of request.now) (answered keys.now view now request.now)) }
{
    match request {
        Request::TurnedAway(why) => Ok(early_plan(alloc, *why)),
        Request::ByToken(request) => token_plan(
            alloc,
            keys,
            now,
            request.format,
            &request.asked,
            seen,
        ),
        Request::ByLink(by) => link_plan(alloc, keys, now, by, seen),
    }
}
