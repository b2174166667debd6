// Pages of a table's changes.
ghost use Rattle.std.specs.Prelude.{◌≡◌, ◌+◌, ◌≤◌, ◌^◌, true, IfOk, IfSome, length, map, option_copied, option_map, vec_len};
ghost use Rattle.page_token.specs.Token.{token_text};
ghost use Rattle.share_book.specs.Shown.{show_part};
ghost use Rattle.share_reply.specs.Answer.{ends_with};
ghost use Rattle.share_reply.specs.Chains.{IsSpelt};
ghost use Rattle.share_reply.specs.Asking.{asked_at};
ghost use Rattle.share_reply.specs.Feeds as spec;
ghost use Rattle.share_reply.specs.Files as files;
ghost use Rattle.share_reply.specs.Pages.{given};
ghost use Rattle.share_reply.specs.Starts.{behind, end_of, feed_start, feed_start_by, off_at, page_of_changes, query_in};
ghost use Rattle.change_feed.specs.Shown.{feed_from};
ghost use Rattle.log_replay.specs.Reconciliation.{last_meta, last_protocol};
ghost use Rattle.std.specs.Arc.{arc_value};
ghost use Rattle.share_reply.specs.Stops.{GivesItems, GivesPage};

use crate::access::{Access, Signing, expiry};
use crate::files::{ends_with, is_paged, refusal_for};
use crate::keys::ReplyKeys;
use crate::lines::{Content, PageLines};
use crate::numbers::{place_of, version_of};
use crate::page::Paged;
use crate::refused::Refused;
use crate::refusing::refuse;
use crate::stop::Stop;
use case_table::Refusal;
use change_feed::{Change, FeedRefusal, changes};
use json_tree::{Millis, Place, Text, Version};
use log_actions::{Action, Commit, MetaData, Protocol};
use log_replay::{Mark, meta_in};
use page_token::{Asked, Cursor, FeedCursor, cursor_of};
use share_book::{FeedPart, PartFound, Spot};
use share_lines::EndLine;
use share_request::Bound;
use std::alloc::{AllocError, Global};
use std::sync::Arc;

// What is asked of a table's changes: from where, to where, at most how many of them, and with which token.
#[derive(Clone, Copy)]
pub(crate) struct ChangesAsked<'q> {
    pub(crate) from: Option<Bound>,
    pub(crate) to: Option<Bound>,
    pub(crate) max: Option<u64>,
    pub(crate) token: &'q Option<Text>,
}

// Where a page of changes begins.
#[derive(Drop)]
pub(crate) struct FeedBegin {
    asked_from: Asked,
    asked_to: Asked,
    from: Version,
    to: Version,
    place: Place,
}

// ---- where a page begins

fn asked_at(bound: &Option<Bound>) -> Asked
    ensures { result ≡ asked_at bound.now }
{
    match bound {
        None => Asked::Latest,
        Some(Bound::Version(version)) => Asked::Version(*version),
        Some(Bound::Moment(moment)) => Asked::Moment(*moment),
    }
}

// ---- what a request has beside its token

fn is_same(asked: Asked, other: Asked) -> bool
    ensures { result ≡ spec.is_same asked other }
{
    match asked {
        Asked::Latest => matches!(other, Asked::Latest),
        Asked::Version(version) => match other {
            Asked::Version(other) => version.get() == other.get(),
            Asked::Latest | Asked::Moment(_) => false,
        },
        Asked::Moment(moment) => match other {
            Asked::Moment(other) => moment == other,
            Asked::Latest | Asked::Version(_) => false,
        },
    }
}

// An end that isn't given takes the token's.
fn is_end(bound: &Option<Bound>, asked: Asked) -> bool
    ensures { result ≡ spec.is_end bound.now asked }
{
    match bound {
        None => true,
        Some(_) => is_same(asked_at(bound), asked),
    }
}

// Whether it is what the token was made for.
fn agrees(asked: &ChangesAsked<'_>, cursor: &FeedCursor) -> bool
    ensures { result ≡ spec.agrees (query_in asked.now) cursor.now }
{
    is_end(&asked.from, cursor.asked_from) && is_end(&asked.to, cursor.asked_to)
}

// ---- the changes

fn not_on(alloc: Global, version: u64) -> Result<Refused, AllocError>
    ensures { IfOk result (λ r. r ≡ off_at version) }
{
    Refused::changes_off(alloc, version)
}

// The changes of the versions from one on that have these commits and marks.
fn changes_from<'a>(
    alloc: Global,
    commits: &'a [Arc<Commit>],
    marks: &[Mark],
    from: u64,
) -> Result<Vec<Change<'a>>, Stop>
    requires lengths { length commits.now ≡ length marks.now }
    requires versions { from + length commits.now ≤ 2 ^ 63 }
    ensures { GivesItems result (spec.or_off (feed_from from marks.now (map arc_value commits.now))) }
{
    match changes(alloc, commits, marks, from) {
        Ok(changes) => Ok(changes),
        Err(FeedRefusal::NotEnabled { version }) => Err(Stop::Refused(not_on(alloc, version)?)),
        Err(FeedRefusal::NoMemory) => Err(Stop::NoMemory),
    }
}

// The changes that are found. Each commit has a mark, and there are fewer than 2^63 versions, so neither test ever fails.
fn changes_in<'a>(alloc: Global, feed: &'a FeedPart) -> Result<Vec<Change<'a>>, Stop>
    ensures { GivesItems result (spec.changes_in feed.now) }
{
    let commits = feed.commits.items();
    let marks = feed.marks.items();
    if commits.len() != marks.len() {
        return Err(Stop::NoMemory);
    }
    let end = feed.from.checked_add(commits.len() as u64);
    match end {
        Some(end) if end <= 1 << 63 => changes_from(alloc, commits, marks, feed.from),
        _ => Err(Stop::NoMemory),
    }
}

// ---- the page

// The place behind a page of so many changes, where any are left there.
fn place_behind(count: usize, most: Option<u64>, place: u64) -> Option<u64>
    requires { place ≤ count }
    ensures { result ≡ behind count most place }
{
    match most {
        Some(most) if most < count as u64 - place => Some(place + most),
        _ => None,
    }
}

// The first changes from a place on.
fn changes_cut<'a>(
    mut changes: Vec<Change<'a>>,
    most: Option<u64>,
    place: u64,
) -> Result<Vec<Change<'a>>, AllocError>
    requires { place ≤ vec_len changes }
    ensures { IfOk result (λ v. v.items ≡ given spec.lists_all most place changes.entry.items) }
{
    let mut page = changes.split_off(place as usize)?;
    match most {
        Some(most) => page.truncate(most as usize),
        None => {}
    }
    Ok(page)
}

// The token of the next page, where there is one.
fn next_token(
    alloc: Global,
    signing: &Signing<'_>,
    begin: &FeedBegin,
    next: Option<u64>,
) -> Result<Option<Text>, AllocError>
    ensures token { IfOk result (λ t. t ≡ option_map (token_text signing.now.keys.now.token) (option_map (spec.feed_cursor signing.now.access (feed_start begin.now)) next)) }
    ensures spelt { IfOk result (λ _. IfSome (option_map (spec.feed_cursor signing.now.access (feed_start begin.now)) next) (IsSpelt signing.now.keys.now)) }
{
    let Some(place) = next else {
        return Ok(None);
    };
    let place = place_of(place)?;
    let cursor = FeedCursor {
        access: signing.access.for_token(alloc)?,
        asked_from: begin.asked_from,
        asked_to: begin.asked_to,
        from: begin.from,
        to: begin.to,
        place,
    };
    Ok(Some(signing.keys.token_of(alloc, Cursor::Feed(cursor))?))
}

// The end of a page, where pages are asked for.
fn page_end(
    alloc: Global,
    signing: &Signing<'_>,
    asked: &ChangesAsked<'_>,
    begin: &FeedBegin,
    page: &[Change<'_>],
    next: Option<u64>,
) -> Result<Option<EndLine>, AllocError>
    ensures line { IfOk result (λ e. e ≡ end_of signing.now.keys.now (files.is_paged asked.now.max asked.now.token.now)
        (record { expires = ends_with signing.now.expires page.now; next = option_map (spec.feed_cursor signing.now.access (feed_start begin.now)) next })) }
    ensures spelt { files.is_paged asked.now.max asked.now.token.now ≡ true → IfOk result (λ _. IfSome (option_map (spec.feed_cursor signing.now.access (feed_start begin.now)) next) (IsSpelt signing.now.keys.now)) }
{
    if !is_paged(asked.max, asked.token) {
        return Ok(None);
    }
    Ok(Some(EndLine {
        min_expires: ends_with(signing.expires, page.is_empty()),
        token: next_token(alloc, signing, begin, next)?,
    }))
}

// The last protocol of a commit's actions.
fn protocol_in(actions: &[Action]) -> Option<&Protocol>
    ensures { option_map (λ p. p.now) result ≡ last_protocol actions.now }
{
    let mut last = None;
    for action in actions {
        if let Action::Protocol(protocol) = action {
            last = Some(protocol);
        }
    }
    last
}

// The protocol that holds at the last version of a range.
fn held_protocol(feed: &FeedPart) -> Option<&Protocol>
    ensures { option_map (λ p. p.now) result ≡ last_protocol feed.now.protocol }
{
    protocol_in(feed.protocol.get().actions())
}

// And the metaData.
fn held_meta(feed: &FeedPart) -> Option<&MetaData>
    ensures { option_map (λ m. m.now) result ≡ last_meta feed.now.meta }
{
    meta_in(feed.meta.get().actions())
}

// Of the changes of a range that is found.
fn page_of_changes<'a>(
    alloc: Global,
    keys: &'a ReplyKeys,
    access: Access<'a>,
    now: Millis,
    asked: &ChangesAsked<'_>,
    begin: &FeedBegin,
    feed: &'a FeedPart,
    changes: Vec<Change<'a>>,
) -> Result<Paged<'a>, Stop>
    ensures { GivesPage keys.now result (page_of_changes keys.now access.entry now (query_in asked.now) (feed_start begin.now) (last_protocol feed.now.protocol) (last_meta feed.now.meta) changes.entry.items) }
{
    let count = changes.len();
    let place = begin.place.get();
    if (count as u64) < place {
        return Err(refuse(alloc, Refusal::TokenAhead));
    }
    let Some(meta) = held_meta(feed) else {
        return Err(refuse(alloc, Refusal::UnsupportedTable));
    };
    let protocol = held_protocol(feed);
    let expires = expiry(keys, now)?;
    let next = place_behind(count, asked.max, place);
    let page = changes_cut(changes, asked.max, place)?;
    let signing = Signing {
        keys,
        access,
        expires,
    };
    let end = page_end(alloc, &signing, asked, begin, &page, next)?;
    Ok(Paged {
        version: begin.to.get(),
        lines: PageLines::of(signing, protocol, meta, Content::Changes(page), end),
    })
}

// Of the changes of a range that are found.
fn page_of_feed<'a>(
    alloc: Global,
    keys: &'a ReplyKeys,
    access: Access<'a>,
    now: Millis,
    begin: &FeedBegin,
    asked: &ChangesAsked<'_>,
    feed: &'a FeedPart,
) -> Result<Paged<'a>, Stop>
    ensures { GivesPage keys.now result (spec.page_of_feed keys.now access.entry now (query_in asked.now) (feed_start begin.now) feed.now) }
{
    let changes = changes_in(alloc, feed)?;
    page_of_changes(alloc, keys, access, now, asked, begin, feed, changes)
}

// The first page of a range.
fn first_page<'a>(
    alloc: Global,
    keys: &'a ReplyKeys,
    access: Access<'a>,
    now: Millis,
    asked: &ChangesAsked<'_>,
    feed: &'a FeedPart,
) -> Result<Paged<'a>, Stop>
    ensures { GivesPage keys.now result (spec.page_of_feed keys.now access.entry now (query_in asked.now) (spec.first_start (query_in asked.now) feed.now) feed.now) }
{
    let begin = FeedBegin {
        asked_from: asked_at(&asked.from),
        asked_to: asked_at(&asked.to),
        from: version_of(feed.from)?,
        to: version_of(feed.to)?,
        place: place_of(0)?,
    };
    page_of_feed(alloc, keys, access, now, &begin, asked, feed)
}

// ---- of what is found

fn feed_from<'a>(
    alloc: Global,
    keys: &'a ReplyKeys,
    access: Access<'a>,
    now: Millis,
    asked: &ChangesAsked<'_>,
    later: Option<&FeedBegin>,
    found: &'a PartFound,
) -> Result<Paged<'a>, Stop>
    ensures { GivesPage keys.now result (spec.feed_from keys.now access.entry now (query_in asked.now) (feed_start_by (query_in asked.now) (option_copied later.entry)) found.now) }
{
    match found {
        PartFound::Feed(feed) => match later {
            Some(begin) => page_of_feed(alloc, keys, access, now, begin, asked, feed),
            None => first_page(alloc, keys, access, now, asked, feed),
        },
        PartFound::Refused(why) => Err(Stop::Refused(refusal_for(alloc, *why)?)),
        PartFound::Nothing | PartFound::Version(_) | PartFound::Files(_, _) => {
            Err(refuse(alloc, Refusal::NotFound))
        }
    }
}

fn later_feed<'a>(
    alloc: Global,
    keys: &'a ReplyKeys,
    access: Access<'a>,
    now: Millis,
    asked: &ChangesAsked<'_>,
    cursor: &FeedCursor,
    found: &'a PartFound,
) -> Result<Paged<'a>, Stop>
    ensures { GivesPage keys.now result (spec.later_feed keys.now access.entry now (query_in asked.now) cursor.now found.now) }
{
    if !access.is_same_table(&cursor.access) {
        return Err(refuse(alloc, Refusal::TokenInvalid));
    }
    if !access.is_same_edition(&cursor.access) {
        return Err(refuse(alloc, Refusal::TokenStale));
    }
    if !agrees(asked, cursor) {
        return Err(refuse(alloc, Refusal::TokenMismatch));
    }
    let begin = FeedBegin {
        asked_from: cursor.asked_from,
        asked_to: cursor.asked_to,
        from: cursor.from,
        to: cursor.to,
        place: cursor.place,
    };
    feed_from(alloc, keys, access, now, asked, Some(&begin), found)
}

fn feed_by<'a>(
    alloc: Global,
    keys: &'a ReplyKeys,
    access: Access<'a>,
    now: Millis,
    asked: &ChangesAsked<'_>,
    cursor: &Option<Cursor>,
    found: &'a PartFound,
) -> Result<Paged<'a>, Stop>
    ensures { GivesPage keys.now result (spec.feed_by keys.now access.entry now (query_in asked.now) cursor.now found.now) }
{
    match cursor {
        Some(Cursor::Feed(cursor)) => later_feed(alloc, keys, access, now, asked, cursor, found),
        _ => Err(refuse(alloc, Refusal::TokenInvalid)),
    }
}

// The page of changes that is answered of a table that is shared whole, or the refusal.
fn whole_changes<'a>(
    alloc: Global,
    keys: &'a ReplyKeys,
    access: Access<'a>,
    now: Millis,
    asked: &ChangesAsked<'_>,
    found: &'a PartFound,
) -> Result<Paged<'a>, Stop>
    ensures { GivesPage keys.now result (spec.changes_page keys.now access.entry now (query_in asked.now) found.now) }
{
    let Some(token) = asked.token else {
        return feed_from(alloc, keys, access, now, asked, None, found);
    };
    let cursor = cursor_of(alloc, &keys.token, token.as_str())?;
    feed_by(alloc, keys, access, now, asked, &cursor, found)
}

// The page of changes that is answered, or the refusal. Of a table that is shared in part none is, whatever token comes with it.
pub(crate) fn changes_page<'a>(
    alloc: Global,
    keys: &'a ReplyKeys,
    access: Access<'a>,
    now: Millis,
    asked: &ChangesAsked<'_>,
    spot: &Spot,
    found: &'a PartFound,
) -> Result<Paged<'a>, Stop>
    ensures { GivesPage keys.now result (spec.unrestricted_changes keys.now spot.now.only access.entry now (query_in asked.now) (show_part spot.now.only found.now)) }
{
    if spot.is_restricted() {
        return Err(refuse(alloc, Refusal::ChangesRestricted));
    }
    whole_changes(alloc, keys, access, now, asked, found)
}
