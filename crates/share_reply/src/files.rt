// Pages of a table's files.
ghost use Rattle.std.specs.Prelude.{◌≡◌, ℕ, List, Option, [], Some, None, Ok, if◌then◌else◌, true, IfOk, IfSome, is_some, map, option_copied, option_map};
ghost use Rattle.page_token.specs.Token.{token_text};
ghost use Rattle.pred_tree.specs.Grammar.{predicate_in};
ghost use Rattle.pred_tree.specs.Listing.{passes};
ghost use Rattle.share_reply.specs.Answer.{ends_with};
ghost use Rattle.share_reply.specs.Chains.{IsSpelt};
ghost use Rattle.share_book.specs.Shown.{show_part};
ghost use Rattle.share_book.specs.Views.{shown_state};
ghost use Rattle.share_reply.specs.Asking.{asked_by};
ghost use Rattle.share_reply.specs.Cuts.{IsCutOf};
ghost use Rattle.share_reply.specs.Files as spec;
ghost use Rattle.share_reply.specs.Starts.{end_of, files_start, files_start_by};
ghost use Rattle.share_reply.specs.Stops.{Gives, GivesPage};

use crate::access::{Access, Signing, expiry};
use crate::cut::{FilesCut, files_cut};
use crate::keys::ReplyKeys;
use crate::lines::{Content, PageLines};
use crate::numbers::{place_of, version_of};
use crate::page::Paged;
use crate::refused::Refused;
use crate::refusing::refuse;
use crate::shown::shown_cut;
use crate::stop::Stop;
use case_table::Refusal;
use json_tree::{Millis, Place, Text, Version, copy_text_or_none};
use page_token::{Asked, Cursor, FilesCursor, cursor_of};
use pred_tree::{Filter, Shown, pred_of};
use query_body::QueryBody;
use share_book::{PartFound, SharedSnapshot, ShownFiles, Spot, TableRefusal};
use share_lines::EndLine;
use std::alloc::{AllocError, Global};

// Where a page of files begins.
#[derive(Drop)]
pub(crate) struct FilesBegin {
    asked: Asked,
    version: Version,
    hint: Option<Text>,
    place: Place,
}

// ---- what isn't found

pub(crate) fn refusal_for(alloc: Global, why: TableRefusal) -> Result<Refused, AllocError>
    ensures { IfOk result (λ r. r ≡ spec.refused_for why) }
{
    match why {
        TableRefusal::NoHistory => Ok(Refused::plain(alloc, Refusal::HistoryNotShared)),
        TableRefusal::Unsupported => Ok(Refused::plain(alloc, Refusal::UnsupportedTable)),
        TableRefusal::VersionRange => Ok(Refused::plain(alloc, Refusal::VersionRange)),
        TableRefusal::TimestampRange => Ok(Refused::plain(alloc, Refusal::TimestampRange)),
        TableRefusal::Ahead => Ok(Refused::plain(alloc, Refusal::TokenAhead)),
        TableRefusal::NotShared { first } => Refused::before_first(alloc, first),
        TableRefusal::Restricted => Ok(Refused::plain(alloc, Refusal::ChangesRestricted)),
    }
}

// ---- where a page begins

pub(crate) fn asked_by(version: Option<u64>, moment: Option<i128>) -> Result<Asked, AllocError>
    ensures { IfOk result (λ a. a ≡ asked_by version moment) }
{
    match version {
        Some(version) => Ok(Asked::Version(version_of(version)?)),
        None => match moment {
            Some(moment) => Ok(Asked::Moment(moment)),
            None => Ok(Asked::Latest),
        },
    }
}

fn is_predicate(alloc: Global, text: &Text) -> Result<bool, AllocError>
    ensures { IfOk result (λ b. b ≡ is_some (predicate_in text.now)) }
{
    match pred_of(alloc, text.as_str())? {
        Some(_) => Ok(true),
        None => Ok(false),
    }
}

// The text, where it is a predicate.
fn used_hint(alloc: Global, hint: &Option<Text>) -> Result<Option<Text>, AllocError>
    ensures { IfOk result (λ used. used ≡ spec.used_hint hint.now) }
{
    let Some(text) = hint else {
        return Ok(None);
    };
    if is_predicate(alloc, text)? {
        Ok(Some(text.copy(alloc)?))
    } else {
        Ok(None)
    }
}

fn first_begin(alloc: Global, query: &QueryBody, version: u64) -> Result<FilesBegin, AllocError>
    ensures { IfOk result (λ s. files_start s ≡ spec.first_start query.now version) }
{
    Ok(FilesBegin {
        asked: asked_by(query.version, query.moment)?,
        version: version_of(version)?,
        place: place_of(0)?,
        hint: used_hint(alloc, &query.hint)?,
    })
}

fn begin_by(
    alloc: Global,
    query: &QueryBody,
    later: Option<&FilesCursor>,
    version: u64,
) -> Result<FilesBegin, AllocError>
    ensures { IfOk result (λ s. files_start s ≡ files_start_by query.now (option_copied later.entry) version) }
{
    match later {
        None => first_begin(alloc, query, version),
        Some(cursor) => Ok(FilesBegin {
            asked: cursor.asked,
            version: cursor.version,
            hint: copy_text_or_none(alloc, &cursor.hint)?,
            place: cursor.place,
        }),
    }
}

// ---- what a request has beside its token

fn is_version(version: Option<u64>, asked: Asked) -> bool
    ensures { result ≡ spec.is_version version asked }
{
    match version {
        None => true,
        Some(version) => match asked {
            Asked::Version(other) => version == other.get(),
            Asked::Latest | Asked::Moment(_) => false,
        },
    }
}

fn is_moment(moment: Option<i128>, asked: Asked) -> bool
    ensures { result ≡ spec.is_moment moment asked }
{
    match moment {
        None => true,
        Some(moment) => match asked {
            Asked::Moment(other) => moment == other,
            Asked::Latest | Asked::Version(_) => false,
        },
    }
}

fn is_text(text: &Option<Text>, other: &Option<Text>) -> bool
    ensures { result ≡ spec.is_text text.now other.now }
{
    match text {
        None => other.is_none(),
        Some(text) => match other {
            Some(other) => text.as_str() == other.as_str(),
            None => false,
        },
    }
}

fn is_hint(alloc: Global, hint: &Option<Text>, used: &Option<Text>) -> Result<bool, AllocError>
    ensures { IfOk result (λ b. b ≡ spec.is_hint hint.now used.now) }
{
    match hint {
        None => Ok(true),
        Some(_) => Ok(is_text(&used_hint(alloc, hint)?, used)),
    }
}

// Whether it is what the token was made for.
fn agrees(alloc: Global, query: &QueryBody, cursor: &FilesCursor) -> Result<bool, AllocError>
    ensures { IfOk result (λ b. b ≡ spec.agrees query.now cursor.now) }
{
    let hint = is_hint(alloc, &query.hint, &cursor.hint)?;
    Ok(is_version(query.version, cursor.asked) && is_moment(query.moment, cursor.asked) && hint)
}

// ---- the page

pub(crate) fn is_paged(max: Option<u64>, token: &Option<Text>) -> bool
    ensures { result ≡ spec.is_paged max token.now }
{
    max.is_some() || token.is_some()
}

// The token of the next page, where there is one.
fn next_token(
    alloc: Global,
    signing: &Signing<'_>,
    begin: &FilesBegin,
    next: Option<u64>,
) -> Result<Option<Text>, AllocError>
    ensures token { IfOk result (λ t. t ≡ option_map (token_text signing.now.keys.now.token) (option_map (spec.files_cursor signing.now.access (files_start begin.now)) next)) }
    ensures spelt { IfOk result (λ _. IfSome (option_map (spec.files_cursor signing.now.access (files_start begin.now)) next) (IsSpelt signing.now.keys.now)) }
{
    let Some(place) = next else {
        return Ok(None);
    };
    let place = place_of(place)?;
    let hint = copy_text_or_none(alloc, &begin.hint)?;
    let cursor = FilesCursor {
        access: signing.access.for_token(alloc)?,
        asked: begin.asked,
        version: begin.version,
        hint,
        place,
    };
    Ok(Some(signing.keys.token_of(alloc, Cursor::Files(cursor))?))
}

// When the links of a page end, where it has any.
pub(crate) fn ends_with(expires: Millis, is_empty: bool) -> Option<Millis>
    ensures { result ≡ (if is_empty then None else Some expires) }
{
    if is_empty { None } else { Some(expires) }
}

// The end of a page, where pages are asked for.
fn page_end(
    alloc: Global,
    signing: &Signing<'_>,
    query: &QueryBody,
    begin: &FilesBegin,
    cut: &FilesCut<'_>,
) -> Result<Option<EndLine>, AllocError>
    ensures line { IfOk result (λ e. e ≡ end_of signing.now.keys.now (spec.is_paged query.now.max query.now.token)
        (record { expires = ends_with signing.now.expires (map (λ f. f.now) cut.now.files.items); next = option_map (spec.files_cursor signing.now.access (files_start begin.now)) cut.now.next })) }
    ensures spelt { spec.is_paged query.now.max query.now.token ≡ true → IfOk result (λ _. IfSome (option_map (spec.files_cursor signing.now.access (files_start begin.now)) cut.now.next) (IsSpelt signing.now.keys.now)) }
{
    if !is_paged(query.max, &query.token) {
        return Ok(None);
    }
    Ok(Some(EndLine {
        min_expires: ends_with(signing.expires, cut.files.is_empty()),
        token: next_token(alloc, signing, begin, cut.next)?,
    }))
}

// The files of a page, none where its place is behind all that are shown.
fn listed_cut<'a>(
    alloc: Global,
    shown: &ShownFiles<'a>,
    listing: &Filter,
    most: Option<u64>,
    place: u64,
) -> Result<Option<FilesCut<'a>>, AllocError>
    ensures { IfOk result (IsCutOf (passes listing.now) most place shown.now) }
{
    if shown.len() < place {
        return Ok(None);
    }
    Ok(Some(files_cut(alloc, shown, listing, most, place)?))
}

// The files of a page, of those that are shown and that its predicate lists; none where its place is behind all that are shown. It
// walks over those before the place only where the shown ones aren't listed.
fn page_cut<'a>(
    alloc: Global,
    query: &QueryBody,
    begin: &FilesBegin,
    spot: &Spot,
    state: &'a SharedSnapshot,
) -> Result<Option<FilesCut<'a>>, AllocError>
    ensures { IfOk result (IsCutOf (spec.lists begin.now.hint (shown_state spot.now.only state.now)) query.now.max begin.now.place (shown_state spot.now.only state.now).files) }
{
    let snapshot = state.get();
    let meta = snapshot.meta();
    let filter = Filter::of_hint(alloc, &begin.hint, meta)?;
    let place = begin.place.get();
    match state.shown(spot.only()) {
        Some(files) => listed_cut(alloc, &files, &filter, query.max, place),
        None => {
            let shown = Shown::of(alloc, spot.only(), meta)?;
            shown_cut(alloc, snapshot, &shown, &filter, query.max, place)
        }
    }
}

// The page of a state. A token's place may be behind all of its files.
fn page_of_state<'a>(
    alloc: Global,
    keys: &'a ReplyKeys,
    access: Access<'a>,
    now: Millis,
    query: &QueryBody,
    begin: &FilesBegin,
    spot: &Spot,
    state: &'a SharedSnapshot,
) -> Result<Paged<'a>, Stop>
    ensures { GivesPage keys.now result (spec.page_of_state keys.now access.entry now query.now (files_start begin.now) (shown_state spot.now.only state.now)) }
{
    let found = page_cut(alloc, query, begin, spot, state)?;
    let Some(cut) = found else {
        return Err(refuse(alloc, Refusal::TokenAhead));
    };
    let expires = expiry(keys, now)?;
    let snapshot = state.get();
    let (protocol, meta) = (snapshot.protocol(), snapshot.meta());
    let signing = Signing {
        keys,
        access,
        expires,
    };
    let end = page_end(alloc, &signing, query, begin, &cut)?;
    Ok(Paged {
        version: begin.version.get(),
        lines: PageLines::of(
            signing,
            Some(protocol),
            meta,
            Content::Files(cut.files),
            end,
        ),
    })
}

// ---- of what is found

fn files_from<'a>(
    alloc: Global,
    keys: &'a ReplyKeys,
    access: Access<'a>,
    now: Millis,
    query: &QueryBody,
    later: Option<&FilesCursor>,
    spot: &Spot,
    found: &'a PartFound,
) -> Result<Paged<'a>, Stop>
    ensures { GivesPage keys.now result (spec.files_from keys.now access.entry now query.now (files_start_by query.now (option_copied later.entry)) (show_part spot.now.only found.now)) }
{
    match found {
        PartFound::Files(version, state) => {
            let begin = begin_by(alloc, query, later, *version)?;
            page_of_state(alloc, keys, access, now, query, &begin, spot, state)
        }
        PartFound::Refused(why) => Err(Stop::Refused(refusal_for(alloc, *why)?)),
        PartFound::Nothing | PartFound::Version(_) | PartFound::Feed(_) => {
            Err(refuse(alloc, Refusal::NotFound))
        }
    }
}

fn later_files<'a>(
    alloc: Global,
    keys: &'a ReplyKeys,
    access: Access<'a>,
    now: Millis,
    query: &QueryBody,
    cursor: &FilesCursor,
    spot: &Spot,
    found: &'a PartFound,
) -> Result<Paged<'a>, Stop>
    ensures { GivesPage keys.now result (spec.later_files keys.now access.entry now query.now cursor.now (show_part spot.now.only found.now)) }
{
    if !access.is_same_table(&cursor.access) {
        return Err(refuse(alloc, Refusal::TokenInvalid));
    }
    if !access.is_same_edition(&cursor.access) {
        return Err(refuse(alloc, Refusal::TokenStale));
    }
    if !agrees(alloc, query, cursor)? {
        return Err(refuse(alloc, Refusal::TokenMismatch));
    }
    files_from(alloc, keys, access, now, query, Some(cursor), spot, found)
}

fn files_by<'a>(
    alloc: Global,
    keys: &'a ReplyKeys,
    access: Access<'a>,
    now: Millis,
    query: &QueryBody,
    cursor: &Option<Cursor>,
    spot: &Spot,
    found: &'a PartFound,
) -> Result<Paged<'a>, Stop>
    ensures { GivesPage keys.now result (spec.files_by keys.now access.entry now query.now cursor.now (show_part spot.now.only found.now)) }
{
    match cursor {
        Some(Cursor::Files(cursor)) => {
            later_files(alloc, keys, access, now, query, cursor, spot, found)
        }
        _ => Err(refuse(alloc, Refusal::TokenInvalid)),
    }
}

// The page of files that a query is answered, or the refusal.
pub(crate) fn query_page<'a>(
    alloc: Global,
    keys: &'a ReplyKeys,
    access: Access<'a>,
    now: Millis,
    query: &QueryBody,
    spot: &Spot,
    found: &'a PartFound,
) -> Result<Paged<'a>, Stop>
    ensures { GivesPage keys.now result (spec.query_page keys.now access.entry now query.now (show_part spot.now.only found.now)) }
{
    let Some(token) = &query.token else {
        return files_from(alloc, keys, access, now, query, None, spot, found);
    };
    let cursor = cursor_of(alloc, &keys.token, token.as_str())?;
    files_by(alloc, keys, access, now, query, &cursor, spot, found)
}

// The protocol and the metaData of the version that is found, without files: the same whatever is shown of these.
pub(crate) fn metadata_page<'a>(
    alloc: Global,
    keys: &'a ReplyKeys,
    access: Access<'a>,
    found: &'a PartFound,
) -> Result<Paged<'a>, Stop>
    ensures { (only : Option (List ℕ)) → GivesPage keys.now result (spec.metadata_page (show_part only found.now)) }
{
    match found {
        PartFound::Files(version, state) => {
            let signing = Signing {
                keys,
                access,
                expires: Millis::of_small(0),
            };
            let snapshot = state.get();
            let (protocol, meta) = (snapshot.protocol(), snapshot.meta());
            Ok(Paged {
                version: *version,
                lines: PageLines::of(signing, Some(protocol), meta, Content::Nothing, None),
            })
        }
        PartFound::Refused(why) => Err(Stop::Refused(refusal_for(alloc, *why)?)),
        PartFound::Nothing | PartFound::Version(_) | PartFound::Feed(_) => {
            Err(refuse(alloc, Refusal::NotFound))
        }
    }
}

// The version that is found, whatever is shown of its files.
pub(crate) fn version_in(alloc: Global, found: &PartFound) -> Result<u64, Stop>
    ensures { (only : Option (List ℕ)) → Gives result (spec.version_in (show_part only found.now)) }
{
    match found {
        PartFound::Version(version) => Ok(*version),
        PartFound::Refused(why) => Err(Stop::Refused(refusal_for(alloc, *why)?)),
        PartFound::Nothing | PartFound::Files(_, _) | PartFound::Feed(_) => {
            Err(refuse(alloc, Refusal::NotFound))
        }
    }
}
