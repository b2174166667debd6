// The listings of shares, schemas and tables.
ghost use Rattle.std.specs.Prelude.{◌≡◌, ◌&&◌, IfOk, List, ℕ, bytes_eq, filter};
ghost use Rattle.serde_json.specs.Written.{compact_text};
ghost use Rattle.share_reply.specs.Bodies.{names_data};
ghost use Rattle.share_reply.specs.Listings.{as_names, as_share, page_data, token_behind};
ghost use Rattle.share_reply.specs.Lists as lists;
ghost use Rattle.share_reply.specs.Stops.{Gives};
ghost use Rattle.share_reply.specs.Walks as walks;
ghost use Rattle.share_reply.specs.Walks.{texts, IsGathered};
ghost use Rattle.page_token.specs.declared.cursor.Cursor.TheVariants as cursor_is;

use crate::keys::ReplyKeys;
use crate::listing_text::{page_text, share_text};
use crate::refusing::refuse;
use crate::stop::Stop;
use crate::walk::{Gathered, Listed, Range, gather_shares, gather_tables};
use case_table::Refusal;
use json_tree::Text;
use page_token::{Cursor, ListCursor, ListKind, cursor_of, kind_text};
use share_book::Names;
use share_catalog::CatalogName;
use share_request::ListPage;
use std::alloc::{AllocError, Global};
use std::marker::Model;

// A listing: of what, of which share and schema, at most how many names, and behind which token. A share or a schema that
// it doesn't have is the empty text.
#[derive(Drop)]
pub(crate) struct Listing<'a> {
    kind: ListKind,
    share: &'a str,
    schema: &'a str,
    page: &'a ListPage,
}

impl<'a> Model for Listing<'a> {
    ghost use Rattle.share_reply.specs.Lists as lists;

    ghost Value = { lists.Listing };

    ghost view = { λ l. lists.listing l.kind l.share.now l.schema.now l.page.now };
}

impl<'a> Listing<'a> {
    pub(crate) fn of(
        kind: ListKind,
        share: &'a str,
        schema: &'a str,
        page: &'a ListPage,
    ) -> Listing<'a>
        ensures { result ≡ lists.listing kind share.now schema.now page.now }
    {
        Listing {
            kind,
            share,
            schema,
            page,
        }
    }

    fn kind(&self) -> ListKind
        ensures { result ≡ self.now.kind }
    {
        self.kind
    }

    fn share(&self) -> &'a str
        ensures { result.now ≡ self.now.share }
    {
        self.share
    }

    fn schema(&self) -> &'a str
        ensures { result.now ≡ self.now.schema }
    {
        self.schema
    }

    fn most(&self) -> u64
        ensures { result ≡ self.now.most }
    {
        self.page.most
    }

    fn token(&self) -> &'a Option<Text>
        ensures { result.now ≡ self.now.token }
    {
        &self.page.token
    }
}

// ---- whether the share and the schema are there

fn has_share(names: &Names, share: &str) -> bool
    ensures { result ≡ lists.has_share names.now share.now }
{
    names.shares().iter().any(|name| share == name.as_str())
}

fn has_schema(names: &Names, share: &str, schema: &str) -> bool
    ensures { result ≡ lists.has_schema names.now share.now schema.now }
{
    names
        .tables()
        .iter()
        .filter(|table| table.share.as_str() == share)
        .any(|table| table.schema.as_str() == schema)
}

fn is_there(names: &Names, listing: &Listing) -> bool
    ensures { result ≡ lists.is_there names.now listing.now.kind listing.now.share listing.now.schema }
{
    match listing.kind() {
        ListKind::Shares => true,
        ListKind::Schemas | ListKind::AllTables => has_share(names, listing.share()),
        ListKind::Tables => {
            has_share(names, listing.share())
                && has_schema(names, listing.share(), listing.schema())
        }
    }
}

// ---- a page

// The first names of a listing behind the range's. Each kind has an arm of its own, so that its names are known by it.
fn gather_names<'a>(
    alloc: Global,
    range: &Range,
    names: &'a Names,
) -> Result<Gathered<'a>, AllocError>
    ensures { IfOk result (IsGathered range.now.most (filter (lists.is_behind range.now.kind range.now.after.now) (lists.names_in names.now range.now.kind range.now.share.now range.now.schema.now))) }
{
    match range.kind {
        ListKind::Shares => gather_shares(alloc, range, names.shares()),
        ListKind::Schemas => gather_tables(alloc, range, names.tables()),
        ListKind::Tables => gather_tables(alloc, range, names.tables()),
        ListKind::AllTables => gather_tables(alloc, range, names.tables()),
    }
}

fn gather<'a>(
    alloc: Global,
    names: &'a Names,
    listing: &Listing,
    after: &str,
) -> Result<Gathered<'a>, AllocError>
    ensures { IfOk result (IsGathered listing.now.most (lists.names_behind names.now listing.now after.now)) }
{
    let range = Range {
        kind: listing.kind(),
        share: listing.share(),
        schema: listing.schema(),
        after,
        most: listing.most(),
    };
    gather_names(alloc, &range, names)
}

fn text_copy(alloc: Global, text: &str) -> Result<Text, AllocError>
    ensures { IfOk result (λ t. t ≡ text.now) }
{
    Ok(Text::of(String::from_str(alloc, text)?))
}

// The text that a token has of a name.
fn name_text(alloc: Global, name: &Listed) -> Result<Text, AllocError>
    ensures { IfOk result (λ t. t ≡ lists.text_of (walks.texts_of name.now)) }
{
    match name {
        Listed::One(name) => text_copy(alloc, name.as_str()),
        Listed::Pair(schema, table) => {
            let mut text = String::from_str(alloc, schema.as_str())?;
            text.push_str("/")?;
            text.push_str(table.as_str())?;
            Ok(Text::of(text))
        }
    }
}

// The last name given, or where none is given the one before.
fn last_given(alloc: Global, names: &[Listed], after: &str) -> Result<Text, AllocError>
    ensures { IfOk result (λ t. t ≡ lists.last_given (texts names.now) after.now) }
{
    match names.split_last() {
        Some((last, _)) => name_text(alloc, last),
        None => text_copy(alloc, after),
    }
}

fn cursor_behind(
    alloc: Global,
    recipient: &Text,
    listing: &Listing,
    after: Text,
) -> Result<Cursor, AllocError>
    ensures { IfOk result (λ c. c ≡ cursor_is.List (lists.list_cursor recipient.now listing.now after)) }
{
    Ok(Cursor::List(ListCursor {
        kind: listing.kind(),
        recipient: recipient.copy(alloc)?,
        share: text_copy(alloc, listing.share())?,
        schema: text_copy(alloc, listing.schema())?,
        after,
    }))
}

// The token of the names behind a page, where one is left.
fn next_token(
    alloc: Global,
    keys: &ReplyKeys,
    recipient: &Text,
    listing: &Listing,
    after: &str,
    page: &Gathered,
) -> Result<Option<Text>, AllocError>
    ensures { IfOk result (λ o. o ≡ token_behind keys.now recipient.now listing.now after.now page.now) }
{
    if !page.is_left {
        return Ok(None);
    }
    let last = last_given(alloc, &page.names, after)?;
    let cursor = cursor_behind(alloc, recipient, listing, last)?;
    Ok(Some(keys.token_of(alloc, cursor)?))
}

// The page behind a name.
fn page_behind(
    alloc: Global,
    keys: &ReplyKeys,
    recipient: &Text,
    names: &Names,
    listing: &Listing,
    after: &str,
) -> Result<Text, AllocError>
    ensures { IfOk result (λ t. t ≡ compact_text (names_data keys.now (lists.names_from recipient.now names.now listing.now after.now))) }
{
    let page = gather(alloc, names, listing, after)?;
    let token = next_token(alloc, keys, recipient, listing, after, &page)?;
    page_text(
        alloc,
        listing.kind(),
        listing.share(),
        listing.schema(),
        &page.names,
        &token,
    )
}

// ---- of a token

fn is_same_listing(recipient: &Text, listing: &Listing, cursor: &ListCursor) -> bool
    ensures { result ≡ lists.is_same_listing recipient.now listing.now cursor.now }
{
    kind_text(cursor.kind) == kind_text(listing.kind())
        && cursor.recipient.as_str() == recipient.as_str()
        && cursor.share.as_str() == listing.share()
        && cursor.schema.as_str() == listing.schema()
}

fn page_at(
    alloc: Global,
    keys: &ReplyKeys,
    recipient: &Text,
    names: &Names,
    listing: &Listing,
    cursor: &Option<Cursor>,
) -> Result<Text, Stop>
    ensures { Gives result (as_names keys.now (lists.names_by recipient.now names.now listing.now cursor.now)) }
{
    match cursor {
        Some(Cursor::List(cursor)) => {
            if !is_same_listing(recipient, listing, cursor) {
                return Err(refuse(alloc, Refusal::TokenInvalid));
            }
            let after = cursor.after.as_str();
            Ok(page_behind(alloc, keys, recipient, names, listing, after)?)
        }
        _ => Err(refuse(alloc, Refusal::TokenInvalid)),
    }
}

// The text of the page of names that a listing is answered.
pub(crate) fn names_text(
    alloc: Global,
    keys: &ReplyKeys,
    recipient: &Text,
    names: &Names,
    listing: &Listing,
) -> Result<Text, Stop>
    ensures { Gives result (as_names keys.now (lists.names_page keys.now recipient.now names.now listing.now)) }
{
    if !is_there(names, listing) {
        return Err(refuse(alloc, Refusal::NotFound));
    }
    match listing.token() {
        None => Ok(page_behind(alloc, keys, recipient, names, listing, "")?),
        Some(token) => {
            let cursor = cursor_of(alloc, &keys.token, token.as_str())?;
            page_at(alloc, keys, recipient, names, listing, &cursor)
        }
    }
}

// The text of a share.
pub(crate) fn one_share_text(
    alloc: Global,
    names: &Names,
    share: &CatalogName,
) -> Result<Text, Stop>
    ensures { Gives result (as_share (lists.share_in names.now share.now)) }
{
    if has_share(names, share.as_str()) {
        Ok(share_text(alloc, share.as_str())?)
    } else {
        Err(refuse(alloc, Refusal::NotFound))
    }
}
