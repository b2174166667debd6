// Cursors spelt as payloads.
ghost use Rattle.std.specs.Prelude.{◌≡◌, ◌<◌, ◌^◌, ◌++◌, [], ◌∷◌, IfOk, OnOk, IfSome, string_bytes};
ghost use Rattle.std.specs.List.{flat_map};
ghost use Rattle.std.specs.Str.{IsUtf8};
ghost use Rattle.std.specs.Fmt.{decimal};
ghost use Rattle.page_token.specs.Payload.{field, kind_field, asked_field, hint_field, list_fields, files_fields, feed_fields, payload, IsAskedInRange, IsFilesInRange, IsFeedInRange, IsInRange, IsAskedValue, IsListValue, IsFilesValue, IsFeedValue, IsValue};

use crate::cursor::{Asked, Cursor, FeedCursor, FilesCursor, ListCursor, ListKind};
use json_tree::{Edition, Place, Text, Version};
use std::alloc::{AllocError, Global};

/// The letter of a kind of listing, which is the first field of its token.
pub fn kind_text(kind: ListKind) -> &'static str
    ensures { result.now ≡ kind_field kind }
{
    match kind {
        ListKind::Shares => "s",
        ListKind::Schemas => "c",
        ListKind::Tables => "t",
        ListKind::AllTables => "a",
    }
}

// What a query asked for, as a field.
fn asked_text(alloc: Global, asked: &Asked) -> Result<String, AllocError>
    ensures text { IfOk result (λ t. string_bytes t ≡ asked_field asked.now) }
    ensures value { IsAskedValue asked.now }
    ensures in_range { IsAskedInRange asked.now }
{
    match *asked {
        Asked::Latest => String::from_str(alloc, "l"),
        Asked::Version(version) => {
            let version = version.get();
            format!(in alloc; "v{version}")
        }
        Asked::Moment(moment) => format!(in alloc; "m{moment}"),
    }
}

// The hint, as a field.
fn hint_text(alloc: Global, hint: &Option<Text>) -> Result<String, AllocError>
    ensures text { IfOk result (λ t. string_bytes t ≡ hint_field hint.now) }
    ensures value { IfSome hint.now IsUtf8 }
{
    match hint {
        None => String::from_str(alloc, "-"),
        Some(text) => format!(in alloc; "+{}", text.as_str()),
    }
}

// Writes a field at the end.
fn push_field(alloc: Global, payload: &mut String, text: &str) -> Result<(), AllocError>
    ensures { OnOk result (string_bytes payload.new ≡ string_bytes payload.old ++ field text.now) }
{
    let length = format!(in alloc; "{}", text.len())?;
    payload.push_str(&length)?;
    payload.push_str(":")?;
    payload.push_str(text)?;
    payload.push_str(",")
}

// Writes a number at the end, as a field.
fn push_number(alloc: Global, payload: &mut String, number: u64) -> Result<(), AllocError>
    ensures { OnOk result (string_bytes payload.new ≡ string_bytes payload.old ++ field (decimal number)) }
{
    let text = format!(in alloc; "{number}")?;
    push_field(alloc, payload, &text)
}

fn push_edition(alloc: Global, payload: &mut String, edition: Edition) -> Result<(), AllocError>
    ensures text { OnOk result (string_bytes payload.new ≡ string_bytes payload.old ++ field (decimal edition)) }
    ensures in_range { edition < 2 ^ 63 }
{
    push_number(alloc, payload, edition.get())
}

fn push_version(alloc: Global, payload: &mut String, version: Version) -> Result<(), AllocError>
    ensures text { OnOk result (string_bytes payload.new ≡ string_bytes payload.old ++ field (decimal version)) }
    ensures in_range { version < 2 ^ 63 }
{
    push_number(alloc, payload, version.get())
}

fn push_place(alloc: Global, payload: &mut String, place: Place) -> Result<(), AllocError>
    ensures text { OnOk result (string_bytes payload.new ≡ string_bytes payload.old ++ field (decimal place)) }
    ensures in_range { place < 2 ^ 63 }
{
    push_number(alloc, payload, place.get())
}

fn push_asked(alloc: Global, payload: &mut String, asked: &Asked) -> Result<(), AllocError>
    ensures text { OnOk result (string_bytes payload.new ≡ string_bytes payload.old ++ field (asked_field asked.now)) }
    ensures value { IsAskedValue asked.now }
    ensures in_range { IsAskedInRange asked.now }
{
    let text = asked_text(alloc, asked)?;
    push_field(alloc, payload, &text)
}

fn push_hint(alloc: Global, payload: &mut String, hint: &Option<Text>) -> Result<(), AllocError>
    ensures text { OnOk result (string_bytes payload.new ≡ string_bytes payload.old ++ field (hint_field hint.now)) }
    ensures value { IfSome hint.now IsUtf8 }
{
    let text = hint_text(alloc, hint)?;
    push_field(alloc, payload, &text)
}

// The five fields that each payload begins with: what it is of, and four texts.
fn front_of(
    alloc: Global,
    first: &str,
    recipient: &Text,
    share: &Text,
    schema: &Text,
    name: &Text,
) -> Result<String, AllocError>
    ensures text { IfOk result (λ p. string_bytes p ≡ flat_map field (first.now ∷ recipient.now ∷ share.now ∷ schema.now ∷ name.now ∷ [])) }
    ensures value { IsUtf8 recipient.now × IsUtf8 share.now × IsUtf8 schema.now × IsUtf8 name.now }
{
    let recipient = recipient.as_str();
    let share = share.as_str();
    let schema = schema.as_str();
    let name = name.as_str();
    let mut payload = String::new(alloc);
    push_field(alloc, &mut payload, first)?;
    push_field(alloc, &mut payload, recipient)?;
    push_field(alloc, &mut payload, share)?;
    push_field(alloc, &mut payload, schema)?;
    push_field(alloc, &mut payload, name)?;
    Ok(payload)
}

fn list_payload(alloc: Global, list: &ListCursor) -> Result<String, AllocError>
    ensures text { IfOk result (λ p. string_bytes p ≡ flat_map field (list_fields list.now)) }
    ensures value { IfOk result (λ _. IsListValue list.now) }
{
    front_of(
        alloc,
        kind_text(list.kind),
        &list.recipient,
        &list.share,
        &list.schema,
        &list.after,
    )
}

fn files_payload(alloc: Global, files: &FilesCursor) -> Result<String, AllocError>
    ensures text { IfOk result (λ p. string_bytes p ≡ flat_map field (files_fields files.now)) }
    ensures value { IfOk result (λ _. IsFilesValue files.now) }
    ensures in_range { IfOk result (λ _. IsFilesInRange files.now) }
{
    let mut payload = front_of(
        alloc,
        "q",
        &files.access.recipient,
        &files.access.share,
        &files.access.schema,
        &files.access.table,
    )?;
    push_edition(alloc, &mut payload, files.access.grant)?;
    push_edition(alloc, &mut payload, files.access.binding)?;
    push_asked(alloc, &mut payload, &files.asked)?;
    push_version(alloc, &mut payload, files.version)?;
    push_hint(alloc, &mut payload, &files.hint)?;
    push_place(alloc, &mut payload, files.place)?;
    Ok(payload)
}

fn feed_payload(alloc: Global, feed: &FeedCursor) -> Result<String, AllocError>
    ensures text { IfOk result (λ p. string_bytes p ≡ flat_map field (feed_fields feed.now)) }
    ensures value { IfOk result (λ _. IsFeedValue feed.now) }
    ensures in_range { IfOk result (λ _. IsFeedInRange feed.now) }
{
    let mut payload = front_of(
        alloc,
        "f",
        &feed.access.recipient,
        &feed.access.share,
        &feed.access.schema,
        &feed.access.table,
    )?;
    push_edition(alloc, &mut payload, feed.access.grant)?;
    push_edition(alloc, &mut payload, feed.access.binding)?;
    push_asked(alloc, &mut payload, &feed.asked_from)?;
    push_asked(alloc, &mut payload, &feed.asked_to)?;
    push_version(alloc, &mut payload, feed.from)?;
    push_version(alloc, &mut payload, feed.to)?;
    push_place(alloc, &mut payload, feed.place)?;
    Ok(payload)
}

/// The payload of the cursor.
pub(crate) fn payload_of(alloc: Global, cursor: &Cursor) -> Result<String, AllocError>
    ensures text { IfOk result (λ p. string_bytes p ≡ payload cursor.now) }
    ensures value { IfOk result (λ _. IsValue cursor.now) }
    ensures in_range { IfOk result (λ _. IsInRange cursor.now) }
{
    match cursor {
        Cursor::List(list) => list_payload(alloc, list),
        Cursor::Files(files) => files_payload(alloc, files),
        Cursor::Feed(feed) => feed_payload(alloc, feed),
    }
}
