// Payloads read. What is read is no more than a guess: the caller spells it again and compares.
ghost use Rattle.std.specs.Prelude.{◌≡◌, ◌^◌, ◌<◌, ◌==◌, Some, position, IfOk, IfSome};
ghost use Rattle.hmac_core.specs.Faults.{Gives};
ghost use Rattle.page_token.specs.Payload.{IsPayload};
ghost use Rattle.page_token.specs.declared.cursor.Cursor.{Cursor};
ghost use Rattle.page_token.specs.Reading.{digits_in, field_in, number_in, moment_of, asked_of, text_of, hint_of, list_in, access_in, files_in, feed_in, feed_of, listing_in, by_first, cursor_in};

use crate::cursor::{Asked, Cursor, FeedCursor, FilesCursor, ListCursor, ListKind, TableAccess};
use crate::payload::payload_of;
use hmac_core::Fault;
use json_tree::{Edition, Place, Text, Version};
use std::alloc::{AllocError, Global};

// The number that the digits write, below the limit. Of no digits it is 0.
fn digits_in(digits: &[u8], limit: u128) -> Result<u128, Fault>
    requires { 0 < limit }
    ensures value { Gives (λ n. n) result (digits_in limit digits.now) }
    ensures below { IfOk result (λ n. n < limit) }
{
    let mut number: u128 = 0;
    for digit in digits {
        if !digit.is_ascii_digit() {
            return Err(Fault::NotSpelt);
        }
        let Some(tens) = number.checked_mul(10) else {
            return Err(Fault::NotSpelt);
        };
        let Some(next) = tens.checked_add(u128::from(*digit - b'0')) else {
            return Err(Fault::NotSpelt);
        };
        if next >= limit {
            return Err(Fault::NotSpelt);
        }
        number = next;
    }
    Ok(number)
}

// Where the first colon is.
fn colon_in(bytes: &[u8]) -> Option<usize>
    ensures { result ≡ position (λ b. b == 58) bytes.now }
{
    bytes.iter().position(|byte| *byte == b':')
}

// The field at the front, and what stands after it and its comma.
#[tactic(auto, unfolding(crate::specs::Reading::field_in))]
fn field_in(bytes: &[u8]) -> Result<(&[u8], &[u8]), Fault>
    ensures { Gives (λ x. (x.0.now, x.1.now)) result (field_in bytes.now) }
{
    let Some(colon) = colon_in(bytes) else {
        return Err(Fault::NotSpelt);
    };
    let (digits, rest) = bytes.split_at(colon);
    let (_, rest) = rest.split_at(1);
    let length = digits_in(digits, 1 << 64)?;
    if length >= rest.len() as u128 {
        return Err(Fault::NotSpelt);
    }
    let (field, rest) = rest.split_at(length as usize);
    let (_, rest) = rest.split_at(1);
    Ok((field, rest))
}

#[tactic(auto, unfolding(crate::specs::Reading::number_in))]
fn number_in(bytes: &[u8]) -> Result<(u64, &[u8]), Fault>
    ensures value { Gives (λ x. (x.0, x.1.now)) result (number_in bytes.now) }
    ensures below { IfOk result (λ x. x.0 < 2 ^ 63) }
{
    let (field, rest) = field_in(bytes)?;
    let number = digits_in(field, 1 << 63)?;
    Ok((number as u64, rest))
}

#[tactic(auto, unfolding(crate::specs::Reading::moment_of))]
fn moment_of(field: &[u8]) -> Result<i128, Fault>
    ensures { Gives (λ z. z) result (moment_of field.now) }
{
    match field {
        [] => Err(Fault::NotSpelt),
        [b'-', digits @ ..] => {
            let number = digits_in(digits, (1 << 127) + 1)?;
            if number == 0 {
                return Err(Fault::NotSpelt);
            }
            Ok(-1 - (number - 1) as i128)
        }
        [_, ..] => Ok(digits_in(field, 1 << 127)? as i128),
    }
}

#[tactic(auto, unfolding(crate::specs::Reading::asked_of))]
fn asked_of(field: &[u8]) -> Result<Asked, Fault>
    ensures { Gives (λ a. a) result (asked_of field.now) }
{
    match field {
        [b'l', ..] => Ok(Asked::Latest),
        [b'v', digits @ ..] => Ok(Asked::Version(Version::of_small(
            digits_in(digits, 1 << 63)? as u64,
        ))),
        [b'm', moment @ ..] => Ok(Asked::Moment(moment_of(moment)?)),
        _ => Err(Fault::NotSpelt),
    }
}

fn text_of(alloc: Global, field: &[u8]) -> Result<Text, Fault>
    ensures { Gives (λ t. t) result (text_of field.now) }
{
    match str::from_utf8(field) {
        Ok(text) => Ok(Text::of(String::from_str(alloc, text)?)),
        Err(_) => Err(Fault::NotSpelt),
    }
}

#[tactic(auto, unfolding(crate::specs::Reading::hint_of))]
fn hint_of(alloc: Global, field: &[u8]) -> Result<Option<Text>, Fault>
    ensures { Gives (λ h. h) result (hint_of field.now) }
{
    match field {
        [b'-', ..] => Ok(None),
        [b'+', text @ ..] => Ok(Some(text_of(alloc, text)?)),
        _ => Err(Fault::NotSpelt),
    }
}

#[tactic(auto, unfolding(crate::specs::Reading::list_in))]
fn list_in(alloc: Global, kind: ListKind, bytes: &[u8]) -> Result<ListCursor, Fault>
    ensures { Gives (λ c. c) result (list_in kind bytes.now) }
{
    let (recipient, rest) = field_in(bytes)?;
    let (share, rest) = field_in(rest)?;
    let (schema, rest) = field_in(rest)?;
    let (after, _) = field_in(rest)?;
    let recipient = text_of(alloc, recipient)?;
    let share = text_of(alloc, share)?;
    let schema = text_of(alloc, schema)?;
    let after = text_of(alloc, after)?;
    Ok(ListCursor {
        kind,
        recipient,
        share,
        schema,
        after,
    })
}

// Who asked for which table, and what stands after it.
#[tactic(auto, unfolding(crate::specs::Reading::access_in))]
fn access_in(alloc: Global, bytes: &[u8]) -> Result<(TableAccess, &[u8]), Fault>
    ensures { Gives (λ x. (x.0, x.1.now)) result (access_in bytes.now) }
{
    let (recipient, rest) = field_in(bytes)?;
    let (share, rest) = field_in(rest)?;
    let (schema, rest) = field_in(rest)?;
    let (table, rest) = field_in(rest)?;
    let (grant, rest) = number_in(rest)?;
    let (binding, rest) = number_in(rest)?;
    let access = TableAccess {
        recipient: text_of(alloc, recipient)?,
        share: text_of(alloc, share)?,
        schema: text_of(alloc, schema)?,
        table: text_of(alloc, table)?,
        grant: Edition::of_small(grant),
        binding: Edition::of_small(binding),
    };
    Ok((access, rest))
}

#[tactic(auto, unfolding(crate::specs::Reading::files_in))]
fn files_in(alloc: Global, bytes: &[u8]) -> Result<FilesCursor, Fault>
    ensures { Gives (λ c. c) result (files_in bytes.now) }
{
    let (access, rest) = access_in(alloc, bytes)?;
    let (asked, rest) = field_in(rest)?;
    let (version, rest) = number_in(rest)?;
    let (hint, rest) = field_in(rest)?;
    let (place, _) = number_in(rest)?;
    let hint = hint_of(alloc, hint)?;
    let asked = asked_of(asked)?;
    Ok(FilesCursor {
        access,
        asked,
        version: Version::of_small(version),
        hint,
        place: Place::of_small(place),
    })
}

// The cursor of those parts.
fn feed_of(
    access: TableAccess,
    asked_from: &[u8],
    asked_to: &[u8],
    from: u64,
    to: u64,
    place: u64,
) -> Result<FeedCursor, Fault>
    requires from { from < 2 ^ 63 }
    requires to { to < 2 ^ 63 }
    requires place { place < 2 ^ 63 }
    ensures { Gives (λ c. c) result (feed_of access asked_from.now asked_to.now from to place) }
{
    let asked_from = asked_of(asked_from)?;
    let asked_to = asked_of(asked_to)?;
    Ok(FeedCursor {
        access,
        asked_from,
        asked_to,
        from: Version::of_small(from),
        to: Version::of_small(to),
        place: Place::of_small(place),
    })
}

#[tactic(auto, unfolding(crate::specs::Reading::feed_in))]
fn feed_in(alloc: Global, bytes: &[u8]) -> Result<FeedCursor, Fault>
    ensures { Gives (λ c. c) result (feed_in bytes.now) }
{
    let (access, rest) = access_in(alloc, bytes)?;
    let (asked_from, rest) = field_in(rest)?;
    let (asked_to, rest) = field_in(rest)?;
    let (from, rest) = number_in(rest)?;
    let (to, rest) = number_in(rest)?;
    let (place, _) = number_in(rest)?;
    feed_of(access, asked_from, asked_to, from, to, place)
}

// A listing of that kind.
fn listing_in(alloc: Global, kind: ListKind, rest: &[u8]) -> Result<Cursor, Fault>
    ensures { Gives (λ c. c) result (listing_in kind rest.now) }
{
    Ok(Cursor::List(list_in(alloc, kind, rest)?))
}

#[tactic(auto, unfolding(crate::specs::Reading::by_first))]
fn by_first(alloc: Global, first: &[u8], rest: &[u8]) -> Result<Cursor, Fault>
    ensures { Gives (λ c. c) result (by_first first.now rest.now) }
{
    match first {
        [b's', ..] => listing_in(alloc, ListKind::Shares, rest),
        [b'c', ..] => listing_in(alloc, ListKind::Schemas, rest),
        [b't', ..] => listing_in(alloc, ListKind::Tables, rest),
        [b'a', ..] => listing_in(alloc, ListKind::AllTables, rest),
        [b'q', ..] => Ok(Cursor::Files(files_in(alloc, rest)?)),
        [b'f', ..] => Ok(Cursor::Feed(feed_in(alloc, rest)?)),
        _ => Err(Fault::NotSpelt),
    }
}

// The cursor whose payload the bytes are, if they are one.
#[tactic(auto, unfolding(crate::specs::Reading::cursor_in))]
pub(crate) fn cursor_in(alloc: Global, payload: &[u8]) -> Result<Cursor, Fault>
    ensures { Gives (λ c. c) result (cursor_in payload.now) }
{
    let (first, rest) = field_in(payload)?;
    by_first(alloc, first, rest)
}

/// The cursor whose payload the bytes are, or None where they are none's.
pub(crate) fn read_payload(alloc: Global, bytes: &[u8]) -> Result<Option<Cursor>, AllocError>
    ensures found { IfOk result (λ o. IfSome o (IsPayload bytes.now)) }
    ensures every { IfOk result (λ o. (c : Cursor) → IsPayload bytes.now c → o ≡ Some c) }
{
    let cursor = match cursor_in(alloc, bytes) {
        Ok(cursor) => cursor,
        Err(Fault::NotSpelt) => return Ok(None),
        Err(Fault::NoMemory) => return Err(AllocError),
    };
    let again = payload_of(alloc, &cursor)?;
    if again.as_bytes() == bytes {
        Ok(Some(cursor))
    } else {
        Ok(None)
    }
}
