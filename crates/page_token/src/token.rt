// Tokens: signed payloads as text.
ghost use Rattle.std.specs.Prelude.{◌≡◌, List, ℕ, Some, IfOk, IfSome, option_map};
ghost use Rattle.base64.specs.GeneralPurpose.{IsBytes};
ghost use Rattle.page_token.specs.Cursors.{cursor_of};
ghost use Rattle.page_token.specs.Laws.{CursorsAreSpelt, OneCursor, SpellingsAreRead};
ghost use Rattle.page_token.specs.Token.{parts_of, signed_text, IsSpelling};

use crate::cursor::Cursor;
use crate::payload::payload_of;
use crate::reading::read_payload;
use base64::DecodeAllocError;
use base64::engine::general_purpose::URL_SAFE_NO_PAD;
use hmac_core::{HmacKey, are_tag_digits};
use json_tree::Text;
use std::alloc::{AllocError, Global};

// The bytes behind the payload: a dot and the digits of the tag.
const TAIL: usize = 65;

// The payload, a dot and its tag.
fn signed(alloc: Global, key: &HmacKey, payload: &[u8]) -> Result<Text, AllocError>
    ensures { IfOk result (λ t. t ≡ signed_text key.now payload.now) }
{
    let mut token = URL_SAFE_NO_PAD.encode(alloc, payload)?;
    token.push_str(".")?;
    key.push_digits(&mut token, payload)?;
    Ok(Text::of(token))
}

// The text cut before the dot and behind it, where a dot and 64 digits stand at its end.
fn parts_of(text: &[u8]) -> Option<(&[u8], &[u8])>
    ensures { option_map (λ x. (x.0.now, x.1.now)) result ≡ parts_of text.now }
{
    if text.len() < TAIL {
        return None;
    }
    let (spelling, tail) = text.split_at(text.len() - TAIL);
    match tail {
        [b'.', digits @ ..] if are_tag_digits(digits) => Some((spelling, digits)),
        _ => None,
    }
}

// The payload that the text is signed of, or None where the text is none with its tag. What hasn't the form of a
// token is neither decoded nor hashed.
fn signed_payload(alloc: Global, key: &HmacKey, text: &str) -> Result<Option<Vec<u8>>, AllocError>
    ensures found { IfOk result (λ o. IfSome o (λ p. text.now ≡ signed_text key.now p.items)) }
    ensures every { IfOk result (λ o. (p : List ℕ) → IsBytes p → text.now ≡ signed_text key.now p → option_map (λ v. v.items) o ≡ Some p) }
{
    let Some((spelling, digits)) = parts_of(text.as_bytes()) else {
        return Ok(None);
    };
    let payload = match URL_SAFE_NO_PAD.decode(alloc, spelling) {
        Ok(payload) => payload,
        Err(DecodeAllocError::OutOfMemory) => return Err(AllocError),
        Err(DecodeAllocError::DecodeError(_)) => return Ok(None),
    };
    if key.agrees_with_digits(&payload, digits) {
        Ok(Some(payload))
    } else {
        Ok(None)
    }
}

/// The token of a cursor under a key: what `cursor_of` reads. The error is want of memory.
pub fn spell(alloc: Global, key: &HmacKey, cursor: &Cursor) -> Result<Text, AllocError>
    ensures { IfOk result (λ text. IsSpelling text key.now cursor.now) }
{
    let payload = payload_of(alloc, cursor)?;
    signed(alloc, key, payload.as_bytes())
}

/// The cursor whose token under the key the text is, or `None` where it is none's. The error is want of memory.
///
/// A text without a dot and 64 digits at its end is none's before anything is decoded or hashed. Another one costs
/// time and memory for its length, which the caller bounds: a cursor's texts have no bound, so its token has none.
pub fn cursor_of(alloc: Global, key: &HmacKey, text: &str) -> Result<Option<Cursor>, AllocError>
    ensures { IfOk result (λ o. o ≡ cursor_of key.now text.now) }
{
    match signed_payload(alloc, key, text)? {
        Some(payload) => read_payload(alloc, &payload),
        None => Ok(None),
    }
}

/// A law: a text is read as the cursor whose token it is, and as that one alone; so what is read is in range and its
/// texts are UTF-8. It does nothing when it is called.
pub fn cursors_are_spelt()
    // What is read is what the text spells.
    ensures found { CursorsAreSpelt }
    // What a text spells is read, each cursor that it spells.
    ensures every { SpellingsAreRead }
{}

/// A law: no two cursors have one token under a key. It does nothing when it is called.
pub fn one_cursor()
    ensures { OneCursor }
{}
