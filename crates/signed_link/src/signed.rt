// Links signed, and read where they are.
ghost use Rattle.std.specs.Prelude.{◌≡◌, ◌↔◌, ◌++◌, IsTrue, IfOk, IfSome, codes, option_map};
ghost use Rattle.hex.specs.Hex.{encode_lower};
ghost use Rattle.hmac_core.specs.Hmac.{hmac};
ghost use Rattle.signed_link.specs.Laws.{LinksAreSpelt, OneLink, SpellingsAreRead};
ghost use Rattle.signed_link.specs.Link.{cut_tail, endpoint_path, unsigned, IsInRange, IsLink, IsValue};
ghost use Rattle.signed_link.specs.Parts.{parts_of};

use crate::parts::{LentParts, LinkParts};
use crate::reading::parts_in;
use crate::spelling::{push_signed, push_unsigned};
use hmac_core::{Fault, HmacKey, are_tag_digits};
use json_tree::Text;
use std::alloc::{AllocError, Global};

// The endpoint, as a request's target begins with it.
const ENDPOINT_PATH: &str = "/delta-sharing";

// The bytes of the last parameter: `&t=` and the digits of the tag.
const TAIL: usize = 67;

// The room that most links fit in.
const ROOM: usize = 384;

/// The link with these parts, below the endpoint and under the key. The endpoint is the text that the
/// link begins with, without a slash at its end. The error is want of memory.
pub fn link(
    alloc: Global,
    key: &HmacKey,
    endpoint: &str,
    parts: &LentParts<'_>,
) -> Result<Text, AllocError>
    ensures { IfOk result (λ t. IsLink key.now endpoint.now t parts.now) }
{
    let mut text = String::with_capacity(alloc, ROOM)?;
    text.push_str(endpoint)?;
    push_signed(&mut text, key, parts)?;
    Ok(Text::of(text))
}

// The target cut before its last parameter, and that parameter's digits, where it is the tag.
fn cut_tail(target: &[u8]) -> Option<(&[u8], &[u8])>
    ensures value { option_map (λ x. (x.0.now, x.1.now)) result ≡ cut_tail target.now }
    ensures joined { IfSome result (λ x. target.now ≡ x.0.now ++ (codes "&t=" ++ x.1.now)) }
{
    if target.len() < TAIL {
        return None;
    }
    let (front, tail) = target.split_at(target.len() - TAIL);
    match tail {
        [b'&', b't', b'=', digits @ ..] if are_tag_digits(digits) => Some((front, digits)),
        _ => None,
    }
}

// Whether the front of a target is spelt so of the parts, and the digits are those of its tag.
fn is_signed(
    alloc: Global,
    key: &HmacKey,
    front: &[u8],
    digits: &[u8],
    parts: &LinkParts,
) -> Result<bool, AllocError>
    ensures spelt { IfOk result (λ b. IsTrue b ↔ ((front.now ≡ endpoint_path ++ unsigned parts.now) × (digits.now ≡ encode_lower (hmac key.now (unsigned parts.now))))) }
    ensures value { IfOk result (λ _. IsValue parts.now) }
    ensures in_range { IfOk result (λ _. IsInRange parts.now) }
{
    let mut unsigned = String::new(alloc);
    push_unsigned(&mut unsigned, &parts.lent())?;
    let mut again = String::from_str(alloc, ENDPOINT_PATH)?;
    again.push_str(&unsigned)?;
    let is_spelt = again.as_bytes() == front;
    Ok(is_spelt && key.agrees_with_digits(unsigned.as_bytes(), digits))
}

/// The parts of the link that a request's target is under the key, or `None` where the target is none's:
/// where it is spelt otherwise in any byte, has another tag or a number of 2^63 or above. The
/// error is want of memory.
///
/// A target without a tag's form at its end is none's before anything is decoded or hashed.
pub fn parts_of(alloc: Global, key: &HmacKey, target: &str) -> Result<Option<LinkParts>, AllocError>
    ensures { IfOk result (λ o. o ≡ parts_of key.now target.now) }
{
    let Some((front, digits)) = cut_tail(target.as_bytes()) else {
        return Ok(None);
    };
    let parts = match parts_in(alloc, ENDPOINT_PATH, target) {
        Ok(parts) => parts,
        Err(Fault::NotSpelt) => return Ok(None),
        Err(Fault::NoMemory) => return Err(AllocError),
    };
    if is_signed(alloc, key, front, digits, &parts)? {
        Ok(Some(parts))
    } else {
        Ok(None)
    }
}

/// A law: a target is read as the parts whose link it is, and as those alone; so what is read is in range, its names
/// are names and its path is UTF-8. It does nothing when it is called.
pub fn links_are_spelt()
    // What is read is what the target spells.
    ensures found { LinksAreSpelt }
    // What a target spells is read, all parts that it spells.
    ensures every { SpellingsAreRead }
{}

/// A law: under one endpoint and key no two parts have one link. It does nothing when it is called.
pub fn one_link()
    ensures { OneLink }
{}
