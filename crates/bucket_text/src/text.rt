// Texts as they are spelt in XML, and keys as they are spelt in a listing.
ghost use Rattle.std.specs.Prelude.{◌≡◌, map, IfOk};
ghost use Rattle.bucket_text.specs.Faults.{Gives};
ghost use Rattle.bucket_text.specs.Texts as spec;

use crate::fault::Fault;
use crate::name::{cut, parts_of};
use json_tree::Text;
use percent_encoding::percent_decode;
use std::alloc::{AllocError, Global};
use std::str;
use text_forms::number_in;

// The character that a reference names.
fn character_of(name: &[u8]) -> Option<u8>
    ensures { result ≡ spec.character_of name.now }
{
    match name {
        b"lt" => Some(b'<'),
        b"gt" => Some(b'>'),
        b"amp" => Some(b'&'),
        b"apos" => Some(b'\''),
        b"quot" => Some(b'"'),
        [b'#', digits @ ..] => match number_in(1, 127, digits) {
            Some(code) => Some(code as u8),
            None => None,
        },
        _ => None,
    }
}

// Writes what stands between a `&` and the next one at the end.
fn push_part(out: &mut Vec<u8>, part: &[u8]) -> Result<(), Fault>
    ensures { Gives (λ _. out.new.items) result (spec.with_part out.old.items part.now) }
{
    let Some((name, behind)) = cut(part, b';') else {
        return Err(Fault::Bad);
    };
    let Some(character) = character_of(name) else {
        return Err(Fault::Bad);
    };
    out.extend_from_slice(&[character])?;
    out.extend_from_slice(behind)?;
    Ok(())
}

fn push_parts(out: &mut Vec<u8>, parts: &[&[u8]]) -> Result<(), Fault>
    ensures { Gives (λ _. out.new.items) result (spec.with_parts out.old.items (map (λ x. x.now) parts.now)) }
{
    for part in parts {
        match push_part(out, part) {
            Ok(()) => {}
            Err(fault) => return Err(fault),
        }
    }
    Ok(())
}

/// What a text of XML says.
#[tactic(auto, unfolding(crate::specs::Texts::said_by))]
pub(crate) fn said_by(alloc: Global, text: &[u8]) -> Result<Vec<u8>, Fault>
    ensures { Gives (λ v. v.items) result (spec.said_by text.now) }
{
    let parts = parts_of(alloc, text, b'&')?;
    let Some((front, parts)) = parts.split_first() else {
        return Err(Fault::Bad);
    };
    let mut out = Vec::from_slice(alloc, front)?;
    push_parts(&mut out, parts)?;
    Ok(out)
}

// The bytes as a text, where they are UTF-8.
fn text_of(alloc: Global, bytes: &[u8]) -> Result<Text, Fault>
    ensures { Gives (λ t. t) result (spec.text_of bytes.now) }
{
    match str::from_utf8(bytes) {
        Ok(text) => Ok(Text::of(String::from_str(alloc, text)?)),
        Err(_) => Err(Fault::Bad),
    }
}

fn spaced(byte: u8) -> u8
    ensures { result ≡ spec.spaced byte }
{
    if byte == b'+' { b' ' } else { byte }
}

// The bytes with a space for each plus.
fn with_spaces(alloc: Global, bytes: &[u8]) -> Result<Vec<u8>, AllocError>
    ensures { IfOk result (λ v. v.items ≡ map spec.spaced bytes.now) }
{
    bytes.iter().map(|byte| spaced(*byte)).collect(alloc)
}

/// The text that an element says.
pub(crate) fn plain_text(alloc: Global, text: &[u8]) -> Result<Text, Fault>
    ensures { Gives (λ t. t) result (spec.plain_text text.now) }
{
    text_of(alloc, &said_by(alloc, text)?)
}

/// The key that an element says in escaped form.
pub(crate) fn key_text(alloc: Global, text: &[u8]) -> Result<Text, Fault>
    ensures { Gives (λ t. t) result (spec.key_text text.now) }
{
    let spelt = with_spaces(alloc, &said_by(alloc, text)?)?;
    let mut key = Vec::new(alloc);
    percent_decode(&spelt).append_to(&mut key)?;
    text_of(alloc, &key)
}
