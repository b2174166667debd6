// The paths of a table's files, and the names of the stored objects.
ghost use Rattle.std.specs.Prelude.{◌≡◌, ◌≤◌, IfOk, IsSome, IsTrue, is_some, length, option_map, replicate};
ghost use Rattle.std.specs.List.{list_all};
ghost use Rattle.std.specs.Cow.{cow_str_bytes};
ghost use Rattle.log_actions.specs.Paths as spec;

use edge_core::{Name, is_name_text};
use json_tree::Text;
use memchr::memchr;
use percent_encoding::{DecodeError, percent_decode};
use std::alloc::{AllocError, Global};
use std::borrow::CowStr;

// A location takes at most 256 bytes and a name at most 1,024, so 767 are left after a slash.
const MOST_BYTES: usize = 767;

fn are_scheme_bytes(bytes: &[u8]) -> bool
    ensures { result ≡ list_all spec.is_scheme_byte bytes.now }
{
    bytes
        .iter()
        .all(|b| b.is_ascii_alphanumeric() || b"+-.".contains(b))
}

fn is_scheme(bytes: &[u8]) -> bool
    ensures { result ≡ spec.is_scheme bytes.now }
{
    match bytes {
        [] => false,
        [first, rest @ ..] => first.is_ascii_alphabetic() && are_scheme_bytes(rest),
    }
}

// Whether the text before the first colon is a scheme.
fn has_scheme(bytes: &[u8]) -> bool
    ensures { result ≡ spec.has_scheme bytes.now }
{
    match memchr(b':', bytes) {
        Some(at) => is_scheme(&bytes[..at]),
        None => false,
    }
}

fn begins_with_slash(bytes: &[u8]) -> bool
    ensures { result ≡ spec.begins_with_slash bytes.now }
{
    match bytes {
        [] => false,
        [first, ..] => *first == b'/',
    }
}

fn is_relative(path: &[u8]) -> bool
    ensures { result ≡ spec.is_relative path.now }
{
    !path.is_empty() && !begins_with_slash(path) && !has_scheme(path)
}

fn decode_escapes(alloc: Global, path: &str) -> Result<Option<CowStr<'_>>, AllocError>
    ensures { IfOk result (λ o. option_map (λ s. cow_str_bytes s) o ≡ spec.decoded path.now) }
{
    match percent_decode(path.as_bytes()).decode_utf8(alloc) {
        Ok(text) => Ok(Some(text)),
        Err(DecodeError::OutOfMemory) => Err(AllocError),
        Err(DecodeError::Utf8(_)) => Ok(None),
    }
}

// The path's bytes without escapes, none where they aren't UTF-8. Most paths have no escape.
fn decode(alloc: Global, path: &str) -> Result<Option<CowStr<'_>>, AllocError>
    ensures { IfOk result (λ o. option_map (λ s. cow_str_bytes s) o ≡ spec.decoded path.now) }
{
    match memchr(b'%', path.as_bytes()) {
        Some(_) => decode_escapes(alloc, path),
        None => Ok(Some(CowStr::Borrowed(path))),
    }
}

// The name of the text below the location.
fn name_below(alloc: Global, location: &str, text: &str) -> Result<Option<Name>, AllocError>
    ensures { IfOk result (λ o. o ≡ spec.name_of_text location.now text.now) }
{
    Ok(Name::of(format!(in alloc; "{}/{}", location, text)?))
}

fn name_of_path(alloc: Global, location: &str, path: &Text) -> Result<Option<Name>, AllocError>
    ensures { IfOk result (λ name. name ≡ spec.name_under location.now path.now) }
{
    if !is_relative(path.as_str().as_bytes()) {
        return Ok(None);
    }
    match decode(alloc, path.as_str())? {
        Some(text) => name_below(alloc, location, text.as_str()),
        None => Ok(None),
    }
}

/// The name of the object that the file of a path is stored in, below the table's location: none exactly where the path
/// is empty, begins with `/` or with a scheme, or where its bytes, each escape of `%` and two hexadecimal digits read as
/// the byte that it writes, make no name after the location and a slash (RFC 3986, sections 2.1, 3.1 and 4.2).
/// A good path has a name below each location of at most 256 bytes. The error is want of memory.
pub fn path_name(alloc: Global, location: &Name, path: &Text) -> Result<Option<Name>, AllocError>
    ensures value { IfOk result (λ name. name ≡ spec.name_under location.now path.now) }
    ensures good { IfOk result (λ name. IsTrue (spec.is_good_path path.now) → length location.now ≤ 256 → IsSome name) }
{
    name_of_path(alloc, location.as_str(), path)
}

// Whether a text is a name below a location of 256 bytes.
fn is_short_name(text: &str) -> bool
    ensures { result ≡ is_some (spec.name_of_text (replicate 256 97) text.now) }
{
    is_name_text(text) && text.len() <= MOST_BYTES
}

/// Whether the file of a path has a name below a location of 256 bytes, and so below each shorter one.
/// A path without `%` takes no memory. The error is want of memory.
pub fn is_good_path(alloc: Global, path: &Text) -> Result<bool, AllocError>
    ensures { IfOk result (λ good. good ≡ spec.is_good_path path.now) }
{
    if !is_relative(path.as_str().as_bytes()) {
        return Ok(false);
    }
    match decode(alloc, path.as_str())? {
        Some(text) => Ok(is_short_name(text.as_str())),
        None => Ok(false),
    }
}
