// Bytes of names, and texts cut at a byte.
ghost use Rattle.std.specs.Prelude.{◌≡◌, ◌==◌, map, position, option_map, IfOk};
ghost use Rattle.std.specs.List.{list_all, position_or_len, slice_split};
ghost use Rattle.bucket_text.specs.Tags as spec;

use std::alloc::{AllocError, Global};

// A space, a tab, a line feed or a carriage return.
fn is_white(byte: u8) -> bool
    ensures { result ≡ spec.is_white byte }
{
    matches!(byte, b' ' | b'\t' | b'\n' | b'\r')
}

/// Whether there is nothing but white space.
pub(crate) fn is_blank(text: &[u8]) -> bool
    ensures { result ≡ spec.is_blank text.now }
{
    text.iter().all(|byte| is_white(*byte))
}

fn is_name_byte(byte: u8) -> bool
    ensures { result ≡ spec.is_name_byte byte }
{
    byte.is_ascii_alphanumeric() || matches!(byte, b'-' | b'.' | b'_' | b':')
}

// Where the first such byte stands.
fn place_of(text: &[u8], separator: u8) -> Option<usize>
    ensures { result ≡ position (λ b. b == separator) text.now }
{
    text.iter().position(|byte| *byte == separator)
}

// Where the first byte stands that is of no name.
fn name_end(text: &[u8]) -> Option<usize>
    ensures { result ≡ position spec.ends_name text.now }
{
    text.iter().position(|byte| !is_name_byte(*byte))
}

/// The name at the front of a tag.
pub(crate) fn name_of(tag: &[u8]) -> &[u8]
    ensures { result.now ≡ spec.name_of tag.now }
{
    match name_end(tag) {
        Some(end) => &tag[..end],
        None => tag,
    }
}

/// What stands before the first such byte, and what behind it.
pub(crate) fn cut(text: &[u8], separator: u8) -> Option<(&[u8], &[u8])>
    ensures { option_map (λ p. (p.0.now, p.1.now)) result ≡ spec.cut separator text.now }
{
    let place = place_of(text, separator)?;
    Some((&text[..place], &text[place + 1..]))
}

/// The parts between such bytes.
pub(crate) fn parts_of(alloc: Global, text: &[u8], separator: u8) -> Result<Vec<&[u8]>, AllocError>
    ensures { IfOk result (λ v. map (λ x. x.now) v.items ≡ slice_split (λ b. b == separator) text.now) }
{
    text.split(|byte| *byte == separator).collect(alloc)
}
