// What part a request asks for.
ghost use Rattle.std.specs.Prelude.{◌≡◌};
ghost use Rattle.file_ranges.specs.Spans as spec;

use crate::text::cut_at;
use http_message::field::{count_named, first_named};
use http_message::framing::length_in;
use http_message::head::Head;

/// A span of bytes, counted from 0, of an object whose size isn't known (RFC 9110, section 14.1.2).
#[derive(Clone, Copy, Debug, PartialEq, Eq, Drop)]
pub enum Span {
    /// From the byte at the first place to that at the second, both of them included.
    FromTo(u64, u64),
    /// From the byte at that place to the last.
    From(u64),
    /// So many bytes at the end.
    Last(u64),
}

fn from_to(first: u64, last: u64) -> Option<Span>
    ensures { result ≡ spec.from_to first last }
{
    if first <= last {
        Some(Span::FromTo(first, last))
    } else {
        None
    }
}

// The span that stands around a `-`.
fn span_between(before: &[u8], behind: &[u8]) -> Option<Span>
    ensures { result ≡ spec.span_between before.now behind.now }
{
    if before.is_empty() {
        return Some(Span::Last(length_in(behind)?));
    }
    if behind.is_empty() {
        return Some(Span::From(length_in(before)?));
    }
    from_to(length_in(before)?, length_in(behind)?)
}

fn span_at(text: &[u8]) -> Option<Span>
    ensures { result ≡ spec.span_at text.now }
{
    let (before, behind) = cut_at(text, b'-')?;
    span_between(before, behind)
}

// The span of a Range field's value.
fn span_in(value: &[u8]) -> Option<Span>
    ensures { result ≡ spec.span_in value.now }
{
    if value.len() < 6 {
        return None;
    }
    let (unit, rest) = value.split_at(6);
    if !unit.eq_ignore_ascii_case(b"bytes=") {
        return None;
    }
    span_at(rest)
}

/// The span that the request asks for (RFC 9110, section 14.2): `None` exactly where the method isn't GET, there isn't exactly
/// one Range field, there is an If-Range field, or the value isn't `bytes=`, in any case, and then one of `a-b` with `a` at most
/// `b`, `a-` and `-n`, each number of 1 to 18 digits. It takes no memory.
pub fn span_of(head: &Head) -> Option<Span>
    ensures { result ≡ spec.span_of head.now }
{
    if head.method.as_str() != "GET"
        || count_named(&head.fields, "range") != 1
        || count_named(&head.fields, "if-range") != 0
    {
        return None;
    }
    span_in(first_named(&head.fields, "range"))
}
