// What is sent of an object.
ghost use Rattle.std.specs.Prelude.{◌≡◌, ◌<◌, ◌&&◌, nat_le, nat_lt, if◌then◌else◌};
ghost use Rattle.file_ranges.specs.Ranges.{IsRange};
ghost use Rattle.file_ranges.specs.Picks as spec;
ghost use Rattle.file_ranges.specs.declared.pick.Picked.TheVariants.{Out};

use crate::part::ByteRange;
use crate::span::Span;

/// What is sent of an object (RFC 9110, section 14.2).
#[derive(Clone, Copy, Debug, PartialEq, Eq, Drop)]
pub enum Picked {
    /// All of it, by 200 (OK).
    Whole,
    /// A part, by 206 (Partial Content).
    Part(ByteRange),
    /// Nothing, by 416 (Range Not Satisfiable): none of its bytes is asked for.
    Out,
}

fn part_of(first: u64, last: u64, size: u64) -> Picked
    ensures { result ≡ (if nat_le first last && nat_lt last size then spec.part first last size else Out) }
{
    match ByteRange::of(first, last, size) {
        Some(range) => Picked::Part(range),
        None => Picked::Out,
    }
}

fn pick_in(span: Span, size: u64) -> Picked
    requires { 0 < size }
    ensures { result ≡ spec.pick_in span size }
{
    let end = size - 1;
    match span {
        Span::FromTo(first, last) => part_of(first, last.min(end), size),
        Span::From(first) => part_of(first, end, size),
        Span::Last(count) => part_of(size.saturating_sub(count), end, size),
    }
}

/// What is sent of an object of `size` bytes: all of it without a span, and all of an empty object, which is a choice of our own.
///
/// Else it is the part of the asked bytes that the object has, from the first place to the lesser of the last place and the
/// object's last, or the last `n` bytes, or all where there are fewer; and `Out` where that is none. It takes no memory.
pub fn pick(span: Option<Span>, size: u64) -> Picked
    ensures value { result ≡ spec.pick span size }
    ensures within { spec.IfPart result (λ range. IsRange range × (range.size ≡ size)) }
{
    match span {
        Some(span) => {
            if size == 0 {
                Picked::Whole
            } else {
                pick_in(span, size)
            }
        }
        None => Picked::Whole,
    }
}
