// The value of the field Content-Range.
ghost use Rattle.std.specs.Prelude.{◌≡◌, ◌<◌, ◌≤◌, ◌^◌, Some, IfOk, IfSome, length, option_map};
ghost use Rattle.file_ranges.specs.Ranges as spec;
ghost use Rattle.file_ranges.specs.Ranges.{Range, IsRange, IsSpelled};

use crate::part::ByteRange;
use crate::text::{cut_at, written_number};
use json_tree::Text;
use std::alloc::{AllocError, Global};

/// `bytes FIRST-LAST/SIZE`, the value of Content-Range for a part (RFC 9110, section 14.4): at most 68 bytes.
///
/// The error is want of memory.
pub fn range_text(alloc: Global, range: ByteRange) -> Result<Text, AllocError>
    ensures text { IfOk result (λ text. text ≡ spec.range_text range) }
    ensures short { IfOk result (λ text. length text ≤ 68) }
{
    let first = range.first();
    let last = range.last();
    let size = range.size();
    Ok(Text::of(format!(in alloc; "bytes {first}-{last}/{size}")?))
}

// The texts of the three numbers.
fn pieces_of(bytes: &[u8]) -> Option<(&[u8], &[u8], &[u8])>
    ensures { option_map (λ p. (p.0.now, p.1.now, p.2.now)) result ≡ spec.pieces_of bytes.now }
{
    let rest = bytes.strip_prefix(b"bytes ")?;
    let (first, rest) = cut_at(rest, b'-')?;
    let (last, size) = cut_at(rest, b'/')?;
    Some((first, last, size))
}

// The part whose numbers are written so.
fn range_of(first: &[u8], last: &[u8], size: &[u8]) -> Option<ByteRange>
    ensures reads { IfSome result (λ range. IsRange range × IsSpelled first.now last.now size.now range) }
    ensures back { (range : Range) → IsRange range → range.size < 2 ^ 64 → IsSpelled first.now last.now size.now range → result ≡ Some range }
{
    ByteRange::of(
        written_number(first)?,
        written_number(last)?,
        written_number(size)?,
    )
}

/// The part whose text, as [`range_text`] writes it, this is, or `None` exactly where it is no part's: the first place is at most
/// the last, the last is below the size, which has 64 bits, and no number has a zero in front. It takes no memory.
pub fn range_read(bytes: &[u8]) -> Option<ByteRange>
    ensures reads { IfSome result (λ range. IsRange range × (bytes.now ≡ spec.range_text range)) }
    ensures back { (range : Range) → IsRange range → range.size < 2 ^ 64 → bytes.now ≡ spec.range_text range → result ≡ Some range }
{
    let (first, last, size) = pieces_of(bytes)?;
    range_of(first, last, size)
}
