// Pieces of texts, and the numbers that they write.
ghost use Rattle.std.specs.Prelude.{◌≡◌, ◌==◌, ℕ, ◌<◌, ◌^◌, Some, IfSome, option_map, position};
ghost use Rattle.std.specs.Fmt.{decimal};
ghost use Rattle.file_ranges.specs.Pieces.{cut_at};

use itoa::Buffer;
use std::str;

// Where the first byte that is the separator stands.
fn place_of(bytes: &[u8], separator: u8) -> Option<usize>
    ensures { result ≡ position (λ b. b == separator) bytes.now }
{
    bytes.iter().position(|byte| *byte == separator)
}

// The bytes before and behind the first one that is the separator.
pub(crate) fn cut_at(bytes: &[u8], separator: u8) -> Option<(&[u8], &[u8])>
    ensures { option_map (λ p. (p.0.now, p.1.now)) result ≡ cut_at separator bytes.now }
{
    let place = place_of(bytes, separator)?;
    Some((&bytes[..place], &bytes[place + 1..]))
}

// The number of 64 bits that is written so.
pub(crate) fn written_number(text: &[u8]) -> Option<u64>
    ensures reads { IfSome result (λ n. text.now ≡ decimal n) }
    ensures back { (n : ℕ) → n < 2 ^ 64 → text.now ≡ decimal n → result ≡ Some n }
{
    let Ok(spelled) = str::from_utf8(text) else {
        return None;
    };
    let Ok(number) = spelled.parse::<u64>() else {
        return None;
    };
    if Buffer::new().format(number).as_bytes() == text {
        Some(number)
    } else {
        None
    }
}
