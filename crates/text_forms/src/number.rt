// Numbers by their decimal digits.
ghost use Rattle.std.specs.Prelude.{◌≡◌, ◌^◌, ◌≤◌, true, MatchOption};
ghost use Rattle.std.specs.Char.{is_ascii_digit};
ghost use Rattle.std.specs.List.{list_all};
ghost use Rattle.std.specs.Str.Parse.{digits_value};
ghost use Rattle.text_forms.specs.Numbers.{is_digits, number_in};

use std::str;

fn are_digits(text: &[u8]) -> bool
    ensures { result ≡ list_all is_ascii_digit text.now }
{
    text.iter().all(|byte| byte.is_ascii_digit())
}

fn is_digits(text: &[u8]) -> bool
    ensures { result ≡ is_digits text.now }
{
    !text.is_empty() && are_digits(text)
}

// The number that digits write; none where it has more than 64 bits.
fn value_of(text: &[u8]) -> Option<u64>
    ensures { MatchOption result (is_digits text.now ≡ true → 2 ^ 64 ≤ digits_value 10 text.now) (λ n. (is_digits text.now ≡ true) × (n ≡ digits_value 10 text.now)) }
{
    if !is_digits(text) {
        return None;
    }
    match str::from_utf8(text) {
        Ok(text) => match text.parse::<u64>() {
            Ok(number) => Some(number),
            Err(_) => None,
        },
        Err(_) => None,
    }
}

/// The number from `low` to `high`, both included, that a text writes in decimal digits, which may begin with zeros; `None` exactly where
/// the text is another, or its number another.
pub fn number_in(low: u64, high: u64, text: &[u8]) -> Option<u64>
    ensures { result ≡ number_in low high text.now }
{
    match value_of(text) {
        Some(number) => {
            if low <= number && number <= high {
                Some(number)
            } else {
                None
            }
        }
        None => None,
    }
}
