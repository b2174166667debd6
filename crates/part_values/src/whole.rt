// Whole numbers as text.
ghost use Rattle.std.specs.Prelude.{◌≡◌, ◌<◌, length};
ghost use Rattle.std.specs.Str.Parse.{IsNumeral, without_leading_sign};
ghost use Rattle.part_values.specs.Whole as spec;

// Whether the numeral has no plus, no zero before another digit and no minus before zero.
fn is_shortest(numeral: &[u8]) -> bool
    requires { IsNumeral 10 (without_leading_sign numeral.now) }
    ensures { result ≡ spec.is_shortest numeral.now }
{
    let place = if numeral[0] == b'-' { 1 } else { 0 };
    numeral[0] != b'+' && (numeral[place] != b'0' || numeral.len() == 1)
}

// The number that the text is the numeral of, where it lies from `low` to `high`.
pub(crate) fn whole_of(text: &str, low: i64, high: i64) -> Option<i64>
    ensures { result ≡ spec.whole_of low high text.now }
{
    let Ok(number) = text.parse::<i64>() else {
        return None;
    };
    if low <= number && number <= high && is_shortest(text.as_bytes()) {
        Some(number)
    } else {
        None
    }
}
