// Days of the calendar, as numbers.
ghost use Rattle.std.specs.Prelude.{◌≡◌, ◌<◌, ◌≤◌, pos, IfSome};
ghost use Rattle.part_values.specs.Day as spec;
ghost use Rattle.part_values.specs.DigitPairs.{day_by_pairs as the_day_by_pairs, two_digits as the_two_digits};
ghost use Rattle.jiff.specs.Words.{epoch_day};

use jiff::civil::Date;

fn two_digits(high: u8, low: u8) -> Option<u8>
    ensures value { result ≡ the_two_digits high low }
    ensures small { IfSome result (λ n. n < 100) }
{
    if high.is_ascii_digit() && low.is_ascii_digit() {
        Some((high - b'0') * 10 + (low - b'0'))
    } else {
        None
    }
}

// The days since 1970-01-01.
fn day_number(date: Date) -> i32
    ensures { result ≡ epoch_day date }
{
    date.to_plain().to_unix_epoch_day()
}

fn civil_day(year: u16, month: u8, day: u8) -> Option<i32>
    requires year { year < 10000 }
    requires month { month < 100 }
    requires day { day < 100 }
    ensures { result ≡ spec.civil_day (pos year) month day }
{
    match Date::new(year as i16, month as i8, day as i8) {
        Ok(date) => Some(day_number(date)),
        Err(_) => None,
    }
}

fn day_by_pairs(text: &[u8]) -> Option<i32>
    ensures { result ≡ the_day_by_pairs text.now }
{
    if text.len() != 10 || text[4] != b'-' || text[7] != b'-' {
        return None;
    }
    let century = two_digits(text[0], text[1])?;
    let year = two_digits(text[2], text[3])?;
    let month = two_digits(text[5], text[6])?;
    let day = two_digits(text[8], text[9])?;
    civil_day(century as u16 * 100 + year as u16, month, day)
}

// The days since 1970-01-01 of a date `YYYY-MM-DD`.
pub(crate) fn day_of(text: &str) -> Option<i32>
    ensures { result ≡ spec.day_of text.now }
{
    day_by_pairs(text.as_bytes())
}
