// The moment of a request.
ghost use Rattle.std.specs.Prelude.{◌≡◌, ◌≤◌, ◌<◌, ◌++◌, OnOk, string_bytes};
ghost use Rattle.signed_call.specs.Stamps.{IsStampAt, two_digits, four_digits, day_digits, moment_text, time_digits};

use crate::stamp::Stamp;
use jiff_core::civil::Date;
use std::alloc::AllocError;

/// The second of a moment that is given in milliseconds since the start of 1970 in UTC, at most 253402300799999, the end of the year 9999.
pub fn stamp_of(now: u64) -> Stamp
    requires { now ≤ 253_402_300_799_999 }
    ensures { IsStampAt now result }
{
    match Date::from_unix_epoch_day((now / 86_400_000) as i64) {
        Ok(date) => Stamp {
            date,
            second: (now / 1000 % 86400) as u32,
        },
        Err(_) => unreachable!(),
    }
}

// Writes a number below 100.
fn push_two(out: &mut String, number: u32) -> Result<(), AllocError>
    requires { number < 100 }
    ensures { OnOk result (string_bytes out.new ≡ string_bytes out.old ++ two_digits number) }
{
    out.push((b'0' + (number / 10) as u8) as char)?;
    out.push((b'0' + (number % 10) as u8) as char)
}

// Writes a number below 10,000.
fn push_four(out: &mut String, number: u32) -> Result<(), AllocError>
    requires { number < 10000 }
    ensures { OnOk result (string_bytes out.new ≡ string_bytes out.old ++ four_digits number) }
{
    push_two(out, number / 100)?;
    push_two(out, number % 100)
}

/// Writes the day, as `20130524`, at the end.
#[tactic(auto, unfolding(crate::specs::Stamps::day_digits))]
pub(crate) fn push_day(out: &mut String, stamp: &Stamp) -> Result<(), AllocError>
    ensures { OnOk result (string_bytes out.new ≡ string_bytes out.old ++ day_digits stamp.now) }
{
    let date = stamp.date;
    push_four(out, date.year.unsigned_abs() as u32)?;
    push_two(out, date.month as u32)?;
    push_two(out, date.day as u32)
}

// Writes a second of a day, as `000000`.
#[tactic(auto, unfolding(crate::specs::Stamps::time_digits))]
fn push_time(out: &mut String, second: u32) -> Result<(), AllocError>
    requires { second < 86400 }
    ensures { OnOk result (string_bytes out.new ≡ string_bytes out.old ++ time_digits second) }
{
    push_two(out, second / 3600)?;
    push_two(out, second % 3600 / 60)?;
    push_two(out, second % 60)
}

/// Writes the moment, as `20130524T000000Z`, at the end.
pub(crate) fn push_moment(out: &mut String, stamp: &Stamp) -> Result<(), AllocError>
    ensures { OnOk result (string_bytes out.new ≡ string_bytes out.old ++ moment_text stamp.now) }
{
    push_day(out, stamp)?;
    out.push_str("T")?;
    push_time(out, stamp.second)?;
    out.push_str("Z")
}
