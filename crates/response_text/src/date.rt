// The date of a moment.
ghost use Rattle.std.specs.Prelude.{◌≡◌, ◌≤◌};
ghost use Rattle.response_text.specs.Dates.{date_at};

use httpdate::HttpDate;

/// The date of a moment, in milliseconds since the start of 1970 (RFC 9110, section 5.6.7).
pub(crate) fn date_at(now: u64) -> [u8; 29]
    requires { now ≤ 253_402_300_799_999 }
    ensures { result ≡ date_at now }
{
    match HttpDate::from_unix_secs(now / 1000) {
        Ok(date) => date.to_bytes(),
        Err(_) => unreachable!(),
    }
}
