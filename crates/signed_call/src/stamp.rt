// The moment of a request, as a value.
ghost use Rattle.std.specs.Prelude.{◌<◌};

use jiff_core::civil::Date;

/// A moment, to the second, in UTC.
#[derive(Clone, Copy, Debug)]
pub struct Stamp {
    /// The day.
    pub date: Date,
    /// The second of the day.
    pub second: u32,
    ghost of_a_day: { second < 86400 },
}
