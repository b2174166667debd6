// Whole numbers that keep to the bounds of their fields.
ghost use Rattle.std.specs.Prelude.{◌≡◌, ◌<◌, ◌^◌};
ghost use Rattle.log_actions.specs.Ranges.{within, times_end};

use json_tree::Small;
use std::marker::Model;

/// A version of the protocol: 0 to 2^31 - 1.
#[derive(Clone, Copy, Debug, PartialEq, Eq)]
pub struct ProtocolVersion {
    number: u32,
}

impl Model for ProtocolVersion {
    ghost use Rattle.std.specs.Prelude.{ℕ, ◌<◌, ◌^◌};

    ghost Value = { ℕ };

    ghost view = { λ v. v.number };

    ghost inverse = { λ n. record { number = n } };

    ghost invariant = { λ v. v.number < 2 ^ 31 };
}

impl ProtocolVersion {
    /// The version of that number, none exactly from 2^31 on.
    pub fn of(number: u32) -> Option<ProtocolVersion>
        ensures { result ≡ within (2 ^ 31) number }
    {
        if number < 0x8000_0000 {
            Some(ProtocolVersion { number })
        } else {
            None
        }
    }

    /// Its number.
    pub fn get(self) -> u32
        ensures value { result ≡ self }
        ensures bound { result < 2 ^ 31 }
    {
        self.number
    }
}

/// What the size of a file counts.
#[derive(Clone, Copy, PartialEq, Eq, Drop)]
pub struct Bytes;

/// A number of bytes: 0 to 2^63 - 1.
pub type FileSize = Small<Bytes>;

/// The moment of a commit in milliseconds since the start of 1970 in UTC: 0 to 253402300799999,
/// the end of the year 9999.
#[derive(Clone, Copy, Debug, PartialEq, Eq)]
pub struct CommitTime {
    millis: u64,
}

impl Model for CommitTime {
    ghost use Rattle.std.specs.Prelude.{ℕ, ◌<◌};
    ghost use Rattle.log_actions.specs.Ranges.{times_end};

    ghost Value = { ℕ };

    ghost view = { λ t. t.millis };

    ghost inverse = { λ n. record { millis = n } };

    ghost invariant = { λ t. t.millis < times_end };
}

impl CommitTime {
    /// The moment of so many milliseconds, none exactly from 253402300800000 on.
    pub fn of(millis: u64) -> Option<CommitTime>
        ensures { result ≡ within times_end millis }
    {
        if millis < 253_402_300_800_000 {
            Some(CommitTime { millis })
        } else {
            None
        }
    }

    /// How many milliseconds it is.
    pub fn get(self) -> u64
        ensures value { result ≡ self }
        ensures bound { result < times_end }
    {
        self.millis
    }
}
