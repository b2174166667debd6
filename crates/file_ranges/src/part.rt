// A part of an object.
ghost use Rattle.std.specs.Prelude.{◌≡◌, ◌+◌, ◌-◌, ◌&&◌, nat_le, nat_lt, Some, None, if◌then◌else◌};
ghost use Rattle.file_ranges.specs.Ranges.{IsRange};

use std::marker::Model;

/// The bytes from a first to a last, both of them included and counted from 0, of an object: at least one byte, and none behind
/// the object's last (RFC 9110, section 14.1.2). Contracts see the three numbers.
#[derive(Clone, Copy, Debug, PartialEq, Eq, Drop)]
pub struct ByteRange {
    first: u64,
    last: u64,
    size: u64,
}

impl Model for ByteRange {
    ghost use Rattle.std.specs.Prelude.{◌<◌, ◌≤◌};
    ghost use Rattle.file_ranges.specs.Ranges.{Range};

    ghost Value = { Range };

    ghost view = { λ r. record { first = r.first; last = r.last; size = r.size } };

    ghost invariant = { λ r. (r.first ≤ r.last) × (r.last < r.size) };

    ghost inverse = { λ r. record { first = r.first; last = r.last; size = r.size } };
}

impl ByteRange {
    /// The bytes from `first` to `last` of an object of `size` bytes, or `None` exactly where `first` is above `last` or `last`
    /// isn't below `size`.
    pub fn of(first: u64, last: u64, size: u64) -> Option<ByteRange>
        ensures { result ≡ (if nat_le first last && nat_lt last size then Some (record { first = first; last = last; size = size }) else None) }
    {
        if first <= last && last < size {
            Some(ByteRange { first, last, size })
        } else {
            None
        }
    }

    /// The place of the first byte, counted from 0.
    pub fn first(self) -> u64
        ensures value { result ≡ self.first }
        ensures good { IsRange self }
    {
        self.first
    }

    /// The place of the last byte, counted from 0.
    pub fn last(self) -> u64
        ensures value { result ≡ self.last }
        ensures good { IsRange self }
    {
        self.last
    }

    /// How many bytes the whole object has.
    pub fn size(self) -> u64
        ensures value { result ≡ self.size }
        ensures good { IsRange self }
    {
        self.size
    }

    /// How many bytes the part has: one or more.
    pub fn len(self) -> u64
        ensures value { result ≡ self.last + 1 - self.first }
        ensures good { IsRange self }
    {
        self.last - self.first + 1
    }
}
