// How much of a file is fetched at a time.
ghost use Rattle.std.specs.Prelude.{◌≡◌, ◌<◌, ◌≤◌, ◌&&◌, nat_le, Some, None, if◌then◌else◌};

use std::marker::Model;

/// A number of bytes that are fetched at a time: 1 to 134,217,728. Contracts see the number.
#[derive(Clone, Copy, Debug, PartialEq, Eq, Drop)]
pub struct PieceSize {
    bytes: u64,
}

impl Model for PieceSize {
    ghost use Rattle.std.specs.Prelude.{ℕ, ◌<◌, ◌≤◌};

    ghost Value = { ℕ };

    ghost view = { λ p. p.bytes };

    ghost inverse = { λ n. record { bytes = n } };

    ghost invariant = { λ p. (0 < p.bytes) × (p.bytes ≤ 134_217_728) };
}

impl PieceSize {
    /// The most bytes.
    pub const MOST: u64 = 134_217_728;

    /// Pieces of so many bytes, none exactly for 0 and from 134,217,729 on.
    pub fn of(bytes: u64) -> Option<PieceSize>
        ensures { result ≡ (if nat_le 1 bytes && nat_le bytes 134_217_728 then Some bytes else None) }
    {
        if 1 <= bytes && bytes <= PieceSize::MOST {
            Some(PieceSize { bytes })
        } else {
            None
        }
    }

    /// How many bytes.
    pub fn get(self) -> u64
        ensures value { result ≡ self }
        ensures bound { (0 < result) × (result ≤ 134_217_728) }
    {
        self.bytes
    }
}
