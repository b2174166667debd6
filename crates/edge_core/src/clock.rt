// What tells the time.
ghost use Rattle.std.specs.Prelude.{ℕ, ◌≤◌, List, Option};
ghost use Rattle.edge_core.specs.Clocks.{Ticks};

/// The greatest moment that a clock tells: the last millisecond of the year 9999.
pub const LAST_MOMENT: u64 = 253_402_300_799_999;

/// A clock.
pub trait Clock {
    /// The moments that it is still to tell, of which the last repeats, or none where the clock doesn't tell them. A clock
    /// that tells goes on telling, and one that doesn't never begins to.
    ghost coming: { Self → Option (List ℕ) };

    /// How often the clock couldn't be read: a count that never falls, and stands still at 2^64 - 1.
    ghost faults: { Self → ℕ };

    /// The moment, in milliseconds since 1970, at most [`LAST_MOMENT`].
    fn now(&mut self) -> u64
        ensures dated { result ≤ 253_402_300_799_999 }
        ensures told { Ticks (coming self.old) (coming self.new) result }
        ensures later { faults self.old ≤ faults self.new };
}
