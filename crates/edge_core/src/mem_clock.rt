// A clock in memory.
ghost use Rattle.std.specs.Prelude.{◌≤◌, All, length};

use crate::Clock;

/// A clock that tells given moments, one after another, and then the last one again and again. Without any it stands at 0.
/// It never fails.
#[derive(Drop)]
pub struct MemClock {
    moments: Vec<u64>,
    at: usize,
    ghost within: { at ≤ length moments.items },
    ghost dated: { All (λ m. m ≤ 253_402_300_799_999) moments.items },
}

impl MemClock {
    ghost use Rattle.std.specs.Prelude.{◌≡◌};
    ghost use Rattle.edge_core.specs.MemoryLines.{clock_coming};

    /// A clock of those moments, in milliseconds since 1970.
    pub fn new(moments: Vec<u64>) -> MemClock
        requires { All (λ m. m ≤ 253_402_300_799_999) moments.items }
        ensures { clock_coming result ≡ moments.items }
    {
        MemClock { moments, at: 0 }
    }
}

impl Clock for MemClock {
    ghost use Rattle.std.specs.Prelude.{Some};
    ghost use Rattle.edge_core.specs.MemoryLines.{clock_coming};

    ghost coming = { λ c. Some (clock_coming c) };

    ghost faults = { λ c. 0 };

    fn now(&mut self) -> u64 {
        if self.at >= self.moments.len() {
            return 0;
        }
        let moment = self.moments[self.at];
        if self.at + 1 < self.moments.len() {
            self.at += 1;
        }
        moment
    }
}
