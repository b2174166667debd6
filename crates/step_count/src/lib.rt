//! A counter of steps, by which a contract bounds how much work a call does.
#![tactic(auto)]

ghost use Rattle.std.specs.Prelude.{◌≡◌, ◌+◌};

use std::marker::{Model, PhantomData};
use std::snapshot::Snapshot;

// A natural number of any size: zero, or one more than a number that is remembered for proofs alone.
#[derive(Drop)]
#[cycle(count)]
pub struct Count {
    before: Option<Snapshot<Count>>,
}

impl Model for Count {
    ghost use Rattle.std.specs.Prelude.{ℕ, ◌+◌};
    ghost use Rattle.std.proofs.Common.{arith};
    ghost use Rattle.step_count.specs.Counted.{counted};

    ghost Value = { ℕ };

    ghost view = { λ a. counted a.before };

    ghost size = { λ n. n };

    ghost size_decreases = { λ a h. Prim.grind arith };
}

// The next number.
fn next(n: &Count) -> Count
    ensures { result ≡ n.now + 1 }
{
    Count {
        before: Some(Snapshot::of(n)),
    }
}

/// How many steps were taken, as a natural number.
///
/// A counter can be made any number of times, and one step is counted by [`Steps::tick`]. It counts in ghost state, so it
/// can neither wrap nor take time or memory that grows. `L` is any type: counters of different work differ by it.
#[derive(Drop)]
pub struct Steps<L> {
    count: Count,
    of: PhantomData<L>,
}

impl<L> Model for Steps<L> {
    ghost use Rattle.std.specs.Prelude.{ℕ};

    ghost Value = { ℕ };

    ghost view = { λ s. s.count };
}

impl<L> Steps<L> {
    /// A counter at zero.
    pub fn new() -> Steps<L>
        ensures { result ≡ 0 }
    {
        Steps {
            count: Count { before: None },
            of: PhantomData,
        }
    }

    /// Counts one step.
    pub fn tick(&mut self)
        ensures { self.new ≡ self.old + 1 }
    {
        let count = next(&self.count);
        self.count = count;
    }
}
