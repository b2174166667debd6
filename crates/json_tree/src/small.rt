// Numbers below 2^63, each kind of them a type of its own.
ghost use Rattle.std.specs.Prelude.{◌≡◌, ◌+◌, ◌<◌, ◌≤◌, ◌^◌, MatchOption};

use std::fmt::{self, Debug, Formatter, Write};
use std::marker::{Model, PhantomData};

// The first number that is none of these.
const END: u64 = 1 << 63;

/// A number below 2^63 of what `Unit` names. Contracts see the number, and `{:?}` prints it.
#[derive(Clone, Copy, PartialEq, Eq, Drop)]
pub struct Small<Unit> {
    number: u64,
    unit: PhantomData<Unit>,
}

/// What a moment is told in: milliseconds since 1970-01-01T00:00:00Z.
#[derive(Clone, Copy, PartialEq, Eq, Drop)]
pub struct Milliseconds;

/// What a version of a table's log counts: the commits before it.
#[derive(Clone, Copy, PartialEq, Eq, Drop)]
pub struct CommitsBefore;

/// What an edition counts: how often something was done.
#[derive(Clone, Copy, PartialEq, Eq, Drop)]
pub struct Doings;

/// What a place in a list counts: the elements before it.
#[derive(Clone, Copy, PartialEq, Eq, Drop)]
pub struct Elements;

/// A moment, in milliseconds since 1970-01-01T00:00:00Z, below 2^63.
pub type Millis = Small<Milliseconds>;

/// A version of a table's log, below 2^63.
pub type Version = Small<CommitsBefore>;

/// How often something was done of which a later doing is another one, below 2^63: never is 0.
pub type Edition = Small<Doings>;

/// A place in a list: how many elements stand before it, below 2^63.
pub type Place = Small<Elements>;

impl<Unit> Model for Small<Unit> {
    ghost use Rattle.std.specs.Prelude.{ℕ, ◌<◌, ◌^◌};

    ghost Value = { ℕ };

    ghost view = { λ s. s.number };

    ghost invariant = { λ s. s.number < 2 ^ 63 };

    ghost inverse = { λ n. record { number = n; unit = _ } };
}

impl<Unit> Debug for Small<Unit> {
    fn fmt<W: Write>(&self, f: &mut Formatter<W>) -> fmt::Result {
        Debug::fmt(&self.number, f)
    }
}

impl<Unit> Small<Unit> {
    /// The one of a number that is known to be below 2^63.
    pub fn of_small(number: u64) -> Small<Unit>
        requires { number < 2 ^ 63 }
        ensures { result ≡ number }
    {
        Small {
            number,
            unit: PhantomData,
        }
    }

    /// The one of a number, or `None` exactly where the number is 2^63 or above.
    pub fn of(number: u64) -> Option<Small<Unit>>
        ensures { MatchOption result (2 ^ 63 ≤ number) (λ s. (s ≡ number) × (number < 2 ^ 63)) }
    {
        if number < END {
            Some(Small {
                number,
                unit: PhantomData,
            })
        } else {
            None
        }
    }

    /// Its number.
    pub fn get(self) -> u64
        ensures value { result ≡ self }
        ensures below { result < 2 ^ 63 }
    {
        self.number
    }
}

impl Small<Doings> {
    /// The edition of what was never done.
    pub fn never() -> Edition
        ensures { result ≡ 0 }
    {
        Small {
            number: 0,
            unit: PhantomData,
        }
    }

    /// The edition after one doing more.
    pub fn next(self) -> Edition
        requires { self + 1 < 2 ^ 63 }
        ensures { result ≡ self + 1 }
    {
        Small {
            number: self.number + 1,
            unit: PhantomData,
        }
    }
}
