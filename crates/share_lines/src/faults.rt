// Why lines aren't read.
ghost use Rattle.std.specs.Prelude.{◌≡◌};
ghost use Rattle.share_lines.specs.declared.faults.LineFault.TheVariants as line;
ghost use Rattle.share_lines.specs.declared.faults.LinesFault.TheVariants as lines;

use std::alloc::{AllocError, AllocFailed};

// Why one line isn't read.
#[derive(Clone, Copy, Debug, PartialEq, Eq)]
pub(crate) enum LineFault {
    // It is outside the grammar.
    Bad,
    // Memory is wanting.
    NoMemory,
}

impl From<AllocError> for LineFault {
    ghost from_gives = { λ _ e. e ≡ line.NoMemory };

    fn from(_: AllocError) -> Self {
        LineFault::NoMemory
    }
}

/// Why bytes aren't read as lines.
#[derive(Clone, Copy, Debug, PartialEq, Eq)]
pub enum LinesFault {
    /// A line is outside the grammar. The first such line begins at that byte, counted from 0.
    Bad { at: u64 },
    /// Memory is wanting.
    NoMemory,
}

impl From<AllocError> for LinesFault {
    ghost from_gives = { λ _ e. e ≡ lines.NoMemory };

    fn from(_: AllocError) -> Self {
        LinesFault::NoMemory
    }
}

impl<T: Drop> From<AllocFailed<T>> for LinesFault {
    ghost from_gives = { λ _ e. e ≡ lines.NoMemory };

    fn from(_: AllocFailed<T>) -> Self {
        LinesFault::NoMemory
    }
}
