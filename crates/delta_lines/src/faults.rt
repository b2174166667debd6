// Why one line isn't read.
ghost use Rattle.std.specs.Prelude.{◌≡◌};
ghost use Rattle.delta_lines.specs.declared.faults.LineFault.TheVariants as line;
ghost use Rattle.delta_lines.specs.Reading.{fault_of};

use log_actions::NoAction;
use std::alloc::AllocError;

// Why one line isn't read.
#[derive(Clone, Copy, Debug, PartialEq, Eq)]
pub(crate) enum LineFault {
    // Memory is wanting.
    NoMemory,
    // It is outside the grammar.
    Bad,
}

impl From<AllocError> for LineFault {
    ghost from_gives = { λ _ e. e ≡ line.NoMemory };

    fn from(_: AllocError) -> Self {
        LineFault::NoMemory
    }
}

impl From<NoAction> for LineFault {
    ghost from_gives = { λ none e. e ≡ fault_of none };

    fn from(none: NoAction) -> Self {
        match none {
            NoAction::Fault(_) => LineFault::Bad,
            NoAction::NoMemory => LineFault::NoMemory,
        }
    }
}
