// Why a line isn't read.
ghost use Rattle.std.specs.Prelude.{◌≡◌};
ghost use Rattle.log_actions.specs.declared.line_fault.NoAction.TheVariants.{NoMemory};

use case_table::Field;
use std::alloc::AllocError;

/// Why a line of a commit isn't read. The faults are tested in this order.
#[derive(Clone, Copy, Debug, PartialEq, Eq)]
pub enum LineFault {
    /// The line isn't UTF-8.
    NotUtf8,
    /// The line is no JSON value of at most 127 levels.
    NotJson,
    /// The line is no object, or not exactly one member of it is other than null.
    NotOneKey,
    /// The action's value is no object.
    NotObject,
    /// A field of the action is wanting, of another kind or out of its bounds: the first such field in the order of the table.
    Field { which: Field },
}

/// Why no action was read.
#[derive(Clone, Copy, Debug, PartialEq, Eq)]
pub enum NoAction {
    /// The line isn't read.
    Fault(LineFault),
    /// Memory is wanting. It says nothing of the line.
    NoMemory,
}

impl From<AllocError> for NoAction {
    ghost from_gives = { λ _ e. e ≡ NoMemory };

    fn from(_: AllocError) -> Self {
        NoAction::NoMemory
    }
}
