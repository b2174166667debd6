// Why a record isn't read.
ghost use Rattle.std.specs.Prelude.{◌≡◌};
ghost use Rattle.catalog_log.specs.declared.fault.RecordFault.TheVariants.{NoMemory};

use std::alloc::AllocError;

/// Why a record isn't read. The first that holds is told, want of memory apart.
#[derive(Clone, Copy, Debug, PartialEq, Eq)]
pub enum RecordFault {
    /// The bytes aren't UTF-8.
    NotUtf8,
    /// The text is no JSON value (RFC 8259), or one of more than 127 levels.
    NotJson,
    /// The value is no record: the version is neither 1 nor 2, not exactly one kind of edit is there,
    /// or a field is missing, of another kind or out of its grammar.
    BadRecord,
    /// Memory is wanting.
    NoMemory,
}

impl From<AllocError> for RecordFault {
    ghost from_gives = { λ _ e. e ≡ NoMemory };

    fn from(_: AllocError) -> Self {
        RecordFault::NoMemory
    }
}
