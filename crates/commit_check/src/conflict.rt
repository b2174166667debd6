// Why an offer isn't admitted.
ghost use Rattle.std.specs.Prelude.{◌≡◌};
ghost use Rattle.commit_check.specs.declared.conflict.NotAdmitted.TheVariants as none;

use std::alloc::{AllocError, AllocFailed};

/// Why an offer isn't admitted. Where several hold, the first of these is told. An action is told by
/// its place among the offer's, from 0 on; a version is the least winning one, of those after the
/// version that was read.
#[derive(Clone, Copy, Debug, PartialEq, Eq)]
pub enum Conflict {
    /// The version that was read isn't kept; `head` is the last that is.
    ReadAhead { head: Option<u64> },
    /// The table's protocol, or one that is offered, asks of a writer what this one doesn't do.
    WriterUnsupported,
    /// Action n is a commitInfo, breaks a rule of a commit, has a path without a name below the table,
    /// or has a deletion vector; or n is the number of actions, and with them the table isn't read,
    /// is begun without a protocol or a metaData, or the commit's text has more than 16 MiB.
    BadOffer { n: u64 },
    /// Data is removed from a table to which files may be added alone.
    AppendOnly,
    /// Action n removes a path that wasn't live at the version that was read.
    RemoveAbsent { n: u64 },
    /// The version has a protocol.
    ProtocolChanged { version: u64 },
    /// The version has a metaData.
    MetadataChanged { version: u64 },
    /// The version has a txn of an application of which the offer has one.
    ConcurrentTransaction { version: u64 },
    /// The version removes a path that the offer removes.
    ConcurrentDeleteDelete { version: u64 },
    /// The version adds a path that the offer adds or removes, or removes one that it adds.
    ConcurrentAddAdd { version: u64 },
    /// The version adds or removes a file that was read.
    ConcurrentDeleteRead { version: u64 },
    /// The version adds a file that would have been read.
    ConcurrentAppend { version: u64 },
}

/// Why no commit was made of an offer.
#[derive(Clone, Copy, Debug, PartialEq, Eq)]
pub enum NotAdmitted {
    /// The offer isn't admitted.
    Conflict(Conflict),
    /// Memory ran out. It says nothing of the offer.
    NoMemory,
}

impl From<Conflict> for NotAdmitted {
    ghost from_gives = { λ conflict e. e ≡ none.Conflict conflict };

    fn from(conflict: Conflict) -> Self {
        NotAdmitted::Conflict(conflict)
    }
}

impl From<AllocError> for NotAdmitted {
    ghost from_gives = { λ _ e. e ≡ none.NoMemory };

    fn from(_: AllocError) -> Self {
        NotAdmitted::NoMemory
    }
}

impl<T: Drop> From<AllocFailed<T>> for NotAdmitted {
    ghost from_gives = { λ _ e. e ≡ none.NoMemory };

    fn from(_: AllocFailed<T>) -> Self {
        NotAdmitted::NoMemory
    }
}
