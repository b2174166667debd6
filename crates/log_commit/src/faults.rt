// Why bytes are no text of a commit.
ghost use Rattle.std.specs.Prelude.{◌≡◌};
ghost use Rattle.log_commit.specs.declared.faults.NoCommit.TheVariants.{NoMemory};

use log_actions::LineFault;
use std::alloc::AllocError;

/// Why bytes are no text of a commit. TooLarge comes first; else the first line at which something is wrong decides, and
/// at that line the first of these that holds. Lines are counted from 1, blank ones too.
#[derive(Clone, Copy, Debug, PartialEq, Eq)]
pub enum CommitFault {
    /// There are more than 16 MiB, 2^24 bytes.
    TooLarge,
    /// Line n isn't read.
    Line { n: u64, fault: LineFault },
    /// Line n is a protocol, and an earlier line is one.
    TwoProtocols { n: u64 },
    /// Line n is a metaData, and an earlier line is one.
    TwoMetaData { n: u64 },
    /// The path of line n, an add, a remove or a cdc, isn't good.
    BadPath { n: u64 },
    /// Line n is an add or a remove without a deletion vector, and so is an earlier line with its path.
    PathTwice { n: u64 },
}

/// Why no commit was read.
#[derive(Clone, Copy, Debug, PartialEq, Eq)]
pub enum NoCommit {
    /// The bytes are no text of a commit.
    Fault(CommitFault),
    /// Memory is wanting. It says nothing of the bytes.
    NoMemory,
}

impl From<AllocError> for NoCommit {
    ghost from_gives = { λ _ e. e ≡ NoMemory };

    fn from(_: AllocError) -> Self {
        NoCommit::NoMemory
    }
}
