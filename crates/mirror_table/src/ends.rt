// Why there is no commit for a mirror.
ghost use Rattle.std.specs.Prelude.{◌≡◌};
ghost use Rattle.mirror_table.specs.declared.ends.NoTarget.TheVariants as none;

use log_replay::ReplayRefusal;
use std::alloc::{AllocError, AllocFailed};

/// Why a shared table isn't followed. Where several hold, the first of these is told.
#[derive(Clone, Copy, Debug, PartialEq, Eq)]
pub enum Unsuited {
    /// A file of an answer isn't an add; [`adds_of`](crate::adds_of) alone tells it.
    NotAdd,
    /// Two files have one path, as it is spelt.
    PathTwice,
    /// A file's path has no name below the location; or a path of the commit isn't good, and so has no name below some
    /// location of 256 bytes.
    BadPath,
    /// The files of two paths would be one object, as those of `a%62` and `ab`.
    NameTwice,
    /// A file would stand in the folder of the log: the first segment of its name below the location is `_delta_log`.
    InLog,
    /// The metaData turns `delta.enableInCommitTimestamps` on, so that readers want in each commitInfo a moment that a
    /// mirror's doesn't have.
    TimesInCommits,
    /// The local log, followed by the commit, isn't read.
    Unsupported(ReplayRefusal),
}

/// Why there is no commit.
#[derive(Clone, Copy, Debug, PartialEq, Eq)]
pub enum NoTarget {
    /// The shared table isn't followed.
    Unsuited(Unsuited),
    /// The commit's text has more than 16 MiB, or with it the texts of the local log have more than 64 MiB.
    TooLarge,
    /// Memory ran out. It says nothing of the table.
    NoMemory,
}

impl From<Unsuited> for NoTarget {
    ghost from_gives = { λ unsuited e. e ≡ none.Unsuited unsuited };

    fn from(unsuited: Unsuited) -> Self {
        NoTarget::Unsuited(unsuited)
    }
}

impl From<AllocError> for NoTarget {
    ghost from_gives = { λ _ e. e ≡ none.NoMemory };

    fn from(_: AllocError) -> Self {
        NoTarget::NoMemory
    }
}

impl<T: Drop> From<AllocFailed<T>> for NoTarget {
    ghost from_gives = { λ _ e. e ≡ none.NoMemory };

    fn from(_: AllocFailed<T>) -> Self {
        NoTarget::NoMemory
    }
}
