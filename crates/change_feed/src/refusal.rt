// Why there is no feed.
ghost use Rattle.std.specs.Prelude.{◌≡◌};
ghost use Rattle.change_feed.specs.declared.refusal.FeedRefusal.TheVariants.{NoMemory};

use std::alloc::{AllocError, AllocFailed};

/// Why a range has no feed.
#[derive(Clone, Copy, Debug, PartialEq, Eq)]
pub enum FeedRefusal {
    /// The metaData that holds at the version doesn't turn the feed on: its
    /// `delta.enableChangeDataFeed` isn't `true`, in any case (Delta Lake PROTOCOL.md, "Change Data
    /// Files"). It is the least such version of the range.
    NotEnabled { version: u64 },
    /// Memory ran out. It says nothing of the range.
    NoMemory,
}

impl From<AllocError> for FeedRefusal {
    ghost from_gives = { λ _ e. e ≡ NoMemory };

    fn from(_: AllocError) -> Self {
        FeedRefusal::NoMemory
    }
}

impl<T: Drop> From<AllocFailed<T>> for FeedRefusal {
    ghost from_gives = { λ _ e. e ≡ NoMemory };

    fn from(_: AllocFailed<T>) -> Self {
        FeedRefusal::NoMemory
    }
}
