// Why a load ends early.
ghost use Rattle.std.specs.Prelude.{◌≡◌};
ghost use Rattle.log_store.specs.declared.refusal.LoadRefusal.TheVariants as load;
ghost use Rattle.log_store.specs.declared.refusal.Stop.TheVariants as stop;
ghost use Rattle.log_store.specs.Refusals.{stop_by_commit, stop_by_state};

use crate::loaded::BlockCause;
use log_commit::NoCommit;
use log_replay::NoState;
use std::alloc::{AllocError, AllocFailed};

/// Why no log was loaded. It says nothing of the log.
#[derive(Clone, Copy, Debug, PartialEq, Eq)]
pub enum LoadRefusal {
    /// A call of the store failed.
    StoreFault,
    /// Memory ran out.
    NoMemory,
}

impl From<AllocError> for LoadRefusal {
    ghost from_gives = { λ _ e. e ≡ load.NoMemory };

    fn from(_: AllocError) -> Self {
        LoadRefusal::NoMemory
    }
}

impl<T: Drop> From<AllocFailed<T>> for LoadRefusal {
    ghost from_gives = { λ _ e. e ≡ load.NoMemory };

    fn from(_: AllocFailed<T>) -> Self {
        LoadRefusal::NoMemory
    }
}

/// Why a version wasn't kept.
#[derive(Clone, Copy)]
pub enum Stop {
    /// It is the log's block.
    Blocked(BlockCause),
    /// Nothing was learnt of it.
    Failed(LoadRefusal),
}

impl From<LoadRefusal> for Stop {
    ghost from_gives = { λ r e. e ≡ stop.Failed r };

    fn from(refusal: LoadRefusal) -> Self {
        Stop::Failed(refusal)
    }
}

impl From<AllocError> for Stop {
    ghost from_gives = { λ _ e. e ≡ stop.Failed load.NoMemory };

    fn from(_: AllocError) -> Self {
        Stop::Failed(LoadRefusal::NoMemory)
    }
}

impl<T: Drop> From<AllocFailed<T>> for Stop {
    ghost from_gives = { λ _ e. e ≡ stop.Failed load.NoMemory };

    fn from(_: AllocFailed<T>) -> Self {
        Stop::Failed(LoadRefusal::NoMemory)
    }
}

impl From<NoCommit> for Stop {
    ghost from_gives = { λ none e. e ≡ stop_by_commit none };

    fn from(none: NoCommit) -> Self {
        match none {
            NoCommit::Fault(fault) => Stop::Blocked(BlockCause::Commit(fault)),
            NoCommit::NoMemory => Stop::Failed(LoadRefusal::NoMemory),
        }
    }
}

impl From<NoState> for Stop {
    ghost from_gives = { λ none e. e ≡ stop_by_state none };

    fn from(none: NoState) -> Self {
        match none {
            NoState::Refusal(refusal) => Stop::Blocked(BlockCause::Replay(refusal)),
            NoState::NoMemory => Stop::Failed(LoadRefusal::NoMemory),
        }
    }
}
