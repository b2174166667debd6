// Why a rehearsal is given up.
use share_client::ClientFault;
use share_config::{ConfigFault, ProfileFault};
use share_hub::OpenRefusal;
use std::alloc::{AllocError, AllocFailed};

/// Why a rehearsal is given up.
#[derive(Clone, Copy, Debug, PartialEq, Eq)]
pub(crate) enum Stop {
    /// Memory was wanting.
    NoMemory,
    /// Something else was answered than is expected.
    Unexpected,
}

fn stop_for(lacks_memory: bool) -> Stop {
    if lacks_memory {
        Stop::NoMemory
    } else {
        Stop::Unexpected
    }
}

impl From<AllocError> for Stop {
    fn from(_: AllocError) -> Self {
        Stop::NoMemory
    }
}

impl<T: Drop> From<AllocFailed<T>> for Stop {
    fn from(_: AllocFailed<T>) -> Self {
        Stop::NoMemory
    }
}

impl From<OpenRefusal> for Stop {
    fn from(refusal: OpenRefusal) -> Self {
        stop_for(matches!(refusal, OpenRefusal::NoMemory))
    }
}

impl From<ConfigFault> for Stop {
    fn from(fault: ConfigFault) -> Self {
        stop_for(matches!(fault, ConfigFault::NoMemory))
    }
}

impl From<ProfileFault> for Stop {
    fn from(fault: ProfileFault) -> Self {
        stop_for(matches!(fault, ProfileFault::NoMemory))
    }
}

// A line in this process fails only where memory is wanting.
impl From<ClientFault> for Stop {
    fn from(fault: ClientFault) -> Self {
        stop_for(matches!(
            fault,
            ClientFault::NoMemory
                | ClientFault::PeerFault
                | ClientFault::ReadFault
                | ClientFault::WriteFault
        ))
    }
}
