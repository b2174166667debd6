// Why a text isn't read as one that was signed.
ghost use Rattle.std.specs.Prelude.{◌≡◌};
ghost use Rattle.hmac_core.specs.declared.fault.Fault.TheVariants.{NoMemory};

use std::alloc::AllocError;

/// Why a text isn't read as one that was signed.
#[derive(Clone, Copy, Debug, PartialEq, Eq)]
pub enum Fault {
    /// The text isn't spelt so.
    NotSpelt,
    /// Memory ran out.
    NoMemory,
}

impl From<AllocError> for Fault {
    ghost from_gives = { λ _ e. e ≡ NoMemory };

    fn from(_error: AllocError) -> Fault {
        Fault::NoMemory
    }
}
