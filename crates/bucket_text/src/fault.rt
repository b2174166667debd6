// Why an answer isn't read.
ghost use Rattle.std.specs.Prelude.{◌≡◌};
ghost use Rattle.bucket_text.specs.declared.fault.Fault.TheVariants.{NoMemory};

use std::alloc::AllocError;

/// Why an answer isn't read.
#[derive(Clone, Copy, Debug, PartialEq, Eq)]
pub enum Fault {
    /// The text isn't such an answer.
    Bad,
    /// Memory ran out.
    NoMemory,
}

impl From<AllocError> for Fault {
    ghost from_gives = { λ _ e. e ≡ NoMemory };

    fn from(_error: AllocError) -> Fault {
        Fault::NoMemory
    }
}
