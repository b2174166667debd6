// Why there is no page.
ghost use Rattle.std.specs.Prelude.{◌≡◌};
ghost use Rattle.share_reply.specs.declared.stop.Stop.TheVariants as stop;

use crate::refused::Refused;
use std::alloc::AllocError;

// Why there is no answer.
#[derive(Drop)]
pub(crate) enum Stop {
    Refused(Refused),
    NoMemory,
}

impl From<AllocError> for Stop {
    ghost from_gives = { λ _ e. e ≡ stop.NoMemory };

    fn from(_: AllocError) -> Self {
        Stop::NoMemory
    }
}
