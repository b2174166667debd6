// Refusals without a detail.
ghost use Rattle.std.specs.Prelude.{◌≡◌};
ghost use Rattle.share_reply.specs.Refusing.{plain};
ghost use Rattle.share_reply.specs.declared.stop.Stop.TheVariants as stop;

use crate::refused::Refused;
use crate::stop::Stop;
use case_table::Refusal;
use std::alloc::Global;

// The refusal, whose message has no detail.
pub(crate) fn refuse(alloc: Global, refusal: Refusal) -> Stop
    ensures { result ≡ stop.Refused (plain refusal) }
{
    Stop::Refused(Refused::plain(alloc, refusal))
}
