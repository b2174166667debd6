// A refusal as it is told.
ghost use Rattle.std.specs.Prelude.{◌≡◌, IfOk, IsTrue};
ghost use Rattle.std.specs.Fmt.{decimal};
ghost use Rattle.case_table.specs.declared.refuse.Refusal.TheVariants.{ChangesNotEnabled, VersionNotShared};
ghost use Rattle.share_lines.specs.Errors.{error_body, takes_detail};
ghost use Rattle.share_request.specs.Faults.{fault_detail, fault_refusal};
ghost use Rattle.share_reply.specs.Refusing.{plain};

use case_table::Refusal;
use json_tree::Text;
use share_lines::error_text;
use share_request::RequestFault;
use std::alloc::{AllocError, Global};
use std::marker::Model;

/// A refusal with the variable part of its message, which is empty where the message has none.
#[derive(Drop)]
pub struct Refused {
    refusal: Refusal,
    detail: Text,
}

impl Model for Refused {
    ghost use Rattle.std.specs.Prelude.{IsTrue};
    ghost use Rattle.share_lines.specs.Errors.{takes_detail};
    ghost use Rattle.share_reply.specs.Refusing as refusing;

    ghost Value = { refusing.Refused };

    ghost view = { λ r. record { refusal = r.refusal; detail = r.detail } };

    ghost invariant = { λ r. IsTrue (takes_detail r.refusal r.detail) };
}

impl Refused {
    // A refusal whose message has no detail.
    pub(crate) fn plain(alloc: Global, refusal: Refusal) -> Refused
        ensures { result ≡ plain refusal }
    {
        Refused {
            refusal,
            detail: Text::of(String::new(alloc)),
        }
    }

    // The refusal of a request at fault.
    pub(crate) fn of_fault(alloc: Global, fault: RequestFault) -> Result<Refused, AllocError>
        ensures { IfOk result (λ r. r ≡ record { refusal = fault_refusal fault; detail = fault_detail fault }) }
    {
        Ok(Refused {
            refusal: fault.refusal(),
            detail: Text::of(String::from_str(alloc, fault.detail())?),
        })
    }

    // The refusal of changes, of which a version has none.
    pub(crate) fn changes_off(alloc: Global, version: u64) -> Result<Refused, AllocError>
        ensures { IfOk result (λ r. r ≡ record { refusal = ChangesNotEnabled; detail = decimal version }) }
    {
        Ok(Refused {
            refusal: Refusal::ChangesNotEnabled,
            detail: Text::of(version.to_string(alloc)?),
        })
    }

    // The refusal of a version before the first one that is shared.
    pub(crate) fn before_first(alloc: Global, first: u64) -> Result<Refused, AllocError>
        ensures { IfOk result (λ r. r ≡ record { refusal = VersionNotShared; detail = decimal first }) }
    {
        let detail = Text::of(first.to_string(alloc)?);
        Ok(Refused {
            refusal: Refusal::VersionNotShared,
            detail,
        })
    }

    /// Which refusal.
    pub fn refusal(&self) -> Refusal
        ensures { result ≡ self.now.refusal }
    {
        self.refusal
    }

    /// What its message ends with.
    pub fn detail(&self) -> &str
        ensures value { result.now ≡ self.now.detail }
        ensures taken { IsTrue (takes_detail self.now.refusal self.now.detail) }
    {
        self.detail.as_str()
    }

    /// The body of the response that tells it. The error is want of memory.
    pub fn text(&self, alloc: Global) -> Result<Text, AllocError>
        ensures { IfOk result (λ t. t ≡ error_body self.now.refusal self.now.detail) }
    {
        error_text(alloc, self.refusal(), self.detail())
    }
}
