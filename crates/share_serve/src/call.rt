// Calls of the hub, made for providers and the administrator.
ghost use Rattle.std.specs.Prelude.{◌≡◌, ◌≤◌, false, ℕ, IfOk};
ghost use Rattle.share_request.specs.Faults.{fault_detail, fault_refusal};
ghost use Rattle.share_request.specs.declared.asked.Request.{Request};
ghost use Rattle.share_serve.specs.CallerViews.{by_call};
ghost use Rattle.share_serve.specs.Callers as by;
ghost use Rattle.share_serve.specs.Responses.{refusal_response as refusal_is};
ghost use Rattle.share_serve.specs.Sides.{held};
ghost use Rattle.share_serve.specs.Turned.{IsAnswered};
ghost use Rattle.share_serve.specs.Turns.{Grew};
ghost use Rattle.share_serve.specs.declared.server.Server.{Server};

use crate::caller::Call;
use crate::provider::{commit_response, edit_response, refresh_response};
use crate::response::{Response, refusal_response};
use crate::session::Session;
use case_table::Refusal;
use commit_check::Offer;
use edge_core::Store;
use log_actions::CommitTime;
use share_catalog::{Edit, Location};
use share_hub::HubPass;
use share_request::RequestFault;
use std::alloc::{AllocError, Global};
use std::sync::Wait;

// A moment that a clock told.
fn commit_time(moment: u64) -> CommitTime
    requires { moment ≤ 253_402_300_799_999 }
    ensures { result ≡ moment }
{
    match CommitTime::of(moment) {
        Some(time) => time,
        None => unreachable!(),
    }
}

fn fault_response(alloc: Global, fault: RequestFault) -> Result<Response, AllocError>
    ensures { IfOk result (λ r. r ≡ refusal_is (record { refusal = fault_refusal fault; detail = fault_detail fault })) }
{
    refusal_response(alloc, fault.refusal(), fault.detail())
}

impl<'a, R: Wait, G> Session<'a, R, G> {
    fn commit<W: Store>(
        &self,
        pass: &mut HubPass,
        store: &mut W,
        moment: u64,
        offer: &Offer,
    ) -> Result<Response, AllocError>
        requires cell { (pass.old.cell ≡ self.now.hub.now) × (pass.old.holds ≡ false) }
        requires dated { moment ≤ 253_402_300_799_999 }
        ensures grew { Grew (held W.objects W.alone W.faults W.stored pass.old store.old) (held W.objects W.alone W.faults W.stored pass.new store.new) }
        ensures answered { (server : Server) (asked : Request) → IsAnswered result server asked (by.commit offer.now) moment (held W.objects W.alone W.faults W.stored pass.old store.old) (held W.objects W.alone W.faults W.stored pass.new store.new) }
    {
        let answer = self.hub.commit(self.rt, self.alloc, pass, store, commit_time(moment), offer);
        commit_response(self.alloc, answer)
    }

    fn refresh<W: Store>(
        &self,
        pass: &mut HubPass,
        store: &mut W,
        location: &Location,
    ) -> Result<Response, AllocError>
        requires cell { (pass.old.cell ≡ self.now.hub.now) × (pass.old.holds ≡ false) }
        ensures grew { Grew (held W.objects W.alone W.faults W.stored pass.old store.old) (held W.objects W.alone W.faults W.stored pass.new store.new) }
        ensures answered { (server : Server) (asked : Request) (moment : ℕ) → IsAnswered result server asked (by.refresh location.now) moment (held W.objects W.alone W.faults W.stored pass.old store.old) (held W.objects W.alone W.faults W.stored pass.new store.new) }
    {
        let answer = self
            .hub
            .refresh(self.rt, self.alloc, pass, store, location.name());
        refresh_response(self.alloc, answer)
    }

    fn edit<W: Store>(
        &self,
        pass: &mut HubPass,
        store: &mut W,
        edit: &Edit,
    ) -> Result<Response, AllocError>
        requires cell { (pass.old.cell ≡ self.now.hub.now) × (pass.old.holds ≡ false) }
        ensures grew { Grew (held W.objects W.alone W.faults W.stored pass.old store.old) (held W.objects W.alone W.faults W.stored pass.new store.new) }
        ensures answered { (server : Server) (asked : Request) (moment : ℕ) → IsAnswered result server asked (by.edit edit.now) moment (held W.objects W.alone W.faults W.stored pass.old store.old) (held W.objects W.alone W.faults W.stored pass.new store.new) }
    {
        let answer = self.hub.edit(self.rt, self.alloc, pass, store, edit);
        edit_response(self.alloc, answer)
    }

    /// The response to a request of a provider or of the administrator: by a call of the hub, or a refusal before any. The error is
    /// want of memory, with what a call did before it.
    pub(crate) fn answer<W: Store>(
        &self,
        pass: &mut HubPass,
        store: &mut W,
        moment: u64,
        call: Call<'_>,
    ) -> Result<Response, AllocError>
        requires cell { (pass.old.cell ≡ self.now.hub.now) × (pass.old.holds ≡ false) }
        requires dated { moment ≤ 253_402_300_799_999 }
        ensures grew { Grew (held W.objects W.alone W.faults W.stored pass.old store.old) (held W.objects W.alone W.faults W.stored pass.new store.new) }
        ensures answered { (server : Server) (asked : Request) → IsAnswered result server asked (by_call call.entry) moment (held W.objects W.alone W.faults W.stored pass.old store.old) (held W.objects W.alone W.faults W.stored pass.new store.new) }
    {
        match call {
            Call::Commit(offer) => self.commit(pass, store, moment, offer),
            Call::Refresh(location) => self.refresh(pass, store, location),
            Call::Edit(change) => self.edit(pass, store, change),
            Call::Unauthenticated => refusal_response(self.alloc, Refusal::Unauthenticated, ""),
            Call::Fault(fault) => fault_response(self.alloc, fault),
        }
    }
}
