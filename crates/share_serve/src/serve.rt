// The loop of a session.
ghost use Rattle.std.specs.Prelude.{◌≡◌, ◌≤◌, ◌<◌, ◌+◌, ℕ, [], None, MatchOption, IfOk, OnErr, option_map, true, false};
ghost use Rattle.std.specs.Bool.{OnFalse, OnTrue};
ghost use Rattle.hub_calls.specs.Calls.{Adds, IsIdle};
ghost use Rattle.share_book.specs.Shown.{show};
ghost use Rattle.share_reply.specs.Replies.{seen_for, view_for};
ghost use Rattle.share_serve.specs.CallerViews.{by_call};
ghost use Rattle.share_serve.specs.Callers as by;
ghost use Rattle.share_serve.specs.Sends.{CutOnly, DeliveryCause, HasGoneOut};
ghost use Rattle.share_serve.specs.Sessions.{HasCause, IsSession};
ghost use Rattle.share_serve.specs.Sides.{held, side, state_at};
ghost use Rattle.share_serve.specs.Strangers.{Hears, HearsFor, IsStrangers, is_known};
ghost use Rattle.share_serve.specs.Turned.{IsGiven, IsTurned, RefusalEnds, Steps as Stepped, TurnCause, message, turned_of};
ghost use Rattle.share_serve.specs.Turns.{FollowsLink, Grew, Hold, LacksResponse, closes_after, is_head};
ghost use Rattle.share_request.specs.Requests.{request_in};
ghost use Rattle.share_request.specs.declared.asked.Request.{Request as Asked};
ghost use Rattle.share_serve.specs.declared.server.Server.{Server as ServerView};

use crate::caller::{By, Call, by_request, is_administrator, is_provider};
use crate::plan::{reply, send_whole};
use crate::response::{Delivery, refusal_response};
use crate::send::{Delivered, Sent, send_response};
use crate::server::Server;
use crate::session::Session;
use case_table::Route;
use edge_core::{Clock, Gate, Sink, Source, Store};
use http_message::head::Head;
use http_message::refusal::Flaw;
use http_wire::{Message, Wire};
use share_book::Seen;
use share_hub::{Hub, HubPass};
use share_reply::ask_of;
use share_request::{Caller, Request, caller_of, request_of};
use std::alloc::{AllocError, Global};
use std::sync::{Arc, Wait};
use step_count::Steps;

// The most requests of a connection.
const MOST: u64 = 10_000;

/// How a session ends. `served` is the number of requests whose responses were written whole.
#[derive(Clone, Copy, Debug, PartialEq, Eq)]
pub enum SessionEnd {
    /// The bytes ended between messages; or the connection is closed behind a request, by its sender's wish or as the 10,000th.
    Done { served: u64 },
    /// The bytes ended inside the message that begins at that place.
    Truncated { at: u64, served: u64 },
    /// The message that begins at that place was refused for that.
    BadMessage { at: u64, flaw: Flaw, served: u64 },
    /// A read failed: the source's count of faults rose.
    ReadFault { served: u64 },
    /// A write or a flush failed: the sink's count of faults rose.
    WriteFault { served: u64 },
    /// When so many bytes of an object were written behind a response's head, the store failed or had no more of them.
    BodyCut { served: u64, sent: u64 },
    /// Memory was wanting.
    NoMemory { served: u64 },
}

// What came of a request.
#[derive(Clone, Copy, Debug, PartialEq, Eq)]
pub(crate) enum Turned {
    // The response was written, and the session goes on.
    On,
    // The response was written, and the connection is closed.
    Last,
    WriteFault,
    NoMemory,
    // So many bytes of the body were written, and not all.
    BodyCut(u64),
}

fn turned_by(delivered: Delivered, closes: bool) -> Turned
    ensures { result ≡ turned_of delivered closes }
{
    match delivered {
        Delivered::Whole if closes => Turned::Last,
        Delivered::Whole => Turned::On,
        Delivered::WriteFault => Turned::WriteFault,
        Delivered::NoMemory => Turned::NoMemory,
        Delivered::Cut(sent) => Turned::BodyCut(sent),
    }
}

// Whether the connection is closed behind the request of that number.
fn closes_after(served: u64, closes: bool) -> bool
    requires { served < 10_000 }
    ensures { result ≡ closes_after served closes }
{
    closes || served + 1 == MOST
}

fn is_head(head: &Head) -> bool
    ensures { result ≡ is_head head.now }
{
    head.method.as_str() == "HEAD"
}

// The request that a message makes. It is shared, since a function that drops one of its own takes long to prove.
fn shared_request(alloc: Global, head: &Head, body: &[u8]) -> Result<Arc<Request>, AllocError>
    ensures { IfOk result (λ r. r.value ≡ request_in head.now body.now) }
{
    let request = request_of(alloc, head, body)?;
    Ok(Arc::new(alloc, request)?)
}

// Answers a message that is refused, and ends the session. What the pass has seen and the store stand there for those who call:
// nothing of them changes.
fn refuse<C: Clock, K: Sink>(
    alloc: Global,
    clock: &mut C,
    sink: &mut K,
    at: u64,
    flaw: Flaw,
    served: u64,
) -> SessionEnd
    ensures later { (K.faults sink.old ≤ K.faults sink.new) × (C.faults clock.old ≤ C.faults clock.new) }
    ensures cause { HasCause result 0 0 (K.faults sink.old) (K.faults sink.new) None 0 0 }
    ensures ends { (h : Hold) → RefusalEnds result at flaw served (side (C.coming clock.old) h (K.holds sink.old) (K.kept sink.old)) (side (C.coming clock.new) h (K.holds sink.new) (K.kept sink.new)) }
{
    let delivery = Delivery {
        moment: clock.now(),
        closes: true,
        to_head: false,
    };
    let Ok(response) = refusal_response(alloc, flaw.refusal(), "") else {
        return SessionEnd::NoMemory { served };
    };
    match send_response(alloc, sink, delivery, &response) {
        Sent::Whole => SessionEnd::BadMessage { at, flaw, served },
        Sent::WriteFault => SessionEnd::WriteFault { served },
        Sent::NoMemory => SessionEnd::NoMemory { served },
    }
}

impl<'a, R: Wait, G: Gate> Session<'a, R, G> {
    // What is seen for a request, at what the pass has seen then: what is shown of it is that of the view of whom the request asks for.
    fn look<L>(
        &self,
        pass: &mut HubPass,
        steps: &mut Steps<L>,
        request: &Request,
    ) -> Result<Option<Seen>, AllocError>
        requires cell { (pass.old.cell ≡ self.now.hub.now) × (pass.old.holds ≡ false) }
        ensures same { IsIdle pass.old pass.new }
        ensures added { Adds pass.old pass.new [] }
        ensures seen { IfOk result (λ s. option_map show s ≡ seen_for self.now.server.now.keys request.now (view_for self.now.server.now.keys request.now pass.new.seen)) }
    {
        match ask_of(self.alloc, &self.server.keys, request)? {
            Some(ask) => Ok(self.hub.look(self.rt, self.alloc, pass, &ask, steps)?.seen),
            None => Ok(None),
        }
    }

    // Answers a request of a provider or of the administrator.
    fn serve_call<W: Store, K: Sink>(
        &self,
        pass: &mut HubPass,
        store: &mut W,
        sink: &mut K,
        served: u64,
        delivery: Delivery,
        call: Call<'_>,
    ) -> Delivered
        requires cell { (pass.old.cell ≡ self.now.hub.now) × (pass.old.holds ≡ false) }
        requires dated { delivery.moment ≤ 253_402_300_799_999 }
        ensures grew { Grew (held W.objects W.alone W.faults W.stored pass.old store.old) (held W.objects W.alone W.faults W.stored pass.new store.new) }
        ensures later { K.faults sink.old ≤ K.faults sink.new }
        ensures given { (server : ServerView) (asked : Asked) → IsGiven result server asked (by_call call.entry) delivery (held W.objects W.alone W.faults W.stored pass.old store.old) (held W.objects W.alone W.faults W.stored pass.new store.new) (K.holds sink.old) (K.holds sink.new) }
        ensures cause { DeliveryCause result (W.objects store.old) (W.faults store.old) (W.faults store.new) (K.faults sink.old) (K.faults sink.new) }
        ensures out { HasGoneOut result (K.kept sink.new) }
        ensures uncut { CutOnly result ⊥ }
    {
        let caller = pass.number();
        let response = self.answer(pass, store, delivery.moment, call);
        self.gate.pass(self.rt, caller, served);
        let delivered = send_whole(self.alloc, sink, delivery, response);
        self.gate.done(self.rt, caller, served);
        delivered
    }

    // Answers a request that is known: from the view of whom it asks for, or by a call.
    fn serve_known<W: Store, K: Sink, L>(
        &self,
        pass: &mut HubPass,
        store: &mut W,
        sink: &mut K,
        steps: &mut Steps<L>,
        served: u64,
        delivery: Delivery,
        request: &Request,
    ) -> Delivered
        requires cell { (pass.old.cell ≡ self.now.hub.now) × (pass.old.holds ≡ false) }
        requires dated { delivery.moment ≤ 253_402_300_799_999 }
        ensures grew { Grew (held W.objects W.alone W.faults W.stored pass.old store.old) (held W.objects W.alone W.faults W.stored pass.new store.new) }
        ensures later { K.faults sink.old ≤ K.faults sink.new }
        ensures given { IsGiven result self.now.server.now request.now (by.by_request self.now.server.now request.now) delivery (held W.objects W.alone W.faults W.stored pass.old store.old) (held W.objects W.alone W.faults W.stored pass.new store.new) (K.holds sink.old) (K.holds sink.new) }
        ensures cause { DeliveryCause result (W.objects store.old) (W.faults store.old) (W.faults store.new) (K.faults sink.old) (K.faults sink.new) }
        ensures out { HasGoneOut result (K.kept sink.new) }
        ensures cut { CutOnly result (FollowsLink self.now.server.now request.now delivery.moment pass.new.seen) }
    {
        match by_request(self.server, request) {
            By::View => {
                let caller = pass.number();
                let Ok(seen) = self.look(pass, steps, request) else {
                    return Delivered::NoMemory;
                };
                self.gate.pass(self.rt, caller, served);
                let delivered = reply(
                    self.alloc,
                    &self.server.keys,
                    request,
                    &seen,
                    store,
                    sink,
                    delivery,
                );
                self.gate.done(self.rt, caller, served);
                delivered
            }
            By::Call(call) => { self.serve_call(pass, store, sink, served, delivery, call) }
        }
    }

    // Whether the token is one that the route wants. By a route that has no body to read nobody is sought.
    fn may_know(&self, pass: &mut HubPass, caller: &Caller) -> bool
        requires cell { (pass.old.cell ≡ self.now.hub.now) × (pass.old.holds ≡ false) }
        ensures same { IsIdle pass.old pass.new }
        ensures added { Adds pass.old pass.new [] }
        ensures heard { HearsFor caller.now.route pass.old pass.new }
        ensures unknown { OnFalse result (is_known self.now.server.now pass.new.seen caller.now ≡ false) }
    {
        match caller.route {
            Route::Commit | Route::Refresh => is_provider(self.server, &caller.digest),
            Route::Edit => is_administrator(self.server, &caller.digest),
            Route::Query => self.hub.knows(self.rt, pass, &caller.digest),
            _ => true,
        }
    }

    // Whether a request that has a body is a stranger's, by its head: then it is refused whatever the body says.
    fn is_stranger(&self, pass: &mut HubPass, head: &Head, body: &[u8]) -> Result<bool, AllocError>
        requires cell { (pass.old.cell ≡ self.now.hub.now) × (pass.old.holds ≡ false) }
        ensures same { IsIdle pass.old pass.new }
        ensures added { Adds pass.old pass.new [] }
        ensures heard { Hears head.now pass.old pass.new }
        ensures stranger { IfOk result (λ s. OnTrue s (IsStrangers self.now.server.now pass.new.seen head.now)) }
    {
        if body.is_empty() {
            return Ok(false);
        }
        match caller_of(self.alloc, head)? {
            Some(caller) => Ok(!self.may_know(pass, &caller)),
            None => Ok(false),
        }
    }

    // Answers the request that a head and a body make. A stranger's body isn't read as JSON.
    fn serve_read<W: Store, K: Sink, L>(
        &self,
        pass: &mut HubPass,
        head: &Head,
        body: &[u8],
        store: &mut W,
        sink: &mut K,
        steps: &mut Steps<L>,
        served: u64,
        delivery: Delivery,
    ) -> Result<Delivered, AllocError>
        requires cell { (pass.old.cell ≡ self.now.hub.now) × (pass.old.holds ≡ false) }
        requires dated { delivery.moment ≤ 253_402_300_799_999 }
        ensures grew { Grew (held W.objects W.alone W.faults W.stored pass.old store.old) (held W.objects W.alone W.faults W.stored pass.new store.new) }
        ensures later { K.faults sink.old ≤ K.faults sink.new }
        ensures given { IfOk result (λ d. IsGiven d self.now.server.now (request_in head.now body.now) (by.by_request self.now.server.now (request_in head.now body.now)) delivery (held W.objects W.alone W.faults W.stored pass.old store.old) (held W.objects W.alone W.faults W.stored pass.new store.new) (K.holds sink.old) (K.holds sink.new)) }
        ensures cause { IfOk result (λ d. DeliveryCause d (W.objects store.old) (W.faults store.old) (W.faults store.new) (K.faults sink.old) (K.faults sink.new)) }
        ensures out { IfOk result (λ d. HasGoneOut d (K.kept sink.new)) }
        ensures cut { IfOk result (λ d. CutOnly d (FollowsLink self.now.server.now (request_in head.now body.now) delivery.moment pass.new.seen)) }
        ensures lacks { OnErr result (LacksResponse self.now.server.now (request_in head.now body.now) delivery.moment (held W.objects W.alone W.faults W.stored pass.old store.old) (held W.objects W.alone W.faults W.stored pass.new store.new) × (K.holds sink.new ≡ K.holds sink.old)) }
    {
        let is_stranger = self.is_stranger(pass, head, body)?;
        if is_stranger {
            return Ok(self.serve_call(pass, store, sink, served, delivery, Call::Unauthenticated));
        }
        let request = shared_request(self.alloc, head, body)?;
        Ok(self.serve_known(pass, store, sink, steps, served, delivery, &request))
    }

    // Answers the request of that number.
    fn serve_request<W: Store, C: Clock, K: Sink, L>(
        &self,
        pass: &mut HubPass,
        store: &mut W,
        clock: &mut C,
        sink: &mut K,
        steps: &mut Steps<L>,
        served: u64,
        head: &Head,
        body: &[u8],
        closes: bool,
    ) -> Turned
        requires cell { (pass.old.cell ≡ self.now.hub.now) × (pass.old.holds ≡ false) }
        requires served { served < 10_000 }
        ensures grew { Grew (held W.objects W.alone W.faults W.stored pass.old store.old) (held W.objects W.alone W.faults W.stored pass.new store.new) }
        ensures later { (K.faults sink.old ≤ K.faults sink.new) × (C.faults clock.old ≤ C.faults clock.new) }
        ensures turned { (at : ℕ) → IsTurned result self.now.server.now served (message at head.now body.now closes) (side (C.coming clock.old) (held W.objects W.alone W.faults W.stored pass.old store.old) (K.holds sink.old) (K.kept sink.old)) (side (C.coming clock.new) (held W.objects W.alone W.faults W.stored pass.new store.new) (K.holds sink.new) (K.kept sink.new)) }
        ensures cause { TurnCause result (K.faults sink.old) (K.faults sink.new) (W.objects store.old) (W.faults store.old) (W.faults store.new) }
    {
        let moment = clock.now();
        let delivery = Delivery {
            moment,
            closes: closes_after(served, closes),
            to_head: is_head(head),
        };
        let answer = self.serve_read(pass, head, body, store, sink, steps, served, delivery);
        match answer {
            Ok(delivered) => turned_by(delivered, delivery.closes),
            Err(_) => Turned::NoMemory,
        }
    }

    // Reads the next message, and answers it: the session goes on, or this is its end.
    fn serve_next<W: Store, C: Clock, S: Source, K: Sink, L>(
        &self,
        pass: &mut HubPass,
        store: &mut W,
        clock: &mut C,
        source: &mut S,
        sink: &mut K,
        steps: &mut Steps<L>,
        wire: &mut Wire,
        served: u64,
    ) -> Option<SessionEnd>
        requires cell { (pass.old.cell ≡ self.now.hub.now) × (pass.old.holds ≡ false) }
        requires open { wire.old.is_open ≡ true }
        requires served { served < 10_000 }
        ensures grew { Grew (held W.objects W.alone W.faults W.stored pass.old store.old) (held W.objects W.alone W.faults W.stored pass.new store.new) }
        ensures later { (S.faults source.old ≤ S.faults source.new) × (K.faults sink.old ≤ K.faults sink.new) × (C.faults clock.old ≤ C.faults clock.new) }
        ensures goes { MatchOption result ((wire.new.is_open ≡ true) × (served + 1 < 10_000)) (λ e. HasCause e (S.faults source.old) (S.faults source.new) (K.faults sink.old) (K.faults sink.new) (W.objects store.old) (W.faults store.old) (W.faults store.new)) }
        ensures steps { Stepped self.now.server.now (state_at wire.old.buffer (S.left source.old) served (side (C.coming clock.old) (held W.objects W.alone W.faults W.stored pass.old store.old) (K.holds sink.old) (K.kept sink.old))) (state_at wire.new.buffer (S.left source.new) (served + 1) (side (C.coming clock.new) (held W.objects W.alone W.faults W.stored pass.new store.new) (K.holds sink.new) (K.kept sink.new))) result }
    {
        match wire.next(self.alloc, source) {
            Ok(
                Message::Request {
                    head,
                    body,
                    closes,
                    ..
                },
            ) => {
                match self.serve_request(
                    pass, store, clock, sink, steps, served, &head, &body, closes,
                ) {
                    Turned::On => None,
                    Turned::Last => Some(SessionEnd::Done { served: served + 1 }),
                    Turned::WriteFault => Some(SessionEnd::WriteFault { served }),
                    Turned::NoMemory => Some(SessionEnd::NoMemory { served }),
                    Turned::BodyCut(sent) => Some(SessionEnd::BodyCut { served, sent }),
                }
            }
            Ok(Message::End) => Some(SessionEnd::Done { served }),
            Ok(Message::Truncated { at }) => Some(SessionEnd::Truncated { at, served }),
            Ok(Message::Bad { at, flaw }) => Some(refuse(
                self.alloc, clock, sink, at, flaw, served,
            )),
            Ok(Message::ReadFault) => Some(SessionEnd::ReadFault { served }),
            Err(_) => Some(SessionEnd::NoMemory { served }),
        }
    }
}

/// Serves one connection to its end (RFC 9112, section 9): reads its requests, answers each, and writes the responses in order.
///
/// A recipient's request is answered from the recipient's own view, which has of each table what its binding shows, at a point of the
/// history that isn't before what the pass had seen; a link by that view and the store's object; a provider's or the administrator's
/// by a call of the hub. The clock is asked once for each request, and for a message that is refused, after it was read. `gate.pass`
/// stands between a request's look or call and its response, `gate.done` behind the response. A response's head tells the length of
/// its body. Of a body one line, one JSON text or 65,536 bytes of an object are held at a time. After each response the sink is
/// flushed.
///
/// The connection is closed behind a request whose sender closes it, behind the 10,000th, and behind the response to a message that
/// is refused, and the response says so.
pub fn serve_conn<R: Wait, W: Store, C: Clock, G: Gate, S: Source, K: Sink, L>(
    rt: &R,
    alloc: Global,
    hub: &Hub,
    server: &Server,
    pass: &mut HubPass,
    store: &mut W,
    clock: &mut C,
    gate: &G,
    source: &mut S,
    sink: &mut K,
    steps: &mut Steps<L>,
) -> SessionEnd
    requires cell { (pass.old.cell ≡ hub.now) × (pass.old.holds ≡ false) }
    ensures grew { Grew (held W.objects W.alone W.faults W.stored pass.old store.old) (held W.objects W.alone W.faults W.stored pass.new store.new) }
    ensures later { (S.faults source.old ≤ S.faults source.new) × (K.faults sink.old ≤ K.faults sink.new) × (C.faults clock.old ≤ C.faults clock.new) }
    ensures cause { HasCause result (S.faults source.old) (S.faults source.new) (K.faults sink.old) (K.faults sink.new) (W.objects store.old) (W.faults store.old) (W.faults store.new) }
    ensures session { IsSession server.now (S.left source.old) (S.left source.new) (side (C.coming clock.old) (held W.objects W.alone W.faults W.stored pass.old store.old) (K.holds sink.old) (K.kept sink.old)) (side (C.coming clock.new) (held W.objects W.alone W.faults W.stored pass.new store.new) (K.holds sink.new) (K.kept sink.new)) result }
{
    let session = Session {
        rt,
        alloc,
        hub,
        server,
        gate,
    };
    let mut wire = Wire::new(alloc);
    for served in 0..MOST {
        match session.serve_next(pass, store, clock, source, sink, steps, &mut wire, served) {
            None => {}
            Some(end) => return end,
        }
    }
    unreachable!()
}
