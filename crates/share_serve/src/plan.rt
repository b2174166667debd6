// A recipient's reply, written as a response.
ghost use Rattle.std.specs.Prelude.{◌≡◌, ◌≤◌, ℕ, IfOk, Option, option_map};
ghost use Rattle.edge_core.specs.Objects.{Objects};
ghost use Rattle.log_store.specs.Loads.{Looked};
ghost use Rattle.share_book.specs.Shown.{show};
ghost use Rattle.share_book.specs.Views.{View};
ghost use Rattle.share_reply.specs.Bodies.{reply_of};
ghost use Rattle.share_reply.specs.Formats.{format_of};
ghost use Rattle.share_reply.specs.Chains.{NextIsSpelt};
ghost use Rattle.share_reply.specs.Replies.{answered, seen_for};
ghost use Rattle.share_serve.specs.Responses.{refusal_response as refusal_is};
ghost use Rattle.share_serve.specs.Sends.{CutOnly, DeliveryCause, HasGoneOut, WholeSent, Writes};
ghost use Rattle.share_serve.specs.Sides.{shelved};
ghost use Rattle.share_serve.specs.Turns.{IsFile, ReplyIs};

use crate::file::Sending;
use crate::response::{
    Delivery, Response, json_response, only_response, refusal_response, version_response,
};
use crate::send::{Delivered, of_sent, send_lines, send_response};
use edge_core::{Sink, Store};
use json_tree::Millis;
use share_book::Seen;
use share_reply::{Plan, Refused, ReplyKeys, plan_of};
use share_request::Request;
use std::alloc::{AllocError, Global};

/// Writes a response that is held whole, where there was memory for it.
pub(crate) fn send_whole<K: Sink>(
    alloc: Global,
    sink: &mut K,
    delivery: Delivery,
    response: Result<Response, AllocError>,
) -> Delivered
    requires dated { delivery.moment ≤ 253_402_300_799_999 }
    ensures later { K.faults sink.old ≤ K.faults sink.new }
    ensures sent { WholeSent result delivery response (K.holds sink.old) (K.holds sink.new) }
    ensures cause { (objects : Option Objects) (n m : ℕ) → DeliveryCause result objects n m (K.faults sink.old) (K.faults sink.new) }
    ensures out { HasGoneOut result (K.kept sink.new) }
    ensures uncut { CutOnly result ⊥ }
{
    match response {
        Ok(response) => of_sent(send_response(alloc, sink, delivery, &response)),
        Err(_) => Delivered::NoMemory,
    }
}

fn refused_response(alloc: Global, refused: &Refused) -> Result<Response, AllocError>
    ensures { IfOk result (λ r. r ≡ refusal_is refused.now) }
{
    refusal_response(alloc, refused.refusal(), refused.detail())
}

// Writes the response that a reply is.
fn send_plan<W: Store, K: Sink>(
    alloc: Global,
    store: &mut W,
    sink: &mut K,
    delivery: Delivery,
    plan: Plan<'_>,
) -> Delivered
    requires dated { delivery.moment ≤ 253_402_300_799_999 }
    ensures looked { Looked (W.objects store.old) (W.objects store.new) (W.alone store.old) (W.alone store.new) }
    ensures stored { W.stored store.new ≡ W.stored store.old }
    ensures later { (W.faults store.old ≤ W.faults store.new) × (K.faults sink.old ≤ K.faults sink.new) }
    ensures sent { Writes result delivery (λ r. ReplyIs plan.entry r (shelved W.objects W.alone W.faults W.stored store.old) (shelved W.objects W.alone W.faults W.stored store.new)) (shelved W.objects W.alone W.faults W.stored store.new ≡ shelved W.objects W.alone W.faults W.stored store.old) (K.holds sink.old) (K.holds sink.new) }
    ensures cause { DeliveryCause result (W.objects store.old) (W.faults store.old) (W.faults store.new) (K.faults sink.old) (K.faults sink.new) }
    ensures out { HasGoneOut result (K.kept sink.new) }
    ensures cut { CutOnly result (IsFile plan.entry) }
{
    match plan {
        Plan::Refused(refused) => {
            send_whole(alloc, sink, delivery, refused_response(alloc, &refused))
        }
        Plan::Only(method) => send_whole(alloc, sink, delivery, only_response(alloc, method)),
        Plan::Json(text) => send_whole(alloc, sink, delivery, Ok(json_response(text))),
        Plan::Version(version) => {
            send_whole(alloc, sink, delivery, Ok(version_response(alloc, version)))
        }
        Plan::Lines(version, format, lines) => of_sent(send_lines(
            alloc, sink, delivery, version, format, &lines,
        )),
        Plan::File(name, span) => {
            let sending = Sending {
                alloc,
                name: &name,
                delivery,
            };
            sending.send_file(store, sink, span)
        }
    }
}

/// Writes the response to a request, by what is shown of what was seen for it. The moment is the delivery's.
pub(crate) fn reply<W: Store, K: Sink>(
    alloc: Global,
    keys: &ReplyKeys,
    request: &Request,
    seen: &Option<Seen>,
    store: &mut W,
    sink: &mut K,
    delivery: Delivery,
) -> Delivered
    requires dated { delivery.moment ≤ 253_402_300_799_999 }
    ensures looked { Looked (W.objects store.old) (W.objects store.new) (W.alone store.old) (W.alone store.new) }
    ensures stored { W.stored store.new ≡ W.stored store.old }
    ensures later { (W.faults store.old ≤ W.faults store.new) × (K.faults sink.old ≤ K.faults sink.new) }
    ensures sent { (view : Option View) → option_map show seen.now ≡ seen_for keys.now request.now view → Writes result delivery (λ r. ReplyIs (reply_of keys.now (format_of request.now) (answered keys.now view delivery.moment request.now)) r (shelved W.objects W.alone W.faults W.stored store.old) (shelved W.objects W.alone W.faults W.stored store.new) × NextIsSpelt keys.now (answered keys.now view delivery.moment request.now)) (shelved W.objects W.alone W.faults W.stored store.new ≡ shelved W.objects W.alone W.faults W.stored store.old) (K.holds sink.old) (K.holds sink.new) }
    ensures cause { DeliveryCause result (W.objects store.old) (W.faults store.old) (W.faults store.new) (K.faults sink.old) (K.faults sink.new) }
    ensures out { HasGoneOut result (K.kept sink.new) }
    ensures cut { (view : Option View) → option_map show seen.now ≡ seen_for keys.now request.now view → CutOnly result (IsFile (reply_of keys.now (format_of request.now) (answered keys.now view delivery.moment request.now))) }
{
    let now = Millis::of_small(delivery.moment);
    match plan_of(alloc, keys, request, now, seen) {
        Ok(plan) => send_plan(alloc, store, sink, delivery, plan),
        Err(_) => Delivered::NoMemory,
    }
}
