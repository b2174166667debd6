// Worlds, run.
ghost use Rattle.std.specs.Prelude.{◌≡◌, ◌++◌, ◌∷◌, [], List, None, OnOk, Some, IfOk, option_map, option_to_list};
ghost use Rattle.share_core.specs.Answers.{asks_by, chosen_replies, replies_of, replies_to};
ghost use Rattle.share_core.specs.Asks.{asked_by, asks_of};
ghost use Rattle.share_core.specs.Seen.{chosen_reply, is_chosen_by};
ghost use Rattle.share_reply.specs.Asking.{ask_of};
ghost use Rattle.share_world.specs.Standing.{Stands};
ghost use Rattle.share_world.specs.Worlds.{looked};
ghost use Rattle.share_world.specs.declared.event.Event.{Event as OneEvent};
ghost use Rattle.share_world.specs.declared.event.Event.TheVariants as event_is;

use crate::reply::{Reply, reply_by};
use json_tree::Millis;
use share_book::Seen;
use share_reply::{ReplyKeys, ask_of, plan_of};
use share_request::Request;
use share_world::{Event, World};
use std::alloc::{AllocError, Global};

// Whether what is seen is that recipient's, where one is given.
fn is_chosen(recipient: Option<&str>, seen: &Option<Seen>) -> bool
    ensures { result ≡ is_chosen_by (option_map (λ r. r.now) recipient.entry) seen.now }
{
    let Some(recipient) = recipient else {
        return true;
    };
    match seen {
        Some(seen) => seen.recipient.as_str() == recipient,
        None => false,
    }
}

// What is found for a request.
fn seen_by(
    alloc: Global,
    keys: &ReplyKeys,
    world: &mut World,
    request: &Request,
) -> Result<Option<Seen>, AllocError>
    ensures same { world.new ≡ world.old }
    ensures seen { (before : List OneEvent) → Stands world.old before → IfOk result (λ s. s ≡ looked before (ask_of keys.now request.now)) }
{
    let ask = ask_of(alloc, keys, request)?;
    world.see(alloc, &ask)
}

// The reply by what is seen, none where that isn't the recipient's.
fn chosen_reply(
    alloc: Global,
    keys: &ReplyKeys,
    request: &Request,
    now: Millis,
    recipient: Option<&str>,
    seen: &Option<Seen>,
) -> Result<Option<Reply>, AllocError>
    ensures { IfOk result (λ r. r ≡ chosen_reply keys.now (option_map (λ r. r.now) recipient.entry) request.now now seen.now) }
{
    if !is_chosen(recipient, seen) {
        return Ok(None);
    }
    let plan = plan_of(alloc, keys, request, now, seen)?;
    Ok(Some(reply_by(alloc, plan)?))
}

// The reply to a request, none where it isn't the recipient's.
fn reply_in(
    alloc: Global,
    keys: &ReplyKeys,
    world: &mut World,
    request: &Request,
    now: Millis,
    recipient: Option<&str>,
) -> Result<Option<Reply>, AllocError>
    ensures same { world.new ≡ world.old }
    ensures reply { (before : List OneEvent) → Stands world.old before → IfOk result (λ r. option_to_list r ≡ chosen_replies keys.now (option_map (λ r. r.now) recipient.entry) (option_to_list (asked_by keys.now before (event_is.Ask request.now now)))) }
{
    let seen = seen_by(alloc, keys, world, request)?;
    chosen_reply(alloc, keys, request, now, recipient, &seen)
}

// The reply to an event, none where it is none of the recipient's requests.
fn reply_to(
    alloc: Global,
    keys: &ReplyKeys,
    world: &mut World,
    event: &Event,
    recipient: Option<&str>,
) -> Result<Option<Reply>, AllocError>
    ensures same { world.new ≡ world.old }
    ensures reply { (before : List OneEvent) → Stands world.old before → IfOk result (λ r. option_to_list r ≡ chosen_replies keys.now (option_map (λ r. r.now) recipient.entry) (option_to_list (asked_by keys.now before event.now))) }
{
    match event {
        Event::Ask(request, now) => reply_in(alloc, keys, world, request, *now, recipient),
        Event::Commit(..) => Ok(None),
        Event::Edit(_) => Ok(None),
    }
}

// Adds a reply, if there is one.
fn push(replies: &mut Vec<Reply>, reply: Option<Reply>) -> Result<(), AllocError>
    ensures { OnOk result (replies.new.items ≡ replies.old.items ++ option_to_list reply) }
{
    match reply {
        Some(reply) => {
            replies.push(reply)?;
            Ok(())
        }
        None => Ok(()),
    }
}

// The replies to the recipient's requests, or to all where none is given.
fn replies_in(
    alloc: Global,
    keys: &ReplyKeys,
    events: &[Event],
    recipient: Option<&str>,
) -> Result<Vec<Reply>, AllocError>
    ensures { IfOk result (λ v. v.items ≡ chosen_replies keys.now (option_map (λ r. r.now) recipient.entry) (asks_of keys.now events.now)) }
{
    let mut world = World::new(alloc)?;
    let mut replies = Vec::new(alloc);
    for at in 0..events.len() {
        let before: &[Event] = &events[..at];
        let event = &events[at];
        let reply = reply_to(alloc, keys, &mut world, event, recipient)?;
        push(&mut replies, reply)?;
        world.take(alloc, before, event)?;
    }
    Ok(replies)
}

/// The replies to the requests of a world, in order. The error is want of memory.
///
/// What happens is taken in order. A commit to a location is kept, also before a table is bound there. Each request is answered by the
/// view that its token or its link finds at its point. The time is that of the events and of the replies, but for look-ups and for the
/// first binding of a location, of which there are 32 at most: the events before it are gone through once.
pub fn run(alloc: Global, keys: &ReplyKeys, events: &[Event]) -> Result<Vec<Reply>, AllocError>
    ensures { IfOk result (λ v. v.items ≡ replies_of keys.now events.now) }
{
    replies_in(alloc, keys, events, None)
}

/// The replies to one recipient's requests in two worlds. The error is want of memory.
pub fn two_worlds(
    alloc: Global,
    keys: &ReplyKeys,
    a: &[Event],
    b: &[Event],
    recipient: &str,
) -> Result<(Vec<Reply>, Vec<Reply>), AllocError>
    ensures first { IfOk result (λ w. w.0.items ≡ replies_to keys.now recipient.now a.now) }
    ensures second { IfOk result (λ w. w.1.items ≡ replies_to keys.now recipient.now b.now) }

    // Where it asks the same in both, at the same moments and of the same views, it is answered alike, links and tokens included.
    ensures alike { asks_by keys.now recipient.now a.now ≡ asks_by keys.now recipient.now b.now → IfOk result (λ w. w.0.items ≡ w.1.items) }
{
    let in_a = replies_in(alloc, keys, a, Some(recipient))?;
    let in_b = replies_in(alloc, keys, b, Some(recipient))?;
    Ok((in_a, in_b))
}
