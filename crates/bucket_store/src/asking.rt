// Requests of a call, one or more.
ghost use Rattle.std.specs.Prelude.{◌≡◌};
ghost use Rattle.bucket_store.specs.Exchanges.{Asks};
ghost use Rattle.bucket_store.specs.Exchanges as asked;
ghost use Rattle.bucket_store.specs.Sides.{Known, told_of};
ghost use Rattle.bucket_store.specs.Tries.{Asked};
ghost use Rattle.bucket_store.specs.Tries as spec;

use crate::exchange::{Response, exchange};
use crate::looks::is_passing;
use crate::place::BucketPlace;
use crate::puts::{MOST_TRIES, PutNext, put_next, put_reply};
use crate::road::Road;
use edge_core::{Clock, Link};
use signed_call::{Call, head_text, stamp_of};
use std::alloc::Global;

/// What came back for a call.
#[derive(Drop)]
pub(crate) struct Answer {
    /// How many requests were made, 1 to 3.
    pub(crate) made: u32,
    /// The response to the last of them; none where the line was lost, or memory was wanting.
    pub(crate) response: Option<Response>,
}

/// The status; none where there is no response.
pub(crate) fn status_of(response: &Option<Response>) -> Option<u16>
    ensures { result ≡ spec.status_of response.now }
{
    match response {
        Some(response) => Some(response.status),
        None => None,
    }
}

fn is_head(call: &Call<'_>) -> bool
    ensures { result ≡ asked.is_head call.now }
{
    match call {
        Call::Head { .. } => true,
        _ => false,
    }
}

fn says_again(next: PutNext) -> bool
    ensures { result ≡ spec.says_again next }
{
    match next {
        PutNext::Again => true,
        _ => false,
    }
}

fn is_again(call: &Call<'_>, made: u32, status: Option<u16>) -> bool
    ensures { result ≡ spec.is_again call.now made status }
{
    match call {
        Call::PutAbsent { .. } => says_again(put_next(made, put_reply(status))),
        _ => is_passing(status) && made < MOST_TRIES,
    }
}

// Whether the `made`-th request of a call is followed by another, by what came back for it.
fn goes_on(call: &Call<'_>, made: u32, response: &Option<Response>) -> bool
    ensures { result ≡ spec.is_again call.now made (spec.status_of response.now) }
{
    is_again(call, made, status_of(response))
}

// Asks a call once. There is no response where the line is lost, or memory is wanting.
fn ask<V: Link, C: Clock>(
    alloc: Global,
    place: &BucketPlace,
    road: &mut Road<V, C>,
    call: &Call<'_>,
) -> Option<Response>
    ensures { Known (told_of V.coming V.closed C.coming road.old) (told_of V.coming V.closed C.coming road.new) (Asks place.now call.now result) }
{
    let stamp = stamp_of(road.clock.now());
    let Ok(head) = head_text(alloc, &place.key, &place.bucket, &stamp, call) else {
        return None;
    };
    exchange(
        alloc,
        &mut road.way,
        place,
        head.as_str().as_bytes(),
        call.body(),
        is_head(call),
    )
}

/// Asks a call, and again as long as what came back says so, three times in all.
pub(crate) fn ask_again<V: Link, C: Clock>(
    alloc: Global,
    place: &BucketPlace,
    road: &mut Road<V, C>,
    call: &Call<'_>,
) -> Answer
    ensures { Known (told_of V.coming V.closed C.coming road.old) (told_of V.coming V.closed C.coming road.new) (Asked place.now call.now result.made result.response) }
{
    let first = ask(alloc, place, road, call);
    if !goes_on(call, 1, &first) {
        return Answer {
            made: 1,
            response: first,
        };
    }
    let second = ask(alloc, place, road, call);
    if !goes_on(call, 2, &second) {
        return Answer {
            made: 2,
            response: second,
        };
    }
    let third = ask(alloc, place, road, call);
    Answer {
        made: 3,
        response: third,
    }
}
