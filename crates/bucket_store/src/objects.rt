// A part of an object, an object's size, and a put.
ghost use Rattle.std.specs.Prelude.{◌≡◌, ◌≤◌, ◌++◌, None, IfOk, length, string_bytes};
ghost use Rattle.bucket_store.specs.Bounds.{IsWithin};
ghost use Rattle.bucket_store.specs.Objects as spec;
ghost use Rattle.bucket_store.specs.Objects.{Follows, GetsPart, IsGot, LooksAt, PutsAt, Sizes};
ghost use Rattle.edge_core.specs.declared.store.Got.TheVariants as got;
ghost use Rattle.edge_core.specs.declared.store.Put.TheVariants.{Failed};
ghost use Rattle.bucket_store.specs.Stores.{next_number};
ghost use Rattle.bucket_store.specs.Sides.{Known, told_of};

use crate::asking::{Answer, ask_again, status_of};
use crate::ends::{ObjectEnd, end_told};
use crate::exchange::Response;
use crate::facts::{body_in, get_reply, length_told, look_of, take_from};
use crate::looks::{GetNext, SizeNext, get_next, size_next};
use crate::place::BucketPlace;
use crate::puts::{PutNext, looked, put_next, put_reply};
use crate::road::Road;
use edge_core::{Clock, Got, Link, Measured, Put};
use itoa::Buffer;
use signed_call::Call;
use std::alloc::{AllocError, Global};

/// The key of an object.
pub(crate) fn key_of(alloc: Global, place: &BucketPlace, name: &str) -> Result<String, AllocError>
    ensures { IfOk result (λ t. string_bytes t ≡ spec.key_of place.now name.now) }
{
    let mut key = String::from_str(alloc, place.prefix.as_str())?;
    key.push_str(name)?;
    Ok(key)
}

// The last of so many places.
fn last_of(from: u64, room: usize) -> u64
    ensures { result ≡ spec.last_of from room }
{
    from.saturating_add((room as u64).saturating_sub(1))
}

// What the answer to a get says.
fn got_of(alloc: Global, answer: &Answer, from: u64, last: u64, out: &mut [u8]) -> Got
    ensures within { IsWithin (length out.new) result }
    ensures room { length out.new ≡ length out.old }
    ensures got { IsGot answer.now.made from last answer.now.response result out.new }
{
    let reply = get_reply(alloc, &answer.response);
    match get_next(answer.made, from, last, &reply) {
        GetNext::Take(skip) => Got::Bytes(take_from(body_in(&answer.response), skip, out)),
        GetNext::Empty => Got::Bytes(0),
        GetNext::Absent => Got::Absent,
        GetNext::Again => Got::Failed,
        GetNext::Failed => Got::Failed,
    }
}

/// How a get of a part of an object ended.
#[derive(Drop)]
pub(crate) struct PartEnd {
    /// What the store answers.
    pub(crate) got: Got,
    /// The object's end, where the response told it.
    pub(crate) end: Option<ObjectEnd>,
}

fn part_failed() -> PartEnd
    ensures got { result.got ≡ got.Failed }
    ensures end { result.end ≡ None }
{
    PartEnd {
        got: Got::Failed,
        end: None,
    }
}

/// Reads a part of an object, from a place on, into the front of `out`.
pub(crate) fn get_part<V: Link, C: Clock>(
    alloc: Global,
    place: &BucketPlace,
    road: &mut Road<V, C>,
    name: &str,
    from: u64,
    out: &mut [u8],
) -> PartEnd
    ensures within { IsWithin (length out.new) result.got }
    ensures told { Known (told_of V.coming V.closed C.coming road.old) (told_of V.coming V.closed C.coming road.new) (GetsPart place.now name.now from result.got result.end out.new) }
{
    let Ok(key) = key_of(alloc, place, name) else {
        return part_failed();
    };
    let last = last_of(from, out.len());
    let call = Call::Get {
        name: key.as_str(),
        from,
        last,
    };
    let answer = ask_again(alloc, place, road, &call);
    PartEnd {
        got: got_of(alloc, &answer, from, last, out),
        end: end_told(alloc, name, &answer.response),
    }
}

fn measured_by(next: SizeNext) -> Measured
    ensures { result ≡ spec.measured_by next }
{
    match next {
        SizeNext::Size(size) => Measured::Size(size),
        SizeNext::Absent => Measured::Absent,
        SizeNext::Again | SizeNext::Failed => Measured::Failed,
    }
}

/// Asks the size of an object.
pub(crate) fn size_of<V: Link, C: Clock>(
    alloc: Global,
    place: &BucketPlace,
    road: &mut Road<V, C>,
    name: &str,
) -> Measured
    ensures { Known (told_of V.coming V.closed C.coming road.old) (told_of V.coming V.closed C.coming road.new) (Sizes place.now name.now result) }
{
    let Ok(key) = key_of(alloc, place, name) else {
        return Measured::Failed;
    };
    let call = Call::Head { name: key.as_str() };
    let answer = ask_again(alloc, place, road, &call);
    measured_by(size_next(
        answer.made,
        status_of(&answer.response),
        length_told(&answer.response),
    ))
}

/// The mark of a put: the store's, and the put's number.
pub(crate) fn mark_of(alloc: Global, store: &str, number: u64) -> Result<String, AllocError>
    ensures { IfOk result (λ t. string_bytes t ≡ spec.mark_of store.now number) }
{
    let mut mark = String::from_str(alloc, store)?;
    mark.push_str("-")?;
    mark.push_str(Buffer::new().format(number))?;
    Ok(mark)
}

// What a look at the object that has a put's name decides.
fn look<V: Link, C: Clock>(
    alloc: Global,
    place: &BucketPlace,
    road: &mut Road<V, C>,
    key: &str,
    mark: &str,
) -> Put
    ensures { Known (told_of V.coming V.closed C.coming road.old) (told_of V.coming V.closed C.coming road.new) (LooksAt place.now key.now mark.now result) }
{
    let answer = ask_again(alloc, place, road, &Call::Head { name: key });
    looked(look_of(mark, &answer.response))
}

// The store's answer, by what follows from the last response to a put.
fn decided<V: Link, C: Clock>(
    alloc: Global,
    place: &BucketPlace,
    road: &mut Road<V, C>,
    key: &str,
    mark: &str,
    next: PutNext,
) -> Put
    ensures { Known (told_of V.coming V.closed C.coming road.old) (told_of V.coming V.closed C.coming road.new) (Follows place.now key.now mark.now next result) }
{
    match next {
        PutNext::Done(put) => put,
        PutNext::Look => look(alloc, place, road, key, mark),
        PutNext::Again => Put::Failed,
    }
}

/// How a put ended.
#[derive(Drop)]
pub(crate) struct PutEnd {
    /// What the store answers.
    pub(crate) put: Put,
    /// The last response to the put itself.
    pub(crate) response: Option<Response>,
}

fn put_failed() -> PutEnd
    ensures { result.put ≡ Failed }
{
    PutEnd {
        put: Put::Failed,
        response: None,
    }
}

/// Stores an object of these bytes under a name that no object has, with that mark.
pub(crate) fn put_absent<V: Link, C: Clock>(
    alloc: Global,
    place: &BucketPlace,
    road: &mut Road<V, C>,
    mark: &str,
    name: &str,
    bytes: &[u8],
) -> PutEnd
    ensures { Known (told_of V.coming V.closed C.coming road.old) (told_of V.coming V.closed C.coming road.new) (PutsAt place.now mark.now name.now bytes.now result.put) }
{
    let Ok(key) = key_of(alloc, place, name) else {
        return put_failed();
    };
    let call = Call::PutAbsent {
        name: key.as_str(),
        mark,
        bytes,
    };
    let answer = ask_again(alloc, place, road, &call);
    let next = put_next(answer.made, put_reply(status_of(&answer.response)));
    let put = decided(alloc, place, road, key.as_str(), mark, next);
    PutEnd {
        put,
        response: answer.response,
    }
}

/// Stores an object with the next number's mark.
pub(crate) fn put_numbered<V: Link, C: Clock>(
    alloc: Global,
    place: &BucketPlace,
    road: &mut Road<V, C>,
    mark: &str,
    number: &mut u64,
    name: &str,
    bytes: &[u8],
) -> PutEnd
    ensures number { number.new ≡ next_number number.old }
    ensures rises { number.old ≤ number.new }
    ensures told { Known (told_of V.coming V.closed C.coming road.old) (told_of V.coming V.closed C.coming road.new) (PutsAt place.now (spec.mark_of mark.now number.new) name.now bytes.now result.put) }
{
    *number = number.saturating_add(1);
    let Ok(text) = mark_of(alloc, mark, *number) else {
        return put_failed();
    };
    put_absent(alloc, place, road, text.as_str(), name, bytes)
}
