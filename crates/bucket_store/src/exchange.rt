// One request to a bucket and its response, on a line of its own.
ghost use Rattle.std.specs.Prelude.{◌≡◌, ◌++◌, ℕ, List, [], Option, Some};
ghost use Rattle.bucket_store.specs.Exchanges.{Exchanges, Heard, Wrote};
ghost use Rattle.bucket_store.specs.Sides.{Known, told_by};

use crate::place::BucketPlace;
use edge_core::{Flushing, Link, Opened, Sink, Source};
use http_wire::{Fields, Reply, Responses, write_all};
use std::alloc::Global;

// A response.
#[derive(Drop)]
pub(crate) struct Response {
    // Its status.
    pub(crate) status: u16,
    // The fields of its last head, in order.
    pub(crate) fields: Fields,
    // Its body, of at most 256 MiB.
    pub(crate) body: Vec<u8>,
}

// Writes a request, and hands on what the sink keeps back of it.
fn send<K: Sink>(output: &mut K, head: &[u8], body: &[u8])
    ensures { K.holds output.old ≡ Some [] → (written : List ℕ) × (K.holds output.new ≡ Some written) × Wrote (head.now ++ body.now) written (K.faults output.new) }
{
    match write_all(output, head) {
        Ok(()) => {}
        Err(_) => return,
    }
    match write_all(output, body) {
        Ok(()) => {}
        Err(_) => return,
    }
    match output.flush() {
        Flushing::Flushed | Flushing::Failed => {}
    }
}

// Reads the response to a request; none where it doesn't come whole, or memory is wanting.
fn receive<S: Source>(alloc: Global, input: &mut S, to_head: bool) -> Option<Response>
    ensures { (bytes : List ℕ) → S.left input.old ≡ Some bytes → Heard to_head bytes result }
{
    match Responses::new(alloc).next(alloc, input, to_head) {
        Ok(
            Reply::Response {
                at: _,
                status,
                fields,
                body,
            },
        ) => Some(Response {
            status,
            fields,
            body,
        }),
        Ok(_) => None,
        Err(_) => None,
    }
}

// A server may answer before it read all of a request, so an answer is looked for in any case.
fn talk<S: Source, K: Sink>(
    alloc: Global,
    input: &mut S,
    output: &mut K,
    head: &[u8],
    body: &[u8],
    to_head: bool,
) -> Option<Response>
    ensures heard { (bytes : List ℕ) → S.left input.old ≡ Some bytes → Heard to_head bytes result }
    ensures wrote { K.holds output.old ≡ Some [] → (written : List ℕ) × (K.holds output.new ≡ Some written) × Wrote (head.now ++ body.now) written (K.faults output.new) }
{
    send(output, head, body);
    receive(alloc, input, to_head)
}

/// Opens a line to the bucket's address, writes the request, reads the response, by whether the request is HEAD, and closes the line. There
/// is none where the line is lost before the response is whole, or memory is wanting.
pub(crate) fn exchange<L: Link>(
    alloc: Global,
    link: &mut L,
    place: &BucketPlace,
    head: &[u8],
    body: &[u8],
    to_head: bool,
) -> Option<Response>
    ensures { (moments : Option (List ℕ)) → Known (told_by (L.coming link.old) (L.closed link.old) moments) (told_by (L.coming link.new) (L.closed link.new) moments) (Exchanges place.now to_head (head.now ++ body.now) result) }
{
    match link.open(place.address.as_str(), place.port) {
        Opened::Line(mut input, mut output) => {
            let answer = talk(alloc, &mut input, &mut output, head, body, to_head);
            link.close(input, output);
            answer
        }
        Opened::Failed => None,
    }
}
