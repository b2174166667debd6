// One request and its response.
ghost use Rattle.std.specs.Prelude.{◌≡◌, ◌≤◌, List, ℕ, Some, []};
ghost use Rattle.edge_core.specs.Faults.{Rose};
ghost use Rattle.share_client.specs.Exchanges.{Exchanges, Talked};
ghost use Rattle.share_client.specs.Steps.{Receives, Sends};
ghost use Rattle.share_client.specs.Sides.{counts, CausedBy, HasCause, Known, Later};

use crate::ClientFault;
use crate::target::Target;
use edge_core::{Flushing, Link, Opened, Sink, Source};
use http_wire::{Fields, Reply, Responses, write_all};
use std::alloc::Global;

// A response.
#[derive(Drop)]
pub(crate) struct Response {
    // Its status.
    pub(crate) status: u16,
    // The fields of its last head, in order.
    pub(crate) fields: Fields,
    // Its body, of at most 256 MiB.
    pub(crate) body: Vec<u8>,
}

// Writes the bytes, and hands on what the sink keeps back of them.
pub(crate) fn send<K: Sink>(output: &mut K, text: &[u8]) -> Result<(), ClientFault>
    ensures later { K.faults output.old ≤ K.faults output.new }
    ensures sends { Sends (K.holds output.old) (K.holds output.new) (K.faults output.old) (K.faults output.new) text.now result }
{
    match write_all(output, text) {
        Ok(()) => {}
        Err(_) => return Err(ClientFault::WriteFault),
    }
    match output.flush() {
        Flushing::Flushed => Ok(()),
        Flushing::Failed => Err(ClientFault::WriteFault),
    }
}

// Reads the response to a request, by whether that is HEAD.
fn receive<S: Source>(alloc: Global, input: &mut S, to_head: bool) -> Result<Response, ClientFault>
    ensures later { S.faults input.old ≤ S.faults input.new }
    ensures cause { CausedBy result ⊥ (Rose (S.faults input.old) (S.faults input.new)) ⊥ }
    ensures told { (bytes : List ℕ) → S.left input.old ≡ Some bytes → Receives to_head bytes result }
{
    match Responses::new(alloc).next(alloc, input, to_head)? {
        Reply::Response {
            at: _,
            status,
            fields,
            body,
        } => Ok(Response {
            status,
            fields,
            body,
        }),
        Reply::Bad { at } => Err(ClientFault::BadReply { at }),
        Reply::Truncated { at } => Err(ClientFault::BadReply { at }),
        Reply::ReadFault => Err(ClientFault::ReadFault),
    }
}

// Writes the request and reads the response.
fn talk<S: Source, K: Sink>(
    alloc: Global,
    input: &mut S,
    output: &mut K,
    text: &[u8],
    to_head: bool,
) -> Result<Response, ClientFault>
    ensures reads_later { S.faults input.old ≤ S.faults input.new }
    ensures writes_later { K.faults output.old ≤ K.faults output.new }
    ensures cause { CausedBy result ⊥ (Rose (S.faults input.old) (S.faults input.new)) (Rose (K.faults output.old) (K.faults output.new)) }
    ensures told { (bytes : List ℕ) → S.left input.old ≡ Some bytes → K.holds output.old ≡ Some [] → (written : List ℕ) × (K.holds output.new ≡ Some written) × Talked to_head text.now bytes written result }
{
    send(output, text)?;
    receive(alloc, input, to_head)
}

// Opens a line to the target, writes the request, reads the response, by whether the request is HEAD, and closes the line.
pub(crate) fn exchange<L: Link>(
    alloc: Global,
    link: &mut L,
    target: &Target,
    text: &str,
    to_head: bool,
) -> Result<Response, ClientFault>
    ensures later { Later (counts L.faults L.read_faults L.write_faults link.old) (counts L.faults L.read_faults L.write_faults link.new) }
    ensures cause { HasCause result (counts L.faults L.read_faults L.write_faults link.old) (counts L.faults L.read_faults L.write_faults link.new) }
    ensures told { Known L.coming L.closed link.old link.new (Exchanges to_head target.now text.now result) }
{
    match link.open(target.host.as_str(), target.port) {
        Opened::Line(mut input, mut output) => {
            let answer = talk(alloc, &mut input, &mut output, text.as_bytes(), to_head);
            link.close(input, output);
            answer
        }
        Opened::Failed => Err(ClientFault::PeerFault),
    }
}
