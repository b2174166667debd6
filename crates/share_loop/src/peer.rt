// A server in this process.
ghost use Rattle.std.specs.Prelude.{◌≡◌, ℕ, IfOk, List, Option, Some, [], false};
ghost use Rattle.share_serve.specs.Sessions.{IsSession};
ghost use Rattle.share_serve.specs.Sides.{held, side};
ghost use Rattle.share_serve.specs.declared.serve.SessionEnd.{SessionEnd as Ended};

use crate::growing::Growing;
use edge_core::{Clock, Gate, MemSource, Store};
use share_hub::{Hub, HubPass};
use share_serve::{Server, SessionEnd, serve_conn};
use std::alloc::{AllocError, Global};
use std::sync::Wait;
use step_count::Steps;

// The work of a replay.
struct Replay;

// A hub, and a place there.
#[derive(Drop)]
struct Place {
    hub: Hub,
    pass: HubPass,
    ghost idle: { (pass.cell ≡ hub) × (pass.holds ≡ false) },
}

/// A server in this process: what it answers by, its hub and a place there, a store, a clock and a gate. It serves one line at a time.
#[derive(Drop)]
pub struct Peer<W, C, G> {
    server: Server,
    place: Place,
    store: W,
    clock: C,
    gate: G,
    steps: Steps<Replay>,
}

impl<W, C, G> Peer<W, C, G> {
    /// A server of those.
    pub fn new(
        hub: Hub,
        pass: HubPass,
        server: Server,
        store: W,
        clock: C,
        gate: G,
    ) -> Peer<W, C, G>
        requires { (pass.cell ≡ hub) × (pass.holds ≡ false) }
    {
        Peer {
            server,
            place: Place { hub, pass },
            store,
            clock,
            gate,
            steps: Steps::new(),
        }
    }
}

impl<W: Store, C: Clock, G: Gate> Peer<W, C, G> {
    // Serves the connection over which these bytes come, and gives what is written to it: the output of a session. The error is want of
    // memory.
    pub(crate) fn serve<R: Wait>(
        &mut self,
        rt: &R,
        alloc: Global,
        bytes: Vec<u8>,
    ) -> Result<Vec<u8>, AllocError>
        ensures { IfOk result (λ answer. (end : Ended) × (left : Option (List ℕ)) × IsSession self.old.server (Some bytes.items) left (side (C.coming self.old.clock) (held W.objects W.alone W.faults W.stored self.old.place.pass self.old.store) (Some []) []) (side (C.coming self.new.clock) (held W.objects W.alone W.faults W.stored self.new.place.pass self.new.store) (Some answer.items) []) end) }
    {
        let place = &mut self.place;
        let mut source = MemSource::new(alloc, bytes);
        let mut sink = Growing::new(alloc);
        let end = serve_conn(
            rt,
            alloc,
            &place.hub,
            &self.server,
            &mut place.pass,
            &mut self.store,
            &mut self.clock,
            &self.gate,
            &mut source,
            &mut sink,
            &mut self.steps,
        );
        match end {
            SessionEnd::NoMemory { .. } | SessionEnd::WriteFault { .. } => Err(AllocError),
            _ => Ok(sink.into_bytes()),
        }
    }
}
