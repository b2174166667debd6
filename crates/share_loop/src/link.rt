// A link to a server in this process.
ghost use Rattle.std.specs.Prelude.{◌≡◌, IfOk};
ghost use Rattle.edge_core.specs.Handles.{fault_count};

use crate::growing::Growing;
use crate::line::{Exchange, Heard, LoopSink, LoopSource, SharedPeer};
use crate::peer::Peer;
use edge_core::{Clock, FaultCount, Gate, Link, Opened, Store};
use std::alloc::{AllocError, Global};
use std::collections::VecDeque;
use std::sync::{Arc, Mutex, Wait};

/// Requests that come to the server from elsewhere, and when.
#[derive(Drop)]
pub struct Planned {
    /// The number of the line, from 1, before whose opening they are served.
    pub line: u64,
    /// The bytes of their connection. What is answered is dropped.
    pub requests: Vec<u8>,
}

// The lines that were opened, and what is planned before those that come.
#[derive(Drop)]
struct Plan {
    opened: u64,
    planned: VecDeque<Planned>,
}

impl Plan {
    // The next requests that are planned before the next line.
    fn next_due(&mut self) -> Option<Vec<u8>> {
        match self.planned.front() {
            Some(next) if next.line <= self.opened.saturating_add(1) => {}
            _ => return None,
        }
        match self.planned.pop_front() {
            Some(Planned { line: _, requests }) => Some(requests),
            None => None,
        }
    }
}

/// A link to a server in this process, whatever the host and the port. What is written to a line is kept, and served as one
/// connection when the line is first read. Requests of others can be planned, which are served before the lines of given numbers
/// are opened, in their order: one that stands behind a later one comes with that one. What was said on the lines is kept.
///
/// It keeps what it waits with, tells nothing, and may wait: while a line is served, other lines wait. It fails only where memory
/// is wanting; a line that couldn't be opened has no number, and what was served before it isn't served again.
#[derive(Drop)]
pub struct LoopLink<R, W, C, G> {
    rt: R,
    alloc: Global,
    peer: SharedPeer<W, C, G>,
    plan: Plan,
    heard: Heard,
    out: bool,
    faults: FaultCount,
    read_faults: FaultCount,
    write_faults: FaultCount,
}

impl<R: Drop, W: Drop, C: Drop, G: Drop> LoopLink<R, W, C, G> {
    /// A link to that server. The error is want of memory.
    pub fn new(
        rt: R,
        alloc: Global,
        peer: Peer<W, C, G>,
        planned: Vec<Planned>,
    ) -> Result<LoopLink<R, W, C, G>, AllocError> {
        Ok(LoopLink {
            rt,
            alloc,
            peer: Arc::new(alloc, Mutex::new(peer))?,
            plan: Plan {
                opened: 0,
                planned: VecDeque::from(planned),
            },
            heard: Arc::new(alloc, Mutex::new(Vec::new(alloc)))?,
            out: false,
            faults: FaultCount::new(),
            read_faults: FaultCount::new(),
            write_faults: FaultCount::new(),
        })
    }
}

impl<R: Wait, W, C, G> LoopLink<R, W, C, G> {
    // What was said on its lines since this was last asked, in order.
    pub(crate) fn take_heard(&self) -> Vec<Exchange> {
        std::mem::replace(&mut *self.heard.lock(&self.rt), Vec::new(self.alloc))
    }
}

// Serves what is planned before the next line.
fn serve_planned<R: Wait, W: Store, C: Clock, G: Gate>(
    rt: &R,
    alloc: Global,
    peer: &SharedPeer<W, C, G>,
    plan: &mut Plan,
) -> Result<(), AllocError> {
    for _ in 0..plan.planned.len() {
        match plan.next_due() {
            Some(requests) => {
                let _dropped = peer.lock(rt).serve(rt, alloc, requests)?;
            }
            None => return Ok(()),
        }
    }
    Ok(())
}

// Opens the next line.
fn open_next<R: Wait + Copy, W: Store + Drop, C: Clock + Drop, G: Gate + Drop>(
    rt: R,
    alloc: Global,
    peer: &SharedPeer<W, C, G>,
    plan: &mut Plan,
    heard: &Heard,
) -> Result<(LoopSource<R, W, C, G>, LoopSink<R>), AllocError>
    ensures { IfOk result (λ line. (fault_count line.0.faults ≡ 0) × (fault_count line.1.faults ≡ 0)) }
{
    serve_planned(&rt, alloc, peer, plan)?;
    let written = Arc::new(alloc, Mutex::new(Growing::new(alloc)))?;
    let sink = LoopSink::new(rt, Arc::try_clone(&written)?);
    let source = LoopSource::new(
        rt,
        alloc,
        Arc::try_clone(peer)?,
        written,
        Arc::try_clone(heard)?,
    );
    plan.opened = plan.opened.saturating_add(1);
    Ok((source, sink))
}

impl<R: Wait + Copy, W: Store + Drop, C: Clock + Drop, G: Gate + Drop> Link
    for LoopLink<R, W, C, G> {
    ghost use Rattle.std.specs.Prelude.{None};
    ghost use Rattle.edge_core.specs.Handles.{fault_count};

    type In = LoopSource<R, W, C, G>;

    type Out = LoopSink<R>;

    ghost coming = { λ _. None };

    ghost closed = { λ _. None };

    ghost out = { λ l. l.out };

    ghost faults = { λ l. fault_count l.faults };

    ghost read_faults = { λ l. fault_count l.read_faults };

    ghost write_faults = { λ l. fault_count l.write_faults };

    fn open(&mut self, _host: &str, _port: u16) -> Opened<LoopSource<R, W, C, G>, LoopSink<R>> {
        let opened = open_next(self.rt, self.alloc, &self.peer, &mut self.plan, &self.heard);
        let Ok((input, output)) = opened else {
            self.faults.note(true);
            return Opened::Failed;
        };
        self.out = true;
        Opened::Line(input, output)
    }

    fn close(&mut self, input: LoopSource<R, W, C, G>, output: LoopSink<R>) {
        self.read_faults.note(input.has_failed());
        self.write_faults.note(output.has_failed());
    }
}
