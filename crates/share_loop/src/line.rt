// The ends of a line to a server in this process.
ghost use Rattle.std.specs.Prelude.{◌≡◌, nat_lt};
ghost use Rattle.edge_core.specs.Handles.{fault_count};

use crate::growing::Growing;
use crate::peer::Peer;
use edge_core::{Clock, FaultCount, Flushing, Gate, Gave, MemSource, Sink, Source, Store, Took};
use std::alloc::{AllocError, Global};
use std::sync::{Arc, Mutex, Wait};

/// A server that the lines to it share.
pub(crate) type SharedPeer<W, C, G> = Arc<Mutex<Peer<W, C, G>>, Global>;

/// What was said on one of the lines.
#[derive(Drop)]
pub(crate) struct Exchange {
    /// What was written to it.
    pub(crate) requests: Vec<u8>,
    /// What the server wrote.
    pub(crate) answer: Vec<u8>,
}

/// What was said on the lines that were served, in the order in which they were.
pub(crate) type Heard = Arc<Mutex<Vec<Exchange>>, Global>;

/// What was written to a line, which both of its ends share.
pub(crate) type Written = Arc<Mutex<Growing>, Global>;

/// What comes from the server. Its first read serves what was written to the line, and what the server wrote then is what is read.
/// A read fails only where memory is wanting. It tells nothing, and may wait.
#[derive(Drop)]
pub struct LoopSource<R, W, C, G> {
    rt: R,
    alloc: Global,
    peer: SharedPeer<W, C, G>,
    written: Written,
    heard: Heard,
    answer: Option<MemSource>,
    faults: FaultCount,
}

impl<R, W, C, G> LoopSource<R, W, C, G> {
    pub(crate) fn new(
        rt: R,
        alloc: Global,
        peer: SharedPeer<W, C, G>,
        written: Written,
        heard: Heard,
    ) -> LoopSource<R, W, C, G>
        ensures { fault_count result.faults ≡ 0 }
    {
        LoopSource {
            rt,
            alloc,
            peer,
            written,
            heard,
            answer: None,
            faults: FaultCount::new(),
        }
    }

    // Whether a read has failed.
    pub(crate) fn has_failed(&self) -> bool
        ensures { result ≡ nat_lt 0 (fault_count self.now.faults) }
    {
        self.faults.count() > 0
    }
}

// Serves what was written to the line, and gives what the server wrote. Both are kept.
fn answer<R: Wait, W: Store, C: Clock, G: Gate>(
    rt: &R,
    alloc: Global,
    peer: &SharedPeer<W, C, G>,
    written: &Written,
    heard: &Heard,
) -> Result<MemSource, AllocError> {
    let bytes = written.lock(rt).take(alloc);
    let requests = Vec::from_slice(alloc, &bytes)?;
    let answer = peer.lock(rt).serve(rt, alloc, bytes)?;
    let source = MemSource::new(alloc, Vec::from_slice(alloc, &answer)?);
    heard.lock(rt).push(Exchange { requests, answer })?;
    Ok(source)
}

impl<R: Wait, W: Store, C: Clock, G: Gate> Source for LoopSource<R, W, C, G> {
    ghost use Rattle.std.specs.Prelude.{None};
    ghost use Rattle.edge_core.specs.Handles.{fault_count};

    ghost left = { λ _. None };

    ghost faults = { λ s. fault_count s.faults };

    fn read(&mut self, out: &mut [u8]) -> Took {
        if self.answer.is_none() {
            match answer(&self.rt, self.alloc, &self.peer, &self.written, &self.heard) {
                Ok(source) => self.answer = Some(source),
                Err(_) => {
                    self.faults.note(true);
                    return Took::Failed;
                }
            }
        }
        match &mut self.answer {
            Some(source) => {
                let took = source.read(out);
                self.faults.note(matches!(took, Took::Failed));
                took
            }
            None => unreachable!(),
        }
    }
}

/// What goes to the server: it is kept until the line is read. A write fails only where memory is wanting. It tells nothing, and may
/// wait.
#[derive(Drop)]
pub struct LoopSink<R> {
    rt: R,
    written: Written,
    faults: FaultCount,
}

impl<R> LoopSink<R> {
    pub(crate) fn new(rt: R, written: Written) -> LoopSink<R>
        ensures { fault_count result.faults ≡ 0 }
    {
        LoopSink {
            rt,
            written,
            faults: FaultCount::new(),
        }
    }

    // Whether a write has failed.
    pub(crate) fn has_failed(&self) -> bool
        ensures { result ≡ nat_lt 0 (fault_count self.now.faults) }
    {
        self.faults.count() > 0
    }
}

impl<R: Wait> Sink for LoopSink<R> {
    ghost use Rattle.std.specs.Prelude.{[], None};
    ghost use Rattle.edge_core.specs.Handles.{fault_count};

    ghost holds = { λ _. None };

    ghost kept = { λ _. [] };

    ghost faults = { λ s. fault_count s.faults };

    fn write(&mut self, bytes: &[u8]) -> Gave {
        let gave = self.written.lock(&self.rt).write(bytes);
        self.faults.note(matches!(gave, Gave::Failed));
        gave
    }

    fn flush(&mut self) -> Flushing {
        Flushing::Flushed
    }
}
