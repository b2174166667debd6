// A store that several threads share.
use crate::{FaultCount, Got, Listed, Measured, Name, Put, Store};
use std::alloc::Global;
use std::sync::{Arc, Mutex, Wait};
use step_count::Steps;

/// A handle of a store that is shared under a lock. It keeps what it waits with, and counts of the faults and of the stored puts of its own calls.
/// It tells nothing of what the store holds, doesn't say that it is alone, and may wait.
#[derive(Drop)]
pub struct LockedStore<R, S> {
    rt: R,
    shared: Arc<Mutex<S>, Global>,
    faults: FaultCount,
    stored: Steps<Put>,
}

impl<R, S> LockedStore<R, S> {
    /// A handle of that store, with counts of 0.
    pub fn new(rt: R, shared: Arc<Mutex<S>, Global>) -> LockedStore<R, S> {
        LockedStore {
            rt,
            shared,
            faults: FaultCount::new(),
            stored: Steps::new(),
        }
    }
}

impl<R: Wait, S: Store> Store for LockedStore<R, S> {
    ghost use Rattle.std.specs.Prelude.{None, false};
    ghost use Rattle.edge_core.specs.Handles.{fault_count};

    ghost objects = { λ s. None };

    ghost alone = { λ s. false };

    ghost faults = { λ s. fault_count s.faults };

    ghost stored = { λ s. s.stored };

    fn get(&mut self, name: &Name, from: u64, out: &mut [u8]) -> Got {
        let got = self.shared.lock(&self.rt).get(name, from, out);
        self.faults.note(matches!(got, Got::Failed));
        got
    }

    fn size(&mut self, name: &Name) -> Measured {
        let measured = self.shared.lock(&self.rt).size(name);
        self.faults.note(matches!(measured, Measured::Failed));
        measured
    }

    fn put_absent(&mut self, name: &Name, bytes: &[u8]) -> Put {
        let put = self.shared.lock(&self.rt).put_absent(name, bytes);
        self.faults.note(matches!(put, Put::Failed));
        if put == Put::Stored {
            self.stored.tick();
        }
        put
    }

    fn lists_at_once(&self) -> bool {
        self.shared.lock(&self.rt).lists_at_once()
    }

    fn list(&mut self, alloc: Global, dir: &Name) -> Listed {
        let listed = self.shared.lock(&self.rt).list(alloc, dir);
        self.faults.note(matches!(listed, Listed::Failed));
        listed
    }
}
