// A store over another that is far away.
use crate::absences::Absences;
use edge_core::{Clock, Got, Listed, Measured, Name, Put, Store};
use std::alloc::Global;
use std::sync::{Arc, Mutex, Wait};

/// A handle of a store that passes each call on, but for a look for a record of the catalogue or a version of a table that one of those who
/// share its absences found absent a short time ago: it answers `Absent` without asking. So who looks for what others added finds it late,
/// by that time at most; all else is as the store that it passes on to has it. What one of the handles put, or tried to, is always asked for.
///
/// It tells nothing of the objects, and doesn't say that it is alone. It may wait for the lock of the absences, never for the store under it.
#[derive(Drop)]
pub struct FreshStore<R, S, C> {
    rt: R,
    alloc: Global,
    absences: Arc<Mutex<Absences>, Global>,
    store: S,
    clock: C,
}

// Whether others may add an object under that name that a server looks for again and again: a record of the catalogue, or a version.
fn is_looked_for(name: &str) -> bool {
    name.starts_with("_share_log/")
        || name.starts_with("_delta_log/")
        || name.contains("/_delta_log/")
}

impl<R, S, C> FreshStore<R, S, C> {
    /// A handle of that store, with these absences, dated by that clock.
    pub fn new(
        rt: R,
        alloc: Global,
        absences: Arc<Mutex<Absences>, Global>,
        store: S,
        clock: C,
    ) -> FreshStore<R, S, C> {
        FreshStore {
            rt,
            alloc,
            absences,
            store,
            clock,
        }
    }
}

impl<R: Wait, S: Store, C: Clock> FreshStore<R, S, C> {
    ghost use Rattle.std.specs.Prelude.{◌≡◌};

    // The moment at which a look for the name begins, or none where it was found absent a short time ago.
    fn begins(&mut self, name: &Name) -> Option<u64>
        ensures store { self.new.store ≡ self.old.store }
    {
        let now = self.clock.now();
        if is_looked_for(name.as_str()) && self.absences.lock(&self.rt).is_fresh(name, now) {
            return None;
        }
        Some(now)
    }

    // A look that began at that moment found nothing.
    fn found_absent(&self, name: &Name, began: u64) {
        if is_looked_for(name.as_str()) {
            self.absences.lock(&self.rt).note(self.alloc, name, began);
        }
    }
}

impl<R: Wait, S: Store, C: Clock> Store for FreshStore<R, S, C> {
    ghost use Rattle.std.specs.Prelude.{None, false};

    ghost objects = { λ _. None };

    ghost alone = { λ _. false };

    ghost faults = { λ s. S.faults s.store };

    ghost stored = { λ s. S.stored s.store };

    fn get(&mut self, name: &Name, from: u64, out: &mut [u8]) -> Got {
        let Some(began) = self.begins(name) else {
            return Got::Absent;
        };
        let got = self.store.get(name, from, out);
        if got == Got::Absent {
            self.found_absent(name, began);
        }
        got
    }

    fn size(&mut self, name: &Name) -> Measured {
        let Some(began) = self.begins(name) else {
            return Measured::Absent;
        };
        let measured = self.store.size(name);
        if measured == Measured::Absent {
            self.found_absent(name, began);
        }
        measured
    }

    fn put_absent(&mut self, name: &Name, bytes: &[u8]) -> Put {
        if is_looked_for(name.as_str()) {
            self.absences.lock(&self.rt).tried(self.alloc, name);
        }
        self.store.put_absent(name, bytes)
    }

    fn lists_at_once(&self) -> bool {
        self.store.lists_at_once()
    }

    fn list(&mut self, alloc: Global, dir: &Name) -> Listed {
        self.store.list(alloc, dir)
    }
}
