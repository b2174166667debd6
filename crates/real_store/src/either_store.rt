// One of two kinds of stores.
ghost use Rattle.std.specs.Prelude.{◌<◌, None, false, length};
ghost use Rattle.edge_core.specs.Handles.{fault_count};
ghost use Rattle.edge_core.specs.Objects.{Gets};

use edge_core::{FaultCount, Got, Listed, Measured, Name, Put, Store};
use std::alloc::Global;
use step_count::Steps;

#[derive(Drop)]
enum Side<A, B> {
    First(A),
    Second(B),
}

impl<A: Store, B: Store> Side<A, B> {
    fn get(&mut self, name: &Name, from: u64, out: &mut [u8]) -> Got
        requires { 0 < length out.old }
        ensures { Gets None None false name.now from result out.new }
    {
        match self {
            Side::First(store) => store.get(name, from, out),
            Side::Second(store) => store.get(name, from, out),
        }
    }

    fn size(&mut self, name: &Name) -> Measured {
        match self {
            Side::First(store) => store.size(name),
            Side::Second(store) => store.size(name),
        }
    }

    fn put_absent(&mut self, name: &Name, bytes: &[u8]) -> Put {
        match self {
            Side::First(store) => store.put_absent(name, bytes),
            Side::Second(store) => store.put_absent(name, bytes),
        }
    }

    fn list(&mut self, alloc: Global, dir: &Name) -> Listed {
        match self {
            Side::First(store) => store.list(alloc, dir),
            Side::Second(store) => store.list(alloc, dir),
        }
    }
}

/// A store of one of two kinds. It counts the calls that failed and the puts that stored by itself, and tells nothing of its objects.
#[derive(Drop)]
pub(crate) struct EitherStore<A, B> {
    side: Side<A, B>,
    pub(crate) faults: FaultCount,
    pub(crate) stored: Steps<Put>,
}

impl<A, B> EitherStore<A, B> {
    /// A store of the first kind, with counts of 0.
    pub(crate) fn first(store: A) -> EitherStore<A, B> {
        EitherStore {
            side: Side::First(store),
            faults: FaultCount::new(),
            stored: Steps::new(),
        }
    }

    /// A store of the second kind, with counts of 0.
    pub(crate) fn second(store: B) -> EitherStore<A, B> {
        EitherStore {
            side: Side::Second(store),
            faults: FaultCount::new(),
            stored: Steps::new(),
        }
    }
}

impl<A: Store, B: Store> Store for EitherStore<A, B> {
    ghost objects = { λ _. None };

    ghost alone = { λ _. false };

    ghost faults = { λ s. fault_count s.faults };

    ghost stored = { λ s. s.stored };

    fn get(&mut self, name: &Name, from: u64, out: &mut [u8]) -> Got {
        let got = self.side.get(name, from, out);
        self.faults.note(matches!(got, Got::Failed));
        got
    }

    fn size(&mut self, name: &Name) -> Measured {
        let measured = self.side.size(name);
        self.faults.note(matches!(measured, Measured::Failed));
        measured
    }

    fn put_absent(&mut self, name: &Name, bytes: &[u8]) -> Put {
        let put = self.side.put_absent(name, bytes);
        self.faults.note(matches!(put, Put::Failed));
        if put == Put::Stored {
            self.stored.tick();
        }
        put
    }

    fn lists_at_once(&self) -> bool {
        match &self.side {
            Side::First(store) => store.lists_at_once(),
            Side::Second(store) => store.lists_at_once(),
        }
    }

    fn list(&mut self, alloc: Global, dir: &Name) -> Listed {
        let listed = self.side.list(alloc, dir);
        self.faults.note(matches!(listed, Listed::Failed));
        listed
    }
}
