// The store of the program, as one small type.
ghost use Rattle.std.specs.Prelude.{None, false};
ghost use Rattle.edge_core.specs.Handles.{fault_count};

use crate::either_store::EitherStore;
use crate::place::FreshBucket;
use edge_core::{Got, Listed, Measured, Name, Put, Store};
use edge_std::FileStore;
use std::alloc::Global;
use std::sync::Wait;

/// A store of the folder that the program runs in, or of a bucket, for who can wait by `R`. It counts the calls that failed and the puts
/// that stored, and tells nothing of its objects.
#[derive(Drop)]
pub struct RealStore<R> {
    store: EitherStore<FileStore, FreshBucket<R>>,
}

impl<R> RealStore<R> {
    pub(crate) fn of_folder(store: FileStore) -> RealStore<R> {
        RealStore {
            store: EitherStore::first(store),
        }
    }

    pub(crate) fn of_bucket(store: FreshBucket<R>) -> RealStore<R> {
        RealStore {
            store: EitherStore::second(store),
        }
    }
}

impl<R: Wait> Store for RealStore<R> {
    ghost objects = { λ _. None };

    ghost alone = { λ _. false };

    ghost faults = { λ s. fault_count s.store.faults };

    ghost stored = { λ s. s.store.stored };

    fn get(&mut self, name: &Name, from: u64, out: &mut [u8]) -> Got {
        self.store.get(name, from, out)
    }

    fn size(&mut self, name: &Name) -> Measured {
        self.store.size(name)
    }

    fn put_absent(&mut self, name: &Name, bytes: &[u8]) -> Put {
        self.store.put_absent(name, bytes)
    }

    fn lists_at_once(&self) -> bool {
        self.store.lists_at_once()
    }

    fn list(&mut self, alloc: Global, dir: &Name) -> Listed {
        self.store.list(alloc, dir)
    }
}
