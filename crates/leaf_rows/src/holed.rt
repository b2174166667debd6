// A store whose listing lacks names that are there.
use edge_core::{Got, Listed, Measured, MemStore, Name, Put, Segments, Store};
use std::alloc::Global;

/// Objects in memory, of which a listing lacks those whose last segments stand in a text: as that of a folder may, to which others add
/// while it is read. It tells nothing of them.
#[derive(Drop)]
pub(crate) struct Holed {
    pub(crate) store: MemStore,
    pub(crate) hidden: String,
}

impl Store for Holed {
    ghost use Rattle.std.specs.Prelude.{None, false};
    ghost use Rattle.edge_core.specs.Memory.{store_faults, store_stored};

    ghost objects = { λ _. None };

    ghost alone = { λ _. false };

    ghost faults = { λ s. store_faults s.store };

    ghost stored = { λ s. store_stored s.store };

    fn get(&mut self, name: &Name, from: u64, out: &mut [u8]) -> Got {
        self.store.get(name, from, out)
    }

    fn size(&mut self, name: &Name) -> Measured {
        self.store.size(name)
    }

    fn put_absent(&mut self, name: &Name, bytes: &[u8]) -> Put {
        self.store.put_absent(name, bytes)
    }

    fn lists_at_once(&self) -> bool {
        false
    }

    fn list(&mut self, alloc: Global, dir: &Name) -> Listed {
        match self.store.list(alloc, dir) {
            Listed::Names(names) => {
                let mut items = names.into_items();
                items.retain(|segment| !self.hidden.contains(segment.as_str()));
                Listed::Names(Segments::of(items))
            }
            failed => failed,
        }
    }
}
