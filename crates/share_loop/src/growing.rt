// A sink in memory that has no limit.
ghost use Rattle.std.specs.Prelude.{◌≡◌, []};

use edge_core::{FaultCount, Flushing, Gave, Sink};
use std::alloc::Global;

/// A sink that keeps all that is written. A write fails only where memory is wanting.
#[derive(Drop)]
pub(crate) struct Growing {
    bytes: Vec<u8>,
    faults: FaultCount,
}

impl Growing {
    /// An empty sink.
    pub(crate) fn new(alloc: Global) -> Growing
        ensures { result.bytes.items ≡ [] }
    {
        Growing {
            bytes: Vec::new(alloc),
            faults: FaultCount::new(),
        }
    }

    /// What was written.
    pub(crate) fn into_bytes(self) -> Vec<u8>
        ensures { result.items ≡ self.bytes.items }
    {
        let Growing { bytes, faults: _ } = self;
        bytes
    }

    /// What was written since this was last asked.
    pub(crate) fn take(&mut self, alloc: Global) -> Vec<u8>
        ensures taken { result.items ≡ self.old.bytes.items }
        ensures left { self.new.bytes.items ≡ [] }
    {
        std::mem::replace(&mut self.bytes, Vec::new(alloc))
    }
}

impl Sink for Growing {
    ghost use Rattle.std.specs.Prelude.{[], Some};
    ghost use Rattle.edge_core.specs.Handles.{fault_count};

    ghost holds = { λ k. Some k.bytes.items };

    ghost kept = { λ _. [] };

    ghost faults = { λ k. fault_count k.faults };

    fn write(&mut self, bytes: &[u8]) -> Gave {
        match self.bytes.extend_from_slice(bytes) {
            Ok(()) => Gave::Bytes(bytes.len()),
            Err(_) => {
                self.faults.note(true);
                Gave::Failed
            }
        }
    }

    fn flush(&mut self) -> Flushing {
        Flushing::Flushed
    }
}
