// The standard streams, as a source and sinks. They tell nothing of their bytes.
ghost use Rattle.std.specs.Prelude.{[], None};

use edge_core::{Flushing, Gave, Sink, Source, Took};
use std::io::{Read, Write};

/// A stream that is read, and how often a read of it failed.
#[derive(Drop)]
pub struct StdSource<T: Read + Drop> {
    inner: T,
    faults: u64,
}

impl<T: Read + Drop> StdSource<T> {
    /// The stream, with a count of 0.
    pub fn new(inner: T) -> StdSource<T> {
        StdSource { inner, faults: 0 }
    }
}

impl<T: Read + Drop> Source for StdSource<T> {
    ghost left = { λ _. None };

    ghost faults = { λ s. s.faults };

    fn read(&mut self, out: &mut [u8]) -> Took {
        match self.inner.read(out) {
            Ok(0) => Took::End,
            Ok(n) => Took::Bytes(n),
            Err(_) => {
                self.faults = self.faults.saturating_add(1);
                Took::Failed
            }
        }
    }
}

/// A stream that is written, and how often a write to it failed. One that takes nothing counts
/// as failed.
#[derive(Drop)]
pub struct StdSink<T: Write + Drop> {
    inner: T,
    faults: u64,
}

impl<T: Write + Drop> StdSink<T> {
    /// The stream, with a count of 0.
    pub fn new(inner: T) -> StdSink<T> {
        StdSink { inner, faults: 0 }
    }
}

impl<T: Write + Drop> Sink for StdSink<T> {
    ghost holds = { λ _. None };

    ghost kept = { λ _. [] };

    ghost faults = { λ s. s.faults };

    fn write(&mut self, bytes: &[u8]) -> Gave {
        match self.inner.write(bytes) {
            Ok(n) if n > 0 => Gave::Bytes(n),
            _ => {
                self.faults = self.faults.saturating_add(1);
                Gave::Failed
            }
        }
    }

    fn flush(&mut self) -> Flushing {
        match self.inner.flush() {
            Ok(()) => Flushing::Flushed,
            Err(_) => {
                self.faults = self.faults.saturating_add(1);
                Flushing::Failed
            }
        }
    }
}
