// A source in memory.
ghost use Rattle.std.specs.Prelude.{◌≡◌, ◌≤◌, [], length};

use crate::calls::Calls;
use crate::pieces::{copy_front, piece};
use crate::{Source, Took};
use std::alloc::Global;

/// A source of given bytes. The sizes of its pieces and the numbers of the calls that are to fail can be given; without
/// them it gives all that fits and never fails.
#[derive(Drop)]
pub struct MemSource {
    bytes: Vec<u8>,
    at: usize,
    sizes: Vec<usize>,
    calls: Calls,
    ghost within: { at ≤ length bytes.items },
}

impl MemSource {
    ghost use Rattle.edge_core.specs.Calls.{calls_failed, IsFresh, Plans};
    ghost use Rattle.edge_core.specs.Memory.{source_left, source_sizes, source_calls};

    /// A source of those bytes.
    pub fn new(alloc: Global, bytes: Vec<u8>) -> MemSource
        ensures left { source_left result ≡ bytes.items }
        ensures sizes { source_sizes result ≡ [] }
        ensures calls { IsFresh (source_calls result) }
    {
        MemSource {
            bytes,
            at: 0,
            sizes: Vec::new(alloc),
            calls: Calls::new(alloc),
        }
    }

    /// The source with those sizes of pieces: the read of number n, counted from 0, gives at most as many bytes as the size
    /// at place n says, and at least one. A read without a size gives all that fits.
    pub fn with_sizes(mut self, sizes: Vec<usize>) -> MemSource
        ensures left { source_left result ≡ source_left self }
        ensures sizes { source_sizes result ≡ sizes.items }
        ensures calls { source_calls result ≡ source_calls self }
    {
        self.sizes = sizes;
        self
    }

    /// The source where the calls of those numbers fail, counted from 0.
    pub fn with_fails(mut self, fails: Vec<u64>) -> MemSource
        ensures left { source_left result ≡ source_left self }
        ensures sizes { source_sizes result ≡ source_sizes self }
        ensures calls { Plans (source_calls self) (source_calls result) fails.items }
    {
        self.calls.set_fails(fails);
        self
    }

    /// How often it has failed.
    pub fn faults(&self) -> u64
        ensures { result ≡ calls_failed (source_calls self.now) }
    {
        self.calls.faults()
    }
}

impl Source for MemSource {
    ghost use Rattle.std.specs.Prelude.{◌≡◌, ◌<◌, Some, length};
    ghost use Rattle.edge_core.specs.Faults.{Cause};
    ghost use Rattle.edge_core.specs.Flow.{Reads, failed_read};
    ghost use Rattle.edge_core.specs.Calls.{due, calls_failed, Counts};
    ghost use Rattle.edge_core.specs.Memory.{source_left, source_sizes, source_calls, IsCut};

    ghost left = { λ s. Some (source_left s) };

    ghost faults = { λ s. calls_failed (source_calls s) };

    fn read(&mut self, out: &mut [u8]) -> Took
        requires { 0 < length out.old }
        ensures bytes { Reads (Some (source_left self.old)) (Some (source_left self.new)) result out.new }
        ensures cause { Cause (calls_failed (source_calls self.old)) (calls_failed (source_calls self.new)) (failed_read result) }
        ensures size { IsCut self.old (length out.old) result }
        ensures fails { failed_read result ≡ due (source_calls self.old) }
        ensures counts { Counts (source_calls self.old) (source_calls self.new) (failed_read result) }
        ensures sizes { source_sizes self.new ≡ source_sizes self.old }
    {
        let call = self.calls.number();
        if self.calls.next() {
            return Took::Failed;
        }
        let rest = self.bytes.len() - self.at;
        if rest == 0 {
            return Took::End;
        }
        let size = piece(&self.sizes, call, rest.min(out.len()));
        copy_front(&self.bytes[self.at..], size, out);
        self.at += size;
        Took::Bytes(size)
    }
}
