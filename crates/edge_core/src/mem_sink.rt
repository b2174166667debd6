// A sink in memory.
ghost use Rattle.std.specs.Prelude.{◌≡◌, ◌≤◌, ◌<◌, ◌+◌, ◌++◌, ◌∷◌, [], IfOk, length, take};
ghost use Rattle.std.specs.Vec.{vec_capacity};

use crate::calls::Calls;
use crate::pieces::piece;
use crate::{Flushing, Gave, Sink};
use std::alloc::{AllocError, Global};

/// A sink that keeps what is written, with room for a number of bytes and of pieces, one for each write. It takes its room
/// when it is made. A write that finds no room left fails, and one that finds room for fewer bytes writes these. The sizes
/// of its pieces and the numbers of the calls that are to fail can be given.
#[derive(Drop)]
pub struct MemSink {
    bytes: Vec<u8>,
    pieces: Vec<usize>,
    most_bytes: usize,
    most_pieces: usize,
    sizes: Vec<usize>,
    calls: Calls,
    ghost fits: { length bytes.items ≤ most_bytes },
    ghost taken: { most_bytes ≤ vec_capacity bytes },
    ghost pieces_fit: { length pieces.items ≤ most_pieces },
    ghost pieces_taken: { most_pieces ≤ vec_capacity pieces },
}

impl MemSink {
    ghost use Rattle.edge_core.specs.Calls.{calls_failed, IsFresh, Plans};
    ghost use Rattle.edge_core.specs.Memory.{sink_bytes, sink_pieces, sink_bytes_left, sink_pieces_left, sink_sizes, sink_calls};

    /// An empty sink with room for so many bytes, in so many pieces. The error is want of memory.
    pub fn new(alloc: Global, bytes: usize, pieces: usize) -> Result<MemSink, AllocError>
        ensures empty { IfOk result (λ s. (sink_bytes s ≡ []) × (sink_pieces s ≡ [])) }
        ensures room { IfOk result (λ s. (sink_bytes_left s ≡ bytes) × (sink_pieces_left s ≡ pieces)) }
        ensures sizes { IfOk result (λ s. sink_sizes s ≡ []) }
        ensures calls { IfOk result (λ s. IsFresh (sink_calls s)) }
    {
        Ok(MemSink {
            bytes: Vec::with_capacity(alloc, bytes)?,
            pieces: Vec::with_capacity(alloc, pieces)?,
            most_bytes: bytes,
            most_pieces: pieces,
            sizes: Vec::new(alloc),
            calls: Calls::new(alloc),
        })
    }

    /// The sink with those sizes of pieces: the write of number n, counted from 0, takes at most as many bytes as the size
    /// at place n says, and at least one. A write without a size takes all for which there is room.
    pub fn with_sizes(mut self, sizes: Vec<usize>) -> MemSink
        ensures held { (sink_bytes result ≡ sink_bytes self) × (sink_pieces result ≡ sink_pieces self) }
        ensures room { (sink_bytes_left result ≡ sink_bytes_left self) × (sink_pieces_left result ≡ sink_pieces_left self) }
        ensures sizes { sink_sizes result ≡ sizes.items }
        ensures calls { sink_calls result ≡ sink_calls self }
    {
        self.sizes = sizes;
        self
    }

    /// The sink where the calls of those numbers fail, counted from 0.
    pub fn with_fails(mut self, fails: Vec<u64>) -> MemSink
        ensures held { (sink_bytes result ≡ sink_bytes self) × (sink_pieces result ≡ sink_pieces self) }
        ensures room { (sink_bytes_left result ≡ sink_bytes_left self) × (sink_pieces_left result ≡ sink_pieces_left self) }
        ensures sizes { sink_sizes result ≡ sink_sizes self }
        ensures calls { Plans (sink_calls self) (sink_calls result) fails.items }
    {
        self.calls.set_fails(fails);
        self
    }

    /// All that was written.
    pub fn bytes(&self) -> &[u8]
        ensures { result.now ≡ sink_bytes self.now }
    {
        &self.bytes
    }

    /// How often it has failed.
    pub fn faults(&self) -> u64
        ensures { result ≡ calls_failed (sink_calls self.now) }
    {
        self.calls.faults()
    }

    /// How many bytes each write that didn't fail wrote.
    pub fn pieces(&self) -> &[usize]
        ensures { result.now ≡ sink_pieces self.now }
    {
        &self.pieces
    }
}

// Appends the first bytes and their number, for which there is room.
fn append_piece(bytes: &mut Vec<u8>, pieces: &mut Vec<usize>, from: &[u8], size: usize)
    requires have { size ≤ length from.now }
    requires bytes_fit { length bytes.old.items + size ≤ vec_capacity bytes.old }
    requires piece_fits { length pieces.old.items < vec_capacity pieces.old }
    ensures bytes { bytes.new.items ≡ bytes.old.items ++ take size from.now }
    ensures pieces { pieces.new.items ≡ pieces.old.items ++ size ∷ [] }
    ensures bytes_len { length bytes.new.items ≡ length bytes.old.items + size }
    ensures pieces_len { length pieces.new.items ≡ length pieces.old.items + 1 }
    ensures bytes_capacity { vec_capacity bytes.old ≤ vec_capacity bytes.new }
    ensures pieces_capacity { vec_capacity pieces.old ≤ vec_capacity pieces.new }
{
    let _ = bytes.extend_from_slice(&from[..size]);
    let _ = pieces.push(size);
}

impl Sink for MemSink {
    ghost use Rattle.std.specs.Prelude.{◌≡◌, ◌<◌, [], Some, length};
    ghost use Rattle.edge_core.specs.Faults.{Cause};
    ghost use Rattle.edge_core.specs.Flow.{Writes, failed_flush, failed_write};
    ghost use Rattle.edge_core.specs.Calls.{calls_failed, Counts};
    ghost use Rattle.edge_core.specs.Memory.{sink_bytes, sink_sizes, sink_calls, sink_fails, IsKept};

    ghost holds = { λ s. Some (sink_bytes s) };

    ghost kept = { λ s. [] };

    ghost faults = { λ s. calls_failed (sink_calls s) };

    fn write(&mut self, bytes: &[u8]) -> Gave
        requires { 0 < length bytes.now }
        ensures bytes { Writes (Some (sink_bytes self.old)) (Some (sink_bytes self.new)) result bytes.now }
        ensures cause { Cause (calls_failed (sink_calls self.old)) (calls_failed (sink_calls self.new)) (failed_write result) }
        ensures size { IsKept self.old self.new (length bytes.now) result }
        ensures fails { failed_write result ≡ sink_fails self.old }
        ensures counts { Counts (sink_calls self.old) (sink_calls self.new) (failed_write result) }
        ensures sizes { sink_sizes self.new ≡ sink_sizes self.old }
    {
        let call = self.calls.number();
        let room = self.most_bytes - self.bytes.len();
        let failed = self.calls.is_due() || room == 0 || self.pieces.len() == self.most_pieces;
        self.calls.count(failed);
        if failed {
            return Gave::Failed;
        }
        let size = piece(&self.sizes, call, room.min(bytes.len()));
        append_piece(&mut self.bytes, &mut self.pieces, bytes, size);
        Gave::Bytes(size)
    }

    // Nothing is kept back: this does nothing.
    fn flush(&mut self) -> Flushing
        ensures held { Some (sink_bytes self.new) ≡ Some (sink_bytes self.old) }
        ensures cause { Cause (calls_failed (sink_calls self.old)) (calls_failed (sink_calls self.new)) (failed_flush result) }
        ensures answer { result ≡ Flushing.Flushed }
        ensures same { self.new ≡ self.old }
    {
        Flushing::Flushed
    }
}
