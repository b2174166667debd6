// A sink that gathers what is written.
ghost use Rattle.std.specs.Prelude.{◌≤◌, length};
ghost use Rattle.std.specs.Vec.{vec_capacity};

use crate::{Flushing, Gave, Sink, write_all};
use std::alloc::Global;

// How many bytes are kept at most.
const MOST_KEPT: usize = 65_536;

/// A sink that keeps up to 65,536 bytes before it hands them on to another, so that many small writes cost few calls of
/// that. It holds what the other holds and then what it keeps, and its count of faults is the other's. A write of more than
/// it has room for hands all on first; one of 65,536 bytes or more isn't kept. No byte is copied more than once. What is kept
/// goes out at a `flush`, and is lost where the sink is dropped before.
#[derive(Drop)]
pub struct Gathering<K> {
    inner: K,
    kept: Vec<u8>,
    handed: usize,
    ghost within: { handed ≤ length kept.items },
    ghost fits: { length kept.items ≤ 65536 },
    ghost room: { 65536 ≤ vec_capacity kept },
}

impl<K> Gathering<K> {
    ghost use Rattle.std.specs.Prelude.{◌≡◌, ◌+◌, ◌++◌, [], MatchResult};
    ghost use Rattle.edge_core.specs.Handles.{inner_sink, kept_bytes};

    /// A sink that gathers for that one. It takes its room at once; where there is no memory for it, the error is the sink.
    pub fn new(alloc: Global, inner: K) -> Result<Gathering<K>, K>
        ensures { MatchResult result (λ g. (inner_sink g ≡ inner) × (kept_bytes g ≡ [])) (λ sink. sink ≡ inner) }
    {
        match Vec::with_capacity(alloc, MOST_KEPT) {
            Ok(kept) => Ok(Gathering {
                inner,
                kept,
                handed: 0,
            }),
            Err(_) => Err(inner),
        }
    }

    /// The sink that was gathered for. What is kept is lost: nothing is after a flush that didn't fail.
    pub fn into_inner(self) -> K
        ensures { result ≡ inner_sink self }
    {
        let Gathering {
            inner,
            kept: _,
            handed: _,
        } = self;
        inner
    }

    /// What is kept, and not handed on.
    pub fn kept(&self) -> &[u8]
        ensures { result.now ≡ kept_bytes self.now }
    {
        &self.kept[self.handed..]
    }

    // Keeps some bytes, for which there is room.
    fn keep(&mut self, bytes: &[u8])
        requires { length self.old.kept.items + length bytes.now ≤ 65536 }
        ensures inner { inner_sink self.new ≡ inner_sink self.old }
        ensures kept { kept_bytes self.new ≡ kept_bytes self.old ++ bytes.now }
    {
        let _ = self.kept.extend_from_slice(bytes);
    }
}

impl<K: Sink> Gathering<K> {
    ghost use Rattle.std.specs.Prelude.{◌≡◌, ◌+◌, ◌-◌, ◌<◌, ◌≤◌, [], length, nat_le, not, true};
    ghost use Rattle.std.specs.Bool.{OnTrue};
    ghost use Rattle.std.specs.Io.KnownBytes.{append_known};
    ghost use Rattle.edge_core.specs.Faults.{Cause};
    ghost use Rattle.edge_core.specs.Flow.{Writes, failed_write};
    ghost use Rattle.edge_core.specs.Handles.{inner_sink, kept_bytes};

    // Hands on what is kept, all, or as much as the other sink takes before it fails.
    fn hand_on(&mut self) -> bool
        ensures held { append_known (K.holds (inner_sink self.new)) (kept_bytes self.new) ≡ append_known (K.holds (inner_sink self.old)) (kept_bytes self.old) }
        ensures cause { Cause (K.faults (inner_sink self.old)) (K.faults (inner_sink self.new)) (not result) }
        ensures emptied { OnTrue result (self.new.kept.items ≡ []) }
    {
        match write_all(&mut self.inner, &self.kept[self.handed..]) {
            Ok(()) => {
                self.kept.clear();
                self.handed = 0;
                true
            }
            Err(written) => {
                self.handed += written as usize;
                false
            }
        }
    }

    // Makes room for so many bytes: hands on what is kept, unless they fit behind it.
    fn make_room(&mut self, more: usize) -> bool
        ensures held { append_known (K.holds (inner_sink self.new)) (kept_bytes self.new) ≡ append_known (K.holds (inner_sink self.old)) (kept_bytes self.old) }
        ensures cause { Cause (K.faults (inner_sink self.old)) (K.faults (inner_sink self.new)) (not result) }
        ensures room { OnTrue result (length self.new.kept.items ≤ 65536 - more) }
        ensures fits { OnTrue (nat_le (length self.old.kept.items + more) 65536) ((result ≡ true) × (self.new ≡ self.old)) }
    {
        more <= MOST_KEPT - self.kept.len() || self.hand_on()
    }

    // Writes without keeping anything.
    fn pass(&mut self, bytes: &[u8]) -> Gave
        requires some { 0 < length bytes.now }
        requires none_kept { length self.old.kept.items ≡ 0 }
        ensures bytes { Writes (append_known (K.holds (inner_sink self.old)) (kept_bytes self.old)) (append_known (K.holds (inner_sink self.new)) (kept_bytes self.new)) result bytes.now }
        ensures cause { Cause (K.faults (inner_sink self.old)) (K.faults (inner_sink self.new)) (failed_write result) }
    {
        self.inner.write(bytes)
    }
}

impl<K: Sink> Sink for Gathering<K> {
    ghost use Rattle.std.specs.Prelude.{◌≡◌, ◌<◌, ◌++◌, [], length, not};
    ghost use Rattle.std.specs.Bool.{OnTrue};
    ghost use Rattle.std.specs.Io.KnownBytes.{append_known};
    ghost use Rattle.edge_core.specs.Faults.{Cause};
    ghost use Rattle.edge_core.specs.Flow.{Writes, failed_write, failed_flush};
    ghost use Rattle.edge_core.specs.Handles.{inner_sink, kept_bytes, has_room_for};

    ghost holds = { λ g. append_known (K.holds (inner_sink g)) (kept_bytes g) };

    ghost kept = { λ g. K.kept (inner_sink g) ++ kept_bytes g };

    ghost faults = { λ g. K.faults (inner_sink g) };

    fn write(&mut self, bytes: &[u8]) -> Gave
        requires { 0 < length bytes.now }
        ensures bytes { Writes (append_known (K.holds (inner_sink self.old)) (kept_bytes self.old)) (append_known (K.holds (inner_sink self.new)) (kept_bytes self.new)) result bytes.now }
        ensures cause { Cause (K.faults (inner_sink self.old)) (K.faults (inner_sink self.new)) (failed_write result) }
        ensures still { OnTrue (has_room_for self.old (length bytes.now)) (inner_sink self.new ≡ inner_sink self.old) }
        ensures all { OnTrue (has_room_for self.old (length bytes.now)) (result ≡ Gave.Bytes (length bytes.now)) }
        ensures kept { OnTrue (has_room_for self.old (length bytes.now)) (kept_bytes self.new ≡ kept_bytes self.old ++ bytes.now) }
    {
        if !self.make_room(bytes.len()) {
            return Gave::Failed;
        }
        if bytes.len() >= MOST_KEPT {
            return self.pass(bytes);
        }
        self.keep(bytes);
        Gave::Bytes(bytes.len())
    }

    fn flush(&mut self) -> Flushing
        ensures held { append_known (K.holds (inner_sink self.new)) (kept_bytes self.new) ≡ append_known (K.holds (inner_sink self.old)) (kept_bytes self.old) }
        ensures cause { Cause (K.faults (inner_sink self.old)) (K.faults (inner_sink self.new)) (failed_flush result) }
        ensures kept { OnTrue (not (failed_flush result)) (K.kept (inner_sink self.new) ++ kept_bytes self.new ≡ []) }
        ensures emptied { OnTrue (not (failed_flush result)) (kept_bytes self.new ≡ []) }
    {
        if !self.hand_on() {
            return Flushing::Failed;
        }
        self.inner.flush()
    }
}
