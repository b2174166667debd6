// Lines in memory.
ghost use Rattle.std.specs.Prelude.{◌+◌, ◌≤◌};
ghost use Rattle.std.specs.Vec.{vec_capacity, vec_len};
ghost use Rattle.edge_core.specs.Fresh.{IsFreshLine};

use crate::{MemSink, MemSource};
use std::alloc::{AllocError, Global};

/// A line in memory that is to come: what comes from it, and what keeps what is written to it.
#[derive(Drop)]
pub struct MemLine {
    source: MemSource,
    sink: MemSink,
    ghost fresh: { IsFreshLine source sink },
}

impl MemLine {
    ghost use Rattle.std.specs.Prelude.{◌≡◌};
    ghost use Rattle.edge_core.specs.Memory.{source_left};
    ghost use Rattle.edge_core.specs.MemoryLines.{line_bytes};

    /// A line of those, which nobody has used.
    pub fn new(source: MemSource, sink: MemSink) -> MemLine
        requires { IsFreshLine source sink }
        ensures { line_bytes result ≡ source_left source }
    {
        MemLine { source, sink }
    }

    // What it consists of.
    pub(crate) fn into_parts(self) -> (MemSource, MemSink)
        ensures source { result.0 ≡ self.source }
        ensures sink { result.1 ≡ self.sink }
        ensures fresh { IsFreshLine result.0 result.1 }
    {
        let MemLine { source, sink } = self;
        (source, sink)
    }
}

/// A line in memory that was closed.
#[derive(Drop)]
pub struct MemClosed {
    source: MemSource,
    sink: MemSink,
}

impl MemClosed {
    ghost use Rattle.std.specs.Prelude.{◌≡◌, Some};
    ghost use Rattle.edge_core.specs.MemoryLines.{closed_of, closed_sink};

    /// What was written to it.
    pub fn written(&self) -> &[u8]
        ensures { Some result.now ≡ (closed_of self.now).written }
    {
        self.sink.bytes()
    }

    /// Its sink, which kept that in pieces, one for each write.
    pub fn sink(&self) -> &MemSink
        ensures { result.now ≡ closed_sink self.now }
    {
        &self.sink
    }

    /// How often its source had failed.
    pub fn read_faults(&self) -> u64
        ensures { result ≡ (closed_of self.now).read_faults }
    {
        self.source.faults()
    }

    /// How often its sink had failed.
    pub fn write_faults(&self) -> u64
        ensures { result ≡ (closed_of self.now).write_faults }
    {
        self.sink.faults()
    }
}

// The lines that were given out: how many are out, and those that came back, with room for them from the start.
#[derive(Drop)]
pub(crate) struct GivenLines {
    closed: Vec<MemClosed>,
    out: usize,
    room: usize,
    ghost fits: { vec_len closed + room ≤ vec_capacity closed },
    ghost owed: { out ≤ room },
}

impl GivenLines {
    ghost use Rattle.std.specs.Prelude.{◌≡◌, ◌+◌, ◌-◌, ◌<◌, ◌++◌, ◌∷◌, [], IfOk, map, Some};
    ghost use Rattle.edge_core.specs.Calls.{calls_failed};
    ghost use Rattle.edge_core.specs.Memory.{source_calls, sink_bytes, sink_calls};
    ghost use Rattle.edge_core.specs.Lines.{closed_line};
    ghost use Rattle.edge_core.specs.MemoryLines.{closed_of, lines_closed, lines_out, lines_room};

    // None is out, and there is room for so many.
    pub(crate) fn new(alloc: Global, room: usize) -> Result<GivenLines, AllocError>
        ensures closed { IfOk result (λ g. lines_closed g ≡ []) }
        ensures out { IfOk result (λ g. lines_out g ≡ 0) }
        ensures room { IfOk result (λ g. lines_room g ≡ room) }
    {
        Ok(GivenLines {
            closed: Vec::with_capacity(alloc, room)?,
            out: 0,
            room,
        })
    }

    // A line goes out.
    pub(crate) fn give(&mut self)
        requires { lines_out self.old < lines_room self.old }
        ensures closed { lines_closed self.new ≡ lines_closed self.old }
        ensures out { lines_out self.new ≡ lines_out self.old + 1 }
        ensures room { lines_room self.new ≡ lines_room self.old }
    {
        self.out += 1;
    }

    // A line comes back.
    pub(crate) fn take_back(&mut self, source: MemSource, sink: MemSink)
        requires { 0 < lines_out self.old }
        ensures closed { lines_closed self.new ≡ lines_closed self.old ++ closed_line (Some (sink_bytes sink)) (calls_failed (source_calls source)) (calls_failed (sink_calls sink)) ∷ [] }
        ensures out { lines_out self.new ≡ lines_out self.old - 1 }
        ensures room { lines_room self.new ≡ lines_room self.old - 1 }
    {
        self.closed.push_reserved(MemClosed { source, sink });
        self.room -= 1;
        self.out -= 1;
    }

    // Those that came back, in order.
    pub(crate) fn closed(&self) -> &[MemClosed]
        ensures { map closed_of result.now ≡ lines_closed self.now }
    {
        &self.closed
    }
}
