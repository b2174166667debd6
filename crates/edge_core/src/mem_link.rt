// A link in memory.
ghost use Rattle.std.specs.Prelude.{◌+◌, ◌≤◌};
ghost use Rattle.std.specs.VecDeque.{deque_len};

use crate::calls::Calls;
use crate::mem_line::GivenLines;
use crate::{FaultCount, Link, MemClosed, MemLine, MemSink, MemSource, Opened};
use std::alloc::{AllocError, Global};
use std::collections::VecDeque;

/// A line in memory that is to come, and the host and port at which it is opened.
#[derive(Drop)]
pub struct MemPeer {
    /// The host, as it is given to `open`.
    pub host: String,
    /// The port.
    pub port: u16,
    /// The line.
    pub line: MemLine,
}

/// A link of given lines, which keeps those that are closed. It takes the room for these when it is made. An open of another
/// host or port than the next line's, or with no line to come, fails, and leaves the lines as they are. The numbers of the
/// calls of `open` that are to fail can be given besides.
#[derive(Drop)]
pub struct MemLink {
    coming: VecDeque<MemPeer>,
    given: GivenLines,
    calls: Calls,
    read_faults: FaultCount,
    write_faults: FaultCount,
    ghost lines: { deque_len coming + given.out ≤ given.room },
}

impl MemLink {
    ghost use Rattle.std.specs.Prelude.{◌≡◌, [], map, IfOk};
    ghost use Rattle.edge_core.specs.MemoryLines.{closed_of, peer_of, is_next, link_coming, link_closed, link_out, link_calls, link_read_faults, link_write_faults};
    ghost use Rattle.edge_core.specs.Calls.{IsFresh, Plans};

    /// A link of those lines, the first first. The error is want of memory.
    pub fn new(alloc: Global, lines: Vec<MemPeer>) -> Result<MemLink, AllocError>
        ensures coming { IfOk result (λ l. link_coming l ≡ map peer_of lines.items) }
        ensures closed { IfOk result (λ l. link_closed l ≡ []) }
        ensures out { IfOk result (λ l. link_out l ≡ 0) }
        ensures calls { IfOk result (λ l. IsFresh (link_calls l)) }
        ensures faults { IfOk result (λ l. (link_read_faults l ≡ 0) × (link_write_faults l ≡ 0)) }
    {
        let given = GivenLines::new(alloc, lines.len())?;
        Ok(MemLink {
            coming: VecDeque::from(lines),
            given,
            calls: Calls::new(alloc),
            read_faults: FaultCount::new(),
            write_faults: FaultCount::new(),
        })
    }

    /// The link where the opens of those numbers fail, counted from 0.
    pub fn with_fails(mut self, fails: Vec<u64>) -> MemLink
        ensures coming { link_coming result ≡ link_coming self }
        ensures closed { link_closed result ≡ link_closed self }
        ensures out { link_out result ≡ link_out self }
        ensures calls { Plans (link_calls self) (link_calls result) fails.items }
        ensures faults { (link_read_faults result ≡ link_read_faults self) × (link_write_faults result ≡ link_write_faults self) }
    {
        self.calls.set_fails(fails);
        self
    }

    /// The lines that were closed, in order.
    pub fn closed(&self) -> &[MemClosed]
        ensures { map closed_of result.now ≡ link_closed self.now }
    {
        self.given.closed()
    }

    // Whether the next line is to that host and port.
    fn is_next(&self, host: &str, port: u16) -> bool
        ensures { result ≡ is_next host.now port (link_coming self.now) }
    {
        match self.coming.front() {
            Some(peer) => peer.host.as_str() == host && peer.port == port,
            None => false,
        }
    }
}

impl Link for MemLink {
    ghost use Rattle.std.specs.Prelude.{◌≡◌, ◌-◌, ◌≤◌, Some, nat_lt, true};
    ghost use Rattle.std.specs.Bool.{OnTrue};
    ghost use Rattle.edge_core.specs.Faults.{Cause, counted};
    ghost use Rattle.edge_core.specs.Calls.{calls_failed, Counts};
    ghost use Rattle.edge_core.specs.Memory.{source_left, source_calls, sink_bytes, sink_calls};
    ghost use Rattle.edge_core.specs.Lines.{closed_line, with_line};
    ghost use Rattle.edge_core.specs.Doors.{Opens, failed_open, is_opened};
    ghost use Rattle.edge_core.specs.MemoryLines.{link_coming, link_closed, link_out, link_calls, link_read_faults, link_write_faults, open_fails, more_out};

    type In = MemSource;

    type Out = MemSink;

    ghost coming = { λ l. Some (link_coming l) };

    ghost closed = { λ l. Some (link_closed l) };

    ghost out = { λ l. nat_lt 0 (link_out l) };

    ghost faults = { λ l. calls_failed (link_calls l) };

    ghost read_faults = { link_read_faults };

    ghost write_faults = { link_write_faults };

    fn open(&mut self, host: &str, port: u16) -> Opened<MemSource, MemSink>
        ensures line { Opens (λ s. Some (source_left s)) (λ s. calls_failed (source_calls s)) (λ s. Some (sink_bytes s)) (λ s. calls_failed (sink_calls s)) host.now port (Some (link_coming self.old)) (Some (link_coming self.new)) result }
        ensures out { OnTrue (is_opened result) (nat_lt 0 (link_out self.new) ≡ true) }
        ensures closed { link_closed self.new ≡ link_closed self.old }
        ensures cause { Cause (calls_failed (link_calls self.old)) (calls_failed (link_calls self.new)) (failed_open result) }
        ensures read_faults { link_read_faults self.new ≡ link_read_faults self.old }
        ensures write_faults { link_write_faults self.new ≡ link_write_faults self.old }
        ensures fails { failed_open result ≡ open_fails self.old host.now port }
        ensures counts { Counts (link_calls self.old) (link_calls self.new) (failed_open result) }
        ensures more { link_out self.new ≡ more_out (link_out self.old) (is_opened result) }
    {
        let failed = self.calls.is_due() || !self.is_next(host, port);
        self.calls.count(failed);
        if failed {
            return Opened::Failed;
        }
        match self.coming.pop_front() {
            Some(
                MemPeer {
                    host: _,
                    port: _,
                    line,
                },
            ) => {
                self.given.give();
                let (source, sink) = line.into_parts();
                Opened::Line(source, sink)
            }
            None => unreachable!(),
        }
    }

    fn close(&mut self, input: MemSource, output: MemSink)
        requires { nat_lt 0 (link_out self.old) ≡ true }
        ensures closed { Some (link_closed self.new) ≡ with_line (Some (link_closed self.old)) (closed_line (Some (sink_bytes output)) (calls_failed (source_calls input)) (calls_failed (sink_calls output))) }
        ensures coming { link_coming self.new ≡ link_coming self.old }
        ensures later { calls_failed (link_calls self.old) ≤ calls_failed (link_calls self.new) }
        ensures read_faults { link_read_faults self.new ≡ counted (link_read_faults self.old) (nat_lt 0 (calls_failed (source_calls input))) }
        ensures write_faults { link_write_faults self.new ≡ counted (link_write_faults self.old) (nat_lt 0 (calls_failed (sink_calls output))) }
        ensures calls { link_calls self.new ≡ link_calls self.old }
        ensures fewer { link_out self.new ≡ link_out self.old - 1 }
    {
        self.read_faults.note(input.faults() > 0);
        self.write_faults.note(output.faults() > 0);
        self.given.take_back(input, output);
    }
}
