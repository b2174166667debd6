// A listener in memory.
ghost use Rattle.std.specs.Prelude.{◌+◌, ◌≤◌};
ghost use Rattle.std.specs.VecDeque.{deque_len};

use crate::calls::Calls;
use crate::mem_line::GivenLines;
use crate::{Listener, Listening, MemClosed, MemLine, MemSink, MemSource, Taken};
use std::alloc::{AllocError, Global};
use std::collections::VecDeque;

/// A listener of given lines, which keeps those that are closed. It takes the room for these when it is made. Behind the
/// last line it answers `End`. The numbers of the calls that are to fail can be given; `listen` and `accept` are counted.
#[derive(Drop)]
pub struct MemListener {
    coming: VecDeque<MemLine>,
    given: GivenLines,
    port: Option<u16>,
    calls: Calls,
    ghost lines: { deque_len coming + given.out ≤ given.room },
}

impl MemListener {
    ghost use Rattle.std.specs.Prelude.{◌≡◌, [], None, map, IfOk};
    ghost use Rattle.edge_core.specs.MemoryLines.{line_bytes, closed_of, listener_coming, listener_closed, listener_out, listener_port, listener_calls};
    ghost use Rattle.edge_core.specs.Calls.{IsFresh, Plans};

    /// A listener of those lines, the first first. The error is want of memory.
    pub fn new(alloc: Global, lines: Vec<MemLine>) -> Result<MemListener, AllocError>
        ensures coming { IfOk result (λ d. listener_coming d ≡ map line_bytes lines.items) }
        ensures closed { IfOk result (λ d. listener_closed d ≡ []) }
        ensures out { IfOk result (λ d. listener_out d ≡ 0) }
        ensures port { IfOk result (λ d. listener_port d ≡ None) }
        ensures calls { IfOk result (λ d. IsFresh (listener_calls d)) }
    {
        let given = GivenLines::new(alloc, lines.len())?;
        Ok(MemListener {
            coming: VecDeque::from(lines),
            given,
            port: None,
            calls: Calls::new(alloc),
        })
    }

    /// The listener where the calls of those numbers fail, counted from 0.
    pub fn with_fails(mut self, fails: Vec<u64>) -> MemListener
        ensures coming { listener_coming result ≡ listener_coming self }
        ensures closed { listener_closed result ≡ listener_closed self }
        ensures out { listener_out result ≡ listener_out self }
        ensures port { listener_port result ≡ listener_port self }
        ensures calls { Plans (listener_calls self) (listener_calls result) fails.items }
    {
        self.calls.set_fails(fails);
        self
    }

    /// The lines that were closed, in order.
    pub fn closed(&self) -> &[MemClosed]
        ensures { map closed_of result.now ≡ listener_closed self.now }
    {
        self.given.closed()
    }
}

impl Listener for MemListener {
    ghost use Rattle.std.specs.Prelude.{◌≡◌, ◌-◌, ◌≤◌, Some, nat_lt, true};
    ghost use Rattle.std.specs.Bool.{OnTrue};
    ghost use Rattle.edge_core.specs.Faults.{Cause};
    ghost use Rattle.edge_core.specs.Calls.{due, calls_failed, Counts};
    ghost use Rattle.edge_core.specs.Memory.{source_left, source_calls, sink_bytes, sink_calls};
    ghost use Rattle.edge_core.specs.Lines.{closed_line, with_line};
    ghost use Rattle.edge_core.specs.Doors.{Takes, failed_listen, failed_accept, is_line, listens_after};
    ghost use Rattle.edge_core.specs.MemoryLines.{listener_coming, listener_closed, listener_out, listener_port, listener_calls, more_out};

    type In = MemSource;

    type Out = MemSink;

    ghost coming = { λ d. Some (listener_coming d) };

    ghost closed = { λ d. Some (listener_closed d) };

    ghost out = { λ d. nat_lt 0 (listener_out d) };

    ghost listens = { λ d. listener_port d };

    ghost faults = { λ d. calls_failed (listener_calls d) };

    fn listen(&mut self, port: u16) -> Listening
        ensures listens { listener_port self.new ≡ listens_after (listener_port self.old) port result }
        ensures coming { listener_coming self.new ≡ listener_coming self.old }
        ensures closed { listener_closed self.new ≡ listener_closed self.old }
        ensures out { listener_out self.new ≡ listener_out self.old }
        ensures cause { Cause (calls_failed (listener_calls self.old)) (calls_failed (listener_calls self.new)) (failed_listen result) }
        ensures fails { failed_listen result ≡ due (listener_calls self.old) }
        ensures counts { Counts (listener_calls self.old) (listener_calls self.new) (failed_listen result) }
    {
        if self.calls.next() {
            Listening::Failed
        } else {
            self.port = Some(port);
            Listening::Open
        }
    }

    fn accept(&mut self) -> Taken<MemSource, MemSink>
        ensures line { Takes (λ s. Some (source_left s)) (λ s. calls_failed (source_calls s)) (λ s. Some (sink_bytes s)) (λ s. calls_failed (sink_calls s)) (Some (listener_coming self.old)) (Some (listener_coming self.new)) result }
        ensures out { OnTrue (is_line result) (nat_lt 0 (listener_out self.new) ≡ true) }
        ensures closed { listener_closed self.new ≡ listener_closed self.old }
        ensures listens { listener_port self.new ≡ listener_port self.old }
        ensures cause { Cause (calls_failed (listener_calls self.old)) (calls_failed (listener_calls self.new)) (failed_accept result) }
        ensures fails { failed_accept result ≡ due (listener_calls self.old) }
        ensures counts { Counts (listener_calls self.old) (listener_calls self.new) (failed_accept result) }
        ensures more { listener_out self.new ≡ more_out (listener_out self.old) (is_line result) }
    {
        if self.calls.next() {
            return Taken::Failed;
        }
        match self.coming.pop_front() {
            Some(line) => {
                self.given.give();
                let (source, sink) = line.into_parts();
                Taken::Line(source, sink)
            }
            None => Taken::End,
        }
    }

    fn close(&mut self, input: MemSource, output: MemSink)
        requires { nat_lt 0 (listener_out self.old) ≡ true }
        ensures closed { Some (listener_closed self.new) ≡ with_line (Some (listener_closed self.old)) (closed_line (Some (sink_bytes output)) (calls_failed (source_calls input)) (calls_failed (sink_calls output))) }
        ensures coming { listener_coming self.new ≡ listener_coming self.old }
        ensures listens { listener_port self.new ≡ listener_port self.old }
        ensures later { calls_failed (listener_calls self.old) ≤ calls_failed (listener_calls self.new) }
        ensures calls { listener_calls self.new ≡ listener_calls self.old }
        ensures fewer { listener_out self.new ≡ listener_out self.old - 1 }
    {
        self.given.take_back(input, output);
    }
}
