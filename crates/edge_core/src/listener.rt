// Where lines come from.
ghost use Rattle.std.specs.Prelude.{◌≡◌, ℕ, ◌≤◌, Bool, List, Option, true};
ghost use Rattle.std.specs.Bool.{OnTrue};
ghost use Rattle.edge_core.specs.Faults.{Cause};
ghost use Rattle.edge_core.specs.Lines.{ClosedLine, closed_line, with_line};
ghost use Rattle.edge_core.specs.Doors.{Takes, failed_listen, failed_accept, is_line, listens_after};

use crate::{Sink, Source};

/// The answer of a listener that is to open.
#[derive(Clone, Copy, Debug, PartialEq, Eq)]
pub enum Listening {
    /// Lines can come.
    Open,
    /// The listener isn't opened.
    Failed,
}

/// The answer of a listener that is asked for a line.
#[derive(Drop)]
pub enum Taken<I, O> {
    /// A line: what comes from it, and what goes to it.
    Line(I, O),
    /// No further line comes.
    End,
    /// The listener failed, and gave no line.
    Failed,
}

/// A door at which lines come, each a source and a sink. A line that was given out is taken back by `close`; it can't be
/// let go otherwise by code that knows no more of it than this trait says. Lines can be sent to threads.
pub trait Listener {
    /// What comes from a line.
    type In: Source + Send;

    /// What goes to a line.
    type Out: Sink + Send;

    /// The bytes that each line to come comes with, or none where the listener doesn't tell. A listener that tells goes on
    /// telling, and one that doesn't never begins to.
    ghost coming: { Self → Option (List (List ℕ)) };

    /// The lines that were closed, in order, or none where the listener doesn't tell.
    ghost closed: { Self → Option (List ClosedLine) };

    /// Whether a line is known to be out.
    ghost out: { Self → Bool };

    /// The port at which `listen` opened it last, or none where it never did.
    ghost listens: { Self → Option ℕ };

    /// How often the listener has failed: a count that never falls, and stands still at 2^64 - 1.
    ghost faults: { Self → ℕ };

    /// Opens the listener at a port, or, at 0, at one that is free. `Failed` comes only where the count of faults rose in
    /// this call.
    fn listen(&mut self, port: u16) -> Listening
        ensures listens { listens self.new ≡ listens_after (listens self.old) port result }
        ensures coming { coming self.new ≡ coming self.old }
        ensures closed { closed self.new ≡ closed self.old }
        ensures out { out self.new ≡ out self.old }
        ensures cause { Cause (faults self.old) (faults self.new) (failed_listen result) };

    /// The next line, with counts of 0. `End` says that no further line comes. `Failed` comes only where the count of faults
    /// rose in this call.
    fn accept(&mut self) -> Taken<Self::In, Self::Out>
        ensures line { Takes Self.In.left Self.In.faults Self.Out.holds Self.Out.faults (coming self.old) (coming self.new) result }
        ensures out { OnTrue (is_line result) (out self.new ≡ true) }
        ensures closed { closed self.new ≡ closed self.old }
        ensures listens { listens self.new ≡ listens self.old }
        ensures cause { Cause (faults self.old) (faults self.new) (failed_accept result) };

    /// Takes a line back.
    fn close(&mut self, input: Self::In, output: Self::Out)
        requires { out self.old ≡ true }
        ensures closed { closed self.new ≡ with_line (closed self.old) (closed_line (Self.Out.holds output) (Self.In.faults input) (Self.Out.faults output)) }
        ensures coming { coming self.new ≡ coming self.old }
        ensures listens { listens self.new ≡ listens self.old }
        ensures later { faults self.old ≤ faults self.new };
}
