// Lines to others.
ghost use Rattle.std.specs.Prelude.{◌≡◌, ℕ, ◌≤◌, Bool, List, Option, true, nat_lt};
ghost use Rattle.std.specs.Bool.{OnTrue};
ghost use Rattle.edge_core.specs.Faults.{Cause, counted};
ghost use Rattle.edge_core.specs.Lines.{ClosedLine, PeerLine, closed_line, with_line};
ghost use Rattle.edge_core.specs.Doors.{Opens, failed_open, is_opened};

use crate::{Sink, Source};

/// The answer of a link that is to open a line.
#[derive(Drop)]
pub enum Opened<I, O> {
    /// A line: what comes from the peer, and what goes to it.
    Line(I, O),
    /// The link failed, and gave no line.
    Failed,
}

/// A way to peers, to each by its host and port. A line that was opened is taken back by `close`; it can't be let go
/// otherwise by code that knows no more of it than this trait says.
pub trait Link {
    /// What comes from a peer.
    type In: Source;

    /// What goes to a peer.
    type Out: Sink;

    /// The lines to come, or none where the link doesn't tell. A link that tells goes on telling, and one that doesn't never
    /// begins to.
    ghost coming: { Self → Option (List PeerLine) };

    /// The lines that were closed, in order, or none where the link doesn't tell.
    ghost closed: { Self → Option (List ClosedLine) };

    /// Whether a line is known to be out.
    ghost out: { Self → Bool };

    /// How often an open has failed: a count that never falls, and stands still at 2^64 - 1.
    ghost faults: { Self → ℕ };

    /// How many lines were closed whose source had failed, up to 2^64 - 1.
    ghost read_faults: { Self → ℕ };

    /// How many lines were closed whose sink had failed, up to 2^64 - 1.
    ghost write_faults: { Self → ℕ };

    /// Opens a line to a host, by its name or address, and a port, with counts of 0. `Failed` comes only where the count of
    /// faults rose in this call.
    fn open(&mut self, host: &str, port: u16) -> Opened<Self::In, Self::Out>
        ensures line { Opens Self.In.left Self.In.faults Self.Out.holds Self.Out.faults host.now port (coming self.old) (coming self.new) result }
        ensures out { OnTrue (is_opened result) (out self.new ≡ true) }
        ensures closed { closed self.new ≡ closed self.old }
        ensures cause { Cause (faults self.old) (faults self.new) (failed_open result) }
        ensures read_faults { read_faults self.new ≡ read_faults self.old }
        ensures write_faults { write_faults self.new ≡ write_faults self.old };

    /// Takes a line back, and counts whether its source, and whether its sink, had failed.
    fn close(&mut self, input: Self::In, output: Self::Out)
        requires { out self.old ≡ true }
        ensures closed { closed self.new ≡ with_line (closed self.old) (closed_line (Self.Out.holds output) (Self.In.faults input) (Self.Out.faults output)) }
        ensures coming { coming self.new ≡ coming self.old }
        ensures later { faults self.old ≤ faults self.new }
        ensures read_faults { read_faults self.new ≡ counted (read_faults self.old) (nat_lt 0 (Self.In.faults input)) }
        ensures write_faults { write_faults self.new ≡ counted (write_faults self.old) (nat_lt 0 (Self.Out.faults output)) };
}
