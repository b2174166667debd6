// Where bytes come from.
ghost use Rattle.std.specs.Prelude.{ℕ, ◌<◌, List, Option, length};
ghost use Rattle.edge_core.specs.Faults.{Cause};
ghost use Rattle.edge_core.specs.Flow.{Reads, failed_read};

/// The answer of a read.
#[derive(Clone, Copy, Debug, PartialEq, Eq)]
pub enum Took {
    /// So many bytes were read, at least one.
    Bytes(usize),
    /// Nothing is left to read.
    End,
    /// The read failed, and took nothing.
    Failed,
}

/// A stream of bytes to read.
pub trait Source {
    /// The bytes that are left, or none where the source doesn't tell. A source that tells goes on telling, and one that
    /// doesn't never begins to.
    ghost left: { Self → Option (List ℕ) };

    /// How often the source has failed: a count that never falls, and stands still at 2^64 - 1.
    ghost faults: { Self → ℕ };

    /// Reads the first bytes left into the front of `out`: as many as the answer says, which may be fewer than fit.
    /// `End` comes exactly where nothing is left. `Failed` comes only where the count of faults rose in this call.
    fn read(&mut self, out: &mut [u8]) -> Took
        requires { 0 < length out.old }
        ensures bytes { Reads (left self.old) (left self.new) result out.new }
        ensures cause { Cause (faults self.old) (faults self.new) (failed_read result) };
}
