// Where bytes go.
ghost use Rattle.std.specs.Prelude.{◌≡◌, ℕ, ◌<◌, List, [], Option, length, not};
ghost use Rattle.std.specs.Bool.{OnTrue};
ghost use Rattle.edge_core.specs.Faults.{Cause};
ghost use Rattle.edge_core.specs.Flow.{Writes, failed_flush, failed_write};

/// The answer of a write.
#[derive(Clone, Copy, Debug, PartialEq, Eq)]
pub enum Gave {
    /// So many bytes were written, at least one.
    Bytes(usize),
    /// The write failed, and wrote nothing. A sink that can take nothing more fails.
    Failed,
}

/// The answer of a flush.
#[derive(Clone, Copy, Debug, PartialEq, Eq)]
pub enum Flushing {
    /// What was written is handed on as far as the sink can.
    Flushed,
    /// The flush failed.
    Failed,
}

/// A stream of bytes to write.
pub trait Sink {
    /// The bytes that were written, or none where the sink doesn't tell. A sink that tells goes on telling, and one that
    /// doesn't never begins to.
    ghost holds: { Self → Option (List ℕ) };

    /// What it keeps back of what was written, and hands on at a `flush` or as more comes: nothing where it hands on at once.
    ghost kept: { Self → List ℕ };

    /// How often the sink has failed: a count that never falls, and stands still at 2^64 - 1.
    ghost faults: { Self → ℕ };

    /// Writes the first of `bytes`: as many as the answer says, which may be fewer than there are. `Failed` comes only
    /// where the count of faults rose in this call.
    fn write(&mut self, bytes: &[u8]) -> Gave
        requires { 0 < length bytes.now }
        ensures bytes { Writes (holds self.old) (holds self.new) result bytes.now }
        ensures cause { Cause (faults self.old) (faults self.new) (failed_write result) };

    /// Hands on what the sink keeps back of what was written: nothing of it is kept where this didn't fail. It changes nothing of what the
    /// sink holds. `Failed` comes only
    /// where the count of faults rose in this call.
    fn flush(&mut self) -> Flushing
        ensures held { holds self.new ≡ holds self.old }
        ensures cause { Cause (faults self.old) (faults self.new) (failed_flush result) }
        ensures kept { OnTrue (not (failed_flush result)) (kept self.new ≡ []) };
}
