// The commits of a log that are kept, one version after another.
ghost use Rattle.std.specs.Prelude.{◌≡◌, ◌<◌, ◌^◌, ◌++◌, ◌∷◌, [], IfOk, OnOk, OnErr, false, length, map};
ghost use Rattle.log_actions.specs.CommitTexts.{printed_bytes};
ghost use Rattle.log_store.specs.Log.{cause_with};
ghost use Rattle.log_store.specs.Reading.{Stops};
ghost use Rattle.log_store.specs.Loads.{IsLoaded};
ghost use Rattle.log_store.specs.Refusals.{failed_step};
ghost use Rattle.std.specs.Prelude.{IfSome};

use crate::loaded::{Block, BlockCause, Commits, Loaded};
use crate::refusal::Stop;
use log_actions::{Commit, text_len};
use log_replay::Support;
use std::alloc::Global;
use std::marker::Model;
use std::sync::Arc;

/// The most bytes of a log's printed texts: 64 MiB.
pub const MOST_LOG_BYTES: u64 = 64 << 20;

/// Commits of the versions 0 and on, each of which is read after those before it, and whose printed texts have at most 64 MiB in
/// sum. Contracts see them.
#[derive(Drop)]
pub struct Kept {
    commits: Vec<Arc<Commit>>,
    bytes: u64,
    support: Support,
}

impl Model for Kept {
    ghost use Rattle.std.specs.Prelude.{List, map};
    ghost use Rattle.std.specs.Arc.{arc_value};
    ghost use Rattle.log_actions.specs.declared.actions.Action.{Action};
    ghost use Rattle.log_store.specs.Reading.{IsKept};

    ghost Value = { List (List Action) };

    ghost view = { λ k. map arc_value k.commits.items };

    ghost invariant = { λ k. IsKept (map arc_value k.commits.items) k.bytes k.support };
}

impl Kept {
    /// None yet.
    pub fn new(alloc: Global) -> Kept
        ensures { result ≡ [] }
    {
        Kept {
            commits: Vec::new(alloc),
            bytes: 0,
            support: Support::new(),
        }
    }

    /// How many there are, which is the next version.
    pub fn versions(&self) -> u64
        ensures { result ≡ length self.now }
    {
        self.support.versions()
    }

    /// Keeps the commit of the next version, or tells why it isn't kept; then nothing has changed. `Blocked` comes where its log isn't
    /// read with it, or is too large; `Failed` is want of memory, and never a fault of a store.
    pub fn keep(&mut self, alloc: Global, commit: Arc<Commit>) -> Result<(), Stop>
        requires { length self.old < 2 ^ 63 }
        ensures told { Stops (cause_with self.old commit.value) result }
        ensures more { OnOk result (self.new ≡ self.old ++ commit.value ∷ []) }
        ensures same { OnErr result (self.new ≡ self.old) }
        ensures no_store { failed_step result ≡ false }
    {
        let len = text_len(&commit);
        if len > MOST_LOG_BYTES - self.bytes {
            return Err(Stop::Blocked(BlockCause::TooLarge));
        }
        self.commits.reserve(1)?;
        self.support.admit(alloc, &commit)?;
        self.bytes += len;
        self.commits.push(commit).unwrap();
        Ok(())
    }

    /// What was loaded, with the block after it.
    pub fn loaded(self, block: Option<Block>) -> Loaded
        requires { IfSome block (λ b. b.version ≡ length self) }
        ensures value { result ≡ record { commits = self; bytes = printed_bytes self; block = block } }
        ensures kept { IsLoaded result }
    {
        Loaded {
            commits: Commits::of(self.commits),
            bytes: self.bytes,
            block,
        }
    }
}
