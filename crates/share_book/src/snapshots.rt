// The states of one table's log that are kept.
ghost use Rattle.std.specs.Prelude.{◌≡◌, ℕ, ◌≤◌, [], Contains, IfOk, IfSome, OnOk, ◌⊎◌, option_map};
ghost use Rattle.log_replay.specs.State.{State};
ghost use Rattle.share_book.specs.Bases.{IsAtMost};
ghost use Rattle.share_book.specs.Pinning.{later};

use crate::snapshot::SharedSnapshot;
use lru::LruCache;
use std::alloc::{AllocError, Global};
use std::marker::Model;
use std::num::NonZeroUsize;

/// How many states are kept, of all tables together.
pub(crate) const MOST: usize = 64;

/// States of one log by their version, the one used last first.
#[derive(Drop)]
pub(crate) struct Snapshots {
    by_version: LruCache<u64, SharedSnapshot>,
}

impl Model for Snapshots {
    ghost use Rattle.std.specs.Prelude.{ℕ, List};
    ghost use Rattle.log_replay.specs.State.{State};

    ghost Value = { List (ℕ × State) };

    ghost view = { λ s. s.by_version.entries };
}

// The later of two states, of which the second counts where it isn't past the version.
fn later<'a>(
    best: Option<&'a SharedSnapshot>,
    state: &'a SharedSnapshot,
    version: u64,
) -> Option<&'a SharedSnapshot>
    ensures { option_map (λ s. s.now) result ≡ later version (option_map (λ s. s.now) best.entry) state.now }
{
    if state.version() > version {
        return best;
    }
    match best {
        None => Some(state),
        Some(found) => {
            if found.version() < state.version() {
                Some(state)
            } else {
                best
            }
        }
    }
}

impl Snapshots {
    /// None. The error is want of memory.
    pub(crate) fn new(alloc: Global) -> Result<Snapshots, AllocError>
        ensures { IfOk result (λ s. s ≡ []) }
    {
        let Some(most) = NonZeroUsize::new(MOST) else {
            unreachable!()
        };
        Ok(Snapshots {
            by_version: LruCache::new(alloc, most)?,
        })
    }

    /// How many there are.
    pub(crate) fn len(&self) -> usize {
        self.by_version.len()
    }

    /// The state of the greatest version at or below that one.
    pub(crate) fn latest(&self, version: u64) -> Option<&SharedSnapshot>
        ensures there { IfSome result (λ s. ((number : ℕ) × Contains self.now (number, s.now)) × (s.now.version ≤ version)) }
        ensures greatest { (e : ℕ × State) → Contains self.now e → e.1.version ≤ version → IsAtMost e.1.version (option_map (λ s. s.now) result) }
    {
        let mut best = None;
        for (_, state) in self.by_version.iter() {
            best = later(best, state, version);
        }
        best
    }

    /// The state of that version, if it is kept, is the one used last.
    pub(crate) fn touch(&mut self, version: u64)
        ensures { (e : ℕ × State) → Contains self.new e → Contains self.old e }
    {
        self.by_version.promote(&version);
    }

    /// Keeps a state. The error is want of memory; nothing has changed then.
    pub(crate) fn keep(&mut self, state: SharedSnapshot) -> Result<(), AllocError>
        ensures { (e : ℕ × State) → Contains self.new e → Contains self.old e ⊎ (e.1 ≡ state) }
    {
        match self.by_version.put(state.version(), state) {
            Ok(_) => Ok(()),
            Err(_) => Err(AllocError),
        }
    }

    /// Lets go of the one that was used least recently.
    pub(crate) fn drop_last(&mut self)
        ensures { (e : ℕ × State) → Contains self.new e → Contains self.old e }
    {
        self.by_version.pop_lru();
    }
}
