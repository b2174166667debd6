// The state of a table at a version, which several hold.
ghost use Rattle.std.specs.Prelude.{◌≡◌, IfOk, IfSome, option_copied};
ghost use Rattle.share_book.specs.Views.{shown_state};

use crate::places::{Lists, places_of};
use crate::shown::ShownFiles;
use log_replay::Snapshot;
use std::alloc::{AllocError, Global};
use std::marker::Model;
use std::sync::Arc;

/// The state of a table at a version, which several hold, with lists of the files that restrictions show of it. Contracts see the state.
#[derive(Drop)]
pub struct SharedSnapshot {
    held: Arc<Snapshot>,
    lists: Option<Arc<Lists>>,
}

impl Model for SharedSnapshot {
    ghost use Rattle.std.specs.Prelude.{All, IfSome, option_map};
    ghost use Rattle.std.specs.Arc.{arc_value};
    ghost use Rattle.log_replay.specs.State.{State};

    ghost Value = { State };

    ghost use Rattle.share_book.specs.Placed.{IsListOf};

    ghost view = { λ s. s.held.value };

    ghost invariant = { λ s. IfSome (option_map arc_value s.lists) (All (IsListOf s.held.value)) };
}

impl SharedSnapshot {
    /// The same snapshot, seen as its state alone, without lists.
    pub fn of(held: Arc<Snapshot>) -> SharedSnapshot
        ensures { result ≡ held.value }
    {
        SharedSnapshot { held, lists: None }
    }

    /// The snapshot.
    pub fn get(&self) -> &Snapshot
        ensures { result.now ≡ self.now }
    {
        &self.held
    }

    /// Its version.
    pub fn version(&self) -> u64
        ensures { result ≡ self.now.version }
    {
        self.held.version()
    }

    /// The same snapshot again, with its lists, for another holder. The error is want of memory.
    pub fn share(&self) -> Result<SharedSnapshot, AllocError>
        ensures { IfOk result (λ s. s ≡ self.now) }
    {
        let held = Arc::try_clone(&self.held)?;
        let lists = match &self.lists {
            Some(lists) => Some(Arc::try_clone(lists)?),
            None => None,
        };
        Ok(SharedSnapshot { held, lists })
    }

    /// The files that the restriction shows, all where there is none; none where they aren't listed.
    pub fn shown(&self, only: Option<&str>) -> Option<ShownFiles<'_>>
        ensures { IfSome result (λ files. files ≡ (shown_state (option_copied only.entry) self.now).files) }
    {
        let Some(only) = only else {
            return Some(ShownFiles::all(&self.held));
        };
        match &self.lists {
            Some(lists) => Some(ShownFiles::at(&self.held, lists.find(only)?)),
            None => None,
        }
    }

    /// The same with a list of the files that the restriction shows, unless it has one, or 2^32 files or more. The error is want of
    /// memory.
    pub(crate) fn listed(&self, alloc: Global, only: &str) -> Result<SharedSnapshot, AllocError>
        ensures { IfOk result (λ s. s ≡ self.now) }
    {
        if self.shown(Some(only)).is_some() {
            return self.share();
        }
        let Some(list) = places_of(alloc, &self.held, only)? else {
            return self.share();
        };
        let lists = Lists::with(alloc, self.lists.as_deref(), list, self.held.len())?;
        let held = Arc::try_clone(&self.held)?;
        Ok(SharedSnapshot {
            held,
            lists: Some(Arc::new(alloc, lists)?),
        })
    }
}
