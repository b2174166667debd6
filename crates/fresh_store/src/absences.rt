// Names under which nothing was found, and when that was.
ghost use Rattle.std.specs.Prelude.{◌≡◌};
ghost use Rattle.fresh_store.specs.Fresh.{is_young};

use edge_core::Name;
use lru::LruCache;
use std::alloc::{AllocError, Global};
use std::num::NonZeroUsize;

// How many names are known at most; the one that was used least recently is forgotten first, and asked for again.
const MOST: usize = 16_384;

// What is known of a name.
#[derive(Clone, Copy)]
enum Known {
    // Nothing had it when a look began, at that moment.
    Absent(u64),
    // One of those who share this tried to put it, so it may be there at any time.
    Tried,
}

/// What several handles of a store found absent, and when.
#[derive(Drop)]
pub struct Absences {
    within: u64,
    by_name: LruCache<String, Known>,
}

// Whether less than `within` has passed since. A clock that was set back tells nothing.
fn is_young(at: u64, within: u64, now: u64) -> bool
    ensures { result ≡ is_young at within now }
{
    match now.checked_sub(at) {
        Some(age) => age < within,
        None => false,
    }
}

impl Absences {
    /// Nothing is known; what is found absent counts as absent for `within` milliseconds from when the look for it began, and with 0 not at
    /// all. The error is want of memory.
    pub fn new(alloc: Global, within: u64) -> Result<Absences, AllocError> {
        let Some(most) = NonZeroUsize::new(MOST) else {
            unreachable!()
        };
        Ok(Absences {
            within,
            by_name: LruCache::new(alloc, most)?,
        })
    }

    // Whether the name was found absent within that time.
    pub(crate) fn is_fresh(&mut self, name: &Name, now: u64) -> bool {
        match self.by_name.get(name.as_str()) {
            Some(Known::Absent(at)) => is_young(*at, self.within, now),
            Some(Known::Tried) | None => false,
        }
    }

    // A look that began at that moment found the name absent. Where memory is wanting the next look asks again.
    pub(crate) fn note(&mut self, alloc: Global, name: &Name, began: u64) {
        if matches!(self.by_name.get(name.as_str()), Some(Known::Tried)) {
            return;
        }
        if let Ok(name) = String::from_str(alloc, name.as_str()) {
            let _ = self.by_name.put(name, Known::Absent(began));
        }
    }

    // The name is put by one of those who share this.
    pub(crate) fn tried(&mut self, alloc: Global, name: &Name) {
        self.by_name.pop(name.as_str());
        if let Ok(name) = String::from_str(alloc, name.as_str()) {
            let _ = self.by_name.put(name, Known::Tried);
        }
    }
}
