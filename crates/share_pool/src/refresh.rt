// What others stored is taken over, before a connection is served.
ghost use Rattle.std.specs.Prelude.{◌≡◌, Err, false};
ghost use Rattle.hub_calls.specs.Calls.{IsIdle};
ghost use Rattle.share_serve.specs.Sides.{held};
ghost use Rattle.share_pool.specs.Refreshing.{LogRefreshes, Refreshed, TakesCommits, TakesRecords, lacks_commits, lacks_records};

use edge_core::{Name, Store};
use share_hub::{CatalogRefusal, Hub, HubPass, RefreshRefusal};
use std::alloc::Global;
use std::sync::Wait;

// As many records, or commits of a log, as one call takes over.
const FULL: u32 = 64;

// How often a call is made that found as many. So others who go on storing can't hold a worker for ever.
const MOST_CALLS: u32 = 1_024;

// Whether a refresh of the catalogue was refused for want of memory.
fn lacks_records(refusal: CatalogRefusal) -> bool
    ensures { result ≡ lacks_records (Err refusal) }
{
    matches!(refusal, CatalogRefusal::NoMemory)
}

// The same of a log's.
fn lacks_commits(refusal: RefreshRefusal) -> bool
    ensures { result ≡ lacks_commits (Err refusal) }
{
    matches!(refusal, RefreshRefusal::NoMemory)
}

/// What is taken over with: a thread's handle, the memory and the hub.
#[derive(Drop)]
pub(crate) struct Refresher<'a, R> {
    pub(crate) rt: &'a R,
    pub(crate) alloc: Global,
    pub(crate) hub: &'a Hub,
}

impl<'a, R: Wait> Refresher<'a, R> {
    // Takes over the records that the store has, until a call finds fewer than it may, or is refused. Whether memory was wanting.
    fn take_records<W: Store>(&self, pass: &mut HubPass, store: &mut W) -> bool
        requires cell { (pass.old.cell ≡ self.now.hub.now) × (pass.old.holds ≡ false) }
        ensures same { IsIdle pass.old pass.new }
        ensures takes { TakesRecords result (held W.objects W.alone W.faults W.stored pass.old store.old) (held W.objects W.alone W.faults W.stored pass.new store.new) }
    {
        for calls in 0..MOST_CALLS {
            match self.hub.refresh_catalog(self.rt, self.alloc, pass, store) {
                Ok(refreshed) => {
                    if refreshed.found < FULL {
                        return false;
                    }
                }
                Err(refusal) => return lacks_records(refusal),
            }
        }
        false
    }

    // The same of the commits at a location.
    fn take_commits<W: Store>(&self, pass: &mut HubPass, store: &mut W, location: &Name) -> bool
        requires cell { (pass.old.cell ≡ self.now.hub.now) × (pass.old.holds ≡ false) }
        ensures same { IsIdle pass.old pass.new }
        ensures takes { TakesCommits location.now result (held W.objects W.alone W.faults W.stored pass.old store.old) (held W.objects W.alone W.faults W.stored pass.new store.new) }
    {
        for calls in 0..MOST_CALLS {
            match self.hub.refresh(self.rt, self.alloc, pass, store, location) {
                Ok(refreshed) => {
                    if refreshed.found < FULL {
                        return false;
                    }
                }
                Err(refusal) => return lacks_commits(refusal),
            }
        }
        false
    }

    // Of the logs at those locations, one after another.
    fn take_logs<W: Store>(&self, pass: &mut HubPass, store: &mut W, locations: &[Name]) -> bool
        requires cell { (pass.old.cell ≡ self.now.hub.now) × (pass.old.holds ≡ false) }
        ensures same { IsIdle pass.old pass.new }
        ensures logs { LogRefreshes locations.now result (held W.objects W.alone W.faults W.stored pass.old store.old) (held W.objects W.alone W.faults W.stored pass.new store.new) }
    {
        let mut lacked = false;
        for location in locations {
            lacked |= self.take_commits(pass, store, location);
        }
        lacked
    }

    /// Refreshes the catalogue, and then each log that is loaded. The session that follows shows what was seen so far, whatever is
    /// refused: only whether memory was wanting is told.
    pub(crate) fn refresh_all<W: Store>(&self, pass: &mut HubPass, store: &mut W) -> bool
        requires cell { (pass.old.cell ≡ self.now.hub.now) × (pass.old.holds ≡ false) }
        ensures same { IsIdle pass.old pass.new }
        ensures refreshed { Refreshed result (held W.objects W.alone W.faults W.stored pass.old store.old) (held W.objects W.alone W.faults W.stored pass.new store.new) }
    {
        let lacked = self.take_records(pass, store);
        match self.hub.locations(self.rt, self.alloc, pass) {
            Ok(locations) => lacked | self.take_logs(pass, store, &locations),
            Err(_) => true,
        }
    }
}
