// The log that events leave at a location.
ghost use Rattle.std.specs.Prelude.{◌≡◌, IfOk, None, OnOk};
ghost use Rattle.share_book.specs.Legal.{IsKeptLog};
ghost use Rattle.share_world.specs.Worlds.{commits_of, commits_with, with_commit};

use crate::event::Event;
use log_actions::Commit;
use log_store::{Kept, Loaded, Stop};
use share_book::{ReadyLog, ready};
use share_catalog::Location;
use std::alloc::{AllocError, Global};
use std::sync::Arc;

// No memory holds a log of so many versions.
const MOST_VERSIONS: u64 = 1 << 63;

// Adds a commit to a log, unless the log doesn't take it. The error is want of memory; then the log isn't used any more.
fn take(log: &mut Kept, alloc: Global, commit: &Arc<Commit>) -> Result<(), AllocError>
    ensures { OnOk result (log.new ≡ with_commit log.old commit.now.value) }
{
    if log.versions() >= MOST_VERSIONS {
        return Err(AllocError);
    }
    match log.keep(alloc, Arc::try_clone(commit)?) {
        Ok(()) => Ok(()),
        Err(Stop::Blocked(_)) => Ok(()),
        Err(Stop::Failed(_)) => Err(AllocError),
    }
}

// Adds what an event commits at the location.
fn add(log: &mut Kept, alloc: Global, location: &str, event: &Event) -> Result<(), AllocError>
    ensures { OnOk result (log.new ≡ commits_with location.now log.old event.now) }
{
    match event {
        Event::Commit(place, commit) => {
            if place.as_str() == location {
                take(log, alloc, commit)
            } else {
                Ok(())
            }
        }
        Event::Edit(_) => Ok(()),
        Event::Ask(..) => Ok(()),
    }
}

/// The log that the commits among some events leave at a location.
pub(crate) fn log_before(
    alloc: Global,
    events: &[Event],
    location: &Location,
) -> Result<ReadyLog, AllocError>
    ensures start { IfOk result (λ r. r ≡ record { location = location.now; commits = commits_of events.now location.now; block = None }) }
    ensures kept { IfOk result (λ r. IsKeptLog r.commits) }
{
    let name = location.name().copy(alloc)?;
    let mut log = Kept::new(alloc);
    for event in events {
        add(&mut log, alloc, location.as_str(), event)?;
    }
    let Loaded { commits, bytes, .. } = log.loaded(None);
    ready(alloc, name, commits, bytes, None)
}
