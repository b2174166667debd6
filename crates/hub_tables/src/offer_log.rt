// What an offer to a table's log is judged by.
ghost use Rattle.std.specs.Prelude.{IfOk, IfSome};
ghost use Rattle.share_book.specs.Bases.{CanReplay};
ghost use Rattle.share_book.specs.History.{table_on};
ghost use Rattle.share_book.specs.Legal.{There};
ghost use Rattle.hub_tables.specs.OfferLogs.{IsOfferLog, MakesRead};
ghost use Rattle.hub_tables.specs.TableTurns.{IsLog};

use commit_check::{Offer, next_version};
use log_store::Commits;
use share_book::{Book, Replay};
use std::alloc::{AllocError, Global};

/// What an offer is judged by, as one turn finds it: of the log no more than what came after the version that it read, so that no
/// commit costs the log's length.
#[derive(Drop)]
pub(crate) struct OfferLog {
    /// How many versions the log has.
    pub(crate) versions: u64,
    /// The commits after the version that was read, all where none was.
    pub(crate) winners: Commits,
    /// What makes the state of the version that was read, none where that isn't kept or none was read.
    pub(crate) read: Option<Replay>,
    /// What makes the last state, none where there is none.
    pub(crate) head: Option<Replay>,
}

// What makes the state of the version that an offer read.
fn read_in(
    book: &Book,
    alloc: Global,
    log: u32,
    offer: &Offer,
) -> Result<Option<Replay>, AllocError>
    requires { IsLog log book.now.past.history }
    ensures makes { IfOk result (λ r. There (table_on log book.now.past.history) (λ t. MakesRead offer.now.read t.commits r)) }
    ensures fits { IfOk result (λ r. IfSome r CanReplay) }
{
    book.len();
    match offer.read {
        Some(version) => book.replay_to(alloc, log, version.get()),
        None => Ok(None),
    }
}

/// What an offer to a table's log is judged by. The error is want of memory.
pub(crate) fn offer_log_in(
    book: &Book,
    alloc: Global,
    log: u32,
    offer: &Offer,
) -> Result<OfferLog, AllocError>
    requires { IsLog log book.now.past.history }
    ensures { IfOk result (λ o. There (table_on log book.now.past.history) (λ t. IsOfferLog offer.now.read t.commits o)) }
{
    book.len();
    let first = next_version(offer.read);
    let winners = book.commits_from(alloc, log, first)?;
    let read = read_in(book, alloc, log, offer)?;
    let head = book.head(alloc, log)?;
    Ok(OfferLog {
        versions: book.state(log).kept,
        winners,
        read,
        head,
    })
}
