// A commit to a log of the book.
ghost use Rattle.std.specs.Prelude.{◌≡◌, ◌<◌, ◌++◌, ◌∷◌, [], List, Ok, IfOk, OnOk, length};
ghost use Rattle.log_actions.specs.declared.actions.Action.{Action};
ghost use Rattle.log_replay.specs.Standing.{IsSupported};
ghost use Rattle.log_replay.specs.State.{IsHead, state_of};
ghost use Rattle.share_book.specs.Bases.{CanReplay, Makes};
ghost use Rattle.share_book.specs.History.{table_on};
ghost use Rattle.share_book.specs.Legal.{TakesCommit, There};
ghost use Rattle.share_world.specs.Standing.{IsIdle, Stands, committed_history};
ghost use Rattle.share_world.specs.Worlds.{takes};
ghost use Rattle.share_world.specs.declared.event.Event.{Event as OneEvent};
ghost use Rattle.share_world.specs.declared.event.Event.TheVariants as event_is;

use edge_core::Name;
use log_actions::{Commit, text_len};
use log_replay::refusal_after;
use log_store::MOST_LOG_BYTES;
use share_book::{Book, SharedCommit, SharedSnapshot};
use std::alloc::{AllocError, Global};
use std::sync::Arc;

// The state after all commits of a log, none where it has none. The book keeps it for the next commit.
fn head_of(alloc: Global, book: &mut Book, log: u32) -> Result<Option<SharedSnapshot>, AllocError>
    requires there { log < length book.old.past.rooms }
    requires table { 0 < log }
    ensures same { book.new ≡ book.old }
    ensures head { IfOk result (λ s. There (table_on log book.old.past.history) (λ t. IsHead t.commits s)) }
{
    book.state(log);
    let Some(replay) = book.head(alloc, log)? else {
        return Ok(None);
    };
    let head = replay.made(alloc)?;
    book.keep_state(log, head.share()?)?;
    Ok(Some(head))
}

// Whether a log takes a commit.
fn does_take(alloc: Global, book: &mut Book, log: u32, commit: &Commit) -> Result<bool, AllocError>
    requires there { log < length book.old.past.rooms }
    requires table { 0 < log }
    ensures same { book.new ≡ book.old }
    ensures takes { IfOk result (λ b. There (table_on log book.old.past.history) (λ t. b ≡ takes t.commits commit.now)) }
{
    let state = book.state(log);
    let head = head_of(alloc, book, log)?;
    let head = head.as_ref().map(SharedSnapshot::get);
    let refusal = refusal_after(state.kept, head, commit.actions());
    let is_short = text_len(commit) <= MOST_LOG_BYTES - state.bytes;
    Ok(refusal.is_none() && is_short)
}

// Adds a commit that a log takes.
fn commit_on(book: &mut Book, log: u32, commit: &Arc<Commit>) -> Result<(), AllocError>
    requires idle { IsIdle book.old.past.history }
    requires there { log < length book.old.past.rooms }
    requires takes { TakesCommit book.old.past.history log commit.now.value }
    ensures { OnOk result (book.new.past.history ≡ committed_history book.old.past.history log commit.now.value) }
{
    let held = Arc::try_clone(commit)?;
    let shared = SharedCommit::of(Arc::try_clone(commit)?);
    book.len();
    book.reserve(log)?;
    if book.begin(0, log) {
        book.commit(0, log, held, shared, text_len(commit), false);
        book.abort(0, log);
        Ok(())
    } else {
        unreachable!()
    }
}

/// Adds a commit at a location, where the book has its log and the log takes it. The error is want of memory; then the book isn't used
/// any more.
pub(crate) fn commit_in(
    alloc: Global,
    book: &mut Book,
    location: &Name,
    commit: &Arc<Commit>,
) -> Result<(), AllocError>
    requires { (before : List OneEvent) × Stands book.old.past.history before }
    ensures { (before : List OneEvent) → Stands book.old.past.history before → OnOk result (Stands book.new.past.history (before ++ event_is.Commit location.now commit.now ∷ [])) }
{
    book.len();
    let Some(log) = book.log_of(location.as_str()) else {
        return Ok(());
    };
    if does_take(alloc, book, log, commit)? {
        commit_on(book, log, commit)
    } else {
        Ok(())
    }
}
