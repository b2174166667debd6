// What is seen of the book for a request.
ghost use Rattle.std.specs.Prelude.{◌≡◌, IfOk, IfSome};
ghost use Rattle.share_book.specs.Bases.{FilesStand};
ghost use Rattle.share_world.specs.Standing.{seen_at};
ghost use Rattle.share_book.specs.Looks.{look_of, who_of};
ghost use Rattle.share_book.specs.Views.{held_view};

use share_book::{Ask, Book, Look, Seen};
use std::alloc::{AllocError, Global};
use step_count::Steps;

// The work of the replays, which nobody reads.
struct Work;

// Keeps the state of the files that were found, where commits were left to replay.
fn keep(book: &mut Book, look: &Look, is_behind: bool) -> Result<(), AllocError>
    requires { IfSome look.now.seen (λ s. FilesStand book.old.past.history s.found) }
    ensures { book.new ≡ book.old }
{
    if is_behind { book.keep(look) } else { Ok(()) }
}

// What is found for one request. The state of its files is kept where commits were left to replay.
fn look(alloc: Global, book: &mut Book, ask: &Ask) -> Result<Look, AllocError>
    ensures same { book.new ≡ book.old }
    ensures seen { IfOk result (λ l. l.seen ≡ look_of (held_view book.old.past.history (who_of ask.now.who)) ask.now.want) }
{
    let pinned = book.pin(alloc, ask)?;
    book.touch(&pinned);
    let is_behind = pinned.is_behind();
    let mut steps: Steps<Work> = Steps::new();
    let look = pinned.complete(alloc, &mut steps)?;
    keep(book, &look, is_behind)?;
    Ok(look)
}

/// What is seen for what is asked, none where nothing is. The error is want of memory.
pub(crate) fn seen_of(
    alloc: Global,
    book: &mut Book,
    ask: &Option<Ask>,
) -> Result<Option<Seen>, AllocError>
    ensures same { book.new ≡ book.old }
    ensures seen { IfOk result (λ s. s ≡ seen_at book.old.past.history ask.now) }
{
    match ask {
        Some(ask) => Ok(look(alloc, book, ask)?.seen),
        None => Ok(None),
    }
}
