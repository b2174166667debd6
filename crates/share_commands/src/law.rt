// The promise of a server, and what it keeps. The functions do nothing when they are called.
ghost use Rattle.share_commands.specs.Headline.{EqualViewsAnswerAlike, ServeKeeps, StdioKeeps, WritesReplies};
ghost use Rattle.share_commands.specs.Standing.{ServeStands, StdioStands};

use edge_core::{Clock, Listener, Store};
use share_pool::what_workers_add_stands;
use share_reply::chains_are_whole;
use share_serve::what_is_added_stands;

/// The promise, as `specs/Headline.antt` has it, from what `run` ensures and nothing else. In every run of `serve` and of `stdio` there
/// is one legal history, in which nobody but its callers has entries. Each reply to a recipient is one function of its request, the moment
/// and its own view, at a point of that history that isn't before what its connection had seen. It does nothing when it is called.
pub fn headline<N: Listener, W: Store, C: Clock, L>()
    // Of `run`'s clause `cause` for `stdio`, and for `serve`.
    ensures stdio { StdioKeeps }
    ensures serve { ServeKeeps L N.coming N.closed N.faults N.listens C.coming W.objects W.alone W.faults W.stored }
    // Whatever is written of a response is of such a reply.
    ensures replies { WritesReplies }
    // Worlds with equal views answer alike, links and tokens included.
    ensures alike { EqualViewsAnswerAlike }
{
    chains_are_whole();
}

/// A law: what a run of `stdio` and each worker of a run of `serve` added to the history, its own commits and edits and those that it
/// took over from others, stands in the history and in the store, each at its version or its number, however the run ended and whoever
/// else writes the store. From what `run` ensures of them and nothing else. It does nothing when it is called.
pub fn what_runs_add_stands<N: Listener, W: Store, C: Clock, L>()
    // Of `run`'s clause `cause` for `stdio`, and for `serve`.
    ensures stdio { StdioStands }
    ensures serve { ServeStands L N.coming N.closed N.faults N.listens C.coming W.objects W.alone W.faults W.stored }
{
    what_is_added_stands();
    what_workers_add_stands();
}
