// Workers side by side.
ghost use Rattle.std.specs.Prelude.{All, ◌≡◌, ◌<◌, ◌+◌, ◌-◌, ◌^◌, ◌||◌, ℕ, List, length, map, min, slice_index_or};
ghost use Rattle.share_book.specs.declared.entry.Entry.{Entry};
ghost use Rattle.share_pool.specs.OneHistory.{OneAt};
ghost use Rattle.share_pool.specs.Desks.{DeskWorks, HasPass, all_end, closed_in, is_fault, is_lack};

use crate::desk::{Desk, ServeEnd, serve_desk};
use crate::history::one_history;
use edge_core::{Clock, Gate, Listener, Store};
use share_hub::Hub;
use share_serve::Server;
use std::alloc::Global;
use std::sync::Wait;
use std::thread;
use std::thread::Threads;

// What the ends of some desks come to.
#[derive(Clone, Copy)]
pub(crate) struct Tally {
    lacking: bool,
    failed: bool,
    served: u64,
}

// With one more desk.
fn with_end(sum: Tally, end: Option<ServeEnd>) -> Tally
    ensures lacking { result.lacking ≡ (sum.lacking || is_lack end) }
    ensures failed { result.failed ≡ (sum.failed || is_fault end) }
    ensures served { result.served ≡ min (sum.served + closed_in end) (2 ^ 64 - 1) }
{
    match end {
        Some(ServeEnd::Closed { served }) => Tally {
            served: sum.served.saturating_add(served),
            ..sum
        },
        Some(ServeEnd::ListenerFault) => Tally {
            failed: true,
            ..sum
        },
        Some(ServeEnd::NoMemory) => Tally {
            lacking: true,
            ..sum
        },
        None => sum,
    }
}

// What all desks' ends come to.
fn all_end<N, W, C, L>(desks: &[Desk<N, W, C, L>]) -> ServeEnd
    ensures { result ≡ all_end (map (λ d. d.end) desks.now) }
{
    let mut sum = Tally {
        lacking: false,
        failed: false,
        served: 0,
    };
    for desk in desks {
        sum = with_end(sum, desk.end);
    }
    if sum.lacking {
        return ServeEnd::NoMemory;
    }
    if sum.failed {
        return ServeEnd::ListenerFault;
    }
    ServeEnd::Closed { served: sum.served }
}

/// A worker for each desk, each in a thread of its own where one can be made; the others work after them. It comes back when all have
/// ended, and says why: `NoMemory` where one of them ended so, else `ListenerFault` where one did, else how many lines they closed
/// together. There is then one history that begins with what each of them has seen, legal and by the hub's callers alone, in which each has
/// just the entries that it made; to say so their passes are held together, which changes none of them.
pub fn serve_all<
    R: Threads + Wait + Sync,
    N: Listener + Send,
    W: Store + Send,
    C: Clock + Send,
    G: Gate + Sync,
    L: Send,
>(
    rt: &R,
    alloc: Global,
    hub: &Hub,
    server: &Server,
    desks: &mut [Desk<N, W, C, L>],
    gate: &G,
) -> ServeEnd
    requires some { 0 < length desks.old }
    requires ready { All (λ d. HasPass hub.now d.pass) desks.old }
    ensures each { (i : ℕ) (d : _) → i < length desks.old → DeskWorks N.coming N.closed N.faults N.listens C.coming W.objects W.alone W.faults W.stored hub.now server.now (slice_index_or desks.old i d) (slice_index_or desks.new i d) }
    ensures answer { result ≡ all_end (map (λ d. d.end) desks.new) }
    ensures count { length desks.new ≡ length desks.old }
    ensures one { (history : List Entry) × OneAt hub.now.callers desks.new history }
{
    let count = desks.len();
    let work = |_: usize, desk: &mut Desk<N, W, C, L>|
        requires { HasPass hub.now desk.old.pass }
    { serve_desk(rt, alloc, hub, server, desk, gate) };
    thread::for_each_mut(rt, desks, count, &work);
    one_history(hub, desks);
    all_end(desks)
}
