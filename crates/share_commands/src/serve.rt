// The command `serve`.
ghost use Rattle.std.specs.Prelude.{◌≡◌, ◌<◌, ◌≤◌, ℕ, List, Some, length, max, min, slice_index_or};
ghost use Rattle.std.specs.Bool.{OnFalse, OnTrue};
ghost use Rattle.edge_core.specs.Faults.{Rose};
ghost use Rattle.share_book.specs.History.{caller_of};
ghost use Rattle.share_book.specs.Legal.{May};
ghost use Rattle.share_book.specs.declared.entry.Entry.{Entry};
ghost use Rattle.hub_catalog.specs.CatalogCalls.{Step};
ghost use Rattle.hub_catalog.specs.Opens.{first_history};
ghost use Rattle.share_config.specs.declared.config.Config.{Config};
ghost use Rattle.share_pool.specs.declared.desk.ServeEnd.{ServeEnd};
ghost use Rattle.share_serve.specs.Callers.{server_of};
ghost use Rattle.turn_cell.specs.Entries.{IsHistory};
ghost use Rattle.turn_cell.specs.Passes.{AllFresh};
ghost use Rattle.share_commands.specs.Serve.{AllWait, DoorFails, IsServing, Waits, end_of as end_is};

use crate::opening::Opened;
use edge_core::{Clock, Gate, Listener, Listening, Store};
use query_command::End;
use share_hub::HubPass;
use share_pool::{Desk, ServeEnd, serve_all};
use std::alloc::Global;
use std::sync::Wait;
use std::thread::Threads;

// How a run ends after its workers.
fn end_of(end: ServeEnd) -> End
    ensures { result ≡ end_is end }
{
    match end {
        ServeEnd::Closed { .. } => End::Done,
        ServeEnd::ListenerFault => End::ListenerFault,
        ServeEnd::NoMemory => End::NoMemory,
    }
}

// Gives a desk a place at the hub, and has its door listen. Whether it does.
fn make_ready<N: Listener, W: Store, C: Clock, L>(
    desk: &mut Desk<N, W, C, L>,
    pass: Option<HubPass>,
    port: u16,
) -> bool
    ensures waits { Waits N.coming N.closed N.faults N.listens C.coming W.objects W.alone W.faults W.stored desk.old desk.new }
    ensures pass { desk.new.pass ≡ pass }
    ensures listens { OnTrue result (N.listens desk.new.door ≡ Some port) }
    ensures fails { OnFalse result (Rose (N.faults desk.old.door) (N.faults desk.new.door)) }
{
    desk.pass = pass;
    match desk.door.listen(port) {
        Listening::Open => true,
        Listening::Failed => false,
    }
}

// The same with each desk, in order, up to the first whose door fails. Whether all listen.
fn make_all_ready<N: Listener, W: Store, C: Clock, L>(
    desks: &mut [Desk<N, W, C, L>],
    passes: Vec<HubPass>,
    port: u16,
) -> bool
    requires { length desks.old ≤ length passes.items }
    ensures count { length desks.new ≡ length desks.old }
    ensures waits { AllWait N.coming N.closed N.faults N.listens C.coming W.objects W.alone W.faults W.stored (length desks.old) desks.old desks.new }
    ensures ready { OnTrue result ((i : ℕ) (d : _) (p : _) → i < length desks.old → (slice_index_or desks.new i d).pass ≡ Some (slice_index_or passes.items i p)) }
    ensures listens { OnTrue result ((i : ℕ) (d : _) → i < length desks.old → N.listens (slice_index_or desks.new i d).door ≡ Some port) }
    ensures fails { OnFalse result (DoorFails N.coming N.closed N.faults N.listens C.coming W.objects W.alone W.faults W.stored (length desks.old) desks.old desks.new) }
{
    let mut passes = passes.into_iter();
    for desk in desks.iter_mut() {
        if !make_ready(desk, passes.next(), port) {
            return false;
        }
    }
    true
}

/// At how many desks workers serve, of so many: at the first desks, and at all where there are fewer than workers.
pub(crate) fn used_desks(workers: u32, count: usize) -> usize
    ensures { result ≡ min workers count }
{
    if (workers as usize) < count {
        workers as usize
    } else {
        count
    }
}

/// How many callers the hub of so many workers has: one each, and one where there is no worker.
pub(crate) fn callers_at(used: usize) -> u32
    requires { used ≤ 64 }
    ensures { result ≡ max 1 used }
{
    (used as u32).max(1)
}

/// Has a worker at each desk serve the connections that come to the port, by a server that is opened. It comes back where every worker
/// has ended, or, with no worker begun, where a door can't listen.
pub(crate) fn serve<
    R: Threads + Wait + Sync,
    W: Store + Send,
    C: Clock + Send,
    N: Listener + Send,
    G: Gate + Sync,
    L: Send,
>(rt: &R, alloc: Global, opened: Opened, port: u16, desks: &mut [Desk<N, W, C, L>], gate: &G) -> End
    requires enough { length desks.old ≤ length opened.passes.items }
    requires fresh { (h : List Entry) × AllFresh opened.hub h 0 opened.passes.items }
    requires callers { opened.hub.callers ≡ max 1 (length desks.old) }
    ensures count { length desks.new ≡ length desks.old }
    ensures serves { (config : Config) (found : List Step) → opened.server ≡ server_of config → AllFresh opened.hub (first_history found) 0 opened.passes.items
        → IsHistory caller_of May (max 1 (length desks.old)) (first_history found)
        → (e : ServeEnd) × (result ≡ end_is e) × IsServing N.coming N.closed N.faults N.listens C.coming W.objects W.alone W.faults W.stored config found port (length desks.old) e desks.old desks.new }
{
    let Opened {
        server,
        hub,
        passes,
    } = opened;
    if !make_all_ready(desks, passes, port) {
        return End::ListenerFault;
    }
    if desks.is_empty() {
        return End::Done;
    }
    end_of(serve_all(rt, alloc, &hub, &server, desks, gate))
}
