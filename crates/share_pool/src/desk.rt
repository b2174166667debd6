// One worker.
ghost use Rattle.std.specs.Prelude.{◌≡◌, ◌≤◌, false, if◌then◌else◌, true};
ghost use Rattle.hub_calls.specs.Calls.{IsIdle};
ghost use Rattle.share_serve.specs.Sides.{held};
ghost use Rattle.share_pool.specs.Desks.{DeskWorks, HasPass};
ghost use Rattle.share_pool.specs.Posts.{post};
ghost use Rattle.share_pool.specs.Visits.{ServesOne, Works, lacks};
ghost use Rattle.share_pool.specs.declared.desk.ServeEnd.TheVariants.{NoMemory};

use crate::refresh::Refresher;
use edge_core::{Clock, Gate, Listener, Store, Taken};
use share_hub::{Hub, HubPass};
use share_serve::{Server, SessionEnd, serve_conn};
use std::alloc::Global;
use std::sync::Wait;
use step_count::Steps;

/// Why a worker ended, or all of them did.
#[derive(Clone, Copy, Debug, PartialEq, Eq)]
pub enum ServeEnd {
    /// No further line comes, and memory was never wanting; so many lines were closed, or 2^64 - 1 where there are more.
    Closed {
        /// The number of lines.
        served: u64,
    },
    /// The door failed: its count of faults rose in this call.
    ListenerFault,
    /// Memory was wanting in a session, or as what others stored was taken over before one. All lines were served all the same.
    NoMemory,
}

/// What a worker works with, and its answer.
#[derive(Drop)]
pub struct Desk<N, W, C, L> {
    /// Its place at the hub.
    pub pass: Option<HubPass>,
    /// Where its lines come from.
    pub door: N,
    /// The store that it reads and adds to.
    pub store: W,
    /// What its requests are dated by.
    pub clock: C,
    /// The steps of its replays.
    pub steps: Steps<L>,
    /// Why it ended, none before that.
    pub end: Option<ServeEnd>,
}

fn closing(lacking: bool, end: ServeEnd) -> ServeEnd
    ensures { result ≡ (if lacking then NoMemory else end) }
{
    if lacking { ServeEnd::NoMemory } else { end }
}

// Whether memory was wanting in a session.
fn is_lack(end: SessionEnd) -> bool
    ensures { result ≡ lacks end }
{
    matches!(end, SessionEnd::NoMemory { .. })
}

// Serves a line that was accepted, and says whether memory was wanting: it takes over what others stored, serves the line, and
// closes it. It is handed the line, so the store is looked at when the line is there, and not before the accept.
fn serve_line<R: Wait, N: Listener, W: Store, C: Clock, G: Gate, L>(
    rt: &R,
    alloc: Global,
    hub: &Hub,
    server: &Server,
    gate: &G,
    mut input: N::In,
    mut output: N::Out,
    pass: &mut HubPass,
    door: &mut N,
    store: &mut W,
    clock: &mut C,
    steps: &mut Steps<L>,
) -> bool
    requires cell { (pass.old.cell ≡ hub.now) × (pass.old.holds ≡ false) }
    requires out { N.out door.old ≡ true }
    requires fresh { (N.In.faults input ≡ 0) × (N.Out.faults output ≡ 0) }
    ensures same { IsIdle pass.old pass.new }
    ensures listens { N.listens door.new ≡ N.listens door.old }
    ensures later { N.faults door.old ≤ N.faults door.new }
    ensures serves { ServesOne server.now (N.In.left input) (N.Out.holds output) (post (N.coming door.old) (N.closed door.old) (C.coming clock.old) (held W.objects W.alone W.faults W.stored pass.old store.old)) (post (N.coming door.new) (N.closed door.new) (C.coming clock.new) (held W.objects W.alone W.faults W.stored pass.new store.new)) result }
{
    let lacked = Refresher { rt, alloc, hub }.refresh_all(pass, store);
    let end = serve_conn(
        rt,
        alloc,
        hub,
        server,
        pass,
        store,
        clock,
        gate,
        &mut input,
        &mut output,
        steps,
    );
    door.close(input, output);
    lacked | is_lack(end)
}

// Accepts the lines of a door, one after another, and serves each.
fn serve_lines<R: Wait, N: Listener, W: Store, C: Clock, G: Gate, L>(
    rt: &R,
    alloc: Global,
    hub: &Hub,
    server: &Server,
    pass: &mut HubPass,
    door: &mut N,
    store: &mut W,
    clock: &mut C,
    steps: &mut Steps<L>,
    gate: &G,
) -> ServeEnd
    requires cell { (pass.old.cell ≡ hub.now) × (pass.old.holds ≡ false) }
    ensures same { IsIdle pass.old pass.new }
    ensures listens { N.listens door.new ≡ N.listens door.old }
    ensures works { Works server.now (post (N.coming door.old) (N.closed door.old) (C.coming clock.old) (held W.objects W.alone W.faults W.stored pass.old store.old)) (post (N.coming door.new) (N.closed door.new) (C.coming clock.new) (held W.objects W.alone W.faults W.stored pass.new store.new)) (N.faults door.old) (N.faults door.new) result }
{
    let mut served: u64 = 0;
    let mut lacking = false;
    for _ in rt.forever() {
        match door.accept() {
            Taken::Line(input, output) => {
                lacking |= serve_line(
                    rt, alloc, hub, server, gate, input, output, pass, door, store, clock, steps,
                );
                served = served.saturating_add(1);
            }
            Taken::End => return closing(lacking, ServeEnd::Closed { served }),
            Taken::Failed => return closing(lacking, ServeEnd::ListenerFault),
        }
    }
    unreachable!()
}

/// One worker: it serves the lines of its desk's door one after another, until no further line comes or the door fails, and leaves
/// its answer in `end`.
///
/// Once it has accepted a line it refreshes the catalogue, and then each log that is loaded, so that a connection sees what other
/// servers had stored before it, up to 65,536 edits and as many commits of each table; it serves the connection; and it closes the
/// line. A refresh that is refused is no hindrance to the session behind it. Want of memory, in a session or in a refresh, ends
/// neither the other sessions nor the worker, and the answer is then `NoMemory`.
pub fn serve_desk<R: Wait, N: Listener, W: Store, C: Clock, G: Gate, L>(
    rt: &R,
    alloc: Global,
    hub: &Hub,
    server: &Server,
    desk: &mut Desk<N, W, C, L>,
    gate: &G,
)
    requires pass { HasPass hub.now desk.old.pass }
    ensures works { DeskWorks N.coming N.closed N.faults N.listens C.coming W.objects W.alone W.faults W.stored hub.now server.now desk.old desk.new }
{
    let Desk {
        pass,
        door,
        store,
        clock,
        steps,
        end,
    } = desk;
    let Some(pass) = pass else { unreachable!() };
    *end = Some(serve_lines(
        rt, alloc, hub, server, pass, door, store, clock, steps, gate,
    ));
}
