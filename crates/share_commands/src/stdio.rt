// The command `stdio`.
ghost use Rattle.std.specs.Prelude.{◌≡◌, ◌∷◌, [], ◌≤◌, List, length, Some};
ghost use Rattle.share_book.specs.declared.entry.Entry.{Entry};
ghost use Rattle.hub_calls.specs.Calls.{P};
ghost use Rattle.turn_cell.specs.Passes.{AllFresh};
ghost use Rattle.share_commands.specs.Steps.{Runs};
ghost use Rattle.share_commands.specs.Stdio.{end_after as end_is, end_without as end_with_none};
ghost use Rattle.share_commands.specs.StdioSteps.{IsOpened, LooksOnly, ServesOne};
ghost use Rattle.share_commands.specs.declared.words.Command.TheVariants.{Stdio};

use crate::opening::{NoServer, Opened, open_server};
use edge_core::{Clock, Gate, Sink, Source, Store};
use query_command::{Edge, End};
use share_hub::HubPass;
use share_serve::{SessionEnd, serve_conn};
use std::alloc::Global;
use std::sync::Wait;

// How a run ends for want of a server.
pub(crate) fn end_without(why: NoServer) -> End
    ensures { result ≡ end_with_none why }
{
    match why {
        NoServer::Configuration => End::Configuration,
        NoServer::Record { number } => End::Record { number },
        NoServer::StoreFault => End::StoreFault,
        NoServer::NoMemory => End::NoMemory,
    }
}

// How a run ends after a session.
fn end_after(end: SessionEnd) -> End
    ensures { result ≡ end_is end }
{
    match end {
        SessionEnd::Done { .. } => End::Done,
        SessionEnd::Truncated { .. } | SessionEnd::BadMessage { .. } => End::Input,
        SessionEnd::ReadFault { .. } => End::ReadFault,
        SessionEnd::WriteFault { .. } => End::WriteFault,
        SessionEnd::BodyCut { .. } => End::BodyCut,
        SessionEnd::NoMemory { .. } => End::NoMemory,
    }
}

// Opens a server for so many callers over the store.
pub(crate) fn open_over<S: Source, K: Sink, M: Sink, W: Store, C: Clock, G: Gate, L>(
    alloc: Global,
    callers: u32,
    edge: &mut Edge<S, K, M, W, C, G, L>,
) -> Result<Opened, NoServer>
    requires callers { (1 ≤ callers) × (callers ≤ 65) }
    ensures opened { IsOpened result callers edge.old.objects edge.new.objects edge.old.store_faults edge.new.store_faults }
    ensures looks { LooksOnly edge.old edge.new }
{
    open_server(alloc, &mut edge.store, callers)
}

// The one pass of a hub with one caller.
fn only(mut passes: Vec<HubPass>) -> HubPass
    requires { length passes.items ≡ 1 }
    ensures { passes.items ≡ result ∷ [] }
{
    match passes.pop() {
        Some(pass) => pass,
        None => unreachable!(),
    }
}

// Serves the one connection. What the output keeps back of a response that was cut is handed on too.
fn serve<R: Wait, S: Source, K: Sink, M: Sink, W: Store, C: Clock, G: Gate, L>(
    rt: &R,
    alloc: Global,
    opened: Opened,
    edge: &mut Edge<S, K, M, W, C, G, L>,
) -> SessionEnd
    requires one { length opened.passes.items ≡ 1 }
    requires fresh { (h : List Entry) × AllFresh opened.hub h 0 opened.passes.items }
    ensures { (pass : P) → opened.passes.items ≡ pass ∷ [] → ServesOne opened.server pass result edge.old edge.new }
{
    let Opened {
        server,
        hub,
        passes,
    } = opened;
    let mut pass = only(passes);
    let end = serve_conn(
        rt,
        alloc,
        &hub,
        &server,
        &mut pass,
        &mut edge.store,
        &mut edge.clock,
        &edge.gate,
        &mut edge.input,
        &mut edge.output,
        &mut edge.steps,
    );
    edge.output.flush();
    pass.known();
    end
}

/// Opens a server over the store, and serves one connection over the input and the output.
pub(crate) fn stdio<R: Wait, S: Source, K: Sink, M: Sink, W: Store, C: Clock, G: Gate, L>(
    rt: &R,
    alloc: Global,
    edge: &mut Edge<S, K, M, W, C, G, L>,
) -> End
    ensures { Runs (Some Stdio) edge.old edge.new result }
{
    match open_over(alloc, 1, edge) {
        Ok(opened) => end_after(serve(rt, alloc, opened, edge)),
        Err(why) => end_without(why),
    }
}
