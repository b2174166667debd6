// Servers over one store. What a session needs is kept in the type, so that the functions of rows have no clauses, and what a call
// promises is known inside a small function alone.
ghost use Rattle.std.specs.Prelude.{◌≡◌, false};

use edge_core::{MemClock, MemSource, MemStore, OpenGate, Sink};
use row_files::{RowFault, RowFile, member_at};
use serde_json::Value;
use share_config::config_of;
use share_hub::{Hub, HubPass, OpenRefusal};
use share_loop::Peer;
use share_serve::{Server, SessionEnd, serve_conn};
use std::alloc::Global;
use std::sync::Wait;
use step_count::Steps;

fn config_text(file: &RowFile, row: &Value) -> Result<Vec<u8>, RowFault> {
    match member_at(row, "config") {
        Some(value) => file.text(value),
        None => file.text_named("config"),
    }
}

/// The server of the `config` of a row, or that of the text of this name.
pub(crate) fn server_of(file: &RowFile, row: &Value) -> Result<Server, RowFault> {
    let text = config_text(file, row)?;
    match config_of(file.alloc(), &text) {
        Ok(config) => Ok(Server::of(config)),
        Err(_) => Err(RowFault::Member("config")),
    }
}

// The work of a replay.
struct Work;

/// The shared state of a server with one caller.
#[derive(Drop)]
pub(crate) struct Place {
    hub: Hub,
    pass: HubPass,
    ghost idle: { (pass.cell ≡ hub) × (pass.holds ≡ false) },
}

impl Place {
    /// The state over what the store has.
    pub(crate) fn open(alloc: Global, store: &mut MemStore) -> Result<Place, OpenRefusal> {
        let (hub, mut passes) = Hub::open(alloc, store, 1)?;
        match passes.pop() {
            Some(pass) => Ok(Place { hub, pass }),
            None => Err(OpenRefusal::NoMemory),
        }
    }

    /// How the session of a connection ends.
    pub(crate) fn serve<R: Wait, K: Sink>(
        &mut self,
        rt: &R,
        alloc: Global,
        server: &Server,
        store: &mut MemStore,
        clock: &mut MemClock,
        source: &mut MemSource,
        sink: &mut K,
    ) -> SessionEnd {
        let mut steps: Steps<Work> = Steps::new();
        serve_conn(
            rt,
            alloc,
            &self.hub,
            server,
            &mut self.pass,
            store,
            clock,
            &OpenGate,
            source,
            sink,
            &mut steps,
        )
    }

    /// The server in this process that has this state.
    pub(crate) fn into_peer(
        self,
        server: Server,
        store: MemStore,
        clock: MemClock,
    ) -> Peer<MemStore, MemClock, OpenGate> {
        let Place { hub, pass } = self;
        Peer::new(hub, pass, server, store, clock, OpenGate)
    }
}
