// A client and a server in this process.
use crate::clients::{client_of, compare_answer};
use crate::places::{Place, server_of};
use edge_core::{MemClock, MemStore, OpenGate};
use row_files::{RowFault, RowFile, Told, clock_of, sink_of, store_of, text_or_nothing, word_at};
use serde_json::Value;
use share_client::Client;
use share_loop::{LoopLink, Peer};
use std::sync::Wait;

fn peer_of(file: &RowFile, row: &Value) -> Result<Peer<MemStore, MemClock, OpenGate>, RowFault> {
    let clock = clock_of(file, row)?;
    let server = server_of(file, row)?;
    let mut store = store_of(file, row)?;
    match Place::open(file.alloc(), &mut store) {
        Ok(place) => Ok(place.into_peer(server, store, clock)),
        Err(_) => Err(RowFault::Unknown("the catalogue")),
    }
}

// Compares what the row asks for: a table's read, or the size of a file and its pieces.
fn compare_served<R: Wait + Copy>(
    file: &RowFile,
    row: &Value,
    client: &Client,
    link: &mut LoopLink<R, MemStore, MemClock, OpenGate>,
    told: &mut Told,
) -> Result<(), RowFault> {
    let mut sink = sink_of(file, row)?;
    match word_at(row, "asks") {
        Some(call) => compare_answer(file, row, call, client, link, &mut sink, told),
        None => {
            compare_answer(file, row, "size", client, link, &mut sink, told);
            compare_answer(file, row, "pieces", client, link, &mut sink, told);
        }
    }
    told.want("out", text_or_nothing(file, row, "out"), sink.bytes());
    Ok(())
}

fn serve_to<R: Wait + Copy>(
    rt: R,
    file: &RowFile,
    row: &Value,
    client: &Client,
    told: &mut Told,
) -> Result<(), RowFault> {
    let peer = peer_of(file, row)?;
    let mut link = LoopLink::new(rt, file.alloc(), peer, Vec::new(file.alloc()))?;
    let compared = compare_served(file, row, client, &mut link, told);
    told.end(compared);
    Ok(())
}

/// A row of a server in this process: its `config` and `objects`, and the `profile` of its client. A row that `asks` for a call of the
/// client, as `delta`, has what that call takes, and its `answer`; each other fetches a file: its `url` and how many bytes a `piece` has;
/// then the `answer`, which is that of the size alone too, and what is written `out`.
pub(crate) fn served_row<R: Wait + Copy>(
    rt: R,
    file: &RowFile,
    row: &Value,
    told: &mut Told,
) -> Result<(), RowFault> {
    let client = client_of(file, row)?;
    serve_to(rt, file, row, &client, told)
}
