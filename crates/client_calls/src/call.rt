// The calls of a client.
ghost use Rattle.std.specs.Prelude.{◌≡◌, ◌≤◌};
ghost use Rattle.share_client.specs.Clients.{client_profile};
ghost use Rattle.share_client.specs.Sides.{counts, Known, Later};
ghost use Rattle.share_client.specs.Steps.{Sends};
ghost use Rattle.client_calls.specs.Calls.{CallCause, Performs, TellsBadUrl};
ghost use Rattle.client_calls.specs.declared.call.Call.TheVariants as calls;

use crate::PieceSize;
use crate::texts::{changes_text, read_text, tables_text};
use edge_core::{Flushing, Link, Sink, write_all};
use json_tree::Text;
use share_client::{Client, ClientFault, QueryBody, SharedTable};
use std::alloc::Global;

/// What a client is told to do.
#[derive(Drop)]
pub enum Call {
    /// List the tables that are shared with the recipient.
    Tables,
    /// Read the files of a table, by that body of a query.
    Read(SharedTable, QueryBody),
    /// Read the changes of a table.
    Changes {
        /// The table.
        table: SharedTable,
        /// The first version.
        from: u64,
        /// The last version.
        to: u64,
    },
    /// Fetch the file of a link, whose url this is.
    Fetch(Text),
    /// Fetch the file of a link in pieces.
    FetchPieces {
        /// The url of the link.
        url: Text,
        /// How many bytes a piece has; the last one may have fewer.
        piece: PieceSize,
    },
}

// Writes the text, and hands on what the sink keeps back of it.
fn send<K: Sink>(sink: &mut K, text: &[u8]) -> Result<(), ClientFault>
    ensures later { K.faults sink.old ≤ K.faults sink.new }
    ensures sends { Sends (K.holds sink.old) (K.holds sink.new) (K.faults sink.old) (K.faults sink.new) text.now result }
{
    match write_all(sink, text) {
        Ok(()) => {}
        Err(_) => return Err(ClientFault::WriteFault),
    }
    match sink.flush() {
        Flushing::Flushed => Ok(()),
        Flushing::Failed => Err(ClientFault::WriteFault),
    }
}

fn list<L: Link, K: Sink>(
    alloc: Global,
    client: &Client,
    link: &mut L,
    sink: &mut K,
) -> Result<(), ClientFault>
    ensures later { Later (counts L.faults L.read_faults L.write_faults link.old) (counts L.faults L.read_faults L.write_faults link.new) }
    ensures sink_later { K.faults sink.old ≤ K.faults sink.new }
    ensures cause { CallCause result (counts L.faults L.read_faults L.write_faults link.old) (counts L.faults L.read_faults L.write_faults link.new) (K.faults sink.old) (K.faults sink.new) }
    ensures url { TellsBadUrl calls.Tables result }
    ensures told { Known L.coming L.closed link.old link.new (Performs (client_profile client.now) calls.Tables (K.holds sink.old) (K.holds sink.new) result) }
{
    let tables = match client.list_tables(alloc, link) {
        Ok(tables) => tables,
        Err(fault) => return Err(fault),
    };
    match tables_text(alloc, &tables) {
        Ok(text) => send(sink, &text),
        Err(_) => Err(ClientFault::NoMemory),
    }
}

fn read<L: Link, K: Sink>(
    alloc: Global,
    client: &Client,
    link: &mut L,
    table: &SharedTable,
    body: &QueryBody,
    sink: &mut K,
) -> Result<(), ClientFault>
    ensures later { Later (counts L.faults L.read_faults L.write_faults link.old) (counts L.faults L.read_faults L.write_faults link.new) }
    ensures sink_later { K.faults sink.old ≤ K.faults sink.new }
    ensures cause { CallCause result (counts L.faults L.read_faults L.write_faults link.old) (counts L.faults L.read_faults L.write_faults link.new) (K.faults sink.old) (K.faults sink.new) }
    ensures url { TellsBadUrl (calls.Read table.now body.now) result }
    ensures told { Known L.coming L.closed link.old link.new (Performs (client_profile client.now) (calls.Read table.now body.now) (K.holds sink.old) (K.holds sink.new) result) }
{
    // What was read is dropped in one place.
    let text = match client.read_table(alloc, link, table, body) {
        Ok(read) => read_text(alloc, &read),
        Err(fault) => return Err(fault),
    };
    match text {
        Ok(text) => send(sink, &text),
        Err(_) => Err(ClientFault::NoMemory),
    }
}

fn changes<L: Link, K: Sink>(
    alloc: Global,
    client: &Client,
    link: &mut L,
    table: &SharedTable,
    from: u64,
    to: u64,
    sink: &mut K,
) -> Result<(), ClientFault>
    ensures later { Later (counts L.faults L.read_faults L.write_faults link.old) (counts L.faults L.read_faults L.write_faults link.new) }
    ensures sink_later { K.faults sink.old ≤ K.faults sink.new }
    ensures cause { CallCause result (counts L.faults L.read_faults L.write_faults link.old) (counts L.faults L.read_faults L.write_faults link.new) (K.faults sink.old) (K.faults sink.new) }
    ensures url { TellsBadUrl (calls.Changes table.now from to) result }
    ensures told { Known L.coming L.closed link.old link.new (Performs (client_profile client.now) (calls.Changes table.now from to) (K.holds sink.old) (K.holds sink.new) result) }
{
    let lines = match client.read_changes(alloc, link, table, from, to) {
        Ok(lines) => lines,
        Err(fault) => return Err(fault),
    };
    match changes_text(alloc, &lines) {
        Ok(text) => send(sink, &text),
        Err(_) => Err(ClientFault::NoMemory),
    }
}

fn fetch<L: Link, K: Sink>(
    alloc: Global,
    client: &Client,
    link: &mut L,
    url: &Text,
    sink: &mut K,
) -> Result<(), ClientFault>
    ensures later { Later (counts L.faults L.read_faults L.write_faults link.old) (counts L.faults L.read_faults L.write_faults link.new) }
    ensures sink_later { K.faults sink.old ≤ K.faults sink.new }
    ensures cause { CallCause result (counts L.faults L.read_faults L.write_faults link.old) (counts L.faults L.read_faults L.write_faults link.new) (K.faults sink.old) (K.faults sink.new) }
    ensures url { TellsBadUrl (calls.Fetch url.now) result }
    ensures told { Known L.coming L.closed link.old link.new (Performs (client_profile client.now) (calls.Fetch url.now) (K.holds sink.old) (K.holds sink.new) result) }
{
    match client.fetch_file(alloc, link, url.as_str(), sink) {
        Ok(_) => Ok(()),
        Err(fault) => Err(fault),
    }
}

fn fetch_pieces<L: Link, K: Sink>(
    alloc: Global,
    client: &Client,
    link: &mut L,
    url: &Text,
    piece: PieceSize,
    sink: &mut K,
) -> Result<(), ClientFault>
    ensures later { Later (counts L.faults L.read_faults L.write_faults link.old) (counts L.faults L.read_faults L.write_faults link.new) }
    ensures sink_later { K.faults sink.old ≤ K.faults sink.new }
    ensures cause { CallCause result (counts L.faults L.read_faults L.write_faults link.old) (counts L.faults L.read_faults L.write_faults link.new) (K.faults sink.old) (K.faults sink.new) }
    ensures url { TellsBadUrl (calls.FetchPieces url.now piece) result }
    ensures told { Known L.coming L.closed link.old link.new (Performs (client_profile client.now) (calls.FetchPieces url.now piece) (K.holds sink.old) (K.holds sink.new) result) }
{
    match client.fetch_pieces(alloc, link, url.as_str(), piece.get(), sink) {
        Ok(_) => Ok(()),
        Err(fault) => Err(fault),
    }
}

/// Has the client make the call over the link, writes what is printed of its answer to the sink, and flushes the sink: of tables a line
/// with share, schema and table for each, of files the metaData line and a line for each, of changes their lines, and of a link its
/// file's bytes.
///
/// The faults are those of the client's call. `WriteFault` comes too where the sink failed, behind a front of the text or the piece.
/// After another fault nothing was written, but for the pieces of a file before it. `BadUrl` comes of a fetch alone.
pub fn perform<L: Link, K: Sink>(
    alloc: Global,
    client: &Client,
    link: &mut L,
    call: &Call,
    sink: &mut K,
) -> Result<(), ClientFault>
    ensures later { Later (counts L.faults L.read_faults L.write_faults link.old) (counts L.faults L.read_faults L.write_faults link.new) }
    ensures sink_later { K.faults sink.old ≤ K.faults sink.new }
    ensures cause { CallCause result (counts L.faults L.read_faults L.write_faults link.old) (counts L.faults L.read_faults L.write_faults link.new) (K.faults sink.old) (K.faults sink.new) }
    ensures url { TellsBadUrl call.now result }
    ensures told { Known L.coming L.closed link.old link.new (Performs (client_profile client.now) call.now (K.holds sink.old) (K.holds sink.new) result) }
{
    match call {
        Call::Tables => list(alloc, client, link, sink),
        Call::Read(table, body) => read(alloc, client, link, table, body, sink),
        Call::Changes { table, from, to } => changes(alloc, client, link, table, *from, *to, sink),
        Call::Fetch(url) => fetch(alloc, client, link, url, sink),
        Call::FetchPieces { url, piece } => fetch_pieces(alloc, client, link, url, *piece, sink),
    }
}
