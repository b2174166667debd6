// The client.
ghost use Rattle.std.specs.Prelude.{◌≡◌, ◌≤◌, ◌<◌, MatchResult, Ok, Err};
ghost use Rattle.share_client.specs.Clients.{client_profile};
ghost use Rattle.share_client.specs.Files.{FetchCause, Fetches, TellsUrl};
ghost use Rattle.share_client.specs.Listings.{ListsTablesOf};
ghost use Rattle.share_client.specs.Pieces.{PiecesAt};
ghost use Rattle.share_client.specs.Servers.{server_in};
ghost use Rattle.share_client.specs.Sides.{counts, HasCause, Known, Later};
ghost use Rattle.share_client.specs.Sizes.{SizeCause, SizesAt};
ghost use Rattle.share_client.specs.Tables.{ReadsChangesOf, ReadsDeltaOf, ReadsTableOf};
ghost use Rattle.share_client.specs.Targets.{target_in};

use crate::fetch::fetch_from;
use crate::lists::list_tables;
use crate::pieces::fetch_sized;
use crate::server::server_of;
use crate::size::size_from;
use crate::table_request::TableRequest;
use crate::tables::read_pages;
use crate::target::target_of;
use crate::{ClientFault, DeltaRead, QueryBody, SharedTable, TableRead};
use delta_lines::DeltaFile;
use edge_core::{Link, Sink};
use share_config::Profile;
use share_lines::{FileLine, Line};
use std::alloc::Global;

/// The client of a recipient, which asks the server of its profile over the link that is lent for a call (Delta Sharing PROTOCOL.md,
/// "REST APIs"). Each request goes over a line of its own, which is closed when its response was read or a fault came.
///
/// Contracts see the profile (`client_profile`). What they say of a link's lines they say where the link tells them.
#[derive(Drop)]
pub struct Client {
    profile: Profile,
}

impl Client {
    /// The client of that profile. It takes no memory.
    pub fn new(profile: Profile) -> Client
        ensures { client_profile result ≡ profile }
    {
        Client { profile }
    }

    /// The tables that are shared with the recipient: those of each share, in the order in which the server lists the shares and a
    /// share's tables ("List Shares" and "List All Tables in a Share"). A list may come in up to 100,000 pages.
    ///
    /// Every fault but `BadUrl` and `PageChanged` may come. After a fault nothing more is asked.
    pub fn list_tables<L: Link>(
        &self,
        alloc: Global,
        link: &mut L,
    ) -> Result<Vec<SharedTable>, ClientFault>
        ensures later { Later (counts L.faults L.read_faults L.write_faults link.old) (counts L.faults L.read_faults L.write_faults link.new) }
        ensures cause { HasCause result (counts L.faults L.read_faults L.write_faults link.old) (counts L.faults L.read_faults L.write_faults link.new) }
        ensures told { Known L.coming L.closed link.old link.new (λ s t. MatchResult result (λ v. ListsTablesOf (server_in (client_profile self.now)) (Ok v.items) s t) (λ e. ListsTablesOf (server_in (client_profile self.now)) (Err e) s t)) }
    {
        match server_of(alloc, &self.profile) {
            Ok(server) => list_tables(alloc, link, &server),
            Err(_) => Err(ClientFault::NoMemory),
        }
    }

    /// Reads a table by a query: the files of all its pages, in order ("Read Data from a Table"). The first request sends the body as
    /// it is, and each further one with the token of the page before it set as `pageToken`, and printed compact. A page has its
    /// version in `Delta-Table-Version`, and then a protocol line, a metaData line, file lines, and perhaps an endStreamAction line.
    /// It may come in up to 100,000 pages.
    ///
    /// `PageChanged` comes where a page has another version or another metaData line than the first. Every fault but `BadUrl` may
    /// come. After a fault nothing more is asked.
    pub fn read_table<L: Link>(
        &self,
        alloc: Global,
        link: &mut L,
        table: &SharedTable,
        body: &QueryBody,
    ) -> Result<TableRead, ClientFault>
        ensures later { Later (counts L.faults L.read_faults L.write_faults link.old) (counts L.faults L.read_faults L.write_faults link.new) }
        ensures cause { HasCause result (counts L.faults L.read_faults L.write_faults link.old) (counts L.faults L.read_faults L.write_faults link.new) }
        ensures told { Known L.coming L.closed link.old link.new (ReadsTableOf (server_in (client_profile self.now)) table.now body.now result) }
    {
        match server_of(alloc, &self.profile) {
            Ok(server) => {
                let mut files: Vec<FileLine> = Vec::new(alloc);
                let request = TableRequest::Query(table, body);
                match read_pages(alloc, link, &server, &request, &mut files) {
                    Ok((head, pages)) => Ok(TableRead {
                        version: head.version,
                        meta: Line::MetaData(head.front),
                        files,
                        pages,
                    }),
                    Err(fault) => Err(fault),
                }
            }
            Err(_) => Err(ClientFault::NoMemory),
        }
    }

    /// Reads a table by a query in the delta format, in which each file comes with what the table's log says of it ("API Response Format
    /// in Delta"). It asks and reads as `read_table` does, but with the field `delta-sharing-capabilities: responseformat=delta`, and
    /// lines of that format: a protocol line and a metaData line, file lines, and perhaps an endStreamAction line. So an answer in the
    /// parquet format is a bad reply.
    ///
    /// The faults are those of `read_table`. `PageChanged` comes where a page has another protocol line, too; but for the version its texts
    /// are both lines, with a line feed between.
    pub fn read_delta<L: Link>(
        &self,
        alloc: Global,
        link: &mut L,
        table: &SharedTable,
        body: &QueryBody,
    ) -> Result<DeltaRead, ClientFault>
        ensures later { Later (counts L.faults L.read_faults L.write_faults link.old) (counts L.faults L.read_faults L.write_faults link.new) }
        ensures cause { HasCause result (counts L.faults L.read_faults L.write_faults link.old) (counts L.faults L.read_faults L.write_faults link.new) }
        ensures told { Known L.coming L.closed link.old link.new (ReadsDeltaOf (server_in (client_profile self.now)) table.now body.now result) }
    {
        match server_of(alloc, &self.profile) {
            Ok(server) => {
                let mut found: Vec<DeltaFile> = Vec::new(alloc);
                let request = TableRequest::Delta(table, body);
                match read_pages(alloc, link, &server, &request, &mut found) {
                    Ok((head, pages)) => Ok(DeltaRead {
                        version: head.version,
                        protocol: head.front.protocol,
                        meta: head.front.meta,
                        files: found,
                        pages,
                    }),
                    Err(fault) => Err(fault),
                }
            }
            Err(_) => Err(ClientFault::NoMemory),
        }
    }

    /// Reads the changes of a table from a version to another, both included: the add, cdf and remove lines of all pages, in order
    /// ("Read Change Data Feed from a Table"). Pages are as those of `read_table`, but for the kinds of their lines.
    ///
    /// The faults are those of `read_table`.
    pub fn read_changes<L: Link>(
        &self,
        alloc: Global,
        link: &mut L,
        table: &SharedTable,
        from: u64,
        to: u64,
    ) -> Result<Vec<Line>, ClientFault>
        ensures later { Later (counts L.faults L.read_faults L.write_faults link.old) (counts L.faults L.read_faults L.write_faults link.new) }
        ensures cause { HasCause result (counts L.faults L.read_faults L.write_faults link.old) (counts L.faults L.read_faults L.write_faults link.new) }
        ensures told { Known L.coming L.closed link.old link.new (λ s t. MatchResult result (λ v. ReadsChangesOf (server_in (client_profile self.now)) table.now from to (Ok v.items) s t) (λ e. ReadsChangesOf (server_in (client_profile self.now)) table.now from to (Err e) s t)) }
    {
        match server_of(alloc, &self.profile) {
            Ok(server) => {
                let mut changes: Vec<Line> = Vec::new(alloc);
                let request = TableRequest::Changes(table, from, to);
                match read_pages(alloc, link, &server, &request, &mut changes) {
                    Ok((_head, _pages)) => Ok(changes),
                    Err(fault) => Err(fault),
                }
            }
            Err(_) => Err(ClientFault::NoMemory),
        }
    }

    /// Fetches the file of a link, as a server gives it, into the sink, flushes the sink and answers how many bytes the file has
    /// ("File"). The request has no bearer token. A file has at most 256 MiB, and is held whole before it is written.
    ///
    /// `BadUrl` comes exactly where the url isn't an absolute `http` URL with a host. `WriteFault` comes too where the sink failed,
    /// behind a front of the file; every other fault but `PageChanged`, `SizeChanged` and `TooManyPages` may come, and then nothing
    /// was written.
    pub fn fetch_file<L: Link, K: Sink>(
        &self,
        alloc: Global,
        link: &mut L,
        url: &str,
        sink: &mut K,
    ) -> Result<u64, ClientFault>
        ensures later { Later (counts L.faults L.read_faults L.write_faults link.old) (counts L.faults L.read_faults L.write_faults link.new) }
        ensures sink_later { K.faults sink.old ≤ K.faults sink.new }
        ensures cause { FetchCause result (counts L.faults L.read_faults L.write_faults link.old) (counts L.faults L.read_faults L.write_faults link.new) (K.faults sink.old) (K.faults sink.new) }
        ensures url { TellsUrl (target_in url.now) result }
        ensures told { Known L.coming L.closed link.old link.new (Fetches url.now (K.holds sink.old) (K.holds sink.new) result) }
    {
        match target_of(alloc, url) {
            Ok(Some(target)) => fetch_from(alloc, link, &target, sink),
            Ok(None) => Err(ClientFault::BadUrl),
            Err(_) => Err(ClientFault::NoMemory),
        }
    }

    /// Asks how many bytes the file of a link has, by HEAD. The request has no bearer token.
    ///
    /// `BadUrl` comes exactly where the url isn't an absolute `http` URL with a host. `BadReply` comes too where the response hasn't
    /// exactly one Content-Length of 1 to 18 digits; every other fault but `PageChanged`, `SizeChanged` and `TooManyPages` may come.
    pub fn file_size<L: Link>(
        &self,
        alloc: Global,
        link: &mut L,
        url: &str,
    ) -> Result<u64, ClientFault>
        ensures later { Later (counts L.faults L.read_faults L.write_faults link.old) (counts L.faults L.read_faults L.write_faults link.new) }
        ensures cause { SizeCause result (counts L.faults L.read_faults L.write_faults link.old) (counts L.faults L.read_faults L.write_faults link.new) }
        ensures url { TellsUrl (target_in url.now) result }
        ensures told { Known L.coming L.closed link.old link.new (SizesAt (target_in url.now) result) }
    {
        match target_of(alloc, url) {
            Ok(Some(target)) => size_from(alloc, link, &target),
            Ok(None) => Err(ClientFault::BadUrl),
            Err(_) => Err(ClientFault::NoMemory),
        }
    }

    /// Fetches the file of a link into the sink in pieces of `piece` bytes, 1 to 134,217,728, and answers how many bytes the file has:
    /// it asks the size by HEAD, and then range after range, the last one shorter, each over a line of its own. The requests have no
    /// bearer token. One piece is held at a time, or the whole file where the server passes over ranges; the sink is flushed behind each.
    ///
    /// `SizeChanged` comes where a piece is of a file of another size than that asked first, and `BadReply` too where a part isn't the
    /// range that was asked for. `TooManyPages` comes where bytes are left behind 100,000 pieces. `BadUrl` comes exactly where the url
    /// isn't an absolute `http` URL with a host. `WriteFault` comes too where the sink failed, behind a front of a piece. Every other
    /// fault but `PageChanged` may come. The pieces before a fault were written.
    pub fn fetch_pieces<L: Link, K: Sink>(
        &self,
        alloc: Global,
        link: &mut L,
        url: &str,
        piece: u64,
        sink: &mut K,
    ) -> Result<u64, ClientFault>
        requires { (0 < piece) × (piece ≤ 134_217_728) }
        ensures later { Later (counts L.faults L.read_faults L.write_faults link.old) (counts L.faults L.read_faults L.write_faults link.new) }
        ensures sink_later { K.faults sink.old ≤ K.faults sink.new }
        ensures cause { FetchCause result (counts L.faults L.read_faults L.write_faults link.old) (counts L.faults L.read_faults L.write_faults link.new) (K.faults sink.old) (K.faults sink.new) }
        ensures url { TellsUrl (target_in url.now) result }
        ensures told { Known L.coming L.closed link.old link.new (PiecesAt (target_in url.now) piece (K.holds sink.old) (K.holds sink.new) result) }
    {
        match target_of(alloc, url) {
            Ok(Some(target)) => fetch_sized(alloc, link, &target, piece, sink),
            Ok(None) => Err(ClientFault::BadUrl),
            Err(_) => Err(ClientFault::NoMemory),
        }
    }
}
