// Lists that come in pages.
ghost use Rattle.std.specs.Prelude.{MatchResult, Ok, Err};
ghost use Rattle.share_client.specs.Listings.{list_paging, EachEnds, ListsEach, ListsTables};
ghost use Rattle.share_client.specs.Steps.{ListsOnto, ListTurn, ShareLists};
ghost use Rattle.share_client.specs.Sides.{counts, HasCause, Known, Later};

use crate::ClientFault;
use crate::ask::{Wanted, ask};
use crate::listing::{Listed, SharedTable, read_list};
use crate::route::{SHARES, list_text, tables_route};
use crate::server::Server;
use edge_core::Link;
use json_tree::Text;
use std::alloc::Global;

// The most pages of one answer.
pub(crate) const MOST_PAGES: u64 = 100_000;

// Asks for the page with that token, and reads its items behind those that were read before. The answer is the next page's token.
fn list_turn<L: Link, T: Listed>(
    alloc: Global,
    link: &mut L,
    server: &Server,
    route: &str,
    token: &Option<Text>,
    found: &mut Vec<T>,
) -> Result<Option<Text>, ClientFault>
    ensures later { Later (counts L.faults L.read_faults L.write_faults link.old) (counts L.faults L.read_faults L.write_faults link.new) }
    ensures cause { HasCause result (counts L.faults L.read_faults L.write_faults link.old) (counts L.faults L.read_faults L.write_faults link.new) }
    ensures told { Known L.coming L.closed link.old link.new (ListTurn (list_paging T.reads server.now route.now) token.now found.old.items found.new.items result) }
{
    let text = match list_text(alloc, server, route, token) {
        Ok(text) => text,
        Err(_) => return Err(ClientFault::NoMemory),
    };
    match ask(alloc, link, &server.target, text.as_str(), Wanted::Whole) {
        Ok(response) => read_list(alloc, found, response.body.as_slice()),
        Err(fault) => Err(fault),
    }
}

// Reads all pages of a list, behind what was read before.
pub(crate) fn list_all<L: Link, T: Listed>(
    alloc: Global,
    link: &mut L,
    server: &Server,
    route: &str,
    found: &mut Vec<T>,
) -> Result<(), ClientFault>
    ensures later { Later (counts L.faults L.read_faults L.write_faults link.old) (counts L.faults L.read_faults L.write_faults link.new) }
    ensures cause { HasCause result (counts L.faults L.read_faults L.write_faults link.old) (counts L.faults L.read_faults L.write_faults link.new) }
    ensures told { Known L.coming L.closed link.old link.new (ListsOnto (list_paging T.reads server.now route.now) found.old.items found.new.items result) }
{
    let mut token = None;
    for number in 0..MOST_PAGES {
        match list_turn(alloc, link, server, route, &token, found) {
            Ok(Some(next)) => token = Some(next),
            Ok(None) => return Ok(()),
            Err(fault) => return Err(fault),
        }
    }
    Err(ClientFault::TooManyPages)
}

// The tables of a share, behind those that were read before.
fn list_share<L: Link>(
    alloc: Global,
    link: &mut L,
    server: &Server,
    share: &Text,
    found: &mut Vec<SharedTable>,
) -> Result<(), ClientFault>
    ensures later { Later (counts L.faults L.read_faults L.write_faults link.old) (counts L.faults L.read_faults L.write_faults link.new) }
    ensures cause { HasCause result (counts L.faults L.read_faults L.write_faults link.old) (counts L.faults L.read_faults L.write_faults link.new) }
    ensures told { Known L.coming L.closed link.old link.new (ShareLists server.now share.now found.old.items found.new.items result) }
{
    let route = match tables_route(alloc, share.as_str()) {
        Ok(route) => route,
        Err(_) => return Err(ClientFault::NoMemory),
    };
    list_all(alloc, link, server, &route, found)
}

// The tables of each of these shares.
fn list_each<L: Link>(
    alloc: Global,
    link: &mut L,
    server: &Server,
    shares: &[Text],
) -> Result<Vec<SharedTable>, ClientFault>
    ensures later { Later (counts L.faults L.read_faults L.write_faults link.old) (counts L.faults L.read_faults L.write_faults link.new) }
    ensures cause { HasCause result (counts L.faults L.read_faults L.write_faults link.old) (counts L.faults L.read_faults L.write_faults link.new) }
    ensures told { Known L.coming L.closed link.old link.new (λ s t. MatchResult result (λ v. ListsEach server.now shares.now v.items s t) (λ e. EachEnds server.now shares.now e s t)) }
{
    let mut found = Vec::new(alloc);
    for share in shares {
        match list_share(alloc, link, server, share, &mut found) {
            Ok(()) => {}
            Err(fault) => return Err(fault),
        }
    }
    Ok(found)
}

// The tables of all shares.
pub(crate) fn list_tables<L: Link>(
    alloc: Global,
    link: &mut L,
    server: &Server,
) -> Result<Vec<SharedTable>, ClientFault>
    ensures later { Later (counts L.faults L.read_faults L.write_faults link.old) (counts L.faults L.read_faults L.write_faults link.new) }
    ensures cause { HasCause result (counts L.faults L.read_faults L.write_faults link.old) (counts L.faults L.read_faults L.write_faults link.new) }
    ensures told { Known L.coming L.closed link.old link.new (λ s t. MatchResult result (λ v. ListsTables server.now (Ok v.items) s t) (λ e. ListsTables server.now (Err e) s t)) }
{
    let mut shares: Vec<Text> = Vec::new(alloc);
    match list_all(alloc, link, server, SHARES, &mut shares) {
        Ok(()) => list_each(alloc, link, server, shares.as_slice()),
        Err(fault) => Err(fault),
    }
}
