// Tables' files and changes, which come in pages.
ghost use Rattle.share_client.specs.Tables.{table_paging};
ghost use Rattle.share_client.specs.TableRequests.{request_text};
ghost use Rattle.share_client.specs.TableSteps.{PagesBehind, PagesOnto, TableTurn};
ghost use Rattle.share_client.specs.Sides.{counts, HasCause, Known, Later};

use crate::ClientFault;
use crate::ask::{Wanted, ask};
use crate::lists::MOST_PAGES;
use crate::page_head::{PageHead, token_behind};
use crate::server::Server;
use crate::table_page::{Content, PageLine, read_table_page};
use crate::table_request::TableRequest;
use edge_core::Link;
use json_tree::Text;
use std::alloc::Global;

// Asks for the page with that token, and reads its files or changes behind those that were read before. The answer is what all
// pages have alike, and the next page's token.
fn table_turn<L: Link, T: Content>(
    alloc: Global,
    link: &mut L,
    server: &Server,
    request: &TableRequest,
    token: &Option<Text>,
    found: &mut Vec<T>,
) -> Result<(PageHead<<T::Line as PageLine>::Front>, Option<Text>), ClientFault>
    ensures later { Later (counts L.faults L.read_faults L.write_faults link.old) (counts L.faults L.read_faults L.write_faults link.new) }
    ensures cause { HasCause result (counts L.faults L.read_faults L.write_faults link.old) (counts L.faults L.read_faults L.write_faults link.new) }
    ensures told { Known L.coming L.closed link.old link.new (TableTurn (table_paging T.Line.form T.reads server.now (request_text server.now request.now)) token.now found.old.items found.new.items result) }
{
    let text = match request.text(alloc, server, token) {
        Ok(text) => text,
        Err(_) => return Err(ClientFault::NoMemory),
    };
    match ask(alloc, link, &server.target, text.as_str(), Wanted::Whole) {
        Ok(response) => read_table_page(alloc, found, &response),
        Err(fault) => Err(fault),
    }
}

// Reads the pages behind the first one, which has the token of the next. The answer is how many pages there are, with the first.
fn later_pages<L: Link, T: Content>(
    alloc: Global,
    link: &mut L,
    server: &Server,
    request: &TableRequest,
    first: &PageHead<<T::Line as PageLine>::Front>,
    next: Text,
    found: &mut Vec<T>,
) -> Result<u64, ClientFault>
    ensures later { Later (counts L.faults L.read_faults L.write_faults link.old) (counts L.faults L.read_faults L.write_faults link.new) }
    ensures cause { HasCause result (counts L.faults L.read_faults L.write_faults link.old) (counts L.faults L.read_faults L.write_faults link.new) }
    ensures told { Known L.coming L.closed link.old link.new (PagesBehind (table_paging T.Line.form T.reads server.now (request_text server.now request.now)) first.now next found.old.items found.new.items result) }
{
    let mut token = Some(next);
    for number in 1..MOST_PAGES {
        let page = match table_turn(alloc, link, server, request, &token, found) {
            Ok(page) => page,
            Err(fault) => return Err(fault),
        };
        match token_behind(alloc, first, page) {
            Ok(Some(next)) => token = Some(next),
            Ok(None) => return Ok(number + 1),
            Err(fault) => return Err(fault),
        }
    }
    Err(ClientFault::TooManyPages)
}

// Reads all pages, behind what was read before. The answer is what all pages have alike, and how many there are.
pub(crate) fn read_pages<L: Link, T: Content>(
    alloc: Global,
    link: &mut L,
    server: &Server,
    request: &TableRequest,
    found: &mut Vec<T>,
) -> Result<(PageHead<<T::Line as PageLine>::Front>, u64), ClientFault>
    ensures later { Later (counts L.faults L.read_faults L.write_faults link.old) (counts L.faults L.read_faults L.write_faults link.new) }
    ensures cause { HasCause result (counts L.faults L.read_faults L.write_faults link.old) (counts L.faults L.read_faults L.write_faults link.new) }
    ensures told { Known L.coming L.closed link.old link.new (PagesOnto (table_paging T.Line.form T.reads server.now (request_text server.now request.now)) found.old.items found.new.items result) }
{
    let (first, next) = match table_turn(alloc, link, server, request, &None, found) {
        Ok(page) => page,
        Err(fault) => return Err(fault),
    };
    match next {
        Some(next) => match later_pages(alloc, link, server, request, &first, next, found) {
            Ok(pages) => Ok((first, pages)),
            Err(fault) => Err(fault),
        },
        None => Ok((first, 1)),
    }
}
