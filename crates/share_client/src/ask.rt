// A request that is answered, or refused.
ghost use Rattle.std.specs.Prelude.{◌≡◌};
ghost use Rattle.share_client.specs.Asking.{AsksFor, TellsRefused, is_fine, to_head};
ghost use Rattle.share_client.specs.Sides.{counts, HasCause, Known, Later};

use crate::ClientFault;
use crate::exchange::{Response, exchange};
use crate::target::Target;
use edge_core::Link;
use share_lines::error_of;
use std::alloc::Global;

// What is wanted of a response.
#[derive(Clone, Copy, Debug, PartialEq, Eq)]
pub(crate) enum Wanted {
    // All of it, of status 200.
    Whole,
    // The head alone, of status 200: the request is HEAD.
    Head,
    // A part, of status 206, or all of it, of status 200: the request has a Range.
    Part,
}

fn is_to_head(wanted: Wanted) -> bool
    ensures { result ≡ to_head wanted }
{
    match wanted {
        Wanted::Whole | Wanted::Part => false,
        Wanted::Head => true,
    }
}

fn is_fine(wanted: Wanted, status: u16) -> bool
    ensures { result ≡ is_fine wanted status }
{
    match wanted {
        Wanted::Whole | Wanted::Head => status == 200,
        Wanted::Part => status == 200 || status == 206,
    }
}

// What a response of another status says.
fn refused(alloc: Global, response: &Response) -> ClientFault
    ensures { TellsRefused response.now result }
{
    match error_of(alloc, &response.body) {
        Ok(Some((refusal, _))) => ClientFault::Refused {
            status: response.status,
            refusal: Some(refusal),
        },
        Ok(None) => ClientFault::Refused {
            status: response.status,
            refusal: None,
        },
        Err(_) => ClientFault::NoMemory,
    }
}

// Asks on a line of its own, and takes a response of a status that is wanted alone.
pub(crate) fn ask<L: Link>(
    alloc: Global,
    link: &mut L,
    target: &Target,
    text: &str,
    wanted: Wanted,
) -> Result<Response, ClientFault>
    ensures later { Later (counts L.faults L.read_faults L.write_faults link.old) (counts L.faults L.read_faults L.write_faults link.new) }
    ensures cause { HasCause result (counts L.faults L.read_faults L.write_faults link.old) (counts L.faults L.read_faults L.write_faults link.new) }
    ensures told { Known L.coming L.closed link.old link.new (AsksFor wanted target.now text.now result) }
{
    match exchange(alloc, link, target, text, is_to_head(wanted)) {
        Ok(response) => {
            if is_fine(wanted, response.status) {
                Ok(response)
            } else {
                Err(refused(alloc, &response))
            }
        }
        Err(fault) => Err(fault),
    }
}
