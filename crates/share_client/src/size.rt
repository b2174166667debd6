// The size of a file, by its link.
ghost use Rattle.std.specs.Prelude.{◌≡◌, IfOk, string_bytes};
ghost use Rattle.share_client.specs.Sides.{counts, HasCause, Known, Later};
ghost use Rattle.share_client.specs.Sizes.{size_in, size_text, SizesFrom};

use crate::ClientFault;
use crate::ask::{Wanted, ask};
use crate::exchange::Response;
use crate::fetch::path_with_query;
use crate::request::head_text;
use crate::target::Target;
use edge_core::Link;
use http_message::field::{count_named, first_named};
use http_message::framing::length_in;
use std::alloc::{AllocError, Global};

// The request for the head of a link's file. It has no token of who asks.
fn size_text(alloc: Global, target: &Target) -> Result<String, AllocError>
    ensures { IfOk result (λ t. string_bytes t ≡ size_text target.now) }
{
    let path = path_with_query(alloc, target)?;
    head_text(alloc, &path, target.host_field.as_str())
}

// The length that a response states.
fn size_in(response: &Response) -> Option<u64>
    ensures { result ≡ size_in response.now }
{
    if count_named(&response.fields, "content-length") != 1 {
        return None;
    }
    length_in(first_named(&response.fields, "content-length"))
}

// The size of a link's file.
pub(crate) fn size_from<L: Link>(
    alloc: Global,
    link: &mut L,
    target: &Target,
) -> Result<u64, ClientFault>
    ensures later { Later (counts L.faults L.read_faults L.write_faults link.old) (counts L.faults L.read_faults L.write_faults link.new) }
    ensures cause { HasCause result (counts L.faults L.read_faults L.write_faults link.old) (counts L.faults L.read_faults L.write_faults link.new) }
    ensures told { Known L.coming L.closed link.old link.new (SizesFrom target.now result) }
{
    let text = match size_text(alloc, target) {
        Ok(text) => text,
        Err(_) => return Err(ClientFault::NoMemory),
    };
    match ask(alloc, link, target, text.as_str(), Wanted::Head) {
        Ok(response) => match size_in(&response) {
            Some(size) => Ok(size),
            None => Err(ClientFault::BadReply { at: 0 }),
        },
        Err(fault) => Err(fault),
    }
}
