// A file, by its link.
ghost use Rattle.std.specs.Prelude.{◌≡◌, ◌≤◌, ◌++◌, IfOk, Err, string_bytes};
ghost use Rattle.share_client.specs.declared.fault.ClientFault.TheVariants as fault;
ghost use Rattle.share_client.specs.Files.{link_text, query_tail, FetchCause, FetchesFrom};
ghost use Rattle.share_client.specs.Sides.{counts, Known, Later};

use crate::ClientFault;
use crate::ask::{Wanted, ask};
use crate::exchange::send;
use crate::request::get_text;
use crate::target::Target;
use edge_core::{Link, Sink};
use std::alloc::{AllocError, Global};

// The path, and a question mark and the query where there is one.
pub(crate) fn path_with_query(alloc: Global, target: &Target) -> Result<String, AllocError>
    ensures { IfOk result (λ t. string_bytes t ≡ target.now.path ++ query_tail target.now.query) }
{
    let path = target.path.as_str();
    match &target.query {
        Some(query) => {
            let query = query.as_str();
            format!(in alloc; "{path}?{query}")
        }
        None => String::from_str(alloc, path),
    }
}

// The request of a link. It has no token of who asks.
fn link_text(alloc: Global, target: &Target) -> Result<String, AllocError>
    ensures { IfOk result (λ t. string_bytes t ≡ link_text target.now) }
{
    let path = path_with_query(alloc, target)?;
    get_text(alloc, &path, target.host_field.as_str(), None)
}

// Fetches the file of a link into the sink, from where its requests go, and answers its length.
pub(crate) fn fetch_from<L: Link, K: Sink>(
    alloc: Global,
    link: &mut L,
    target: &Target,
    sink: &mut K,
) -> Result<u64, ClientFault>
    ensures later { Later (counts L.faults L.read_faults L.write_faults link.old) (counts L.faults L.read_faults L.write_faults link.new) }
    ensures sink_later { K.faults sink.old ≤ K.faults sink.new }
    ensures cause { FetchCause result (counts L.faults L.read_faults L.write_faults link.old) (counts L.faults L.read_faults L.write_faults link.new) (K.faults sink.old) (K.faults sink.new) }
    ensures url { ¬ (result ≡ Err fault.BadUrl) }
    ensures told { Known L.coming L.closed link.old link.new (FetchesFrom target.now (K.holds sink.old) (K.holds sink.new) result) }
{
    let text = match link_text(alloc, target) {
        Ok(text) => text,
        Err(_) => return Err(ClientFault::NoMemory),
    };
    match ask(alloc, link, target, text.as_str(), Wanted::Whole) {
        Ok(response) => match send(sink, response.body.as_slice()) {
            Ok(()) => Ok(response.body.len() as u64),
            Err(fault) => Err(fault),
        },
        Err(fault) => Err(fault),
    }
}
