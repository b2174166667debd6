// Who asks, by the head of a request alone.
ghost use Rattle.std.specs.Prelude.{◌≡◌, ℕ, List, [], Some, Option, IfOk};
ghost use Rattle.share_request.specs.Callers as spec;
ghost use Rattle.share_request.specs.Requests.{at_route, below_in};

use crate::asked::Caller;
use crate::bearer::bearer_of;
use crate::path::{route_of, segments_of};
use crate::request::has_method;
use crate::target::{after, below_endpoint, split_query};
use case_table::Route;
use http_message::head::Head;
use std::alloc::{AllocError, Global};

// Who asks by a route, which isn't that of links.
fn caller_at(head: &Head, route: Route) -> Option<Caller>
    ensures { (names : List (List ℕ)) (query : Option (List ℕ)) → result ≡ spec.caller_of (at_route head.now route names query []) }
{
    if !has_method(head, route.method()) {
        return None;
    }
    match bearer_of(head) {
        Some(digest) => Some(Caller { digest, route }),
        None => None,
    }
}

fn caller_below(alloc: Global, head: &Head, below: &str) -> Result<Option<Caller>, AllocError>
    ensures { (query : Option (List ℕ)) → IfOk result (λ c. c ≡ spec.caller_of (below_in head.now (Some below.now) query [])) }
{
    if let Some(_) = after("files/", below) {
        return Ok(None);
    }
    let names = segments_of(alloc, below)?;
    match route_of(&names) {
        Some(route) => Ok(caller_at(head, route)),
        None => Ok(None),
    }
}

/// Who asks by the requests that begin with a head, and by which route, whatever their bodies say: the digest of the bearer token. It is
/// `None` exactly where [`request_of`](crate::request_of) gives a request that is answered whoever asks, or a link's. The error is want
/// of memory.
pub fn caller_of(alloc: Global, head: &Head) -> Result<Option<Caller>, AllocError>
    ensures { IfOk result (λ c. c ≡ spec.caller_in head.now) }
{
    let (path, _) = split_query(head.target.as_str());
    match below_endpoint(path) {
        Some(below) => caller_below(alloc, head, below),
        None => Ok(None),
    }
}
