// The objects that file links stand for.
ghost use Rattle.std.specs.Prelude.{◌≡◌, ◌==◌, ◌&&◌};
ghost use Rattle.share_reply.specs.Links as links;
ghost use Rattle.share_reply.specs.Stops.{Gives};

use crate::refusing::refuse;
use crate::stop::Stop;
use case_table::Refusal;
use edge_core::Name;
use json_tree::Millis;
use log_actions::path_name;
use share_book::{Found, Seen, Spot};
use signed_link::LinkParts;
use std::alloc::Global;

// The grant and the binding are those that the link was given under.
fn is_as_given(parts: &LinkParts, spot: &Spot) -> bool
    ensures { result ≡ (spot.now.grant == parts.now.grant && spot.now.binding == parts.now.binding) }
{
    spot.grant().get() == parts.grant.get() && spot.binding().get() == parts.binding.get()
}

fn object_at(alloc: Global, parts: &LinkParts, spot: &Spot) -> Result<Name, Stop>
    ensures { Gives result (links.object_at parts.now spot.now) }
{
    if !is_as_given(parts, spot) {
        return Err(refuse(alloc, Refusal::LinkRevoked));
    }
    match path_name(alloc, spot.location(), &parts.path)? {
        Some(name) => Ok(name),
        None => Err(refuse(alloc, Refusal::FileGone)),
    }
}

fn object_by(alloc: Global, parts: &LinkParts, seen: &Option<Seen>) -> Result<Name, Stop>
    ensures { Gives result (links.object_by parts.now seen.now) }
{
    let Some(seen) = seen else {
        return Err(refuse(alloc, Refusal::LinkRevoked));
    };
    match &seen.found {
        Found::Table(spot, _) => object_at(alloc, parts, spot),
        Found::Names(_) | Found::NoTable => { Err(refuse(alloc, Refusal::LinkRevoked)) }
    }
}

// The name of the object that a link is answered with.
pub(crate) fn linked_object(
    alloc: Global,
    seen: &Option<Seen>,
    now: Millis,
    parts: &Option<LinkParts>,
) -> Result<Name, Stop>
    ensures { Gives result (links.linked_object seen.now now parts.now) }
{
    let Some(parts) = parts else {
        return Err(refuse(alloc, Refusal::LinkInvalid));
    };
    if parts.expires.get() <= now.get() {
        return Err(refuse(alloc, Refusal::LinkExpired));
    }
    object_by(alloc, parts, seen)
}
