// Where objects end.
ghost use Rattle.std.specs.Prelude.{◌≡◌};
ghost use Rattle.bucket_store.specs.Objects as spec;
ghost use Rattle.bucket_store.specs.Objects.{IsEnd};

use crate::exchange::Response;
use crate::facts::size_told;
use json_tree::Text;
use std::alloc::Global;

/// Where an object ends. It is kept, since objects don't change.
#[derive(Drop)]
pub(crate) struct ObjectEnd {
    /// The object's name.
    pub(crate) name: Text,
    /// How many bytes it has.
    pub(crate) size: u64,
}

/// The end of the object of that name, where the response to a get of it tells it, and memory isn't wanting.
pub(crate) fn end_told(alloc: Global, name: &str, response: &Option<Response>) -> Option<ObjectEnd>
    ensures { IsEnd name.now response.now result }
{
    let size = match size_told(response) {
        Some(size) => size,
        None => return None,
    };
    match String::from_str(alloc, name) {
        Ok(text) => Some(ObjectEnd {
            name: Text::of(text),
            size,
        }),
        Err(_) => None,
    }
}

/// Whether a place is at or past the end of the object of that name, where this is its end.
pub(crate) fn is_past(end: &Option<ObjectEnd>, name: &str, from: u64) -> bool
    ensures { result ≡ spec.is_past end.now name.now from }
{
    match end {
        Some(end) => end.name.as_str() == name && end.size <= from,
        None => false,
    }
}
