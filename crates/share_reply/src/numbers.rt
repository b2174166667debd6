// Numbers below 2^63, which no other of a log or a page is.
ghost use Rattle.std.specs.Prelude.{◌≡◌, IfOk};

use json_tree::{Place, Version};
use std::alloc::AllocError;

// The version of that number. A log has no other.
pub(crate) fn version_of(version: u64) -> Result<Version, AllocError>
    ensures { IfOk result (λ v. v ≡ version) }
{
    match Version::of(version) {
        Some(version) => Ok(version),
        None => Err(AllocError),
    }
}

// The place of that number. A list has no other.
pub(crate) fn place_of(place: u64) -> Result<Place, AllocError>
    ensures { IfOk result (λ p. p ≡ place) }
{
    match Place::of(place) {
        Some(place) => Ok(place),
        None => Err(AllocError),
    }
}
