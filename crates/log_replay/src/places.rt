// The places of files in a list of shared parts.
ghost use Rattle.std.specs.Prelude.{◌≡◌, ℕ, ◌+◌, ◌<◌, ◌≤◌, IfOk, Some, length, slice_get, slice_index_or};
ghost use Rattle.log_replay.specs.Listing.{IsListing, listed, starts_of};

use crate::part::Part;
use log_actions::AddFile;
use std::alloc::{AllocError, Global};
use std::sync::Arc;

// The place of each part's first file, and how many files there are.
pub(crate) fn starts(alloc: Global, parts: &[Arc<Part>]) -> Result<(Vec<u64>, u64), AllocError>
    requires { IsListing parts.now }
    ensures { IfOk result (λ s. (s.0.items ≡ starts_of 0 parts.now) × (s.1 ≡ length (listed parts.now))) }
{
    // So many are told as want of memory; of fewer the sum can't wrap.
    if parts.len() > 1 << 32 {
        return Err(AllocError);
    }
    let mut starts = Vec::with_capacity(alloc, parts.len())?;
    let mut len = 0u64;
    for part in parts {
        starts.push(len)?;
        len += part.len();
    }
    Ok((starts, len))
}

// The part in which a place is: the last that begins no later.
fn part_at(starts: &[u64], place: u64) -> usize
    requires rising { (i j : ℕ) → i < j → j < length starts.now → slice_index_or starts.now i 0 < slice_index_or starts.now j 0 }
    requires first { (0 < length starts.now) × (slice_index_or starts.now 0 0 ≤ place) }
    ensures within { result < length starts.now }
    ensures low { slice_index_or starts.now result 0 ≤ place }
    ensures high { result + 1 < length starts.now → place < slice_index_or starts.now (result + 1) 0 }
{
    match starts.binary_search(&place) {
        Ok(part) => part,
        Err(after) => after - 1,
    }
}

// The file at a place of all parts.
pub(crate) fn file_in<'a>(parts: &'a [Arc<Part>], starts: &[u64], place: u64) -> &'a AddFile
    requires listing { IsListing parts.now }
    requires starts { starts.now ≡ starts_of 0 parts.now }
    requires place { place < length (listed parts.now) }
    ensures { slice_get (listed parts.now) place ≡ Some result.now }
{
    let part = part_at(starts, place);
    parts[part].file(place - starts[part])
}
