// Whether a bucket can be a store.
ghost use Rattle.std.specs.Prelude.{◌≡◌, ◌≢◌, ◌≤◌, None, MatchResult, codes, ⊤};
ghost use Rattle.edge_core.specs.declared.store.Put.TheVariants as put;
ghost use Rattle.bucket_text.specs.declared.listing.Listing.{Listing};
ghost use Rattle.bucket_store.specs.Folders.{GetsPage, front_of};
ghost use Rattle.bucket_store.specs.Objects.{PutsAt, mark_of};
ghost use Rattle.bucket_store.specs.Sides.{Known, told_of};
ghost use Rattle.bucket_store.specs.Stores.{CanBeStore, check_bytes, check_name, next_number};

use crate::listing::{front_of, page_at};
use crate::objects::{PutEnd, put_numbered};
use crate::place::BucketPlace;
use crate::refusal::{BucketFault, refusal_of};
use crate::road::Road;
use edge_core::{Clock, Link, Put};
use std::alloc::Global;

// The object that is put twice.
const CHECK_NAME: &str = "_share_log/.share-put-check";

// Asks for a page of the folder of records.
fn check_listed<V: Link, C: Clock>(
    alloc: Global,
    place: &BucketPlace,
    road: &mut Road<V, C>,
) -> Result<(), BucketFault>
    ensures { Known (told_of V.coming V.closed C.coming road.old) (told_of V.coming V.closed C.coming road.new) (λ s t. MatchResult result (λ _. (page : Listing) × GetsPage place.now (front_of place.now (codes "_share_log")) None page s t) (λ _. ⊤)) }
{
    let Ok(front) = front_of(alloc, place, "_share_log") else {
        return Err(BucketFault::NotListed(refusal_of(alloc, &None)));
    };
    match page_at(alloc, place, road, front.as_str(), &None) {
        Ok(_) => Ok(()),
        Err(response) => Err(BucketFault::NotListed(refusal_of(alloc, &response))),
    }
}

// Puts the object.
fn put_once<V: Link, C: Clock>(
    alloc: Global,
    place: &BucketPlace,
    road: &mut Road<V, C>,
    mark: &str,
    number: &mut u64,
) -> PutEnd
    ensures number { number.new ≡ next_number number.old }
    ensures rises { number.old ≤ number.new }
    ensures told { Known (told_of V.coming V.closed C.coming road.old) (told_of V.coming V.closed C.coming road.new) (PutsAt place.now (mark_of mark.now number.new) check_name check_bytes result.put) }
{
    put_numbered(alloc, place, road, mark, number, CHECK_NAME, b"{}\n")
}

// Whether the object was put, or was there.
fn is_there(alloc: Global, first: &PutEnd) -> Result<(), BucketFault>
    ensures { MatchResult result (λ _. first.now.put ≢ put.Failed) (λ _. ⊤) }
{
    match first.put {
        Put::Stored => Ok(()),
        Put::Exists => Ok(()),
        Put::Failed => Err(BucketFault::NotStored(refusal_of(alloc, &first.response))),
    }
}

// Whether a put of the object was refused since it is there.
fn is_kept(alloc: Global, second: &PutEnd) -> Result<(), BucketFault>
    ensures { MatchResult result (λ _. second.now.put ≡ put.Exists) (λ _. ⊤) }
{
    match second.put {
        Put::Stored => Err(BucketFault::Overwritten),
        Put::Exists => Ok(()),
        Put::Failed => Err(BucketFault::NotStored(refusal_of(alloc, &second.response))),
    }
}

/// Looks whether the bucket can be a store.
pub(crate) fn check_bucket<V: Link, C: Clock>(
    alloc: Global,
    place: &BucketPlace,
    road: &mut Road<V, C>,
    mark: &str,
    number: &mut u64,
) -> Result<(), BucketFault>
    ensures rises { number.old ≤ number.new }
    ensures told { Known (told_of V.coming V.closed C.coming road.old) (told_of V.coming V.closed C.coming road.new) (λ s t. MatchResult result (λ _. CanBeStore place.now (mark_of mark.now (next_number number.old)) (mark_of mark.now (next_number (next_number number.old))) s t) (λ _. ⊤)) }
{
    match check_listed(alloc, place, road) {
        Ok(()) => {}
        Err(fault) => return Err(fault),
    }
    let first = put_once(alloc, place, road, mark, number);
    match is_there(alloc, &first) {
        Ok(()) => {}
        Err(fault) => return Err(fault),
    }
    let second = put_once(alloc, place, road, mark, number);
    is_kept(alloc, &second)
}
