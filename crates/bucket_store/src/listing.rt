// A listing of a folder.
ghost use Rattle.std.specs.Prelude.{◌≡◌, ℕ, Option, Some, None, MatchResult, IfOk, IfSome, IsSome, [], option_map, string_bytes};
ghost use Rattle.bucket_store.specs.Folders.{AsksPage, GetsPage, ListsFront, front_of};
ghost use Rattle.bucket_store.specs.Looks as looks;
ghost use Rattle.bucket_store.specs.Objects.{body_in};
ghost use Rattle.bucket_store.specs.Sides.{Known, told_of};
ghost use Rattle.bucket_store.specs.Tries as tries;
ghost use Rattle.bucket_store.specs.declared.looks.ListNext.TheVariants.{Page};
ghost use Rattle.bucket_text.specs.Listings as listings;

use crate::asking::{Answer, ask_again, status_of};
use crate::exchange::Response;
use crate::facts::body_in;
use crate::looks::{ListNext, list_next};
use crate::names::{in_order, push_segments};
use crate::objects::key_of;
use crate::place::BucketPlace;
use crate::road::Road;
use bucket_text::{Listing, listing_of};
use edge_core::{Clock, Link, Segments};
use json_tree::Text;
use signed_call::Call;
use std::alloc::{AllocError, Global};

// The most pages of a listing.
const MOST_PAGES: u32 = 100_000;

/// What the keys of a folder's objects begin with.
pub(crate) fn front_of(alloc: Global, place: &BucketPlace, dir: &str) -> Result<String, AllocError>
    ensures { IfOk result (λ t. string_bytes t ≡ front_of place.now dir.now) }
{
    let mut front = key_of(alloc, place, dir)?;
    front.push_str("/")?;
    Ok(front)
}

// The text, where there is one.
fn text_or_none(text: &Option<Text>) -> Option<&str>
    ensures { option_map (λ t. t.now) result ≡ text.now }
{
    match text {
        Some(text) => Some(text.as_str()),
        None => None,
    }
}

// The page that a response is; none where it isn't read.
fn page_of(alloc: Global, response: &Option<Response>) -> Option<Listing>
    ensures { IfSome result (λ page. listings.listing_of (body_in response.now) ≡ Some page) }
{
    match listing_of(alloc, body_in(response)) {
        Ok(page) => Some(page),
        Err(_) => None,
    }
}

// The page that came, if one did.
fn page_told(alloc: Global, answer: &Answer) -> Option<Listing>
    ensures fine { IsSome result → looks.list_next answer.now.made (tries.status_of answer.now.response) ≡ Page }
    ensures read { IfSome result (λ page. listings.listing_of (body_in answer.now.response) ≡ Some page) }
{
    match list_next(answer.made, status_of(&answer.response)) {
        ListNext::Page => page_of(alloc, &answer.response),
        _ => None,
    }
}

/// A page of a listing: of the names that begin so, from that token on. The error is the response, where it isn't one.
pub(crate) fn page_at<V: Link, C: Clock>(
    alloc: Global,
    place: &BucketPlace,
    road: &mut Road<V, C>,
    front: &str,
    token: &Option<Text>,
) -> Result<Listing, Option<Response>>
    ensures { Known (told_of V.coming V.closed C.coming road.old) (told_of V.coming V.closed C.coming road.new) (λ s t. MatchResult result (λ page. GetsPage place.now front.now token.now page s t) (λ _. (made : ℕ) × (response : Option _) × AsksPage place.now front.now token.now made response s t)) }
{
    let call = Call::List {
        prefix: front,
        token: text_or_none(token),
    };
    let answer = ask_again(alloc, place, road, &call);
    match page_told(alloc, &answer) {
        Some(page) => Ok(page),
        None => Err(answer.response),
    }
}

// The segments that follow this front, page after page; none where a page isn't had.
fn list_front<V: Link, C: Clock>(
    alloc: Global,
    place: &BucketPlace,
    road: &mut Road<V, C>,
    front: &str,
) -> Option<Segments>
    ensures { Known (told_of V.coming V.closed C.coming road.old) (told_of V.coming V.closed C.coming road.new) (ListsFront place.now front.now result) }
{
    let mut segments = Vec::new(alloc);
    let mut token = None;
    for _turn in 0..MOST_PAGES {
        let Listing { keys, next } = match page_at(alloc, place, road, front, &token) {
            Ok(page) => page,
            Err(_) => return None,
        };
        match push_segments(alloc, &mut segments, front, keys.items()) {
            Ok(()) => {}
            Err(_) => return None,
        }
        match next {
            Some(next) => token = Some(next),
            None => return in_order(segments),
        }
    }
    None
}

/// The names in a folder; none where they aren't had.
pub(crate) fn list_folder<V: Link, C: Clock>(
    alloc: Global,
    place: &BucketPlace,
    road: &mut Road<V, C>,
    dir: &str,
) -> Option<Segments>
    ensures { Known (told_of V.coming V.closed C.coming road.old) (told_of V.coming V.closed C.coming road.new) (ListsFront place.now (front_of place.now dir.now) result) }
{
    match front_of(alloc, place, dir) {
        Ok(front) => list_front(alloc, place, road, front.as_str()),
        Err(_) => None,
    }
}
