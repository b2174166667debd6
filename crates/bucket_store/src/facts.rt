// What is looked at in a response.
ghost use Rattle.std.specs.Prelude.{◌≡◌, ◌<◌, ◌≤◌, ◌^◌, true, IfSome, Some, ℕ, bytes_eq, codes, length};
ghost use Rattle.bucket_store.specs.Objects as spec;
ghost use Rattle.bucket_store.specs.Objects.{IsFront, IsReply, TellsSize};
ghost use Rattle.bucket_text.specs.Listings as listings;
ghost use Rattle.file_ranges.specs.Ranges.{IsRange, Range, range_text};

use crate::asking::status_of;
use crate::exchange::Response;
use crate::looks::GetReply;
use crate::puts::Look;
use bucket_text::code_of;
use file_ranges::content_range::range_read;
use http_message::field::{count_named, first_named};
use http_message::framing::length_in;
use std::alloc::Global;

// The field that keeps the mark of the put that made an object.
const MARK_FIELD: &str = "x-amz-meta-share-put";

/// The body, empty where there is no response.
pub(crate) fn body_in(response: &Option<Response>) -> &[u8]
    ensures { result.now ≡ spec.body_in response.now }
{
    match response {
        Some(response) => &response.body,
        None => &[],
    }
}

// The value of the first field of that name, empty where there is none.
fn field_in<'a>(name: &str, response: &'a Option<Response>) -> &'a [u8]
    ensures { result.now ≡ spec.field_in name.now response.now }
{
    match response {
        Some(response) => first_named(&response.fields, name),
        None => &[],
    }
}

// Whether it has exactly one field of that name.
fn has_one(name: &str, response: &Option<Response>) -> bool
    ensures { result ≡ spec.has_one name.now response.now }
{
    match response {
        Some(response) => count_named(&response.fields, name) == 1,
        None => false,
    }
}

// Whether the body of an error says that no object has the name.
fn is_no_such_key(alloc: Global, body: &[u8]) -> bool
    ensures { result ≡ true → listings.code_of body.now ≡ Some (codes "NoSuchKey") }
{
    match code_of(alloc, body) {
        Ok(code) => code.as_str() == "NoSuchKey",
        Err(_) => false,
    }
}

// Whether an answer says that no object has the name: of status 404 only the body tells that from a bucket that isn't there.
fn says_absent(alloc: Global, status: Option<u16>, body: &[u8]) -> bool
    ensures { result ≡ true → listings.code_of body.now ≡ Some (codes "NoSuchKey") }
{
    match status {
        Some(404) => is_no_such_key(alloc, body),
        _ => false,
    }
}

// The first place and the last one that Content-Range names.
fn range_in(value: &[u8]) -> Option<(u64, u64)>
    ensures reads { IfSome result (λ r. (size : ℕ) × (value.now ≡ range_text (record { first = r.0; last = r.1; size = size }))) }
    ensures back { (range : Range) → IsRange range → range.size < 2 ^ 64 → value.now ≡ range_text range → result ≡ Some (range.first, range.last) }
{
    match range_read(value) {
        Some(range) => Some((range.first(), range.last())),
        None => None,
    }
}

// The size that Content-Range names.
fn size_in(value: &[u8]) -> Option<u64>
    ensures { IfSome result (λ size. (first last : ℕ) × (value.now ≡ range_text (record { first = first; last = last; size = size }))) }
{
    match range_read(value) {
        Some(range) => Some(range.size()),
        None => None,
    }
}

/// The size of the object that a response has a part of; none where it isn't told.
pub(crate) fn size_told(response: &Option<Response>) -> Option<u64>
    ensures { IfSome result (λ size. TellsSize response.now size) }
{
    match status_of(response) {
        Some(206) => size_in(field_in("content-range", response)),
        _ => None,
    }
}

/// What is looked at in the response to a get.
pub(crate) fn get_reply(alloc: Global, response: &Option<Response>) -> GetReply
    ensures { IsReply response.now result }
{
    let body = body_in(response);
    let status = status_of(response);
    GetReply {
        status,
        range: range_in(field_in("content-range", response)),
        length: body.len() as u64,
        no_such_key: says_absent(alloc, status, body),
    }
}

/// The length that the response to a HEAD tells; none where it doesn't tell exactly one.
pub(crate) fn length_told(response: &Option<Response>) -> Option<u64>
    ensures { result ≡ spec.length_told response.now }
{
    if has_one("content-length", response) {
        length_in(field_in("content-length", response))
    } else {
        None
    }
}

fn is_fine(status: Option<u16>) -> bool
    ensures { result ≡ spec.is_fine status }
{
    match status {
        Some(status) => status == 200,
        None => false,
    }
}

// Whether the field of marks has that mark.
fn has_mark(mark: &str, response: &Option<Response>) -> bool
    ensures { result ≡ bytes_eq (spec.field_in (codes "x-amz-meta-share-put") response.now) mark.now }
{
    field_in(MARK_FIELD, response) == mark.as_bytes()
}

/// What the response to a HEAD shows of the object that has a put's name.
pub(crate) fn look_of(mark: &str, response: &Option<Response>) -> Look
    ensures { result ≡ spec.look_of mark.now response.now }
{
    if !is_fine(status_of(response)) {
        return Look::Nothing;
    }
    if !has_one(MARK_FIELD, response) {
        return Look::Others;
    }
    if has_mark(mark, response) {
        Look::Ours
    } else {
        Look::Others
    }
}

/// Copies bytes from that place on into the front of `out`, as far as they fit, and tells how many that are.
pub(crate) fn take_from(bytes: &[u8], skip: u64, out: &mut [u8]) -> usize
    ensures within { result ≤ length out.new }
    ensures front { IsFront bytes.now skip result out.new }
{
    if skip >= bytes.len() as u64 {
        return 0;
    }
    let skip = skip as usize;
    let count = (bytes.len() - skip).min(out.len());
    out[..count].copy_from_slice(&bytes[skip..skip + count]);
    count
}
