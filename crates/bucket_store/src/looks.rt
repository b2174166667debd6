// What the answers to a get, a look at a size and a listing decide.
ghost use Rattle.std.specs.Prelude.{◌≡◌};
ghost use Rattle.bucket_store.specs.Looks as spec;

use crate::puts::MOST_TRIES;

/// What came back for a get of the places from `from` to `last`.
#[derive(Clone, Copy, Debug, PartialEq, Eq)]
pub struct GetReply {
    /// The status; none where the line was lost.
    pub status: Option<u16>,
    /// The first place and the last one that Content-Range names; none where it names none.
    pub range: Option<(u64, u64)>,
    /// How many bytes the body has.
    pub length: u64,
    /// Whether the body is an error that says that no object has the name.
    pub no_such_key: bool,
}

/// What follows from what came back for a get.
#[derive(Clone, Copy, Debug, PartialEq, Eq)]
pub enum GetNext {
    /// The body, from that place of it on, is what was asked for, or a front of it.
    Take(u64),
    /// The place is at or past the object's end.
    Empty,
    /// No object has the name.
    Absent,
    /// The request is made again.
    Again,
    /// The store failed.
    Failed,
}

/// What follows from what came back for a look at an object's size.
#[derive(Clone, Copy, Debug, PartialEq, Eq)]
pub enum SizeNext {
    /// The object's size.
    Size(u64),
    /// No object has the name.
    Absent,
    /// The request is made again.
    Again,
    /// The store failed.
    Failed,
}

/// What follows from what came back for a page of a listing.
#[derive(Clone, Copy, Debug, PartialEq, Eq)]
pub enum ListNext {
    /// The body is the page.
    Page,
    /// The request is made again.
    Again,
    /// The store failed.
    Failed,
}

/// Whether a status, or none, is of a failure that may pass.
pub fn is_passing(status: Option<u16>) -> bool
    ensures { result ≡ spec.may_pass status }
{
    match status {
        None => true,
        Some(429) => true,
        Some(500..=599) => true,
        Some(_) => false,
    }
}

// Whether Content-Range names a front of what was asked for, and the body is as long.
fn is_front(from: u64, last: u64, length: u64, range: Option<(u64, u64)>) -> bool
    ensures { result ≡ spec.is_front from last length range }
{
    match range {
        Some((first, end)) => {
            first == from && first <= end && end <= last && length > 0 && end - first == length - 1
        }
        None => false,
    }
}

/// What follows from what came back for the get of the places from `from` to `last`, the `made`-th request of it.
pub fn get_next(made: u32, from: u64, last: u64, reply: &GetReply) -> GetNext
    ensures { result ≡ spec.get_next made from last reply.now }
{
    match reply.status {
        Some(206) if is_front(from, last, reply.length, reply.range) => GetNext::Take(0),
        Some(200) if from < reply.length => GetNext::Take(from),
        Some(200 | 416) => GetNext::Empty,
        Some(404) if reply.no_such_key => GetNext::Absent,
        status if is_passing(status) && made < MOST_TRIES => GetNext::Again,
        _ => GetNext::Failed,
    }
}

/// What follows from what came back for a look at an object's size, the `made`-th request of it: the status, none where the line was lost,
/// and the length that Content-Length tells.
pub fn size_next(made: u32, status: Option<u16>, length: Option<u64>) -> SizeNext
    ensures { result ≡ spec.size_next made status length }
{
    match (status, length) {
        (Some(200), Some(length)) => SizeNext::Size(length),
        (Some(404), _) => SizeNext::Absent,
        (status, _) if is_passing(status) && made < MOST_TRIES => SizeNext::Again,
        _ => SizeNext::Failed,
    }
}

/// What follows from what came back for a page of a listing, the `made`-th request of it.
pub fn list_next(made: u32, status: Option<u16>) -> ListNext
    ensures { result ≡ spec.list_next made status }
{
    match status {
        Some(200) => ListNext::Page,
        status if is_passing(status) && made < MOST_TRIES => ListNext::Again,
        _ => ListNext::Failed,
    }
}
