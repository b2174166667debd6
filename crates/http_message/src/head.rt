// Heads as texts.
ghost use Rattle.std.specs.Prelude.{◌≡◌, ◌≤◌, ◌<◌, ℕ, ◌-◌, ◌^◌, List, length, map, min, sum_by, IfOk, MatchBool};
ghost use Rattle.httparse.specs.Borrowed.{header_parts};
ghost use Rattle.http_message.specs.Fields.{field_len};
ghost use Rattle.http_message.specs.Heads.{IsHeadText, IsTrailersText};
ghost use Rattle.http_message.specs.HeadReadings.{TellsHeadText};
ghost use Rattle.http_message.specs.Fronts.{TellsFront};

use crate::field::Fields;
use httparse::{EMPTY_HEADER, Error, Header, Request, Status, parse_headers};
use json_tree::Text;
use std::alloc::{AllocError, Global};

/// The head of a request (RFC 9112, section 3).
#[derive(Drop)]
pub struct Head {
    /// The method, as `GET`.
    pub method: Text,
    /// The target, as it was written.
    pub target: Text,
    /// The minor version: 0 for HTTP/1.0, and 1 for HTTP/1.1.
    pub minor: u8,
    /// The fields, in order.
    pub fields: Fields,
}

// Why the front of a text is no head with at most 64 fields.
#[derive(Clone, Copy, Debug, PartialEq, Eq)]
pub(crate) enum HeadFault {
    NoHead,
    NoMemory,
}

impl From<AllocError> for HeadFault {
    ghost use Rattle.std.specs.Prelude.{◌≡◌};
    ghost use Rattle.http_message.specs.declared.head.HeadFault.TheVariants.{NoMemory};

    ghost from_gives = { λ _ e. e ≡ NoMemory };

    fn from(_error: AllocError) -> HeadFault {
        HeadFault::NoMemory
    }
}

// How many bytes the names and values have together, or the greatest number where there are more.
fn total_len(headers: &[Header<'_>]) -> usize
    ensures { result ≡ min (sum_by field_len (map header_parts headers.now)) (2 ^ 64 - 1) }
{
    let mut total: usize = 0;
    for header in headers {
        total = total
            .saturating_add(header.name.len())
            .saturating_add(header.value.len());
    }
    total
}

pub(crate) fn copy_fields(alloc: Global, headers: &[Header<'_>]) -> Result<Fields, AllocError>
    ensures { IfOk result (λ fields. fields ≡ map header_parts headers.now) }
{
    let mut fields = Fields::with_capacity(alloc, total_len(headers), headers.len())?;
    for header in headers {
        fields.push(header.name.as_bytes(), header.value)?;
    }
    Ok(fields)
}

// The head at the front of the text, and its length; a fault where no head of at most 64 fields is at the front.
fn front_of(alloc: Global, text: &[u8]) -> Result<(Head, usize), HeadFault>
    ensures { TellsFront text.now result }
{
    let mut room = [EMPTY_HEADER; 64];
    let mut request = Request::new(&mut room);
    match request.parse(text) {
        Ok(Status::Complete(len)) => {
            let method = Text::of(String::from_str(alloc, request.method.unwrap())?);
            let target = Text::of(String::from_str(alloc, request.path.unwrap())?);
            let minor = request.version.unwrap();
            let fields = copy_fields(alloc, request.headers)?;
            Ok((
                Head {
                    method,
                    target,
                    minor,
                    fields,
                },
                len,
            ))
        }
        _ => Err(HeadFault::NoHead),
    }
}

/// What is kept of a head, of a request or of a response.
pub trait HeadText: Sized + Drop {
    /// The whole text is a head, and this is what is kept of it.
    ghost is_text: { List ℕ → Self → Type 0 };

    /// The head that the whole text is, or none where it is no head with at most 64 fields.
    ///
    /// The error is want of memory.
    fn of_text(alloc: Global, text: &[u8]) -> Result<Option<Self>, AllocError>
        ensures { IfOk result (TellsHeadText is_text text.now) };
}

impl HeadText for Head {
    ghost use Rattle.http_message.specs.Heads.{IsHeadText};

    ghost is_text = { IsHeadText };

    fn of_text(alloc: Global, text: &[u8]) -> Result<Option<Head>, AllocError> {
        head_in(alloc, text)
    }
}

// Whether a head of that length and with those fields is the whole text, with at most 64 of them.
pub(crate) fn is_whole(text: &[u8], len: usize, fields: &Fields) -> bool
    ensures { MatchBool result ((len ≡ length text.now) × (length fields.now ≤ 64)) ((len ≡ length text.now) → 64 < length fields.now) }
{
    len == text.len() && fields.len() <= 64
}

/// The head of a request that the whole text is, or none where it is no head with at most 64 fields.
///
/// The error is want of memory.
pub fn head_in(alloc: Global, text: &[u8]) -> Result<Option<Head>, AllocError>
    ensures { IfOk result (TellsHeadText IsHeadText text.now) }
{
    match front_of(alloc, text) {
        Ok((head, len)) => Ok(is_whole(text, len, &head.fields).then_some(head)),
        Err(HeadFault::NoHead) => Ok(None),
        Err(HeadFault::NoMemory) => Err(AllocError),
    }
}

/// Whether the whole text is field lines, at most 64, and an empty line: the trailers of a chunked body
/// (RFC 9112, section 7.1.2).
pub fn is_trailers(text: &[u8]) -> bool
    ensures { MatchBool result (IsTrailersText text.now) (¬ (IsTrailersText text.now)) }
{
    let mut room = [EMPTY_HEADER; 64];
    match parse_headers(text, &mut room) {
        Ok(Status::Complete((len, headers))) => len == text.len() && headers.len() <= 64,
        Ok(Status::Partial) => false,
        Err(Error::TooManyHeaders) => false,
        Err(_) => false,
    }
}
