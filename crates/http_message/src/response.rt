// Heads of responses as texts.
ghost use Rattle.std.specs.Prelude.{◌≡◌, IfOk};
ghost use Rattle.http_message.specs.HeadReadings.{TellsHeadText};
ghost use Rattle.http_message.specs.ResponseMessages.{is_interim};
ghost use Rattle.http_message.specs.Responses.{is_bodiless, response_form, IsResponseText, TellsResponseFront};

use crate::field::{Fields, count_named};
use crate::framing::{Form, form_in};
use crate::head::{HeadFault, HeadText, copy_fields, is_whole};
use crate::refusal::Flaw;
use httparse::{EMPTY_HEADER, Response, Status};
use std::alloc::{AllocError, Global};

/// The head of a response (RFC 9112, section 4).
#[derive(Drop)]
pub struct ResponseHead {
    /// The minor version: 0 for HTTP/1.0, and 1 for HTTP/1.1.
    pub minor: u8,
    /// The status, three digits: 0 to 999.
    pub status: u16,
    /// The fields, in order.
    pub fields: Fields,
}

// The head at the front of the text, and its length; a fault where no head of at most 64 fields is at the front.
fn response_front(alloc: Global, text: &[u8]) -> Result<(ResponseHead, usize), HeadFault>
    ensures { TellsResponseFront text.now result }
{
    let mut room = [EMPTY_HEADER; 64];
    let mut response = Response::new(&mut room);
    match response.parse(text) {
        Ok(Status::Complete(len)) => {
            let minor = response.version.unwrap();
            let status = response.code.unwrap();
            let fields = copy_fields(alloc, response.headers)?;
            Ok((
                ResponseHead {
                    minor,
                    status,
                    fields,
                },
                len,
            ))
        }
        _ => Err(HeadFault::NoHead),
    }
}

impl HeadText for ResponseHead {
    ghost use Rattle.http_message.specs.Responses.{IsResponseText};

    ghost is_text = { IsResponseText };

    fn of_text(alloc: Global, text: &[u8]) -> Result<Option<ResponseHead>, AllocError> {
        response_in(alloc, text)
    }
}

/// The head of a response that the whole text is, or none where it is no head with at most 64 fields.
///
/// The error is want of memory.
pub fn response_in(alloc: Global, text: &[u8]) -> Result<Option<ResponseHead>, AllocError>
    ensures { IfOk result (TellsHeadText IsResponseText text.now) }
{
    match response_front(alloc, text) {
        Ok((head, len)) => Ok(is_whole(text, len, &head.fields).then_some(head)),
        Err(HeadFault::NoHead) => Ok(None),
        Err(HeadFault::NoMemory) => Err(AllocError),
    }
}

/// Whether the head is an interim one, of status 100 to 199 but not 101, behind which another head stands (RFC 9110, section 15.2).
pub fn is_interim(head: &ResponseHead) -> bool
    ensures { result ≡ is_interim head.now }
{
    head.status >= 100 && head.status <= 199 && head.status != 101
}

// Whether a response ends with its head, whatever its fields say.
fn is_bodiless(to_head: bool, head: &ResponseHead) -> bool
    ensures { result ≡ is_bodiless to_head head.now }
{
    to_head || head.status == 204 || head.status == 304
}

/// The form of a response's body of at most `most` bytes, by whether its request was HEAD (RFC 9112, section 6.3). A response to
/// HEAD, and one of status 204 or 304, has no body. Another one with neither Content-Length nor Transfer-Encoding has a body
/// that goes on to the end of the stream, and no form. The errors are those of [`form_in`].
pub fn response_form(most: u64, to_head: bool, head: &ResponseHead) -> Result<Option<Form>, Flaw>
    ensures { result ≡ response_form most to_head head.now }
{
    if is_bodiless(to_head, head) {
        return Ok(Some(Form::Length(0)));
    }
    if count_named(&head.fields, "content-length") == 0
        && count_named(&head.fields, "transfer-encoding") == 0
    {
        return Ok(None);
    }
    match form_in(most, head.minor, &head.fields) {
        Ok(form) => Ok(Some(form)),
        Err(flaw) => Err(flaw),
    }
}
