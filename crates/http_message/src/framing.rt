// How the body of a message is framed.
ghost use Rattle.std.specs.Prelude.{◌≡◌, ◌<◌, ◌||◌, ◌&&◌, [], codes, length, slice_index_or};
ghost use Rattle.std.specs.List.{list_any};
ghost use Rattle.http_message.specs.Fields.{is_named, lists_option};
ghost use Rattle.http_message.specs.Framing.{closes, form_by, form_in, length_in, request_form};

use crate::field::{Fields, count_named, first_named};
use crate::head::Head;
use crate::refusal::Flaw;
use crate::text::{lists_option, same_text};

/// The form of a body (RFC 9112, section 6.3).
#[derive(Clone, Copy, Debug, PartialEq, Eq)]
pub enum Form {
    /// So many bytes.
    Length(u64),
    /// Chunks, the last of which has no bytes, and trailers.
    Chunked,
}

/// The number that 1 to 18 digits write, as Content-Length has it (RFC 9110, section 8.6), or `None` where the value is another text.
pub fn length_in(value: &[u8]) -> Option<u64>
    ensures { result ≡ length_in value.now }
{
    if value.is_empty() {
        return None;
    }
    if value.len() > 18 {
        return None;
    }
    let mut size: u64 = 0;
    for digit in value {
        if !digit.is_ascii_digit() {
            return None;
        }
        size = size * 10 + u64::from(*digit - b'0');
    }
    Some(size)
}

fn form_by(
    most: u64,
    minor: u8,
    lengths: usize,
    size: Option<u64>,
    codings: usize,
    chunked: bool,
) -> Result<Form, Flaw>
    ensures { result ≡ form_by most minor lengths size codings chunked }
{
    if lengths > 1
        || (lengths == 1 && size.is_none())
        || (codings > 0 && (lengths == 1 || minor == 0))
    {
        return Err(Flaw::BadMessage);
    }
    if codings > 0 {
        if codings == 1 && chunked {
            return Ok(Form::Chunked);
        }
        return Err(Flaw::TransferCoding);
    }
    match size {
        None => Ok(Form::Length(0)),
        Some(size) => {
            if size > most {
                Err(Flaw::BodyTooLarge)
            } else {
                Ok(Form::Length(size))
            }
        }
    }
}

/// The form of the body that these fields frame, of at most `most` bytes.
///
/// [`Flaw::BadMessage`] comes where there is more than one Content-Length, one that isn't 1 to 18 digits, one beside
/// Transfer-Encoding, or Transfer-Encoding in HTTP/1.0. Else [`Flaw::TransferCoding`] comes where Transfer-Encoding isn't one field
/// `chunked`, in any case, and else [`Flaw::BodyTooLarge`] where the length is above `most`.
pub fn form_in(most: u64, minor: u8, fields: &Fields) -> Result<Form, Flaw>
    ensures { result ≡ form_in most minor fields.now }
{
    let lengths = count_named(fields, "content-length");
    let size = length_in(first_named(fields, "content-length"));
    let codings = count_named(fields, "transfer-encoding");
    let chunked = same_text(first_named(fields, "transfer-encoding"), b"chunked");
    form_by(most, minor, lengths, size, codings, chunked)
}

/// The form of a request's body. A request of HTTP/1.1 without exactly one Host is [`Flaw::BadMessage`]; else it is as in
/// [`form_in`].
pub fn request_form(most: u64, head: &Head) -> Result<Form, Flaw>
    ensures { result ≡ request_form most head.now }
{
    if head.minor == 1 && count_named(&head.fields, "host") != 1 {
        return Err(Flaw::BadMessage);
    }
    form_in(most, head.minor, &head.fields)
}

// Whether the field at that index is a Connection field that lists `close`.
fn says_close(fields: &Fields, index: usize) -> bool
    requires { index < length fields.now }
    ensures { result ≡ (is_named (codes "connection") (slice_index_or fields.now index ([], [])) && lists_option (codes "close") (slice_index_or fields.now index ([], [])).1) }
{
    fields.is_named(index, "connection") && lists_option(fields.value(index), b"close")
}

fn any_says_close(fields: &Fields) -> bool
    ensures { result ≡ list_any (λ field. is_named (codes "connection") field && lists_option (codes "close") field.1) fields.now }
{
    for index in 0..fields.len() {
        if says_close(fields, index) {
            return true;
        }
    }
    false
}

/// Whether the sender closes the connection behind the message: it is of HTTP/1.0, or a Connection field lists `close`
/// (RFC 9112, section 9.3).
pub fn closes(minor: u8, fields: &Fields) -> bool
    ensures { result ≡ closes minor fields.now }
{
    minor == 0 || any_says_close(fields)
}
