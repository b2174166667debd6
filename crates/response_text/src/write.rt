// A head, written.
ghost use Rattle.std.specs.Prelude.{◌≡◌, ◌≤◌, ◌+◌, [], ◌∷◌, ◌++◌, codes, vec_len, IfOk, OnOk};
ghost use Rattle.response_text.specs.Heads.{head_of, head_text, fields, fields_text, version_fields, size_fields, status_fields, unit_fields, type_fields, format_fields, form_fields, close_fields};
ghost use Rattle.file_ranges.specs.Ranges.{range_text as text_of_range};

use crate::date::date_at;
use crate::head::{ContentType, ResponseHead};
use crate::line::{push_end, push_field, push_length, push_number, push_status};
use crate::status::{Status, allowed_names};
use file_ranges::content_range::range_text;
use file_ranges::part::ByteRange;
use std::alloc::{AllocError, Global};

// The most bytes that a head has.
const ROOM: usize = 370;

fn push_version(text: &mut Vec<u8>, version: Option<u64>) -> Result<(), AllocError>
    ensures text { OnOk result (text.new.items ≡ text.old.items ++ fields_text (version_fields version)) }
    ensures size { OnOk result (vec_len text.new ≤ vec_len text.old + 43) }
{
    match version {
        Some(version) => push_number(text, "Delta-Table-Version", version),
        None => Ok(()),
    }
}

// The part that is sent.
fn push_range(alloc: Global, text: &mut Vec<u8>, range: ByteRange) -> Result<(), AllocError>
    ensures text { OnOk result (text.new.items ≡ text.old.items ++ fields_text ((codes "Content-Range", text_of_range range) ∷ [])) }
    ensures size { OnOk result (vec_len text.new ≤ vec_len text.old + 85) }
{
    let value = range_text(alloc, range)?;
    push_field(text, "Content-Range", value.as_str().as_bytes())
}

// The size of an object that has none of the bytes that are asked for.
fn push_size(alloc: Global, text: &mut Vec<u8>, size: Option<u64>) -> Result<(), AllocError>
    ensures text { OnOk result (text.new.items ≡ text.old.items ++ fields_text (size_fields size)) }
    ensures size { OnOk result (vec_len text.new ≤ vec_len text.old + 45) }
{
    let Some(size) = size else {
        return Ok(());
    };
    let value = format!(in alloc; "bytes */{size}")?;
    push_field(text, "Content-Range", value.as_bytes())
}

// The field that goes with the status.
fn push_status_field(alloc: Global, text: &mut Vec<u8>, status: Status) -> Result<(), AllocError>
    ensures text { OnOk result (text.new.items ≡ text.old.items ++ fields_text (status_fields status)) }
    ensures size { OnOk result (vec_len text.new ≤ vec_len text.old + 85) }
{
    match status {
        Status::Ok(version) => push_version(text, version),
        Status::PartialContent(range) => push_range(alloc, text, range),
        Status::RangeNotSatisfiable(size) => push_size(alloc, text, size),
        Status::Unauthorized => push_field(text, "WWW-Authenticate", b"Bearer"),
        Status::MethodNotAllowed(method) => push_field(
            text,
            "Allow",
            allowed_names(method).as_bytes(),
        ),
        _ => Ok(()),
    }
}

// The unit of the parts that may be asked for.
fn push_unit(text: &mut Vec<u8>, form: ContentType) -> Result<(), AllocError>
    ensures text { OnOk result (text.new.items ≡ text.old.items ++ fields_text (unit_fields form)) }
    ensures size { OnOk result (vec_len text.new ≤ vec_len text.old + 22) }
{
    match form {
        ContentType::Bytes => push_field(text, "Accept-Ranges", b"bytes"),
        ContentType::Json | ContentType::JsonLines | ContentType::DeltaLines => Ok(()),
    }
}

fn push_type(text: &mut Vec<u8>, form: ContentType, length: u128) -> Result<(), AllocError>
    ensures text { OnOk result (text.new.items ≡ text.old.items ++ fields_text (type_fields form length)) }
    ensures size { OnOk result (vec_len text.new ≤ vec_len text.old + 51) }
{
    if length == 0 {
        return Ok(());
    }
    push_field(text, "Content-Type", form.name().as_bytes())
}

// The format of lines, where it is the one of actions.
fn push_format(text: &mut Vec<u8>, form: ContentType) -> Result<(), AllocError>
    ensures text { OnOk result (text.new.items ≡ text.old.items ++ fields_text (format_fields form)) }
    ensures size { OnOk result (vec_len text.new ≤ vec_len text.old + 50) }
{
    match form {
        ContentType::DeltaLines => push_field(
            text,
            "delta-sharing-capabilities",
            b"responseformat=delta",
        ),
        ContentType::Json | ContentType::JsonLines | ContentType::Bytes => Ok(()),
    }
}

// What is told of the body but its length.
fn push_form(text: &mut Vec<u8>, form: ContentType, length: u128) -> Result<(), AllocError>
    ensures text { OnOk result (text.new.items ≡ text.old.items ++ fields_text (form_fields form length)) }
    ensures size { OnOk result (vec_len text.new ≤ vec_len text.old + 123) }
{
    push_unit(text, form)?;
    push_type(text, form, length)?;
    push_format(text, form)
}

fn push_close(text: &mut Vec<u8>, closes: bool) -> Result<(), AllocError>
    ensures text { OnOk result (text.new.items ≡ text.old.items ++ fields_text (close_fields closes)) }
    ensures size { OnOk result (vec_len text.new ≤ vec_len text.old + 19) }
{
    if closes {
        return push_field(text, "Connection", b"close");
    }
    Ok(())
}

// All fields.
fn push_fields(alloc: Global, text: &mut Vec<u8>, head: &ResponseHead) -> Result<(), AllocError>
    ensures text { OnOk result (text.new.items ≡ text.old.items ++ fields_text (fields (head_of head.now))) }
    ensures size { OnOk result (vec_len text.new ≤ vec_len text.old + 321) }
{
    push_field(text, "Date", &date_at(head.moment))?;
    push_status_field(alloc, text, head.status)?;
    push_form(text, head.content_type, head.length)?;
    push_length(text, head.length)?;
    push_close(text, head.closes)
}

/// The text of a response up to its body: status line, fields and the empty line, each ended by CR LF (RFC 9112, sections 4
/// and 5). The body follows at once.
///
/// The fields are, in this order: Date; Delta-Table-Version where the status has a version; Content-Range with 206, and with 416
/// where it has a size; WWW-Authenticate with 401; Allow with 405; Accept-Ranges where the body is bytes; Content-Type where the
/// body isn't empty; delta-sharing-capabilities where the body is lines of actions; Content-Length; `Connection: close` where the
/// connection is closed. The text has at most 370 bytes, and room for as many is made at once. The error is want of memory.
pub fn head_text(alloc: Global, head: &ResponseHead) -> Result<Vec<u8>, AllocError>
    ensures text { IfOk result (λ text. text.items ≡ head_text (head_of head.now)) }
    ensures size { IfOk result (λ text. vec_len text ≤ 370) }
{
    let mut text = Vec::with_capacity(alloc, ROOM)?;
    push_status(&mut text, &head.status)?;
    push_fields(alloc, &mut text, head)?;
    push_end(&mut text)?;
    Ok(text)
}
