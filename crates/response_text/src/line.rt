// Lines of a head, written at the end of a buffer.
ghost use Rattle.std.specs.Prelude.{◌≡◌, ◌≤◌, ◌+◌, [], ◌∷◌, ◌++◌, codes, length, vec_len, OnOk};
ghost use Rattle.std.specs.Fmt.{decimal};
ghost use Rattle.response_text.specs.Heads.{crlf, fields_text, line, status_line};

use crate::status::Status;
use itoa::Buffer;
use std::alloc::AllocError;

/// What ends a line, the empty line too.
pub(crate) fn push_end(text: &mut Vec<u8>) -> Result<(), AllocError>
    ensures text { OnOk result (text.new.items ≡ text.old.items ++ crlf) }
    ensures size { OnOk result (vec_len text.new ≡ vec_len text.old + 2) }
{
    text.extend_from_slice(b"\r\n")
}

/// The status line.
pub(crate) fn push_status(text: &mut Vec<u8>, status: &Status) -> Result<(), AllocError>
    ensures text { OnOk result (text.new.items ≡ text.old.items ++ line (status_line status.now)) }
    ensures size { OnOk result (vec_len text.new ≤ vec_len text.old + 46) }
{
    text.extend_from_slice(b"HTTP/1.1 ")?;
    text.extend_from_slice(Buffer::new().format(status.code()).as_bytes())?;
    text.extend_from_slice(b" ")?;
    text.extend_from_slice(status.reason().as_bytes())?;
    push_end(text)
}

/// A field.
pub(crate) fn push_field(text: &mut Vec<u8>, name: &str, value: &[u8]) -> Result<(), AllocError>
    ensures text { OnOk result (text.new.items ≡ text.old.items ++ fields_text ((name.now, value.now) ∷ [])) }
    ensures size { OnOk result (vec_len text.new ≡ vec_len text.old + length name.now + length value.now + 4) }
{
    text.extend_from_slice(name.as_bytes())?;
    text.extend_from_slice(b": ")?;
    text.extend_from_slice(value)?;
    push_end(text)
}

/// A field whose value is a number.
pub(crate) fn push_number(text: &mut Vec<u8>, name: &str, value: u64) -> Result<(), AllocError>
    ensures text { OnOk result (text.new.items ≡ text.old.items ++ fields_text ((name.now, decimal value) ∷ [])) }
    ensures size { OnOk result (vec_len text.new ≤ vec_len text.old + length name.now + 24) }
{
    push_field(text, name, Buffer::new().format(value).as_bytes())
}

/// The field Content-Length.
pub(crate) fn push_length(text: &mut Vec<u8>, length: u128) -> Result<(), AllocError>
    ensures text { OnOk result (text.new.items ≡ text.old.items ++ fields_text ((codes "Content-Length", decimal length) ∷ [])) }
    ensures size { OnOk result (vec_len text.new ≤ vec_len text.old + 57) }
{
    push_field(
        text,
        "Content-Length",
        Buffer::new().format(length).as_bytes(),
    )
}
