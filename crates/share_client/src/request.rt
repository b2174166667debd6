// The texts of requests.
ghost use Rattle.std.specs.Prelude.{◌≡◌, ◌++◌, IfOk, OnOk, string_bytes, option_copied};
ghost use Rattle.share_client.specs.Requests.{bearer_line, close_lines, content_lines, field_line, front, get_text, head_text, part_text, post_text, range_line, range_value};

use file_ranges::part::ByteRange;
use std::alloc::{AllocError, Global};

fn push_field(alloc: Global, text: &mut String, name: &str, value: &str) -> Result<(), AllocError>
    ensures { OnOk result (string_bytes text.new ≡ string_bytes text.old ++ field_line name.now value.now) }
{
    text.push_str(&format!(in alloc; "{name}: {value}\r\n")?)
}

fn push_bearer(alloc: Global, text: &mut String, bearer: Option<&str>) -> Result<(), AllocError>
    ensures { OnOk result (string_bytes text.new ≡ string_bytes text.old ++ bearer_line (option_copied bearer.entry)) }
{
    match bearer {
        Some(token) => push_field(
            alloc,
            text,
            "Authorization",
            &format!(in alloc; "Bearer {token}")?,
        ),
        None => Ok(()),
    }
}

fn push_close(text: &mut String) -> Result<(), AllocError>
    ensures { OnOk result (string_bytes text.new ≡ string_bytes text.old ++ close_lines) }
{
    text.push_str("Connection: close\r\n\r\n")
}

// The first line and the fields that each request begins with.
fn front(
    alloc: Global,
    method: &str,
    target: &str,
    host: &str,
    bearer: Option<&str>,
) -> Result<String, AllocError>
    ensures { IfOk result (λ t. string_bytes t ≡ front method.now target.now host.now (option_copied bearer.entry)) }
{
    let mut text = format!(in alloc; "{method} {target} HTTP/1.1\r\n")?;
    push_field(alloc, &mut text, "Host", host)?;
    push_bearer(alloc, &mut text, bearer)?;
    Ok(text)
}

// A request without a body.
pub(crate) fn get_text(
    alloc: Global,
    target: &str,
    host: &str,
    bearer: Option<&str>,
) -> Result<String, AllocError>
    ensures { IfOk result (λ t. string_bytes t ≡ get_text target.now host.now (option_copied bearer.entry)) }
{
    let mut text = front(alloc, "GET", target, host, bearer)?;
    push_close(&mut text)?;
    Ok(text)
}

// A request for the head alone of what a link is answered.
pub(crate) fn head_text(alloc: Global, target: &str, host: &str) -> Result<String, AllocError>
    ensures { IfOk result (λ t. string_bytes t ≡ head_text target.now host.now) }
{
    let mut text = front(alloc, "HEAD", target, host, None)?;
    push_close(&mut text)?;
    Ok(text)
}

fn range_value(alloc: Global, range: ByteRange) -> Result<String, AllocError>
    ensures { IfOk result (λ t. string_bytes t ≡ range_value range) }
{
    let first = range.first();
    let last = range.last();
    format!(in alloc; "bytes={first}-{last}")
}

fn push_range(alloc: Global, text: &mut String, range: ByteRange) -> Result<(), AllocError>
    ensures { OnOk result (string_bytes text.new ≡ string_bytes text.old ++ range_line range) }
{
    let value = range_value(alloc, range)?;
    push_field(alloc, text, "Range", &value)
}

// A request for a part of what a link is answered.
pub(crate) fn part_text(
    alloc: Global,
    target: &str,
    host: &str,
    range: ByteRange,
) -> Result<String, AllocError>
    ensures { IfOk result (λ t. string_bytes t ≡ part_text target.now host.now range) }
{
    let mut text = front(alloc, "GET", target, host, None)?;
    push_range(alloc, &mut text, range)?;
    push_close(&mut text)?;
    Ok(text)
}

fn push_content(alloc: Global, text: &mut String, body: &str) -> Result<(), AllocError>
    ensures { OnOk result (string_bytes text.new ≡ string_bytes text.old ++ content_lines body.now) }
{
    let length = body.len();
    text.push_str(&format!(in alloc;
        "Content-Type: application/json\r\nContent-Length: {length}\r\n"
    )?)
}

// A request with a body of JSON, and with more lines of fields.
pub(crate) fn post_text(
    alloc: Global,
    target: &str,
    host: &str,
    bearer: Option<&str>,
    more: &str,
    body: &str,
) -> Result<String, AllocError>
    ensures { IfOk result (λ t. string_bytes t ≡ post_text target.now host.now (option_copied bearer.entry) more.now body.now) }
{
    let mut text = front(alloc, "POST", target, host, bearer)?;
    push_content(alloc, &mut text, body)?;
    text.push_str(more)?;
    push_close(&mut text)?;
    text.push_str(body)?;
    Ok(text)
}
