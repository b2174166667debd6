// The text of a request up to its body.
ghost use Rattle.std.specs.Prelude.{◌≡◌, ◌++◌, IfOk, OnOk, string_bytes};
ghost use Rattle.signed_call.specs.Texts as spec;

use crate::call::Call;
use crate::canonical::{Asked, push_query};
use crate::field::Field;
use crate::fields_of::asked_of;
use crate::key::{CallKey, CallPlace};
use crate::sign::authorization;
use crate::stamp::Stamp;
use itoa::Buffer;
use json_tree::Text;
use std::alloc::{AllocError, Global};

fn push_line(out: &mut String, name: &str, value: &str) -> Result<(), AllocError>
    ensures { OnOk result (string_bytes out.new ≡ string_bytes out.old ++ spec.field_line name.now value.now) }
{
    out.push_str(name)?;
    out.push_str(": ")?;
    out.push_str(value)?;
    out.push_str("\r\n")
}

fn push_field(out: &mut String, field: &Field) -> Result<(), AllocError>
    ensures { OnOk result (string_bytes out.new ≡ string_bytes out.old ++ spec.line_of field.now) }
{
    push_line(out, field.name.as_str(), field.value.as_str())
}

fn push_lines(out: &mut String, fields: &[Field]) -> Result<(), AllocError>
    ensures { OnOk result (string_bytes out.new ≡ string_bytes out.old ++ spec.field_lines fields.now) }
{
    for field in fields {
        push_field(out, field)?;
    }
    Ok(())
}

// The query, where there is one.
#[tactic(auto, unfolding(crate::specs::Texts::query_text))]
fn push_query_text(out: &mut String, query: &[Field]) -> Result<(), AllocError>
    ensures { OnOk result (string_bytes out.new ≡ string_bytes out.old ++ spec.query_text query.now) }
{
    match query {
        [] => Ok(()),
        _ => {
            out.push_str("?")?;
            push_query(out, query)
        }
    }
}

// The method and the target.
#[tactic(auto, unfolding(crate::specs::Texts::first_line))]
fn push_first_line(out: &mut String, asked: &Asked) -> Result<(), AllocError>
    ensures { OnOk result (string_bytes out.new ≡ string_bytes out.old ++ spec.first_line asked.now) }
{
    out.push_str(asked.method.name())?;
    out.push_str(" ")?;
    out.push_str(asked.path.as_str())?;
    push_query_text(out, asked.query.items())?;
    out.push_str(" HTTP/1.1\r\n")
}

// The length of the body, where the request has one.
#[tactic(auto, unfolding(crate::specs::Texts::length_line))]
fn push_length(out: &mut String, call: &Call<'_>) -> Result<(), AllocError>
    ensures { OnOk result (string_bytes out.new ≡ string_bytes out.old ++ spec.length_line call.now) }
{
    match call {
        Call::PutAbsent { bytes, .. } => {
            push_line(out, "content-length", Buffer::new().format(bytes.len()))
        }
        _ => Ok(()),
    }
}

/// The text of a request up to its body, signed by the key, for the place's bucket and at that moment (AWS Signature Version 4; RFC 9112,
/// section 2.1). It asks that the connection is closed behind the response. The body, `call.body()`, follows at once. The error is want of
/// memory.
#[tactic(auto, unfolding(crate::specs::Texts::head_text))]
pub fn head_text(
    alloc: Global,
    key: &CallKey,
    place: &CallPlace,
    stamp: &Stamp,
    call: &Call<'_>,
) -> Result<Text, AllocError>
    ensures { IfOk result (λ t. t ≡ spec.head_text key.now place.now stamp.now call.now) }
{
    let asked = asked_of(alloc, key, place, stamp, call)?;
    let proof = authorization(alloc, key, place.region.as_str(), stamp, &asked)?;
    let mut text = String::new(alloc);
    push_first_line(&mut text, &asked)?;
    push_lines(&mut text, asked.fields.items())?;
    push_line(&mut text, "authorization", proof.as_str())?;
    push_length(&mut text, call)?;
    text.push_str("connection: close\r\n\r\n")?;
    Ok(Text::of(text))
}
