// "Create a canonical request".
ghost use Rattle.std.specs.Prelude.{◌≡◌, ◌++◌, IfOk, OnOk, string_bytes};
ghost use Rattle.signed_call.specs.Signing.{canonical_field, canonical_fields, canonical_query, name_behind, names_behind, parameter, parameter_behind, parameters_behind, signed_names};
ghost use Rattle.signed_call.specs.Signing as spec;

use crate::call::Method;
use crate::field::{Field, Fields};
use json_tree::Text;
use std::alloc::{AllocError, Global};
use text_forms::push_escaped;

/// What is signed of a request.
#[derive(Drop)]
pub struct Asked {
    /// The method.
    pub method: Method,
    /// The path, escaped.
    pub path: Text,
    /// The parameters of the query, in byte order of name.
    pub query: Fields,
    /// The fields that are signed, in byte order of name.
    pub fields: Fields,
    /// The digest of the body: SHA-256, in lower-case hexadecimal digits.
    pub digest: Text,
}

// Writes a field with its value, as a line, at the end.
fn push_field(out: &mut String, field: &Field) -> Result<(), AllocError>
    ensures { OnOk result (string_bytes out.new ≡ string_bytes out.old ++ canonical_field field.now) }
{
    out.push_str(field.name.as_str())?;
    out.push_str(":")?;
    out.push_str(field.value.as_str())?;
    out.push_str("\n")
}

fn push_fields(out: &mut String, fields: &[Field]) -> Result<(), AllocError>
    ensures { OnOk result (string_bytes out.new ≡ string_bytes out.old ++ canonical_fields fields.now) }
{
    for field in fields {
        push_field(out, field)?;
    }
    Ok(())
}

// Writes the name of a field that isn't the first at the end.
fn push_name_behind(out: &mut String, field: &Field) -> Result<(), AllocError>
    ensures { OnOk result (string_bytes out.new ≡ string_bytes out.old ++ name_behind field.now) }
{
    out.push_str(";")?;
    out.push_str(field.name.as_str())
}

fn push_names_behind(out: &mut String, fields: &[Field]) -> Result<(), AllocError>
    ensures { OnOk result (string_bytes out.new ≡ string_bytes out.old ++ names_behind fields.now) }
{
    for field in fields {
        push_name_behind(out, field)?;
    }
    Ok(())
}

/// Writes the names of the fields at the end.
pub(crate) fn push_names(out: &mut String, fields: &[Field]) -> Result<(), AllocError>
    ensures { OnOk result (string_bytes out.new ≡ string_bytes out.old ++ signed_names fields.now) }
{
    let Some((first, others)) = fields.split_first() else {
        return Ok(());
    };
    out.push_str(first.name.as_str())?;
    push_names_behind(out, others)
}

fn push_parameter(out: &mut String, item: &Field) -> Result<(), AllocError>
    ensures { OnOk result (string_bytes out.new ≡ string_bytes out.old ++ parameter item.now) }
{
    push_escaped(out, item.name.as_str().as_bytes())?;
    out.push_str("=")?;
    push_escaped(out, item.value.as_str().as_bytes())
}

// Writes a parameter that isn't the first at the end.
fn push_parameter_behind(out: &mut String, item: &Field) -> Result<(), AllocError>
    ensures { OnOk result (string_bytes out.new ≡ string_bytes out.old ++ parameter_behind item.now) }
{
    out.push_str("&")?;
    push_parameter(out, item)
}

fn push_parameters_behind(out: &mut String, parameters: &[Field]) -> Result<(), AllocError>
    ensures { OnOk result (string_bytes out.new ≡ string_bytes out.old ++ parameters_behind parameters.now) }
{
    for item in parameters {
        push_parameter_behind(out, item)?;
    }
    Ok(())
}

/// Writes the query at the end.
pub(crate) fn push_query(out: &mut String, parameters: &[Field]) -> Result<(), AllocError>
    ensures { OnOk result (string_bytes out.new ≡ string_bytes out.old ++ canonical_query parameters.now) }
{
    let Some((first, others)) = parameters.split_first() else {
        return Ok(());
    };
    push_parameter(out, first)?;
    push_parameters_behind(out, others)
}

/// The canonical request.
#[tactic(auto, unfolding(crate::specs::Signing::canonical_request))]
pub(crate) fn canonical_request(alloc: Global, asked: &Asked) -> Result<String, AllocError>
    ensures { IfOk result (λ t. string_bytes t ≡ spec.canonical_request asked.now) }
{
    let mut text = String::from_str(alloc, asked.method.name())?;
    text.push_str("\n")?;
    text.push_str(asked.path.as_str())?;
    text.push_str("\n")?;
    push_query(&mut text, asked.query.items())?;
    text.push_str("\n")?;
    push_fields(&mut text, asked.fields.items())?;
    text.push_str("\n")?;
    push_names(&mut text, asked.fields.items())?;
    text.push_str("\n")?;
    text.push_str(asked.digest.as_str())?;
    Ok(text)
}
