// Links spelt.
ghost use Rattle.std.specs.Prelude.{◌≡◌, ◌<◌, ◌≤◌, ◌^◌, ◌++◌, IsTrue, OnOk, codes, drop, length, string_bytes};
ghost use Rattle.std.specs.Str.{IsUtf8};
ghost use Rattle.std.specs.Fmt.{decimal};
ghost use Rattle.share_catalog.specs.Grammar.{is_catalog_name};
ghost use Rattle.signed_link.specs.Link.{file_path, query, tag_text, unsigned, signed, IsInRange, IsTableName, IsValue};

use crate::parts::LentParts;
use hmac_core::HmacKey;
use itoa::Buffer;
use json_tree::{Edition, Millis};
use std::alloc::AllocError;
use std::str;
use text_forms::push_escaped;

// Writes a slash and the name at the end.
fn push_segment(text: &mut String, name: &str) -> Result<(), AllocError>
    ensures { OnOk result (string_bytes text.new ≡ string_bytes text.old ++ codes "/" ++ name.now) }
{
    text.push_str("/")?;
    text.push_str(name)
}

// Writes the path of the link, below the endpoint's, at the end.
fn push_file_path(text: &mut String, parts: &LentParts<'_>) -> Result<(), AllocError>
    ensures text { OnOk result (string_bytes text.new ≡ string_bytes text.old ++ file_path parts.now) }
    ensures table { OnOk result (IsTableName parts.now.table) }
    ensures path { OnOk result (IsUtf8 parts.now.path) }
{
    text.push_str("/files")?;
    push_segment(text, parts.table.share.as_str())?;
    push_segment(text, parts.table.schema.as_str())?;
    push_segment(text, parts.table.table.as_str())?;
    text.push_str("/")?;
    push_escaped(text, parts.path.as_str().as_bytes())
}

// Writes a parameter at the end.
fn push_number(text: &mut String, name: &str, number: u64) -> Result<(), AllocError>
    ensures { OnOk result (string_bytes text.new ≡ string_bytes text.old ++ name.now ++ decimal number) }
{
    text.push_str(name)?;
    text.push_str(Buffer::new().format(number))
}

fn push_edition(text: &mut String, name: &str, edition: Edition) -> Result<(), AllocError>
    ensures text { OnOk result (string_bytes text.new ≡ string_bytes text.old ++ name.now ++ decimal edition) }
    ensures in_range { edition < 2 ^ 63 }
{
    push_number(text, name, edition.get())
}

fn push_millis(text: &mut String, name: &str, millis: Millis) -> Result<(), AllocError>
    ensures text { OnOk result (string_bytes text.new ≡ string_bytes text.old ++ name.now ++ decimal millis) }
    ensures in_range { millis < 2 ^ 63 }
{
    push_number(text, name, millis.get())
}

// Writes the query of the link, but for the tag, at the end.
fn push_query(text: &mut String, parts: &LentParts<'_>) -> Result<(), AllocError>
    ensures text { OnOk result (string_bytes text.new ≡ string_bytes text.old ++ query parts.now) }
    ensures recipient { OnOk result (IsTrue (is_catalog_name parts.now.recipient)) }
    ensures in_range { OnOk result (IsInRange parts.now) }
{
    push_edition(text, "?b=", parts.binding)?;
    push_millis(text, "&e=", parts.expires)?;
    push_edition(text, "&g=", parts.grant)?;
    text.push_str("&r=")?;
    text.push_str(parts.recipient.as_str())
}

/// Writes what the tag signs at the end.
pub(crate) fn push_unsigned(text: &mut String, parts: &LentParts<'_>) -> Result<(), AllocError>
    ensures text { OnOk result (string_bytes text.new ≡ string_bytes text.old ++ unsigned parts.now) }
    ensures value { OnOk result (IsValue parts.now) }
    ensures in_range { OnOk result (IsInRange parts.now) }
{
    push_file_path(text, parts)?;
    push_query(text, parts)
}

// Writes the tag of what stands from the place on at the end.
fn push_tag(text: &mut String, key: &HmacKey, place: usize) -> Result<(), AllocError>
    requires { place ≤ length (string_bytes text.old) }
    ensures { OnOk result (string_bytes text.new ≡ string_bytes text.old ++ tag_text key.now (drop place (string_bytes text.old))) }
{
    let digits = key.tag_digits(&text.as_bytes()[place..]);
    let Ok(digits) = str::from_utf8(&digits) else {
        unreachable!();
    };
    text.push_str("&t=")?;
    text.push_str(digits)
}

/// Writes the link, but for the endpoint, at the end.
pub(crate) fn push_signed(
    text: &mut String,
    key: &HmacKey,
    parts: &LentParts<'_>,
) -> Result<(), AllocError>
    ensures text { OnOk result (string_bytes text.new ≡ string_bytes text.old ++ signed key.now parts.now) }
    ensures value { OnOk result (IsValue parts.now) }
    ensures in_range { OnOk result (IsInRange parts.now) }
{
    let place = text.len();
    push_unsigned(text, parts)?;
    push_tag(text, key, place)
}
