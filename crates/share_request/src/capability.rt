// The format in which the lines of tables are asked for.
ghost use Rattle.std.specs.Prelude.{◌≡◌, ◌==◌, ◌<◌, [], codes, length, reverse, option_map, slice_index_or};
ghost use Rattle.std.specs.List.{find, slice_split};
ghost use Rattle.httparse.specs.Grammar.{skip_ows, trim_ows};
ghost use Rattle.http_message.specs.Fields.{is_named, lists_option, same_text};
ghost use Rattle.share_request.specs.Capabilities as spec;

use crate::asked::ResponseFormat;
use crate::target::cut;
use http_message::field::Fields;
use httparse::is_space_or_tab;
use std::str;

fn behind_blanks(mut bytes: &[u8]) -> &[u8]
    ensures { result.now ≡ skip_ows bytes.now }
{
    while let [first, rest @ ..] = bytes
        && is_space_or_tab(*first)
    {
        bytes = rest;
    }
    bytes
}

fn before_blanks(mut bytes: &[u8]) -> &[u8]
    ensures { result.now ≡ reverse (skip_ows (reverse bytes.now)) }
{
    while let [rest @ .., last] = bytes
        && is_space_or_tab(*last)
    {
        bytes = rest;
    }
    bytes
}

// The bytes without the spaces and tabs around them.
fn inner(bytes: &[u8]) -> &[u8]
    ensures { result.now ≡ trim_ows bytes.now }
{
    before_blanks(behind_blanks(bytes))
}

// Whether the text is the word, in any case and with spaces and tabs around it.
fn is_word(text: &str, word: &str) -> bool
    ensures { result ≡ same_text (trim_ows text.now) word.now }
{
    inner(text.as_bytes()).eq_ignore_ascii_case(word.as_bytes())
}

// Whether the word is one of a list with commas.
fn lists(list: &str, word: &str) -> bool
    ensures { result ≡ lists_option word.now list.now }
{
    list.split(',').any(|element| is_word(element, word))
}

// The name of a part, and what stands behind its first `=`.
fn name_and_list(part: &str) -> (&str, &str)
    ensures { (result.0.now, result.1.now) ≡ spec.name_and_list part.now }
{
    match cut('=', part) {
        Some(pair) => pair,
        None => (part, ""),
    }
}

fn names_formats(part: &str) -> bool
    ensures { result ≡ spec.names_formats part.now }
{
    let (name, _) = name_and_list(part);
    is_word(name, "responseformat")
}

// The first part of a value that names formats.
fn formats_part(value: &str) -> Option<&str>
    ensures { option_map (λ t. t.now) result ≡ find spec.names_formats (slice_split (λ b. b == 59) value.now) }
{
    value.split(';').find(|part| names_formats(part))
}

fn is_capability(fields: &Fields, index: usize) -> bool
    requires { index < length fields.now }
    ensures { result ≡ is_named (codes "delta-sharing-capabilities") (slice_index_or fields.now index ([], [])) }
{
    fields
        .name(index)
        .eq_ignore_ascii_case(b"delta-sharing-capabilities")
}

// That of the field at an index, where its name is the one and its value is UTF-8.
fn part_at(fields: &Fields, index: usize) -> Option<&str>
    requires { index < length fields.now }
    ensures { option_map (λ t. t.now) result ≡ find spec.names_formats (spec.field_parts (slice_index_or fields.now index ([], []))) }
{
    if !is_capability(fields, index) {
        return None;
    }
    match str::from_utf8(fields.value(index)) {
        Ok(value) => formats_part(value),
        Err(_) => None,
    }
}

fn part_in(fields: &Fields) -> Option<&str>
    ensures { option_map (λ t. t.now) result ≡ find spec.names_formats (spec.capability_parts fields.now) }
{
    for index in 0..fields.len() {
        if let Some(part) = part_at(fields, index) {
            return Some(part);
        }
    }
    None
}

// The format that a part asks for.
fn format_by(part: &str) -> ResponseFormat
    ensures { result ≡ spec.format_by part.now }
{
    let (_, list) = name_and_list(part);
    if lists(list, "delta") && !lists(list, "parquet") {
        ResponseFormat::Delta
    } else {
        ResponseFormat::Parquet
    }
}

// The format that the fields of a head ask for.
pub(crate) fn format_in(fields: &Fields) -> ResponseFormat
    ensures { result ≡ spec.format_in fields.now }
{
    match part_in(fields) {
        Some(part) => format_by(part),
        None => ResponseFormat::Parquet,
    }
}
