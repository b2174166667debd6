// The line of each kind.
ghost use Rattle.std.specs.Prelude.{◌≡◌, ◌<◌, ◌^◌, ◌++◌, ◌∷◌, [], Some, IfOk, IfSome, IsTrue, IsUtf8, OnErr, OnOk, codes, length, option_map, string_bytes};
ghost use Rattle.json_tree.specs.Pairs.{IsPairs};
ghost use Rattle.json_print.specs.Fields.{object_of};
ghost use Rattle.json_print.specs.Tokens.{field_tokens, value_tokens};
ghost use Rattle.json_print.specs.Lengths.{capped};
ghost use Rattle.json_print.specs.Values.{count_value};
ghost use Rattle.share_lines.specs.Bodies.{line_at};
ghost use Rattle.share_lines.specs.Parts.{file_in, meta_in};
ghost use Rattle.share_lines.specs.Kept.{Kept, KeptFile};
ghost use Rattle.share_lines.specs.Printing.{end_fields, file_fields, is_printable, kind_fields, kind_name as name_of_kind, line_data, line_text, meta_fields, parquet_fields, protocol_fields};

use crate::{EndLine, FileParts, Line, MetaParts, Millis, Version};
use json_print::{
    Length, Tokens, count_field, new_writer, nonempty_pairs_field, optional_text_field,
    optional_whole_field, pairs_field, printed, text_field, texts_field,
};
use json_tree::Text;
use log_actions::size_field;
use std::alloc::{AllocError, Global};

// Room for most lines.
const ROOM: usize = 512;

fn expiry_field<W: Tokens>(
    line: &mut W,
    name: &str,
    expires: Option<Millis>,
) -> Result<(), W::Error>
    ensures written { OnOk result (W.adds line.old line.new (field_tokens (name.now, option_map count_value expires))) }
    ensures bound { IfSome expires (λ n. n < 2 ^ 63) }
{
    match expires {
        Some(expires) => count_field(line, name, expires.get()),
        None => Ok(()),
    }
}

fn version_field<W: Tokens>(line: &mut W, version: Option<Version>) -> Result<(), W::Error>
    ensures written { OnOk result (W.adds line.old line.new (field_tokens (codes "version", option_map count_value version))) }
    ensures bound { IfSome version (λ n. n < 2 ^ 63) }
{
    match version {
        Some(version) => count_field(line, "version", version.get()),
        None => Ok(()),
    }
}

fn protocol_object<W: Tokens>(line: &mut W) -> Result<(), W::Error>
    ensures { OnOk result (W.adds line.old line.new (value_tokens (object_of protocol_fields))) }
{
    line.begin_object()?;
    count_field(line, "minReaderVersion", 1)?;
    line.end_object()
}

fn format_object<W: Tokens>(line: &mut W) -> Result<(), W::Error>
    ensures { OnOk result (W.adds line.old line.new (value_tokens (object_of parquet_fields))) }
{
    line.begin_object()?;
    line.key("provider")?;
    line.string("parquet")?;
    line.end_object()
}

pub(crate) fn meta_object<W: Tokens>(line: &mut W, meta: &MetaParts<'_>) -> Result<(), W::Error>
    ensures written { OnOk result (W.adds line.old line.new (value_tokens (object_of (meta_fields (meta_in meta.now))))) }
    ensures kept { OnOk result (IsPairs (meta_in meta.now).configuration) }
{
    line.begin_object()?;
    nonempty_pairs_field(line, "configuration", meta.configuration)?;
    optional_text_field(line, "description", meta.description)?;
    line.key("format")?;
    format_object(line)?;
    text_field(line, "id", meta.id)?;
    optional_text_field(line, "name", meta.name)?;
    texts_field(line, "partitionColumns", meta.columns)?;
    text_field(line, "schemaString", meta.schema)?;
    line.end_object()
}

pub(crate) fn file_object<W: Tokens>(line: &mut W, file: &FileParts<'_>) -> Result<(), W::Error>
    ensures written { OnOk result (W.adds line.old line.new (value_tokens (object_of (file_fields (file_in file.now))))) }
    ensures kept { OnOk result (KeptFile (file_in file.now)) }
{
    line.begin_object()?;
    expiry_field(line, "expirationTimestamp", file.expires)?;
    text_field(line, "id", file.id)?;
    pairs_field(line, "partitionValues", file.values)?;
    size_field(line, file.size)?;
    optional_text_field(line, "stats", file.stats)?;
    optional_whole_field(line, "timestamp", file.time)?;
    text_field(line, "url", file.url)?;
    version_field(line, file.version)?;
    line.end_object()
}

pub(crate) fn end_line_object<W: Tokens>(line: &mut W, end: &EndLine) -> Result<(), W::Error>
    ensures written { OnOk result (W.adds line.old line.new (value_tokens (object_of (end_fields end.now)))) }
    ensures kept { OnOk result (IfSome end.now.min_expires (λ n. n < 2 ^ 63)) }
{
    line.begin_object()?;
    expiry_field(line, "minUrlExpirationTimestamp", end.min_expires)?;
    optional_text_field(line, "nextPageToken", &end.token)?;
    line.end_object()
}

fn kind_name(line: &Line) -> &'static str
    ensures { result.now ≡ name_of_kind line.now }
{
    match line {
        Line::Protocol => "protocol",
        Line::MetaData(_) => "metaData",
        Line::File(_) => "file",
        Line::Add(_) => "add",
        Line::Cdf(_) => "cdf",
        Line::Remove(_) => "remove",
        Line::End(_) => "endStreamAction",
    }
}

fn value_object<W: Tokens>(writer: &mut W, line: &Line) -> Result<(), W::Error>
    ensures written { OnOk result (W.adds writer.old writer.new (value_tokens (object_of (kind_fields line.now)))) }
    ensures kept { OnOk result (Kept line.now) }
{
    match line {
        Line::Protocol => protocol_object(writer),
        Line::MetaData(meta) => meta_object(writer, &MetaParts::of_line(meta)),
        Line::File(file) => file_object(writer, &FileParts::of_line(file)),
        Line::Add(file) => file_object(writer, &FileParts::of_line(file)),
        Line::Cdf(file) => file_object(writer, &FileParts::of_line(file)),
        Line::Remove(file) => file_object(writer, &FileParts::of_line(file)),
        Line::End(end) => end_line_object(writer, end),
    }
}

fn line_object<W: Tokens>(writer: &mut W, line: &Line) -> Result<(), W::Error>
    ensures written { OnOk result (W.adds writer.old writer.new (value_tokens (line_data line.now))) }
    ensures kept { OnOk result (Kept line.now) }
{
    writer.begin_object()?;
    writer.key(kind_name(line))?;
    value_object(writer, line)?;
    writer.end_object()
}

// The text of a line, without a line feed.
fn printed_line(alloc: Global, line: &Line) -> Result<String, AllocError>
    requires { IsTrue (is_printable line.now) }
    ensures text { IfOk result (λ s. string_bytes s ≡ line_text line.now) }
    ensures back { OnOk result (line_at (line_text line.now) ≡ Some line.now) }
{
    let mut writer = new_writer(alloc, ROOM)?;
    line_object(&mut writer, line)?;
    Ok(printed(writer))
}

/// The text of a line, without a line feed: a compact JSON object with the kind's name alone, whose
/// value has each field that has a value, in byte order of the names. It is read as that line. The
/// error is want of memory.
///
/// A file of a version has no time and no version; a change has both, and statistics only where it
/// is an add.
pub fn line_text(alloc: Global, line: &Line) -> Result<Text, AllocError>
    requires { IsTrue (is_printable line.now) }
    ensures text { IfOk result (λ t. t ≡ line_text line.now) }
    ensures back { IfOk result (λ t. line_at t ≡ Some line.now) }
{
    Ok(Text::of(printed_line(alloc, line)?))
}

/// Appends a line's text and a line feed. On `Err`, which is want of memory, the text is as it was.
///
/// The line is written in a buffer of its own and copied, as in `push_file`.
pub fn push_line(alloc: Global, out: &mut String, line: &Line) -> Result<(), AllocError>
    requires { IsTrue (is_printable line.now) }
    ensures text { OnOk result (string_bytes out.new ≡ string_bytes out.old ++ (line_text line.now ++ 10 ∷ [])) }
    ensures back { OnOk result (line_at (line_text line.now) ≡ Some line.now) }
    ensures kept { OnErr result (string_bytes out.new ≡ string_bytes out.old) }
{
    let mut text = printed_line(alloc, line)?;
    text.push('\n')?;
    out.push_str(text.as_str())
}

/// How many bytes `line_text` writes for a line: 2^64 - 1 where they are more. It takes no memory.
pub fn line_len(line: &Line) -> u64
    ensures { result ≡ capped (length (line_text line.now)) }
{
    let mut length = Length::new();
    let Ok(()) = line_object(&mut length, line);
    length.bytes
}
