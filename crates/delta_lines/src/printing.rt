// The line of each kind.
ghost use Rattle.std.specs.Prelude.{◌≡◌, ◌<◌, ◌^◌, ◌++◌, ◌∷◌, [], Some, IfOk, IfSome, IsTrue, OnErr, OnOk, length, option_map, string_bytes};
ghost use Rattle.json_tree.specs.Pairs.{IsPairs};
ghost use Rattle.json_print.specs.Fields.{object_of};
ghost use Rattle.json_print.specs.Tokens.{field_tokens, value_tokens};
ghost use Rattle.json_print.specs.Lengths.{capped};
ghost use Rattle.json_print.specs.Values.{count_value};
ghost use Rattle.log_actions.specs.Kept.{KeptMetaData, KeptProtocol};
ghost use Rattle.log_actions.specs.Printing.{format_fields, meta_data_fields, protocol_fields};
ghost use Rattle.share_lines.specs.Printing.{end_fields};
ghost use Rattle.delta_lines.specs.Bodies.{delta_line_at};
ghost use Rattle.delta_lines.specs.Delta.{action_fields, delta_line_data, delta_line_text, file_fields, is_printable, kind_fields, single_fields};
ghost use Rattle.delta_lines.specs.Kept.{Kept, KeptAction, KeptFile};
ghost use Rattle.delta_lines.specs.Parts.{action_in, file_in, line_in};
ghost use Rattle.delta_lines.specs.declared.kinds.DeltaLine.TheVariants as line;

use crate::parts::LineParts;
use crate::{ActionParts, DeltaFile, DeltaLine, DeltaParts};
use json_print::{
    Length, Tokens, count_field, new_writer, optional_text_field, optional_texts_field,
    optional_whole_field, pairs_field, printed, text_field, texts_field,
};
use json_tree::{Small, Text};
use log_actions::{Format, MetaData, Protocol, ProtocolVersion, push_add, push_cdc, push_remove};
use share_lines::EndLine;
use std::alloc::{AllocError, Global};

// Room for most lines.
const ROOM: usize = 512;

// ---- what stands in the lines

fn small_field<W: Tokens, U>(
    out: &mut W,
    name: &str,
    number: Option<Small<U>>,
) -> Result<(), W::Error>
    ensures written { OnOk result (W.adds out.old out.new (field_tokens (name.now, option_map count_value number))) }
    ensures bound { IfSome number (λ n. n < 2 ^ 63) }
{
    match number {
        Some(number) => count_field(out, name, number.get()),
        None => Ok(()),
    }
}

fn feature_version_field<W: Tokens>(
    out: &mut W,
    name: &str,
    version: ProtocolVersion,
) -> Result<(), W::Error>
    ensures written { OnOk result (W.adds out.old out.new (field_tokens (name.now, Some (count_value version)))) }
    ensures bound { version < 2 ^ 31 }
{
    count_field(out, name, version.get().into())
}

fn protocol_object<W: Tokens>(out: &mut W, protocol: &Protocol) -> Result<(), W::Error>
    ensures written { OnOk result (W.adds out.old out.new (value_tokens (object_of (protocol_fields protocol.now)))) }
    ensures kept { OnOk result (KeptProtocol protocol.now) }
{
    out.begin_object()?;
    feature_version_field(out, "minReaderVersion", protocol.min_reader)?;
    feature_version_field(out, "minWriterVersion", protocol.min_writer)?;
    optional_texts_field(out, "readerFeatures", &protocol.reader_features)?;
    optional_texts_field(out, "writerFeatures", &protocol.writer_features)?;
    out.end_object()
}

fn format_object<W: Tokens>(out: &mut W, format: &Format) -> Result<(), W::Error>
    ensures written { OnOk result (W.adds out.old out.new (value_tokens (object_of (format_fields format.now)))) }
    ensures kept { OnOk result (IsPairs format.now.options) }
{
    out.begin_object()?;
    pairs_field(out, "options", &format.options)?;
    text_field(out, "provider", &format.provider)?;
    out.end_object()
}

fn meta_object<W: Tokens>(out: &mut W, meta: &MetaData) -> Result<(), W::Error>
    ensures written { OnOk result (W.adds out.old out.new (value_tokens (object_of (meta_data_fields meta.now)))) }
    ensures kept { OnOk result (KeptMetaData meta.now) }
{
    out.begin_object()?;
    pairs_field(out, "configuration", &meta.configuration)?;
    optional_whole_field(out, "createdTime", meta.created)?;
    optional_text_field(out, "description", &meta.description)?;
    out.key("format")?;
    format_object(out, &meta.format)?;
    text_field(out, "id", &meta.id)?;
    optional_text_field(out, "name", &meta.name)?;
    texts_field(out, "partitionColumns", &meta.columns)?;
    text_field(out, "schemaString", &meta.schema)?;
    out.end_object()
}

// What the log says of a file, by that path.
fn action_value<W: Tokens>(
    out: &mut W,
    action: ActionParts<'_>,
    path: &Text,
) -> Result<(), W::Error>
    ensures written { OnOk result (W.adds out.old out.new (value_tokens (object_of (action_fields path.now (action_in action.entry))))) }
    ensures kept { OnOk result (KeptAction (action_in action.entry)) }
{
    match action {
        ActionParts::Add(file) => push_add(out, file, path),
        ActionParts::Cdc(file) => push_cdc(out, file, path),
        ActionParts::Remove(file) => push_remove(out, file, path),
    }
}

fn single_object<W: Tokens>(
    out: &mut W,
    action: ActionParts<'_>,
    path: &Text,
) -> Result<(), W::Error>
    ensures written { OnOk result (W.adds out.old out.new (value_tokens (object_of (single_fields path.now (action_in action.entry))))) }
    ensures kept { OnOk result (KeptAction (action_in action.entry)) }
{
    out.begin_object()?;
    out.key(action.word())?;
    action_value(out, action, path)?;
    out.end_object()
}

// ---- the kinds

fn protocol_value<W: Tokens>(out: &mut W, protocol: &Protocol) -> Result<(), W::Error>
    ensures written { OnOk result (W.adds out.old out.new (value_tokens (object_of (kind_fields (line.Protocol protocol.now))))) }
    ensures kept { OnOk result (KeptProtocol protocol.now) }
{
    out.begin_object()?;
    out.key("deltaProtocol")?;
    protocol_object(out, protocol)?;
    out.end_object()
}

fn meta_value<W: Tokens>(out: &mut W, meta: &MetaData) -> Result<(), W::Error>
    ensures written { OnOk result (W.adds out.old out.new (value_tokens (object_of (kind_fields (line.MetaData meta.now))))) }
    ensures kept { OnOk result (KeptMetaData meta.now) }
{
    out.begin_object()?;
    out.key("deltaMetadata")?;
    meta_object(out, meta)?;
    out.end_object()
}

fn file_value<W: Tokens>(out: &mut W, file: &DeltaParts<'_>) -> Result<(), W::Error>
    ensures written { OnOk result (W.adds out.old out.new (value_tokens (object_of (file_fields (file_in file.now))))) }
    ensures kept { OnOk result (KeptFile (file_in file.now)) }
{
    out.begin_object()?;
    out.key("deltaSingleAction")?;
    single_object(out, file.action, file.url)?;
    small_field(out, "expirationTimestamp", file.expires)?;
    text_field(out, "id", file.action.path())?;
    optional_whole_field(out, "timestamp", file.time)?;
    small_field(out, "version", file.version)?;
    out.end_object()
}

fn end_value<W: Tokens>(out: &mut W, end: &EndLine) -> Result<(), W::Error>
    ensures written { OnOk result (W.adds out.old out.new (value_tokens (object_of (end_fields end.now)))) }
    ensures kept { OnOk result (IfSome end.now.min_expires (λ n. n < 2 ^ 63)) }
{
    out.begin_object()?;
    small_field(out, "minUrlExpirationTimestamp", end.min_expires)?;
    optional_text_field(out, "nextPageToken", &end.token)?;
    out.end_object()
}

fn kind_value<W: Tokens>(out: &mut W, line: LineParts<'_>) -> Result<(), W::Error>
    ensures written { OnOk result (W.adds out.old out.new (value_tokens (object_of (kind_fields (line_in line.entry))))) }
    ensures kept { OnOk result (Kept (line_in line.entry)) }
{
    match line {
        LineParts::Protocol(protocol) => protocol_value(out, protocol),
        LineParts::MetaData(meta) => meta_value(out, meta),
        LineParts::File(file) => file_value(out, file),
        LineParts::End(end) => end_value(out, end),
    }
}

fn line_object<W: Tokens>(out: &mut W, line: LineParts<'_>) -> Result<(), W::Error>
    ensures written { OnOk result (W.adds out.old out.new (value_tokens (delta_line_data (line_in line.entry)))) }
    ensures kept { OnOk result (Kept (line_in line.entry)) }
{
    out.begin_object()?;
    out.key(line.kind_name())?;
    kind_value(out, line)?;
    out.end_object()
}

// ---- texts and lengths

// The text of a line, without a line feed.
fn text_of(alloc: Global, line: LineParts<'_>) -> Result<String, AllocError>
    ensures text { IfOk result (λ s. string_bytes s ≡ delta_line_text (line_in line.entry)) }
    ensures back { OnOk result (IsTrue (is_printable (line_in line.entry)) → delta_line_at (delta_line_text (line_in line.entry)) ≡ Some (line_in line.entry)) }
{
    let mut writer = new_writer(alloc, ROOM)?;
    line_object(&mut writer, line)?;
    Ok(printed(writer))
}

// Appends a line's text and a line feed. The line is written in a buffer of its own and copied, since the kit's writer fills the room
// ahead of it with zeros.
fn push(alloc: Global, out: &mut Vec<u8>, line: LineParts<'_>) -> Result<(), AllocError>
    ensures line { OnOk result (out.new.items ≡ out.old.items ++ (delta_line_text (line_in line.entry) ++ 10 ∷ [])) }
    ensures kept { OnErr result (out.new.items ≡ out.old.items) }
{
    let mut text = text_of(alloc, line)?;
    text.push('\n')?;
    out.extend_from_slice(text.as_bytes())
}

// How many bytes a line's text has: 2^64 - 1 where they are more.
fn len_of(line: LineParts<'_>) -> u64
    ensures { result ≡ capped (length (delta_line_text (line_in line.entry))) }
{
    let mut length = Length::new();
    let Ok(()) = line_object(&mut length, line);
    length.bytes
}

fn printed_text(alloc: Global, line: LineParts<'_>) -> Result<Text, AllocError>
    ensures text { IfOk result (λ t. t ≡ delta_line_text (line_in line.entry)) }
    ensures back { IfOk result (λ t. IsTrue (is_printable (line_in line.entry)) → delta_line_at t ≡ Some (line_in line.entry)) }
{
    Ok(Text::of(text_of(alloc, line)?))
}

fn file_text(alloc: Global, file: &DeltaFile) -> Result<Text, AllocError>
    requires { IsTrue (is_printable (line.File file.now)) }
    ensures text { IfOk result (λ t. t ≡ delta_line_text (line.File file.now)) }
    ensures back { IfOk result (λ t. delta_line_at t ≡ Some (line.File file.now)) }
{
    let parts = DeltaParts::of_file(file);
    printed_text(alloc, LineParts::File(&parts))
}

/// The text of a line, without a line feed: a compact JSON object with the kind's name alone, in which stands what a log says, with the
/// link in the place of a file's path; each field that has a value, in byte order of the names. It is read as that line. The error is
/// want of memory.
pub fn delta_text(alloc: Global, line: &DeltaLine) -> Result<Text, AllocError>
    requires { IsTrue (is_printable line.now) }
    ensures text { IfOk result (λ t. t ≡ delta_line_text line.now) }
    ensures back { IfOk result (λ t. delta_line_at t ≡ Some line.now) }
{
    match line {
        DeltaLine::Protocol(protocol) => printed_text(alloc, LineParts::Protocol(protocol)),
        DeltaLine::MetaData(meta) => printed_text(alloc, LineParts::MetaData(meta)),
        DeltaLine::File(file) => file_text(alloc, file),
        DeltaLine::End(end) => printed_text(alloc, LineParts::End(end)),
    }
}

/// The text of a protocol's line, without a line feed. The error is want of memory.
pub fn delta_protocol_text(alloc: Global, protocol: &Protocol) -> Result<Text, AllocError>
    ensures { IfOk result (λ t. t ≡ delta_line_text (line.Protocol protocol.now)) }
{
    printed_text(alloc, LineParts::Protocol(protocol))
}

/// The text of a metaData's line, without a line feed. The error is want of memory.
pub fn delta_meta_text(alloc: Global, meta: &MetaData) -> Result<Text, AllocError>
    ensures { IfOk result (λ t. t ≡ delta_line_text (line.MetaData meta.now)) }
{
    printed_text(alloc, LineParts::MetaData(meta))
}

/// Appends the line of a protocol, and a line feed. On `Err`, which is want of memory, nothing is appended, here and in the functions
/// below.
pub fn push_delta_protocol(
    alloc: Global,
    out: &mut Vec<u8>,
    protocol: &Protocol,
) -> Result<(), AllocError>
    ensures line { OnOk result (out.new.items ≡ out.old.items ++ (delta_line_text (line.Protocol protocol.now) ++ 10 ∷ [])) }
    ensures kept { OnErr result (out.new.items ≡ out.old.items) }
{
    push(alloc, out, LineParts::Protocol(protocol))
}

/// Appends the line of a metaData.
pub fn push_delta_meta(alloc: Global, out: &mut Vec<u8>, meta: &MetaData) -> Result<(), AllocError>
    ensures line { OnOk result (out.new.items ≡ out.old.items ++ (delta_line_text (line.MetaData meta.now) ++ 10 ∷ [])) }
    ensures kept { OnErr result (out.new.items ≡ out.old.items) }
{
    push(alloc, out, LineParts::MetaData(meta))
}

/// Appends the line of a file by its parts.
pub fn push_delta_file(
    alloc: Global,
    out: &mut Vec<u8>,
    file: &DeltaParts<'_>,
) -> Result<(), AllocError>
    ensures line { OnOk result (out.new.items ≡ out.old.items ++ (delta_line_text (line.File (file_in file.now)) ++ 10 ∷ [])) }
    ensures kept { OnErr result (out.new.items ≡ out.old.items) }
{
    push(alloc, out, LineParts::File(file))
}

/// How many bytes `push_delta_protocol` appends, but for the line feed: 2^64 - 1 where they are more. It takes no memory, here and in
/// the functions below.
pub fn delta_protocol_len(protocol: &Protocol) -> u64
    ensures { result ≡ capped (length (delta_line_text (line.Protocol protocol.now))) }
{
    len_of(LineParts::Protocol(protocol))
}

/// How many bytes `push_delta_meta` appends, but for the line feed.
pub fn delta_meta_len(meta: &MetaData) -> u64
    ensures { result ≡ capped (length (delta_line_text (line.MetaData meta.now))) }
{
    len_of(LineParts::MetaData(meta))
}

/// How many bytes `push_delta_file` appends, but for the line feed.
pub fn delta_parts_len(file: &DeltaParts<'_>) -> u64
    ensures { result ≡ capped (length (delta_line_text (line.File (file_in file.now)))) }
{
    len_of(LineParts::File(file))
}
