// Lines of a table's version, and of borrowed parts.
ghost use Rattle.std.specs.Prelude.{◌≡◌, ◌++◌, [], ◌∷◌, OnOk, OnErr, IfOk, length};
ghost use Rattle.json.specs.Print.{print};
ghost use Rattle.json_print.specs.Lengths.{capped};
ghost use Rattle.json_print.specs.Tokens.{value_tokens};
ghost use Rattle.share_lines.specs.Lines.{file_line, meta_line, meta_of, protocol_line};
ghost use Rattle.share_lines.specs.Parts.{file_data, file_in, line_of, meta_in};
ghost use Rattle.share_lines.specs.Printing.{line_data, line_text};
ghost use Rattle.share_lines.specs.declared.kinds.Line.TheVariants as line;

use crate::printing::{end_line_object, file_object, meta_object};
use crate::{EndLine, FileKind, FileParts, MetaLine, MetaParts};
use json::Writer;
use json_print::{Length, Tokens, new_writer, printed};
use json_tree::Text;
use log_actions::{AddFile, MetaData};
use std::alloc::{AllocError, Global};

// Room for most lines.
const ROOM: usize = 512;

/// Appends the protocol line. On `Err`, which is want of memory, nothing is appended, here and in the
/// functions below.
pub fn push_protocol(out: &mut Vec<u8>) -> Result<(), AllocError>
    ensures line { OnOk result (out.new.items ≡ out.old.items ++ protocol_line) }
    ensures kept { OnErr result (out.new.items ≡ out.old.items) }
{
    out.extend_from_slice(b"{\"protocol\":{\"minReaderVersion\":1}}\n")
}

// What was written, and a line feed.
fn with_line_feed(writer: Writer) -> Result<Vec<u8>, AllocError>
    requires { writer.before ≡ [] }
    ensures { IfOk result (λ v. v.items ≡ print writer.tokens ++ 10 ∷ []) }
{
    let mut bytes = writer.into_inner();
    bytes.push(b'\n')?;
    Ok(bytes)
}

// The object of a line that has a file.
fn kind_object<W: Tokens>(
    writer: &mut W,
    kind: FileKind,
    file: &FileParts<'_>,
) -> Result<(), W::Error>
    ensures { OnOk result (W.adds writer.old writer.new (value_tokens (file_data kind (file_in file.now)))) }
{
    writer.begin_object()?;
    writer.key(kind.word())?;
    file_object(writer, file)?;
    writer.end_object()
}

/// Appends the line of a file by its parts. It is written in a buffer of its own and copied, which takes less time than to let
/// the kit's writer go on at the end of a long one: that fills the room ahead with zeros, for each line anew.
pub fn push_file_parts(
    alloc: Global,
    out: &mut Vec<u8>,
    kind: FileKind,
    file: &FileParts<'_>,
) -> Result<(), AllocError>
    ensures line { OnOk result (out.new.items ≡ out.old.items ++ (line_text (line_of kind (file_in file.now)) ++ 10 ∷ [])) }
    ensures kept { OnErr result (out.new.items ≡ out.old.items) }
{
    let mut writer = new_writer(alloc, ROOM)?;
    kind_object(&mut writer, kind, file)?;
    let text = with_line_feed(writer)?;
    out.extend_from_slice(&text)
}

/// How many bytes `push_file_parts` appends, but for the line feed: 2^64 - 1 where they are more. It
/// takes no memory.
pub fn file_parts_len(kind: FileKind, file: &FileParts<'_>) -> u64
    ensures { result ≡ capped (length (line_text (line_of kind (file_in file.now)))) }
{
    let mut length = Length::new();
    let Ok(()) = kind_object(&mut length, kind, file);
    length.bytes
}

/// Appends a file's line, whose place is its path.
pub fn push_file(alloc: Global, out: &mut Vec<u8>, file: &AddFile) -> Result<(), AllocError>
    ensures line { OnOk result (out.new.items ≡ out.old.items ++ file_line file.now) }
    ensures kept { OnErr result (out.new.items ≡ out.old.items) }
{
    push_file_parts(alloc, out, FileKind::File, &FileParts::of_add(file))
}

// The object of a metaData's line.
fn meta_line_object<W: Tokens>(writer: &mut W, meta: &MetaParts<'_>) -> Result<(), W::Error>
    ensures { OnOk result (W.adds writer.old writer.new (value_tokens (line_data (line.MetaData (meta_in meta.now))))) }
{
    writer.begin_object()?;
    writer.key("metaData")?;
    meta_object(writer, meta)?;
    writer.end_object()
}

/// Appends a metaData's line.
pub fn push_meta(alloc: Global, out: &mut Vec<u8>, meta: &MetaData) -> Result<(), AllocError>
    ensures line { OnOk result (out.new.items ≡ out.old.items ++ meta_line meta.now) }
    ensures kept { OnErr result (out.new.items ≡ out.old.items) }
{
    let mut writer = new_writer(alloc, ROOM)?;
    meta_line_object(&mut writer, &MetaParts::of_action(meta))?;
    let text = with_line_feed(writer)?;
    out.extend_from_slice(&text)
}

/// The text of a metaData's line, without a line feed. The error is want of memory.
pub fn meta_text(alloc: Global, meta: &MetaLine) -> Result<Text, AllocError>
    ensures { IfOk result (λ t. t ≡ line_text (line.MetaData meta.now)) }
{
    let mut writer = new_writer(alloc, ROOM)?;
    meta_line_object(&mut writer, &MetaParts::of_line(meta))?;
    Ok(Text::of(printed(writer)))
}

/// How many bytes `push_meta` appends, but for the line feed: 2^64 - 1 where they are more. It takes no
/// memory.
pub fn meta_len(meta: &MetaData) -> u64
    ensures { result ≡ capped (length (line_text (line.MetaData (meta_of meta.now)))) }
{
    let mut length = Length::new();
    let Ok(()) = meta_line_object(&mut length, &MetaParts::of_action(meta));
    length.bytes
}

// The object of the line of the end of a stream.
fn end_object<W: Tokens>(writer: &mut W, end: &EndLine) -> Result<(), W::Error>
    ensures { OnOk result (W.adds writer.old writer.new (value_tokens (line_data (line.End end.now)))) }
{
    writer.begin_object()?;
    writer.key("endStreamAction")?;
    end_line_object(writer, end)?;
    writer.end_object()
}

/// Appends the line of the end of a stream.
pub fn push_end(alloc: Global, out: &mut Vec<u8>, end: &EndLine) -> Result<(), AllocError>
    ensures line { OnOk result (out.new.items ≡ out.old.items ++ (line_text (line.End end.now) ++ 10 ∷ [])) }
    ensures kept { OnErr result (out.new.items ≡ out.old.items) }
{
    let mut writer = new_writer(alloc, ROOM)?;
    end_object(&mut writer, end)?;
    let text = with_line_feed(writer)?;
    out.extend_from_slice(&text)
}

/// How many bytes the line of the end of a stream has, but for the line feed: 2^64 - 1 where they are
/// more. It takes no memory.
pub fn end_len(end: &EndLine) -> u64
    ensures { result ≡ capped (length (line_text (line.End end.now))) }
{
    let mut length = Length::new();
    let Ok(()) = end_object(&mut length, end);
    length.bytes
}
