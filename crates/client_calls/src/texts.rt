// What is printed of a client's answers.
ghost use Rattle.std.specs.Prelude.{◌≡◌, ◌++◌, IfOk, IsTrue, OnOk, flat_map, string_bytes};
ghost use Rattle.share_lines.specs.Printing.{body_text, is_printable};
ghost use Rattle.client_calls.specs.Texts.{file_text, line_and_end, read_text, table_line, tables_text};

use share_client::{SharedTable, TableRead};
use share_lines::{FileKind, FileLine, FileParts, Line, line_text, push_file_parts};
use std::alloc::{AllocError, Global};

fn table_line(alloc: Global, table: &SharedTable) -> Result<String, AllocError>
    ensures { IfOk result (λ t. string_bytes t ≡ table_line table.now) }
{
    let mut line = String::from_str(alloc, table.share.as_str())?;
    line.push_str(" ")?;
    line.push_str(table.schema.as_str())?;
    line.push_str(" ")?;
    line.push_str(table.table.as_str())?;
    line.push_str("\n")?;
    Ok(line)
}

// A line for each table.
pub(crate) fn tables_text(alloc: Global, tables: &[SharedTable]) -> Result<Vec<u8>, AllocError>
    ensures { IfOk result (λ t. t.items ≡ tables_text tables.now) }
{
    let mut text = Vec::new(alloc);
    for table in tables {
        let line = table_line(alloc, table)?;
        text.extend_from_slice(line.as_bytes())?;
    }
    Ok(text)
}

// Appends the line of a kind that has no file.
fn push_plain(alloc: Global, out: &mut Vec<u8>, line: &Line) -> Result<(), AllocError>
    requires { IsTrue (is_printable line.now) }
    ensures { OnOk result (out.new.items ≡ out.old.items ++ line_and_end line.now) }
{
    let text = line_text(alloc, line)?;
    out.extend_from_slice(text.as_str().as_bytes())?;
    out.push(b'\n')?;
    Ok(())
}

// Appends a line that a client has read.
fn push_line(alloc: Global, out: &mut Vec<u8>, line: &Line) -> Result<(), AllocError>
    ensures { OnOk result (out.new.items ≡ out.old.items ++ line_and_end line.now) }
{
    match line {
        Line::File(file) => push_file_parts(alloc, out, FileKind::File, &FileParts::of_line(file)),
        Line::Add(file) => push_file_parts(alloc, out, FileKind::Add, &FileParts::of_line(file)),
        Line::Cdf(file) => push_file_parts(alloc, out, FileKind::Cdf, &FileParts::of_line(file)),
        Line::Remove(file) => {
            push_file_parts(alloc, out, FileKind::Remove, &FileParts::of_line(file))
        }
        Line::Protocol | Line::MetaData(_) | Line::End(_) => push_plain(alloc, out, line),
    }
}

fn push_files(alloc: Global, out: &mut Vec<u8>, files: &[FileLine]) -> Result<(), AllocError>
    ensures { OnOk result (out.new.items ≡ out.old.items ++ flat_map file_text files.now) }
{
    for file in files {
        push_file_parts(alloc, out, FileKind::File, &FileParts::of_line(file))?;
    }
    Ok(())
}

// The metaData line of what was read, and the lines of its files.
pub(crate) fn read_text(alloc: Global, read: &TableRead) -> Result<Vec<u8>, AllocError>
    ensures { IfOk result (λ t. t.items ≡ read_text read.now) }
{
    let mut text = Vec::new(alloc);
    push_line(alloc, &mut text, &read.meta)?;
    push_files(alloc, &mut text, &read.files)?;
    Ok(text)
}

// The lines of changes.
pub(crate) fn changes_text(alloc: Global, lines: &[Line]) -> Result<Vec<u8>, AllocError>
    ensures { IfOk result (λ t. t.items ≡ body_text lines.now) }
{
    let mut text = Vec::new(alloc);
    for line in lines {
        push_line(alloc, &mut text, line)?;
    }
    Ok(text)
}
