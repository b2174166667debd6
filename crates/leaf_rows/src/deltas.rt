// Lines of answers in the delta format.
ghost use Rattle.std.specs.Prelude.{◌≡◌};
ghost use Rattle.delta_lines.specs.Delta.{has_vector as has_a_vector, is_printable as is_printable_line, path_of as path_of_action};

use crate::answer::Answer;
use crate::given::Given;
use delta_lines::{
    ActionParts, DeltaFile, DeltaLine, DeltaParts, FileAction, LinesFault, delta_lines_of,
    delta_meta_len, delta_parts_len, delta_protocol_len, delta_text, push_delta_file,
    push_delta_meta, push_delta_protocol,
};
use json_tree::Text;
use row_files::RowFault;
use share_lines::{end_len, push_end};
use std::alloc::{AllocError, Global};

fn path_of(action: &FileAction) -> &Text
    ensures { result.now ≡ path_of_action action.now }
{
    match action {
        FileAction::Add(file) => &file.path,
        FileAction::Cdc(file) => &file.path,
        FileAction::Remove(file) => &file.path,
    }
}

fn has_vector(action: &FileAction) -> bool
    ensures { result ≡ has_a_vector action.now }
{
    match action {
        FileAction::Add(file) => file.vector,
        FileAction::Cdc(_) => false,
        FileAction::Remove(file) => file.vector,
    }
}

fn is_printable(line: &DeltaLine) -> bool
    ensures { result ≡ is_printable_line line.now }
{
    match line {
        DeltaLine::File(file) => {
            path_of(&file.action).as_str() == file.id.as_str() && !has_vector(&file.action)
        }
        DeltaLine::Protocol(_) | DeltaLine::MetaData(_) | DeltaLine::End(_) => true,
    }
}

// Appends the line of a file, and tells how many bytes it has without its line feed.
fn push_file(alloc: Global, text: &mut Vec<u8>, file: &DeltaFile) -> Result<u64, AllocError> {
    let action = match &file.action {
        FileAction::Add(action) => ActionParts::Add(action),
        FileAction::Cdc(action) => ActionParts::Cdc(action),
        FileAction::Remove(action) => ActionParts::Remove(action),
    };
    let parts = DeltaParts {
        url: &file.url,
        action,
        expires: file.expires,
        time: file.time,
        version: file.version,
    };
    push_delta_file(alloc, text, &parts)?;
    Ok(delta_parts_len(&parts))
}

// Appends a line, and tells how many bytes it has without its line feed.
fn push(alloc: Global, text: &mut Vec<u8>, line: &DeltaLine) -> Result<u64, AllocError> {
    match line {
        DeltaLine::Protocol(protocol) => {
            push_delta_protocol(alloc, text, protocol)?;
            Ok(delta_protocol_len(protocol))
        }
        DeltaLine::MetaData(meta) => {
            push_delta_meta(alloc, text, meta)?;
            Ok(delta_meta_len(meta))
        }
        DeltaLine::File(file) => push_file(alloc, text, file),
        DeltaLine::End(end) => {
            push_end(alloc, text, end)?;
            Ok(end_len(end))
        }
    }
}

// Appends the text of a line and a line feed, as it is printed by itself.
fn add_text(text: &mut Vec<u8>, line: &DeltaLine, out: &mut Answer) {
    if !is_printable(line) {
        out.fail(RowFault::Unknown("such a line"));
        return;
    }
    if let Some(printed) = out.kept(delta_text(out.alloc(), line)) {
        let done = text.extend_from_slice(printed.as_str().as_bytes());
        out.stored(done);
        let done = text.extend_from_slice(b"\n");
        out.stored(done);
    }
}

// How long each line is, and the lines; also as they are printed by themselves, where that is something else.
fn add_lines(lines: &[DeltaLine], out: &mut Answer) {
    let mut pushed = Vec::new(out.alloc());
    let mut printed = Vec::new(out.alloc());
    out.word("bytes:");
    for line in lines {
        if let Some(bytes) = out.kept(push(out.alloc(), &mut pushed, line)) {
            out.number(" ", bytes);
        }
        add_text(&mut printed, line, out);
    }
    out.word("\n");
    out.bytes(&pushed);
    if printed.as_slice() != pushed.as_slice() {
        out.word("by themselves:\n");
        out.bytes(&printed);
    }
}

fn add_read(lines: &Result<Vec<DeltaLine>, LinesFault>, out: &mut Answer) {
    match lines {
        Ok(lines) => add_lines(lines, out),
        Err(LinesFault::Bad { at }) => out.number("bad at ", *at),
        Err(LinesFault::NoMemory) => out.fail(RowFault::NoMemory),
    }
}

// The lines that are read of a body, printed again.
fn delta_lines(given: &Given, out: &mut Answer) {
    let lines = delta_lines_of(out.alloc(), &given.bytes("body", out));
    add_read(&lines, out);
}

/// Answers a call, where it is one of these.
pub(crate) fn answer(call: &str, given: &Given, out: &mut Answer) -> bool {
    match call {
        "delta_lines" => delta_lines(given, out),
        _ => return false,
    }
    true
}
