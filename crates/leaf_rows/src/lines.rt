// Lines of answers, and the bodies of refusals.
ghost use Rattle.std.specs.Prelude.{◌≡◌, All, IsTrue};
ghost use Rattle.share_lines.specs.Errors.{takes_detail};
ghost use Rattle.share_lines.specs.Printing.{is_printable as is_printable_line};

use crate::answer::Answer;
use crate::given::Given;
use case_table::Refusal;
use json_tree::Text;
use log_actions::{Action, NoAction, action_of_line};
use row_files::RowFault;
use share_lines::{
    FileKind, FileLine, FileParts, Line, Lines, LinesFault, error_of, error_text, file_parts_len,
    line_len, lines_of, lines_text, push_file, push_file_parts, push_meta, push_protocol,
};
use std::alloc::{AllocError, Global};

fn is_printable(line: &Line) -> bool
    ensures { result ≡ is_printable_line line.now }
{
    match line {
        Line::Protocol | Line::MetaData(_) | Line::End(_) => true,
        Line::File(file) => file.time.is_none() && file.version.is_none(),
        Line::Add(file) => file.time.is_some() && file.version.is_some(),
        Line::Cdf(file) | Line::Remove(file) => {
            file.time.is_some() && file.version.is_some() && file.stats.is_none()
        }
    }
}

fn are_printable(lines: &[Line]) -> bool
    ensures { IsTrue result → All (λ l. IsTrue (is_printable_line l)) lines.now }
{
    lines.iter().all(|line| is_printable(line))
}

// How long each line is, and the lines.
fn add_lines(lines: &[Line], out: &mut Answer) {
    if !are_printable(lines) {
        out.fail(RowFault::Unknown("such a line"));
        return;
    }
    out.word("bytes:");
    for line in lines {
        out.number(" ", line_len(line));
    }
    if let Some(text) = out.kept(lines_text(out.alloc(), lines)) {
        out.words("\n", text.as_str());
    }
}

fn add_read(lines: &Result<Lines, LinesFault>, out: &mut Answer) {
    match lines {
        Ok(lines) => add_lines(lines.items(), out),
        Err(LinesFault::Bad { at }) => out.number("bad at ", *at),
        Err(LinesFault::NoMemory) => out.fail(RowFault::NoMemory),
    }
}

// The lines that are read of a body, printed again.
fn lines(given: &Given, out: &mut Answer) {
    let lines = lines_of(out.alloc(), &given.bytes("body", out));
    add_read(&lines, out);
}

fn kind_of(word: &str) -> Option<FileKind> {
    match word {
        "File" => Some(FileKind::File),
        "Add" => Some(FileKind::Add),
        "Cdf" => Some(FileKind::Cdf),
        "Remove" => Some(FileKind::Remove),
        _ => None,
    }
}

// How long the line of a file is as that kind, and the line.
fn add_file(kind: FileKind, file: &FileLine, out: &mut Answer) {
    let parts = FileParts::of_line(file);
    let mut text = Vec::new(out.alloc());
    let done = push_file_parts(out.alloc(), &mut text, kind, &parts);
    out.stored(done);
    out.number("bytes: ", file_parts_len(kind, &parts));
    out.word("\n");
    out.bytes(&text);
}

fn add_first(kind: FileKind, lines: &Result<Lines, LinesFault>, out: &mut Answer) {
    match lines {
        Ok(lines) => match lines.items().first() {
            Some(Line::Add(file)) => add_file(kind, file, out),
            _ => out.fail(RowFault::Unknown("such a line")),
        },
        Err(_) => out.lacks("body"),
    }
}

// The file that a line adds, printed as that kind.
fn file_as(given: &Given, out: &mut Answer) {
    let Some(kind) = kind_of(given.word("kind", out)) else {
        out.lacks("kind");
        return;
    };
    let lines = lines_of(out.alloc(), &given.bytes("body", out));
    add_first(kind, &lines, out);
}

fn push_action(
    alloc: Global,
    text: &mut Vec<u8>,
    action: &Result<Option<Action>, NoAction>,
) -> Result<(), AllocError> {
    push_protocol(text)?;
    match action {
        Ok(Some(Action::MetaData(meta))) => push_meta(alloc, text, meta),
        Ok(Some(Action::Add(file))) => push_file(alloc, text, file),
        _ => Ok(()),
    }
}

fn add_action(action: &Result<Option<Action>, NoAction>, out: &mut Answer) {
    let mut text = Vec::new(out.alloc());
    let done = push_action(out.alloc(), &mut text, action);
    out.stored(done);
    out.bytes(&text);
}

// The lines of a protocol and of a log's action.
fn line_of_action(given: &Given, out: &mut Answer) {
    let action = action_of_line(out.alloc(), &given.bytes("action", out));
    add_action(&action, out);
}

fn takes(refusal: Refusal, detail: &str) -> bool
    ensures { result ≡ takes_detail refusal detail.now }
{
    detail.is_empty() || refusal.has_detail()
}

fn add_error(refusal: Refusal, detail: &str, out: &mut Answer) {
    if !takes(refusal, detail) {
        out.lacks("detail");
        return;
    }
    match &error_text(out.alloc(), refusal, detail) {
        Ok(body) => out.word(body.as_str()),
        Err(_) => out.fail(RowFault::NoMemory),
    }
}

// The body of a refusal.
fn error(given: &Given, out: &mut Answer) {
    match Refusal::of_word(given.word("refusal", out)) {
        Some(refusal) => add_error(refusal, &given.text("detail", out), out),
        None => out.lacks("refusal"),
    }
}

fn add_error_read(error: &Result<Option<(Refusal, Text)>, AllocError>, out: &mut Answer) {
    match error {
        Ok(Some((refusal, detail))) => {
            out.show(refusal);
            out.words(" ", detail.as_str());
        }
        Ok(None) => out.word("no refusal"),
        Err(_) => out.fail(RowFault::NoMemory),
    }
}

// The refusal that a body tells, and its detail.
fn error_read(given: &Given, out: &mut Answer) {
    let error = error_of(out.alloc(), &given.bytes("body", out));
    add_error_read(&error, out);
}

/// Answers a call, where it is one of these.
pub(crate) fn answer(call: &str, given: &Given, out: &mut Answer) -> bool {
    match call {
        "lines" => lines(given, out),
        "file_as" => file_as(given, out),
        "line_of_action" => line_of_action(given, out),
        "error" => error(given, out),
        "error_read" => error_read(given, out),
        _ => return false,
    }
    true
}
