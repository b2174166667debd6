// Values of partition columns, the types of columns by schemas, and predicates over them.
use crate::answer::Answer;
use crate::given::Given;
use json_tree::{Text, Texts};
use log_actions::{Action, AddFile, MetaData, NoAction, action_of_line};
use part_values::{Columns, PartType, columns_of, value_of};
use pred_tree::{BoundPred, Pred, Shown, bind, pred_of};
use row_files::RowFault;
use serde_json::Value;
use std::alloc::{AllocError, Global};

fn kind_of(word: &str) -> Option<PartType> {
    match word {
        "Bool" => Some(PartType::Bool),
        "Byte" => Some(PartType::Byte),
        "Short" => Some(PartType::Short),
        "Int" => Some(PartType::Int),
        "Long" => Some(PartType::Long),
        "Str" => Some(PartType::Str),
        "Date" => Some(PartType::Date),
        "Other" => Some(PartType::Other),
        _ => None,
    }
}

// What a text is as a value of a type; it may be lacking.
fn value(given: &Given, out: &mut Answer) {
    match kind_of(given.word("as", out)) {
        Some(kind) => {
            let text = given.with.get("text").and_then(Value::as_str);
            out.show(&value_of(text, kind));
        }
        None => out.lacks("as"),
    }
}

fn names_of(alloc: Global, values: &[Value]) -> Result<Texts, AllocError> {
    let mut names = Vec::new(alloc);
    for name in values {
        let name = String::from_str(alloc, name.as_str().unwrap_or(""))?;
        names.push(Text::of(name))?;
    }
    Ok(Texts::of(names))
}

// The columns of those names, typed by the schema.
fn columns_at(given: &Given, out: &mut Answer) -> Result<Columns, AllocError> {
    let names = names_of(out.alloc(), given.list("columns", out))?;
    columns_of(out.alloc(), &given.json_text("schema", out), &names)
}

// Adds the columns, and the types of those of other names that are asked for.
fn add_columns(out: &mut Answer, columns: &Columns, asked: &[Value]) {
    for column in columns.items() {
        out.word(column.name.as_str());
        out.word(" ");
        out.show(&column.kind);
        out.word("\n");
    }
    for name in asked {
        out.show(&columns.kind_of(name.as_str().unwrap_or("")));
        out.word("\n");
    }
}

fn add_columns_read(out: &mut Answer, columns: &Result<Columns, AllocError>, asked: &[Value]) {
    match columns {
        Ok(columns) => add_columns(out, columns, asked),
        Err(_) => out.fail(RowFault::NoMemory),
    }
}

fn columns(given: &Given, out: &mut Answer) {
    let asked = given.list("asked", out);
    let columns = columns_at(given, out);
    add_columns_read(out, &columns, asked);
}

fn add_truth(bound: &Result<BoundPred, AllocError>, file: &AddFile, out: &mut Answer) {
    match bound {
        Ok(bound) => {
            let truth = bound.eval(file);
            out.show(&truth);
            out.flag(", listed ", truth.is_listed());
        }
        Err(_) => out.fail(RowFault::NoMemory),
    }
}

// What the predicate says of a file.
fn add_weighed(
    pred: &Pred,
    columns: &Columns,
    action: &Result<Option<Action>, NoAction>,
    out: &mut Answer,
) {
    match action {
        Ok(Some(Action::Add(file))) => {
            let bound = bind(out.alloc(), pred, columns);
            add_truth(&bound, file, out);
        }
        _ => out.lacks("file"),
    }
}

// What it says of the file that a line adds.
fn weigh(given: &Given, pred: &Pred, columns: &Columns, out: &mut Answer) {
    let action = action_of_line(out.alloc(), &given.bytes("file", out));
    add_weighed(pred, columns, &action, out);
}

fn weigh_read(
    given: &Given,
    pred: &Result<Option<Pred>, AllocError>,
    columns: &Result<Columns, AllocError>,
    out: &mut Answer,
) {
    match (pred, columns) {
        (Ok(Some(pred)), Ok(columns)) => weigh(given, pred, columns, out),
        (Ok(None), _) => out.word("not read"),
        _ => out.fail(RowFault::NoMemory),
    }
}

fn predicate(given: &Given, out: &mut Answer) {
    let columns = columns_at(given, out);
    let pred = pred_of(out.alloc(), &given.text("text", out));
    weigh_read(given, &pred, &columns, out);
}

fn add_shown(shown: &Result<Shown, AllocError>, file: &AddFile, out: &mut Answer) {
    match shown {
        Ok(shown) => out.flag("", shown.shows(file)),
        Err(_) => out.fail(RowFault::NoMemory),
    }
}

fn add_shown_of(only: Option<&str>, meta: &MetaData, file: &AddFile, out: &mut Answer) {
    let shown = Shown::of(out.alloc(), only, meta);
    add_shown(&shown, file, out);
}

fn add_shown_read(
    only: Option<&str>,
    meta: &Result<Option<Action>, NoAction>,
    file: &Result<Option<Action>, NoAction>,
    out: &mut Answer,
) {
    match (meta, file) {
        (Ok(Some(Action::MetaData(meta))), Ok(Some(Action::Add(file)))) => {
            add_shown_of(only, meta, file, out);
        }
        _ => out.lacks("file"),
    }
}

// Whether the file that a line adds is shown of a table with the metaData of another, by a text or by none.
fn shown(given: &Given, out: &mut Answer) {
    let meta = action_of_line(out.alloc(), &given.bytes("meta", out));
    let file = action_of_line(out.alloc(), &given.bytes("file", out));
    let only = given.with.get("only").and_then(Value::as_str);
    add_shown_read(only, &meta, &file, out);
}

/// Answers a call, where it is one of these.
pub(crate) fn answer(call: &str, given: &Given, out: &mut Answer) -> bool {
    match call {
        "value" => value(given, out),
        "columns" => columns(given, out),
        "predicate" => predicate(given, out),
        "shown" => shown(given, out),
        _ => return false,
    }
    true
}
