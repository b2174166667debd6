// The catalogue and the records of its log.
use crate::answer::Answer;
use crate::given::Given;
use catalog_log::{RecordFault, bytes_of_edit, edit_at, edit_of, record_name};
use json_tree::tree_of;
use row_files::RowFault;
use serde_json::Value;
use share_catalog::{Bound, Catalog, Credential, Edit, EditRefusal, Granted, TableName};
use std::alloc::{AllocError, Global};

/// Adds the record of an edit.
pub(crate) fn add_edit(edit: &Edit, out: &mut Answer) {
    match &bytes_of_edit(out.alloc(), edit) {
        Ok(bytes) => out.bytes(bytes),
        Err(_) => out.fail(RowFault::NoMemory),
    }
}

fn add_record(edit: &Result<Edit, RecordFault>, out: &mut Answer) {
    match edit {
        Ok(edit) => add_edit(edit, out),
        Err(fault) => out.show(fault),
    }
}

// The record of an edit that is read of a record, or the fault. An edit is much to drop, so it is lent here and below.
fn record(given: &Given, out: &mut Answer) {
    let edit = edit_of(out.alloc(), &given.bytes("record", out));
    add_record(&edit, out);
}

// The edit that an object is.
fn edit_in(alloc: Global, text: &[u8]) -> Option<Edit> {
    match &tree_of(alloc, text) {
        Ok(object) => edit_at(alloc, object).ok(),
        Err(_) => None,
    }
}

fn add_read(edit: &Option<Edit>, out: &mut Answer) {
    match edit {
        Some(edit) => add_edit(edit, out),
        None => out.lacks("edit"),
    }
}

// The record of the edit that an object is.
fn edit(given: &Given, out: &mut Answer) {
    let edit = edit_in(out.alloc(), &given.bytes("edit", out));
    add_read(&edit, out);
}

fn named(given: &Given, out: &mut Answer) {
    match &record_name(out.alloc(), given.number("number", out)) {
        Ok(name) => out.word(name.as_str()),
        Err(_) => out.fail(RowFault::NoMemory),
    }
}

type Made = Result<(), EditRefusal>;

fn admitted(catalog: &Catalog, edit: &Result<Edit, AllocError>) -> Option<Made> {
    match edit {
        Ok(edit) => Some(catalog.admits(edit)),
        Err(_) => None,
    }
}

// What is told of an edit's copy.
fn told_of_copy(catalog: &Catalog, alloc: Global, edit: &Edit) -> Option<Made> {
    let copy = edit.copy(alloc);
    admitted(catalog, &copy)
}

fn told_of_read(catalog: &Catalog, alloc: Global, edit: &Option<Edit>) -> Option<Made> {
    match edit {
        Some(edit) => told_of_copy(catalog, alloc, edit),
        None => None,
    }
}

fn told_of(catalog: &Catalog, alloc: Global, text: &[u8]) -> Option<Made> {
    let edit = edit_in(alloc, text);
    told_of_read(catalog, alloc, &edit)
}

// Takes memory for an edit, and makes it.
fn apply(catalog: &mut Catalog, alloc: Global, text: &[u8]) -> Option<Made> {
    if catalog.reserve(alloc).is_err() {
        return None;
    }
    match edit_in(alloc, text) {
        Some(edit) => Some(catalog.apply(edit)),
        None => None,
    }
}

// Makes an edit, and tells of it where it isn't accepted, or another answer was told before.
fn make(catalog: &mut Catalog, number: u64, text: &[u8], out: &mut Answer) {
    let told = told_of(catalog, out.alloc(), text);
    let made = apply(catalog, out.alloc(), text);
    let (Some(told), Some(made)) = (told, made) else {
        out.lacks("edits");
        return;
    };
    if made.is_ok() && told.is_ok() {
        return;
    }
    out.number("", number);
    out.word(": ");
    out.show(&made);
    if told != made {
        out.word(", told ");
        out.show(&told);
    }
    out.word("\n");
}

// The parts, joined by a number.
fn numbered_text(given: &Given, parts: &[Value], number: u64, out: &mut Answer) -> Vec<u8> {
    let mut text = Answer::new(out.alloc());
    for (place, part) in parts.iter().enumerate() {
        if place > 0 {
            text.number("", number);
        }
        text.bytes(&out.made(given.file.text(part)));
    }
    out.made(text.end())
}

// Makes the edits whose texts have the numbers from one up to another.
fn make_numbered(given: &Given, catalog: &mut Catalog, out: &mut Answer) {
    let parts = given.list("numbered", out);
    for number in given.number("from", out)..given.number("to", out) {
        let text = numbered_text(given, parts, number, out);
        make(catalog, number, &text, out);
    }
}

// Makes the edits of a row: each is the TEXT of an object, or those of `numbered` texts.
fn make_all(given: &Given, catalog: &mut Catalog, out: &mut Answer) {
    let mut number = 0u64;
    for step in given.list("edits", out) {
        if step.get("numbered").is_some() {
            make_numbered(&given.of(step), catalog, out);
        } else {
            let text = out.made(given.file.text(step));
            make(catalog, number, &text, out);
        }
        number = number.saturating_add(1);
    }
}

fn add_credential(credential: &Option<Credential>, out: &mut Answer) {
    match credential {
        Some(credential) => {
            out.digits(credential.digest.as_slice());
            if let Some(end) = credential.expires {
                out.number(" until ", end.get());
            }
        }
        None => out.word("none"),
    }
}

// Who has the digest of 32 such bytes.
fn add_holder(catalog: &Catalog, byte: &str, out: &mut Answer) {
    match byte.parse::<u8>() {
        Ok(byte) => match catalog.holder(&[byte; 32]) {
            Some(name) => out.word(name.as_str()),
            None => out.word("none"),
        },
        Err(_) => out.fail(RowFault::Unknown("the byte")),
    }
}

// How often the pair was granted, where it is granted.
fn add_grant(catalog: &Catalog, recipient: &str, share: &str, out: &mut Answer) {
    if catalog.is_granted(recipient, share) {
        out.number("", catalog.grant_edition(recipient, share).get());
    } else {
        out.word("none");
    }
}

// Where the table is bound, and how often it was.
fn add_binding(catalog: &Catalog, table: &TableName, out: &mut Answer) {
    match catalog.binding(table) {
        Some(binding) => {
            out.word(binding.location.as_str());
            out.number(" ", catalog.binding_edition(table).get());
        }
        None => out.word("none"),
    }
}

fn copied(word: &str, out: &mut Answer) -> String {
    match String::from_str(out.alloc(), word) {
        Ok(text) => text,
        Err(_) => {
            out.fail(RowFault::NoMemory);
            String::new(out.alloc())
        }
    }
}

fn add_bound_at(catalog: &Catalog, table: &Option<TableName>, out: &mut Answer) {
    match table {
        Some(table) => add_binding(catalog, table, out),
        None => out.fail(RowFault::Unknown("the table")),
    }
}

fn add_bound(catalog: &Catalog, share: &str, schema: &str, table: &str, out: &mut Answer) {
    let (share, schema) = (copied(share, out), copied(schema, out));
    let table = TableName::of(share, schema, copied(table, out));
    add_bound_at(catalog, &table, out);
}

// How many tables there are, and the first and the last.
fn add_tables(tables: &[Bound], out: &mut Answer) {
    match (tables.first(), tables.last()) {
        (Some(first), Some(last)) => {
            out.number("", tables.len() as u64);
            out.words(" from ", first.table.table.as_str());
            out.words(" to ", last.table.table.as_str());
        }
        _ => out.word("none"),
    }
}

// How many shares there are, and the last with its edition.
fn add_shares(grants: &[Granted], out: &mut Answer) {
    match grants.last() {
        Some(last) => {
            out.number("", grants.len() as u64);
            out.words(" up to ", last.share.as_str());
            out.number(" ", last.edition.get());
        }
        None => out.word("none"),
    }
}

// What the catalogue has of a share, of a recipient or of both.
fn add_answer(catalog: &Catalog, words: &[&str], out: &mut Answer) {
    match words {
        ["count"] => out.number("", catalog.count()),
        ["share", share] => out.flag("", catalog.has_share(share)),
        ["recipient", recipient] => out.flag("", catalog.has_recipient(recipient)),
        ["credential", recipient] => add_credential(&catalog.credential(recipient), out),
        ["holder", byte] => add_holder(catalog, byte, out),
        ["granted", recipient, share] => add_grant(catalog, recipient, share, out),
        ["bound", share, schema, table] => add_bound(catalog, share, schema, table, out),
        ["tables", share] => match &catalog.bindings_of(out.alloc(), share) {
            Ok(tables) => add_tables(tables, out),
            Err(_) => out.fail(RowFault::NoMemory),
        },
        ["shares", recipient] => match &catalog.grants_of(out.alloc(), recipient) {
            Ok(grants) => add_shares(grants, out),
            Err(_) => out.fail(RowFault::NoMemory),
        },
        _ => out.fail(RowFault::Unknown("the question")),
    }
}

// Adds a question and what is answered.
fn answer_to(catalog: &Catalog, question: &str, out: &mut Answer) {
    out.words(question, ": ");
    match question.split(' ').collect::<Vec<&str>>(out.alloc()) {
        Ok(words) => add_answer(catalog, &words, out),
        Err(_) => out.fail(RowFault::NoMemory),
    }
    out.word("\n");
}

// What is told of the edits that aren't accepted, each behind its place or its number, and the answers to the questions.
fn catalog(given: &Given, out: &mut Answer) {
    let mut catalog = Catalog::new(out.alloc());
    make_all(given, &mut catalog, out);
    for question in given.list("asks", out) {
        answer_to(&catalog, given.text_of(question, out).as_str(), out);
    }
}

/// Answers a call, where it is one of these.
pub(crate) fn answer(call: &str, given: &Given, out: &mut Answer) -> bool {
    match call {
        "record" => record(given, out),
        "edit" => edit(given, out),
        "record_name" => named(given, out),
        "catalog" => catalog(given, out),
        _ => return false,
    }
    true
}
