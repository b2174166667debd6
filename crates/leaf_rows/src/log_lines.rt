// Lines of a log that are read as actions and commits, and printed; the names of commits and of files.
use crate::answer::Answer;
use crate::given::Given;
use edge_core::Name;
use json_tree::{Edition, Millis, Pairs, Place, Text, Texts, Version};
use log_actions::{
    Action, Actions, AddFile, CdcFile, Commit, FileSize, MetaData, NoAction, Protocol,
    ProtocolVersion, RemoveFile, action_of_line, is_good_path, line_len, line_of_action, path_name,
    text_len,
};
use log_commit::{NoCommit, bytes_of, commit_from, commit_of, name_of, version_of};
use row_files::RowFault;
use std::alloc::AllocError;

fn add_texts(out: &mut Answer, of: &str, texts: &Option<Texts>) {
    out.word(of);
    match texts {
        Some(texts) => add_words(out, texts),
        None => out.word(" none"),
    }
}

fn add_words(out: &mut Answer, texts: &Texts) {
    for text in texts.items() {
        out.word(" ");
        out.word(text.as_str());
    }
}

fn add_pairs(out: &mut Answer, of: &str, pairs: &Pairs) {
    out.word(of);
    for pair in pairs.items() {
        out.word(" ");
        out.word(pair.name.as_str());
        out.word("=");
        out.word(or_none(&pair.value));
    }
}

fn add_pairs_or_none(out: &mut Answer, of: &str, pairs: &Option<Pairs>) {
    match pairs {
        Some(pairs) => add_pairs(out, of, pairs),
        None => {
            out.word(of);
            out.word(" none");
        }
    }
}

fn or_none(text: &Option<Text>) -> &str {
    match text {
        Some(text) => text.as_str(),
        None => "none",
    }
}

fn add_protocol(out: &mut Answer, protocol: &Protocol) {
    out.number("protocol: reader ", u64::from(protocol.min_reader.get()));
    out.number(", writer ", u64::from(protocol.min_writer.get()));
    add_texts(out, ", reader features", &protocol.reader_features);
    add_texts(out, ", writer features", &protocol.writer_features);
}

fn add_meta(out: &mut Answer, meta: &MetaData) {
    out.word("metaData: id ");
    out.word(meta.id.as_str());
    out.word(", name ");
    out.word(or_none(&meta.name));
    out.word(", schema ");
    out.word(meta.schema.as_str());
    out.word(", created ");
    out.show(&meta.created);
    out.word(", description ");
    out.word(or_none(&meta.description));
    out.word(", format ");
    out.word(meta.format.provider.as_str());
    add_pairs(out, ", options", &meta.format.options);
    out.word(", columns");
    add_words(out, &meta.columns);
    add_pairs(out, ", configuration", &meta.configuration);
}

fn add_file(out: &mut Answer, file: &AddFile) {
    out.word("add: path ");
    out.word(file.path.as_str());
    out.number(", size ", file.size.get());
    out.whole(", modified ", file.modified);
    out.flag(", data change ", file.data_change);
    out.flag(", vector ", file.vector);
    out.word(", stats ");
    out.word(or_none(&file.stats));
    add_pairs(out, ", values", &file.values);
    add_pairs_or_none(out, ", tags", &file.tags);
}

fn add_remove(out: &mut Answer, file: &RemoveFile) {
    out.word("remove: path ");
    out.word(file.path.as_str());
    out.word(", size ");
    out.show(&file.size);
    out.word(", deleted ");
    out.show(&file.deleted);
    out.flag(", data change ", file.data_change);
    out.flag(", vector ", file.vector);
    add_pairs_or_none(out, ", values", &file.values);
}

fn add_cdc(out: &mut Answer, file: &CdcFile) {
    out.word("cdc: path ");
    out.word(file.path.as_str());
    out.number(", size ", file.size.get());
    add_pairs(out, ", values", &file.values);
}

fn add_action(out: &mut Answer, action: &Action) {
    match action {
        Action::Protocol(protocol) => add_protocol(out, protocol),
        Action::MetaData(meta) => add_meta(out, meta),
        Action::Add(file) => add_file(out, file),
        Action::Remove(file) => add_remove(out, file),
        Action::Cdc(file) => add_cdc(out, file),
        Action::Txn(txn) => {
            out.word("txn: app ");
            out.word(txn.app.as_str());
            out.whole(", version ", txn.version);
            out.word(", updated ");
            out.show(&txn.updated);
        }
        Action::CommitInfo(info) => {
            out.word("commitInfo: ");
            out.show(&info.timestamp);
        }
    }
}

fn add_copied(out: &mut Answer, copy: &Result<Action, AllocError>) {
    match copy {
        Ok(copy) => add_action(out, copy),
        Err(_) => out.fail(RowFault::NoMemory),
    }
}

// The fields of a copy of the action.
fn add_copy(out: &mut Answer, action: &Action) {
    let copy = action.copy(out.alloc());
    add_copied(out, &copy);
}

// How the action is printed, and the length that is told of it.
fn add_printed(out: &mut Answer, action: &Action) {
    match &line_of_action(out.alloc(), action) {
        Ok(line) => out.word(line.as_str()),
        Err(_) => out.fail(RowFault::NoMemory),
    }
    out.number("\n", line_len(action));
}

fn add_read(out: &mut Answer, read: &Result<Option<Action>, NoAction>, printed: bool) {
    match read {
        Ok(Some(action)) if printed => add_printed(out, action),
        Ok(Some(action)) => add_copy(out, action),
        Ok(None) => out.word("none"),
        Err(told) => out.show(told),
    }
}

fn action(given: &Given, out: &mut Answer) {
    let printed = given.flag("printed", out);
    let action = action_of_line(out.alloc(), &given.bytes("line", out));
    add_read(out, &action, printed);
}

// How the commit is printed, behind the length that is told of it.
fn add_commit(out: &mut Answer, commit: &Commit) {
    out.number("", text_len(commit));
    out.word(" bytes\n");
    match &bytes_of(out.alloc(), commit) {
        Ok(bytes) => out.bytes(bytes),
        Err(_) => out.fail(RowFault::NoMemory),
    }
}

// How many actions a commit has, or how it is printed.
fn add_read_commit(out: &mut Answer, read: &Result<Commit, NoCommit>, printed: bool) {
    match read {
        Ok(commit) if printed => add_commit(out, commit),
        Ok(commit) => {
            out.number("", commit.actions().len() as u64);
            out.word(" actions");
        }
        Err(told) => out.show(told),
    }
}

fn commit(given: &Given, out: &mut Answer) {
    let printed = given.flag("printed", out);
    let text = given.bytes("text", out);
    add_read_commit(out, &commit_of(out.alloc(), &text), printed);
}

// Adds the action of a line to others.
fn push_action(actions: &mut Vec<Action>, line: &[u8], out: &mut Answer) {
    if let Ok(Some(action)) = action_of_line(out.alloc(), line) {
        if actions.push(action).is_err() {
            out.fail(RowFault::NoMemory);
        }
    } else {
        out.lacks("lines");
    }
}

fn commit_of_actions(given: &Given, out: &mut Answer) {
    let mut actions = Vec::new(out.alloc());
    for line in given.list("lines", out) {
        let line = out.made(given.file.text(line));
        push_action(&mut actions, &line, out);
    }
    add_read_commit(out, &commit_from(out.alloc(), Actions::of(actions)), false);
}

fn add_name(out: &mut Answer, name: &Result<Option<Name>, AllocError>) {
    match name {
        Ok(Some(name)) => out.word(name.as_str()),
        Ok(None) => out.word("none"),
        Err(_) => out.fail(RowFault::NoMemory),
    }
}

fn commit_name(given: &Given, out: &mut Answer) {
    let version = given.number("version", out);
    match &given.object_name("below", out) {
        Some(location) if version < 1 << 63 => {
            add_name(out, &name_of(out.alloc(), location, version));
        }
        _ => out.lacks("version"),
    }
}

fn file_name(given: &Given, out: &mut Answer) {
    let path = given.json_text("path", out);
    if let Some(location) = &given.object_name("below", out) {
        add_name(out, &path_name(out.alloc(), location, &path));
    }
}

fn good_path(given: &Given, out: &mut Answer) {
    match is_good_path(out.alloc(), &given.json_text("path", out)) {
        Ok(is_good) => out.flag("", is_good),
        Err(_) => out.fail(RowFault::NoMemory),
    }
}

// What a number is as one of a kind that has a bound.
fn add_number(out: &mut Answer, kind: &str, number: u64) {
    match kind {
        "Millis" => out.show(&Millis::of(number)),
        "Version" => out.show(&Version::of(number)),
        "Edition" => out.show(&Edition::of(number)),
        "Place" => out.show(&Place::of(number)),
        "FileSize" => out.show(&FileSize::of(number)),
        "ProtocolVersion" => match u32::try_from(number) {
            Ok(number) => out.show(&ProtocolVersion::of(number)),
            Err(_) => out.word("no u32"),
        },
        _ => out.show(&Edition::never().next()),
    }
}

fn number(given: &Given, out: &mut Answer) {
    let number = given.number("of", out);
    let kind = given.word("as", out);
    add_number(out, kind, number);
}

/// Answers a call, where it is one of these.
pub(crate) fn answer(call: &str, given: &Given, out: &mut Answer) -> bool {
    match call {
        "action" => action(given, out),
        "commit" => commit(given, out),
        "commit of actions" => commit_of_actions(given, out),
        "commit name" => commit_name(given, out),
        "version of" => {
            let version = version_of(given.text("segment", out).as_str());
            out.show(&version);
        }
        "path name" => file_name(given, out),
        "good path" => good_path(given, out),
        "small_number" => number(given, out),
        _ => return false,
    }
    true
}
