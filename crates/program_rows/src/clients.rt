// Calls of a client, where the command tells less of what they answer.
use crate::lines::{compare_lines, link_of};
use delta_lines::{DeltaFile, FileAction, delta_meta_text, delta_protocol_text};
use edge_core::{Link, MemLink, MemSink};
use itoa::Buffer;
use json_tree::Text;
use row_files::{
    RowFault, RowFile, Told, list_at, number_at, push_words, sink_of, text_at, text_or_nothing,
};
use serde_json::Value;
use share_client::{Client, ClientFault, DeltaRead, QueryBody, Refusal, SharedTable, TableRead};
use share_config::profile_of;
use std::alloc::{AllocError, Global};

/// The client of the `profile` of a row.
pub(crate) fn client_of(file: &RowFile, row: &Value) -> Result<Client, RowFault> {
    let profile = text_at(file, row, "profile")?;
    match profile_of(file.alloc(), &profile) {
        Ok(profile) => Ok(Client::new(profile)),
        Err(_) => Err(RowFault::Unknown("the profile")),
    }
}

fn text_of(file: &RowFile, row: &Value, name: &'static str, told: &mut Told) -> Text {
    Text::of(told.characters(text_at(file, row, name)))
}

fn table_of(file: &RowFile, row: &Value, told: &mut Told) -> SharedTable {
    SharedTable {
        share: text_of(file, row, "share", told),
        schema: text_of(file, row, "schema", told),
        table: text_of(file, row, "table", told),
    }
}

fn refusal_word(refusal: Option<Refusal>) -> &'static str {
    match refusal {
        Some(refusal) => refusal.word(),
        None => "-",
    }
}

// Appends a word and a number.
fn push_count(text: &mut String, word: &str, count: u64) -> Result<(), AllocError> {
    text.push_str(word)?;
    text.push_str(Buffer::new().format(count))
}

fn push_refused(
    text: &mut String,
    status: u16,
    refusal: Option<Refusal>,
) -> Result<(), AllocError> {
    push_count(text, "refused ", u64::from(status))?;
    push_words(text, &[" ", refusal_word(refusal)])
}

fn push_sizes(text: &mut String, first: u64, other: u64) -> Result<(), AllocError> {
    push_count(text, "size changed ", first)?;
    push_count(text, " ", other)
}

fn push_fault(text: &mut String, fault: &ClientFault) -> Result<(), AllocError> {
    match fault {
        ClientFault::Refused { status, refusal } => push_refused(text, *status, *refusal),
        ClientFault::BadReply { at } => push_count(text, "bad reply at ", *at),
        ClientFault::PageChanged { first, other } => push_words(
            text,
            &["page changed\n", first.as_str(), "\n", other.as_str()],
        ),
        ClientFault::SizeChanged { first, other } => push_sizes(text, *first, *other),
        ClientFault::TooManyPages => text.push_str("too many pages"),
        ClientFault::BadUrl => text.push_str("bad url"),
        ClientFault::PeerFault => text.push_str("peer fault"),
        ClientFault::ReadFault => text.push_str("read fault"),
        ClientFault::WriteFault => text.push_str("write fault"),
        ClientFault::NoMemory => text.push_str("no memory"),
    }
}

// Appends how many bytes a file has.
fn push_size(text: &mut String, ended: &Result<u64, ClientFault>) -> Result<(), AllocError> {
    match ended {
        Ok(size) => {
            push_count(text, "", *size)?;
            text.push_str(" bytes")
        }
        Err(fault) => push_fault(text, fault),
    }
}

// Appends the version, and how many pages and files were read.
fn push_counts(
    text: &mut String,
    version: u64,
    pages: u64,
    files: usize,
) -> Result<(), AllocError> {
    push_count(text, "version ", version)?;
    push_count(text, " pages ", pages)?;
    push_count(text, " files ", files as u64)
}

fn push_read(text: &mut String, ended: &Result<TableRead, ClientFault>) -> Result<(), AllocError> {
    match ended {
        Ok(read) => push_counts(text, read.version, read.pages, read.files.len()),
        Err(fault) => push_fault(text, fault),
    }
}

// Appends a file's path in the log, its link, and its size where it came in.
fn push_file(text: &mut String, file: &DeltaFile) -> Result<(), AllocError> {
    push_words(text, &["\n", file.id.as_str(), " ", file.url.as_str()])?;
    match &file.action {
        FileAction::Add(add) => push_count(text, " ", add.size.get()),
        FileAction::Cdc(_) | FileAction::Remove(_) => Ok(()),
    }
}

// Appends the numbers of what was read, then its protocol, its metadata and its files, one a line.
fn push_delta(
    alloc: Global,
    text: &mut String,
    ended: &Result<DeltaRead, ClientFault>,
) -> Result<(), AllocError> {
    let read = match ended {
        Ok(read) => read,
        Err(fault) => return push_fault(text, fault),
    };
    push_counts(text, read.version, read.pages, read.files.len())?;
    let protocol = delta_protocol_text(alloc, &read.protocol)?;
    let meta = delta_meta_text(alloc, &read.meta)?;
    push_words(text, &["\n", protocol.as_str(), "\n", meta.as_str()])?;
    for file in &read.files {
        push_file(text, file)?;
    }
    Ok(())
}

fn push_queried<L: Link>(
    alloc: Global,
    call: &str,
    client: &Client,
    link: &mut L,
    table: &SharedTable,
    body: &QueryBody,
    text: &mut String,
) -> Result<(), AllocError> {
    if call == "delta" {
        push_delta(alloc, text, &client.read_delta(alloc, link, table, body))
    } else {
        push_read(text, &client.read_table(alloc, link, table, body))
    }
}

// Appends what a query of that body answers, in the format of the call.
fn push_query<L: Link>(
    alloc: Global,
    call: &str,
    client: &Client,
    link: &mut L,
    table: &SharedTable,
    body: &str,
    text: &mut String,
) -> Result<(), AllocError> {
    match QueryBody::of(alloc, body)? {
        Some(body) => push_queried(alloc, call, client, link, table, &body, text),
        None => text.push_str("no query"),
    }
}

fn push_fetched<L: Link>(
    alloc: Global,
    client: &Client,
    link: &mut L,
    url: &str,
    sink: &mut MemSink,
    text: &mut String,
) -> Result<(), AllocError> {
    push_size(text, &client.fetch_file(alloc, link, url, sink))
}

fn push_measured<L: Link>(
    alloc: Global,
    client: &Client,
    link: &mut L,
    url: &str,
    text: &mut String,
) -> Result<(), AllocError> {
    push_size(text, &client.file_size(alloc, link, url))
}

// Appends what a file in pieces of that size comes to.
fn push_pieces<L: Link>(
    alloc: Global,
    client: &Client,
    link: &mut L,
    url: &str,
    piece: u64,
    sink: &mut MemSink,
    text: &mut String,
) -> Result<(), RowFault> {
    if piece == 0 || piece > 134_217_728 {
        return Err(RowFault::Member("piece"));
    }
    let ended = client.fetch_pieces(alloc, link, url, piece, sink);
    Ok(push_size(text, &ended)?)
}

// Appends what a query of the row's table answers.
fn push_table<L: Link>(
    file: &RowFile,
    row: &Value,
    call: &str,
    client: &Client,
    link: &mut L,
    told: &mut Told,
    text: &mut String,
) {
    let body = told.characters(text_at(file, row, "body"));
    let table = table_of(file, row, told);
    let alloc = file.alloc();
    let read = push_query(alloc, call, client, link, &table, body.as_str(), text);
    told.stored(read);
}

// Appends what a call about that url answers.
fn push_about<L: Link>(
    alloc: Global,
    row: &Value,
    call: &str,
    client: &Client,
    link: &mut L,
    url: &str,
    sink: &mut MemSink,
    text: &mut String,
) -> Result<(), RowFault> {
    match call {
        "fetch" => Ok(push_fetched(alloc, client, link, url, sink, text)?),
        "size" => Ok(push_measured(alloc, client, link, url, text)?),
        "pieces" => {
            let piece = number_at(row, "piece")?.unwrap_or(0);
            push_pieces(alloc, client, link, url, piece, sink, text)
        }
        _ => Err(RowFault::Unknown("the call")),
    }
}

/// Compares the `answer` of a row with what the call answers.
pub(crate) fn compare_answer<L: Link>(
    file: &RowFile,
    row: &Value,
    call: &str,
    client: &Client,
    link: &mut L,
    sink: &mut MemSink,
    told: &mut Told,
) {
    let mut text = String::new(file.alloc());
    if call == "read" || call == "delta" {
        push_table(file, row, call, client, link, told, &mut text);
    } else {
        let url = told.characters(text_at(file, row, "url"));
        let url = url.as_str();
        let done = push_about(file.alloc(), row, call, client, link, url, sink, &mut text);
        told.end(done);
    }
    told.want(
        "answer",
        text_or_nothing(file, row, "answer"),
        text.as_bytes(),
    );
}

fn call_over(
    file: &RowFile,
    row: &Value,
    call: &str,
    client: &Client,
    link: &mut MemLink,
    told: &mut Told,
) -> Result<(), RowFault> {
    let mut sink = sink_of(file, row)?;
    compare_answer(file, row, call, client, link, &mut sink, told);
    told.want("out", text_or_nothing(file, row, "out"), sink.bytes());
    Ok(())
}

fn call_by(
    file: &RowFile,
    row: &Value,
    call: &str,
    client: &Client,
    told: &mut Told,
) -> Result<(), RowFault> {
    let lines = list_at(row, "lines")?;
    let mut link = link_of(file, lines)?;
    let called = call_over(file, row, call, client, &mut link, told);
    told.end(called);
    compare_lines(file, lines, link.closed(), told);
    Ok(())
}

/// A row of a client's `call`: the `profile`, the `url` and how many bytes a `piece` has, or the `share`, `schema`, `table` and `body`, and
/// the `lines` to peers; then its `answer`, and what is written `out`.
pub(crate) fn client_row(
    file: &RowFile,
    row: &Value,
    call: &str,
    told: &mut Told,
) -> Result<(), RowFault> {
    let client = client_of(file, row)?;
    call_by(file, row, call, &client, told)
}
