// The words of the command line.
ghost use Rattle.std.specs.Prelude.{◌≡◌, IfOk};
ghost use Rattle.share_commands.specs.Words.{begins_with_zero, changes_in, client_in, command_in, call_words_in, fetch_in, pieces_in, long_in, name_in, number_in, pair_in, query_in, read_in, rehearse_in, serve_in, single_in, tables_in, version_in};

use client_calls::{Call, PieceSize};
use edge_core::Name;
use json_tree::Text;
use query_command::location_of;
use share_catalog::Location;
use share_client::SharedTable;
use std::alloc::{AllocError, Global};
use text_forms::number_in;

/// What `--help` prints: each command with its input, its output, its statuses and an example.
pub const HELP: &str = "\
usage: share_main COMMAND

query LOCATION
    in: a query body or nothing; out: the protocol, metaData and file lines of the Delta table
    in the folder LOCATION; status 0, 2 to 6
    echo '{\"version\":1}' | share_main query orders
stdio
    in: the requests of one connection; out: the responses of the server that
    _share_log/config.json configures; status 0, 2, 3, 5, 6
    printf 'GET /delta-sharing/shares HTTP/1.1\\r\\nHost: localhost\\r\\n\\r\\n' | share_main stdio
serve PORT WORKERS
    serves the connections that come to 127.0.0.1:PORT, 1 to 65535, by so many workers, 1 to 64,
    until it is stopped; status 2, 3, 5, 6
    share_main serve 8080 8
rehearse NUMBER
    out: what a client and a server do together in memory, five lines; NUMBER, up to 4294967295,
    varies what is committed beside the reads; status 0, 2, 5, 6
    share_main rehearse 7
client tables PROFILE
    out: share, schema and name of each table that the server of the profile in the file PROFILE
    shares with the recipient; status 0, 2, 3, 5 to 7, as for the next three
    share_main client tables analyst.share
client read PROFILE SHARE SCHEMA TABLE
    in: a query body or nothing; out: the metaData line and the file lines of that table
    share_main client read analyst.share retail shop orders </dev/null
client changes PROFILE SHARE SCHEMA TABLE FROM TO
    out: the lines of its changes from a version to another
    share_main client changes analyst.share retail shop orders 0 2
client fetch PROFILE URL [PIECE]
    out: the bytes of the file of a link, which stands in a file line as its url; of more than
    256 MiB by ranges of PIECE bytes, 1 to 134217728
    URL=$(share_main client read analyst.share retail shop orders </dev/null | grep -om1 'http[^\"]*')
    share_main client fetch analyst.share \"$URL\" >part.parquet
--help
    out: this text; status 0, 5, 6
--version
    out: the program, and the kit that proved it; status 0, 5, 6

Status 2: wrong words. 3: no query body, no such version, no message of HTTP, no configuration,
no record of the catalogue, no profile, or no url. 4: the table isn't read. 5: a fault of input,
output, store, port or peer. 6: want of memory. 7: the peer refused, or its answer isn't taken.
Each but 0 tells why on standard error.
";

/// What `--version` prints.
pub const VERSION: &str = "share 0.1.0, proved with rattle-kit-13f logic dac8208d650f15bf\n";

// The greatest port.
const MOST_PORT: u64 = 65_535;

/// The most workers of a server.
pub const MOST_WORKERS: u64 = 64;

// The greatest version.
const MOST_VERSION: u64 = (1 << 63) - 1;

// The greatest number of a rehearsal.
const MOST_REHEARSAL: u64 = (1 << 32) - 1;

/// The call that the words of `client` name.
#[derive(Drop)]
pub(crate) enum CallWords {
    /// `read`: the files of a table, by the query of the input.
    Read(SharedTable),
    /// Any other call, which the words name whole: `tables`; `changes`, from a version to another, both below 2^63; `fetch`, and with a
    /// number in pieces of so many bytes.
    Whole(Call),
}

/// A command, with what its words name.
#[derive(Drop)]
pub(crate) enum Command {
    /// `--help`: print the usage.
    Help,
    /// `--version`: print the version.
    Version,
    /// `query LOCATION`: print the lines of the table there.
    Query(Location),
    /// `stdio`: serve one connection over the input and the output.
    Stdio,
    /// `serve PORT WORKERS`: serve the connections that come to the port, by so many workers, 1 to 64.
    Serve {
        port: u16,
        workers: u32,
    },
    /// `rehearse NUMBER`: have a client and a server rehearse in memory.
    Rehearse(u32),
    /// `client CALL PROFILE ..`: ask the server of the profile of that name.
    Client {
        profile: Name,
        call_words: CallWords,
    },
}

fn name_of(alloc: Global, text: &str) -> Result<Option<Name>, AllocError>
    ensures { IfOk result (λ name. name ≡ name_in text.now) }
{
    Ok(Name::of(String::from_str(alloc, text)?))
}

fn text_of(alloc: Global, text: &str) -> Result<Text, AllocError>
    ensures { IfOk result (λ t. t ≡ text.now) }
{
    Ok(Text::of(String::from_str(alloc, text)?))
}

fn single_of(word: &str) -> Option<Command>
    ensures { result ≡ single_in word.now }
{
    match word {
        "stdio" => Some(Command::Stdio),
        "--help" => Some(Command::Help),
        "--version" => Some(Command::Version),
        _ => None,
    }
}

fn query_of(alloc: Global, location: &str) -> Result<Option<Command>, AllocError>
    ensures { IfOk result (λ command. command ≡ query_in location.now) }
{
    match location_of(alloc, location)? {
        Some(location) => Ok(Some(Command::Query(location))),
        None => Ok(None),
    }
}

// Whether a zero stands before another byte.
fn begins_with_zero(word: &str) -> bool
    ensures { result ≡ begins_with_zero word.now }
{
    match word.as_bytes() {
        [first, _, ..] => *first == b'0',
        _ => false,
    }
}

// The number from `low` to `high`, both included, that a word writes in decimal, without a zero before it.
fn number_of(low: u64, high: u64, word: &str) -> Option<u64>
    ensures { result ≡ number_in low high word.now }
{
    if begins_with_zero(word) {
        None
    } else {
        number_in(low, high, word.as_bytes())
    }
}

fn serve_of(word: &str, port: &str, workers: &str) -> Option<Command>
    ensures { result ≡ serve_in word.now port.now workers.now }
{
    if word != "serve" {
        return None;
    }
    let port = number_of(1, MOST_PORT, port)?;
    let workers = number_of(1, MOST_WORKERS, workers)?;
    Some(Command::Serve {
        port: port as u16,
        workers: workers as u32,
    })
}

// The version that a word writes.
fn version_of(word: &str) -> Option<u64>
    ensures { result ≡ version_in word.now }
{
    number_of(0, MOST_VERSION, word)
}

fn rehearse_of(number: &str) -> Option<Command>
    ensures { result ≡ rehearse_in number.now }
{
    let number = number_of(0, MOST_REHEARSAL, number)?;
    Some(Command::Rehearse(number as u32))
}

// The command of two words.
fn pair_of(alloc: Global, word: &str, second: &str) -> Result<Option<Command>, AllocError>
    ensures { IfOk result (λ command. command ≡ pair_in word.now second.now) }
{
    match word {
        "query" => query_of(alloc, second),
        "rehearse" => Ok(rehearse_of(second)),
        _ => Ok(None),
    }
}

fn table_of(
    alloc: Global,
    share: &str,
    schema: &str,
    table: &str,
) -> Result<SharedTable, AllocError>
    ensures { IfOk result (λ t. t ≡ record { share = share.now; schema = schema.now; table = table.now }) }
{
    Ok(SharedTable {
        share: text_of(alloc, share)?,
        schema: text_of(alloc, schema)?,
        table: text_of(alloc, table)?,
    })
}

fn tables_of(call: &str) -> Option<CallWords>
    ensures { result ≡ tables_in call.now }
{
    if call == "tables" {
        Some(CallWords::Whole(Call::Tables))
    } else {
        None
    }
}

fn fetch_of(alloc: Global, call: &str, url: &str) -> Result<Option<CallWords>, AllocError>
    ensures { IfOk result (λ e. e ≡ fetch_in call.now url.now) }
{
    if call != "fetch" {
        return Ok(None);
    }
    let url = text_of(alloc, url)?;
    Ok(Some(CallWords::Whole(Call::Fetch(url))))
}

// How many bytes a piece has, by a word.
fn piece_of(word: &str) -> Option<PieceSize>
    ensures { result ≡ number_in 1 134_217_728 word.now }
{
    match number_of(1, PieceSize::MOST, word) {
        Some(bytes) => PieceSize::of(bytes),
        None => None,
    }
}

fn pieces_of(
    alloc: Global,
    call: &str,
    url: &str,
    piece: &str,
) -> Result<Option<CallWords>, AllocError>
    ensures { IfOk result (λ e. e ≡ pieces_in call.now url.now piece.now) }
{
    if call != "fetch" {
        return Ok(None);
    }
    match piece_of(piece) {
        Some(piece) => {
            let url = text_of(alloc, url)?;
            Ok(Some(CallWords::Whole(Call::FetchPieces { url, piece })))
        }
        None => Ok(None),
    }
}

fn read_of(
    alloc: Global,
    call: &str,
    share: &str,
    schema: &str,
    table: &str,
) -> Result<Option<CallWords>, AllocError>
    ensures { IfOk result (λ e. e ≡ read_in call.now share.now schema.now table.now) }
{
    if call != "read" {
        return Ok(None);
    }
    Ok(Some(CallWords::Read(table_of(alloc, share, schema, table)?)))
}

fn changes_of(call: &str, table: SharedTable, from: &str, to: &str) -> Option<CallWords>
    ensures { result ≡ changes_in call.now table from.now to.now }
{
    if call != "changes" {
        return None;
    }
    let from = version_of(from)?;
    let to = version_of(to)?;
    Some(CallWords::Whole(Call::Changes { table, from, to }))
}

// What the words of a client name behind the profile.
fn call_words_of(
    alloc: Global,
    call: &str,
    words: &[String],
) -> Result<Option<CallWords>, AllocError>
    ensures { IfOk result (λ e. e ≡ call_words_in call.now words.now) }
{
    match words {
        [] => Ok(tables_of(call)),
        [url] => fetch_of(alloc, call, url.as_str()),
        [url, piece] => pieces_of(alloc, call, url.as_str(), piece.as_str()),
        [share, schema, table] => read_of(
            alloc,
            call,
            share.as_str(),
            schema.as_str(),
            table.as_str(),
        ),
        [share, schema, table, from, to] => {
            let table = table_of(alloc, share.as_str(), schema.as_str(), table.as_str())?;
            Ok(changes_of(call, table, from.as_str(), to.as_str()))
        }
        _ => Ok(None),
    }
}

fn client_of(
    alloc: Global,
    call: &str,
    profile: &str,
    words: &[String],
) -> Result<Option<Command>, AllocError>
    ensures { IfOk result (λ command. command ≡ client_in call.now profile.now words.now) }
{
    let Some(profile) = name_of(alloc, profile)? else {
        return Ok(None);
    };
    match call_words_of(alloc, call, words)? {
        Some(call_words) => Ok(Some(Command::Client {
            profile,
            call_words,
        })),
        None => Ok(None),
    }
}

// The command of three words and more.
fn long_of(
    alloc: Global,
    word: &str,
    second: &str,
    third: &str,
    more: &[String],
) -> Result<Option<Command>, AllocError>
    ensures { IfOk result (λ command. command ≡ long_in word.now second.now third.now more.now) }
{
    if word == "client" {
        return client_of(alloc, second, third, more);
    }
    match more {
        [] => Ok(serve_of(word, second, third)),
        _ => Ok(None),
    }
}

/// The command of the words, none where they are no row of the table of words.
pub(crate) fn command_of(alloc: Global, words: &[String]) -> Result<Option<Command>, AllocError>
    ensures { IfOk result (λ command. command ≡ command_in words.now) }
{
    match words {
        [word] => Ok(single_of(word.as_str())),
        [word, second] => pair_of(alloc, word.as_str(), second.as_str()),
        [word, second, third, more @ ..] => long_of(
            alloc,
            word.as_str(),
            second.as_str(),
            third.as_str(),
            more,
        ),
        _ => Ok(None),
    }
}
