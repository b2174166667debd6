// A file in pieces, by its link.
ghost use Rattle.std.specs.Prelude.{◌≡◌, ◌≤◌, ◌<◌, ◌*◌, ℕ, IfOk, MatchResult, Ok, Err, if◌then◌else◌, Some, None, nat_lt, string_bytes};
ghost use Rattle.share_client.specs.declared.fault.ClientFault.TheVariants as fault;
ghost use Rattle.share_client.specs.Files.{FetchCause};
ghost use Rattle.share_client.specs.Pieces.{Delivers, FetchesPieces, PiecesFrom, Takes, TakesOfAll, TakesPart, piece_range, piece_text};
ghost use Rattle.share_client.specs.Sides.{counts, Known, Later};

use crate::ClientFault;
use crate::ask::{Wanted, ask};
use crate::exchange::{Response, send};
use crate::fetch::path_with_query;
use crate::request::part_text;
use crate::size::size_from;
use crate::target::Target;
use edge_core::{Link, Sink};
use file_ranges::content_range::range_read;
use file_ranges::part::ByteRange;
use http_message::field::first_named;
use std::alloc::{AllocError, Global};

// The most pieces of a file.
const MOST_PIECES: u64 = 100_000;

// The request for a range of a link's file. It has no token of who asks.
fn piece_text(alloc: Global, target: &Target, range: ByteRange) -> Result<String, AllocError>
    ensures { IfOk result (λ t. string_bytes t ≡ piece_text target.now range) }
{
    let path = path_with_query(alloc, target)?;
    part_text(alloc, &path, target.host_field.as_str(), range)
}

// ---- what is taken of a response

// The bytes of a part, where it is the one that was asked for.
fn taken_of_part(response: &Response, range: ByteRange) -> Result<&[u8], ClientFault>
    ensures { MatchResult result (λ bytes. TakesPart range response.now (Ok bytes.now)) (λ e. TakesPart range response.now (Err e)) }
{
    let bad = ClientFault::BadReply { at: 0 };
    let Some(named) = range_read(first_named(&response.fields, "content-range")) else {
        return Err(bad);
    };
    if named.size() != range.size() {
        return Err(ClientFault::SizeChanged {
            first: range.size(),
            other: named.size(),
        });
    }
    let body = response.body.as_slice();
    let is_long = body.len() as u64 == range.len();
    if named.first() != range.first() || named.last() != range.last() || !is_long {
        return Err(bad);
    }
    Ok(body)
}

// The bytes that were asked for, of all of a file, where it has the size that was told.
fn taken_of_all(response: &Response, range: ByteRange) -> Result<&[u8], ClientFault>
    ensures { MatchResult result (λ bytes. TakesOfAll range response.now (Ok bytes.now)) (λ e. TakesOfAll range response.now (Err e)) }
{
    let body = response.body.as_slice();
    let other = body.len() as u64;
    if other != range.size() {
        return Err(ClientFault::SizeChanged {
            first: range.size(),
            other,
        });
    }
    Ok(&body[range.first() as usize..range.last() as usize + 1])
}

// The bytes that were asked for.
fn taken_of(response: &Response, range: ByteRange) -> Result<&[u8], ClientFault>
    ensures { MatchResult result (λ bytes. Takes range response.now (Ok bytes.now)) (λ e. Takes range response.now (Err e)) }
{
    if response.status == 206 {
        taken_of_part(response, range)
    } else {
        taken_of_all(response, range)
    }
}

// ---- pieces

// Asks for a range, and writes it to the sink.
fn fetch_piece<L: Link, K: Sink>(
    alloc: Global,
    link: &mut L,
    target: &Target,
    range: ByteRange,
    sink: &mut K,
) -> Result<(), ClientFault>
    ensures later { Later (counts L.faults L.read_faults L.write_faults link.old) (counts L.faults L.read_faults L.write_faults link.new) }
    ensures sink_later { K.faults sink.old ≤ K.faults sink.new }
    ensures cause { FetchCause result (counts L.faults L.read_faults L.write_faults link.old) (counts L.faults L.read_faults L.write_faults link.new) (K.faults sink.old) (K.faults sink.new) }
    ensures url { ¬ (result ≡ Err fault.BadUrl) }
    ensures told { Known L.coming L.closed link.old link.new (Delivers target.now range (K.holds sink.old) (K.holds sink.new) result) }
{
    let text = match piece_text(alloc, target, range) {
        Ok(text) => text,
        Err(_) => return Err(ClientFault::NoMemory),
    };
    match ask(alloc, link, target, text.as_str(), Wanted::Part) {
        Ok(response) => match taken_of(&response, range) {
            Ok(bytes) => send(sink, bytes),
            Err(fault) => Err(fault),
        },
        Err(fault) => Err(fault),
    }
}

// The range from a place on, of so many bytes as a piece has, or of those that are left; none where none are.
fn range_from(at: u64, piece: u64, size: u64) -> Option<ByteRange>
    requires { (0 < piece) × (piece ≤ 134_217_728) }
    ensures { (k : ℕ) → at ≡ k * piece → result ≡ (if nat_lt at size then Some (piece_range piece size k) else None) }
{
    if at >= size {
        return None;
    }
    let last = if size - at > piece {
        at + piece - 1
    } else {
        size - 1
    };
    ByteRange::of(at, last, size)
}

// Fetches the pieces of a file of that size, in order.
fn fetch_each<L: Link, K: Sink>(
    alloc: Global,
    link: &mut L,
    target: &Target,
    size: u64,
    piece: u64,
    sink: &mut K,
) -> Result<(), ClientFault>
    requires { (0 < piece) × (piece ≤ 134_217_728) }
    ensures later { Later (counts L.faults L.read_faults L.write_faults link.old) (counts L.faults L.read_faults L.write_faults link.new) }
    ensures sink_later { K.faults sink.old ≤ K.faults sink.new }
    ensures cause { FetchCause result (counts L.faults L.read_faults L.write_faults link.old) (counts L.faults L.read_faults L.write_faults link.new) (K.faults sink.old) (K.faults sink.new) }
    ensures url { ¬ (result ≡ Err fault.BadUrl) }
    ensures told { Known L.coming L.closed link.old link.new (FetchesPieces target.now piece size (K.holds sink.old) (K.holds sink.new) result) }
{
    for number in 0..MOST_PIECES {
        let Some(range) = range_from(number * piece, piece, size) else {
            return Ok(());
        };
        match fetch_piece(alloc, link, target, range, sink) {
            Ok(()) => {}
            Err(fault) => return Err(fault),
        }
    }
    if MOST_PIECES * piece >= size {
        return Ok(());
    }
    Err(ClientFault::TooManyPages)
}

// Asks how many bytes a link's file has, and fetches its pieces. The answer is the size.
pub(crate) fn fetch_sized<L: Link, K: Sink>(
    alloc: Global,
    link: &mut L,
    target: &Target,
    piece: u64,
    sink: &mut K,
) -> Result<u64, ClientFault>
    requires { (0 < piece) × (piece ≤ 134_217_728) }
    ensures url { ¬ (result ≡ Err fault.BadUrl) }
    ensures later { Later (counts L.faults L.read_faults L.write_faults link.old) (counts L.faults L.read_faults L.write_faults link.new) }
    ensures sink_later { K.faults sink.old ≤ K.faults sink.new }
    ensures cause { FetchCause result (counts L.faults L.read_faults L.write_faults link.old) (counts L.faults L.read_faults L.write_faults link.new) (K.faults sink.old) (K.faults sink.new) }
    ensures told { Known L.coming L.closed link.old link.new (PiecesFrom target.now piece (K.holds sink.old) (K.holds sink.new) result) }
{
    match size_from(alloc, link, target) {
        Ok(size) => match fetch_each(alloc, link, target, size, piece, sink) {
            Ok(()) => Ok(size),
            Err(fault) => Err(fault),
        },
        Err(fault) => Err(fault),
    }
}
