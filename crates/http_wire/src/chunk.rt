// Reading the chunks of a body (RFC 9112, section 7.1).
ghost use Rattle.std.specs.Prelude.{◌≡◌, ◌≤◌, ◌<◌, ◌-◌, [], Ok, Some, MatchBool, length, ⊤};
ghost use Rattle.httparse.specs.Ascii.{crlf_bytes};
ghost use Rattle.http_message.specs.Bodies.{unended, ReadsChunked, ReadsTrailers};
ghost use Rattle.http_wire.specs.Bodies.{IsContent, IsContentThere, IsNextChunk, PartFound, StopsContent, TellsTrailersText, TookBytes};
ghost use Rattle.http_wire.specs.Fills.{GoesBehind, RoseAtFault};
ghost use Rattle.http_wire.specs.Streams.{Drew};
ghost use Rattle.http_wire.specs.declared.chunk.Part.TheVariants as part;

use crate::inbox::{Filled, Halt, Inbox};
use crate::reading::{EndIn, Line, Need, await_bytes, await_line, await_trailers};
use edge_core::Source;
use http_message::ends::line_count;
use http_message::head::is_trailers;
use http_message::refusal::Flaw;

/// What reading a part of a body came to.
#[derive(Clone, Copy, Debug, PartialEq, Eq)]
pub(crate) enum Part {
    /// It was used, and the body goes on.
    More,
    /// It was used, and the body is whole.
    Whole,
    /// The input ended inside the body.
    Ended,
    /// The body is refused.
    Refused(Flaw),
}

/// Puts so many bytes behind the body, as used.
pub(crate) fn take_bytes<S: Source>(
    inbox: &mut Inbox,
    source: &mut S,
    size: usize,
    body: &mut Vec<u8>,
) -> Result<Need, Halt>
    ensures later { S.faults source.old ≤ S.faults source.new }
    ensures cause { RoseAtFault (S.faults source.old) (S.faults source.new) result }
    ensures took { Drew S.left (λ b. length b < size) inbox.old inbox.new source.old source.new (λ used. GoesBehind size body.old.items body.new.items used × TookBytes size used inbox.new.0 (S.left source.new) result) }
{
    let mut left = size;
    'pieces: while left > 0 {
        let before = body.len();
        match inbox.move_some(source, left, body)? {
            Filled::More => {}
            Filled::End => return Ok(Need::Ended),
        }
        left -= body.len() - before;
    }
    Ok(Need::Enough)
}

// Reads the CR LF behind a chunk's content.
fn content_end<S: Source>(inbox: &mut Inbox, source: &mut S) -> Result<Part, Halt>
    ensures later { S.faults source.old ≤ S.faults source.new }
    ensures cause { RoseAtFault (S.faults source.old) (S.faults source.new) result }
    ensures read { Drew S.left (λ b. StopsContent 0 b unended) inbox.old inbox.new source.old source.new (λ used. PartFound (λ u. u ≡ crlf_bytes) (StopsContent 0) used inbox.new.0 (S.left source.new) result) }
    ensures unlike { result ≡ Ok part.Whole → ⊥ }
{
    match await_bytes(inbox, source, 1)? {
        Need::Enough => {}
        Need::Ended => return Ok(Part::Ended),
    }
    if inbox.bytes()[0] != b'\r' {
        return Ok(Part::Refused(Flaw::BadMessage));
    }
    match await_bytes(inbox, source, 2)? {
        Need::Enough => {}
        Need::Ended => return Ok(Part::Ended),
    }
    if inbox.bytes()[1] != b'\n' {
        return Ok(Part::Refused(Flaw::BadMessage));
    }
    inbox.consume(2);
    Ok(Part::More)
}

// Whether content of that size is there, with CR LF behind it.
fn has_content(bytes: &[u8], size: usize) -> bool
    ensures { MatchBool result (IsContentThere size bytes.now) ⊤ }
{
    let there = bytes.len();
    there >= 2 && there - 2 >= size && bytes[size] == b'\r' && bytes[size + 1] == b'\n'
}

// Reads the content of a chunk, of that size, and the CR LF behind it. Where all of it is there, it is used in one step.
fn content<S: Source>(
    inbox: &mut Inbox,
    source: &mut S,
    size: usize,
    body: &mut Vec<u8>,
) -> Result<Part, Halt>
    ensures later { S.faults source.old ≤ S.faults source.new }
    ensures cause { RoseAtFault (S.faults source.old) (S.faults source.new) result }
    ensures read { Drew S.left (λ b. StopsContent size b unended) inbox.old inbox.new source.old source.new (λ used. PartFound (IsContent size body.old.items body.new.items) (StopsContent size) used inbox.new.0 (S.left source.new) result) }
    ensures unlike { result ≡ Ok part.Whole → ⊥ }
{
    if has_content(inbox.bytes(), size) {
        body.extend_from_slice(&inbox.bytes()[..size])?;
        inbox.consume(size + 2);
        return Ok(Part::More);
    }
    match take_bytes(inbox, source, size, body)? {
        Need::Enough => content_end(inbox, source),
        Need::Ended => Ok(Part::Ended),
    }
}

// The text as trailers.
fn read_trailers_text(text: &[u8]) -> Part
    ensures { TellsTrailersText text.now result }
{
    if line_count(text) > 65 {
        return Part::Refused(Flaw::HeadTooLarge);
    }
    if is_trailers(text) {
        Part::Whole
    } else {
        Part::Refused(Flaw::BadMessage)
    }
}

// Reads the trailers behind the last chunk's line.
fn trailers<S: Source>(inbox: &mut Inbox, source: &mut S) -> Result<Part, Halt>
    ensures later { S.faults source.old ≤ S.faults source.new }
    ensures cause { RoseAtFault (S.faults source.old) (S.faults source.new) result }
    ensures read { Drew S.left (λ b. ReadsTrailers b unended) inbox.old inbox.new source.old source.new (λ used. PartFound (λ _. ⊥) ReadsTrailers used inbox.new.0 (S.left source.new) result) }
{
    match await_trailers(inbox, source)? {
        EndIn::At(end) => {
            let found = read_trailers_text(&inbox.bytes()[..end]);
            inbox.consume(end);
            Ok(found)
        }
        EndIn::TooLarge => Ok(Part::Refused(Flaw::HeadTooLarge)),
        EndIn::Ended => Ok(Part::Ended),
    }
}

/// Reads the next chunk, of at most so many bytes, or what ends the chunks.
pub(crate) fn next_chunk<S: Source>(
    inbox: &mut Inbox,
    source: &mut S,
    room: usize,
    body: &mut Vec<u8>,
) -> Result<Part, Halt>
    ensures later { S.faults source.old ≤ S.faults source.new }
    ensures cause { RoseAtFault (S.faults source.old) (S.faults source.new) result }
    ensures read { Drew S.left (λ b. ReadsChunked room b unended) inbox.old inbox.new source.old source.new (λ used. PartFound (IsNextChunk room body.old.items body.new.items) (ReadsChunked room) used inbox.new.0 (S.left source.new) result) }
    ensures kept { result ≡ Ok part.Whole → body.new.items ≡ body.old.items }
{
    match await_line(inbox, source)? {
        Line::Size(len, size) => {
            if size > room as u64 {
                return Ok(Part::Refused(Flaw::BodyTooLarge));
            }
            inbox.consume(len);
            if size == 0 {
                return trailers(inbox, source);
            }
            content(inbox, source, size as usize, body)
        }
        Line::Ended => Ok(Part::Ended),
        Line::Bad => Ok(Part::Refused(Flaw::BadMessage)),
    }
}
