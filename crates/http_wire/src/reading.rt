// Reading as far as a part of a message needs. Nothing is used here.
ghost use Rattle.std.specs.Prelude.{◌≡◌, ◌≤◌, ◌<◌, ◌+◌, ◌∷◌, MatchOption, length, take};
ghost use Rattle.http_message.specs.Ends.{ends_empty, HasNoEnd, HasNoEndTo, IsFirstEnd};
ghost use Rattle.http_message.specs.Lines.{IsOpenLine};
ghost use Rattle.http_wire.specs.Fills.{Awaits, RoseAtFault};
ghost use Rattle.http_wire.specs.Parts.{IsBlankOpen, IsEndOpen, IsFewer, IsTrailersOpen, TellsBlank, TellsEndIn, TellsLine, TellsNeed, TellsTrailersEnd};

use crate::inbox::{Filled, Halt, Inbox};
use edge_core::Source;
use http_message::chunk::chunk_line;
use http_message::ends::{blank_len_from, end_after};

/// The most bytes of a message's heads, and of trailers.
pub(crate) const MOST: usize = 16_384;

/// The empty lines at the front.
#[derive(Clone, Copy, Debug, PartialEq, Eq)]
pub(crate) enum Blank {
    /// They end there, and at least two bytes follow.
    Start(usize),
    /// Fewer than two bytes follow within the most.
    TooLarge,
    /// The input ended, and fewer than two bytes follow.
    Ended,
}

/// The first empty line behind a place.
#[derive(Clone, Copy, Debug, PartialEq, Eq)]
pub(crate) enum EndIn {
    /// It ends there.
    At(usize),
    /// None ends within the most.
    TooLarge,
    /// The input ended, and none had.
    Ended,
}

/// The line in front of a chunk.
#[derive(Clone, Copy, Debug, PartialEq, Eq)]
pub(crate) enum Line {
    /// Its length, and the size that it announces.
    Size(usize, u64),
    /// The input ended inside it.
    Ended,
    /// It is none.
    Bad,
}

/// Whether so many bytes are there.
#[derive(Clone, Copy, Debug, PartialEq, Eq)]
pub(crate) enum Need {
    /// They are.
    Enough,
    /// The input ended before.
    Ended,
}

/// Reads until so many bytes are there.
pub(crate) fn await_bytes<S: Source>(
    inbox: &mut Inbox,
    source: &mut S,
    size: usize,
) -> Result<Need, Halt>
    ensures draws { Awaits S.left (IsFewer size inbox.old.0) inbox.old inbox.new source.old source.new }
    ensures later { S.faults source.old ≤ S.faults source.new }
    ensures cause { RoseAtFault (S.faults source.old) (S.faults source.new) result }
    ensures told { TellsNeed size inbox.new.0 (S.left source.new) result }
{
    'turns: loop {
        if inbox.bytes().len() >= size {
            return Ok(Need::Enough);
        }
        match inbox.fill(source)? {
            Filled::More => {}
            Filled::End => return Ok(Need::Ended),
        }
    }
}

/// Reads until the line in front of a chunk is there.
pub(crate) fn await_line<S: Source>(inbox: &mut Inbox, source: &mut S) -> Result<Line, Halt>
    ensures draws { Awaits S.left IsOpenLine inbox.old inbox.new source.old source.new }
    ensures later { S.faults source.old ≤ S.faults source.new }
    ensures cause { RoseAtFault (S.faults source.old) (S.faults source.new) result }
    ensures told { TellsLine inbox.new.0 (S.left source.new) result }
{
    'turns: loop {
        match chunk_line(inbox.bytes()) {
            Ok(Some((len, size))) => return Ok(Line::Size(len, size)),
            Ok(None) => {}
            Err(_) => return Ok(Line::Bad),
        }
        match inbox.fill(source)? {
            Filled::More => {}
            Filled::End => return Ok(Line::Ended),
        }
    }
}

// The first bytes, at most so many.
fn front<'a>(bytes: &'a [u8], most: usize) -> &'a [u8]
    ensures { result.now ≡ take most bytes.now }
{
    &bytes[..bytes.len().min(most)]
}

/// Reads until two bytes are there behind the empty lines in front, within so many bytes. Each empty line is looked at once.
pub(crate) fn await_start<S: Source>(
    inbox: &mut Inbox,
    source: &mut S,
    most: usize,
) -> Result<Blank, Halt>
    ensures draws { Awaits S.left (IsBlankOpen most) inbox.old inbox.new source.old source.new }
    ensures later { S.faults source.old ≤ S.faults source.new }
    ensures cause { RoseAtFault (S.faults source.old) (S.faults source.new) result }
    ensures told { TellsBlank most inbox.new.0 (S.left source.new) result }
{
    let mut known = 0;
    'turns: loop {
        let front = front(inbox.bytes(), most);
        let size = front.len();
        known = blank_len_from(front, known);
        if known + 2 <= size {
            return Ok(Blank::Start(known));
        }
        if size == most {
            return Ok(Blank::TooLarge);
        }
        match inbox.fill(source)? {
            Filled::More => {}
            Filled::End => return Ok(Blank::Ended),
        }
    }
}

/// Reads until the first empty line behind a place has ended, within so many bytes. Each byte is looked at once.
pub(crate) fn await_end<S: Source>(
    inbox: &mut Inbox,
    source: &mut S,
    most: usize,
    start: usize,
) -> Result<EndIn, Halt>
    requires order { start ≤ most }
    requires within { start ≤ length inbox.old.0 }
    ensures draws { Awaits S.left (IsEndOpen most start inbox.old.0) inbox.old inbox.new source.old source.new }
    ensures later { S.faults source.old ≤ S.faults source.new }
    ensures cause { RoseAtFault (S.faults source.old) (S.faults source.new) result }
    ensures told { TellsEndIn most start inbox.new.0 (S.left source.new) result }
{
    let mut searched = start;
    'turns: loop {
        let front = front(inbox.bytes(), most);
        if let Some(end) = end_after(front, start, searched) {
            return Ok(EndIn::At(end));
        }
        if front.len() == most {
            return Ok(EndIn::TooLarge);
        }
        searched = front.len();
        match inbox.fill(source)? {
            Filled::More => {}
            Filled::End => return Ok(EndIn::Ended),
        }
    }
}

// Whether an empty line ends at place n, where a line feed stands in front of the bytes.
fn ends_empty_behind(bytes: &[u8], n: usize) -> bool
    requires some { 1 ≤ n }
    requires within { n ≤ length bytes.now }
    ensures { result ≡ ends_empty (10 ∷ bytes.now) (n + 1) }
{
    bytes[n - 1] == b'\n'
        && (n == 1
            || bytes[n - 2] == b'\n'
            || (bytes[n - 2] == b'\r' && (n == 2 || bytes[n - 3] == b'\n')))
}

// Where the first empty line ends, where a line feed stands in front of the bytes, and none ends up to place `searched`.
fn end_behind(bytes: &[u8], searched: usize) -> Option<usize>
    requires within { searched ≤ length bytes.now }
    requires none { HasNoEndTo (10 ∷ bytes.now) 1 (searched + 1) }
    ensures { MatchOption result (HasNoEnd (10 ∷ bytes.now) 1) (λ end. IsFirstEnd (10 ∷ bytes.now) 1 (end + 1)) }
{
    for i in searched..bytes.len() {
        if ends_empty_behind(bytes, i + 1) {
            return Some(i + 1);
        }
    }
    None
}

/// Reads until the empty line of trailers has ended, behind the line of the last chunk. Each byte is looked at once.
pub(crate) fn await_trailers<S: Source>(inbox: &mut Inbox, source: &mut S) -> Result<EndIn, Halt>
    ensures draws { Awaits S.left IsTrailersOpen inbox.old inbox.new source.old source.new }
    ensures later { S.faults source.old ≤ S.faults source.new }
    ensures cause { RoseAtFault (S.faults source.old) (S.faults source.new) result }
    ensures told { TellsTrailersEnd inbox.new.0 (S.left source.new) result }
{
    let mut searched = 0;
    'turns: loop {
        let front = front(inbox.bytes(), MOST);
        if let Some(end) = end_behind(front, searched) {
            return Ok(EndIn::At(end));
        }
        if front.len() == MOST {
            return Ok(EndIn::TooLarge);
        }
        searched = front.len();
        match inbox.fill(source)? {
            Filled::More => {}
            Filled::End => return Ok(EndIn::Ended),
        }
    }
}
