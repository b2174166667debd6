// Reading a head.
ghost use Rattle.std.specs.Prelude.{◌≡◌, ◌≤◌, IfOk, MatchBool, length};
ghost use Rattle.http_message.specs.Ends.{blank_len};
ghost use Rattle.http_message.specs.HeadReadings.{has_many_lines, ReadsHead};
ghost use Rattle.http_message.specs.ResponseMessages.{ReadsFinalHead};
ghost use Rattle.http_wire.specs.Fills.{Awaits, RoseAtFault};
ghost use Rattle.http_wire.specs.Heads.{HeadFound, IsCounted, IsHeadOpen, IsHeadShort, TellsHeadEnd, TellsText};
ghost use Rattle.http_wire.specs.Streams.{Drew};

use crate::inbox::{Halt, Inbox};
use crate::reading::{Blank, EndIn, MOST, await_end, await_start};
use edge_core::Source;
use http_message::ends::{blank_len, line_count};
use http_message::head::HeadText;
use http_message::refusal::Flaw;
use http_message::response::{ResponseHead, is_interim};
use std::alloc::{AllocError, Global};

/// Where the head at the front ends.
#[derive(Clone, Copy, Debug, PartialEq, Eq)]
pub(crate) enum HeadEnd {
    /// It ends there.
    At(usize),
    /// No head ends within the most.
    TooLarge,
    /// The input ended, and only empty lines were left.
    Nothing,
    /// The input ended inside a head.
    Cut,
}

/// What reading a head came to, of which `H` is kept.
#[derive(Drop)]
pub(crate) enum HeadRead<H> {
    /// The head, which was used, and how many bytes it has.
    Whole(H, usize),
    /// The input ended, and only empty lines were left.
    Nothing,
    /// The input ended inside a head.
    Cut,
    /// It is refused.
    Refused(Flaw),
}

// Whether the bytes are nothing but empty lines.
fn is_blank(bytes: &[u8]) -> bool
    ensures { MatchBool result (blank_len bytes.now ≡ length bytes.now) (¬ (blank_len bytes.now ≡ length bytes.now)) }
{
    blank_len(bytes) == bytes.len()
}

// Reads until the head at the front has ended, within so many bytes. Nothing is used.
fn head_end<S: Source>(inbox: &mut Inbox, source: &mut S, most: usize) -> Result<HeadEnd, Halt>
    ensures draws { Awaits S.left (IsHeadOpen most) inbox.old inbox.new source.old source.new }
    ensures later { S.faults source.old ≤ S.faults source.new }
    ensures cause { RoseAtFault (S.faults source.old) (S.faults source.new) result }
    ensures told { TellsHeadEnd most inbox.new.0 (S.left source.new) result }
{
    let start = match await_start(inbox, source, most)? {
        Blank::Start(start) => start,
        Blank::TooLarge => return Ok(HeadEnd::TooLarge),
        Blank::Ended => {
            if is_blank(inbox.bytes()) {
                return Ok(HeadEnd::Nothing);
            }
            return Ok(HeadEnd::Cut);
        }
    };
    match await_end(inbox, source, most, start)? {
        EndIn::At(end) => Ok(HeadEnd::At(end)),
        EndIn::TooLarge => Ok(HeadEnd::TooLarge),
        EndIn::Ended => Ok(HeadEnd::Cut),
    }
}

// Whether more than 64 field lines stand in the text.
fn has_many_lines(text: &[u8]) -> bool
    ensures { result ≡ has_many_lines text.now }
{
    line_count(&text[blank_len(text)..]) > 66
}

// The head that the text is, or why it is none.
fn head_of_text<H: HeadText>(alloc: Global, text: &[u8]) -> Result<HeadRead<H>, AllocError>
    ensures { IfOk result (TellsText H.is_text (length text.now) text.now) }
{
    if has_many_lines(text) {
        return Ok(HeadRead::Refused(Flaw::HeadTooLarge));
    }
    match H::of_text(alloc, text)? {
        Some(head) => Ok(HeadRead::Whole(head, text.len())),
        None => Ok(HeadRead::Refused(Flaw::BadMessage)),
    }
}

/// Reads the head at the front, of at most so many bytes, and uses it.
pub(crate) fn read_head<H: HeadText, S: Source>(
    alloc: Global,
    inbox: &mut Inbox,
    source: &mut S,
    most: usize,
) -> Result<HeadRead<H>, Halt>
    ensures later { S.faults source.old ≤ S.faults source.new }
    ensures cause { RoseAtFault (S.faults source.old) (S.faults source.new) result }
    ensures read { Drew S.left (IsHeadShort (ReadsHead H.is_text most)) inbox.old inbox.new source.old source.new (λ used. HeadFound (ReadsHead H.is_text most) used inbox.new.0 (S.left source.new) result × IsCounted most used result) }
{
    match head_end(inbox, source, most)? {
        HeadEnd::At(end) => {
            let found = head_of_text(alloc, &inbox.bytes()[..end])?;
            inbox.consume(end);
            Ok(found)
        }
        HeadEnd::TooLarge => Ok(HeadRead::Refused(Flaw::HeadTooLarge)),
        HeadEnd::Nothing => Ok(HeadRead::Nothing),
        HeadEnd::Cut => Ok(HeadRead::Cut),
    }
}

/// Reads the interim heads at the front of a response and the head behind them, of at most 16,384 bytes all together, and uses
/// them.
pub(crate) fn read_final_head<S: Source>(
    alloc: Global,
    inbox: &mut Inbox,
    source: &mut S,
) -> Result<HeadRead<ResponseHead>, Halt>
    ensures later { S.faults source.old ≤ S.faults source.new }
    ensures cause { RoseAtFault (S.faults source.old) (S.faults source.new) result }
    ensures read { Drew S.left (IsHeadShort (ReadsFinalHead 16384)) inbox.old inbox.new source.old source.new (λ used. HeadFound (ReadsFinalHead 16384) used inbox.new.0 (S.left source.new) result) }
{
    let mut room = MOST;
    'heads: loop {
        match read_head::<ResponseHead, S>(alloc, inbox, source, room)? {
            HeadRead::Whole(head, len) => {
                if head.status == 101 {
                    return Ok(HeadRead::Refused(Flaw::BadMessage));
                }
                if !is_interim(&head) {
                    return Ok(HeadRead::Whole(head, len));
                }
                room -= len;
            }
            HeadRead::Nothing => return Ok(HeadRead::Nothing),
            HeadRead::Cut => return Ok(HeadRead::Cut),
            HeadRead::Refused(flaw) => return Ok(HeadRead::Refused(flaw)),
        }
    }
}
