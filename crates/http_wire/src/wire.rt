// The reading side of a connection, for who answers requests.
ghost use Rattle.std.specs.Prelude.{◌≡◌, ◌≤◌, [], Ok, length, true};
ghost use Rattle.std.specs.declared.alloc.AllocError.{AllocError};
ghost use Rattle.edge_core.specs.Faults.{Rose};
ghost use Rattle.http_wire.specs.Fills.{RoseAtFault};
ghost use Rattle.http_wire.specs.Messages.{IsBehindHead, IsNoFault, IsShortBehind};
ghost use Rattle.http_wire.specs.Streams.{stream, Drew, Told};
ghost use Rattle.http_wire.specs.Wires.{is_fault, is_request, HoldsAnswer, IsAnswer, IsShort, OnRequest, TellsMessage};

use crate::body::{BodyRead, read_body};
use crate::head::{HeadRead, read_head};
use crate::inbox::{Halt, Inbox};
use crate::reading::MOST;
use edge_core::Source;
use http_message::framing::{closes, request_form};
use http_message::head::Head;
use http_message::refusal::Flaw;
use std::alloc::{AllocError, Global};
use std::marker::Model;

// The most bytes of a request's body: 16 MiB.
const MOST_BODY: usize = 16_777_216;

/// What stands next on a connection. A place is that of the message's first byte, the number of the bytes before it, which stands
/// still at 2^64 - 1.
#[derive(Drop)]
pub enum Message {
    /// A request.
    Request {
        /// Its place.
        at: u64,
        /// Its head.
        head: Head,
        /// Its body, of at most 16 MiB.
        body: Vec<u8>,
        /// Whether its sender closes the connection behind it (RFC 9112, section 9.3).
        closes: bool,
    },
    /// The input ended between messages.
    End,
    /// The input ended inside the message at that place.
    Truncated {
        /// The message's place.
        at: u64,
    },
    /// The message at that place is refused.
    Bad {
        /// The message's place.
        at: u64,
        /// What is wrong with it.
        flaw: Flaw,
    },
    /// A read failed.
    ReadFault,
}

/// The reading side of a connection: the bytes that were read and not yet used, the place of the first of them, and whether it is
/// open. Contracts see all of it. It is open until an answer is no request.
#[derive(Drop)]
pub struct Wire {
    inbox: Inbox,
    is_open: bool,
}

impl Model for Wire {
    ghost use Rattle.http_wire.specs.Wires.{Connection};

    ghost Value = { Connection };

    ghost view = { λ w. record { buffer = w.inbox; is_open = w.is_open } };
}

impl Wire {
    /// The reading side of a new connection.
    pub fn new(alloc: Global) -> Wire
        ensures buffer { result.buffer ≡ ([], 0) }
        ensures open { result.is_open ≡ true }
    {
        Wire {
            inbox: Inbox::new(alloc),
            is_open: true,
        }
    }

    /// Whether it is open: every answer so far was a request.
    pub fn is_open(&self) -> bool
        ensures { result ≡ self.now.is_open }
    {
        self.is_open
    }

    /// Reads the next message from the source (RFC 9112), however its pieces are cut. Every answer but a request closes it; what
    /// was read of the message is then lost.
    ///
    /// The answer is the reading of the bytes that were there and of those that this call read, at the place of the first of
    /// them, and what stands behind a request is left. Of a stream that is told, the bytes that were read and not used and then
    /// those that the source has left, it is the stream's reading.
    ///
    /// A read is made only while the bytes at hand hold neither a whole request nor what is refused: where they do from the
    /// start, the source is as it was. `ReadFault` comes only where the source's count of faults rose in this call. The error
    /// is want of memory.
    pub fn next<S: Source>(&mut self, alloc: Global, source: &mut S) -> Result<Message, AllocError>
        requires { self.old.is_open ≡ true }
        ensures later { S.faults source.old ≤ S.faults source.new }
        ensures cause { is_fault result ≡ true → Rose (S.faults source.old) (S.faults source.new) }
        ensures after { self.new.is_open ≡ is_request result }
        ensures read { Drew S.left IsShort self.old.buffer self.new.buffer source.old source.new (λ used. IsAnswer self.old.buffer.1 used self.new.buffer.0 (S.left source.new) result) }
        ensures spared { HoldsAnswer self.old.buffer.0 → source.new ≡ source.old }
        ensures told { Told (stream self.old.buffer (S.left source.old)) (stream self.new.buffer (S.left source.new)) (λ xs ys. TellsMessage xs self.old.buffer.1 ys self.new.buffer.1 result) }
        ensures limit { OnRequest result (λ body. length body ≤ 16777216) }
    {
        match next_message(alloc, &mut self.inbox, source) {
            Ok(message) => {
                self.is_open = is_request(&message);
                Ok(message)
            }
            Err(halt) => {
                self.is_open = false;
                match halt {
                    Halt::NoMemory => Err(AllocError),
                    Halt::Fault => Ok(Message::ReadFault),
                }
            }
        }
    }
}

fn is_request(message: &Message) -> bool
    ensures { result ≡ is_request {E = AllocError} (Ok message.now) }
{
    match message {
        Message::Request { .. } => true,
        _ => false,
    }
}

// Reads the next message.
fn next_message<S: Source>(
    alloc: Global,
    inbox: &mut Inbox,
    source: &mut S,
) -> Result<Message, Halt>
    ensures later { S.faults source.old ≤ S.faults source.new }
    ensures cause { RoseAtFault (S.faults source.old) (S.faults source.new) result }
    ensures sound { IsNoFault result }
    ensures read { Drew S.left IsShort inbox.old inbox.new source.old source.new (λ used. IsAnswer inbox.old.1 used inbox.new.0 (S.left source.new) result) }
{
    let at = inbox.place();
    match read_head::<Head, S>(alloc, inbox, source, MOST)? {
        HeadRead::Whole(head, _) => read_behind_head(alloc, inbox, source, at, head),
        HeadRead::Nothing => Ok(Message::End),
        HeadRead::Cut => Ok(Message::Truncated { at }),
        HeadRead::Refused(flaw) => Ok(Message::Bad { at, flaw }),
    }
}

// Reads what stands behind the head of the request at that place.
fn read_behind_head<S: Source>(
    alloc: Global,
    inbox: &mut Inbox,
    source: &mut S,
    at: u64,
    head: Head,
) -> Result<Message, Halt>
    ensures later { S.faults source.old ≤ S.faults source.new }
    ensures cause { RoseAtFault (S.faults source.old) (S.faults source.new) result }
    ensures sound { IsNoFault result }
    ensures read { Drew S.left (IsShortBehind head) inbox.old inbox.new source.old source.new (λ used. IsBehindHead head at used inbox.new.0 (S.left source.new) result) }
{
    let form = match request_form(MOST_BODY as u64, &head) {
        Ok(form) => form,
        Err(flaw) => return Ok(Message::Bad { at, flaw }),
    };
    let mut body = Vec::new(alloc);
    match read_body(inbox, source, MOST_BODY, Some(form), &mut body)? {
        BodyRead::Whole => {
            let closes = closes(head.minor, &head.fields);
            Ok(Message::Request {
                at,
                head,
                body,
                closes,
            })
        }
        BodyRead::Ended => Ok(Message::Truncated { at }),
        BodyRead::Refused(flaw) => Ok(Message::Bad { at, flaw }),
    }
}
