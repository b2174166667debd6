// The reading side of a connection, for who asked.
ghost use Rattle.std.specs.Prelude.{◌≡◌, ◌≤◌, [], Ok, false, length, true};
ghost use Rattle.std.specs.declared.alloc.AllocError.{AllocError};
ghost use Rattle.edge_core.specs.Faults.{Rose};
ghost use Rattle.http_wire.specs.Fills.{RoseAtFault};
ghost use Rattle.http_wire.specs.ReplyParts.{IsBehindHead, IsNoFault, IsNoHeadFault, IsShortBehind};
ghost use Rattle.http_wire.specs.Replies.{is_fault, is_head_fault, is_response, IsFinalHead, IsHeadShortOf, IsReply, IsReplyShort, OnResponse, TellsFinalHead, TellsReply};
ghost use Rattle.http_wire.specs.Streams.{stream, Drew, Told};

use crate::body::{BodyRead, read_body};
use crate::head::{HeadRead, read_final_head};
use crate::inbox::{Halt, Inbox};
use edge_core::Source;
use http_message::field::Fields;
use http_message::response::{ResponseHead, response_form};
use std::alloc::{AllocError, Global};
use std::marker::Model;

// The most bytes of a response's body: 256 MiB.
const MOST_RESPONSE: usize = 268_435_456;

/// What stands next on a connection as a response. A place is that of the response's first byte, the number of the bytes before
/// it, which stands still at 2^64 - 1.
#[derive(Drop)]
pub enum Reply {
    /// A response.
    Response {
        /// Its place.
        at: u64,
        /// Its status: 0 to 99 or 200 to 999.
        status: u16,
        /// The fields of its last head, in order.
        fields: Fields,
        /// Its body, of at most 256 MiB.
        body: Vec<u8>,
    },
    /// The response at that place breaks the rules of its heads or its body, is larger than is allowed, or switches protocols.
    Bad {
        /// The response's place.
        at: u64,
    },
    /// The input ended before the response at that place, or inside it.
    Truncated {
        /// The response's place.
        at: u64,
    },
    /// A read failed.
    ReadFault,
}

/// The last head of what stands next on a connection as a response, with places as those of [`Reply`].
#[derive(Drop)]
pub enum FinalHead {
    /// The head of a response.
    Head {
        /// The response's place.
        at: u64,
        /// Its last head.
        head: ResponseHead,
    },
    /// The input ended before the response at that place, or inside its heads.
    Truncated {
        /// The response's place.
        at: u64,
    },
    /// The heads of the response at that place break the rules, are larger than is allowed, or switch protocols.
    Bad {
        /// The response's place.
        at: u64,
    },
    /// A read failed.
    ReadFault,
}

/// The reading side of a connection that responses come from: the bytes that were read and not yet used, the place of the first of
/// them, and whether it is open. Contracts see all of it. It is open until an answer is no response, or a head was read alone.
#[derive(Drop)]
pub struct Responses {
    inbox: Inbox,
    is_open: bool,
}

impl Model for Responses {
    ghost use Rattle.http_wire.specs.Wires.{Connection};

    ghost Value = { Connection };

    ghost view = { λ r. record { buffer = r.inbox; is_open = r.is_open } };
}

impl Responses {
    /// The reading side of a new connection.
    pub fn new(alloc: Global) -> Responses
        ensures buffer { result.buffer ≡ ([], 0) }
        ensures open { result.is_open ≡ true }
    {
        Responses {
            inbox: Inbox::new(alloc),
            is_open: true,
        }
    }

    /// Whether it is open.
    pub fn is_open(&self) -> bool
        ensures { result ≡ self.now.is_open }
    {
        self.is_open
    }

    /// Reads the next response from the source (RFC 9112), however its pieces are cut; `to_head` says whether its request was
    /// HEAD. Interim heads, of status 1xx, are passed over, but a switch of protocols (101) is `Bad`. A response to HEAD, and one
    /// of status 204 or 304, has no body; else the body is framed by Transfer-Encoding or by Content-Length, and where there is
    /// neither it goes on to the end of the input (RFC 9112, section 6.3). Every answer but a response closes it.
    ///
    /// The answer is the reading of the bytes that were there and of those that this call read. A read is made only while the
    /// bytes at hand hold neither a whole response nor what is refused. `ReadFault` comes only where the source's count of
    /// faults rose in this call. The error is want of memory.
    pub fn next<S: Source>(
        &mut self,
        alloc: Global,
        source: &mut S,
        to_head: bool,
    ) -> Result<Reply, AllocError>
        requires { self.old.is_open ≡ true }
        ensures later { S.faults source.old ≤ S.faults source.new }
        ensures cause { is_fault result ≡ true → Rose (S.faults source.old) (S.faults source.new) }
        ensures after { self.new.is_open ≡ is_response result }
        ensures read { Drew S.left (IsReplyShort to_head) self.old.buffer self.new.buffer source.old source.new (λ used. IsReply to_head self.old.buffer.1 used self.new.buffer.0 (S.left source.new) result) }
        ensures told { Told (stream self.old.buffer (S.left source.old)) (stream self.new.buffer (S.left source.new)) (λ xs ys. TellsReply to_head xs self.old.buffer.1 ys self.new.buffer.1 result) }
        ensures limit { OnResponse result (λ body. length body ≤ 268435456) }
    {
        match next_reply(alloc, &mut self.inbox, source, to_head) {
            Ok(reply) => {
                self.is_open = is_response(&reply);
                Ok(reply)
            }
            Err(halt) => {
                self.is_open = false;
                match halt {
                    Halt::NoMemory => Err(AllocError),
                    Halt::Fault => Ok(Reply::ReadFault),
                }
            }
        }
    }

    /// Reads the heads of the next response, and leaves its body unread. It is closed then.
    ///
    /// The last head is that of the bytes that were there and of those that this call read, of which a read is made only while
    /// the bytes at hand hold neither the head nor what is refused. `ReadFault` comes only where the source's count of faults
    /// rose in this call. The error is want of memory.
    pub fn head<S: Source>(
        &mut self,
        alloc: Global,
        source: &mut S,
    ) -> Result<FinalHead, AllocError>
        requires { self.old.is_open ≡ true }
        ensures later { S.faults source.old ≤ S.faults source.new }
        ensures cause { is_head_fault result ≡ true → Rose (S.faults source.old) (S.faults source.new) }
        ensures after { self.new.is_open ≡ false }
        ensures read { Drew S.left IsHeadShortOf self.old.buffer self.new.buffer source.old source.new (λ used. IsFinalHead self.old.buffer.1 used self.new.buffer.0 (S.left source.new) result) }
        ensures told { Told (stream self.old.buffer (S.left source.old)) (stream self.new.buffer (S.left source.new)) (λ xs ys. TellsFinalHead xs self.old.buffer.1 ys self.new.buffer.1 result) }
    {
        self.is_open = false;
        match final_head(alloc, &mut self.inbox, source) {
            Ok(head) => Ok(head),
            Err(Halt::NoMemory) => Err(AllocError),
            Err(Halt::Fault) => Ok(FinalHead::ReadFault),
        }
    }
}

fn is_response(reply: &Reply) -> bool
    ensures { result ≡ is_response {E = AllocError} (Ok reply.now) }
{
    match reply {
        Reply::Response { .. } => true,
        _ => false,
    }
}

// Reads the next response.
fn next_reply<S: Source>(
    alloc: Global,
    inbox: &mut Inbox,
    source: &mut S,
    to_head: bool,
) -> Result<Reply, Halt>
    ensures later { S.faults source.old ≤ S.faults source.new }
    ensures cause { RoseAtFault (S.faults source.old) (S.faults source.new) result }
    ensures sound { IsNoFault result }
    ensures read { Drew S.left (IsReplyShort to_head) inbox.old inbox.new source.old source.new (λ used. IsReply to_head inbox.old.1 used inbox.new.0 (S.left source.new) result) }
{
    let at = inbox.place();
    match read_final_head(alloc, inbox, source)? {
        HeadRead::Whole(head, _) => read_behind_head(alloc, inbox, source, to_head, at, head),
        HeadRead::Nothing => Ok(Reply::Truncated { at }),
        HeadRead::Cut => Ok(Reply::Truncated { at }),
        HeadRead::Refused(_) => Ok(Reply::Bad { at }),
    }
}

// Reads what stands behind the last head of the response at that place.
fn read_behind_head<S: Source>(
    alloc: Global,
    inbox: &mut Inbox,
    source: &mut S,
    to_head: bool,
    at: u64,
    head: ResponseHead,
) -> Result<Reply, Halt>
    ensures later { S.faults source.old ≤ S.faults source.new }
    ensures cause { RoseAtFault (S.faults source.old) (S.faults source.new) result }
    ensures sound { IsNoFault result }
    ensures read { Drew S.left (IsShortBehind to_head head) inbox.old inbox.new source.old source.new (λ used. IsBehindHead to_head head at used inbox.new.0 (S.left source.new) result) }
{
    let form = match response_form(MOST_RESPONSE as u64, to_head, &head) {
        Ok(form) => form,
        Err(_) => return Ok(Reply::Bad { at }),
    };
    let mut body = Vec::new(alloc);
    match read_body(inbox, source, MOST_RESPONSE, form, &mut body)? {
        BodyRead::Whole => Ok(Reply::Response {
            at,
            status: head.status,
            fields: head.fields,
            body,
        }),
        BodyRead::Ended => Ok(Reply::Truncated { at }),
        BodyRead::Refused(_) => Ok(Reply::Bad { at }),
    }
}

// Reads the heads of the next response.
fn final_head<S: Source>(
    alloc: Global,
    inbox: &mut Inbox,
    source: &mut S,
) -> Result<FinalHead, Halt>
    ensures later { S.faults source.old ≤ S.faults source.new }
    ensures cause { RoseAtFault (S.faults source.old) (S.faults source.new) result }
    ensures sound { IsNoHeadFault result }
    ensures read { Drew S.left IsHeadShortOf inbox.old inbox.new source.old source.new (λ used. IsFinalHead inbox.old.1 used inbox.new.0 (S.left source.new) result) }
{
    let at = inbox.place();
    match read_final_head(alloc, inbox, source)? {
        HeadRead::Whole(head, _) => Ok(FinalHead::Head { at, head }),
        HeadRead::Nothing => Ok(FinalHead::Truncated { at }),
        HeadRead::Cut => Ok(FinalHead::Truncated { at }),
        HeadRead::Refused(_) => Ok(FinalHead::Bad { at }),
    }
}
