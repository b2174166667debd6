// An object's bytes, or a part of them, written as a response.
ghost use Rattle.std.specs.Prelude.{◌≡◌, ◌<◌, ◌≤◌, ℕ, length, IfOk, Option, vec_len};
ghost use Rattle.edge_core.specs.Objects.{Objects};
ghost use Rattle.log_store.specs.Loads.{Looked};
ghost use Rattle.share_reply.specs.Refusing.{plain};
ghost use Rattle.share_serve.specs.Responses.{out_response as out_is, refusal_response as refusal_is};
ghost use Rattle.share_serve.specs.Sends.{CopySent, DeliveryCause, FileSent, HasCopyCause, HasGoneOut, HasSize, IsCopied, IsWritten, PartSent, Writes};
ghost use Rattle.share_serve.specs.Sides.{shelved};
ghost use Rattle.share_serve.specs.Turns.{ObjectIs};

use crate::response::{Delivery, empty_response, out_response, refusal_response};
use crate::send::{Delivered, Sent, flush, head_of, of_sent, send_response, send_text};
use case_table::Refusal;
use edge_core::{Got, Measured, Name, Sink, Store, write_all};
use file_ranges::part::ByteRange;
use file_ranges::pick::{Picked, pick};
use file_ranges::span::Span;
use response_text::head::ContentType;
use response_text::status::Status;
use std::alloc::{AllocError, Global};

// The most bytes that are held of an object.
const PIECE: usize = 65_536;

// What came of copying an object.
#[derive(Clone, Copy, Debug, PartialEq, Eq)]
pub(crate) enum Copied {
    Whole,
    WriteFault,
    // So many bytes were written, and then the store had no more of them.
    Cut(u64),
}

// Copies a range of an object, piece after piece, through the room for one: the object is read from the range's first byte on, and
// the store is only looked at.
fn copy_range<W: Store, K: Sink>(
    store: &mut W,
    name: &Name,
    sink: &mut K,
    piece: &mut [u8],
    range: ByteRange,
) -> Copied
    requires room { 0 < length piece.old }
    requires there { HasSize range.size name.now (W.objects store.old) }
    ensures looked { Looked (W.objects store.old) (W.objects store.new) (W.alone store.old) (W.alone store.new) }
    ensures stored { W.stored store.new ≡ W.stored store.old }
    ensures later { (W.faults store.old ≤ W.faults store.new) × (K.faults sink.old ≤ K.faults sink.new) }
    ensures copied { IsCopied result name.now range (W.objects store.new) (K.holds sink.old) (K.holds sink.new) }
    ensures cause { HasCopyCause result (W.objects store.old) (W.faults store.old) (W.faults store.new) (K.faults sink.old) (K.faults sink.new) }
{
    let first = range.first();
    let end = range.last() + 1;
    let mut at = first;
    while at < end {
        match store.get(name, at, piece) {
            Got::Bytes(0) => return Copied::Cut(at - first),
            Got::Bytes(n) => {
                let count = n.min((end - at) as usize);
                match write_all(sink, &piece[..count]) {
                    Ok(()) => at += count as u64,
                    Err(_) => return Copied::WriteFault,
                }
            }
            Got::Absent => return Copied::Cut(at - first),
            Got::Failed => return Copied::Cut(at - first),
        }
    }
    Copied::Whole
}

// Room for a piece.
fn piece_room(alloc: Global) -> Result<Vec<u8>, AllocError>
    ensures { IfOk result (λ v. 0 < vec_len v) }
{
    vec![in alloc; 0u8; PIECE]
}

// Writes the bytes of a range behind the head of its response, where there are to be any, and hands on what the sink keeps back.
fn send_copy<W: Store, K: Sink>(
    store: &mut W,
    name: &Name,
    sink: &mut K,
    to_head: bool,
    piece: &mut [u8],
    range: ByteRange,
) -> Delivered
    requires room { 0 < length piece.old }
    requires there { HasSize range.size name.now (W.objects store.old) }
    ensures looked { Looked (W.objects store.old) (W.objects store.new) (W.alone store.old) (W.alone store.new) }
    ensures stored { W.stored store.new ≡ W.stored store.old }
    ensures later { (W.faults store.old ≤ W.faults store.new) × (K.faults sink.old ≤ K.faults sink.new) }
    ensures sent { CopySent result to_head name.now range (W.objects store.new) (K.holds sink.old) (K.holds sink.new) }
    ensures cause { DeliveryCause result (W.objects store.old) (W.faults store.old) (W.faults store.new) (K.faults sink.old) (K.faults sink.new) }
    ensures out { HasGoneOut result (K.kept sink.new) }
{
    if to_head {
        return of_sent(flush(sink));
    }
    match copy_range(store, name, sink, piece, range) {
        Copied::Whole => of_sent(flush(sink)),
        Copied::WriteFault => Delivered::WriteFault,
        Copied::Cut(sent) => Delivered::Cut(sent),
    }
}

// Writes the response that tells the size of an object that has none of the bytes that are asked for.
fn send_out<K: Sink>(alloc: Global, sink: &mut K, delivery: Delivery, size: u64) -> Delivered
    requires dated { delivery.moment ≤ 253_402_300_799_999 }
    ensures later { K.faults sink.old ≤ K.faults sink.new }
    ensures sent { IsWritten result delivery (out_is size) (K.holds sink.old) (K.holds sink.new) }
    ensures cause { (objects : Option Objects) (n m : ℕ) → DeliveryCause result objects n m (K.faults sink.old) (K.faults sink.new) }
    ensures out { HasGoneOut result (K.kept sink.new) }
{
    match out_response(alloc, size) {
        Ok(response) => of_sent(send_response(alloc, sink, delivery, &response)),
        Err(_) => Delivered::NoMemory,
    }
}

// Writes the response that tells a refusal without a detail.
fn send_refusal<K: Sink>(
    alloc: Global,
    sink: &mut K,
    delivery: Delivery,
    refusal: Refusal,
) -> Delivered
    requires dated { delivery.moment ≤ 253_402_300_799_999 }
    ensures later { K.faults sink.old ≤ K.faults sink.new }
    ensures sent { IsWritten result delivery (refusal_is (plain refusal)) (K.holds sink.old) (K.holds sink.new) }
    ensures cause { (objects : Option Objects) (n m : ℕ) → DeliveryCause result objects n m (K.faults sink.old) (K.faults sink.new) }
    ensures out { HasGoneOut result (K.kept sink.new) }
{
    match refusal_response(alloc, refusal, "") {
        Ok(response) => of_sent(send_response(alloc, sink, delivery, &response)),
        Err(_) => Delivered::NoMemory,
    }
}

/// What the steps of an object's response share: the memory that they take, the object's name, and how the response is delivered.
#[derive(Drop)]
pub(crate) struct Sending<'a> {
    pub(crate) alloc: Global,
    pub(crate) name: &'a Name,
    pub(crate) delivery: Delivery,
}

impl<'a> Sending<'a> {
    // Writes the response of that status that has a range of an object.
    fn send_range<W: Store, K: Sink>(
        &self,
        store: &mut W,
        sink: &mut K,
        piece: &mut [u8],
        status: Status,
        range: ByteRange,
    ) -> Delivered
        requires dated { self.now.delivery.moment ≤ 253_402_300_799_999 }
        requires room { 0 < length piece.old }
        requires there { HasSize range.size self.now.name.now (W.objects store.old) }
        ensures looked { Looked (W.objects store.old) (W.objects store.new) (W.alone store.old) (W.alone store.new) }
        ensures stored { W.stored store.new ≡ W.stored store.old }
        ensures later { (W.faults store.old ≤ W.faults store.new) × (K.faults sink.old ≤ K.faults sink.new) }
        ensures sent { PartSent result self.now.delivery status self.now.name.now range (W.objects store.new) (K.holds sink.old) (K.holds sink.new) }
        ensures cause { DeliveryCause result (W.objects store.old) (W.faults store.old) (W.faults store.new) (K.faults sink.old) (K.faults sink.new) }
        ensures out { HasGoneOut result (K.kept sink.new) }
    {
        let delivery = self.delivery;
        let Ok(head) = head_of(
            self.alloc,
            delivery,
            status,
            ContentType::Bytes,
            range.len(),
        ) else {
            return Delivered::NoMemory;
        };
        match send_text(sink, &head) {
            Sent::Whole => send_copy(store, self.name, sink, delivery.to_head, piece, range),
            Sent::WriteFault => Delivered::WriteFault,
            Sent::NoMemory => Delivered::NoMemory,
        }
    }

    // Writes the response to a request for an object of that size, by which of its bytes are asked for.
    fn send_found<W: Store, K: Sink>(
        &self,
        store: &mut W,
        sink: &mut K,
        piece: &mut [u8],
        span: Option<Span>,
        size: u64,
    ) -> Delivered
        requires dated { self.now.delivery.moment ≤ 253_402_300_799_999 }
        requires room { 0 < length piece.old }
        requires there { HasSize size self.now.name.now (W.objects store.old) }
        ensures looked { Looked (W.objects store.old) (W.objects store.new) (W.alone store.old) (W.alone store.new) }
        ensures stored { W.stored store.new ≡ W.stored store.old }
        ensures later { (W.faults store.old ≤ W.faults store.new) × (K.faults sink.old ≤ K.faults sink.new) }
        ensures sent { FileSent result self.now.delivery self.now.name.now span (W.objects store.new) (K.holds sink.old) (K.holds sink.new) }
        ensures cause { DeliveryCause result (W.objects store.old) (W.faults store.old) (W.faults store.new) (K.faults sink.old) (K.faults sink.new) }
        ensures out { HasGoneOut result (K.kept sink.new) }
    {
        match pick(span, size) {
            Picked::Whole => match ByteRange::of(0, size.saturating_sub(1), size) {
                Some(range) => self.send_range(store, sink, piece, Status::Ok(None), range),
                None => {
                    let empty = empty_response(self.alloc);
                    of_sent(send_response(self.alloc, sink, self.delivery, &empty))
                }
            },
            Picked::Part(range) => {
                self.send_range(store, sink, piece, Status::PartialContent(range), range)
            }
            Picked::Out => send_out(self.alloc, sink, self.delivery, size),
        }
    }

    /// Writes the response to a request for an object: its bytes or the part of them that is asked for, that it has none of those,
    /// that it isn't there, or that the store failed. Of a part no byte in front of it is read, and nothing is stored.
    pub(crate) fn send_file<W: Store, K: Sink>(
        &self,
        store: &mut W,
        sink: &mut K,
        span: Option<Span>,
    ) -> Delivered
        requires dated { self.now.delivery.moment ≤ 253_402_300_799_999 }
        ensures looked { Looked (W.objects store.old) (W.objects store.new) (W.alone store.old) (W.alone store.new) }
        ensures stored { W.stored store.new ≡ W.stored store.old }
        ensures later { (W.faults store.old ≤ W.faults store.new) × (K.faults sink.old ≤ K.faults sink.new) }
        ensures sent { Writes result self.now.delivery (λ r. ObjectIs self.now.name.now span r (shelved W.objects W.alone W.faults W.stored store.old) (shelved W.objects W.alone W.faults W.stored store.new)) (shelved W.objects W.alone W.faults W.stored store.new ≡ shelved W.objects W.alone W.faults W.stored store.old) (K.holds sink.old) (K.holds sink.new) }
        ensures cause { DeliveryCause result (W.objects store.old) (W.faults store.old) (W.faults store.new) (K.faults sink.old) (K.faults sink.new) }
        ensures out { HasGoneOut result (K.kept sink.new) }
    {
        let Ok(mut piece) = piece_room(self.alloc) else {
            return Delivered::NoMemory;
        };
        match store.size(self.name) {
            Measured::Size(size) => self.send_found(store, sink, &mut piece, span, size),
            Measured::Absent => { send_refusal(self.alloc, sink, self.delivery, Refusal::FileGone) }
            Measured::Failed => {
                send_refusal(self.alloc, sink, self.delivery, Refusal::StoreFault)
            }
        }
    }
}
