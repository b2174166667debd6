// Responses, written.
ghost use Rattle.std.specs.Prelude.{◌≡◌, ◌≤◌, length, IfOk};
ghost use Rattle.response_text.specs.declared.status.Status.TheVariants as status_is;
ghost use Rattle.response_text.specs.declared.head.ContentType.TheVariants as content;
ghost use Rattle.share_reply.specs.Formats.{body_of};
ghost use Rattle.share_reply.specs.Planned.{text_at};
ghost use Rattle.share_serve.specs.Responses.{body_sent, lines_form, lines_response, response_head, response_text};
ghost use Rattle.share_serve.specs.Sends.{IsHandedOn, IsSent, RoseWhereUnsent, delivered_of};

use crate::response::{Delivery, Response};
use edge_core::{Flushing, Sink, write_all};
use response_text::head::{ContentType, ResponseHead};
use response_text::head_text;
use response_text::status::Status;
use share_reply::LinePlan;
use share_request::ResponseFormat;
use std::alloc::{AllocError, Global};

// What came of writing a text.
#[derive(Clone, Copy, Debug, PartialEq, Eq)]
pub(crate) enum Sent {
    Whole,
    WriteFault,
    NoMemory,
}

// What came of a request's response.
#[derive(Clone, Copy, Debug, PartialEq, Eq)]
pub(crate) enum Delivered {
    Whole,
    WriteFault,
    NoMemory,
    // So many bytes of the body were written, and then the store had no more of them.
    Cut(u64),
}

// What came of a response that is held whole.
pub(crate) fn of_sent(sent: Sent) -> Delivered
    ensures { result ≡ delivered_of sent }
{
    match sent {
        Sent::Whole => Delivered::Whole,
        Sent::WriteFault => Delivered::WriteFault,
        Sent::NoMemory => Delivered::NoMemory,
    }
}

// The head of a response whose body has that length.
pub(crate) fn head_of(
    alloc: Global,
    delivery: Delivery,
    status: Status,
    form: ContentType,
    length: u64,
) -> Result<Vec<u8>, AllocError>
    requires { delivery.moment ≤ 253_402_300_799_999 }
    ensures { IfOk result (λ text. text.items ≡ response_head delivery status form length) }
{
    head_text(
        alloc,
        &ResponseHead {
            status,
            moment: delivery.moment,
            content_type: form,
            length: length as u128,
            closes: delivery.closes,
        },
    )
}

pub(crate) fn send_text<K: Sink>(sink: &mut K, text: &[u8]) -> Sent
    ensures later { K.faults sink.old ≤ K.faults sink.new }
    ensures cause { RoseWhereUnsent result (K.faults sink.old) (K.faults sink.new) }
    ensures sent { IsSent result text.now (K.holds sink.old) (K.holds sink.new) }
{
    match write_all(sink, text) {
        Ok(()) => Sent::Whole,
        Err(_) => Sent::WriteFault,
    }
}

// Hands on what the sink keeps back, where all was written.
pub(crate) fn flush<K: Sink>(sink: &mut K) -> Sent
    ensures later { K.faults sink.old ≤ K.faults sink.new }
    ensures cause { RoseWhereUnsent result (K.faults sink.old) (K.faults sink.new) }
    ensures out { IsHandedOn result (K.kept sink.new) }
    ensures held { K.holds sink.new ≡ K.holds sink.old }
{
    match sink.flush() {
        Flushing::Flushed => Sent::Whole,
        Flushing::Failed => Sent::WriteFault,
    }
}

// Writes a body that is held whole, where there is to be one, and hands on what the sink keeps back.
fn send_body<K: Sink>(sink: &mut K, to_head: bool, body: &[u8]) -> Sent
    ensures later { K.faults sink.old ≤ K.faults sink.new }
    ensures cause { RoseWhereUnsent result (K.faults sink.old) (K.faults sink.new) }
    ensures out { IsHandedOn result (K.kept sink.new) }
    ensures sent { IsSent result (body_sent to_head body.now) (K.holds sink.old) (K.holds sink.new) }
{
    if to_head {
        return flush(sink);
    }
    match send_text(sink, body) {
        Sent::Whole => flush(sink),
        other => other,
    }
}

/// Writes a response that is held whole.
pub(crate) fn send_response<K: Sink>(
    alloc: Global,
    sink: &mut K,
    delivery: Delivery,
    response: &Response,
) -> Sent
    requires { delivery.moment ≤ 253_402_300_799_999 }
    ensures later { K.faults sink.old ≤ K.faults sink.new }
    ensures cause { RoseWhereUnsent result (K.faults sink.old) (K.faults sink.new) }
    ensures out { IsHandedOn result (K.kept sink.new) }
    ensures sent { IsSent result (response_text delivery response.now) (K.holds sink.old) (K.holds sink.new) }
{
    let body = response.body.as_str().as_bytes();
    let length = body.len() as u64;
    let Ok(head) = head_of(alloc, delivery, response.status, response.form, length) else {
        return Sent::NoMemory;
    };
    match send_text(sink, &head) {
        Sent::Whole => send_body(sink, delivery.to_head, body),
        Sent::WriteFault => Sent::WriteFault,
        Sent::NoMemory => Sent::NoMemory,
    }
}

// ---- lines

// Writes the line of that number, through the room for one.
fn send_line<K: Sink>(
    alloc: Global,
    sink: &mut K,
    lines: &LinePlan<'_>,
    n: u64,
    room: &mut Vec<u8>,
) -> Sent
    ensures later { K.faults sink.old ≤ K.faults sink.new }
    ensures cause { RoseWhereUnsent result (K.faults sink.old) (K.faults sink.new) }
    ensures sent { IsSent result (text_at lines.now n) (K.holds sink.old) (K.holds sink.new) }
{
    room.clear();
    match lines.push_line(alloc, n, room) {
        Ok(()) => send_text(sink, room),
        Err(_) => Sent::NoMemory,
    }
}

// Writes lines, one after another: one is held at a time.
fn send_each<K: Sink>(alloc: Global, sink: &mut K, lines: &LinePlan<'_>) -> Sent
    ensures later { K.faults sink.old ≤ K.faults sink.new }
    ensures cause { RoseWhereUnsent result (K.faults sink.old) (K.faults sink.new) }
    ensures sent { IsSent result (body_of lines.now) (K.holds sink.old) (K.holds sink.new) }
{
    let mut room = Vec::new(alloc);
    for n in 0..lines.count() {
        match send_line(alloc, sink, lines, n, &mut room) {
            Sent::Whole => {}
            Sent::WriteFault => return Sent::WriteFault,
            Sent::NoMemory => return Sent::NoMemory,
        }
    }
    Sent::Whole
}

// Writes lines, where there are to be any, and hands on what the sink keeps back.
fn send_body_lines<K: Sink>(
    alloc: Global,
    sink: &mut K,
    to_head: bool,
    lines: &LinePlan<'_>,
) -> Sent
    ensures later { K.faults sink.old ≤ K.faults sink.new }
    ensures cause { RoseWhereUnsent result (K.faults sink.old) (K.faults sink.new) }
    ensures out { IsHandedOn result (K.kept sink.new) }
    ensures sent { IsSent result (body_sent to_head (body_of lines.now)) (K.holds sink.old) (K.holds sink.new) }
{
    if to_head {
        return flush(sink);
    }
    match send_each(alloc, sink, lines) {
        Sent::Whole => flush(sink),
        other => other,
    }
}

// The form of a body of lines.
fn lines_form(format: ResponseFormat) -> ContentType
    ensures { result ≡ lines_form format }
{
    match format {
        ResponseFormat::Parquet => ContentType::JsonLines,
        ResponseFormat::Delta => ContentType::DeltaLines,
    }
}

/// Writes the response that has the lines of a version of a table: their length is known first, and then one line is held at a time.
pub(crate) fn send_lines<K: Sink>(
    alloc: Global,
    sink: &mut K,
    delivery: Delivery,
    version: u64,
    format: ResponseFormat,
    lines: &LinePlan<'_>,
) -> Sent
    requires { delivery.moment ≤ 253_402_300_799_999 }
    ensures later { K.faults sink.old ≤ K.faults sink.new }
    ensures cause { RoseWhereUnsent result (K.faults sink.old) (K.faults sink.new) }
    ensures out { IsHandedOn result (K.kept sink.new) }
    ensures sent { IsSent result (response_text delivery (lines_response format version (body_of lines.now))) (K.holds sink.old) (K.holds sink.new) }
{
    let Ok(length) = lines.len(alloc) else {
        return Sent::NoMemory;
    };
    let status = Status::Ok(Some(version));
    let Ok(head) = head_of(alloc, delivery, status, lines_form(format), length) else {
        return Sent::NoMemory;
    };
    match send_text(sink, &head) {
        Sent::Whole => send_body_lines(alloc, sink, delivery.to_head, lines),
        Sent::WriteFault => Sent::WriteFault,
        Sent::NoMemory => Sent::NoMemory,
    }
}
