// Reading the body of a message.
ghost use Rattle.std.specs.Prelude.{◌≡◌, ◌≤◌, [], Some, None, length};
ghost use Rattle.http_message.specs.declared.framing.Form.TheVariants as form;
ghost use Rattle.http_wire.specs.Bodies.{BodyFound, IsBodyShort};
ghost use Rattle.http_wire.specs.Fills.{RoseAtFault};
ghost use Rattle.http_wire.specs.Streams.{Drew};

use crate::chunk::{Part, next_chunk, take_bytes};
use crate::inbox::{Filled, Halt, Inbox};
use crate::reading::Need;
use edge_core::Source;
use http_message::framing::Form;
use http_message::refusal::Flaw;

/// What reading a body came to.
#[derive(Clone, Copy, Debug, PartialEq, Eq)]
pub(crate) enum BodyRead {
    /// The whole body, which was used.
    Whole,
    /// The input ended inside it.
    Ended,
    /// It is refused.
    Refused(Flaw),
}

// Reads a body of so many bytes.
fn sized<S: Source>(
    inbox: &mut Inbox,
    source: &mut S,
    most: usize,
    size: usize,
    body: &mut Vec<u8>,
) -> Result<BodyRead, Halt>
    requires { body.old.items ≡ [] }
    ensures later { S.faults source.old ≤ S.faults source.new }
    ensures cause { RoseAtFault (S.faults source.old) (S.faults source.new) result }
    ensures read { Drew S.left (IsBodyShort most (Some (form.Length size))) inbox.old inbox.new source.old source.new (λ used. BodyFound most (Some (form.Length size)) body.new.items used inbox.new.0 (S.left source.new) result) }
{
    match take_bytes(inbox, source, size, body)? {
        Need::Enough => Ok(BodyRead::Whole),
        Need::Ended => Ok(BodyRead::Ended),
    }
}

// Reads a body in chunks, of at most so many bytes.
fn chunked<S: Source>(
    inbox: &mut Inbox,
    source: &mut S,
    most: usize,
    body: &mut Vec<u8>,
) -> Result<BodyRead, Halt>
    requires { body.old.items ≡ [] }
    ensures later { S.faults source.old ≤ S.faults source.new }
    ensures cause { RoseAtFault (S.faults source.old) (S.faults source.new) result }
    ensures read { Drew S.left (IsBodyShort most (Some form.Chunked)) inbox.old inbox.new source.old source.new (λ used. BodyFound most (Some form.Chunked) body.new.items used inbox.new.0 (S.left source.new) result) }
{
    'chunks: loop {
        match next_chunk(inbox, source, most - body.len(), body)? {
            Part::More => {}
            Part::Whole => return Ok(BodyRead::Whole),
            Part::Ended => return Ok(BodyRead::Ended),
            Part::Refused(flaw) => return Ok(BodyRead::Refused(flaw)),
        }
    }
}

// Reads a body that goes on to the end of the input, of at most so many bytes.
fn to_end<S: Source>(
    inbox: &mut Inbox,
    source: &mut S,
    body: &mut Vec<u8>,
    most: usize,
) -> Result<BodyRead, Halt>
    requires { body.old.items ≡ [] }
    ensures later { S.faults source.old ≤ S.faults source.new }
    ensures cause { RoseAtFault (S.faults source.old) (S.faults source.new) result }
    ensures read { Drew S.left (IsBodyShort most None) inbox.old inbox.new source.old source.new (λ used. BodyFound most None body.new.items used inbox.new.0 (S.left source.new) result) }
{
    'pieces: while body.len() <= most {
        match inbox.move_some(source, (most - body.len()).saturating_add(1), body)? {
            Filled::More => {}
            Filled::End => return Ok(BodyRead::Whole),
        }
    }
    Ok(BodyRead::Refused(Flaw::BodyTooLarge))
}

/// Reads a body of that form, of at most so many bytes; without a form it goes on to the end of the input.
pub(crate) fn read_body<S: Source>(
    inbox: &mut Inbox,
    source: &mut S,
    most: usize,
    form: Option<Form>,
    body: &mut Vec<u8>,
) -> Result<BodyRead, Halt>
    requires { body.old.items ≡ [] }
    ensures later { S.faults source.old ≤ S.faults source.new }
    ensures cause { RoseAtFault (S.faults source.old) (S.faults source.new) result }
    ensures read { Drew S.left (IsBodyShort most form) inbox.old inbox.new source.old source.new (λ used. BodyFound most form body.new.items used inbox.new.0 (S.left source.new) result) }
{
    match form {
        Some(Form::Length(size)) => sized(inbox, source, most, size as usize, body),
        Some(Form::Chunked) => chunked(inbox, source, most, body),
        None => to_end(inbox, source, body, most),
    }
}
