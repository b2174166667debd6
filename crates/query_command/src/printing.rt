// What a command writes, to the output and to the notes.
ghost use Rattle.std.specs.Prelude.{◌≡◌, ◌++◌, codes, decimal};
ghost use Rattle.query_command.specs.Ends.{note, note_line, status};
ghost use Rattle.query_command.specs.Writing.{IsNoted, Prints, Tells};
ghost use Rattle.query_command.specs.WritingSteps.{Wrote};
ghost use Rattle.query_command.specs.declared.ends.End.TheVariants as ends;

use crate::edge::Edge;
use crate::ends::{End, Note};
use edge_core::{Clock, Flushing, Gate, Sink, Source, Store, write_all};
use itoa::Buffer;

// Whether all was written.
fn write_text<K: Sink>(sink: &mut K, bytes: &[u8]) -> bool
    ensures { Wrote (K.holds sink.old) (K.holds sink.new) (K.faults sink.old) (K.faults sink.new) bytes.now result }
{
    match write_all(sink, bytes) {
        Ok(()) => true,
        Err(_) => false,
    }
}

// Whether both were written, one after the other.
fn write_both<K: Sink>(sink: &mut K, first: &[u8], second: &[u8]) -> bool
    ensures { Wrote (K.holds sink.old) (K.holds sink.new) (K.faults sink.old) (K.faults sink.new) (first.now ++ second.now) result }
{
    if !write_text(sink, first) {
        return false;
    }
    write_text(sink, second)
}

// A number in decimal, and the end of the line.
fn write_last<K: Sink>(sink: &mut K, number: u64) -> bool
    ensures { Wrote (K.holds sink.old) (K.holds sink.new) (K.faults sink.old) (K.faults sink.new) (decimal number ++ codes "\n") result }
{
    write_both(
        sink,
        Buffer::new().format(number).as_bytes(),
        b"\n".as_slice(),
    )
}

fn write_numbered<K: Sink>(sink: &mut K, text: &[u8], number: u64) -> bool
    ensures { Wrote (K.holds sink.old) (K.holds sink.new) (K.faults sink.old) (K.faults sink.new) (text.now ++ (decimal number ++ codes "\n")) result }
{
    if !write_text(sink, text) {
        return false;
    }
    write_last(sink, number)
}

fn write_space<K: Sink>(sink: &mut K) -> bool
    ensures { Wrote (K.holds sink.old) (K.holds sink.new) (K.faults sink.old) (K.faults sink.new) (codes " ") result }
{
    write_text(sink, b" ".as_slice())
}

// A word, and the end of the line.
fn write_end<K: Sink>(sink: &mut K, word: &[u8]) -> bool
    ensures { Wrote (K.holds sink.old) (K.holds sink.new) (K.faults sink.old) (K.faults sink.new) (word.now ++ codes "\n") result }
{
    write_both(sink, word, b"\n".as_slice())
}

// A word behind a space, and the end of the line.
fn write_word<K: Sink>(sink: &mut K, word: &[u8]) -> bool
    ensures { Wrote (K.holds sink.old) (K.holds sink.new) (K.faults sink.old) (K.faults sink.new) (codes " " ++ (word.now ++ codes "\n")) result }
{
    if !write_space(sink) {
        return false;
    }
    write_end(sink, word)
}

fn write_digits<K: Sink>(sink: &mut K, number: u64) -> bool
    ensures { Wrote (K.holds sink.old) (K.holds sink.new) (K.faults sink.old) (K.faults sink.new) (decimal number) result }
{
    write_text(sink, Buffer::new().format(number).as_bytes())
}

fn write_status<K: Sink>(sink: &mut K, status: u16, word: &[u8]) -> bool
    ensures { Wrote (K.holds sink.old) (K.holds sink.new) (K.faults sink.old) (K.faults sink.new) (decimal status ++ (codes " " ++ (word.now ++ codes "\n"))) result }
{
    if !write_digits(sink, status as u64) {
        return false;
    }
    write_word(sink, word)
}

fn write_refusal<K: Sink>(sink: &mut K) -> bool
    ensures { Wrote (K.holds sink.old) (K.holds sink.new) (K.faults sink.old) (K.faults sink.new) (codes "share: refused ") result }
{
    write_text(sink, b"share: refused ".as_slice())
}

// That a peer refused, with which status, and the word of why.
fn write_refused<K: Sink>(sink: &mut K, status: u16, word: &[u8]) -> bool
    ensures { Wrote (K.holds sink.old) (K.holds sink.new) (K.faults sink.old) (K.faults sink.new) (codes "share: refused " ++ (decimal status ++ (codes " " ++ (word.now ++ codes "\n")))) result }
{
    if !write_refusal(sink) {
        return false;
    }
    write_status(sink, status, word)
}

// A line of the notes. It takes no memory, so that want of memory can be told too.
fn write_note<K: Sink>(sink: &mut K, note: &Note) -> bool
    ensures { Wrote (K.holds sink.old) (K.holds sink.new) (K.faults sink.old) (K.faults sink.new) (note_line note.now) result }
{
    match note {
        Note::Plain(text) => write_both(sink, text.as_bytes(), b"\n".as_slice()),
        Note::Numbered(text, number) => write_numbered(sink, text.as_bytes(), *number),
        Note::Refused(status, word) => write_refused(sink, *status, word.as_bytes()),
    }
}

// Whether all was written, and handed on as far as the sink can.
fn write_through<K: Sink>(sink: &mut K, bytes: &[u8]) -> bool
    ensures { Wrote (K.holds sink.old) (K.holds sink.new) (K.faults sink.old) (K.faults sink.new) bytes.now result }
{
    if !write_text(sink, bytes) {
        return false;
    }
    match sink.flush() {
        Flushing::Flushed => true,
        Flushing::Failed => false,
    }
}

/// Writes bytes to the output, and hands them on. The end is `End::Done`, or `End::WriteFault` where the output's count of faults rose:
/// then a front of the bytes is written.
pub fn print<S: Source, K: Sink, M: Sink, W: Store, C: Clock, G: Gate, L>(
    edge: &mut Edge<S, K, M, W, C, G, L>,
    text: &[u8],
) -> End
    ensures prints { Prints text.now edge.old edge.new result }
{
    if write_through(&mut edge.output, text) {
        End::Done
    } else {
        End::WriteFault
    }
}

/// Writes the line of an end to the notes. A fault in writing it changes no status.
pub fn tell<S: Source, K: Sink, M: Sink, W: Store, C: Clock, G: Gate, L>(
    edge: &mut Edge<S, K, M, W, C, G, L>,
    end: &End,
)
    ensures { Tells edge.old edge.new (note end.now) }
{
    if let Some(note) = end.note() {
        write_note(&mut edge.notes, &note);
    }
}

/// Writes the line for want of memory to the notes, and answers its status, which a fault in writing it doesn't change.
pub fn tell_memory<M: Sink>(notes: &mut M) -> u8
    ensures status { result ≡ status ends.NoMemory }
    ensures noted { IsNoted (M.holds notes.old) (M.holds notes.new) (M.faults notes.old) (M.faults notes.new) (note ends.NoMemory) }
{
    if let Some(note) = End::NoMemory.note() {
        write_note(notes, &note);
    }
    End::NoMemory.status()
}
