// The bytes that were read from a source and not yet used.
ghost use Rattle.std.specs.Prelude.{◌≡◌, ◌≤◌, ◌<◌, ◌+◌, ◌-◌, ◌^◌, ◌*◌, [], IfOk, OnOk, drop, length, max, min, vec_capacity};
ghost use Rattle.http_wire.specs.Fills.{Awaits, Fills, GoesBehind, IsDrained, MovesSome, RoseAtFault};
ghost use Rattle.http_wire.specs.Streams.{Drew};

use edge_core::{Source, Took};
use std::alloc::{AllocError, Global};
use std::marker::Model;

// How many bytes are asked for in one read.
const PIECE: usize = 8192;

/// What came of one read.
#[derive(Clone, Copy, Debug, PartialEq, Eq)]
pub(crate) enum Filled {
    /// Bytes came, and stand behind those that were there.
    More,
    /// The source has ended.
    End,
}

/// Why reading halted.
#[derive(Clone, Copy, Debug, PartialEq, Eq)]
pub(crate) enum Halt {
    /// Memory was wanting.
    NoMemory,
    /// A read failed.
    Fault,
}

impl From<AllocError> for Halt {
    ghost use Rattle.std.specs.Prelude.{◌≡◌};
    ghost use Rattle.http_wire.specs.declared.inbox.Halt.TheVariants.{NoMemory};

    ghost from_gives = { λ _ e. e ≡ NoMemory };

    fn from(_error: AllocError) -> Halt {
        Halt::NoMemory
    }
}

/// Bytes that were read and not yet used, and the place of the first of them in the stream, which stands still at 2^64 - 1.
/// Contracts see both.
#[derive(Drop)]
pub(crate) struct Inbox {
    buffer: Vec<u8>,
    at: usize,
    place: u64,
    // What reads go into. It is made at the first read.
    piece: Vec<u8>,
}

impl Model for Inbox {
    ghost use Rattle.std.specs.Prelude.{List, ℕ, ◌≤◌, drop, length};

    ghost Value = { List ℕ × ℕ };

    ghost view = { λ i. (drop i.at i.buffer.items, i.place) };

    ghost invariant = { λ i. i.at ≤ length i.buffer.items };
}

impl Inbox {
    pub(crate) fn new(alloc: Global) -> Inbox
        ensures { result ≡ ([], 0) }
    {
        Inbox {
            buffer: Vec::new(alloc),
            at: 0,
            place: 0,
            piece: Vec::new(alloc),
        }
    }

    /// The bytes.
    pub(crate) fn bytes(&self) -> &[u8]
        ensures { result.now ≡ self.now.0 }
    {
        &self.buffer[self.at..]
    }

    /// The place of the first byte.
    pub(crate) fn place(&self) -> u64
        ensures { result ≡ self.now.1 }
    {
        self.place
    }

    /// Takes the first bytes away.
    pub(crate) fn consume(&mut self, count: usize)
        requires { count ≤ length self.old.0 }
        ensures bytes { self.new.0 ≡ drop count self.old.0 }
        ensures place { self.new.1 ≡ min (self.old.1 + count) (2 ^ 64 - 1) }
    {
        self.at += count;
        self.place = self.place.saturating_add(count as u64);
    }

    // Moves the bytes to the front of the buffer, where no more of them are left than were used.
    fn compact(&mut self)
        ensures { self.new ≡ self.old }
    {
        let left = self.buffer.len() - self.at;
        if self.at >= left {
            self.buffer.copy_within(self.at.., 0);
            self.buffer.truncate(left);
            self.at = 0;
        }
    }

    /// Reads once. Want of memory comes before the read.
    pub(crate) fn fill<S: Source>(&mut self, source: &mut S) -> Result<Filled, Halt>
        ensures draws { Awaits S.left (λ b. b ≡ self.old.0) self.old self.new source.old source.new }
        ensures told { Fills self.old.0 self.new.0 (S.left source.new) result }
        ensures later { S.faults source.old ≤ S.faults source.new }
        ensures cause { RoseAtFault (S.faults source.old) (S.faults source.new) result }
    {
        self.compact();
        self.buffer.reserve(PIECE)?;
        let piece = lend(&mut self.piece, PIECE)?;
        match source.read(piece) {
            Took::Bytes(count) => {
                self.buffer.extend_from_slice(&piece[..count])?;
                Ok(Filled::More)
            }
            Took::End => Ok(Filled::End),
            Took::Failed => Err(Halt::Fault),
        }
    }

    // Puts the first bytes behind the body, at most so many, and uses them.
    fn drain(&mut self, most: usize, body: &mut Vec<u8>) -> Result<(), Halt>
        ensures { IsDrained most self.old self.new body.old.items body.new.items result }
    {
        let count = self.bytes().len().min(most);
        body.extend_from_slice(&self.bytes()[..count])?;
        self.consume(count);
        Ok(())
    }

    // Reads once, where no bytes are left here, at most so many bytes, and puts what came behind the body, as used. Want of
    // memory comes before the read.
    fn pour<S: Source>(
        &mut self,
        source: &mut S,
        most: usize,
        body: &mut Vec<u8>,
    ) -> Result<Filled, Halt>
        requires empty { self.old.0 ≡ [] }
        requires some { 0 < most }
        ensures later { S.faults source.old ≤ S.faults source.new }
        ensures cause { RoseAtFault (S.faults source.old) (S.faults source.new) result }
        ensures moved { Drew S.left (λ b. b ≡ []) self.old self.new source.old source.new (λ used. GoesBehind most body.old.items body.new.items used × MovesSome used self.new.0 (S.left source.new) result) }
    {
        let size = most.min(PIECE);
        make_room(body, size, most)?;
        let piece = lend(&mut self.piece, size)?;
        match source.read(piece) {
            Took::Bytes(count) => {
                body.extend_from_slice(&piece[..count])?;
                self.place = self.place.saturating_add(count as u64);
                Ok(Filled::More)
            }
            Took::End => Ok(Filled::End),
            Took::Failed => Err(Halt::Fault),
        }
    }

    /// Puts some bytes behind the body, at most so many, as used: bytes that are here, or where none are, those of one read.
    /// Where fewer than a piece are wanted, the read takes what follows too. Want of memory comes before bytes are used.
    pub(crate) fn move_some<S: Source>(
        &mut self,
        source: &mut S,
        most: usize,
        body: &mut Vec<u8>,
    ) -> Result<Filled, Halt>
        requires { 0 < most }
        ensures later { S.faults source.old ≤ S.faults source.new }
        ensures cause { RoseAtFault (S.faults source.old) (S.faults source.new) result }
        ensures moved { Drew S.left (λ b. b ≡ []) self.old self.new source.old source.new (λ used. GoesBehind most body.old.items body.new.items used × MovesSome used self.new.0 (S.left source.new) result) }
    {
        if self.bytes().is_empty() {
            if most >= PIECE {
                return self.pour(source, most, body);
            }
            match self.fill(source)? {
                Filled::More => {}
                Filled::End => return Ok(Filled::End),
            }
        }
        self.drain(most, body)?;
        Ok(Filled::More)
    }
}

// So many bytes to read into, of a piece that is made once.
fn lend(piece: &mut Vec<u8>, size: usize) -> Result<&mut [u8], AllocError>
    requires { size ≤ 8192 }
    ensures { IfOk result (λ lent. length lent.now ≡ size) }
{
    if piece.len() < PIECE {
        piece.extend_from_slice(&[0; PIECE])?;
    }
    Ok(&mut piece[..size])
}

// Makes room for so many bytes behind the body, of which at most `most` are to come. Where it grows it doubles what came, but not
// beyond those bytes: bytes that are announced and don't come cost nothing.
fn make_room(body: &mut Vec<u8>, size: usize, most: usize) -> Result<(), AllocError>
    requires { size ≤ most }
    ensures items { body.new.items ≡ body.old.items }
    ensures room { OnOk result (length body.old.items + size ≤ vec_capacity body.new) }
    ensures announced { vec_capacity body.new ≤ max (vec_capacity body.old) (length body.old.items + most) }
    ensures came { vec_capacity body.new ≤ max (vec_capacity body.old) (2 * max (length body.old.items) size) }
{
    if body.capacity() - body.len() < size {
        body.reserve_exact(most.min(body.len().max(size)))?;
    }
    Ok(())
}
