// A store over another that is far away.
ghost use Rattle.std.specs.Prelude.{◌≤◌, length};

use edge_core::{Got, Listed, Measured, Name, Put, Store};
use std::alloc::Global;

// The most bytes that are asked for at once, where a caller asks for fewer.
const MOST: usize = 1_048_576;

/// A handle of a store that passes each call on, but for a read that goes on where the last one of the same object ended and filled its room.
/// Then it asks for a piece from there on, twice as long as what was asked for before and of 1 MiB at most, keeps it, and answers from it the
/// reads that fall into it: as the store would, since objects never change.
///
/// It tells nothing of the objects, and doesn't say that it is alone.
#[derive(Drop)]
pub struct AheadStore<S> {
    alloc: Global,
    store: S,
    // The object that was read last, where more of it may be asked for.
    name: Option<String>,
    // What of it is kept, and the place of the first of these bytes. Reading goes on at their end.
    kept: Vec<u8>,
    start: u64,
    // How many bytes were asked for last.
    asked: usize,
}

// Where a read begins, seen from the one before.
enum Place {
    // At a kept byte, with so many before it.
    Kept(usize),
    // At their end.
    End,
    Elsewhere,
}

// Copies as many of the bytes as fit to the front of `out`.
fn copy_front(bytes: &[u8], out: &mut [u8]) -> usize
    ensures within { result ≤ length out.new }
{
    let count = bytes.len().min(out.len());
    out[..count].copy_from_slice(&bytes[..count]);
    count
}

impl<S> AheadStore<S> {
    ghost use Rattle.std.specs.Prelude.{◌≡◌, ◌≤◌, length};

    /// A handle of that store.
    pub fn new(alloc: Global, store: S) -> AheadStore<S> {
        AheadStore {
            alloc,
            store,
            name: None,
            kept: Vec::new(alloc),
            start: 0,
            asked: 0,
        }
    }

    fn place_of(&self, from: u64) -> Place {
        let Some(skip) = from.checked_sub(self.start) else {
            return Place::Elsewhere;
        };
        match usize::try_from(skip) {
            Ok(skip) if skip < self.kept.len() => Place::Kept(skip),
            Ok(skip) if skip == self.kept.len() => Place::End,
            _ => Place::Elsewhere,
        }
    }

    fn place_in(&self, name: &Name, from: u64) -> Place {
        match &self.name {
            Some(last) if last.as_str() == name.as_str() => self.place_of(from),
            _ => Place::Elsewhere,
        }
    }

    // Copies the kept bytes from a place on, as many as fit.
    fn copy_kept(&self, skip: usize, out: &mut [u8]) -> usize
        ensures within { result ≤ length out.new }
    {
        match self.kept.get(skip..) {
            Some(rest) => copy_front(rest, out),
            None => 0,
        }
    }

    // Nothing is kept, and of no object is more expected.
    fn forget(&mut self)
        ensures store { self.new.store ≡ self.old.store }
    {
        self.name = None;
        self.kept = Vec::new(self.alloc);
    }

    // More of the object may be asked for from the end of these bytes on, of which the first is at that place.
    fn keep(&mut self, name: &Name, start: u64, bytes: Vec<u8>, asked: usize)
        ensures store { self.new.store ≡ self.old.store }
    {
        self.name = String::from_str(self.alloc, name.as_str()).ok();
        self.start = start;
        self.kept = bytes;
        self.asked = asked;
    }

    // Notes a read that was passed on. Where it didn't fill its room, the object ends behind it.
    fn note(&mut self, name: &Name, from: u64, got: Got, room: usize)
        ensures store { self.new.store ≡ self.old.store }
    {
        match got {
            Got::Bytes(count) if count == room => {
                let end = from.saturating_add(count as u64);
                self.keep(name, end, Vec::new(self.alloc), room);
            }
            _ => self.forget(),
        }
    }
}

impl<S: Store> AheadStore<S> {
    ghost use Rattle.std.specs.Prelude.{◌≡◌, ◌<◌, None, false, length, vec_len};
    ghost use Rattle.edge_core.specs.Faults.{Cause};
    ghost use Rattle.edge_core.specs.Objects.{Gets, failed_get};

    fn pass_on(&mut self, name: &Name, from: u64, out: &mut [u8]) -> Got
        requires { 0 < length out.old }
        ensures bytes { Gets None None false name.now from result out.new }
        ensures cause { Cause (S.faults self.old.store) (S.faults self.new.store) (failed_get result) }
        ensures stored { S.stored self.new.store ≡ S.stored self.old.store }
    {
        let got = self.store.get(name, from, out);
        self.note(name, from, got, out.len());
        got
    }

    // Reads a piece of that length, keeps it, and answers from it.
    fn read_ahead(&mut self, name: &Name, from: u64, mut piece: Vec<u8>, out: &mut [u8]) -> Got
        requires { 0 < vec_len piece }
        ensures bytes { Gets None None false name.now from result out.new }
        ensures cause { Cause (S.faults self.old.store) (S.faults self.new.store) (failed_get result) }
        ensures stored { S.stored self.new.store ≡ S.stored self.old.store }
    {
        let asked = piece.len();
        let got = self.store.get(name, from, &mut piece);
        match got {
            Got::Bytes(count) => {
                piece.truncate(count);
                let copied = copy_front(&piece, out);
                self.keep(name, from, piece, asked);
                Got::Bytes(copied)
            }
            _ => {
                self.forget();
                got
            }
        }
    }

    // Reads on where the last read ended.
    fn read_on(&mut self, name: &Name, from: u64, out: &mut [u8]) -> Got
        requires { 0 < length out.old }
        ensures bytes { Gets None None false name.now from result out.new }
        ensures cause { Cause (S.faults self.old.store) (S.faults self.new.store) (failed_get result) }
        ensures stored { S.stored self.new.store ≡ S.stored self.old.store }
    {
        let length = self.asked.saturating_mul(2).min(MOST);
        if length <= out.len() {
            return self.pass_on(name, from, out);
        }
        match vec![in self.alloc; 0u8; length] {
            Ok(piece) => self.read_ahead(name, from, piece, out),
            Err(_) => self.pass_on(name, from, out),
        }
    }
}

impl<S: Store> Store for AheadStore<S> {
    ghost use Rattle.std.specs.Prelude.{None, false};

    ghost objects = { λ _. None };

    ghost alone = { λ _. false };

    ghost faults = { λ s. S.faults s.store };

    ghost stored = { λ s. S.stored s.store };

    fn get(&mut self, name: &Name, from: u64, out: &mut [u8]) -> Got {
        match self.place_in(name, from) {
            Place::Kept(skip) => Got::Bytes(self.copy_kept(skip, out)),
            Place::End => self.read_on(name, from, out),
            Place::Elsewhere => self.pass_on(name, from, out),
        }
    }

    fn size(&mut self, name: &Name) -> Measured {
        self.store.size(name)
    }

    fn put_absent(&mut self, name: &Name, bytes: &[u8]) -> Put {
        self.store.put_absent(name, bytes)
    }

    fn lists_at_once(&self) -> bool {
        self.store.lists_at_once()
    }

    fn list(&mut self, alloc: Global, dir: &Name) -> Listed {
        self.store.list(alloc, dir)
    }
}
