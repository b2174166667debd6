// Objects in memory, in byte order of name.
ghost use Rattle.std.specs.Prelude.{◌≡◌, ◌+◌, ◌++◌, ◌≤◌, length, take, drop, None, IfOk, map, option_map, string_bytes, if◌then◌else◌, IsTrue, IfSome};
ghost use Rattle.std.specs.Ordering.{nat_cmp};
ghost use Rattle.std.specs.Cmp.Lexicographic.{slice_cmp};
ghost use Rattle.std.specs.FinMap as finmap;
ghost use Rattle.edge_core.specs.Objects.{after_prefix, segment_in, segments_in, listing};
ghost use Rattle.edge_core.specs.Names.{is_name, is_one_segment};
ghost use Rattle.edge_core.specs.Stored.{is_named, stored_objects, rank, has_room, with_one};
ghost use Rattle.std.specs.List.{insert, list_all};
ghost use Rattle.std.specs.Str.{is_utf8};
ghost use Rattle.std.specs.Vec.{vec_capacity};

use crate::{Name, Segment, Segments};
use std::alloc::{AllocError, Global};
use std::marker::Model;

/// An object in memory.
#[derive(Drop)]
pub struct Stored {
    /// The name of the object.
    pub name: Name,
    /// What it holds.
    pub bytes: Vec<u8>,
}

// Where a name and its bytes lie.
#[derive(Drop)]
pub(crate) struct Slot {
    at: usize,
    name: usize,
    from: usize,
    size: usize,
}

// Objects by name, with room for a number of objects and of bytes of names and objects, which is taken when it is made.
#[derive(Drop)]
pub(crate) struct Shelf {
    text: Vec<u8>,
    slots: Vec<Slot>,
    objects: usize,
    bytes: usize,
}

impl Model for Shelf {
    ghost use Rattle.std.specs.Coded.{coded_ℕ, coded_list, coded×};
    ghost use Rattle.std.specs.Vec.{vec_capacity};
    ghost use Rattle.std.specs.FinMap as finmap;
    ghost use Rattle.edge_core.specs.Stored.{Shelved, IsShelf, stored_objects};

    ghost Value = { Shelved };

    ghost coded = { coded× (finmap.code (coded_list coded_ℕ) (coded_list coded_ℕ)) (coded× coded_ℕ coded_ℕ) };

    ghost view = { λ s. (finmap.from_sorted (stored_objects s.text.items s.slots.items), (s.objects, s.bytes)) };

    ghost invariant = { λ s. IsShelf s.text.items s.slots.items s.objects s.bytes (vec_capacity s.slots) (vec_capacity s.text) };
}

// At most n bytes from a place on.
fn part(text: &[u8], at: usize, n: usize) -> &[u8]
    ensures { result.now ≡ take n (drop at text.now) }
{
    match text.get(at..) {
        Some(rest) => match rest.get(..n) {
            Some(front) => front,
            None => rest,
        },
        None => &[],
    }
}

// The name that a slot says, which is text.
fn name_at<'a>(text: &'a [u8], slot: &Slot) -> &'a str
    requires { IsTrue (is_utf8 (take slot.now.name (drop slot.now.at text.now))) }
    ensures { result.now ≡ take slot.now.name (drop slot.now.at text.now) }
{
    match str::from_utf8(part(text, slot.at, slot.name)) {
        Ok(name) => name,
        Err(_) => unreachable!(),
    }
}

// The bytes that a slot says.
fn bytes_at<'a>(text: &'a [u8], slot: &Slot) -> &'a [u8]
    ensures { result.now ≡ take slot.now.size (drop slot.now.from text.now) }
{
    part(text, slot.from, slot.size)
}

// The bytes of the object of that name.
fn found<'a>(text: &'a [u8], slots: &[Slot], name: &str) -> Option<&'a [u8]>
    ensures { option_map (λ b. b.now) result ≡ finmap.find (slice_cmp nat_cmp) name.now (stored_objects text.now slots.now) }
{
    for slot in slots {
        if name.as_bytes().cmp(part(text, slot.at, slot.name)).is_eq() {
            return Some(bytes_at(text, slot));
        }
    }
    None
}

// How many of the first names are below a name.
fn place_of(text: &[u8], slots: &[Slot], name: &str) -> usize
    ensures rank { result ≡ rank name.now (stored_objects text.now slots.now) }
    ensures within { result ≤ length slots.now }
{
    let mut place = 0;
    for slot in slots {
        if !name.as_bytes().cmp(part(text, slot.at, slot.name)).is_gt() {
            return place;
        }
        place += 1;
    }
    place
}

// What follows a prefix.
fn after<'a>(prefix: &str, text: &'a str) -> Option<&'a str>
    ensures { option_map (λ s. s.now) result ≡ after_prefix prefix.now text.now }
{
    text.strip_prefix(prefix)
}

// The last segment of a name that stands directly in a folder.
fn last_segment<'a>(dir: &str, name: &'a str) -> Option<&'a str>
    requires { IsTrue (is_name name.now) }
    ensures segment { option_map (λ s. s.now) result ≡ segment_in dir.now name.now }
    ensures one { IfSome result (λ s. IsTrue (is_one_segment s.now)) }
{
    let segment = after("/", after(dir, name)?)?;
    if segment.as_bytes().contains(&b'/') {
        None
    } else {
        Some(segment)
    }
}

// The last segments of the objects directly in a folder.
fn segments_of(
    alloc: Global,
    text: &[u8],
    slots: &[Slot],
    dir: &str,
) -> Result<Vec<Segment>, AllocError>
    requires { IsTrue (list_all is_named (stored_objects text.now slots.now)) }
    ensures { IfOk result (λ v. v.items ≡ segments_in dir.now (stored_objects text.now slots.now)) }
{
    let mut found = Vec::new(alloc);
    for slot in slots {
        if let Some(segment) = last_segment(dir, name_at(text, slot)) {
            found.push(Segment::of_part(alloc, segment)?)?;
        }
    }
    Ok(found)
}

// Appends a name and bytes, for which there is room.
fn append(text: &mut Vec<u8>, name: &[u8], bytes: &[u8])
    requires room { length name.now + length bytes.now + length text.old.items ≤ vec_capacity text.old }
    ensures items { text.new.items ≡ text.old.items ++ (name.now ++ bytes.now) }
    ensures len { length text.new.items ≡ length name.now + length bytes.now + length text.old.items }
    ensures capacity { vec_capacity text.old ≤ vec_capacity text.new }
{
    let _ = text.extend_from_slice(name);
    let _ = text.extend_from_slice(bytes);
}

// Puts a slot at its place, for which there is room.
fn put_slot(slots: &mut Vec<Slot>, place: usize, slot: Slot)
    requires place { place ≤ length slots.old.items }
    requires room { length slots.old.items + 1 ≤ vec_capacity slots.old }
    ensures items { slots.new.items ≡ insert slots.old.items place slot }
    ensures len { length slots.new.items ≡ length slots.old.items + 1 }
    ensures capacity { vec_capacity slots.old ≤ vec_capacity slots.new }
{
    let _ = slots.insert(place, slot);
}

impl Shelf {
    // A shelf with room for so many objects and bytes.
    pub(crate) fn new(alloc: Global, objects: usize, bytes: usize) -> Result<Shelf, AllocError>
        ensures { IfOk result (λ s. s ≡ (finmap.empty, (objects, bytes))) }
    {
        Ok(Shelf {
            text: Vec::with_capacity(alloc, bytes)?,
            slots: Vec::with_capacity(alloc, objects)?,
            objects,
            bytes,
        })
    }

    pub(crate) fn get(&self, name: &Name) -> Option<&[u8]>
        ensures { option_map (λ b. b.now) result ≡ finmap.get self.now.0 name.now }
    {
        found(&self.text, &self.slots, name.as_str())
    }

    // Puts an object of a new name, exactly where there is room.
    pub(crate) fn add(&mut self, name: &Name, bytes: &[u8]) -> bool
        requires new { finmap.get self.old.0 name.now ≡ None }
        ensures room { result ≡ has_room self.old name.now bytes.now }
        ensures gives { self.new ≡ (if result then with_one self.old name.now bytes.now else self.old) }
    {
        let text = name.as_str();
        if self.objects == 0 || text.len() > self.bytes || bytes.len() > self.bytes - text.len() {
            return false;
        }
        let place = place_of(&self.text, &self.slots, text);
        let slot = Slot {
            at: self.text.len(),
            name: text.len(),
            from: self.text.len() + text.len(),
            size: bytes.len(),
        };
        append(&mut self.text, text.as_bytes(), bytes);
        put_slot(&mut self.slots, place, slot);
        self.objects -= 1;
        self.bytes -= text.len() + bytes.len();
        true
    }

    pub(crate) fn list(&self, alloc: Global, dir: &Name) -> Result<Segments, AllocError>
        ensures { IfOk result (λ names. names ≡ listing dir.now self.now.0) }
    {
        Ok(Segments::of(segments_of(alloc, &self.text, &self.slots, dir.as_str())?))
    }
}
