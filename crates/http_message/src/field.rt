// The fields of a head.
ghost use Rattle.std.specs.Prelude.{◌≡◌, ◌<◌, ◌++◌, [], ◌∷◌, IfOk, OnErr, OnOk, count_by, length, slice_index_or};
ghost use Rattle.http_message.specs.Fields.{is_named, first_named};

use crate::text::same_text;
use std::alloc::{AllocError, Global};
use std::marker::Model;

// Where a field stands in the text of all fields: its name, up to the middle, and its value, from there.
#[derive(Clone, Copy)]
struct Place {
    start: usize,
    middle: usize,
    end: usize,
}

/// The fields of a head, in order (RFC 9110, section 5). Contracts see them as pairs of a name, in the letters' case of the
/// message, and a value, without the white space around it, which need not be text.
///
/// The names and values of all fields stand in one buffer.
#[derive(Drop)]
pub struct Fields {
    text: Vec<u8>,
    places: Vec<Place>,
}

impl Model for Fields {
    ghost use Rattle.std.specs.Prelude.{List, ℕ, All, length, map};
    ghost use Rattle.http_message.specs.Fields.{field_at, IsWithin};

    ghost Value = { List (List ℕ × List ℕ) };

    ghost view = { λ f. map (field_at f.text.items) f.places.items };

    ghost invariant = { λ f. All (IsWithin (length f.text.items)) f.places.items };
}

impl Fields {
    /// No fields, with room for so many bytes of names and values, and so many fields.
    ///
    /// The error is want of memory.
    pub fn with_capacity(alloc: Global, bytes: usize, count: usize) -> Result<Fields, AllocError>
        ensures { IfOk result (λ fields. fields ≡ []) }
    {
        Ok(Fields {
            text: Vec::with_capacity(alloc, bytes)?,
            places: Vec::with_capacity(alloc, count)?,
        })
    }

    /// Puts a field of that name and value behind the others.
    ///
    /// The error is want of memory, and leaves the fields as they were.
    pub fn push(&mut self, name: &[u8], value: &[u8]) -> Result<(), AllocError>
        ensures ok { OnOk result (self.new ≡ self.old ++ (name.now, value.now) ∷ []) }
        ensures err { OnErr result (self.new ≡ self.old) }
    {
        let start = self.text.len();
        self.text.extend_from_slice(name)?;
        let middle = self.text.len();
        self.text.extend_from_slice(value)?;
        let end = self.text.len();
        self.places.push(Place { start, middle, end })?;
        Ok(())
    }

    /// How many fields there are.
    pub fn len(&self) -> usize
        ensures { result ≡ length self.now }
    {
        self.places.len()
    }

    /// The name of the field at that index, counted from 0, in the letters' case of the message.
    pub fn name(&self, index: usize) -> &[u8]
        requires { index < length self.now }
        ensures { result.now ≡ (slice_index_or self.now index ([], [])).0 }
    {
        let Place { start, middle, .. } = self.places[index];
        &self.text[start..middle]
    }

    /// The value of the field at that index, counted from 0, without the white space around it.
    pub fn value(&self, index: usize) -> &[u8]
        requires { index < length self.now }
        ensures { result.now ≡ (slice_index_or self.now index ([], [])).1 }
    {
        let Place { middle, end, .. } = self.places[index];
        &self.text[middle..end]
    }

    // Whether the field at that index has the name, in any case.
    pub(crate) fn is_named(&self, index: usize, name: &str) -> bool
        requires { index < length self.now }
        ensures { result ≡ is_named name.now (slice_index_or self.now index ([], [])) }
    {
        same_text(self.name(index), name.as_bytes())
    }
}

/// How many fields have the name, in any case.
pub fn count_named(fields: &Fields, name: &str) -> usize
    ensures { result ≡ count_by (is_named name.now) fields.now }
{
    let mut count = 0;
    for index in 0..fields.len() {
        if fields.is_named(index, name) {
            count += 1;
        }
    }
    count
}

/// The value of the first field that has the name, in any case; the empty value where none has.
pub fn first_named<'a>(fields: &'a Fields, name: &str) -> &'a [u8]
    ensures { result.now ≡ first_named name.now fields.now }
{
    for index in 0..fields.len() {
        if fields.is_named(index, name) {
            return fields.value(index);
        }
    }
    &[]
}
