// The elements of a document.
ghost use Rattle.std.specs.Prelude.{◌≡◌, [], ◌∷◌, ◌++◌, map, IfOk, OnOk};
ghost use Rattle.bucket_text.specs.Faults.{Gives};
ghost use Rattle.bucket_text.specs.Elements as spec;

use crate::fault::Fault;
use crate::name::{is_blank, parts_of};
use crate::tag::take_piece;
use std::alloc::{AllocError, Global};
use std::marker::Model;

/// An element: the names from the document's element down to it, each behind a slash, and the text behind its opening tag, as it is spelt.
/// Contracts see both.
#[derive(Drop)]
pub struct Element<'a> {
    path: Vec<u8>,
    text: &'a [u8],
}

impl<'a> Model for Element<'a> {
    ghost use Rattle.std.specs.Prelude.{List, ℕ};

    ghost Value = { List ℕ × List ℕ };

    ghost view = { λ e. (e.path.items, e.text.now) };
}

impl<'a> Element<'a> {
    /// The element of this path and text. The error is want of memory.
    pub fn of(alloc: Global, path: &[u8], text: &'a [u8]) -> Result<Element<'a>, AllocError>
        ensures { IfOk result (λ e. e ≡ (path.now, text.now)) }
    {
        Ok(Element {
            path: Vec::from_slice(alloc, path)?,
            text,
        })
    }

    /// The path.
    pub fn path(&self) -> &[u8]
        ensures { result.now ≡ self.now.0 }
    {
        &self.path
    }

    /// The text.
    pub fn text(&self) -> &'a [u8]
        ensures { result.now ≡ self.now.1 }
    {
        self.text
    }
}

/// Adds the element of this path and text behind the others.
pub(crate) fn push_element<'a>(
    alloc: Global,
    elements: &mut Vec<Element<'a>>,
    path: &[u8],
    text: &'a [u8],
) -> Result<(), AllocError>
    ensures { OnOk result (elements.new.items ≡ elements.old.items ++ (path.now, text.now) ∷ []) }
{
    elements.push(Element::of(alloc, path, text)?)?;
    Ok(())
}

// Takes over all pieces.
fn take_pieces<'a>(
    alloc: Global,
    path: &mut Vec<u8>,
    elements: &mut Vec<Element<'a>>,
    pieces: &[&'a [u8]],
) -> Result<(), Fault>
    ensures { Gives (λ _. (path.new.items, elements.new.items)) result (spec.with_pieces (path.old.items, elements.old.items) (map (λ x. x.now) pieces.now)) }
{
    for piece in pieces {
        match take_piece(alloc, path, elements, piece) {
            Ok(()) => {}
            Err(fault) => return Err(fault),
        }
    }
    Ok(())
}

/// The elements of a document, in the order in which they begin, or why it isn't read.
#[tactic(auto, unfolding(crate::specs::Elements::elements_of))]
pub fn elements_of<'a>(alloc: Global, text: &'a [u8]) -> Result<Vec<Element<'a>>, Fault>
    ensures { Gives (λ v. v.items) result (spec.elements_of text.now) }
{
    let parts = parts_of(alloc, text, b'<')?;
    let Some((front, pieces)) = parts.split_first() else {
        return Err(Fault::Bad);
    };
    if !is_blank(front) {
        return Err(Fault::Bad);
    }
    let mut path = Vec::new(alloc);
    let mut elements = Vec::new(alloc);
    take_pieces(alloc, &mut path, &mut elements, pieces)?;
    if path.is_empty() {
        Ok(elements)
    } else {
        Err(Fault::Bad)
    }
}
