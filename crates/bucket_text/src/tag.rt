// What a tag opens or closes.
ghost use Rattle.std.specs.Prelude.{◌≡◌, ◌-◌, bytes_eq, drop, length};
ghost use Rattle.bucket_text.specs.Faults.{Gives};
ghost use Rattle.bucket_text.specs.Tags.{is_closing, is_empty_tag, is_prolog};
ghost use Rattle.bucket_text.specs.Elements as spec;

use crate::elements::{Element, push_element};
use crate::fault::Fault;
use crate::name::{cut, is_blank, name_of};
use std::alloc::Global;

// Whether a path ends with the tag, which begins with a slash.
fn is_closed_by(path: &[u8], tag: &[u8]) -> bool
    ensures { result ≡ bytes_eq (drop (length path.now - length tag.now) path.now) tag.now }
{
    &path[path.len().saturating_sub(tag.len())..] == tag
}

fn is_closing(tag: &[u8]) -> bool
    ensures { result ≡ is_closing tag.now }
{
    !tag.is_empty() && tag[0] == b'/'
}

fn is_prolog(tag: &[u8]) -> bool
    ensures { result ≡ is_prolog tag.now }
{
    !tag.is_empty() && tag[0] == b'?'
}

fn is_empty_tag(tag: &[u8]) -> bool
    ensures { result ≡ is_empty_tag tag.now }
{
    !tag.is_empty() && tag[tag.len() - 1] == b'/'
}

// Closes the element that is open.
fn close(path: &mut Vec<u8>, tag: &[u8], text: &[u8]) -> Result<(), Fault>
    ensures { Gives (λ _. path.new.items) result (spec.closed_by path.old.items tag.now text.now) }
{
    if !is_closed_by(path, tag) || !is_blank(text) {
        return Err(Fault::Bad);
    }
    path.truncate(path.len().saturating_sub(tag.len()));
    Ok(())
}

// Writes the name of an element below the one that is open at the end of its path.
fn push_name(path: &mut Vec<u8>, name: &[u8]) -> Result<(), Fault>
    ensures { Gives (λ _. path.new.items) result (spec.below path.old.items name.now) }
{
    if name.is_empty() {
        return Err(Fault::Bad);
    }
    path.extend_from_slice(b"/")?;
    path.extend_from_slice(name)?;
    Ok(())
}

// Opens an element below the one that is open.
fn open<'a>(
    alloc: Global,
    tag: &[u8],
    text: &'a [u8],
    path: &mut Vec<u8>,
    elements: &mut Vec<Element<'a>>,
) -> Result<(), Fault>
    ensures { Gives (λ _. (path.new.items, elements.new.items)) result (spec.opened_by (path.old.items, elements.old.items) tag.now text.now) }
{
    push_name(path, name_of(tag))?;
    push_element(alloc, elements, path, text)?;
    Ok(())
}

// An element without content.
fn open_empty<'a>(
    alloc: Global,
    path: &[u8],
    elements: &mut Vec<Element<'a>>,
    tag: &[u8],
    text: &[u8],
) -> Result<(), Fault>
    ensures { Gives (λ _. elements.new.items) result (spec.emptied_by path.now elements.old.items tag.now text.now) }
{
    let mut below = Vec::from_slice(alloc, path)?;
    push_name(&mut below, name_of(tag))?;
    if !is_blank(text) {
        return Err(Fault::Bad);
    }
    push_element(alloc, elements, &below, b"")?;
    Ok(())
}

// Takes over a tag, and the text behind it.
fn take_tag<'a>(
    alloc: Global,
    path: &mut Vec<u8>,
    elements: &mut Vec<Element<'a>>,
    tag: &[u8],
    text: &'a [u8],
) -> Result<(), Fault>
    ensures { Gives (λ _. (path.new.items, elements.new.items)) result (spec.with_tag (path.old.items, elements.old.items) tag.now text.now) }
{
    if is_closing(tag) {
        close(path, tag, text)
    } else if is_prolog(tag) {
        if path.is_empty() && is_blank(text) {
            Ok(())
        } else {
            Err(Fault::Bad)
        }
    } else if is_empty_tag(tag) {
        open_empty(alloc, path, elements, tag, text)
    } else {
        open(alloc, tag, text, path, elements)
    }
}

/// Takes over what stands between a `<` and the next one.
pub(crate) fn take_piece<'a>(
    alloc: Global,
    path: &mut Vec<u8>,
    elements: &mut Vec<Element<'a>>,
    piece: &'a [u8],
) -> Result<(), Fault>
    ensures { Gives (λ _. (path.new.items, elements.new.items)) result (spec.with_piece (path.old.items, elements.old.items) piece.now) }
{
    match cut(piece, b'>') {
        Some((tag, text)) => take_tag(alloc, path, elements, tag, text),
        None => Err(Fault::Bad),
    }
}
