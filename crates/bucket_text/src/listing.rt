// A page of a listing, and the code of an error.
ghost use Rattle.std.specs.Prelude.{◌≡◌, [], ◌∷◌, ◌++◌, map, IfOk, OnOk};
ghost use Rattle.bucket_text.specs.Faults.{Gives};
ghost use Rattle.bucket_text.specs.Listings as spec;

use crate::elements::{Element, elements_of};
use crate::fault::Fault;
use crate::text::{key_text, plain_text};
use json_tree::{Text, Texts};
use std::alloc::{AllocError, Global};

/// A page of a listing.
#[derive(Drop)]
pub struct Listing {
    /// The names of the objects, in the order of the page.
    pub keys: Texts,
    /// Where the listing goes on; none where this is its last page.
    pub next: Option<Text>,
}

// The texts of the elements with that path.
fn texts_at<'a>(
    alloc: Global,
    elements: &[Element<'a>],
    path: &[u8],
) -> Result<Vec<&'a [u8]>, AllocError>
    ensures { IfOk result (λ v. map (λ x. x.now) v.items ≡ spec.texts_at path.now elements.now) }
{
    let mut texts = Vec::new(alloc);
    for element in elements {
        if element.path() == path {
            texts.push(element.text())?;
        }
    }
    Ok(texts)
}

// The text of the only element with that path.
fn only_text<'a>(alloc: Global, elements: &[Element<'a>], path: &[u8]) -> Result<&'a [u8], Fault>
    ensures { Gives (λ t. t.now) result (spec.only_text path.now elements.now) }
{
    let texts = texts_at(alloc, elements, path)?;
    match texts.as_slice() {
        [only] => Ok(*only),
        _ => Err(Fault::Bad),
    }
}

fn push_key(keys: &mut Vec<Text>, key: Text) -> Result<(), AllocError>
    ensures { OnOk result (keys.new.items ≡ keys.old.items ++ key ∷ []) }
{
    keys.push(key)?;
    Ok(())
}

fn keys_of(alloc: Global, texts: &[&[u8]]) -> Result<Texts, Fault>
    ensures { Gives (λ t. t) result (spec.keys_of (map (λ x. x.now) texts.now)) }
{
    let mut keys = Vec::new(alloc);
    for text in texts {
        match key_text(alloc, text) {
            Ok(key) => push_key(&mut keys, key)?,
            Err(fault) => return Err(fault),
        }
    }
    Ok(Texts::of(keys))
}

// Where the listing goes on.
fn next_of(alloc: Global, elements: &[Element<'_>]) -> Result<Option<Text>, Fault>
    ensures { Gives (λ t. t) result (spec.next_of elements.now) }
{
    match only_text(alloc, elements, b"/ListBucketResult/IsTruncated")? {
        b"false" => Ok(None),
        b"true" => {
            let token = only_text(alloc, elements, b"/ListBucketResult/NextContinuationToken")?;
            Ok(Some(plain_text(alloc, token)?))
        }
        _ => Err(Fault::Bad),
    }
}

/// The page of a listing that the body of an answer to ListObjectsV2 is, or why it isn't read.
#[tactic(auto, unfolding(crate::specs::Listings::listing_of))]
pub fn listing_of(alloc: Global, body: &[u8]) -> Result<Listing, Fault>
    ensures { Gives (λ l. l) result (spec.listing_of body.now) }
{
    let elements = elements_of(alloc, body)?;
    let texts = texts_at(alloc, &elements, b"/ListBucketResult/Contents/Key")?;
    Ok(Listing {
        keys: keys_of(alloc, &texts)?,
        next: next_of(alloc, &elements)?,
    })
}

fn code_in(alloc: Global, elements: &[Element<'_>]) -> Result<Text, Fault>
    ensures { Gives (λ t. t) result (spec.code_in elements.now) }
{
    plain_text(alloc, only_text(alloc, elements, b"/Error/Code")?)
}

/// The code that the body of an error says, or why it isn't read.
#[tactic(auto, unfolding(crate::specs::Listings::code_of))]
pub fn code_of(alloc: Global, body: &[u8]) -> Result<Text, Fault>
    ensures { Gives (λ t. t) result (spec.code_of body.now) }
{
    code_in(alloc, &elements_of(alloc, body)?)
}
