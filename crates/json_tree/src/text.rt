// Texts, and lists of them.
ghost use Rattle.std.specs.Prelude.{◌≡◌, List, ℕ, IfOk, Option, string_bytes};
ghost use Rattle.json_tree.specs.Options.{unless_empty};

use std::alloc::{AllocError, Global};
use std::marker::Model;

/// A text, seen as its bytes in UTF-8. Its length has no bound of its own.
#[derive(Drop)]
pub struct Text {
    text: String,
}

impl Model for Text {
    ghost Value = { List ℕ };

    ghost view = { λ t. string_bytes t.text };
}

impl Text {
    /// The string as a text.
    pub fn of(text: String) -> Text
        ensures { result ≡ string_bytes text }
    {
        Text { text }
    }

    /// The text as a string slice.
    pub fn as_str(&self) -> &str
        ensures { result.now ≡ self.now }
    {
        &self.text
    }

    /// A text of the same bytes.
    pub fn copy(&self, alloc: Global) -> Result<Text, AllocError>
        ensures { IfOk result (λ t. t ≡ self.now) }
    {
        Ok(Text {
            text: String::from_str(alloc, self.as_str())?,
        })
    }
}

/// A copy of a text that may be absent.
pub fn copy_text_or_none(alloc: Global, text: &Option<Text>) -> Result<Option<Text>, AllocError>
    ensures { IfOk result (λ t. t ≡ text.now) }
{
    match text {
        Some(text) => Ok(Some(text.copy(alloc)?)),
        None => Ok(None),
    }
}

/// The text, `None` where there is none and where it is empty.
pub fn unless_empty(text: Option<Text>) -> Option<Text>
    ensures { result ≡ unless_empty text }
{
    match text {
        Some(text) if text.as_str().is_empty() => None,
        text => text,
    }
}

/// A list of texts.
#[derive(Drop)]
pub struct Texts {
    items: Vec<Text>,
}

impl Model for Texts {
    ghost Value = { List (List ℕ) };

    ghost view = { λ t. t.items.items };
}

impl Texts {
    /// The texts, in the order given.
    pub fn of(items: Vec<Text>) -> Texts
        ensures { result ≡ items.items }
    {
        Texts { items }
    }

    /// The texts, in order.
    pub fn items(&self) -> &[Text]
        ensures { result.now ≡ self.now }
    {
        &self.items
    }

    /// A list of the same texts.
    pub fn copy(&self, alloc: Global) -> Result<Texts, AllocError>
        ensures { IfOk result (λ t. t ≡ self.now) }
    {
        Ok(Texts::of(copy_texts(alloc, self.items())?))
    }
}

fn copy_texts(alloc: Global, texts: &[Text]) -> Result<Vec<Text>, AllocError>
    ensures { IfOk result (λ v. v.items ≡ texts.now) }
{
    let mut copies = Vec::new(alloc);
    for text in texts {
        copies.push(text.copy(alloc)?)?;
    }
    Ok(copies)
}
