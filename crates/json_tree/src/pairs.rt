// Names with texts.
ghost use Rattle.std.specs.Prelude.{◌≡◌, ◌↔◌, [], List, ℕ, IfOk, IfSome, IsSome, IsTrue, Option, map};
ghost use Rattle.std.specs.Cmp.Lexicographic.{slice_cmp};
ghost use Rattle.std.specs.Ordering.{nat_cmp};
ghost use Rattle.std.specs.declared.cmp.Ordering.TheVariants.{Less};
ghost use Rattle.json_tree.specs.Lists.{pair_of};
ghost use Rattle.json_tree.specs.Pairs.{IsPairs};

use crate::{Text, copy_text_or_none};
use std::alloc::{AllocError, Global};
use std::marker::Model;

/// A name with a text, or with nothing where the value is null.
#[derive(Drop)]
pub struct Pair {
    /// The name.
    pub name: Text,
    /// The text, none for null.
    pub value: Option<Text>,
}

impl Pair {
    /// A pair of the same texts.
    pub fn copy(&self, alloc: Global) -> Result<Pair, AllocError>
        ensures { IfOk result (λ p. p ≡ self.now) }
    {
        Ok(Pair {
            name: self.name.copy(alloc)?,
            value: copy_text_or_none(alloc, &self.value)?,
        })
    }
}

/// Pairs in byte order of their names, which are distinct.
#[derive(Drop)]
pub struct Pairs {
    items: Vec<Pair>,
}

impl Model for Pairs {
    ghost use Rattle.std.specs.Prelude.{List, ℕ, Option, map};
    ghost use Rattle.json_tree.specs.Pairs.{IsPairs};
    ghost use Rattle.json_tree.specs.Lists.{pair_of};

    ghost Value = { List (List ℕ × Option (List ℕ)) };

    ghost view = { λ p. map pair_of p.items.items };

    ghost invariant = { λ p. IsPairs (map pair_of p.items.items) };
}

impl Pairs {
    /// No pairs.
    pub fn new(alloc: Global) -> Pairs
        ensures { result ≡ [] }
    {
        Pairs {
            items: Vec::new(alloc),
        }
    }

    /// The items as pairs, none exactly where a name isn't above the one before it.
    pub fn of(items: Vec<Pair>) -> Option<Pairs>
        ensures found { IsSome result ↔ IsPairs (map pair_of items.items) }
        ensures value { IfSome result (λ p. p ≡ map pair_of items.items) }
    {
        if are_pairs(&items) {
            Some(Pairs::in_order(items))
        } else {
            None
        }
    }

    // The items, whose order the caller knows.
    pub(crate) fn in_order(items: Vec<Pair>) -> Pairs
        requires { IsPairs (map pair_of items.items) }
        ensures { result ≡ map pair_of items.items }
    {
        Pairs { items }
    }

    /// The pairs, in byte order of their names.
    pub fn items(&self) -> &[Pair]
        ensures items { map pair_of result.now ≡ self.now }
        ensures order { IsPairs self.now }
    {
        &self.items
    }

    /// Pairs of the same texts.
    pub fn copy(&self, alloc: Global) -> Result<Pairs, AllocError>
        ensures { IfOk result (λ p. p ≡ self.now) }
    {
        Ok(Pairs::in_order(copy_pairs(alloc, self.items())?))
    }
}

/// A copy of pairs that may be absent.
pub fn copy_pairs_or_none(alloc: Global, pairs: &Option<Pairs>) -> Result<Option<Pairs>, AllocError>
    ensures { IfOk result (λ p. p ≡ pairs.now) }
{
    match pairs {
        Some(pairs) => Ok(Some(pairs.copy(alloc)?)),
        None => Ok(None),
    }
}

fn copy_pairs(alloc: Global, pairs: &[Pair]) -> Result<Vec<Pair>, AllocError>
    ensures { IfOk result (λ v. v.items ≡ pairs.now) }
{
    let mut copies = Vec::new(alloc);
    for pair in pairs {
        copies.push(pair.copy(alloc)?)?;
    }
    Ok(copies)
}

fn is_below(first: &Pair, second: &Pair) -> bool
    ensures { IsTrue result ↔ (slice_cmp nat_cmp first.now.name second.now.name ≡ Less) }
{
    first.name.as_str() < second.name.as_str()
}

// Whether each name is above the one before it.
fn are_pairs(items: &[Pair]) -> bool
    ensures { IsTrue result ↔ IsPairs (map pair_of items.now) }
{
    for i in 1..items.len() {
        if !is_below(&items[i - 1], &items[i]) {
            return false;
        }
    }
    true
}
