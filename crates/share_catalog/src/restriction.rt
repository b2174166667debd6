// What of a table is shared where it is shared in part.
ghost use Rattle.std.specs.Prelude.{◌≡◌, IfOk, MatchOption, IsTrue, false, ◌≤◌, length, string_bytes};
ghost use Rattle.share_catalog.specs.Restrictions.{is_restriction};

use std::alloc::{AllocError, Global};
use std::marker::Model;

// The most bytes of a restriction.
const MOST_BYTES: usize = 2048;

/// What of each version of a table is shared: a text of at most 2,048 bytes, which is read as a
/// predicate over the table's partition columns. Whether it is one isn't tested here: a text that is
/// none shows no file. Contracts see its bytes.
#[derive(Drop)]
pub struct Restriction {
    text: String,
}

impl Model for Restriction {
    ghost use Rattle.std.specs.Prelude.{List, ℕ, IsTrue, string_bytes};

    ghost Value = { List ℕ };

    ghost view = { λ r. string_bytes r.text };

    ghost use Rattle.share_catalog.specs.Restrictions.{is_restriction};

    ghost invariant = { λ r. IsTrue (is_restriction (string_bytes r.text)) };
}

impl Restriction {
    /// The restriction of that text, or `None` exactly where it has more than 2,048 bytes.
    pub fn of(text: String) -> Option<Restriction>
        ensures { MatchOption result (is_restriction (string_bytes text) ≡ false) (λ r. (r ≡ string_bytes text) × IsTrue (is_restriction r)) }
    {
        if text.len() <= MOST_BYTES {
            Some(Restriction { text })
        } else {
            None
        }
    }

    /// Its text.
    pub fn as_str(&self) -> &str
        ensures value { result.now ≡ self.now }
        ensures good { IsTrue (is_restriction self.now) }
        ensures short { length self.now ≤ 2048 }
    {
        &self.text
    }

    /// Another restriction of the same text. The error is want of memory.
    pub fn copy(&self, alloc: Global) -> Result<Restriction, AllocError>
        ensures { IfOk result (λ r. r ≡ self.now) }
    {
        Ok(Restriction {
            text: String::from_str(alloc, self.text.as_str())?,
        })
    }
}

/// A copy of a restriction that may be absent. The error is want of memory.
pub fn copy_restriction_or_none(
    alloc: Global,
    only: &Option<Restriction>,
) -> Result<Option<Restriction>, AllocError>
    ensures { IfOk result (λ r. r ≡ only.now) }
{
    match only {
        Some(only) => Ok(Some(only.copy(alloc)?)),
        None => Ok(None),
    }
}
