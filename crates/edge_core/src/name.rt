// The names of stored objects.
ghost use Rattle.std.specs.Prelude.{◌≡◌, List, ℕ, IfOk, MatchOption, IsTrue, false, string_bytes};
ghost use Rattle.std.specs.List.{list_all};
ghost use Rattle.edge_core.specs.Names.{is_name, is_segment, segments};

use std::alloc::{AllocError, Global};
use std::marker::Model;

// The most bytes of a name.
const MOST_BYTES: usize = 1024;

/// The name of a stored object: 1 to 1,024 bytes of UTF-8 without the byte 0, cut by `/` into segments, none of which is
/// empty, `.` or `..`. Contracts see its bytes.
#[derive(Drop)]
pub struct Name {
    text: String,
}

impl Model for Name {
    ghost Value = { List ℕ };

    ghost view = { λ n. string_bytes n.text };

    ghost invariant = { λ n. IsTrue (is_name (string_bytes n.text)) };
}

// Whether a part between slashes is a segment.
pub(crate) fn is_part(part: &str) -> bool
    ensures { result ≡ is_segment part.now }
{
    !part.is_empty() && part != "." && part != ".."
}

fn are_parts(text: &str) -> bool
    ensures { result ≡ list_all is_segment (segments text.now) }
{
    text.split('/').all(is_part)
}

/// Whether a text is a name.
pub fn is_name_text(text: &str) -> bool
    ensures { result ≡ is_name text.now }
{
    !text.is_empty() && text.len() <= MOST_BYTES && !text.as_bytes().contains(&0) && are_parts(text)
}

impl Name {
    /// The name of that text, or `None` exactly where the text isn't one.
    pub fn of(text: String) -> Option<Name>
        ensures { MatchOption result (is_name (string_bytes text) ≡ false) (λ n. (n ≡ string_bytes text) × IsTrue (is_name n)) }
    {
        if is_name_text(&text) {
            Some(Name { text })
        } else {
            None
        }
    }

    /// The text of the name.
    pub fn as_str(&self) -> &str
        ensures value { result.now ≡ self.now }
        ensures good { IsTrue (is_name self.now) }
    {
        &self.text
    }

    /// The text that the name was made of.
    pub fn into_text(self) -> String
        ensures value { string_bytes result ≡ self }
        ensures good { IsTrue (is_name self) }
    {
        self.text
    }

    /// Another name of the same text. The error is want of memory.
    pub fn copy(&self, alloc: Global) -> Result<Name, AllocError>
        ensures { IfOk result (λ n. n ≡ self.now) }
    {
        Ok(Name {
            text: String::from_str(alloc, self.text.as_str())?,
        })
    }
}
