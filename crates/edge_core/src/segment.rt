// Single segments of names.
ghost use Rattle.std.specs.Prelude.{◌≡◌, List, ℕ, IfOk, MatchOption, IsTrue, false, string_bytes};
ghost use Rattle.edge_core.specs.Names.{is_one_segment};

use crate::name::is_part;
use std::alloc::{AllocError, Global};
use std::marker::Model;

/// One segment of a name: a text that isn't empty, `.` or `..` and has no `/` and no byte 0. Contracts see its bytes.
#[derive(Drop)]
pub struct Segment {
    text: String,
}

impl Model for Segment {
    ghost Value = { List ℕ };

    ghost view = { λ s. string_bytes s.text };

    ghost invariant = { λ s. IsTrue (is_one_segment (string_bytes s.text)) };
}

/// Whether a text is a segment.
pub fn is_segment_text(text: &str) -> bool
    ensures { result ≡ is_one_segment text.now }
{
    is_part(text) && !text.as_bytes().contains(&b'/') && !text.as_bytes().contains(&0)
}

impl Segment {
    /// The segment of that text, or `None` exactly where the text isn't one.
    pub fn of(text: String) -> Option<Segment>
        ensures { MatchOption result (is_one_segment (string_bytes text) ≡ false) (λ s. (s ≡ string_bytes text) × IsTrue (is_one_segment s)) }
    {
        if is_segment_text(&text) {
            Some(Segment { text })
        } else {
            None
        }
    }

    // The segment of a text that is known to be one.
    pub(crate) fn of_part(alloc: Global, text: &str) -> Result<Segment, AllocError>
        requires { IsTrue (is_one_segment text.now) }
        ensures { IfOk result (λ s. s ≡ text.now) }
    {
        Ok(Segment {
            text: String::from_str(alloc, text)?,
        })
    }

    /// The text of the segment.
    pub fn as_str(&self) -> &str
        ensures value { result.now ≡ self.now }
        ensures good { IsTrue (is_one_segment self.now) }
    {
        &self.text
    }

    /// The text that the segment was made of.
    pub fn into_text(self) -> String
        ensures value { string_bytes result ≡ self }
        ensures good { IsTrue (is_one_segment self) }
    {
        self.text
    }

    /// Another segment of the same text. The error is want of memory.
    pub fn copy(&self, alloc: Global) -> Result<Segment, AllocError>
        ensures { IfOk result (λ s. s ≡ self.now) }
    {
        Ok(Segment {
            text: String::from_str(alloc, self.text.as_str())?,
        })
    }
}
