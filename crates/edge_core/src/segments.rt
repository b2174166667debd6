// Lists of segments.
ghost use Rattle.std.specs.Prelude.{◌≡◌, List, ℕ, IfOk};

use crate::Segment;
use std::alloc::{AllocError, Global};
use std::marker::Model;

/// A list of segments. Contracts see the list of their bytes.
#[derive(Drop)]
pub struct Segments {
    items: Vec<Segment>,
}

impl Model for Segments {
    ghost Value = { List (List ℕ) };

    ghost view = { λ s. s.items.items };
}

impl Segments {
    /// The list of those segments.
    pub fn of(items: Vec<Segment>) -> Segments
        ensures { result ≡ items.items }
    {
        Segments { items }
    }

    /// The segments in order.
    pub fn items(&self) -> &[Segment]
        ensures { result.now ≡ self.now }
    {
        &self.items
    }

    /// The segments that the list was made of.
    pub fn into_items(self) -> Vec<Segment>
        ensures { result.items ≡ self }
    {
        self.items
    }

    /// Another list of the same segments. The error is want of memory.
    pub fn copy(&self, alloc: Global) -> Result<Segments, AllocError>
        ensures { IfOk result (λ s. s ≡ self.now) }
    {
        let mut items = Vec::with_capacity(alloc, self.items.len())?;
        for segment in &self.items {
            items.push(segment.copy(alloc)?)?;
        }
        Ok(Segments { items })
    }
}
