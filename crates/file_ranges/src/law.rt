// A law on what is sent of an object. The function does nothing when it is called.
ghost use Rattle.std.specs.Prelude.{ℕ, List, Some, length};
ghost use Rattle.file_ranges.specs.Picks.{HasAsked, pick};
ghost use Rattle.file_ranges.specs.declared.span.Span.{Span};

/// A law: a part has just the bytes that the span asks for, and `Out` comes just where it asks for none.
pub fn part_has_asked()
    ensures { (span : Span) (bytes : List ℕ) → HasAsked span bytes (pick (Some span) (length bytes)) }
{}
