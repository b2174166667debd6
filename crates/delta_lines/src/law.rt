// What the lines of a body are.
ghost use Rattle.std.specs.Prelude.{◌≡◌, ◌==◌, All, List, Ok, false};
ghost use Rattle.std.specs.List.{list_any};
ghost use Rattle.delta_lines.specs.Bodies.{Printable, delta_lines_in};
ghost use Rattle.delta_lines.specs.Delta.{delta_body_text, delta_line_text};
ghost use Rattle.delta_lines.specs.declared.kinds.DeltaLine.{DeltaLine};

/// A law: the text of a line has no line feed, no two lines have one text, and the body of lines is read as the lines. It does nothing
/// when it is called.
pub fn one_delta_line_each()
    ensures free { (line : DeltaLine) → list_any (λ b. b == 10) (delta_line_text line) ≡ false }
    ensures apart { (line other : DeltaLine) → Printable line → Printable other → delta_line_text line ≡ delta_line_text other → line ≡ other }
    ensures back { (lines : List DeltaLine) → All Printable lines → delta_lines_in (delta_body_text lines) ≡ Ok lines }
{}
