// What the lines of a body are.
ghost use Rattle.std.specs.Prelude.{◌≡◌, ◌==◌, ◌++◌, ◌∷◌, [], List, Ok, false, map};
ghost use Rattle.std.specs.List.{list_any};
ghost use Rattle.json_print.specs.Lines.{lines as pieces};
ghost use Rattle.share_lines.specs.Bodies.{AreReadBack, lines_in};
ghost use Rattle.share_lines.specs.Printing.{body_text, line_text};
ghost use Rattle.share_lines.specs.declared.kinds.Line.{Line};

/// A law: the text of a line has no line feed. So what stands between the line feeds of a body is the
/// text of each of its lines, with nothing behind the last; and where each line is read from its own
/// text, as those are that [`push_line`](crate::push_line) appended, the body is read as the lines. It
/// does nothing when it is called.
pub fn one_line_each()
    ensures free { (line : Line) → list_any (λ b. b == 10) (line_text line) ≡ false }
    ensures apart { (lines : List Line) → pieces (body_text lines) ≡ map line_text lines ++ [] ∷ [] }
    ensures back { (lines : List Line) → AreReadBack lines → lines_in (body_text lines) ≡ Ok lines }
{}
