// The lines of a body.
ghost use Rattle.std.specs.Prelude.{◌≡◌, All, IfOk, IsTrue, Ok, is_some};
ghost use Rattle.share_lines.specs.Bodies.{GivesLines, line_at as line_in_text, lines_in};
ghost use Rattle.share_lines.specs.Pieces.{TakesPiece};
ghost use Rattle.share_lines.specs.Printing.{body_text, is_printable};
ghost use Rattle.share_lines.specs.Reading.{Gives};

use crate::faults::LineFault;
use crate::printing::push_line;
use crate::reading::line_of;
use crate::{Line, Lines, LinesFault};
use json_print::lines::cut;
use json_tree::{Text, TreeFault, tree_of};
use std::alloc::{AllocError, Global};

// The line that a text stands for.
fn line_at(alloc: Global, text: &[u8]) -> Result<Line, LineFault>
    ensures { Gives result (line_in_text text.now) }
{
    match tree_of(alloc, text) {
        Ok(object) => line_of(alloc, &object),
        Err(TreeFault::NotUtf8) => Err(LineFault::Bad),
        Err(TreeFault::NotJson) => Err(LineFault::Bad),
        Err(TreeFault::NoMemory) => Err(LineFault::NoMemory),
    }
}

// Adds the line of a piece, none where it is empty; or answers that it is outside the grammar.
fn take_piece(alloc: Global, lines: &mut Vec<Line>, piece: &[u8]) -> Result<bool, AllocError>
    ensures { IfOk result (λ taken. TakesPiece piece.now lines.old.items lines.new.items taken) }
{
    if piece.is_empty() {
        return Ok(true);
    }
    match line_at(alloc, piece) {
        Ok(line) => {
            lines.push(line)?;
            Ok(true)
        }
        Err(LineFault::Bad) => Ok(false),
        Err(LineFault::NoMemory) => Err(AllocError),
    }
}

/// The lines of a body: its pieces between line feeds, of which empty ones are passed over.
///
/// Each other piece is the JSON text (RFC 8259) of an object that has exactly one member, not null,
/// of the names `protocol`, `metaData`, `file`, `add`, `cdf`, `remove` and `endStreamAction`; other
/// members are passed over. Its value is an object. A field that is null counts as absent, and a
/// field that the kind doesn't print is passed over. A protocol has the `minReaderVersion` 1; a
/// metaData has `id` and `schemaString`, and its format isn't looked at; a file or a change has
/// `url`, `id`, `partitionValues` and `size`, and a change `timestamp` and `version` besides. Sizes,
/// expiries and versions are whole numbers from 0 to 2^63 - 1.
///
/// The fault is that of the first piece that is something else, or want of memory.
pub fn lines_of(alloc: Global, bytes: &[u8]) -> Result<Lines, LinesFault>
    ensures { GivesLines result (lines_in bytes.now) }
{
    let mut lines = Vec::new(alloc);
    let mut at = 0u64;
    let mut rest = Some(bytes);
    while let Some(left) = rest {
        let (piece, more) = cut(left);
        rest = more;
        if !take_piece(alloc, &mut lines, piece)? {
            return Err(LinesFault::Bad { at });
        }
        at += piece.len() as u64 + 1;
    }
    Ok(Lines::of(lines))
}

/// The body of lines: the text of each and a line feed. It is read as those lines. The error is want
/// of memory.
pub fn lines_text(alloc: Global, lines: &[Line]) -> Result<Text, AllocError>
    requires { All (λ l. IsTrue (is_printable l)) lines.now }
    ensures text { IfOk result (λ t. t ≡ body_text lines.now) }
    ensures back { IfOk result (λ t. lines_in t ≡ Ok lines.now) }
{
    let mut body = String::new(alloc);
    for line in lines {
        push_line(alloc, &mut body, line)?;
    }
    Ok(Text::of(body))
}
