// The lines of a body.
ghost use Rattle.std.specs.Prelude.{IfOk};
ghost use Rattle.delta_lines.specs.Bodies.{GivesLines, delta_line_at, delta_lines_in};
ghost use Rattle.delta_lines.specs.Pieces.{TakesPiece};
ghost use Rattle.delta_lines.specs.Reading.{Gives};

use crate::faults::LineFault;
use crate::reading::line_of;
use crate::{DeltaLine, LinesFault};
use json_print::lines::cut;
use json_tree::{TreeFault, tree_of};
use std::alloc::{AllocError, Global};

// The line that a text stands for.
fn line_at(alloc: Global, text: &[u8]) -> Result<DeltaLine, LineFault>
    ensures { Gives result (delta_line_at text.now) }
{
    match tree_of(alloc, text) {
        Ok(object) => line_of(alloc, &object),
        Err(TreeFault::NotUtf8 | TreeFault::NotJson) => Err(LineFault::Bad),
        Err(TreeFault::NoMemory) => Err(LineFault::NoMemory),
    }
}

// Adds the line of a piece, none where it is empty; or answers that it is outside the grammar.
fn take_piece(alloc: Global, lines: &mut Vec<DeltaLine>, piece: &[u8]) -> Result<bool, AllocError>
    ensures { IfOk result (λ taken. TakesPiece piece.now lines.old.items lines.new.items taken) }
{
    if piece.is_empty() {
        return Ok(true);
    }
    match line_at(alloc, piece) {
        Ok(line) => lines.push(line)?,
        Err(LineFault::Bad) => return Ok(false),
        Err(LineFault::NoMemory) => return Err(AllocError),
    }
    Ok(true)
}

/// The lines of a body: its pieces between line feeds, of which empty ones are passed over.
///
/// Each other piece is the JSON text (RFC 8259) of an object that has exactly one member, not null, of the names `protocol`, `metaData`,
/// `file` and `endStreamAction`; other members are passed over. Its value is an object. A protocol has in `deltaProtocol` and a metaData
/// in `deltaMetadata` what an action of a log has as its value; a file has in `deltaSingleAction` an add, a cdc or a remove as it stands
/// in a log, without a deletion vector, whose path is the link; its `id` is the path in the log. A field that is null counts as absent,
/// and a field that the kind doesn't print is passed over. Expiries and versions are whole numbers from 0 to 2^63 - 1.
///
/// The fault is that of the first piece that is something else, or want of memory.
pub fn delta_lines_of(alloc: Global, bytes: &[u8]) -> Result<Vec<DeltaLine>, LinesFault>
    ensures { GivesLines result (delta_lines_in bytes.now) }
{
    let mut lines = Vec::new(alloc);
    let mut place = 0u64;
    let mut unread = Some(bytes);
    while let Some(text) = unread {
        let (piece, behind) = cut(text);
        unread = behind;
        if !take_piece(alloc, &mut lines, piece)? {
            return Err(LinesFault::Bad { at: place });
        }
        place += piece.len() as u64 + 1;
    }
    Ok(lines)
}
