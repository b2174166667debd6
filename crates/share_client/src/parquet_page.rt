// The lines of a page in the parquet format.
ghost use Rattle.std.specs.Prelude.{◌≡◌, MatchBool, MatchOption, None, Some};
ghost use Rattle.share_client.specs.TablePages.{after_meta, after_protocol};

use crate::table_page::PageLine;
use json_tree::Text;
use share_lines::{EndLine, Line, LinesFault, MetaLine, lines_of, meta_text};
use std::alloc::{AllocError, Global};
use std::collections::VecDeque;

// Takes the protocol away, which stands in front.
fn take_protocol(lines: &mut VecDeque<Line>) -> bool
    ensures { MatchBool result (after_protocol lines.old.items ≡ Some lines.new.items) (after_protocol lines.old.items ≡ None) }
{
    match lines.front() {
        Some(Line::Protocol) => {}
        _ => return false,
    }
    lines.pop_front();
    true
}

// Takes the metadata away, which stands in front.
fn take_meta(lines: &mut VecDeque<Line>) -> Option<MetaLine>
    ensures { MatchOption result (after_meta lines.old.items ≡ None) (λ m. after_meta lines.old.items ≡ Some (m, lines.new.items)) }
{
    match lines.pop_front() {
        Some(Line::MetaData(meta)) => Some(meta),
        Some(_) => None,
        None => None,
    }
}

impl PageLine for Line {
    ghost use Rattle.share_client.specs.TablePages.{parquet};

    type Front = MetaLine;

    ghost form = { parquet };

    fn lines(alloc: Global, bytes: &[u8]) -> Result<Vec<Line>, LinesFault> {
        match lines_of(alloc, bytes) {
            Ok(lines) => Ok(lines.into_items()),
            Err(fault) => Err(fault),
        }
    }

    fn take_front(lines: &mut VecDeque<Line>) -> Option<MetaLine> {
        if take_protocol(lines) {
            take_meta(lines)
        } else {
            None
        }
    }

    fn front_text(alloc: Global, front: &MetaLine) -> Result<Text, AllocError> {
        meta_text(alloc, front)
    }

    fn end(self) -> Option<EndLine> {
        match self {
            Line::End(end) => Some(end),
            _ => None,
        }
    }
}
