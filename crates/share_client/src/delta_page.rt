// The lines of a page in the delta format.
ghost use Rattle.std.specs.Prelude.{◌≡◌, IfOk, MatchOption, None, Some};
ghost use Rattle.share_client.specs.DeltaPages.{after_meta, after_protocol};

use crate::table_page::{Content, PageLine};
use delta_lines::{
    DeltaFile, DeltaLine, EndLine, LinesFault, delta_lines_of, delta_meta_text, delta_protocol_text,
};
use json_tree::Text;
use log_actions::{MetaData, Protocol};
use std::alloc::{AllocError, Global};
use std::collections::VecDeque;

// What stands in front of the files.
#[derive(Drop)]
pub(crate) struct DeltaFront {
    // The protocol.
    pub(crate) protocol: Protocol,
    // The metadata.
    pub(crate) meta: MetaData,
}

// Takes the protocol away, which stands in front.
fn take_protocol(lines: &mut VecDeque<DeltaLine>) -> Option<Protocol>
    ensures { MatchOption result (after_protocol lines.old.items ≡ None) (λ p. after_protocol lines.old.items ≡ Some (p, lines.new.items)) }
{
    match lines.pop_front() {
        Some(DeltaLine::Protocol(protocol)) => Some(protocol),
        Some(_) => None,
        None => None,
    }
}

// Takes the metadata away, which stands in front.
fn take_meta(lines: &mut VecDeque<DeltaLine>) -> Option<MetaData>
    ensures { MatchOption result (after_meta lines.old.items ≡ None) (λ m. after_meta lines.old.items ≡ Some (m, lines.new.items)) }
{
    match lines.pop_front() {
        Some(DeltaLine::MetaData(meta)) => Some(meta),
        Some(_) => None,
        None => None,
    }
}

impl PageLine for DeltaLine {
    ghost use Rattle.share_client.specs.DeltaPages.{delta};

    type Front = DeltaFront;

    ghost form = { delta };

    fn lines(alloc: Global, bytes: &[u8]) -> Result<Vec<DeltaLine>, LinesFault> {
        delta_lines_of(alloc, bytes)
    }

    fn take_front(lines: &mut VecDeque<DeltaLine>) -> Option<DeltaFront> {
        let protocol = take_protocol(lines)?;
        let meta = take_meta(lines)?;
        Some(DeltaFront { protocol, meta })
    }

    fn front_text(alloc: Global, front: &DeltaFront) -> Result<Text, AllocError> {
        let protocol = delta_protocol_text(alloc, &front.protocol)?;
        let meta = delta_meta_text(alloc, &front.meta)?;
        let protocol = protocol.as_str();
        let meta = meta.as_str();
        Ok(Text::of(format!(in alloc; "{protocol}\n{meta}")?))
    }

    fn end(self) -> Option<EndLine> {
        match self {
            DeltaLine::End(end) => Some(end),
            _ => None,
        }
    }
}

impl Content for DeltaFile {
    ghost use Rattle.share_client.specs.DeltaPages.{delta_file_in};

    type Line = DeltaLine;

    ghost reads = { delta_file_in };

    fn of_line(line: DeltaLine) -> Result<DeltaFile, DeltaLine> {
        match line {
            DeltaLine::File(file) => Ok(file),
            other => Err(other),
        }
    }
}
