//! The lines of an answer in the delta format, printed and read (Delta Sharing PROTOCOL.md, "API Response Format in Delta"): what a
//! table's log says, with links in the place of paths.
#![tactic(auto)]

mod bodies;
mod faults;
mod kinds;
mod law;
mod parts;
mod printing;
mod reading;

pub use bodies::delta_lines_of;
pub use kinds::{DeltaFile, DeltaLine, FileAction};
pub use law::one_delta_line_each;
pub use parts::{ActionParts, DeltaParts};
pub use printing::{
    delta_meta_len, delta_meta_text, delta_parts_len, delta_protocol_len, delta_protocol_text,
    delta_text, push_delta_file, push_delta_meta, push_delta_protocol,
};
pub use share_lines::{EndLine, LinesFault};
