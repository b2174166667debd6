//! The lines of an answer and the bodies of refusals, printed and read (Delta Sharing PROTOCOL.md,
//! "API Response Format in Parquet", "Read Change Data Feed from a Table" and the errors of the REST
//! APIs).
#![tactic(auto)]

mod bodies;
mod errors;
mod faults;
mod fields;
mod kinds;
mod law;
mod parts;
mod printing;
mod reading;
mod table_lines;

pub use bodies::{lines_of, lines_text};
pub use case_table::Refusal;
pub use errors::{error_of, error_text, one_error};
pub use faults::LinesFault;
pub use json_tree::{Millis, Version};
pub use kinds::{EndLine, FileLine, Line, Lines, MetaLine};
pub use law::one_line_each;
pub use parts::{FileKind, FileParts, MetaParts};
pub use printing::{line_len, line_text, push_line};
pub use table_lines::{
    end_len, file_parts_len, meta_len, meta_text, push_end, push_file, push_file_parts, push_meta,
    push_protocol,
};
