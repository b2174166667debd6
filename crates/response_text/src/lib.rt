//! The text of a response of HTTP/1.1 up to its body (RFC 9112): status line, fields, empty line.
#![tactic(auto)]

mod date;
pub mod head;
pub mod law;
mod line;
pub mod status;
mod write;

pub use write::head_text;
