//! The messages of HTTP/1.1 as texts (RFC 9112): heads, how a body is framed, chunks, and what stands at the front of a
//! stream. Nothing here reads from anywhere.
#![tactic(auto)]

pub mod chunk;
pub mod ends;
pub mod field;
pub mod framing;
pub mod head;
pub mod law;
pub mod refusal;
pub mod response;
mod text;
