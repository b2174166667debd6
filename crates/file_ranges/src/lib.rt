//! Byte ranges of HTTP (RFC 9110, section 14): which part of an object a request asks for, which one is sent, and the text that
//! says so.
#![tactic(auto)]

pub mod content_range;
pub mod law;
pub mod part;
pub mod pick;
pub mod span;
mod text;
