//! The messages of a connection (RFC 9112), read from a source however its pieces are cut: requests by [`Wire`], responses by
//! [`Responses`]. Each reads until something stops it, and no further.
//!
//! Lines of heads may end in LF alone, as in CR LF (RFC 9112, section 2.2); lines of chunks may not.
#![tactic(auto)]

mod body;
mod chunk;
mod head;
mod inbox;
pub mod law;
mod reading;
mod responses;
mod wire;

pub use edge_core::write_all;
pub use http_message::field::Fields;
pub use http_message::head::Head;
pub use http_message::refusal::Flaw;
pub use http_message::response::ResponseHead;
pub use responses::{FinalHead, Reply, Responses};
pub use wire::{Message, Wire};
