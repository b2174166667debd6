//! The calls that a recipient's client can be told to make, and the texts that are printed of what they answer (Delta Sharing
//! PROTOCOL.md, "REST APIs"); and what such a call is made with, a profile in a store and the body of a query.
#![tactic(auto)]

mod body;
mod call;
mod piece;
mod profile;
mod texts;

pub use body::body_of;
pub use call::{Call, perform};
pub use piece::PieceSize;
pub use profile::profile_at;
