//! Requests to a bucket over S3's protocol, signed by AWS Signature Version 4: their texts up to the body.
#![tactic(auto)]

mod call;
mod canonical;
mod escape;
mod field;
mod fields_of;
mod head;
mod key;
mod laws;
mod moment;
mod sign;
mod stamp;

pub use call::{Call, Method};
pub use canonical::Asked;
pub use field::{Field, Fields};
pub use head::head_text;
pub use key::{CallKey, CallPlace};
pub use laws::names_are_in_order;
pub use moment::stamp_of;
pub use sign::authorization;
pub use stamp::Stamp;
