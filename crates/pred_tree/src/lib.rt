//! Predicates over partition columns, and what they say of a file (Delta Sharing PROTOCOL.md,
//! "JSON predicates for Filtering").
#![tactic(auto)]

mod bound;
mod filter;
mod kinds;
pub mod laws;
mod look;
mod reading;
mod shown;
mod tree;
mod truth;

pub use bound::{BoundPred, bind};
pub use filter::Filter;
pub use reading::pred_of;
pub use shown::Shown;
pub use tree::{Comparison, Leaf, Pred};
pub use truth::Truth;
