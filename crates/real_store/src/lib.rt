//! Where the program's objects are: in the folder that it runs in, or in the bucket that `bucket.json` there names.
//!
//! What is read of the folder, the environment and the bucket is told to nobody, so contracts say no more than the traits ask.
#![tactic(auto)]

mod either_store;
mod notes;
mod place;
mod real_store;

pub use notes::tell_place;
pub use place::{PlaceFault, StorePlace};
pub use real_store::RealStore;
