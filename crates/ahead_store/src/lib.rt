//! A store that reads objects on in growing pieces: for stores that are far away, where each read is a round trip.
#![tactic(auto)]

mod store;

pub use store::AheadStore;
