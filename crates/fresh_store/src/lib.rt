//! A store that is asked for what others added only now and then: for stores that are far away, where each question is a round trip.
#![tactic(auto)]

mod absences;
mod store;

pub use absences::Absences;
pub use store::FreshStore;
