//! The pure machine: what a list of commits, edits and requests comes to, in one order, without threads, a store or a clock. Its replies
//! are a function of that list, so two worlds can be compared: what one recipient asks and sees decides what it is answered.
#![tactic(auto)]

mod chain;
mod law;
mod machine;
mod reply;

pub use chain::join_pages;
pub use law::{pages_join, worlds_answer_alike};
pub use machine::{run, two_worlds};
pub use reply::{Body, Bytes, Reply};
pub use share_world::Event;
