//! Whether what a writer offers may be added to a table's log, and else the first reason why not.
#![tactic(auto)]

mod actions;
mod admission;
mod conflict;
mod laws;
mod made;
mod offer;
mod offered;
mod reading;
mod winners;
mod written;

pub use admission::{admit, next_version};
pub use conflict::{Conflict, NotAdmitted};
pub use laws::{admitted_is_lawful, read_still_holds, retries_are_refused};
pub use offer::{Offer, Reads};
