//! The state of a table by the commits of its log.
#![tactic(auto)]

mod causes;
mod commits;
mod files;
mod held;
mod listing;
mod part;
mod places;
mod refusal;
mod settings;
mod snapshot;
mod standing;
mod times;

pub use commits::{advance, replay, replay_ref};
pub use files::Files;
pub use refusal::{Cause, NoState, ReplayRefusal};
pub use settings::turns_on;
pub use snapshot::{Snapshot, SnapshotRef};
pub use standing::{Support, meta_in, refusal_after};
pub use times::{Bound, Mark, Unresolved, mark_of, marks_of, resolve};
