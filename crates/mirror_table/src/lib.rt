//! A local table that follows a shared one: the commit that brings its log to a version of the shared table, or why there
//! is none.
#![tactic(auto)]

mod added;
mod changes;
mod ends;
mod follow;
mod law;
mod same;
mod shared;
mod suits;
mod wanted;

pub use added::adds_of;
pub use ends::{NoTarget, Unsuited};
pub use follow::target;
pub use law::{target_reaches, target_settles};
pub use shared::{Shared, application};
