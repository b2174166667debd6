//! The text of a commit, read as its actions, and the names of commits.
#![tactic(auto)]

mod faults;
mod lines;
mod names;
mod print;
mod rules;
mod text;

pub use faults::{CommitFault, NoCommit};
pub use names::{name_of, version_of};
pub use print::bytes_of;
pub use rules::commit_from;
pub use text::{MOST_BYTES, commit_of};
