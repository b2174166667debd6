//! The change feed of a table: which files of data a range of its versions added, changed or removed
//! (Delta Sharing PROTOCOL.md, "Read Change Data Feed from a Table"; Delta Lake PROTOCOL.md, "Change
//! Data Files").
#![tactic(auto)]

mod change;
mod feed;
mod laws;
mod refusal;

pub use change::{Change, ChangeKind, ChangedAction};
pub use feed::changes;
pub use laws::{cuts_join, later_commits_leave, ranges_join, versions_stand_alone};
pub use refusal::FeedRefusal;
