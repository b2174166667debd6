//! What the turn is taken for: the catalogue, the tables' logs and the history of both.
#![tactic(auto)]

mod book;
mod complete;
mod entry;
mod known;
mod laws;
mod log_part;
mod look;
mod past;
mod places;
mod replay;
mod shown;
mod snapshot;
mod snapshots;
mod spots;
mod table;

pub use book::Book;
pub use entry::{Act, Entry, LogStart, SharedCommit, SharedEdit};
pub use laws::{
    foreign_entries_leave_views, glances_become_looks, histories_go_on, others_leave_what_is_begun,
    versions_have_states, what_is_shown_is_seen,
};
pub use look::{
    Ask, FeedPart, Found, Look, Marks, Names, Part, PartFound, Pinned, Seen, Spot, TableRefusal,
    Want, Who,
};
pub use replay::Replay;
pub use shown::ShownFiles;
pub use snapshot::SharedSnapshot;
pub use table::{LogState, ReadyLog, ready};
