//! Commits to tables' logs and what others committed to them in a store, over one book that callers have in turn.
#![tactic(auto)]

mod admission;
mod caller;
mod commit;
mod offer_log;
mod refresh;
mod table_calls;
mod table_rounds;
mod table_turns;

pub use caller::Caller;
pub use commit::CommitRefusal;
pub use refresh::{RefreshRefusal, Refreshed};
