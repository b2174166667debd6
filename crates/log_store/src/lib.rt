//! The loader of a table's log: the commits of a Delta table, read from a store.
#![tactic(auto)]

mod kept;
mod law;
mod loaded;
mod log;
mod probing;
mod reading;
mod refusal;
mod versions;

pub use kept::{Kept, MOST_LOG_BYTES};
pub use law::backed_logs_are_loaded;
pub use loaded::{Block, BlockCause, Commits, Loaded};
pub use log::load;
pub use probing::{Probed, probe};
pub use reading::{Fetched, fetch, version_name};
pub use refusal::{LoadRefusal, Stop};
