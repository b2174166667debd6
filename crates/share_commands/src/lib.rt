//! The commands of a data provider's server over live Delta tables, of a query of a table in a folder, and of a recipient's client:
//! [`run`], which the program calls.
#![tactic(auto)]

mod client;
mod commands;
mod law;
mod opening;
mod serve;
mod stdio;
mod words;

pub use commands::run;
pub use law::{headline, what_runs_add_stands};
pub use query_command::{Edge, End, tell_memory};
pub use words::{HELP, MOST_WORKERS, VERSION};
