//! Workers: each serves the connections of a door over its own pass, store and clock, all over one hub.
#![tactic(auto)]

mod desk;
mod history;
mod law;
mod pool;
mod refresh;

pub use desk::{Desk, ServeEnd, serve_desk};
pub use law::{begins_up_to_date, what_workers_add_stands, works_in_order};
pub use pool::serve_all;
