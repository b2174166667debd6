//! A client and a server in one process: a link whose peer answers by [`serve_conn`](share_serve::serve_conn) over memory, and a
//! rehearsal of both over a table of 50,000 files, compared with the pure machine.
#![tactic(auto)]

mod growing;
mod line;
mod link;
mod machine;
mod peer;
mod rehearsal;
mod stop;
mod summary;
mod turns;
mod world;

pub use line::{LoopSink, LoopSource};
pub use link::{LoopLink, Planned};
pub use peer::Peer;
pub use rehearsal::rehearse;
