//! A query of a table in a folder: what its input asks, and the lines that answer it. And what it shares with the other commands of
//! the program: the outside, how a run ends, and the line that tells so.
#![tactic(auto)]

mod command;
mod edge;
mod ends;
mod input;
mod printing;
mod table;

pub use command::{location_of, query};
pub use edge::Edge;
pub use ends::{End, Note, PeerRefusal, TableRefusal};
pub use input::{InputFault, read_input};
pub use printing::{print, tell, tell_memory};
