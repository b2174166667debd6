//! The real outside of a program: its standard streams, a folder whose files are a store's
//! objects, the system's clock and random bytes, and connections of TCP that others open or it opens.
//!
//! What these read, write and hold is told to nobody, so contracts say no more of them than the
//! traits ask: how much moves at most, and that a call which fails raises the count of faults. What
//! they do with a real system is tested.
#![tactic(auto)]

mod file_store;
mod files;
mod places;
mod puts;
mod random;
mod std_clock;
mod streams;
mod tcp;
mod tcp_door;
mod tcp_way;
mod timeouts;

pub use file_store::FileStore;
pub use random::random_mark;
pub use std_clock::StdClock;
pub use streams::{StdSink, StdSource};
pub use tcp::{TcpSink, TcpSource};
pub use tcp_door::TcpDoor;
pub use tcp_way::TcpWay;
pub use timeouts::{Pace, Timeouts};
