//! What stands outside the program: sources, sinks and stores of objects, clocks, and the lines that listeners take and
//! links open, each with a count of its faults; gates, which may only delay; their like in memory; and handles of those
//! that threads share.
#![tactic(auto)]

mod calls;
mod clock;
mod fault_count;
mod foreign;
mod gate;
mod gathering;
mod hold_gate;
mod limited;
mod link;
mod listener;
mod locked_door;
mod locked_store;
mod mem_clock;
mod mem_line;
mod mem_link;
mod mem_listener;
mod mem_sink;
mod mem_source;
mod mem_store;
mod name;
mod pieces;
mod segment;
mod segments;
mod shelf;
mod sink;
mod source;
mod store;
mod writing;

pub use clock::{Clock, LAST_MOMENT};
pub use fault_count::FaultCount;
pub use foreign::Foreign;
pub use gate::{Gate, OpenGate};
pub use gathering::Gathering;
pub use hold_gate::HoldGate;
pub use limited::Limited;
pub use link::{Link, Opened};
pub use listener::{Listener, Listening, Taken};
pub use locked_door::{LockedDoor, SharedDoor};
pub use locked_store::LockedStore;
pub use mem_clock::MemClock;
pub use mem_line::{MemClosed, MemLine};
pub use mem_link::{MemLink, MemPeer};
pub use mem_listener::MemListener;
pub use mem_sink::MemSink;
pub use mem_source::MemSource;
pub use mem_store::MemStore;
pub use name::{Name, is_name_text};
pub use segment::{Segment, is_segment_text};
pub use segments::Segments;
pub use shelf::Stored;
pub use sink::{Flushing, Gave, Sink};
pub use source::{Source, Took};
pub use store::{Got, Listed, Measured, Put, Store};
pub use writing::write_all;
