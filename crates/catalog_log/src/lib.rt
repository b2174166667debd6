//! The records of a catalogue's log: one edit each, as JSON (RFC 8259).
#![tactic(auto)]

mod fault;
mod names;
mod printing;
mod reading;
mod version;

pub use fault::RecordFault;
pub use names::record_name;
pub use printing::bytes_of_edit;
pub use reading::{edit_at, edit_of};
