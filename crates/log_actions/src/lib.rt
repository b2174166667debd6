//! The actions of a Delta table's log (Delta Lake PROTOCOL.md, "Actions").
#![tactic(auto)]

mod actions;
mod commit;
mod commit_text;
mod fields;
mod line_fault;
mod lines;
mod paths;
mod printing;
mod ranges;
mod reading;

pub use actions::{
    Action, Actions, AddFile, CdcFile, CommitInfo, Format, MetaData, Protocol, RemoveFile, Txn,
};
pub use case_table::Field;
pub use commit::Commit;
pub use commit_text::text_len;
pub use fields::size_at;
pub use line_fault::{LineFault, NoAction};
pub use lines::{action_of, action_of_line};
pub use paths::{is_good_path, path_name};
pub use printing::{line_len, line_of_action, push_add, push_cdc, push_remove, size_field};
pub use ranges::{CommitTime, FileSize, ProtocolVersion};
