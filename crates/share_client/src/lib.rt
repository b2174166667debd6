//! The client of a recipient (Delta Sharing PROTOCOL.md, "REST APIs"): the tables that are shared with it, their files and changes,
//! and files by their links, over any [`Link`](edge_core::Link).
#![tactic(auto)]

mod ask;
mod client;
mod delta_page;
mod exchange;
mod fault;
mod fetch;
mod law;
mod listing;
mod lists;
mod page_head;
mod parquet_page;
mod pieces;
mod query_body;
mod request;
mod route;
mod server;
mod size;
mod table_page;
mod table_read;
mod table_request;
mod table_version;
mod tables;
mod target;

pub use case_table::Refusal;
pub use client::Client;
pub use delta_lines::DeltaFile;
pub use fault::ClientFault;
pub use law::pieces_are_whole;
pub use listing::SharedTable;
pub use query_body::QueryBody;
pub use share_lines::{FileLine, Line};
pub use table_read::{DeltaRead, TableRead};
