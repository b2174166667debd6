//! The body of a query, read (Delta Sharing PROTOCOL.md, "Read Data from a Table"): what it asks for, or why it is refused.
#![tactic(auto)]

mod query;

pub use query::{QueryBody, QueryFault, QueryField, moment_of, query_of};
