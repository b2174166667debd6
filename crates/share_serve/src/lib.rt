//! Sessions (RFC 9112): the requests of one connection, each answered at a point of the history that the server's shared state has
//! seen, from the bytes read to the bytes written.
#![tactic(auto)]

mod call;
mod caller;
mod file;
mod law;
mod plan;
mod provider;
mod response;
mod send;
mod serve;
mod server;
mod session;

pub use law::{
    acknowledgements_are_puts, edits_are_taken, ends_the_same, equal_views_write_the_same,
    offers_are_taken, reads_its_requests, refusals_have_causes, turns_give_the_defined,
    what_is_added_stands, what_is_granted_is_given, whole_requests_are_answered,
    writes_its_responses,
};
pub use serve::{SessionEnd, serve_conn};
pub use server::Server;
