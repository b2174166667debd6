// What happens in a world.
use edge_core::Name;
use json_tree::Millis;
use log_actions::Commit;
use share_catalog::Edit;
use share_request::Request;
use std::sync::Arc;

/// What happens in a world.
#[derive(Drop)]
pub enum Event {
    /// A commit to the table at that location. It is passed over where the log with it isn't read, or its printed texts pass 64 MiB.
    Commit(Name, Arc<Commit>),
    /// An edit of the catalogue. It is passed over where the catalogue refuses it.
    Edit(Edit),
    /// A request, and the moment at which it is answered.
    Ask(Request, Millis),
}
