// What a writer offers.
use edge_core::Name;
use json_tree::{Text, Version};
use log_actions::Actions;

/// What of the table an offer rests on, at the version that was read.
#[derive(Drop)]
pub enum Reads {
    /// No file.
    Nothing,
    /// Every file.
    All,
    /// The files that the predicate of this text doesn't make False (Delta Sharing PROTOCOL.md, "JSON
    /// predicates for Filtering"); every file where the text is no predicate.
    Where(Text),
}

/// Actions that a writer wants to add to a table's log, and what it had read of the table.
#[derive(Drop)]
pub struct Offer {
    /// Where the table is stored.
    pub location: Name,
    /// The version that was read, none where the offer begins the table.
    pub read: Option<Version>,
    /// What of that version the actions rest on.
    pub reads: Reads,
    /// The actions, without a commitInfo.
    pub actions: Actions,
}
