//! Several servers over one store, as a pure machine: what any list of their steps leaves. Its laws hold for every list, whatever fails
//! and whoever crashes: what one of them acknowledged stands, and all of them have one log.
#![tactic(auto)]

mod laws;
mod run;
mod seat;
mod step;

pub use laws::{
    acknowledged_commits_stand, acknowledged_edits_stand, all_nodes_have_one_catalogue,
    all_nodes_have_one_log,
};
pub use run::{NodeState, World, nodes};
pub use step::{NodeMove, NodeStep};
