// The steps of nodes.
use log_actions::Commit;
use std::sync::Arc;

/// What a node does. A move that it can't make changes nothing.
#[derive(Drop)]
pub enum NodeMove {
    /// It takes over the next version of the log, where it runs, has none of its own to publish, and hasn't published all.
    Read,
    /// It places a commit as the next version, where it runs, has none to publish, and has published all. A put that finds its version
    /// taken is no step. One that failed, but stands, is that of a node which takes no later step.
    Place(Arc<Commit>),
    /// It publishes what it placed, and acknowledges that version.
    Publish,
    /// It crashes: what it published, and what it placed and didn't publish, is forgotten. What it acknowledged isn't.
    Crash,
    /// It starts again where it doesn't run, and publishes all that the log has.
    Restart,
}

/// A step: which node makes it, and what it does.
#[derive(Drop)]
pub struct NodeStep {
    /// The node's number. A node of which nothing is told before runs, and has published and acknowledged nothing.
    pub node: u32,
    /// What it does.
    pub move_: NodeMove,
}
