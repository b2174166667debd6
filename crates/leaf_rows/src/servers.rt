// Several servers over one store, step by step.
use crate::answer::Answer;
use crate::given::Given;
use crate::log_states::commit;
use log_actions::Commit;
use log_commit::bytes_of;
use row_files::RowFault;
use share_nodes::{NodeMove, NodeState, NodeStep, World, nodes};
use std::alloc::AllocError;

fn placing(given: &Given, out: &mut Answer) -> Option<NodeMove> {
    let text = given.bytes("places", out);
    match commit(out.alloc(), &text) {
        Ok(commit) => Some(NodeMove::Place(commit)),
        Err(fault) => {
            out.fail(fault);
            None
        }
    }
}

fn move_in(given: &Given, out: &mut Answer) -> Option<NodeMove> {
    if given.has("places") {
        return placing(given, out);
    }
    match given.word("does", out) {
        "read" => Some(NodeMove::Read),
        "publish" => Some(NodeMove::Publish),
        "crash" => Some(NodeMove::Crash),
        "restart" => Some(NodeMove::Restart),
        _ => {
            out.lacks("does");
            None
        }
    }
}

fn node_in(given: &Given, out: &mut Answer) -> u32 {
    match u32::try_from(given.number("node", out)) {
        Ok(number) => number,
        Err(_) => {
            out.lacks("node");
            0
        }
    }
}

fn push_step(steps: &mut Vec<NodeStep>, given: &Given, out: &mut Answer) {
    let node = node_in(given, out);
    if let Some(move_) = move_in(given, out) {
        if steps.push(NodeStep { node, move_ }).is_err() {
            out.fail(RowFault::NoMemory);
        }
    }
}

fn add_commit(out: &mut Answer, commit: &Commit) {
    match bytes_of(out.alloc(), commit) {
        Ok(text) => out.bytes(&text),
        Err(_) => out.fail(RowFault::NoMemory),
    }
}

fn add_state(out: &mut Answer, state: &NodeState) {
    out.number("published ", state.published);
    out.word(", acknowledged");
    for version in &state.acknowledged {
        out.number(" ", *version);
    }
    out.word("\n");
}

// Adds the texts of the log's commits, and what is told of each node.
fn add_world(out: &mut Answer, world: &World) {
    for commit in world.store.items() {
        add_commit(out, commit);
    }
    for state in &world.nodes {
        add_state(out, state);
    }
}

fn add_ran(out: &mut Answer, world: &Result<World, AllocError>) {
    match world {
        Ok(world) => add_world(out, world),
        Err(_) => out.fail(RowFault::NoMemory),
    }
}

fn run_steps(given: &Given, out: &mut Answer) {
    let mut steps = Vec::new(out.alloc());
    for step in given.list("steps", out) {
        push_step(&mut steps, &given.of(step), out);
    }
    let world = nodes(out.alloc(), &steps);
    add_ran(out, &world);
}

/// Answers a call, where it is one of these.
pub(crate) fn answer(call: &str, given: &Given, out: &mut Answer) -> bool {
    match call {
        "nodes" => run_steps(given, out),
        _ => return false,
    }
    true
}
