// Worlds of nodes, run.
ghost use Rattle.std.specs.Prelude.{◌≡◌, ◌<◌, ◌++◌, IfOk, OnOk, true, length, map, option_map, option_to_list};
ghost use Rattle.std.specs.Arc.{arc_value};
ghost use Rattle.share_nodes.specs.Code.{IsAhead, move_of, named_of, place_in, state_told, step_of, told_of, world_in};
ghost use Rattle.share_nodes.specs.Steps.{Node, after, moved, node_in, with_node, world_of};

use crate::seat::Seat;
use crate::step::{NodeMove, NodeStep};
use log_actions::Commit;
use log_store::Commits;
use std::alloc::{AllocError, Global};
use std::collections::VecDeque;
use std::sync::Arc;

/// What a node has published, and what it has acknowledged.
#[derive(Drop)]
pub struct NodeState {
    /// How many versions it has published, from 0 on: at most as many as the log has. A node that crashed and didn't start again has none.
    pub published: u64,
    /// The versions that it acknowledged, in order, those before a crash too.
    pub acknowledged: Vec<u64>,
}

/// What steps leave.
#[derive(Drop)]
pub struct World {
    /// The log, version 0 first.
    pub store: Commits,
    /// The nodes, in the order in which the steps first name them.
    pub nodes: Vec<NodeState>,
}

// The place of a node, or of the next where there is none of that number.
fn find(seats: &[Seat], number: u32) -> usize
    ensures { result ≡ place_in number (map named_of seats.now) }
{
    let mut at = 0;
    for seat in seats {
        if seat.number == number {
            return at;
        }
        at += 1;
    }
    at
}

// The place of the node of that number, which is new where no step named it.
fn seat_of(alloc: Global, seats: &mut Vec<Seat>, number: u32) -> Result<usize, AllocError>
    ensures at { IfOk result (λ i. (i < length seats.new.items) × (i ≡ place_in number (map named_of seats.new.items))) }
    ensures node { OnOk result (node_in number (map named_of seats.new.items) ≡ node_in number (map named_of seats.old.items)) }
    ensures others { OnOk result ((x : Node) → with_node number x (map named_of seats.new.items) ≡ with_node number x (map named_of seats.old.items)) }
{
    let at = find(seats, number);
    if at == seats.len() {
        seats.push(Seat::new(alloc, number))?;
        Ok(at)
    } else {
        Ok(at)
    }
}

// The move of the node at that place, over a log of so many versions.
fn act_at(
    seats: &mut [Seat],
    at: usize,
    number: u32,
    versions: u64,
    move_: &NodeMove,
) -> Result<(), AllocError>
    requires at { (at < length seats.old) × (at ≡ place_in number (map named_of seats.old)) }
    requires next { (node_in number (map named_of seats.old)).pending ≡ true → (node_in number (map named_of seats.old)).published < versions }
    ensures { OnOk result (map named_of seats.new ≡ with_node number (moved versions (node_in number (map named_of seats.old)) (move_of move_.now)) (map named_of seats.old)) }
{
    seats[at].act(versions, move_)
}

// Adds what is placed, if anything is.
fn push(store: &mut Vec<Arc<Commit>>, commit: Option<&Arc<Commit>>) -> Result<(), AllocError>
    ensures { OnOk result (map arc_value store.new.items ≡ map arc_value store.old.items ++ option_to_list (option_map (λ c. arc_value c.now) commit.entry)) }
{
    match commit {
        Some(commit) => {
            store.push(Arc::try_clone(commit)?)?;
            Ok(())
        }
        None => Ok(()),
    }
}

// One step.
fn take(
    alloc: Global,
    store: &mut Vec<Arc<Commit>>,
    seats: &mut Vec<Seat>,
    step: &NodeStep,
) -> Result<(), AllocError>
    requires { IsAhead (world_in store.old.items seats.old.items) }
    ensures { OnOk result (world_in store.new.items seats.new.items ≡ after (world_in store.old.items seats.old.items) (step_of step.now)) }
{
    let versions = store.len() as u64;
    let at = seat_of(alloc, seats, step.node)?;
    push(store, seats[at].placed(versions, &step.move_))?;
    act_at(seats, at, step.node, versions, &step.move_)
}

// What is told of the nodes.
fn told(alloc: Global, mut seats: VecDeque<Seat>) -> Result<Vec<NodeState>, AllocError>
    ensures { IfOk result (λ v. map state_told v.items ≡ map told_of (map named_of seats.items)) }
{
    let mut states = Vec::new(alloc);
    while let Some(seat) = seats.pop_front() {
        states.push(NodeState {
            published: seat.published,
            acknowledged: seat.acknowledged,
        })?;
    }
    Ok(states)
}

/// What the steps of nodes over one store leave, one after another. A step that can't be made changes nothing, and any list is taken. The
/// error is want of memory. The time is that of the steps, times the number of nodes.
pub fn nodes(alloc: Global, steps: &[NodeStep]) -> Result<World, AllocError>
    ensures store { IfOk result (λ w. w.store ≡ (world_of (map step_of steps.now)).store) }
    ensures nodes { IfOk result (λ w. map state_told w.nodes.items ≡ map told_of (world_of (map step_of steps.now)).nodes) }
{
    let mut store = Vec::new(alloc);
    let mut seats = Vec::new(alloc);
    for step in steps {
        take(alloc, &mut store, &mut seats, step)?;
    }
    let nodes = told(alloc, VecDeque::from(seats))?;
    Ok(World {
        store: Commits::of(store),
        nodes,
    })
}
