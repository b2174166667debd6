// One node.
ghost use Rattle.std.specs.Prelude.{◌≡◌, ◌<◌, ◌+◌, ◌^◌, [], true, OnOk, option_map, option_to_list};
ghost use Rattle.std.specs.Arc.{arc_value};
ghost use Rattle.share_nodes.specs.Code.{move_of, node_of};
ghost use Rattle.share_nodes.specs.Steps.{can_place, can_read, fresh, moved, placed, published_one};

use crate::step::NodeMove;
use log_actions::Commit;
use std::alloc::{AllocError, Global};
use std::sync::Arc;

// A node, by its number.
#[derive(Drop)]
pub(crate) struct Seat {
    pub(crate) number: u32,
    pub(crate) is_up: bool,
    pub(crate) is_pending: bool,
    pub(crate) published: u64,
    pub(crate) acknowledged: Vec<u64>,
}

impl Seat {
    pub(crate) fn new(alloc: Global, number: u32) -> Seat
        ensures node { node_of result ≡ fresh }
        ensures number { result.number ≡ number }
    {
        Seat {
            number,
            is_up: true,
            is_pending: false,
            published: 0,
            acknowledged: Vec::new(alloc),
        }
    }

    // Whether the node takes over a version, of so many.
    fn can_read(&self, versions: u64) -> bool
        ensures { result ≡ can_read versions (node_of self.now) }
    {
        self.is_up && !self.is_pending && self.published < versions
    }

    // Whether the node places the next version, behind so many.
    fn can_place(&self, versions: u64) -> bool
        ensures { result ≡ can_place versions (node_of self.now) }
    {
        self.is_up && !self.is_pending && self.published == versions
    }

    // The commit that the node adds, where the log has so many versions.
    pub(crate) fn placed<'a>(&self, versions: u64, move_: &'a NodeMove) -> Option<&'a Arc<Commit>>
        ensures { option_to_list (option_map (λ c. arc_value c.now) result) ≡ placed versions (node_of self.now) (move_of move_.now) }
    {
        match move_ {
            NodeMove::Place(commit) => {
                if self.can_place(versions) {
                    Some(commit)
                } else {
                    None
                }
            }
            NodeMove::Read => None,
            NodeMove::Publish => None,
            NodeMove::Crash => None,
            NodeMove::Restart => None,
        }
    }

    // Publishes the version that it placed, and acknowledges it.
    fn publish(&mut self) -> Result<(), AllocError>
        requires { self.old.published + 1 < 2 ^ 64 }
        ensures node { OnOk result (node_of self.new ≡ published_one (node_of self.old)) }
        ensures number { self.new.number ≡ self.old.number }
    {
        self.acknowledged.push(self.published)?;
        self.published += 1;
        self.is_pending = false;
        Ok(())
    }

    // The move of the node, where the log has so many versions.
    pub(crate) fn act(&mut self, versions: u64, move_: &NodeMove) -> Result<(), AllocError>
        requires { self.old.is_pending ≡ true → self.old.published < versions }
        ensures node { OnOk result (node_of self.new ≡ moved versions (node_of self.old) (move_of move_.now)) }
        ensures number { self.new.number ≡ self.old.number }
    {
        match move_ {
            NodeMove::Read => {
                if self.can_read(versions) {
                    self.published += 1;
                }
                Ok(())
            }
            NodeMove::Place(_) => {
                if self.can_place(versions) {
                    self.is_pending = true;
                }
                Ok(())
            }
            NodeMove::Publish => {
                if self.is_pending {
                    self.publish()?;
                }
                Ok(())
            }
            NodeMove::Crash => {
                self.is_up = false;
                self.published = 0;
                self.is_pending = false;
                Ok(())
            }
            NodeMove::Restart => {
                if !self.is_up {
                    self.is_up = true;
                    self.published = versions;
                }
                Ok(())
            }
        }
    }
}
