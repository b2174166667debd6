// Whether anybody has a token.
ghost use Rattle.std.specs.Prelude.{◌≡◌, [], false, is_some};
ghost use Rattle.share_book.specs.Views.{view_by};
ghost use Rattle.share_catalog.specs.Views.{token};
ghost use Rattle.hub_calls.specs.Calls.{Adds, IsIdle, IsKnown};

use crate::hub::Hub;
use hub_calls::HubPass;
use std::sync::Wait;

impl Hub {
    /// Whether there is a recipient that has the token of that SHA-256 digest, though it may have expired, at the point of the history that
    /// the pass has seen then, which is no earlier than what it had seen. It takes one turn and no memory, and adds no entry.
    pub fn knows<R: Wait>(&self, rt: &R, pass: &mut HubPass, digest: &[u8; 32]) -> bool
        requires cell { (pass.old.cell ≡ self.now) × (pass.old.holds ≡ false) }
        ensures same { IsIdle pass.old pass.new }
        ensures added { Adds pass.old pass.new [] }
        ensures known { IsKnown pass.new }
        ensures somebody { result ≡ is_some (view_by pass.new.seen (token digest.now)) }
    {
        let turn = self.cell.take(rt, pass);
        let is_there = turn.value.knows(digest);
        self.cell.give(pass, turn);
        pass.known();
        is_there
    }
}
