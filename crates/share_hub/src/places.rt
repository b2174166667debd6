// Where the logs are, and what callers tell each other.
ghost use Rattle.std.specs.Prelude.{◌≡◌, [], false, IfOk};
ghost use mathlib.Core.List.{IsPrefix};
ghost use Rattle.share_book.specs.Legal.{locations_of};
ghost use Rattle.hub_calls.specs.Calls.{Adds, IsIdle, IsKnown};

use crate::hub::Hub;
use edge_core::Name;
use hub_calls::HubPass;
use std::alloc::{AllocError, Global};
use std::sync::Wait;

impl Hub {
    /// The locations of the logs, in the order in which they were loaded. The error is want of memory.
    pub fn locations<R: Wait>(
        &self,
        rt: &R,
        alloc: Global,
        pass: &mut HubPass,
    ) -> Result<Vec<Name>, AllocError>
        requires cell { (pass.old.cell ≡ self.now) × (pass.old.holds ≡ false) }
        ensures same { IsIdle pass.old pass.new }
        ensures added { Adds pass.old pass.new [] }
        ensures locations { IfOk result (λ v. v.items ≡ locations_of pass.new.seen) }
        ensures known { IsKnown pass.new }
    {
        let turn = self.cell.take(rt, pass);
        let locations = turn.value.locations(alloc);
        self.cell.give(pass, turn);
        pass.known();
        locations
    }

    /// Tells `a` what `b` has seen. It waits for nobody, takes no memory and adds nothing; what `a` has then seen may be more
    /// than both had.
    pub fn meet(&self, a: &mut HubPass, b: &mut HubPass)
        requires cell { (a.old.cell ≡ self.now) × (b.old.cell ≡ self.now) }
        requires idle { (a.old.holds ≡ false) × (b.old.holds ≡ false) }
        ensures other { b.new ≡ b.old }
        ensures same { IsIdle a.old a.new }
        ensures added { Adds a.old a.new [] }
        ensures told { IsPrefix b.old.seen a.new.seen }
        ensures known { IsKnown a.new }
    {
        self.cell.meet(a, b);
        a.known();
    }
}
