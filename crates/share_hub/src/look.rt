// What a hub shows for one request.
ghost use Rattle.std.specs.Prelude.{◌≡◌, [], false, IfOk, IfSome, OnOk, length};
ghost use Rattle.share_book.specs.Bases.{CanReplay, FilesStand, MakesFound};
ghost use Rattle.share_book.specs.Looks.{commits_of, glance_of, look_of, who_of};
ghost use Rattle.share_book.specs.Views.{held_view};
ghost use Rattle.hub_calls.specs.Calls.{Adds, IsIdle, IsKnown};
ghost use Rattle.share_hub.specs.Replays.{Replayed};

use crate::hub::Hub;
use hub_calls::HubPass;
use share_book::{Ask, Look, Pinned};
use std::alloc::{AllocError, Global};
use std::sync::Wait;
use step_count::Steps;

impl Hub {
    // Keeps the state of the files that were found, where memory is there for it.
    fn keep_found<R: Wait>(&self, rt: &R, pass: &mut HubPass, look: &Look)
        requires cell { (pass.old.cell ≡ self.now) × (pass.old.holds ≡ false) }
        requires found { IfSome look.now.seen (λ s. FilesStand pass.old.seen s.found) }
        ensures same { IsIdle pass.old pass.new }
        ensures added { Adds pass.old pass.new [] }
    {
        let mut turn = self.cell.take(rt, pass);
        turn.value.keep(look).ok();
        self.cell.give(pass, turn);
    }

    /// What one turn gives of a look: all of it but the files, and what makes these. The state with which they begin is the one used
    /// last. The error is want of memory.
    pub fn pin<R: Wait>(
        &self,
        rt: &R,
        alloc: Global,
        pass: &mut HubPass,
        ask: &Ask,
    ) -> Result<Pinned, AllocError>
        requires cell { (pass.old.cell ≡ self.now) × (pass.old.holds ≡ false) }
        ensures same { IsIdle pass.old pass.new }
        ensures added { Adds pass.old pass.new [] }
        ensures at { IfOk result (λ p. p.look.at ≡ length pass.new.seen) }
        ensures seen { IfOk result (λ p. p.look.seen ≡ glance_of (held_view pass.new.seen (who_of ask.now.who)) ask.now.want) }
        ensures makes { IfOk result (λ p. MakesFound (commits_of (held_view pass.new.seen (who_of ask.now.who)) ask.now.want) p.replay) }
        ensures fits { IfOk result (λ p. IfSome p.replay CanReplay) }
        ensures known { IsKnown pass.new }
    {
        let mut turn = self.cell.take(rt, pass);
        let pinned = turn.value.pin(alloc, ask);
        if let Ok(pinned) = &pinned {
            turn.value.touch(pinned);
        }
        self.cell.give(pass, turn);
        pass.known();
        pinned
    }

    /// What is found for one request, at the point of the history that the pass has seen then, which is no earlier than what it had
    /// seen: a plain function of what is held of the recipient's tables at that point and of what is asked. It adds no entry.
    ///
    /// The files of a version are made without the turn, of the latest state of their table that is kept, up to that version, and the
    /// commits after it; so is the list of those that a restriction shows, for each page but the first. Where commits were left, or files
    /// to list, the state is then kept with its list, and what is found is looked up again, each in one further turn. `steps` goes up by
    /// one for each action that is replayed. The error is want of memory.
    pub fn look<R: Wait, L>(
        &self,
        rt: &R,
        alloc: Global,
        pass: &mut HubPass,
        ask: &Ask,
        steps: &mut Steps<L>,
    ) -> Result<Look, AllocError>
        requires cell { (pass.old.cell ≡ self.now) × (pass.old.holds ≡ false) }
        ensures same { IsIdle pass.old pass.new }
        ensures added { Adds pass.old pass.new [] }
        ensures known { IsKnown pass.new }
        ensures at { IfOk result (λ l. l.at ≡ length pass.new.seen) }
        ensures seen { IfOk result (λ l. l.seen ≡ look_of (held_view pass.new.seen (who_of ask.now.who)) ask.now.want) }
        ensures counted { OnOk result (Replayed pass.old.seen pass.new.seen ask.now steps.old steps.new) }
    {
        let pinned = self.pin(rt, alloc, pass, ask)?;
        let is_behind = pinned.is_behind();
        let look = pinned.complete(alloc, steps)?;
        if !is_behind {
            return Ok(look);
        }
        self.keep_found(rt, pass, &look);
        self.pin(rt, alloc, pass, ask)?.complete(alloc, steps)
    }
}
