// Calls of the hub that take one turn on a table's log.
ghost use Rattle.std.specs.Prelude.{◌≡◌, ◌∷◌, [], false, true, IfOk, IfSome, None, Some, length};
ghost use Rattle.log_actions.specs.CommitTexts.{commit_text};
ghost use Rattle.share_book.specs.Bases.{CanReplay, IsStateIn, MakesHead};
ghost use Rattle.share_book.specs.Books.{OwnIsLawful};
ghost use Rattle.share_book.specs.History.{open_on, table_on};
ghost use Rattle.share_book.specs.Legal.{TakesCommit, There};
ghost use Rattle.share_book.specs.declared.entry.Act.TheVariants as act;
ghost use Rattle.hub_calls.specs.Calls.{Adds, IsIdle};
ghost use Rattle.hub_tables.specs.OfferLogs.{IsOfferLog};
ghost use Rattle.hub_tables.specs.TableCalls.{BeginsLog, BlocksLog, FindsCommit, GoesOn, StartsLog, StopsOn};
ghost use Rattle.hub_tables.specs.TableTurns.{FindsLog, IsLog, TakesNew};

use crate::caller::Caller;
use crate::offer_log::{OfferLog, offer_log_in};
use crate::table_turns::{
    CommitPublished, KnownLog, LogOpened, NewCommit, abort_log_in, begin_log_in, block_log_in,
    find_in, head_in, keep_in, own_commit_in, publish_commit_in,
};
use commit_check::Offer;
use hub_calls::HubPass;
use log_actions::Commit;
use share_book::{LogState, Replay, SharedCommit, SharedSnapshot};
use std::alloc::{AllocError, Global};
use std::sync::{Arc, Wait};
use std::thread;

impl<'a, R: Wait> Caller<'a, R> {
    // The log of the table at a location.
    pub(crate) fn find_log(&self, pass: &mut HubPass, location: &str) -> Option<KnownLog>
        requires cell { (pass.old.cell ≡ self.now.cell.now) × (pass.old.holds ≡ false) }
        ensures same { IsIdle pass.old pass.new }
        ensures added { Adds pass.old pass.new [] }
        ensures found { FindsLog result location.now pass.new.seen }
    {
        let turn = self.cell.take(self.rt, pass);
        let found = find_in(&turn.value, location);
        self.cell.give(pass, turn);
        found
    }

    // One turn, in which the Begin is added unless another is open on the log.
    fn try_begin_log(&self, pass: &mut HubPass, log: u32) -> LogOpened
        requires cell { (pass.old.cell ≡ self.now.cell.now) × (pass.old.holds ≡ false) }
        requires there { IsLog log pass.old.seen }
        ensures same { IsIdle pass.old pass.new }
        ensures begun { BeginsLog result log pass.old pass.new }
    {
        let number = pass.number();
        let mut turn = self.cell.take(self.rt, pass);
        let opened = begin_log_in(&mut turn.value, number, log);
        self.cell.give(pass, turn);
        opened
    }

    // Begins on a table's log, and waits where another caller has begun on it. It answers how far the log is known, or None
    // for want of memory.
    pub(crate) fn begin_log(&self, pass: &mut HubPass, log: u32) -> Option<LogState>
        requires cell { (pass.old.cell ≡ self.now.cell.now) × (pass.old.holds ≡ false) }
        requires there { IsLog log pass.old.seen }
        ensures same { IsIdle pass.old pass.new }
        ensures begun { StartsLog result log pass.old pass.new }
    {
        for _ in self.rt.forever() {
            match self.try_begin_log(pass, log) {
                LogOpened::Open(state) => return Some(state),
                LogOpened::NoMemory => return None,
                LogOpened::Held => thread::yield_now(),
            }
        }
        unreachable!()
    }

    // What an offer is judged by, of a table's log on which the caller has begun. The error is want of memory.
    pub(crate) fn offer_log(
        &self,
        pass: &mut HubPass,
        log: u32,
        offer: &Offer,
    ) -> Result<OfferLog, AllocError>
        requires cell { (pass.old.cell ≡ self.now.cell.now) × (pass.old.holds ≡ false) }
        requires there { IsLog log pass.old.seen }
        requires begun { open_on log pass.old.seen ≡ Some pass.old.number }
        ensures same { IsIdle pass.old pass.new }
        ensures goes { GoesOn pass.old pass.new log [] }
        ensures offered { IfOk result (λ o. There (table_on log pass.old.seen) (λ t. IsOfferLog offer.now.read t.commits o)) }
    {
        let turn = self.cell.take(self.rt, pass);
        turn.value.len();
        let found = offer_log_in(&turn.value, self.alloc, log, offer);
        self.cell.give(pass, turn);
        found
    }

    // What makes the state after a table's commits, on whose log the caller has begun, none where it has none. The error is want of
    // memory.
    pub(crate) fn log_replay(
        &self,
        pass: &mut HubPass,
        log: u32,
    ) -> Result<Option<Replay>, AllocError>
        requires cell { (pass.old.cell ≡ self.now.cell.now) × (pass.old.holds ≡ false) }
        requires there { IsLog log pass.old.seen }
        requires begun { open_on log pass.old.seen ≡ Some pass.old.number }
        ensures same { IsIdle pass.old pass.new }
        ensures goes { GoesOn pass.old pass.new log [] }
        ensures makes { IfOk result (λ r. There (table_on log pass.old.seen) (λ t. MakesHead t.commits r)) }
        ensures fits { IfOk result (λ r. IfSome r CanReplay) }
    {
        let turn = self.cell.take(self.rt, pass);
        turn.value.len();
        let head = head_in(&turn.value, self.alloc, log);
        self.cell.give(pass, turn);
        head
    }

    // Keeps the state that a replay made of a table's log on which the caller has begun, unless it was at hand, where memory is there
    // for it.
    pub(crate) fn keep_made(
        &self,
        pass: &mut HubPass,
        log: u32,
        replay: &Replay,
        state: &SharedSnapshot,
    )
        requires cell { (pass.old.cell ≡ self.now.cell.now) × (pass.old.holds ≡ false) }
        requires there { IsLog log pass.old.seen }
        requires begun { open_on log pass.old.seen ≡ Some pass.old.number }
        requires state { There (table_on log pass.old.seen) (λ t. IsStateIn t.commits state.now) }
        ensures same { IsIdle pass.old pass.new }
        ensures goes { GoesOn pass.old pass.new log [] }
    {
        if replay.commits.items().is_empty() {
            return;
        }
        let mut turn = self.cell.take(self.rt, pass);
        turn.value.len();
        keep_in(&mut turn.value, log, state);
        self.cell.give(pass, turn);
    }

    // Ends what the caller began.
    pub(crate) fn abort_log(&self, pass: &mut HubPass, log: u32)
        requires cell { (pass.old.cell ≡ self.now.cell.now) × (pass.old.holds ≡ false) }
        requires there { IsLog log pass.old.seen }
        requires begun { open_on log pass.old.seen ≡ Some pass.old.number }
        ensures same { IsIdle pass.old pass.new }
        ensures ended { StopsOn pass.old pass.new log [] (act.Abort ∷ []) }
    {
        let number = pass.number();
        let mut turn = self.cell.take(self.rt, pass);
        turn.value.len();
        abort_log_in(&mut turn.value, number, log);
        self.cell.give(pass, turn);
    }

    // Says that the next version isn't kept, and ends what the caller began.
    pub(crate) fn block_log(&self, pass: &mut HubPass, log: u32)
        requires cell { (pass.old.cell ≡ self.now.cell.now) × (pass.old.holds ≡ false) }
        requires there { IsLog log pass.old.seen }
        requires begun { open_on log pass.old.seen ≡ Some pass.old.number }
        requires free { There (table_on log pass.old.seen) (λ t. t.block ≡ None) }
        ensures same { IsIdle pass.old pass.new }
        ensures blocked { BlocksLog log pass.old pass.new }
    {
        let number = pass.number();
        let mut turn = self.cell.take(self.rt, pass);
        turn.value.len();
        block_log_in(&mut turn.value, number, log);
        self.cell.give(pass, turn);
    }

    // Publishes a commit that the store had. For want of memory the caller has ended what it began after it.
    pub(crate) fn publish_commit(
        &self,
        pass: &mut HubPass,
        log: u32,
        new: NewCommit,
    ) -> CommitPublished
        requires cell { (pass.old.cell ≡ self.now.cell.now) × (pass.old.holds ≡ false) }
        requires there { IsLog log pass.old.seen }
        requires begun { open_on log pass.old.seen ≡ Some pass.old.number }
        requires takes { TakesNew pass.old.seen log new }
        ensures same { IsIdle pass.old pass.new }
        ensures found { FindsCommit result log new.commit.value pass.old pass.new }
    {
        let number = pass.number();
        let mut turn = self.cell.take(self.rt, pass);
        turn.value.len();
        let published = publish_commit_in(&mut turn.value, number, log, new);
        self.cell.give(pass, turn);
        published
    }

    // Publishes the caller's own commit.
    pub(crate) fn own_commit(&self, pass: &mut HubPass, log: u32, new: NewCommit)
        requires cell { (pass.old.cell ≡ self.now.cell.now) × (pass.old.holds ≡ false) }
        requires there { IsLog log pass.old.seen }
        requires begun { open_on log pass.old.seen ≡ Some pass.old.number }
        requires takes { TakesNew pass.old.seen log new }
        requires lawful { OwnIsLawful true pass.old.seen log new.commit.value }
        ensures same { IsIdle pass.old pass.new }
        ensures ended { StopsOn pass.old pass.new log [] (act.Own new.commit.value ∷ []) }
    {
        let number = pass.number();
        let mut turn = self.cell.take(self.rt, pass);
        turn.value.len();
        own_commit_in(&mut turn.value, number, log, new);
        self.cell.give(pass, turn);
    }
}
