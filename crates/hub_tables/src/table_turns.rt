// What is done of a table's log within one turn.
ghost use Rattle.std.specs.Prelude.{◌≡◌, ◌++◌, ◌∷◌, [], IfOk, IfSome, None, Some, length, slice_index, ◌-◌, ◌≤◌, ◌<◌, true};
ghost use Rattle.log_actions.specs.CommitTexts.{commit_text};
ghost use Rattle.share_book.specs.Bases.{CanReplay, IsStateIn, MakesHead};
ghost use Rattle.share_book.specs.Books.{OthersRest, OwnIsLawful, rests};
ghost use Rattle.share_book.specs.History.{entry, open_on, pending, starts, table_on};
ghost use Rattle.share_book.specs.Legal.{TakesCommit, There};
ghost use Rattle.share_book.specs.declared.entry.Act.TheVariants as act;
ghost use Rattle.hub_tables.specs.TableTurns.{Blocks, FindsLog, GoesOnLog, IsLog, OpensLog, PublishesCommit, TakesNew};

use log_actions::Commit;
use share_book::{Book, LogState, Replay, SharedCommit, SharedSnapshot};
use std::alloc::{AllocError, Global};
use std::sync::Arc;

// The number of a table's log, and how far the log is known.
#[derive(Clone, Copy)]
pub(crate) struct KnownLog {
    pub(crate) log: u32,
    pub(crate) state: LogState,
}

// How far the log is known on which a Begin was added, or why none was.
#[derive(Clone, Copy)]
pub(crate) enum LogOpened {
    Open(LogState),
    Held,
    NoMemory,
}

// A found commit was added. For want of memory the Begin was ended after it.
#[derive(Clone, Copy)]
pub(crate) enum CommitPublished {
    Open,
    NoMemory,
}

// A commit to add: itself, the copy that readers share, and the length of its text.
#[derive(Drop)]
pub(crate) struct NewCommit {
    pub(crate) commit: Arc<Commit>,
    pub(crate) shared: SharedCommit,
    pub(crate) bytes: u64,
}

// The log of the table at a location.
pub(crate) fn find_in(book: &Book, location: &str) -> Option<KnownLog>
    ensures { FindsLog result location.now book.now.past.history }
{
    book.len();
    let log = book.log_of(location)?;
    Some(KnownLog {
        log,
        state: book.state(log),
    })
}

// What makes the state after all commits of a table's log, none where it has none.
pub(crate) fn head_in(book: &Book, alloc: Global, log: u32) -> Result<Option<Replay>, AllocError>
    requires { IsLog log book.now.past.history }
    ensures makes { IfOk result (λ r. There (table_on log book.now.past.history) (λ t. MakesHead t.commits r)) }
    ensures fits { IfOk result (λ r. IfSome r CanReplay) }
{
    book.len();
    book.head(alloc, log)
}

// Keeps a state of a table's log, where memory is there for it.
pub(crate) fn keep_in(book: &mut Book, log: u32, state: &SharedSnapshot)
    requires there { IsLog log book.old.past.history }
    requires state { There (table_on log book.old.past.history) (λ t. IsStateIn t.commits state.now) }
    ensures { book.new ≡ book.old }
{
    book.len();
    if let Ok(state) = state.share() {
        book.keep_state(log, state).ok();
    }
}

pub(crate) fn begin_log_in(book: &mut Book, caller: u32, log: u32) -> LogOpened
    requires rests { rests book.old ≡ true }
    requires there { IsLog log book.old.past.history }
    ensures rests { rests book.new ≡ true }
    ensures opened { OpensLog result caller log book.old.past.history book.new.past.history }
{
    book.len();
    match book.reserve(log) {
        Ok(()) => {}
        Err(_) => return LogOpened::NoMemory,
    }
    let state = book.state(log);
    if book.begin(caller, log) {
        LogOpened::Open(state)
    } else {
        LogOpened::Held
    }
}

pub(crate) fn abort_log_in(book: &mut Book, caller: u32, log: u32)
    requires rests { rests book.old ≡ true }
    requires there { IsLog log book.old.past.history }
    requires begun { open_on log book.old.past.history ≡ Some caller }
    ensures rests { rests book.new ≡ true }
    ensures added { book.new.past.history ≡ book.old.past.history ++ entry caller log act.Abort ∷ [] }
{
    book.len();
    book.abort(caller, log);
}

// Says that the next version isn't kept, and ends what the caller began.
pub(crate) fn block_log_in(book: &mut Book, caller: u32, log: u32)
    requires rests { rests book.old ≡ true }
    requires there { IsLog log book.old.past.history }
    requires begun { open_on log book.old.past.history ≡ Some caller }
    requires free { There (table_on log book.old.past.history) (λ t. t.block ≡ None) }
    ensures rests { rests book.new ≡ true }
    ensures blocked { Blocks caller log book.old.past.history book.new.past.history }
{
    book.len();
    book.block(caller, log);
    book.len();
    book.abort(caller, log);
}

// Takes memory for the next entries after a found commit, or ends what the caller began.
fn go_on_log(book: &mut Book, caller: u32, log: u32) -> CommitPublished
    requires there { IsLog log book.old.past.history }
    requires others { OthersRest log book.old }
    requires settled { pending book.old.past.history ≡ None }
    requires begun { open_on log book.old.past.history ≡ Some caller }
    requires room { 1 ≤ slice_index book.old.past.rooms log }
    ensures rests { rests book.new ≡ true }
    ensures ended { GoesOnLog result caller log book.old.past.history book.new.past.history }
{
    book.len();
    match book.reserve(log) {
        Ok(()) => CommitPublished::Open,
        Err(_) => {
            book.abort(caller, log);
            CommitPublished::NoMemory
        }
    }
}

// Publishes a commit that the store had.
pub(crate) fn publish_commit_in(
    book: &mut Book,
    caller: u32,
    log: u32,
    new: NewCommit,
) -> CommitPublished
    requires rests { rests book.old ≡ true }
    requires there { IsLog log book.old.past.history }
    requires begun { open_on log book.old.past.history ≡ Some caller }
    requires takes { TakesNew book.old.past.history log new }
    ensures rests { rests book.new ≡ true }
    ensures published { PublishesCommit result caller log new.commit.value book.old.past.history book.new.past.history }
{
    book.len();
    book.commit(caller, log, new.commit, new.shared, new.bytes, false);
    go_on_log(book, caller, log)
}

// Publishes the caller's own commit.
pub(crate) fn own_commit_in(book: &mut Book, caller: u32, log: u32, new: NewCommit)
    requires rests { rests book.old ≡ true }
    requires there { IsLog log book.old.past.history }
    requires begun { open_on log book.old.past.history ≡ Some caller }
    requires takes { TakesNew book.old.past.history log new }
    requires lawful { OwnIsLawful true book.old.past.history log new.commit.value }
    ensures rests { rests book.new ≡ true }
    ensures added { book.new.past.history ≡ book.old.past.history ++ entry caller log (act.Own new.commit.value) ∷ [] }
{
    book.len();
    book.commit(caller, log, new.commit, new.shared, new.bytes, true);
}
