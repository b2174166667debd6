// A table's log as the book keeps it.
ghost use Rattle.std.specs.Prelude.{◌≡◌, ◌<◌, ◌≤◌, [], ◌∷◌, ◌++◌, IfOk, IfSome, OnOk, drop, is_some, length, map};
ghost use Rattle.std.specs.Arc.{arc_value};
ghost use Rattle.log_actions.specs.CommitTexts.{printed_bytes};
ghost use Rattle.log_actions.specs.CommitTexts.{commit_text};
ghost use Rattle.log_replay.specs.Times.{marks_in};
ghost use Rattle.share_book.specs.Legal.{IsKeptLog};
ghost use Rattle.share_book.specs.Bases.{AllStatesIn, IsStateIn};
ghost use Rattle.share_book.specs.Tables.{IsState, with_block, with_commit};

use crate::entry::LogStart;
use crate::snapshot::SharedSnapshot;
use crate::snapshots::Snapshots;
use edge_core::Name;
use log_actions::Commit;
use log_replay::{Mark, mark_of, marks_of};
use log_store::Commits;
use std::alloc::{AllocError, Global};
use std::marker::Model;
use std::sync::Arc;

/// How far a table's log is known.
#[derive(Clone, Copy)]
pub struct LogState {
    /// How many versions are kept.
    pub kept: u64,
    /// The bytes of their printed texts.
    pub bytes: u64,
    /// The version that isn't kept.
    pub block: Option<u64>,
}

/// The commits of a table's log, with their marks, the sum of their printed bytes and the states of some versions.
#[derive(Drop)]
pub(crate) struct Table {
    location: Name,
    commits: Vec<Arc<Commit>>,
    marks: Vec<Mark>,
    bytes: u64,
    block: Option<u64>,
    // For how many more commits there is room.
    room: usize,
    snapshots: Snapshots,
}

impl Model for Table {
    ghost use Rattle.std.specs.Prelude.{map, vec_len};
    ghost use Rattle.std.specs.Vec.{vec_capacity};
    ghost use Rattle.std.specs.Arc.{arc_value};
    ghost use Rattle.share_book.specs.TableView.{TableView};

    ghost Value = { TableView };

    ghost use Rattle.share_book.specs.Tables.{IsTable};

    ghost view = { λ t. record { log = record { location = t.location; commits = map arc_value t.commits.items; block = t.block }; room = t.room } };

    ghost invariant = { λ t. IsTable (map arc_value t.commits.items) t.marks.items t.bytes (vec_len t.commits) (vec_capacity t.commits) (vec_len t.marks) (vec_capacity t.marks) t.room t.snapshots };
}

impl Table {
    /// Where the log is stored.
    pub(crate) fn location(&self) -> &Name
        ensures { result.now ≡ self.now.log.location }
    {
        &self.location
    }

    /// The commits from a version on, none where there are no more. The error is want of memory.
    pub(crate) fn commits_from(&self, alloc: Global, version: u64) -> Result<Commits, AllocError>
        ensures { IfOk result (λ v. v ≡ drop version self.now.log.commits) }
    {
        if version > self.commits.len() as u64 {
            return Ok(Commits::of(Vec::new(alloc)));
        }
        let rest: &[Arc<Commit>] = &self.commits[version as usize..];
        Ok(Commits::of(shared(alloc, rest)?))
    }

    /// The commits as they are held, in order.
    pub(crate) fn held(&self) -> &[Arc<Commit>]
        ensures commits { map arc_value result.now ≡ self.now.log.commits }
        ensures kept { IsKeptLog self.now.log.commits }
    {
        &self.commits
    }

    /// The states that are kept.
    pub(crate) fn snapshots(&self) -> &Snapshots
        ensures { AllStatesIn self.now.log.commits result.now }
    {
        &self.snapshots
    }

    /// The state of that version, if it is kept, is the one used last.
    pub(crate) fn touch(&mut self, version: u64)
        ensures { self.new ≡ self.old }
    {
        self.snapshots.touch(version);
    }

    /// Keeps a state of the log. The error is want of memory; nothing is kept then.
    pub(crate) fn keep(&mut self, state: SharedSnapshot) -> Result<(), AllocError>
        requires { IsStateIn self.old.log.commits state }
        ensures { self.new ≡ self.old }
    {
        self.snapshots.keep(state)
    }

    /// Lets go of the state that was used least recently.
    pub(crate) fn drop_last(&mut self)
        ensures { self.new ≡ self.old }
    {
        self.snapshots.drop_last();
    }

    /// Whether a further version isn't kept.
    pub(crate) fn is_blocked(&self) -> bool
        ensures { result ≡ is_some self.now.log.block }
    {
        self.block.is_some()
    }

    /// The marks of its versions, in order.
    pub(crate) fn marks(&self) -> &[Mark]
        ensures { result.now ≡ marks_in self.now.log.commits }
    {
        &self.marks
    }

    /// Takes memory for one commit. The error is want of memory; some of it may be taken then.
    pub(crate) fn reserve(&mut self) -> Result<(), AllocError>
        ensures same { self.new.log ≡ self.old.log }
        ensures no_fewer { self.old.room ≤ self.new.room }
        ensures ready { OnOk result (1 ≤ self.new.room) }
    {
        if self.room > 0 {
            return Ok(());
        }
        self.commits.reserve(1)?;
        self.marks.reserve(1)?;
        self.room = 1;
        Ok(())
    }

    /// How many commits there are, and the bytes of their texts.
    pub(crate) fn state(&self) -> LogState
        ensures state { IsState self.now.log result }
        ensures kept { IsKeptLog self.now.log.commits }
    {
        LogState {
            kept: self.commits.len() as u64,
            bytes: self.bytes,
            block: self.block,
        }
    }

    /// Says that the next version isn't kept, and answers its number.
    pub(crate) fn block(&mut self) -> u64
        ensures version { result ≡ length self.old.log.commits }
        ensures blocked { self.new ≡ with_block self.old }
    {
        let version = self.commits.len() as u64;
        self.block = Some(version);
        version
    }

    /// Adds a commit, for which there is room.
    pub(crate) fn push(&mut self, commit: Arc<Commit>, bytes: u64)
        requires room { 0 < self.old.room }
        requires kept { IsKeptLog (self.old.log.commits ++ commit.value ∷ []) }
        requires bytes { bytes ≡ length (commit_text commit.value) }
        ensures { self.new ≡ with_commit self.old commit.value }
    {
        let version = self.commits.len() as u64;
        let mark = mark_of(self.marks.last(), version, &commit);
        self.marks.push_reserved(mark);
        self.commits.push_reserved(commit);
        self.bytes += bytes;
        self.room -= 1;
    }
}

/// The same commits again.
pub(crate) fn shared(alloc: Global, commits: &[Arc<Commit>]) -> Result<Vec<Arc<Commit>>, AllocError>
    ensures { IfOk result (λ v. map arc_value v.items ≡ map arc_value commits.now) }
{
    let mut copies = Vec::new(alloc);
    for commit in commits {
        copies.push(Arc::try_clone(commit)?)?;
    }
    Ok(copies)
}

/// A table's log that may be added to the book: seen as its location, its commits and its block.
#[derive(Drop)]
pub struct ReadyLog {
    pub(crate) table: Table,
    pub(crate) start: LogStart,
}

impl Model for ReadyLog {
    ghost use Rattle.share_book.specs.declared.entry.LogStart.{LogStart};

    ghost Value = { LogStart };

    ghost use Rattle.share_book.specs.Tables.{IsReady};

    ghost view = { λ r. r.start };

    ghost invariant = { λ r. IsReady r.table r.start };
}

/// A table's log with its marks.
pub fn ready(
    alloc: Global,
    location: Name,
    commits: Commits,
    bytes: u64,
    block: Option<u64>,
) -> Result<ReadyLog, AllocError>
    requires kept { IsKeptLog commits }
    requires bytes { bytes ≡ printed_bytes commits }
    requires block { IfSome block (λ n. n ≡ length commits) }
    ensures { IfOk result (λ r. r ≡ record { location = location; commits = commits; block = block }) }
{
    let table = Table {
        location: location.copy(alloc)?,
        commits: shared(alloc, commits.items())?,
        marks: marks_of(alloc, commits.items())?,
        bytes,
        block,
        room: 0,
        snapshots: Snapshots::new(alloc)?,
    };
    Ok(ReadyLog {
        table,
        start: LogStart {
            location,
            commits,
            block,
        },
    })
}
