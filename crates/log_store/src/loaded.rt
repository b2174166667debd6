// What a load gives.
ghost use Rattle.std.specs.Prelude.{◌≡◌, map};
ghost use Rattle.std.specs.Arc.{arc_value};

use log_actions::Commit;
use log_commit::CommitFault;
use log_replay::ReplayRefusal;
use std::marker::Model;
use std::sync::Arc;

/// Commits of one table, version after version.
#[derive(Drop)]
pub struct Commits {
    items: Vec<Arc<Commit>>,
}

impl Model for Commits {
    ghost use Rattle.std.specs.Prelude.{List, map};
    ghost use Rattle.std.specs.Arc.{arc_value};
    ghost use Rattle.log_actions.specs.declared.actions.Action.{Action};

    ghost Value = { List (List Action) };

    ghost view = { λ c. map arc_value c.items.items };
}

impl Commits {
    /// The commits in this order.
    pub fn of(items: Vec<Arc<Commit>>) -> Commits
        ensures { result ≡ map arc_value items.items }
    {
        Commits { items }
    }

    /// The commits, in order.
    pub fn items(&self) -> &[Arc<Commit>]
        ensures { map arc_value result.now ≡ self.now }
    {
        &self.items
    }

    /// The commits, in order, given back.
    pub fn into_items(self) -> Vec<Arc<Commit>>
        ensures { map arc_value result.items ≡ self }
    {
        self.items
    }
}

/// Why a version of a log isn't kept.
#[derive(Clone, Copy, Debug, PartialEq, Eq)]
pub enum BlockCause {
    /// The least version that the folder names isn't 0: the log begins with a checkpoint.
    NeedsCheckpoint {
        /// That least version.
        lowest: u64,
    },
    /// The version is missing below the greatest that the folder names.
    Gap,
    /// The stored bytes aren't the text of a commit.
    Commit(CommitFault),
    /// The table isn't read at this version.
    Replay(ReplayRefusal),
    /// The printed texts of versions 0 to this one pass 64 MiB in sum.
    TooLarge,
}

/// The first version of a log that isn't kept, and why.
#[derive(Clone, Copy, Debug, PartialEq, Eq)]
pub struct Block {
    /// The version, which is how many are kept.
    pub version: u64,
    /// The first cause that holds: no commit of that version is stored; a text that isn't a commit's, too
    /// many bytes, a version that isn't read.
    pub cause: BlockCause,
}

/// What is kept of a table's log.
#[derive(Drop)]
pub struct Loaded {
    /// The commits of the versions 0 and on, up to the first that isn't kept.
    pub commits: Commits,
    /// How many bytes their printed texts have in sum, at most 64 MiB.
    pub bytes: u64,
    /// The first version that isn't kept, where it or a later one is named in the folder.
    pub block: Option<Block>,
}
