// The actions of one version.
ghost use Rattle.std.specs.Prelude.{◌≡◌, IfOk};
ghost use Rattle.log_actions.specs.Commits.{IsCommit};

use crate::{Action, Actions};
use std::alloc::{AllocError, Global};
use std::marker::Model;

/// The actions of one version of a table, in the order of its lines (Delta Lake PROTOCOL.md, "Delta
/// Log Entries"). They keep the rules of a commit: at most one protocol and one metaData, each path
/// good, and no path in two adds or removes without a deletion vector.
#[derive(Drop)]
pub struct Commit {
    actions: Actions,
}

impl Model for Commit {
    ghost use Rattle.std.specs.Prelude.{List};
    ghost use Rattle.log_actions.specs.declared.actions.Action.{Action};

    ghost Value = { List Action };

    ghost use Rattle.log_actions.specs.Commits.{IsCommit};

    ghost view = { λ c. c.actions };

    ghost invariant = { λ c. IsCommit c.actions };
}

impl Commit {
    /// The commit of these actions.
    pub fn of(actions: Actions) -> Commit
        requires { IsCommit actions }
        ensures { result ≡ actions }
    {
        Commit { actions }
    }

    /// The actions, in order.
    pub fn actions(&self) -> &[Action]
        ensures value { result.now ≡ self.now }
        ensures rules { IsCommit self.now }
    {
        self.actions.items()
    }

    /// A commit of the same actions.
    pub fn copy(&self, alloc: Global) -> Result<Commit, AllocError>
        ensures { IfOk result (λ c. c ≡ self.now) }
    {
        Ok(Commit {
            actions: self.actions.copy(alloc)?,
        })
    }
}
