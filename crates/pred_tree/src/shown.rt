// Which files of a table are shown where it is shared in part.
ghost use Rattle.std.specs.Prelude.{◌≡◌, IfOk, option_copied};
ghost use Rattle.pred_tree.specs.Shown.{IsShown, shown_in};

use crate::{BoundPred, bind, pred_of};
use log_actions::{AddFile, MetaData};
use part_values::columns_of;
use std::alloc::{AllocError, Global};

#[derive(Drop)]
enum ShownBy {
    All,
    Nothing,
    Where(BoundPred),
}

/// Which files of one table are shown: all where it is shared whole; else those of which the predicate of a text is true, by their
/// values of the partition columns, and none where the text is no predicate. So a file of which it is unknown isn't shown. The columns were
/// looked up when it was made.
#[derive(Drop)]
pub struct Shown {
    by: ShownBy,
}

impl Shown {
    /// What is shown of a table with this metaData by such a text, or by none. The error is want of memory.
    pub fn of(alloc: Global, only: Option<&str>, meta: &MetaData) -> Result<Shown, AllocError>
        ensures { IfOk result (IsShown (option_copied only.entry) meta.now) }
    {
        let Some(text) = only else {
            return Ok(Shown { by: ShownBy::All });
        };
        let Some(pred) = pred_of(alloc, text)? else {
            return Ok(Shown {
                by: ShownBy::Nothing,
            });
        };
        let columns = columns_of(alloc, &meta.schema, &meta.columns)?;
        Ok(Shown {
            by: ShownBy::Where(bind(alloc, &pred, &columns)?),
        })
    }

    /// Whether the file is shown. Takes no memory.
    pub fn shows(&self, file: &AddFile) -> bool
        ensures { result ≡ shown_in self.now file.now }
    {
        match &self.by {
            ShownBy::All => true,
            ShownBy::Nothing => false,
            ShownBy::Where(pred) => pred.eval(file).is_true(),
        }
    }
}
