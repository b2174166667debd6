// Which files of a table a query is answered.
ghost use Rattle.std.specs.Prelude.{◌≡◌, IfOk, option_map};
ghost use Rattle.pred_tree.specs.Listing.{IsFilter, passes, pred_by};
ghost use Rattle.pred_tree.specs.Tree.{tree};

use crate::{BoundPred, Pred, bind, pred_of};
use json_tree::Text;
use log_actions::{AddFile, MetaData};
use part_values::columns_of;
use std::alloc::{AllocError, Global};

/// Which files of one table a query is answered: those that its predicate doesn't make False, all
/// where it has none (Delta Sharing PROTOCOL.md, "JSON predicates for Filtering"). The columns were
/// looked up when it was made.
#[derive(Drop)]
pub struct Filter {
    pred: Option<BoundPred>,
}

impl Filter {
    /// The filter of a predicate, or of none, over the partition columns of a table. The error is
    /// want of memory.
    pub fn of(alloc: Global, pred: &Option<Pred>, meta: &MetaData) -> Result<Filter, AllocError>
        ensures { IfOk result (IsFilter (option_map tree pred.now) meta.now) }
    {
        let Some(pred) = pred else {
            return Ok(Filter { pred: None });
        };
        let columns = columns_of(alloc, &meta.schema, &meta.columns)?;
        Ok(Filter {
            pred: Some(bind(alloc, pred, &columns)?),
        })
    }

    /// The filter of the text that a query gives as its predicate: all files pass where there is none, and where it is no predicate.
    /// The error is want of memory.
    pub fn of_hint(
        alloc: Global,
        hint: &Option<Text>,
        meta: &MetaData,
    ) -> Result<Filter, AllocError>
        ensures { IfOk result (IsFilter (pred_by hint.now) meta.now) }
    {
        let pred = match hint {
            Some(text) => pred_of(alloc, text.as_str())?,
            None => None,
        };
        Filter::of(alloc, &pred, meta)
    }

    /// Whether the file is listed. Takes no memory.
    pub fn lists(&self, file: &AddFile) -> bool
        ensures { result ≡ passes self.now file.now }
    {
        match &self.pred {
            Some(pred) => pred.eval(file).is_listed(),
            None => true,
        }
    }
}
