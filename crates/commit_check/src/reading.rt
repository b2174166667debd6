// What of a state counts as read, its predicate bound to the table's columns once.
ghost use Rattle.std.specs.Prelude.{◌≡◌, IfOk, option_map};
ghost use Rattle.commit_check.specs.Lookups as look;

use crate::offer::Reads;
use log_actions::{AddFile, MetaData};
use log_replay::Snapshot;
use pred_tree::{Filter, pred_of};
use std::alloc::{AllocError, Global};

// The files of a state that count as read.
#[derive(Drop)]
pub(crate) enum Reading<'a> {
    // None of them.
    Nothing,
    // Those that the filter lists.
    Of(&'a Snapshot, Filter),
}

// The filter of what counts as read, none where nothing does.
fn filter_of(alloc: Global, reads: &Reads, meta: &MetaData) -> Result<Option<Filter>, AllocError>
    ensures { IfOk result (look.IsFilterOf reads.now meta.now) }
{
    match reads {
        Reads::Nothing => Ok(None),
        Reads::All => Ok(Some(Filter::of(alloc, &None, meta)?)),
        Reads::Where(text) => {
            let pred = pred_of(alloc, text.as_str())?;
            Ok(Some(Filter::of(alloc, &pred, meta)?))
        }
    }
}

impl<'a> Reading<'a> {
    ghost use Rattle.commit_check.specs.ReadFiles as spec;

    /// What counts as read of the state, if there is one.
    pub(crate) fn of(
        alloc: Global,
        reads: &Reads,
        at: Option<&'a Snapshot>,
    ) -> Result<Reading<'a>, AllocError>
        ensures { IfOk result (spec.IsReading reads.now (option_map (λ s. s.now) at.entry)) }
    {
        let Some(state) = at else {
            return Ok(Reading::Nothing);
        };
        match filter_of(alloc, reads, state.meta())? {
            Some(filter) => Ok(Reading::Of(state, filter)),
            None => Ok(Reading::Nothing),
        }
    }

    // Whether a file counts as read.
    fn has_file(&self, file: &AddFile) -> bool
        ensures { result ≡ spec.has_file self.now file.now }
    {
        match self {
            Reading::Nothing => false,
            Reading::Of(_, filter) => filter.lists(file),
        }
    }

    fn has_path(&self, path: &str) -> bool
        ensures { result ≡ spec.has_path self.now path.now }
    {
        match self {
            Reading::Nothing => false,
            Reading::Of(state, filter) => match state.find(path) {
                Some(file) => filter.lists(file),
                None => false,
            },
        }
    }

    /// Whether there is a path, and it is that of a file of the state that counts as read.
    pub(crate) fn has_path_of(&self, path: Option<&str>) -> bool
        ensures { result ≡ spec.has_path_of self.now (option_map (λ s. s.now) path.entry) }
    {
        match path {
            Some(path) => self.has_path(path),
            None => false,
        }
    }

    /// Whether there is a file, and it counts as read.
    pub(crate) fn has_file_of(&self, file: Option<&AddFile>) -> bool
        ensures { result ≡ spec.has_file_of self.now (option_map (λ f. f.now) file.entry) }
    {
        match file {
            Some(file) => self.has_file(file),
            None => false,
        }
    }
}
