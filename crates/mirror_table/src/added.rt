// The files that an answer adds.
ghost use Rattle.std.specs.Prelude.{◌≡◌, option_map};
ghost use Rattle.mirror_table.specs.Added as spec;
ghost use Rattle.mirror_table.specs.Refusals.{Answers};

use crate::{NoTarget, Unsuited};
use delta_lines::{DeltaFile, FileAction};
use log_actions::AddFile;
use std::alloc::Global;

fn added(file: &DeltaFile) -> Option<&AddFile>
    ensures { option_map (λ f. f.now) result ≡ spec.added file.now }
{
    match &file.action {
        FileAction::Add(file) => Some(file),
        FileAction::Cdc(_) | FileAction::Remove(_) => None,
    }
}

/// What an answer's files add, in their order, or `NotAdd` where one of them isn't an add; the one error besides is want of
/// memory. Nothing is copied.
pub fn adds_of<'a>(alloc: Global, files: &'a [DeltaFile]) -> Result<Vec<&'a AddFile>, NoTarget>
    ensures { Answers (spec.lent result) (spec.adds_in files.now) }
{
    let mut adds = Vec::new(alloc);
    for file in files {
        match added(file) {
            Some(add) => adds.push(add)?,
            None => return Err(Unsuited::NotAdd.into()),
        }
    }
    Ok(adds)
}
