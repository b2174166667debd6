// Some of a table's files, shared.
ghost use Rattle.std.specs.Prelude.{◌≡◌, ℕ, ◌+◌, ◌<◌, ◌≤◌, ◌++◌, ◌∷◌, [], OnOk, IfOk, IfSome, MatchResult, Some, length, map, take, drop, slice_get, option_map, option_to_list};
ghost use Rattle.std.specs.Arc.{arc_value};

use log_actions::AddFile;
use std::alloc::{AllocError, Global};
use std::marker::Model;
use std::sync::Arc;

// Some of a table's files, in byte order of path. A file may be shared with other parts.
#[derive(Drop)]
pub(crate) struct Part {
    files: Vec<Arc<AddFile>>,
}

impl Model for Part {
    ghost use Rattle.std.specs.Prelude.{List, map};
    ghost use Rattle.std.specs.Arc.{arc_value};
    ghost use Rattle.log_actions.specs.declared.actions.AddFile.{AddFile};

    ghost Value = { List AddFile };

    ghost view = { λ p. map arc_value p.files.items };
}

// The files of one list, shared, after those of another.
fn push_all(into: &mut Vec<Arc<AddFile>>, from: &[Arc<AddFile>]) -> Result<(), AllocError>
    ensures { OnOk result (map arc_value into.new.items ≡ map arc_value into.old.items ++ map arc_value from.now) }
{
    for file in from {
        into.push(Arc::try_clone(file)?)?;
    }
    Ok(())
}

// A file comes last, if there is one.
pub(crate) fn push_one(
    into: &mut Vec<Arc<AddFile>>,
    file: Option<Arc<AddFile>>,
) -> Result<(), AllocError>
    ensures { OnOk result (map arc_value into.new.items ≡ map arc_value into.old.items ++ option_to_list (option_map arc_value file)) }
{
    if let Some(file) = file {
        into.push(file)?;
    }
    Ok(())
}

impl Part {
    ghost use Rattle.log_replay.specs.Listing.{CutsAt, StandsAt, first_path};
    ghost use Rattle.log_replay.specs.Snapshots.{PathsRise};

    // A part of these files.
    pub(crate) fn of(files: Vec<Arc<AddFile>>) -> Part
        ensures { result ≡ map arc_value files.items }
    {
        Part { files }
    }

    // How many files it has.
    pub(crate) fn len(&self) -> u64
        ensures { result ≡ length self.now }
    {
        self.files.len() as u64
    }

    // The file at a place in byte order of path, counted from 0.
    pub(crate) fn file(&self, place: u64) -> &AddFile
        requires { place < length self.now }
        ensures { slice_get self.now place ≡ Some result.now }
    {
        &self.files[place as usize]
    }

    // Its files.
    pub(crate) fn files(&self) -> &[Arc<AddFile>]
        ensures { map arc_value result.now ≡ self.now }
    {
        &self.files
    }

    // The path of the first file, empty where there is none.
    pub(crate) fn first_path(&self) -> &str
        ensures { result.now ≡ first_path self.now }
    {
        match self.files.first() {
            Some(file) => file.path.as_str(),
            None => "",
        }
    }

    // Where a path stands, or would stand.
    pub(crate) fn search(&self, path: &str) -> Result<usize, usize>
        requires { PathsRise self.now }
        ensures { MatchResult result (StandsAt path.now self.now) (CutsAt path.now self.now) }
    {
        self.files
            .binary_search_by(|file| file.path.as_str().cmp(path))
    }

    // The files before `at`, this one, and those from `next` on.
    pub(crate) fn spliced(
        &self,
        alloc: Global,
        at: usize,
        next: usize,
        file: Option<Arc<AddFile>>,
    ) -> Result<Vec<Arc<AddFile>>, AllocError>
        requires at { at ≤ length self.now }
        requires next { next ≤ length self.now }
        ensures { IfOk result (λ v. map arc_value v.items ≡ take at self.now ++ (option_to_list (option_map arc_value file) ++ drop next self.now)) }
    {
        let mut files = Vec::with_capacity(alloc, self.files.len() + 1)?;
        push_all(&mut files, &self.files[..at])?;
        push_one(&mut files, file)?;
        push_all(&mut files, &self.files[next..])?;
        Ok(files)
    }
}
