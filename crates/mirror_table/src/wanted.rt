// The files that a mirror is to have, by path.
ghost use Rattle.std.specs.Prelude.{◌≡◌, ℕ, List, [], IfOk, OnOk, is_some, fold, map, None};
ghost use Rattle.std.specs.BTreeMap.{IsOrdered, values};
ghost use Rattle.std.specs.Ordering.{nat_cmp};
ghost use Rattle.std.specs.Cmp.Lexicographic.{slice_cmp};
ghost use Rattle.log_actions.specs.declared.actions.Action.{Action};
ghost use Rattle.log_actions.specs.declared.actions.Action.TheVariants as action;
ghost use Rattle.log_replay.specs.Applied.{after, found};
ghost use Rattle.log_replay.specs.Reconciliation.{live_files};

use log_actions::AddFile;
use std::alloc::{AllocError, Global};
use std::collections::BTreeMap;

fn put<'a>(
    by_path: &mut BTreeMap<&'a str, &'a AddFile>,
    file: &'a AddFile,
) -> Result<(), AllocError>
    ensures { OnOk result ((q : List ℕ) → found by_path.new q ≡ after q (found by_path.old q) (action.Add file.now)) }
{
    by_path.insert(file.path.as_str(), file)?;
    Ok(())
}

/// The files by path.
pub(crate) fn by_path<'a>(
    alloc: Global,
    files: &[&'a AddFile],
) -> Result<BTreeMap<&'a str, &'a AddFile>, AllocError>
    ensures { IfOk result (λ by_path. (q : List ℕ) → found by_path q ≡ fold (after q) None (map (λ f. action.Add f.now) files.now)) }
{
    let mut by_path = BTreeMap::new(alloc);
    for file in files {
        put(&mut by_path, file)?;
    }
    Ok(by_path)
}

fn listed<'a>(
    alloc: Global,
    by_path: &BTreeMap<&'a str, &'a AddFile>,
) -> Result<Vec<&'a AddFile>, AllocError>
    ensures files { IfOk result (λ files. map (λ f. f.now) files.items ≡ map (λ f. f.now) (values by_path.now)) }
    ensures ordered { IsOrdered (λ x y. slice_cmp nat_cmp x.now y.now) by_path.now }
{
    let mut files = Vec::new(alloc);
    for file in by_path.values() {
        files.push(*file)?;
    }
    Ok(files)
}

/// The files in byte order of path.
pub(crate) fn in_order<'a>(
    alloc: Global,
    by_path: &BTreeMap<&'a str, &'a AddFile>,
) -> Result<Vec<&'a AddFile>, AllocError>
    ensures { IfOk result (λ files. (actions : List Action) → ((q : List ℕ) → found by_path.now q ≡ fold (after q) None actions) → map (λ f. f.now) files.items ≡ live_files actions) }
{
    let files = listed(alloc, by_path)?;
    Ok(files)
}

// Whether one of the files has the path.
pub(crate) fn has_path(by_path: &BTreeMap<&str, &AddFile>, path: &str) -> bool
    ensures { result ≡ is_some (found by_path.now path.now) }
{
    by_path.contains_key(path)
}
