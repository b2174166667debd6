// A table's files as a list of shared parts.
ghost use Rattle.std.specs.Prelude.{◌≡◌, bytes_eq, ℕ, ◌+◌, ◌<◌, ◌≤◌, ◌++◌, ◌∷◌, [], List, OnOk, IfOk, IfSome, MatchResult, option_map, Some, None, length, map, take, drop, slice_get, option_to_list};
ghost use Rattle.std.specs.List.{find};
ghost use Rattle.std.specs.Arc.{arc_value};
ghost use Rattle.log_actions.specs.declared.actions.Action.{Action};
ghost use Rattle.log_replay.specs.Listing.{AllSized, Changes, FallsAt, IsListing, IsSpot, LeadsAt, SetsPath, listed};

use crate::part::{Part, push_one};
use log_actions::{Action, AddFile};
use std::alloc::{AllocError, Global};
use std::sync::Arc;

// Where the files of a path are: in the part `part` from `at` up to `next`.
#[derive(Clone, Copy)]
pub(crate) struct Spot {
    pub(crate) part: usize,
    pub(crate) at: usize,
    pub(crate) next: usize,
}

// The part that begins with a path, or that before which it stands.
fn part_of(parts: &[Arc<Part>], path: &str) -> Result<usize, usize>
    requires { IsListing parts.now }
    ensures { MatchResult result (LeadsAt path.now parts.now) (FallsAt path.now parts.now) }
{
    parts.binary_search_by(|part| part.first_path().cmp(path))
}

fn spot_in(parts: &[Arc<Part>], path: &str, part: usize) -> Spot
    requires listing { IsListing parts.now }
    requires falls { FallsAt path.now parts.now (part + 1) }
    ensures { IsSpot path.now parts.now result.part result.at result.next }
{
    match parts[part].search(path) {
        Ok(at) => Spot {
            part,
            at,
            next: at + 1,
        },
        Err(at) => Spot { part, at, next: at },
    }
}

// Where the files of a path are.
pub(crate) fn spot_of(parts: &[Arc<Part>], path: &str) -> Spot
    requires listing { IsListing parts.now }
    requires some { 0 < length parts.now }
    ensures { IsSpot path.now parts.now result.part result.at result.next }
{
    match part_of(parts, path) {
        Ok(part) => Spot {
            part,
            at: 0,
            next: 1,
        },
        Err(0) => Spot {
            part: 0,
            at: 0,
            next: 0,
        },
        Err(after) => spot_in(parts, path, after - 1),
    }
}

// The file of a path.
pub(crate) fn file_of<'a>(parts: &'a [Arc<Part>], path: &str) -> Option<&'a AddFile>
    requires { IsListing parts.now }
    ensures { option_map (λ f. f.now) result ≡ find (λ f. bytes_eq f.path path.now) (listed parts.now) }
{
    if parts.is_empty() {
        return None;
    }
    let spot = spot_of(parts, path);
    if spot.at == spot.next {
        return None;
    }
    Some(parts[spot.part].file(spot.at as u64))
}

fn put_part(
    alloc: Global,
    parts: &mut Vec<Arc<Part>>,
    place: usize,
    files: Vec<Arc<AddFile>>,
) -> Result<(), AllocError>
    requires place { place ≤ length parts.old.items }
    requires some { 0 < length files.items }
    requires most { length files.items ≤ 256 }
    ensures files { OnOk result (listed parts.new.items ≡ listed (take place parts.old.items) ++ (map arc_value files.items ++ listed (drop place parts.old.items))) }
    ensures before { OnOk result (take place parts.new.items ≡ take place parts.old.items) }
    ensures after { OnOk result (listed (drop place parts.new.items) ≡ map arc_value files.items ++ listed (drop place parts.old.items)) }
    ensures sized { OnOk result (AllSized parts.old.items → AllSized parts.new.items) }
    ensures longer { OnOk result (place ≤ length parts.new.items) }
{
    let part = Arc::new(alloc, Part::of(files))?;
    parts.insert(place, part)?;
    Ok(())
}

// The files come between the parts before a place and the others, in one part or two.
fn put_files(
    alloc: Global,
    parts: &mut Vec<Arc<Part>>,
    place: usize,
    mut files: Vec<Arc<AddFile>>,
) -> Result<(), AllocError>
    requires place { place ≤ length parts.old.items }
    requires most { length files.items ≤ 257 }
    ensures files { OnOk result (listed parts.new.items ≡ listed (take place parts.old.items) ++ (map arc_value files.items ++ listed (drop place parts.old.items))) }
    ensures sized { OnOk result (AllSized parts.old.items → AllSized parts.new.items) }
{
    if files.is_empty() {
        return Ok(());
    }
    if files.len() <= 256 {
        return put_part(alloc, parts, place, files);
    }
    let later = files.split_off(128)?;
    put_part(alloc, parts, place, later)?;
    put_part(alloc, parts, place, files)?;
    Ok(())
}

fn only(alloc: Global, file: Option<Arc<AddFile>>) -> Result<Vec<Arc<AddFile>>, AllocError>
    ensures { IfOk result (λ v. map arc_value v.items ≡ option_to_list (option_map arc_value file)) }
{
    let mut files = Vec::new(alloc);
    push_one(&mut files, file)?;
    Ok(files)
}

// A path has this file from then on, or none. The part in which it stands is made anew; the files
// in it, and the other parts, stay shared. Where there is none to be removed, nothing is made.
fn set_file(
    alloc: Global,
    parts: &mut Vec<Arc<Part>>,
    path: &str,
    file: Option<Arc<AddFile>>,
) -> Result<(), AllocError>
    requires listing { IsListing parts.old.items }
    requires own { IfSome file (λ f. (arc_value f).path ≡ path.now) }
    ensures listing { OnOk result (IsListing parts.new.items) }
    ensures set { OnOk result (SetsPath path.now (option_map arc_value file) (listed parts.old.items) (listed parts.new.items)) }
{
    if parts.is_empty() {
        let files = only(alloc, file)?;
        put_files(alloc, parts, 0, files)?;
        return Ok(());
    }
    let spot = spot_of(parts, path);
    if spot.at == spot.next && file.is_none() {
        return Ok(());
    }
    let files = parts[spot.part].spliced(alloc, spot.at, spot.next, file)?;
    parts.remove(spot.part);
    put_files(alloc, parts, spot.part, files)?;
    Ok(())
}

// One action more.
fn change(alloc: Global, parts: &mut Vec<Arc<Part>>, action: &Action) -> Result<(), AllocError>
    requires { IsListing parts.old.items }
    ensures listing { OnOk result (IsListing parts.new.items) }
    ensures changed { OnOk result (Changes (listed parts.old.items) (listed parts.new.items) (action.now ∷ [])) }
{
    match action {
        Action::Add(file) => {
            let shared = Arc::new(alloc, file.copy(alloc)?)?;
            set_file(alloc, parts, file.path.as_str(), Some(shared))?;
        }
        Action::Remove(file) => set_file(alloc, parts, file.path.as_str(), None)?,
        Action::Protocol(_)
        | Action::MetaData(_)
        | Action::Cdc(_)
        | Action::Txn(_)
        | Action::CommitInfo(_) => {}
    }
    Ok(())
}

// A version's actions. The parts that no action changes stay shared.
pub(crate) fn change_all(
    alloc: Global,
    parts: &mut Vec<Arc<Part>>,
    actions: &[Action],
) -> Result<(), AllocError>
    requires { IsListing parts.old.items }
    ensures listing { OnOk result (IsListing parts.new.items) }
    ensures changed { OnOk result (Changes (listed parts.old.items) (listed parts.new.items) actions.now) }
{
    for action in actions {
        change(alloc, parts, action)?;
    }
    Ok(())
}

// The same parts, shared.
pub(crate) fn share_all(alloc: Global, parts: &[Arc<Part>]) -> Result<Vec<Arc<Part>>, AllocError>
    requires { AllSized parts.now }
    ensures files { IfOk result (λ v. listed v.items ≡ listed parts.now) }
    ensures sized { IfOk result (λ v. AllSized v.items) }
{
    let mut shared = Vec::with_capacity(alloc, parts.len())?;
    for part in parts {
        shared.push(Arc::try_clone(part)?)?;
    }
    Ok(shared)
}

// A file comes last, into a new part where the last one is full.
fn add_file(
    alloc: Global,
    parts: &mut Vec<Arc<Part>>,
    last: &mut Vec<Arc<AddFile>>,
    file: &AddFile,
) -> Result<(), AllocError>
    requires most { length last.old.items ≤ 192 }
    requires sized { AllSized parts.old.items }
    ensures files { OnOk result (listed parts.new.items ++ map arc_value last.new.items ≡ (listed parts.old.items ++ map arc_value last.old.items) ++ file.now ∷ []) }
    ensures most { OnOk result (length last.new.items ≤ 192) }
    ensures sized { OnOk result (AllSized parts.new.items) }
{
    let shared = Arc::new(alloc, file.copy(alloc)?)?;
    if last.len() < 192 {
        last.push(shared)?;
        return Ok(());
    }
    let mut fresh = Vec::new(alloc);
    fresh.push(shared)?;
    let full = std::mem::replace(last, fresh);
    let place = parts.len();
    put_part(alloc, parts, place, full)?;
    Ok(())
}

// Parts of these files.
pub(crate) fn parts_of(alloc: Global, files: &[&AddFile]) -> Result<Vec<Arc<Part>>, AllocError>
    ensures files { IfOk result (λ v. listed v.items ≡ map (λ f. f.now) files.now) }
    ensures sized { IfOk result (λ v. AllSized v.items) }
{
    let mut parts = Vec::new(alloc);
    let mut last = Vec::new(alloc);
    for file in files {
        add_file(alloc, &mut parts, &mut last, file)?;
    }
    let place = parts.len();
    put_files(alloc, &mut parts, place, last)?;
    Ok(parts)
}
