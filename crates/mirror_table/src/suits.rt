// Whether what is shared can be followed below a location.
ghost use Rattle.std.specs.Prelude.{◌≡◌, ◌+◌, ◌==◌, ◌||◌, ◌++◌, ◌∷◌, [], ℕ, List, IfOk, OnOk, bytes_eq, drop, length, map, nat_lt};
ghost use Rattle.std.specs.List.{before_first, list_any, position};
ghost use Rattle.json_tree.specs.Lists.{pair_of};
ghost use Rattle.log_actions.specs.Commits as rules;
ghost use Rattle.log_commit.specs.Passes.{holds};
ghost use Rattle.mirror_table.specs.Refusals as spec;

use crate::{NoTarget, Shared, Unsuited};
use edge_core::Name;
use json_tree::Pair;
use log_actions::{AddFile, MetaData, path_name};
use log_replay::turns_on;
use std::alloc::{AllocError, Global};
use std::collections::BTreeMap;

// Puts a text in, and answers whether it was there.
fn put<'a>(seen: &mut BTreeMap<&'a str, ()>, text: &'a str) -> Result<bool, AllocError>
    ensures put { OnOk result ((q : List ℕ) → holds seen.new q ≡ (bytes_eq text.now q || holds seen.old q)) }
    ensures was { IfOk result (λ was. was ≡ holds seen.old text.now) }
{
    Ok(seen.insert(text, ())?.is_some())
}

// Whether each text stands among them once.
fn are_distinct(alloc: Global, texts: &[&str]) -> Result<bool, AllocError>
    ensures { IfOk result (λ b. b ≡ rules.are_distinct (map (λ t. t.now) texts.now)) }
{
    let mut seen = BTreeMap::new(alloc);
    for text in texts {
        if put(&mut seen, text)? {
            return Ok(false);
        }
    }
    Ok(true)
}

fn paths_of<'a>(alloc: Global, files: &[&'a AddFile]) -> Result<Vec<&'a str>, AllocError>
    ensures { IfOk result (λ paths. map (λ p. p.now) paths.items ≡ map (λ f. f.now.path) files.now) }
{
    let mut paths = Vec::new(alloc);
    for file in files {
        paths.push(file.path.as_str())?;
    }
    Ok(paths)
}

fn texts_of<'a>(alloc: Global, names: &'a [Name]) -> Result<Vec<&'a str>, AllocError>
    ensures { IfOk result (λ texts. map (λ t. t.now) texts.items ≡ names.now) }
{
    let mut texts = Vec::new(alloc);
    for name in names {
        texts.push(name.as_str())?;
    }
    Ok(texts)
}

fn push_name(
    alloc: Global,
    names: &mut Vec<Name>,
    location: &Name,
    file: &AddFile,
) -> Result<(), AllocError>
    ensures { OnOk result (names.new.items ≡ names.old.items ++ spec.names_of location.now (file.now.path ∷ [])) }
{
    match path_name(alloc, location, &file.path)? {
        Some(name) => {
            names.push(name)?;
            Ok(())
        }
        None => Ok(()),
    }
}

// The names of the objects, of those files that have one.
fn names_of(alloc: Global, location: &Name, files: &[&AddFile]) -> Result<Vec<Name>, AllocError>
    ensures { IfOk result (λ names. names.items ≡ spec.names_of location.now (map (λ f. f.now.path) files.now)) }
{
    let mut names = Vec::new(alloc);
    for file in files {
        push_name(alloc, &mut names, location, file)?;
    }
    Ok(names)
}

// What comes behind a location and a slash.
fn below<'a>(location: &[u8], name: &'a [u8]) -> &'a [u8]
    ensures { result.now ≡ drop (length location.now + 1) name.now }
{
    if location.len() < name.len() {
        &name[location.len() + 1..]
    } else {
        &[]
    }
}

fn slash_in(text: &[u8]) -> Option<usize>
    ensures { result ≡ position (λ b. b == 47) text.now }
{
    text.iter().position(|byte| *byte == b'/')
}

fn first_segment(text: &[u8]) -> &[u8]
    ensures { result.now ≡ before_first (λ b. b == 47) text.now }
{
    match slash_in(text) {
        Some(at) => &text[..at],
        None => text,
    }
}

fn is_in_log(location: &Name, name: &Name) -> bool
    ensures { result ≡ spec.is_in_log location.now name.now }
{
    let below = below(location.as_str().as_bytes(), name.as_str().as_bytes());
    first_segment(below) == b"_delta_log".as_slice()
}

fn are_in_log(location: &Name, names: &[Name]) -> bool
    ensures { result ≡ list_any (spec.is_in_log location.now) names.now }
{
    names.iter().any(|name| is_in_log(location, name))
}

fn sets_times(pair: &Pair) -> bool
    ensures { result ≡ spec.sets_times (pair_of pair.now) }
{
    match &pair.value {
        Some(value) => {
            pair.name.as_str() == "delta.enableInCommitTimestamps" && turns_on(value.as_str())
        }
        None => false,
    }
}

fn set_times(pairs: &[Pair]) -> bool
    ensures { result ≡ list_any (λ p. spec.sets_times (pair_of p)) pairs.now }
{
    pairs.iter().any(sets_times)
}

fn suit_meta(meta: &MetaData) -> Option<Unsuited>
    ensures { result ≡ spec.unsuited_meta meta.now }
{
    if set_times(meta.configuration.items()) {
        Some(Unsuited::TimesInCommits)
    } else {
        None
    }
}

fn unsuited_names(
    alloc: Global,
    location: &Name,
    names: &[Name],
) -> Result<Option<Unsuited>, AllocError>
    ensures { IfOk result (λ o. o ≡ spec.unsuited_names location.now names.now) }
{
    let texts = texts_of(alloc, names)?;
    if !are_distinct(alloc, &texts)? {
        return Ok(Some(Unsuited::NameTwice));
    }
    if are_in_log(location, names) {
        return Ok(Some(Unsuited::InLog));
    }
    Ok(None)
}

// Whether some file has no name.
fn are_fewer(names: &[Name], files: &[&AddFile]) -> bool
    ensures { result ≡ nat_lt (length names.now) (length files.now) }
{
    names.len() < files.len()
}

fn first_of(distinct: bool, nameless: bool, later: Option<Unsuited>) -> Option<Unsuited>
    ensures { result ≡ spec.first_of distinct nameless later }
{
    if !distinct {
        Some(Unsuited::PathTwice)
    } else if nameless {
        Some(Unsuited::BadPath)
    } else {
        later
    }
}

fn unsuited_paths(
    alloc: Global,
    location: &Name,
    files: &[&AddFile],
) -> Result<Option<Unsuited>, AllocError>
    ensures { IfOk result (λ o. o ≡ spec.unsuited_paths location.now (map (λ f. f.now.path) files.now)) }
{
    let paths = paths_of(alloc, files)?;
    let distinct = are_distinct(alloc, &paths)?;
    let names = names_of(alloc, location, files)?;
    let nameless = are_fewer(&names, files);
    let later = unsuited_names(alloc, location, &names)?;
    Ok(first_of(distinct, nameless, later))
}

/// Tells why what is shared isn't followed below the location, if it isn't.
pub(crate) fn suits(alloc: Global, location: &Name, shared: &Shared) -> Result<(), NoTarget>
    ensures { spec.Suits (spec.unsuited_goal location.now (spec.paths_of shared.now) shared.now.meta.now) result }
{
    if let Some(unsuited) = unsuited_paths(alloc, location, shared.files)? {
        return Err(unsuited.into());
    }
    match suit_meta(shared.meta) {
        Some(unsuited) => Err(unsuited.into()),
        None => Ok(()),
    }
}
