// The rules that the actions of a commit keep.
ghost use Rattle.std.specs.Prelude.{◌≡◌, ◌↔◌, ◌&&◌, ◌||◌, ℕ, List, [], Ok, IfOk, OnOk, false, length, bytes_eq, option_map};
ghost use Rattle.std.specs.List.{range_with_len};
ghost use Rattle.std.specs.Option.{option_map_or};
ghost use Rattle.log_actions.specs.Commits.{IsCommit};
ghost use Rattle.log_actions.specs.Commits as rule;
ghost use Rattle.log_commit.specs.Passes.{broken, holds};
ghost use Rattle.log_commit.specs.Rules.{commit_from, first_broken as first_broken_of};
ghost use Rattle.log_commit.specs.Seen.{Records};
ghost use Rattle.log_commit.specs.Texts.{Answers};

use crate::{CommitFault, NoCommit};
use log_actions::{Action, Actions, Commit, is_good_path};
use std::alloc::{AllocError, Global};
use std::collections::BTreeMap;

// What is known of the actions before one: whether a protocol and a metaData is among them, and the paths that they
// count for.
#[derive(Drop)]
struct Seen<'a> {
    protocol: bool,
    meta_data: bool,
    paths: BTreeMap<&'a str, ()>,
}

// What stood before an action: a protocol, a metaData, and the path that it counts for.
#[derive(Clone, Copy, Drop)]
struct Before {
    protocol: bool,
    meta_data: bool,
    path: bool,
}

fn is_protocol(action: &Action) -> bool
    ensures { result ≡ rule.is_protocol action.now }
{
    matches!(action, Action::Protocol(_))
}

fn is_meta_data(action: &Action) -> bool
    ensures { result ≡ rule.is_meta_data action.now }
{
    matches!(action, Action::MetaData(_))
}

fn has_good_path(alloc: Global, action: &Action) -> Result<bool, AllocError>
    ensures { IfOk result (λ good. good ≡ rule.has_good_path action.now) }
{
    match action {
        Action::Add(file) => is_good_path(alloc, &file.path),
        Action::Remove(file) => is_good_path(alloc, &file.path),
        Action::Cdc(file) => is_good_path(alloc, &file.path),
        Action::Protocol(_) | Action::MetaData(_) | Action::Txn(_) | Action::CommitInfo(_) => Ok(
            true,
        ),
    }
}

// The path that an action counts for: that of an add or a remove without a deletion vector.
fn counted_path(action: &Action) -> Option<&str>
    ensures { option_map (λ s. s.now) result ≡ rule.counted_path action.now }
{
    match action {
        Action::Add(file) if !file.vector => Some(file.path.as_str()),
        Action::Remove(file) if !file.vector => Some(file.path.as_str()),
        _ => None,
    }
}

fn is_second(seen: bool, this: bool) -> bool
    ensures { result ≡ (this && seen) }
{
    this && seen
}

// The first rule that the action of line n breaks after those before it.
fn broken_rule(
    alloc: Global,
    before: Before,
    n: u64,
    action: &Action,
) -> Result<Option<CommitFault>, AllocError>
    ensures { IfOk result (λ fault. fault ≡ broken n before.protocol before.meta_data before.path action.now) }
{
    if is_second(before.protocol, is_protocol(action)) {
        return Ok(Some(CommitFault::TwoProtocols { n }));
    }
    if is_second(before.meta_data, is_meta_data(action)) {
        return Ok(Some(CommitFault::TwoMetaData { n }));
    }
    if !has_good_path(alloc, action)? {
        return Ok(Some(CommitFault::BadPath { n }));
    }
    if before.path {
        return Ok(Some(CommitFault::PathTwice { n }));
    }
    Ok(None)
}

// Puts the path in that the action counts for, and answers whether it was there.
fn put_path<'a>(paths: &mut BTreeMap<&'a str, ()>, action: &'a Action) -> Result<bool, AllocError>
    ensures put { OnOk result ((q : List ℕ) → holds paths.new q ≡ (option_map_or (λ path. bytes_eq path q) (rule.counted_path action.now) false || holds paths.old q)) }
    ensures was { IfOk result (λ was. was ≡ option_map_or (holds paths.old) (rule.counted_path action.now) false) }
{
    match counted_path(action) {
        Some(path) => Ok(paths.insert(path, ())?.is_some()),
        None => Ok(false),
    }
}

// Adds an action to those seen, and answers what stood before it.
fn record_action<'a>(seen: &mut Seen<'a>, action: &'a Action) -> Result<Before, AllocError>
    ensures records { OnOk result (Records seen.old seen.new action.now) }
    ensures protocol { IfOk result (λ before. before.protocol ≡ seen.old.protocol) }
    ensures meta_data { IfOk result (λ before. before.meta_data ≡ seen.old.meta_data) }
    ensures path { IfOk result (λ before. before.path ≡ option_map_or (holds seen.old.paths) (rule.counted_path action.now) false) }
{
    let protocol = seen.protocol;
    let meta_data = seen.meta_data;
    let path = put_path(&mut seen.paths, action)?;
    seen.protocol = protocol || is_protocol(action);
    seen.meta_data = meta_data || is_meta_data(action);
    Ok(Before {
        protocol,
        meta_data,
        path,
    })
}

// Adds the action of line n to those seen, and answers the first rule that it breaks after them.
fn take_action<'a>(
    alloc: Global,
    seen: &mut Seen<'a>,
    n: u64,
    action: &'a Action,
) -> Result<Option<CommitFault>, AllocError>
    ensures fault { IfOk result (λ fault. fault ≡ broken n seen.old.protocol seen.old.meta_data (option_map_or (holds seen.old.paths) (rule.counted_path action.now) false) action.now) }
    ensures records { OnOk result (Records seen.old seen.new action.now) }
{
    let before = record_action(seen, action)?;
    broken_rule(alloc, before, n, action)
}

// The first rule that an action breaks, with the number of its line.
pub(crate) fn first_broken(
    alloc: Global,
    numbers: &[u64],
    actions: &[Action],
) -> Result<Option<CommitFault>, AllocError>
    requires { length numbers.now ≡ length actions.now }
    ensures { IfOk result (λ fault. fault ≡ first_broken_of [] numbers.now actions.now) }
{
    let mut seen = Seen {
        protocol: false,
        meta_data: false,
        paths: BTreeMap::new(alloc),
    };
    for i in 0..actions.len() {
        let fault = take_action(alloc, &mut seen, numbers[i], &actions[i])?;
        if fault.is_some() {
            return Ok(fault);
        }
    }
    Ok(None)
}

// The numbers 1 to n.
fn numbers_to(alloc: Global, n: usize) -> Result<Vec<u64>, AllocError>
    ensures { IfOk result (λ numbers. numbers.items ≡ range_with_len 1 n) }
{
    let mut numbers = Vec::with_capacity(alloc, n)?;
    for place in 0..n {
        numbers.push(place as u64 + 1)?;
    }
    Ok(numbers)
}

fn made(alloc: Global, actions: Actions) -> Result<Commit, NoCommit>
    ensures { Answers result (commit_from actions) }
{
    let numbers = numbers_to(alloc, actions.items().len())?;
    match first_broken(alloc, &numbers, actions.items())? {
        Some(fault) => Err(NoCommit::Fault(fault)),
        None => Ok(Commit::of(actions)),
    }
}

/// The commit of these actions, in their order, or the first rule that one of them breaks: its
/// `n` is the action's place among them, counted from 1.
pub fn commit_from(alloc: Global, actions: Actions) -> Result<Commit, NoCommit>
    ensures value { Answers result (commit_from actions) }
    ensures law { (commit_from actions ≡ Ok actions) ↔ IsCommit actions }
{
    made(alloc, actions)
}
