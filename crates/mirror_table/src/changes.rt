// The commit that brings a mirror to what is shared.
ghost use Rattle.std.specs.Prelude.{◌≡◌, ◌++◌, ◌∷◌, ◌&&◌, [], IfOk, OnOk, None, Some, bytes_eq, filter, is_some, map, not, option_map, pos};
ghost use Rattle.std.specs.Ordering.{int_eq};
ghost use Rattle.std.specs.List.{list_any};
ghost use Rattle.log_actions.specs.declared.actions.Action.TheVariants as action;
ghost use Rattle.log_replay.specs.Applied.{found};
ghost use Rattle.mirror_table.specs.Goals as goals;
ghost use Rattle.mirror_table.specs.Targets as spec;

use crate::Shared;
use crate::same::{same_file, same_meta, same_protocol};
use crate::wanted::{by_path, has_path, in_order};
use json_tree::{Text, Version};
use log_actions::{Action, AddFile, CommitInfo, CommitTime, MetaData, Protocol, RemoveFile, Txn};
use log_replay::Snapshot;
use std::alloc::{AllocError, Global};
use std::collections::BTreeMap;

fn mark_of(alloc: Global, app: &Text, version: Version) -> Result<Action, AllocError>
    ensures { IfOk result (λ a. a ≡ action.Txn (record { app = app.now; version = pos version; updated = None })) }
{
    Ok(Action::Txn(Txn {
        app: app.copy(alloc)?,
        version: version.get() as i64,
        updated: None,
    }))
}

fn remove_at(alloc: Global, now: CommitTime, file: &AddFile) -> Result<Action, AllocError>
    ensures { IfOk result (λ a. a ≡ spec.remove_at now file.now) }
{
    Ok(Action::Remove(RemoveFile {
        path: file.path.copy(alloc)?,
        deleted: Some(now.get() as i64),
        data_change: true,
        values: None,
        size: None,
        vector: false,
    }))
}

fn has_protocol(state: Option<&Snapshot>, protocol: &Protocol) -> bool
    ensures { result ≡ spec.has_protocol (option_map (λ s. s.now) state.entry) protocol.now }
{
    match state {
        Some(state) => same_protocol(state.protocol(), protocol),
        None => false,
    }
}

fn has_meta(state: Option<&Snapshot>, meta: &MetaData) -> bool
    ensures { result ≡ spec.has_meta (option_map (λ s. s.now) state.entry) meta.now }
{
    match state {
        Some(state) => same_meta(state.meta(), meta),
        None => false,
    }
}

fn has_same(state: Option<&Snapshot>, file: &AddFile) -> bool
    ensures { result ≡ spec.has_same (spec.files_of (option_map (λ s. s.now) state.entry)) file.now }
{
    let Some(state) = state else {
        return false;
    };
    match state.find(file.path.as_str()) {
        Some(live) => same_file(live, file),
        None => false,
    }
}

fn push_protocol(
    alloc: Global,
    actions: &mut Vec<Action>,
    state: Option<&Snapshot>,
    protocol: &Protocol,
) -> Result<(), AllocError>
    ensures { OnOk result (actions.new.items ≡ actions.old.items ++ spec.protocol_change (option_map (λ s. s.now) state.entry) protocol.now) }
{
    if !has_protocol(state, protocol) {
        actions.push(Action::Protocol(protocol.copy(alloc)?))?;
    }
    Ok(())
}

fn push_meta(
    alloc: Global,
    actions: &mut Vec<Action>,
    state: Option<&Snapshot>,
    meta: &MetaData,
) -> Result<(), AllocError>
    ensures { OnOk result (actions.new.items ≡ actions.old.items ++ spec.meta_change (option_map (λ s. s.now) state.entry) meta.now) }
{
    if !has_meta(state, meta) {
        actions.push(Action::MetaData(meta.copy(alloc)?))?;
    }
    Ok(())
}

// A remove of the file, unless its path is wanted.
fn push_remove(
    alloc: Global,
    actions: &mut Vec<Action>,
    file: &AddFile,
    now: CommitTime,
    wanted: &BTreeMap<&str, &AddFile>,
) -> Result<(), AllocError>
    ensures { OnOk result (actions.new.items ≡ actions.old.items ++ map (spec.remove_at now) (filter (λ f. not (is_some (found wanted.now f.path))) (file.now ∷ []))) }
{
    if !has_path(wanted, file.path.as_str()) {
        actions.push(remove_at(alloc, now, file)?)?;
    }
    Ok(())
}

fn push_removes_of(
    alloc: Global,
    actions: &mut Vec<Action>,
    state: &Snapshot,
    now: CommitTime,
    wanted: &BTreeMap<&str, &AddFile>,
) -> Result<(), AllocError>
    ensures { OnOk result (actions.new.items ≡ actions.old.items ++ map (spec.remove_at now) (filter (λ f. not (is_some (found wanted.now f.path))) state.now.files)) }
{
    for place in 0..state.len() {
        push_remove(alloc, actions, state.file(place), now, wanted)?;
    }
    Ok(())
}

// A remove of each live file whose path none of those that are wanted has.
fn push_removes(
    alloc: Global,
    actions: &mut Vec<Action>,
    state: Option<&Snapshot>,
    now: CommitTime,
    wanted: &BTreeMap<&str, &AddFile>,
) -> Result<(), AllocError>
    ensures { OnOk result (actions.new.items ≡ actions.old.items ++ map (spec.remove_at now) (filter (λ f. not (is_some (found wanted.now f.path))) (spec.files_of (option_map (λ s. s.now) state.entry)))) }
{
    match state {
        Some(state) => push_removes_of(alloc, actions, state, now, wanted),
        None => Ok(()),
    }
}

// An add of each file that isn't live as it is.
fn push_adds(
    alloc: Global,
    actions: &mut Vec<Action>,
    state: Option<&Snapshot>,
    wanted: &[&AddFile],
) -> Result<(), AllocError>
    ensures { OnOk result (actions.new.items ≡ actions.old.items ++ spec.adds (spec.files_of (option_map (λ s. s.now) state.entry)) (map (λ f. f.now) wanted.now)) }
{
    for file in wanted {
        if !has_same(state, file) {
            actions.push(Action::Add(file.copy(alloc)?))?;
        }
    }
    Ok(())
}

// A commitInfo of the moment, and the txn.
fn begun(alloc: Global, now: CommitTime, shared: &Shared) -> Result<Vec<Action>, AllocError>
    ensures { IfOk result (λ a. a.items ≡ action.CommitInfo (record { timestamp = Some now }) ∷ (action.Txn (spec.mark_of (goals.goal_of shared.now)) ∷ [])) }
{
    let mut actions = Vec::new(alloc);
    actions.push(Action::CommitInfo(CommitInfo {
        timestamp: Some(now),
    }))?;
    actions.push(mark_of(alloc, shared.app, shared.version)?)?;
    Ok(actions)
}

/// All that the commit has, if there is one to make.
pub(crate) fn changes(
    alloc: Global,
    state: Option<&Snapshot>,
    now: CommitTime,
    shared: &Shared,
) -> Result<Vec<Action>, AllocError>
    ensures { IfOk result (λ a. a.items ≡ spec.commit_to (option_map (λ s. s.now) state.entry) now (goals.goal_of shared.now)) }
{
    let wanted = by_path(alloc, shared.files)?;
    let files = in_order(alloc, &wanted)?;
    let mut actions = begun(alloc, now, shared)?;
    push_protocol(alloc, &mut actions, state, shared.protocol)?;
    push_meta(alloc, &mut actions, state, shared.meta)?;
    push_removes(alloc, &mut actions, state, now, &wanted)?;
    push_adds(alloc, &mut actions, state, &files)?;
    Ok(actions)
}

fn is_mark(txn: &Txn, app: &Text, version: Version) -> bool
    ensures { result ≡ (bytes_eq txn.now.app app.now && int_eq txn.now.version (pos version)) }
{
    txn.app.as_str() == app.as_str() && txn.version == version.get() as i64
}

fn are_marked(txns: &[Txn], app: &Text, version: Version) -> bool
    ensures { result ≡ list_any (λ t. bytes_eq t.app app.now && int_eq t.version (pos version)) txns.now }
{
    txns.iter().any(|txn| is_mark(txn, app, version))
}

/// Whether the state has the txn of the version.
pub(crate) fn has_mark(state: Option<&Snapshot>, shared: &Shared) -> bool
    ensures { result ≡ spec.has_mark (option_map (λ s. s.now) state.entry) (goals.goal_of shared.now) }
{
    match state {
        Some(state) => are_marked(state.txns(), shared.app, shared.version),
        None => false,
    }
}
