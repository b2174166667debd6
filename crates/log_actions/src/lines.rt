// The action that a line stands for.
ghost use Rattle.std.specs.Prelude.{◌≡◌, option_map};
ghost use Rattle.serde_json.specs.View.{view, members_view};
ghost use Rattle.log_actions.specs.Faults.{Gives};
ghost use Rattle.log_actions.specs.Lines.{action_at, action_in, action_of_data, members_left, only_member as sole_member, only_one};

use crate::reading::{
    read_add, read_cdc, read_commit_info, read_meta_data, read_protocol, read_remove, read_txn,
};
use crate::{Action, LineFault, NoAction};
use json_tree::{TreeFault, tree_of};
use serde_json::{Map, Value};
use std::alloc::Global;

// The one member that isn't null.
fn only_of(members: &Map<String, Value>) -> Option<(&str, &Value)>
    ensures { option_map (λ m. (m.0.now, view m.1.now)) result ≡ only_one (members_left (members_view members.now.entries)) }
{
    let mut found = None;
    for (name, value) in members {
        if value.is_null() {
            continue;
        }
        if found.is_some() {
            return None;
        }
        found = Some((name.as_str(), value));
    }
    found
}

fn only_member(object: &Value) -> Option<(&str, &Value)>
    ensures { option_map (λ m. (m.0.now, view m.1.now)) result ≡ sole_member (view object.now) }
{
    only_of(object.as_object()?)
}

#[tactic(auto, unfolding(crate::specs::Lines::action_in))]
fn read_action(alloc: Global, name: &str, value: &Value) -> Result<Option<Action>, NoAction>
    ensures { Gives result (action_in name.now (view value.now)) }
{
    match name {
        "protocol" => Ok(Some(Action::Protocol(read_protocol(alloc, value)?))),
        "metaData" => Ok(Some(Action::MetaData(read_meta_data(alloc, value)?))),
        "add" => Ok(Some(Action::Add(read_add(alloc, value)?))),
        "remove" => Ok(Some(Action::Remove(read_remove(alloc, value)?))),
        "cdc" => Ok(Some(Action::Cdc(read_cdc(alloc, value)?))),
        "txn" => Ok(Some(Action::Txn(read_txn(alloc, value)?))),
        "commitInfo" => Ok(Some(Action::CommitInfo(read_commit_info(value)))),
        _ => Ok(None),
    }
}

/// The action that a JSON value stands for: an object with one member that isn't null, the action's
/// name and value. None where that member has another name.
pub fn action_of(alloc: Global, object: &Value) -> Result<Option<Action>, NoAction>
    ensures { Gives result (action_of_data (view object.now)) }
{
    match only_member(object) {
        Some((name, value)) => read_action(alloc, name, value),
        None => Err(NoAction::Fault(LineFault::NotOneKey)),
    }
}

/// The action that a line stands for; none where its one member has another name.
pub fn action_of_line(alloc: Global, line: &[u8]) -> Result<Option<Action>, NoAction>
    ensures { Gives result (action_at line.now) }
{
    match tree_of(alloc, line) {
        Ok(value) => action_of(alloc, &value),
        Err(TreeFault::NotUtf8) => Err(NoAction::Fault(LineFault::NotUtf8)),
        Err(TreeFault::NotJson) => Err(NoAction::Fault(LineFault::NotJson)),
        Err(TreeFault::NoMemory) => Err(NoAction::NoMemory),
    }
}
