// Which tables are written, and what may be done to them.
ghost use Rattle.std.specs.Prelude.{◌≡◌, option_map, true, Some};
ghost use Rattle.std.specs.List.{list_all, list_any, position_from};
ghost use Rattle.std.specs.Option.{option_map_or};
ghost use Rattle.json_tree.specs.Lists.{pair_of};
ghost use Rattle.log_replay.specs.State.{State};
ghost use Rattle.commit_check.specs.Admission as spec;
ghost use Rattle.commit_check.specs.Lawful as lawful;

use crate::actions::removes_data;
use json_tree::{Pair, Text};
use log_actions::{Action, MetaData, Protocol};
use log_replay::{Snapshot, turns_on};

fn is_known_feature(feature: &Text) -> bool
    ensures { result ≡ spec.is_known_feature feature.now }
{
    matches!(
        feature.as_str(),
        "appendOnly"
            | "invariants"
            | "checkConstraints"
            | "changeDataFeed"
            | "generatedColumns"
            | "timestampNtz"
            | "vacuumProtocolCheck"
    )
}

fn are_known(features: &[Text]) -> bool
    ensures { result ≡ list_all spec.is_known_feature features.now }
{
    features.iter().all(is_known_feature)
}

fn is_written(protocol: &Protocol) -> bool
    ensures { result ≡ spec.is_written protocol.now }
{
    if protocol.min_writer.get() <= 4 {
        return true;
    }
    match &protocol.writer_features {
        Some(features) => protocol.min_writer.get() == 7 && are_known(features.items()),
        None => protocol.min_writer.get() == 7,
    }
}

// Whether the protocol, if the action is one, is that of a table that is written.
fn keeps_written(action: &Action) -> bool
    ensures { result ≡ spec.keeps_written action.now }
{
    match action {
        Action::Protocol(protocol) => is_written(protocol),
        _ => true,
    }
}

fn keep_written(actions: &[Action]) -> bool
    ensures { result ≡ list_all spec.keeps_written actions.now }
{
    actions.iter().all(keeps_written)
}

// Whether a table is written, if there is one.
fn head_is_written(head: Option<&Snapshot>) -> bool
    ensures { result ≡ option_map_or (λ (s : State). spec.is_written s.protocol) (option_map (λ s. s.now) head.entry) true }
{
    match head {
        Some(head) => is_written(head.protocol()),
        None => true,
    }
}

/// Whether the table is written, and stays so with these actions.
pub(crate) fn stays_written(head: Option<&Snapshot>, actions: &[Action]) -> bool
    ensures { result ≡ spec.stays_written (option_map (λ (s : State). s.protocol) (option_map (λ s. s.now) head.entry)) actions.now }
{
    head_is_written(head) && keep_written(actions)
}

fn sets_append_only(pair: &Pair) -> bool
    ensures { result ≡ lawful.sets_append_only (pair_of pair.now) }
{
    match &pair.value {
        Some(value) => pair.name.as_str() == "delta.appendOnly" && turns_on(value.as_str()),
        None => false,
    }
}

fn set_append_only(pairs: &[Pair]) -> bool
    ensures { result ≡ list_any (λ p. lawful.sets_append_only (pair_of p)) pairs.now }
{
    pairs.iter().any(sets_append_only)
}

fn is_append_only(meta: &MetaData) -> bool
    ensures { result ≡ lawful.is_append_only (Some meta.now) }
{
    set_append_only(meta.configuration.items())
}

fn remove_data(actions: &[Action]) -> bool
    ensures { result ≡ list_any spec.removes_data actions.now }
{
    actions.iter().any(removes_data)
}

fn head_is_append_only(head: Option<&Snapshot>) -> bool
    ensures { result ≡ lawful.is_append_only (option_map (λ (s : State). s.meta) (option_map (λ s. s.now) head.entry)) }
{
    match head {
        Some(head) => is_append_only(head.meta()),
        None => false,
    }
}

/// Whether the actions remove data from a table to which files may be added alone.
pub(crate) fn takes_data(head: Option<&Snapshot>, actions: &[Action]) -> bool
    ensures { result ≡ spec.takes_data (option_map (λ (s : State). s.meta) (option_map (λ s. s.now) head.entry)) actions.now }
{
    head_is_append_only(head) && remove_data(actions)
}

fn is_absent(at: Option<&Snapshot>, action: &Action) -> bool
    ensures { result ≡ spec.removes_absent (option_map (λ s. s.now) at.entry) action.now }
{
    match action {
        Action::Remove(file) => match at {
            Some(state) => !state.has(file.path.as_str()),
            None => true,
        },
        _ => false,
    }
}

/// The first action that removes a path that isn't live in the state.
pub(crate) fn first_absent(at: Option<&Snapshot>, actions: &[Action]) -> Option<u64>
    ensures { result ≡ position_from (spec.removes_absent (option_map (λ s. s.now) at.entry)) 0 actions.now }
{
    for place in 0..actions.len() {
        if is_absent(at, &actions[place]) {
            return Some(place as u64);
        }
    }
    None
}
