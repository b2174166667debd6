// What the winning commits show: those after the version that was read.
ghost use Rattle.std.specs.Prelude.{◌≡◌, ◌||◌, ◌+◌, ◌<◌, ◌^◌, length, map, option_map};
ghost use Rattle.std.specs.List.{list_any};
ghost use Rattle.std.specs.Arc.{arc_value};
ghost use Rattle.commit_check.specs.Lookups.{has_one};
ghost use Rattle.commit_check.specs.Offers as offers;
ghost use Rattle.commit_check.specs.ReadFiles as read;
ghost use Rattle.commit_check.specs.Shown as spec;

use crate::actions::{added_file, added_path, app_of, is_meta_data, is_protocol, removed_path};
use crate::conflict::Conflict;
use crate::offered::{Offered, has};
use crate::reading::Reading;
use log_actions::{Action, Commit};
use std::sync::Arc;

// What an action of a winning commit can show, in the order in which it is told.
#[derive(Clone, Copy)]
enum Sign {
    Protocol,
    MetaData,
    Transaction,
    DeleteDelete,
    AddAdd,
    DeleteRead,
    Append,
}

// Whether both add the path, or one adds what the other removes.
fn adds_same(offered: &Offered<'_>, action: &Action) -> bool
    ensures { result ≡ (has_one offered.now.added (offers.added_path action.now) || (has_one offered.now.removed (offers.added_path action.now) || has_one offered.now.added (offers.removed_path action.now))) }
{
    let added = added_path(action);
    has(&offered.added, added)
        || has(&offered.removed, added)
        || has(&offered.added, removed_path(action))
}

fn changes_read(reading: &Reading<'_>, action: &Action) -> bool
    ensures { result ≡ (read.has_path_of reading.now (offers.added_path action.now) || read.has_path_of reading.now (offers.removed_path action.now)) }
{
    reading.has_path_of(added_path(action)) || reading.has_path_of(removed_path(action))
}

fn shows(sign: Sign, offered: &Offered<'_>, reading: &Reading<'_>, action: &Action) -> bool
    ensures { result ≡ spec.shown sign offered.now reading.now action.now }
{
    match sign {
        Sign::Protocol => is_protocol(action),
        Sign::MetaData => is_meta_data(action),
        Sign::Transaction => has(&offered.apps, app_of(action)),
        Sign::DeleteDelete => has(&offered.removed, removed_path(action)),
        Sign::AddAdd => adds_same(offered, action),
        Sign::DeleteRead => changes_read(reading, action),
        Sign::Append => reading.has_file_of(added_file(action)),
    }
}

fn is_shown(sign: Sign, offered: &Offered<'_>, reading: &Reading<'_>, actions: &[Action]) -> bool
    ensures { result ≡ list_any (spec.shown sign offered.now reading.now) actions.now }
{
    actions
        .iter()
        .any(|action| shows(sign, offered, reading, action))
}

// The first winner that shows the sign. They have the versions from that one on.
fn first_winner(
    sign: Sign,
    offered: &Offered<'_>,
    reading: &Reading<'_>,
    from: u64,
    winners: &[Arc<Commit>],
) -> Option<u64>
    requires { from + length winners.now < 2 ^ 64 }
    ensures { result ≡ spec.first_from (spec.shown sign offered.now reading.now) from (map arc_value winners.now) }
{
    for place in 0..winners.len() {
        if is_shown(sign, offered, reading, winners[place].actions()) {
            return Some(from + place as u64);
        }
    }
    None
}

/// The first conflict that the winners show. They have the versions from that one on.
pub(crate) fn first_conflict(
    offered: &Offered<'_>,
    reading: &Reading<'_>,
    from: u64,
    winners: &[Arc<Commit>],
) -> Option<Conflict>
    requires { from + length winners.now < 2 ^ 64 }
    ensures { result ≡ spec.first_shown offered.now reading.now from (map arc_value winners.now) }
{
    if let Some(version) = first_winner(Sign::Protocol, offered, reading, from, winners) {
        return Some(Conflict::ProtocolChanged { version });
    }
    if let Some(version) = first_winner(Sign::MetaData, offered, reading, from, winners) {
        return Some(Conflict::MetadataChanged { version });
    }
    if let Some(version) = first_winner(Sign::Transaction, offered, reading, from, winners) {
        return Some(Conflict::ConcurrentTransaction { version });
    }
    if let Some(version) = first_winner(Sign::DeleteDelete, offered, reading, from, winners) {
        return Some(Conflict::ConcurrentDeleteDelete { version });
    }
    if let Some(version) = first_winner(Sign::AddAdd, offered, reading, from, winners) {
        return Some(Conflict::ConcurrentAddAdd { version });
    }
    if let Some(version) = first_winner(Sign::DeleteRead, offered, reading, from, winners) {
        return Some(Conflict::ConcurrentDeleteRead { version });
    }
    if let Some(version) = first_winner(Sign::Append, offered, reading, from, winners) {
        return Some(Conflict::ConcurrentAppend { version });
    }
    None
}
