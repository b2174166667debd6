// The line that a JSON value stands for.
ghost use Rattle.std.specs.Prelude.{◌≡◌, ◌^◌, IfOk};
ghost use Rattle.serde_json.specs.Data.{member, no_members, object};
ghost use Rattle.serde_json.specs.View.{view};
ghost use Rattle.serde_json.specs.Find.{as_str};
ghost use Rattle.json_tree.specs.Fields.{field, whole};
ghost use Rattle.log_actions.specs.Faults.{Gives as GivesAction};
ghost use Rattle.log_actions.specs.Lines.{action_of_data};
ghost use Rattle.log_actions.specs.Reading.{count, meta_data_of, protocol_of};
ghost use Rattle.share_lines.specs.Reading.{end_of, optional, required};
ghost use Rattle.delta_lines.specs.Delta.{path_of};
ghost use Rattle.delta_lines.specs.Reading.{Gives, delta_file_of, delta_line_in, file_action_or, found, kind_count, kind_in, meta_in, meta_or, protocol_in, protocol_or, single_action, unless as unless_vector, with_path};

use crate::faults::LineFault;
use crate::{DeltaFile, DeltaLine, FileAction};
use json_tree::{FieldFault, Small, Text, count_at, member_at, text_at, whole_at};
use log_actions::{Action, MetaData, NoAction, Protocol, action_of, size_at};
use serde_json::{Map, Value};
use share_lines::EndLine;
use std::alloc::{AllocError, Global};
use std::mem::replace;

// ---- fields

fn required_text(alloc: Global, object: &Value, name: &str) -> Result<Text, LineFault>
    ensures { Gives result (required (field as_str name.now (view object.now))) }
{
    match text_at(alloc, object, name) {
        Ok(Some(text)) => Ok(text),
        Ok(None) | Err(FieldFault::WrongKind) => Err(LineFault::Bad),
        Err(FieldFault::NoMemory) => Err(LineFault::NoMemory),
    }
}

fn optional_text(alloc: Global, object: &Value, name: &str) -> Result<Option<Text>, LineFault>
    ensures { Gives result (optional (field as_str name.now (view object.now))) }
{
    match text_at(alloc, object, name) {
        Ok(text) => Ok(text),
        Err(FieldFault::WrongKind) => Err(LineFault::Bad),
        Err(FieldFault::NoMemory) => Err(LineFault::NoMemory),
    }
}

fn optional_whole(object: &Value, name: &str) -> Result<Option<i64>, LineFault>
    ensures { Gives result (optional (field whole name.now (view object.now))) }
{
    match whole_at(object, name) {
        Ok(number) => Ok(number),
        Err(_) => Err(LineFault::Bad),
    }
}

// A number below 2^63.
fn optional_small<U>(object: &Value, name: &str) -> Result<Option<Small<U>>, LineFault>
    ensures { Gives result (optional (field (count (2 ^ 63)) name.now (view object.now))) }
{
    match size_at(object, name) {
        Ok(Some(size)) => Ok(Some(Small::of_small(size.get()))),
        Ok(None) => Ok(None),
        Err(_) => Err(LineFault::Bad),
    }
}

// ---- what a log says

// The object with that member alone.
fn object_with(alloc: Global, name: &str, value: &Value) -> Result<Value, AllocError>
    ensures { IfOk result (λ v. view v ≡ object (member name.now (view value.now) no_members)) }
{
    let mut members = Map::new(alloc);
    members.insert(String::from_str(alloc, name)?, value.clone()?)?;
    Ok(Value::Object(members))
}

// The action whose value in a log that value would be.
fn action_named(alloc: Global, name: &str, value: &Value) -> Result<Option<Action>, NoAction>
    ensures { GivesAction result (action_of_data (object (member name.now (view value.now) no_members))) }
{
    action_of(alloc, &object_with(alloc, name, value)?)
}

fn protocol_or_none(action: Option<Action>) -> Option<Protocol>
    ensures { result ≡ protocol_or action }
{
    match action {
        Some(Action::Protocol(protocol)) => Some(protocol),
        _ => None,
    }
}

#[tactic(auto, using(crate::proofs::Wrapped::Gives_protocol))]
fn read_protocol(alloc: Global, value: &Value) -> Result<Protocol, LineFault>
    ensures { Gives result (found (protocol_of (view value.now))) }
{
    let action = action_named(alloc, "protocol", value)?;
    protocol_or_none(action).ok_or(LineFault::Bad)
}

#[tactic(auto, unfolding(crate::specs::Reading::protocol_in))]
fn protocol_at(alloc: Global, object: &Value) -> Result<Protocol, LineFault>
    ensures { Gives result (protocol_in (view object.now)) }
{
    match member_at(object, "deltaProtocol") {
        Some(value) => read_protocol(alloc, value),
        None => Err(LineFault::Bad),
    }
}

fn meta_or_none(action: Option<Action>) -> Option<MetaData>
    ensures { result ≡ meta_or action }
{
    match action {
        Some(Action::MetaData(meta)) => Some(meta),
        _ => None,
    }
}

#[tactic(auto, using(crate::proofs::Wrapped::Gives_meta))]
fn read_meta(alloc: Global, value: &Value) -> Result<MetaData, LineFault>
    ensures { Gives result (found (meta_data_of (view value.now))) }
{
    let action = action_named(alloc, "metaData", value)?;
    meta_or_none(action).ok_or(LineFault::Bad)
}

#[tactic(auto, unfolding(crate::specs::Reading::meta_in))]
fn meta_at(alloc: Global, object: &Value) -> Result<MetaData, LineFault>
    ensures { Gives result (meta_in (view object.now)) }
{
    match member_at(object, "deltaMetadata") {
        Some(value) => read_meta(alloc, value),
        None => Err(LineFault::Bad),
    }
}

fn unless(vector: bool, action: FileAction) -> Option<FileAction>
    ensures { result ≡ unless_vector vector action }
{
    if vector { None } else { Some(action) }
}

// The action of a file, where it has no deletion vector.
fn file_action(action: Option<Action>) -> Option<FileAction>
    ensures { result ≡ file_action_or action }
{
    match action? {
        Action::Add(file) => unless(file.vector, FileAction::Add(file)),
        Action::Remove(file) => unless(file.vector, FileAction::Remove(file)),
        Action::Cdc(file) => Some(FileAction::Cdc(file)),
        _ => None,
    }
}

#[tactic(auto, unfolding(crate::specs::Reading::single_action))]
fn read_single(alloc: Global, value: &Value) -> Result<FileAction, LineFault>
    ensures { Gives result (single_action (view value.now)) }
{
    let action = action_of(alloc, value)?;
    file_action(action).ok_or(LineFault::Bad)
}

// ---- the kinds

#[tactic(auto, unfolding(share_lines::specs::Reading::end_of))]
fn read_end(alloc: Global, object: &Value) -> Result<EndLine, LineFault>
    ensures { Gives result (end_of (view object.now)) }
{
    if !object.is_object() {
        return Err(LineFault::Bad);
    }
    let min_expires = optional_small(object, "minUrlExpirationTimestamp")?;
    let token = optional_text(alloc, object, "nextPageToken")?;
    Ok(EndLine { min_expires, token })
}

// The action's path, and the action with that one in its place.
fn exchanged(action: FileAction, path: Text) -> (Text, FileAction)
    ensures old { result.0 ≡ path_of action }
    ensures new { result.1 ≡ with_path path action }
{
    match action {
        FileAction::Add(mut file) => (replace(&mut file.path, path), FileAction::Add(file)),
        FileAction::Cdc(mut file) => (replace(&mut file.path, path), FileAction::Cdc(file)),
        FileAction::Remove(mut file) => (replace(&mut file.path, path), FileAction::Remove(file)),
    }
}

#[tactic(auto, unfolding(crate::specs::Reading::delta_file_of))]
fn read_file(alloc: Global, object: &Value) -> Result<DeltaFile, LineFault>
    ensures { Gives result (delta_file_of (view object.now)) }
{
    let single = member_at(object, "deltaSingleAction").ok_or(LineFault::Bad)?;
    let linked = read_single(alloc, single)?;
    let id = required_text(alloc, object, "id")?;
    let expires = optional_small(object, "expirationTimestamp")?;
    let time = optional_whole(object, "timestamp")?;
    let version = optional_small(object, "version")?;
    let (url, action) = exchanged(linked, id.copy(alloc)?);
    Ok(DeltaFile {
        id,
        url,
        action,
        expires,
        time,
        version,
    })
}

// ---- a line

// How many of the four kinds have a member that isn't null.
fn count_kinds(object: &Value) -> u8
    ensures { result ≡ kind_count (view object.now) }
{
    count_at(object, "protocol")
        + count_at(object, "metaData")
        + count_at(object, "file")
        + count_at(object, "endStreamAction")
}

// The line of the kind that has a member.
fn kind_at(alloc: Global, object: &Value) -> Result<DeltaLine, LineFault>
    ensures { Gives result (kind_in (view object.now)) }
{
    if let Some(value) = member_at(object, "protocol") {
        return Ok(DeltaLine::Protocol(protocol_at(alloc, value)?));
    }
    if let Some(value) = member_at(object, "metaData") {
        return Ok(DeltaLine::MetaData(meta_at(alloc, value)?));
    }
    if let Some(value) = member_at(object, "file") {
        return Ok(DeltaLine::File(read_file(alloc, value)?));
    }
    if let Some(value) = member_at(object, "endStreamAction") {
        return Ok(DeltaLine::End(read_end(alloc, value)?));
    }
    Err(LineFault::Bad)
}

// The line of an object: of the four kinds it has exactly one member that isn't null.
pub(crate) fn line_of(alloc: Global, object: &Value) -> Result<DeltaLine, LineFault>
    ensures { Gives result (delta_line_in (view object.now)) }
{
    if count_kinds(object) == 1 {
        kind_at(alloc, object)
    } else {
        Err(LineFault::Bad)
    }
}
