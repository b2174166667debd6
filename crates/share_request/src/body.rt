// The bodies of providers' and the administrator's requests.
ghost use Rattle.std.specs.Prelude.{◌≡◌, IfOk, option_map};
ghost use Rattle.serde_json.specs.View.{items_view, view};
ghost use Rattle.catalog_log.specs.Reading.{edit_in as edit_of_data, location_in, passing, text_in};
ghost use Rattle.share_request.specs.Bodies.{action_in, actions_of, has_readable_restriction, read_in, reads_of, where_in};
ghost use Rattle.share_request.specs.Bodies as spec;
ghost use Rattle.share_request.specs.Stops.{GivesBody};

use crate::fault::{RequestFault, Stop};
use commit_check::{Offer, Reads};
use edge_core::{Name, is_name_text};
use json_tree::{Text, Version, member_at, tree_of};
use log_actions::{Action, Actions, action_of};
use pred_tree::pred_of;
use serde_json::Value;
use share_catalog::{Edit, Location, Restriction};
use std::alloc::{AllocError, Global};

// The body is a bad one.
const BAD: Stop = Stop::Refused(RequestFault::BadBody);

fn text_at<'a>(object: &'a Value, name: &str) -> Option<&'a str>
    ensures { option_map (λ s. s.now) result ≡ text_in name.now (view object.now) }
{
    member_at(object, name)?.as_str()
}

fn location_at(alloc: Global, object: &Value) -> Result<Location, Stop>
    ensures { GivesBody result (location_in (view object.now)) }
{
    let Some(text) = text_at(object, "location") else {
        return Err(BAD);
    };
    if !is_name_text(text) {
        return Err(BAD);
    }
    let Some(name) = Name::of(String::from_str(alloc, text)?) else {
        return Err(BAD);
    };
    match Location::of(name) {
        Some(location) => Ok(location),
        None => Err(BAD),
    }
}

// The version that was read: `Some(None)` where none was, and `None` where the field is of another kind.
fn read_at(object: &Value) -> Option<Option<Version>>
    ensures { result ≡ read_in (view object.now) }
{
    let Some(value) = member_at(object, "readVersion") else {
        return Some(None);
    };
    match u64::try_from(value.as_i64()?) {
        Ok(number) => Some(Some(Version::of(number)?)),
        Err(_) => None,
    }
}

fn word_reads(word: &str) -> Result<Reads, Stop>
    ensures { GivesBody result (spec.word_reads word.now) }
{
    match word {
        "none" => Ok(Reads::Nothing),
        "all" => Ok(Reads::All),
        _ => Err(BAD),
    }
}

fn is_predicate(alloc: Global, text: &str) -> Result<bool, AllocError>
    ensures { IfOk result (λ b. b ≡ spec.is_predicate text.now) }
{
    Ok(pred_of(alloc, text)?.is_some())
}

fn where_reads(alloc: Global, value: &Value) -> Result<Reads, Stop>
    ensures { GivesBody result (where_in (view value.now)) }
{
    let Some(text) = text_at(value, "predicate") else {
        return Err(BAD);
    };
    if !is_predicate(alloc, text)? {
        return Err(BAD);
    }
    Ok(Reads::Where(Text::of(String::from_str(alloc, text)?)))
}

fn reads_of(alloc: Global, value: &Value) -> Result<Reads, Stop>
    ensures { GivesBody result (reads_of (view value.now)) }
{
    match value.as_str() {
        Some(word) => word_reads(word),
        None => where_reads(alloc, value),
    }
}

fn reads_at(alloc: Global, object: &Value) -> Result<Reads, Stop>
    ensures { GivesBody result (spec.reads_in (view object.now)) }
{
    match member_at(object, "reads") {
        Some(value) => reads_of(alloc, value),
        None => Err(BAD),
    }
}

fn action_at(alloc: Global, value: &Value) -> Result<Action, Stop>
    ensures { GivesBody result (action_in (view value.now)) }
{
    match action_of(alloc, value)? {
        Some(action) => Ok(action),
        None => Err(BAD),
    }
}

fn actions_of(alloc: Global, values: &[Value]) -> Result<Actions, Stop>
    ensures { GivesBody result (actions_of (items_view values.now)) }
{
    let mut items = Vec::new(alloc);
    for value in values {
        items.push(action_at(alloc, value)?)?;
    }
    Ok(Actions::of(items))
}

fn actions_at(alloc: Global, object: &Value) -> Result<Actions, Stop>
    ensures { GivesBody result (spec.actions_in (view object.now)) }
{
    let Some(value) = member_at(object, "actions") else {
        return Err(BAD);
    };
    match value.as_array() {
        Some(values) => actions_of(alloc, values),
        None => Err(BAD),
    }
}

fn offer_at(alloc: Global, object: &Value) -> Result<Offer, Stop>
    ensures { GivesBody result (spec.offer_of (view object.now)) }
{
    let location = location_at(alloc, object)?;
    let Some(read) = read_at(object) else {
        return Err(BAD);
    };
    let reads = reads_at(alloc, object)?;
    let actions = actions_at(alloc, object)?;
    Ok(Offer {
        location: location.name().copy(alloc)?,
        read,
        reads,
        actions,
    })
}

// The offer of a commit's body.
pub(crate) fn offer_in(alloc: Global, body: &[u8]) -> Result<Offer, Stop>
    ensures { GivesBody result (spec.offer_in body.now) }
{
    let object = tree_of(alloc, body)?;
    offer_at(alloc, &object)
}

// The location of a refresh's body.
pub(crate) fn refresh_in(alloc: Global, body: &[u8]) -> Result<Location, Stop>
    ensures { GivesBody result (spec.refresh_in body.now) }
{
    let object = tree_of(alloc, body)?;
    location_at(alloc, &object)
}

// The edit of a body.
pub(crate) fn edit_in(alloc: Global, body: &[u8]) -> Result<Edit, Stop>
    ensures { GivesBody result (spec.edit_in body.now) }
{
    let object = tree_of(alloc, body)?;
    edit_of(alloc, &object)
}

fn edit_of(alloc: Global, object: &Value) -> Result<Edit, Stop>
    ensures { GivesBody result (spec.edit_of (view object.now)) }
{
    let edit = edit_at(alloc, object)?;
    readable(alloc, edit)
}

fn edit_at(alloc: Global, object: &Value) -> Result<Edit, Stop>
    ensures { GivesBody result (edit_of_data (view object.now)) }
{
    Ok(catalog_log::edit_at(alloc, object)?)
}

// The edit, unless it binds a table by a text that is no predicate: that would show no file, and who wrote it meant some.
fn readable(alloc: Global, edit: Edit) -> Result<Edit, Stop>
    ensures { GivesBody result (passing has_readable_restriction edit) }
{
    if has_readable_restriction(alloc, &edit)? {
        Ok(edit)
    } else {
        Err(BAD)
    }
}

fn has_readable_restriction(alloc: Global, edit: &Edit) -> Result<bool, AllocError>
    ensures { IfOk result (λ b. b ≡ has_readable_restriction edit.now) }
{
    match edit {
        Edit::Bind { binding, .. } => is_readable(alloc, &binding.only),
        _ => Ok(true),
    }
}

fn is_readable(alloc: Global, only: &Option<Restriction>) -> Result<bool, AllocError>
    ensures { IfOk result (λ b. b ≡ spec.is_readable only.now) }
{
    match only {
        Some(only) => is_predicate(alloc, only.as_str()),
        None => Ok(true),
    }
}
