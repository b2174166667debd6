// The fields of an object, by their kinds.
ghost use Rattle.std.specs.Prelude.{◌≡◌, ◌≤◌, option_map};
ghost use Rattle.serde_json.specs.View.{view, items_view, members_view};
ghost use Rattle.serde_json.specs.Find.{as_bool, as_str};
ghost use Rattle.json_tree.specs.Fields.{count_of, field, or_wrong, pair_in as named_text, pairs, pairs_of, present, texts, texts_of, whole};
ghost use Rattle.json_tree.specs.Lists.{pair_of};
ghost use Rattle.json_tree.specs.Gives.{Gives, GivesBy};
ghost use Rattle.json_tree.specs.declared.fields.FieldFault.TheVariants.{NoMemory};

use crate::{Pair, Pairs, Text, Texts};
use serde_json::{Map, Value};
use std::alloc::{AllocError, AllocFailed, Global};

/// Why a field isn't read.
#[derive(Clone, Copy, Debug, PartialEq, Eq)]
pub enum FieldFault {
    /// The field is there, and its value is of another kind.
    WrongKind,
    /// Memory is wanting.
    NoMemory,
}

impl From<AllocError> for FieldFault {
    ghost from_gives = { λ _ e. e ≡ NoMemory };

    fn from(_: AllocError) -> Self {
        FieldFault::NoMemory
    }
}

impl<T: Drop> From<AllocFailed<T>> for FieldFault {
    ghost from_gives = { λ _ e. e ≡ NoMemory };

    fn from(_: AllocFailed<T>) -> Self {
        FieldFault::NoMemory
    }
}

/// The object's member of that name, unless it is null. A value that isn't an object has no
/// members.
pub fn member_at<'a>(object: &'a Value, name: &str) -> Option<&'a Value>
    ensures { option_map (λ v. view v.now) result ≡ present name.now (view object.now) }
{
    match object.get(name) {
        Some(Value::Null) => None,
        other => other,
    }
}

/// How many members of that name the object has that aren't null: one, or none.
pub fn count_at(object: &Value, name: &str) -> u8
    ensures value { result ≡ count_of name.now (view object.now) }
    ensures small { result ≤ 1 }
{
    if member_at(object, name).is_some() {
        1
    } else {
        0
    }
}

/// The truth value of that name, none where the field is absent or null.
pub fn flag_at(object: &Value, name: &str) -> Result<Option<bool>, FieldFault>
    ensures { result ≡ field as_bool name.now (view object.now) }
{
    let Some(value) = member_at(object, name) else {
        return Ok(None);
    };
    match value.as_bool() {
        Some(flag) => Ok(Some(flag)),
        None => Err(FieldFault::WrongKind),
    }
}

/// The whole number of that name, none where the field is absent or null. A number that is
/// written with a point or an exponent, `-0`, and a number outside of 64 bits with sign are of
/// another kind.
pub fn whole_at(object: &Value, name: &str) -> Result<Option<i64>, FieldFault>
    ensures { result ≡ field whole name.now (view object.now) }
{
    let Some(value) = member_at(object, name) else {
        return Ok(None);
    };
    match value.as_i64() {
        Some(number) => Ok(Some(number)),
        None => Err(FieldFault::WrongKind),
    }
}

/// The text of that name, none where the field is absent or null.
pub fn text_at(alloc: Global, object: &Value, name: &str) -> Result<Option<Text>, FieldFault>
    ensures { Gives result (field as_str name.now (view object.now)) }
{
    let Some(value) = member_at(object, name) else {
        return Ok(None);
    };
    match value.as_str() {
        Some(text) => Ok(Some(Text::of(String::from_str(alloc, text)?))),
        None => Err(FieldFault::WrongKind),
    }
}

fn texts_in(alloc: Global, values: &[Value]) -> Result<Texts, FieldFault>
    ensures { Gives result (or_wrong (texts_of (items_view values.now))) }
{
    let mut items = Vec::new(alloc);
    for value in values {
        match value.as_str() {
            Some(text) => items.push(Text::of(String::from_str(alloc, text)?))?,
            None => return Err(FieldFault::WrongKind),
        }
    }
    Ok(Texts::of(items))
}

/// The list of texts of that name, none where the field is absent or null.
pub fn texts_at(alloc: Global, object: &Value, name: &str) -> Result<Option<Texts>, FieldFault>
    ensures { Gives result (field texts name.now (view object.now)) }
{
    let Some(value) = member_at(object, name) else {
        return Ok(None);
    };
    match value.as_array() {
        Some(values) => Ok(Some(texts_in(alloc, values)?)),
        None => Err(FieldFault::WrongKind),
    }
}

fn pair_in(alloc: Global, name: &str, value: &Value) -> Result<Pair, FieldFault>
    ensures { GivesBy pair_of result (or_wrong (named_text name.now (view value.now))) }
{
    let value = match value {
        Value::Null => None,
        Value::String(text) => Some(Text::of(String::from_str(alloc, text)?)),
        _ => return Err(FieldFault::WrongKind),
    };
    Ok(Pair {
        name: Text::of(String::from_str(alloc, name)?),
        value,
    })
}

fn pairs_in(alloc: Global, members: &Map<String, Value>) -> Result<Pairs, FieldFault>
    ensures { Gives result (or_wrong (pairs_of (members_view members.now.entries))) }
{
    let mut items = Vec::new(alloc);
    for (name, value) in members.iter() {
        items.push(pair_in(alloc, name, value)?)?;
    }
    Ok(Pairs::in_order(items))
}

/// The object of texts and nulls of that name, none where the field is absent or null.
pub fn pairs_at(alloc: Global, object: &Value, name: &str) -> Result<Option<Pairs>, FieldFault>
    ensures { Gives result (field pairs name.now (view object.now)) }
{
    let Some(value) = member_at(object, name) else {
        return Ok(None);
    };
    match value.as_object() {
        Some(members) => Ok(Some(pairs_in(alloc, members)?)),
        None => Err(FieldFault::WrongKind),
    }
}
