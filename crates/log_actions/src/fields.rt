// The fields of an action, and the faults by which they are told.
ghost use Rattle.std.specs.Prelude.{◌≡◌, ◌^◌, is_some, option_and_then};
ghost use Rattle.serde_json.specs.View.{view};
ghost use Rattle.serde_json.specs.Find.{as_str};
ghost use Rattle.json_tree.specs.Fields.{field, or_wrong, present};
ghost use Rattle.json_tree.specs.Gives.{Gives as Found};
ghost use Rattle.log_actions.specs.Faults.{Gives};
ghost use Rattle.log_actions.specs.Answers as answers;
ghost use Rattle.log_actions.specs.Reading.{as_action, count, count_below, format_in};
ghost use Rattle.log_actions.specs.Ranges.{times_end};
ghost use Rattle.log_actions.specs.Reading as reading;

use crate::{CommitTime, FileSize, Format, LineFault, NoAction, ProtocolVersion};
use case_table::Field;
use json_tree::{FieldFault, Pairs, Text, member_at, pairs_at, text_at, whole_at};
use serde_json::Value;
use std::alloc::Global;

fn fault_of(which: Field, fault: FieldFault) -> NoAction
    ensures { result ≡ answers.fault_of which fault }
{
    match fault {
        FieldFault::WrongKind => NoAction::Fault(LineFault::Field { which }),
        FieldFault::NoMemory => NoAction::NoMemory,
    }
}

/// A field that has to be there.
pub(crate) fn required<X: Drop>(
    which: Field,
    read: Result<Option<X>, FieldFault>,
) -> Result<X, NoAction>
    ensures { result ≡ answers.required_answer which read }
{
    match read {
        Ok(Some(value)) => Ok(value),
        Ok(None) => Err(NoAction::Fault(LineFault::Field { which })),
        Err(fault) => Err(fault_of(which, fault)),
    }
}

/// A field that may be absent.
pub(crate) fn optional<X: Drop>(
    which: Field,
    read: Result<Option<X>, FieldFault>,
) -> Result<Option<X>, NoAction>
    ensures { result ≡ answers.optional_answer which read }
{
    match read {
        Ok(value) => Ok(value),
        Err(fault) => Err(fault_of(which, fault)),
    }
}

/// A field with a default.
pub(crate) fn default_to<X: Drop>(
    which: Field,
    default: X,
    read: Result<Option<X>, FieldFault>,
) -> Result<X, NoAction>
    ensures { result ≡ answers.default_answer which default read }
{
    match read {
        Ok(Some(value)) => Ok(value),
        Ok(None) => Ok(default),
        Err(fault) => Err(fault_of(which, fault)),
    }
}

/// A text that has to be there.
#[tactic(auto, using(crate::proofs::FieldReads::Gives_required))]
pub(crate) fn required_text(
    alloc: Global,
    object: &Value,
    name: &str,
    which: Field,
) -> Result<Text, NoAction>
    ensures { Gives result (reading.required which (field as_str name.now (view object.now))) }
{
    required(which, text_at(alloc, object, name))
}

/// A text that may be absent.
#[tactic(auto, using(crate::proofs::FieldReads::Gives_optional))]
pub(crate) fn optional_text(
    alloc: Global,
    object: &Value,
    name: &str,
    which: Field,
) -> Result<Option<Text>, NoAction>
    ensures { Gives result (reading.optional which (field as_str name.now (view object.now))) }
{
    optional(which, text_at(alloc, object, name))
}

/// Refuses an action's value that isn't an object.
pub(crate) fn object_of(value: &Value) -> Result<(), NoAction>
    ensures { Gives result (as_action (view value.now)) }
{
    if value.is_object() {
        Ok(())
    } else {
        Err(NoAction::Fault(LineFault::NotObject))
    }
}

/// A version of the protocol.
pub(crate) fn version_at(object: &Value, name: &str) -> Result<Option<ProtocolVersion>, FieldFault>
    ensures { result ≡ field (count (2 ^ 31)) name.now (view object.now) }
{
    match whole_at(object, name)? {
        Some(number) => Ok(Some(version_of(number).ok_or(FieldFault::WrongKind)?)),
        None => Ok(None),
    }
}

fn version_of(number: i64) -> Option<ProtocolVersion>
    ensures { result ≡ count_below (2 ^ 31) number }
{
    let number = u32::try_from(number).ok()?;
    ProtocolVersion::of(number)
}

/// The field of that name as a number of bytes: none where it is absent or null. The fault is that it is
/// no whole number from 0 to 2^63 - 1.
pub fn size_at(object: &Value, name: &str) -> Result<Option<FileSize>, FieldFault>
    ensures { result ≡ field (count (2 ^ 63)) name.now (view object.now) }
{
    match whole_at(object, name)? {
        Some(number) => Ok(Some(size_of(number).ok_or(FieldFault::WrongKind)?)),
        None => Ok(None),
    }
}

fn size_of(number: i64) -> Option<FileSize>
    ensures { result ≡ count_below (2 ^ 63) number }
{
    let number = u64::try_from(number).ok()?;
    FileSize::of(number)
}

/// The moment of a commit, where the field is a whole number in its bounds.
pub(crate) fn time_at(object: &Value, name: &str) -> Option<CommitTime>
    ensures { result ≡ option_and_then (count times_end) (present name.now (view object.now)) }
{
    let number = member_at(object, name)?.as_i64()?;
    time_of(number)
}

fn time_of(number: i64) -> Option<CommitTime>
    ensures { result ≡ count_below times_end number }
{
    let number = u64::try_from(number).ok()?;
    CommitTime::of(number)
}

#[tactic(auto, unfolding(crate::specs::Reading::format_in))]
fn format_of(alloc: Global, value: &Value) -> Result<Format, FieldFault>
    ensures { Found result (or_wrong (format_in (view value.now))) }
{
    if !value.is_object() {
        return Err(FieldFault::WrongKind);
    }
    let provider = match text_at(alloc, value, "provider")? {
        Some(provider) => provider,
        None => Text::of(String::from_str(alloc, "parquet")?),
    };
    let options = match pairs_at(alloc, value, "options")? {
        Some(options) => options,
        None => Pairs::new(alloc),
    };
    Ok(Format { provider, options })
}

/// A format of the table's files.
pub(crate) fn format_at(
    alloc: Global,
    object: &Value,
    name: &str,
) -> Result<Option<Format>, FieldFault>
    ensures { Found result (field format_in name.now (view object.now)) }
{
    match member_at(object, name) {
        Some(value) => Ok(Some(format_of(alloc, value)?)),
        None => Ok(None),
    }
}

/// Whether the object has a member of that name that isn't null.
pub(crate) fn has_member(object: &Value, name: &str) -> bool
    ensures { result ≡ is_some (present name.now (view object.now)) }
{
    member_at(object, name).is_some()
}
