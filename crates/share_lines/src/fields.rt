// The fields of a line's value.
ghost use Rattle.std.specs.Prelude.{◌≡◌, ◌^◌};
ghost use Rattle.serde_json.specs.View.{view};
ghost use Rattle.json_tree.specs.Fields.{field};
ghost use Rattle.log_actions.specs.Reading.{count, count_below};
ghost use Rattle.share_lines.specs.Answers.{default_answer, fault_of as fault_of_field, optional_answer, required_answer};

use crate::faults::LineFault;
use crate::{Millis, Version};
use json_tree::{FieldFault, whole_at};
use serde_json::Value;

fn fault_of(fault: FieldFault) -> LineFault
    ensures { result ≡ fault_of_field fault }
{
    match fault {
        FieldFault::WrongKind => LineFault::Bad,
        FieldFault::NoMemory => LineFault::NoMemory,
    }
}

// A field that has to be there.
pub(crate) fn required<X: Drop>(read: Result<Option<X>, FieldFault>) -> Result<X, LineFault>
    ensures { result ≡ required_answer read }
{
    match read {
        Ok(Some(value)) => Ok(value),
        Ok(None) => Err(LineFault::Bad),
        Err(fault) => Err(fault_of(fault)),
    }
}

// A field that may be absent.
pub(crate) fn optional<X: Drop>(read: Result<Option<X>, FieldFault>) -> Result<Option<X>, LineFault>
    ensures { result ≡ optional_answer read }
{
    match read {
        Ok(value) => Ok(value),
        Err(fault) => Err(fault_of(fault)),
    }
}

// A field with a default.
pub(crate) fn default_to<X: Drop>(
    default: X,
    read: Result<Option<X>, FieldFault>,
) -> Result<X, LineFault>
    ensures { result ≡ default_answer default read }
{
    match read {
        Ok(Some(value)) => Ok(value),
        Ok(None) => Ok(default),
        Err(fault) => Err(fault_of(fault)),
    }
}

fn expiry_of(number: i64) -> Option<Millis>
    ensures { result ≡ count_below (2 ^ 63) number }
{
    let number = u64::try_from(number).ok()?;
    Millis::of(number)
}

// When a link ends.
pub(crate) fn expiry_at(object: &Value, name: &str) -> Result<Option<Millis>, FieldFault>
    ensures { result ≡ field (count (2 ^ 63)) name.now (view object.now) }
{
    match whole_at(object, name)? {
        Some(number) => Ok(Some(expiry_of(number).ok_or(FieldFault::WrongKind)?)),
        None => Ok(None),
    }
}

fn table_version_of(number: i64) -> Option<Version>
    ensures { result ≡ count_below (2 ^ 63) number }
{
    let number = u64::try_from(number).ok()?;
    Version::of(number)
}

// A version of a table.
pub(crate) fn version_at(object: &Value, name: &str) -> Result<Option<Version>, FieldFault>
    ensures { result ≡ field (count (2 ^ 63)) name.now (view object.now) }
{
    match whole_at(object, name)? {
        Some(number) => Ok(Some(table_version_of(number).ok_or(FieldFault::WrongKind)?)),
        None => Ok(None),
    }
}
