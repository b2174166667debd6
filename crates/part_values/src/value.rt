// Partition values and their types.
ghost use Rattle.std.specs.Prelude.{◌≡◌, option_copied};
ghost use Rattle.part_values.specs.Typed.{seen, typed, bool_of, of_bool, of_day, of_whole};
ghost use Rattle.part_values.specs.Day.{day_of as the_day_of};
ghost use Rattle.part_values.specs.Whole.{whole_of as the_whole_of};

use crate::day::day_of;
use crate::whole::whole_of;

/// The type of a partition column.
#[derive(Clone, Copy, Debug, PartialEq, Eq)]
pub enum PartType {
    /// `boolean`.
    Bool,
    /// `byte`: a whole number of 8 bits with sign.
    Byte,
    /// `short`: a whole number of 16 bits with sign.
    Short,
    /// `integer`: a whole number of 32 bits with sign.
    Int,
    /// `long`: a whole number of 64 bits with sign.
    Long,
    /// `string`.
    Str,
    /// `date`.
    Date,
    /// Any other type, or none.
    Other,
}

/// The value of a partition column.
#[derive(Clone, Copy, Debug, PartialEq, Eq)]
pub enum PartValue<'a> {
    /// No value: JSON's null, or the empty text.
    Null,
    /// A truth value.
    Bool(bool),
    /// A whole number, in the range of its type.
    Whole(i64),
    /// A text that isn't empty.
    Text(&'a str),
    /// A day of the calendar, as the number of days since 1970-01-01.
    Day(i32),
    /// A text that isn't in the form of its type, or one of a type that isn't read.
    Unread,
}

fn bool_value<'a>(text: &str) -> PartValue<'a>
    ensures { seen result ≡ of_bool (bool_of text.now) }
{
    match text {
        "true" => PartValue::Bool(true),
        "false" => PartValue::Bool(false),
        _ => PartValue::Unread,
    }
}

fn whole_value<'a>(text: &str, low: i64, high: i64) -> PartValue<'a>
    ensures { seen result ≡ of_whole (the_whole_of low high text.now) }
{
    match whole_of(text, low, high) {
        Some(number) => PartValue::Whole(number),
        None => PartValue::Unread,
    }
}

fn day_value<'a>(text: &str) -> PartValue<'a>
    ensures { seen result ≡ of_day (the_day_of text.now) }
{
    match day_of(text) {
        Some(day) => PartValue::Day(day),
        None => PartValue::Unread,
    }
}

/// The value that the text is at that type (Delta Lake PROTOCOL.md, "Partition Value
/// Serialization"). No text and the empty text are null at every type. A boolean is `true` or
/// `false`. A whole number is `0`, or an optional `-` and digits of which the first isn't `0`, in
/// the range of its type. A date is `YYYY-MM-DD` in digits, a day that the calendar has; year 0000
/// is one. A string is itself. Every other text is unread.
pub fn value_of<'a>(text: Option<&'a str>, kind: PartType) -> PartValue<'a>
    ensures { seen result ≡ typed (option_copied text.entry) kind }
{
    let Some(text) = text else {
        return PartValue::Null;
    };
    if text.is_empty() {
        return PartValue::Null;
    }
    match kind {
        PartType::Bool => bool_value(text),
        PartType::Byte => whole_value(text, -128, 127),
        PartType::Short => whole_value(text, -32_768, 32_767),
        PartType::Int => whole_value(text, -2_147_483_648, 2_147_483_647),
        PartType::Long => whole_value(text, i64::MIN, i64::MAX),
        PartType::Str => PartValue::Text(text),
        PartType::Date => day_value(text),
        PartType::Other => PartValue::Unread,
    }
}
