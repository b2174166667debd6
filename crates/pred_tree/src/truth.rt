// Kleene's three truth values, and comparisons of typed values.
ghost use Rattle.std.specs.Prelude.{◌≡◌, option_copied};
ghost use Rattle.part_values.specs.Typed.{seen};
ghost use Rattle.pred_tree.specs.Shown.{is_true};
ghost use Rattle.pred_tree.specs.Truth as spec;

use crate::Comparison;
use part_values::{PartType, PartValue, value_of};
use std::cmp::Ordering;

/// What a predicate says of a file.
#[derive(Clone, Copy, Debug, PartialEq, Eq)]
pub enum Truth {
    /// It holds.
    True,
    /// It doesn't hold.
    False,
    /// The file's values don't tell.
    Unknown,
}

impl Truth {
    /// Kleene's `and`.
    pub fn and(self, other: Truth) -> Truth
        ensures { result ≡ spec.both self other }
    {
        match (self, other) {
            (Truth::False, _) | (_, Truth::False) => Truth::False,
            (Truth::True, Truth::True) => Truth::True,
            _ => Truth::Unknown,
        }
    }

    /// Kleene's `or`.
    pub fn or(self, other: Truth) -> Truth
        ensures { result ≡ spec.either self other }
    {
        match (self, other) {
            (Truth::True, _) | (_, Truth::True) => Truth::True,
            (Truth::False, Truth::False) => Truth::False,
            _ => Truth::Unknown,
        }
    }

    /// Kleene's `not`.
    pub fn negated(self) -> Truth
        ensures { result ≡ spec.opposite self }
    {
        match self {
            Truth::True => Truth::False,
            Truth::False => Truth::True,
            Truth::Unknown => Truth::Unknown,
        }
    }

    /// Whether it holds for sure.
    pub fn is_true(self) -> bool
        ensures { result ≡ is_true self }
    {
        matches!(self, Truth::True)
    }

    /// Whether a file of that truth is listed: each is, unless the predicate is false of it.
    pub fn is_listed(self) -> bool
        ensures { result ≡ spec.is_not_false self }
    {
        !matches!(self, Truth::False)
    }
}

pub(crate) fn of_test(holds: bool) -> Truth
    ensures { result ≡ spec.of_test holds }
{
    if holds { Truth::True } else { Truth::False }
}

fn boolean_in(value: PartValue<'_>) -> Option<bool>
    ensures { result ≡ spec.boolean_in (seen value.entry) }
{
    match value {
        PartValue::Bool(b) => Some(b),
        _ => None,
    }
}

fn whole_in(value: PartValue<'_>) -> Option<i64>
    ensures { result ≡ spec.whole_in (seen value.entry) }
{
    match value {
        PartValue::Whole(number) => Some(number),
        _ => None,
    }
}

fn day_in(value: PartValue<'_>) -> Option<i32>
    ensures { result ≡ spec.day_in (seen value.entry) }
{
    match value {
        PartValue::Day(day) => Some(day),
        _ => None,
    }
}

fn text_order(text: &str, other: PartValue<'_>) -> Option<Ordering>
    ensures { result ≡ spec.text_order text.now (spec.text_in (seen other.entry)) }
{
    match other {
        PartValue::Text(other) => Some(text.cmp(other)),
        _ => None,
    }
}

fn order(value: PartValue<'_>, other: PartValue<'_>) -> Option<Ordering>
    ensures { result ≡ spec.order (seen value.entry) (seen other.entry) }
{
    match value {
        PartValue::Bool(b) => Some(b.cmp(&boolean_in(other)?)),
        PartValue::Whole(number) => Some(number.cmp(&whole_in(other)?)),
        PartValue::Text(text) => text_order(text, other),
        PartValue::Day(day) => Some(day.cmp(&day_in(other)?)),
        PartValue::Null | PartValue::Unread => None,
    }
}

fn holds(comparison: Comparison, order: Ordering) -> bool
    ensures { result ≡ spec.holds comparison order }
{
    match comparison {
        Comparison::Equal => order.is_eq(),
        Comparison::Less => order.is_lt(),
        Comparison::LessOrEqual => order.is_le(),
        Comparison::Greater => order.is_gt(),
        Comparison::GreaterOrEqual => order.is_ge(),
    }
}

// The truth of a comparison, unknown where the values have no order.
pub(crate) fn compared(comparison: Comparison, left: PartValue<'_>, right: PartValue<'_>) -> Truth
    ensures { result ≡ spec.if_ordered comparison (spec.order (seen left.entry) (seen right.entry)) }
{
    match order(left, right) {
        Some(order) => of_test(holds(comparison, order)),
        None => Truth::Unknown,
    }
}

fn is_null(value: PartValue<'_>) -> bool
    ensures { result ≡ spec.is_null (seen value.entry) }
{
    matches!(value, PartValue::Null)
}

// Whether the text of a column of that type is null, unknown where it is no partition column.
pub(crate) fn null_truth(kind: Option<PartType>, text: Option<&str>) -> Truth
    ensures { result ≡ spec.null_truth kind (option_copied text.entry) }
{
    let Some(kind) = kind else {
        return Truth::Unknown;
    };
    of_test(is_null(value_of(text, kind)))
}
