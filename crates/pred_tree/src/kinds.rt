// The types of the values in a predicate, and their classes.
ghost use Rattle.std.specs.Prelude.{◌≡◌};
ghost use Rattle.pred_tree.specs.Kinds as spec;

use case_table::{Class, ValueType};
use part_values::PartType;

fn part_type(kind: Option<ValueType>) -> PartType
    ensures { result ≡ spec.part_type kind }
{
    match kind {
        Some(ValueType::Bool) => PartType::Bool,
        Some(ValueType::Int) => PartType::Int,
        Some(ValueType::Long) => PartType::Long,
        Some(ValueType::String) => PartType::Str,
        Some(ValueType::Date) => PartType::Date,
        None => PartType::Other,
    }
}

// The type that a `valueType` names.
pub(crate) fn value_type(word: &str) -> PartType
    ensures { result ≡ spec.value_type word.now }
{
    part_type(ValueType::of_word(word))
}

fn class(kind: PartType) -> Option<Class>
    ensures { result ≡ spec.class kind }
{
    match kind {
        PartType::Bool => Some(Class::Boolean),
        PartType::Byte | PartType::Short | PartType::Int | PartType::Long => Some(Class::Whole),
        PartType::Str => Some(Class::Text),
        PartType::Date => Some(Class::Day),
        PartType::Other => None,
    }
}

fn is_same(a: Option<Class>, b: Option<Class>) -> bool
    ensures { result ≡ spec.is_same a b }
{
    match (a, b) {
        (Some(Class::Boolean), Some(Class::Boolean))
        | (Some(Class::Whole), Some(Class::Whole))
        | (Some(Class::Text), Some(Class::Text))
        | (Some(Class::Day), Some(Class::Day)) => true,
        _ => false,
    }
}

// The type by which a leaf of that type compares a column.
pub(crate) fn compared_type(leaf: PartType, column: Option<PartType>) -> PartType
    ensures { result ≡ spec.compared_type leaf column }
{
    match column {
        Some(column) if is_same(class(leaf), class(column)) => column,
        _ => PartType::Other,
    }
}
