// The types of the values in a predicate.
ghost use Rattle.std.specs.Prelude.{◌≡◌, bytes_eq, IfSome, Some};
ghost use Rattle.case_table.specs.ValueTypes.{value_row, value_type_of_word};
ghost use Rattle.std.specs.List.{find};
ghost use Rattle.case_table.specs.Laws.{ValueTypesDiffer};
ghost use Rattle.case_table.specs.declared.values.ValueType.{ValueType};

/// A class of values; values are compared within one class.
#[derive(Clone, Copy, Debug, PartialEq, Eq)]
pub enum Class {
    /// Truth values.
    Boolean,
    /// Whole numbers.
    Whole,
    /// Texts.
    Text,
    /// Days.
    Day,
}

/// A type of the values in a predicate, as `valueType` tells it (Delta Sharing PROTOCOL.md, "JSON predicates for filtering"). Other
/// types that a text may name have no class.
#[derive(Clone, Copy, Debug, PartialEq, Eq)]
pub enum ValueType {
    /// A truth value.
    Bool,
    /// A whole number of 32 bits.
    Int,
    /// A whole number of 64 bits.
    Long,
    /// A text.
    String,
    /// A day of the civil calendar.
    Date,
}

impl ValueType {
    /// All types.
    pub const ALL: [ValueType; 5] = [
        ValueType::Bool,
        ValueType::Int,
        ValueType::Long,
        ValueType::String,
        ValueType::Date,
    ];

    /// The text of `valueType`.
    pub fn word(self) -> &'static str
        ensures { result.now ≡ (value_row self).word }
    {
        match self {
            ValueType::Bool => "bool",
            ValueType::Int => "int",
            ValueType::Long => "long",
            ValueType::String => "string",
            ValueType::Date => "date",
        }
    }

    /// The class in which the type's values are compared.
    pub fn class(self) -> Class
        ensures { result ≡ (value_row self).class }
    {
        match self {
            ValueType::Bool => Class::Boolean,
            ValueType::Int | ValueType::Long => Class::Whole,
            ValueType::String => Class::Text,
            ValueType::Date => Class::Day,
        }
    }

    /// The type of a text, compared byte by byte; `None` exactly where no type has it. Takes no memory.
    #[tactic(auto, using(crate::proofs::Differ::value_back))]
    pub fn of_word(word: &str) -> Option<ValueType>
        ensures told { result ≡ value_type_of_word word.now }
        ensures found { IfSome result (λ kind. (value_row kind).word ≡ word.now) }
        ensures every { (kind : ValueType) → (value_row kind).word ≡ word.now → result ≡ Some kind }
    {
        value_type_in(&Self::ALL, word)
    }
}

fn value_type_in(kinds: &[ValueType], word: &str) -> Option<ValueType>
    ensures { result ≡ find (λ kind. bytes_eq word.now (value_row kind).word) kinds.now }
{
    kinds.iter().copied().find(|kind| word == kind.word())
}

/// A law: no text stands twice. It does nothing when it is called.
pub fn value_types_differ()
    ensures { ValueTypesDiffer }
{}
