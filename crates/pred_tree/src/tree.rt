// Predicates as trees.
use json_tree::Text;
use part_values::PartType;

/// How two values are compared.
#[derive(Clone, Copy, Debug, PartialEq, Eq)]
pub enum Comparison {
    /// `equal`.
    Equal,
    /// `lessThan`.
    Less,
    /// `lessThanOrEqual`.
    LessOrEqual,
    /// `greaterThan`.
    Greater,
    /// `greaterThanOrEqual`.
    GreaterOrEqual,
}

/// One side of a comparison.
#[derive(Drop)]
pub enum Leaf {
    /// A column of the table.
    Column {
        /// The column's name, in its own case.
        name: Text,
        /// The type that the predicate gives it, [`PartType::Other`] for any word beside `bool`,
        /// `int`, `long`, `string` and `date`.
        kind: PartType,
    },
    /// A value.
    Literal {
        /// The value as a text.
        value: Text,
        /// Its type, as that of a column.
        kind: PartType,
    },
}

/// A predicate, as [`crate::pred_of`] reads it. Contracts see it as its tree.
#[derive(Drop)]
pub enum Pred {
    /// `and`: each of the predicates.
    All(Vec<Pred>),
    /// `or`: one of the predicates.
    Any(Vec<Pred>),
    /// `not`.
    Not(Box<Pred>),
    /// `isNull` of the column of that name.
    IsNull(Text),
    /// A comparison of the two sides.
    Compare(Comparison, Leaf, Leaf),
}
