// Predicates whose columns are found once, for many files.
ghost use Rattle.std.specs.Prelude.{◌≡◌, List, Option, ℕ, Some, IfOk, map};
ghost use Rattle.json_tree.specs.declared.pairs.Pairs.{Pairs as Values};
ghost use Rattle.part_values.specs.Typed.{seen, typed};
ghost use Rattle.pred_tree.specs.Bound.{answer, bound_truth, typed_of_known, value_of_side as the_value_of_side};
ghost use Rattle.pred_tree.specs.Tree.{tree, trees};
ghost use Rattle.pred_tree.specs.Truth as spec;

use crate::kinds::compared_type;
use crate::look::text_of_column;
use crate::reading::copied;
use crate::truth::{compared, null_truth};
use crate::{Comparison, Leaf, Pred, Truth};
use json_tree::{Pairs, Text};
use log_actions::AddFile;
use part_values::{Columns, PartType, PartValue, value_of};
use std::alloc::{AllocError, Global};

// A literal's value.
#[derive(Drop)]
enum Known {
    Null,
    Bool(bool),
    Whole(i64),
    Text(Text),
    Day(i32),
    Unread,
}

// One side of a comparison.
#[derive(Drop)]
enum Side {
    // The column of that name, and the type by which it is compared.
    Column(Text, PartType),
    Literal(Known),
}

// A predicate, each column with its type and each literal typed.
#[derive(Drop)]
enum Node {
    All(Vec<Node>),
    Any(Vec<Node>),
    Not(Box<Node>),
    IsNull(Text, Option<PartType>),
    Compare(Comparison, Side, Side),
}

/// A predicate over the columns of one table, which were looked up when it was made. Made by
/// [`bind`].
#[derive(Drop)]
pub struct BoundPred {
    root: Node,
}

fn known_of(alloc: Global, value: PartValue<'_>) -> Result<Known, AllocError>
    ensures { IfOk result (λ k. typed_of_known k ≡ seen value.entry) }
{
    match value {
        PartValue::Null => Ok(Known::Null),
        PartValue::Bool(b) => Ok(Known::Bool(b)),
        PartValue::Whole(number) => Ok(Known::Whole(number)),
        PartValue::Text(text) => Ok(Known::Text(copied(alloc, text)?)),
        PartValue::Day(day) => Ok(Known::Day(day)),
        PartValue::Unread => Ok(Known::Unread),
    }
}

fn value_of_known(known: &Known) -> PartValue<'_>
    ensures { seen result ≡ typed_of_known known.now }
{
    match known {
        Known::Null => PartValue::Null,
        Known::Bool(b) => PartValue::Bool(*b),
        Known::Whole(number) => PartValue::Whole(*number),
        Known::Text(text) => PartValue::Text(text.as_str()),
        Known::Day(day) => PartValue::Day(*day),
        Known::Unread => PartValue::Unread,
    }
}

fn literal_of(alloc: Global, text: &Text, kind: PartType) -> Result<Side, AllocError>
    ensures { IfOk result
        (λ s. (values : Values) → the_value_of_side values s ≡ typed (Some text.now) kind) }
{
    let value = value_of(Some(text.as_str()), kind);
    Ok(Side::Literal(known_of(alloc, value)?))
}

fn side_of(alloc: Global, leaf: &Leaf, columns: &Columns) -> Result<Side, AllocError>
    ensures { IfOk result
        (λ s. (values : Values)
        → the_value_of_side values s ≡ spec.value_of_leaf columns.now values leaf.now) }
{
    match leaf {
        Leaf::Column { name, kind } => {
            let column = columns.kind_of(name.as_str());
            Ok(Side::Column(name.copy(alloc)?, compared_type(*kind, column)))
        }
        Leaf::Literal { value, kind } => literal_of(alloc, value, *kind),
    }
}

/// The predicate over a table's partition columns: the type of each column that it names is found
/// once, and each literal is typed once, as the predicate says. The error is want of memory.
pub fn bind(alloc: Global, pred: &Pred, columns: &Columns) -> Result<BoundPred, AllocError>
    ensures { IfOk result
        (λ b. (values : Values)
        → bound_truth values b ≡ spec.truth columns.now values (tree pred.now)) }
{
    Ok(BoundPred {
        root: bound(alloc, pred, columns)?,
    })
}

#[cycle(bound)]
fn bound(alloc: Global, pred: &Pred, columns: &Columns) -> Result<Node, AllocError>
    ensures { IfOk result
        (λ n. (values : Values)
        → answer values n ≡ spec.truth columns.now values (tree pred.now)) }
{
    match pred {
        Pred::All(children) => Ok(Node::All(bound_each(alloc, children, columns)?)),
        Pred::Any(children) => Ok(Node::Any(bound_each(alloc, children, columns)?)),
        Pred::Not(child) => Ok(Node::Not(Box::new(alloc, bound(alloc, child, columns)?)?)),
        Pred::IsNull(name) => Ok(Node::IsNull(name.copy(alloc)?, columns.kind_of(name.as_str()))),
        Pred::Compare(comparison, left, right) => Ok(Node::Compare(
            *comparison,
            side_of(alloc, left, columns)?,
            side_of(alloc, right, columns)?,
        )),
    }
}

#[cycle(bound)]
fn bound_each(
    alloc: Global,
    children: &Vec<Pred>,
    columns: &Columns,
) -> Result<Vec<Node>, AllocError>
    ensures { IfOk result
        (λ v. (values : Values)
        → map (answer values) v.items ≡ spec.truths columns.now values (trees children.now.items)) }
{
    let mut nodes = Vec::new(alloc);
    for child in children {
        nodes.push(bound(alloc, child, columns)?)?;
    }
    Ok(nodes)
}

impl BoundPred {
    /// What the predicate says of a file of the table (Delta Sharing PROTOCOL.md, "JSON predicates
    /// for Filtering"). Takes no memory.
    ///
    /// A comparison is unknown unless both sides have values of one class: truth values (false is
    /// the lesser), whole numbers, texts (by their bytes) or days. A column has no value to compare
    /// where it is no partition column, where its type has another class than the predicate gives
    /// it, and where its text is null or unread. `isNull` is true exactly where a partition column
    /// is null, and unknown of any other column. `and`, `or` and `not` are Kleene's. Names of
    /// columns are compared byte by byte.
    pub fn eval(&self, file: &AddFile) -> Truth
        ensures { result ≡ bound_truth file.now.values self.now }
    {
        truth(&self.root, &file.values)
    }
}

fn value_of_side<'a>(side: &'a Side, values: &'a Pairs) -> PartValue<'a>
    ensures { seen result ≡ the_value_of_side values.now side.now }
{
    match side {
        Side::Column(name, kind) => value_of(text_of_column(values, name.as_str()), *kind),
        Side::Literal(known) => value_of_known(known),
    }
}

#[cycle(truth)]
fn truth(node: &Node, values: &Pairs) -> Truth
    ensures { result ≡ answer values.now node.now }
{
    match node {
        Node::All(children) => all_true(children, values),
        Node::Any(children) => any_true(children, values),
        Node::Not(child) => truth(child, values).negated(),
        Node::IsNull(name, kind) => null_truth(*kind, text_of_column(values, name.as_str())),
        Node::Compare(comparison, left, right) => compared(
            *comparison,
            value_of_side(left, values),
            value_of_side(right, values),
        ),
    }
}

#[cycle(truth)]
fn all_true(children: &Vec<Node>, values: &Pairs) -> Truth
    ensures { result ≡ spec.all_true (map (answer values.now) children.now.items) }
{
    let mut all = Truth::True;
    for child in children {
        all = all.and(truth(child, values));
        if matches!(all, Truth::False) {
            return Truth::False;
        }
    }
    all
}

#[cycle(truth)]
fn any_true(children: &Vec<Node>, values: &Pairs) -> Truth
    ensures { result ≡ spec.any_true (map (answer values.now) children.now.items) }
{
    let mut any = Truth::False;
    for child in children {
        any = any.or(truth(child, values));
        if matches!(any, Truth::True) {
            return Truth::True;
        }
    }
    any
}
