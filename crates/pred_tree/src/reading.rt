// Reading predicates.
ghost use Rattle.std.specs.Prelude.{◌≡◌, IfOk, codes, map, option_and_then, option_map};
ghost use Rattle.serde_json.specs.Read.{read};
ghost use Rattle.serde_json.specs.View.{items_view, view};
ghost use Rattle.part_values.specs.Columns.{is_text, text_in as the_text_in};
ghost use Rattle.pred_tree.specs.Grammar as spec;
ghost use Rattle.pred_tree.specs.Tree.{all_of as the_all_of, any_of as the_any_of, negated, null_at, tree, trees_of};

use crate::kinds::value_type;
use crate::{Comparison, Leaf, Pred};
use json_tree::Text;
use part_values::{PartType, text_in};
use serde_json::Value;
use std::alloc::{AllocError, Global};

// The bounds of a predicate's text and of its tree.
const LONGEST_TEXT: usize = 2048;

const LEVELS: u8 = 32;

// What a node says of its children.
#[derive(Clone, Copy, Debug, PartialEq, Eq)]
pub(crate) enum Operator {
    And,
    Or,
    Not,
    IsNull,
    Compare(Comparison),
}

fn operator_named(word: &str) -> Option<Operator>
    ensures { result ≡ spec.operator_named word.now }
{
    match word {
        "and" => Some(Operator::And),
        "or" => Some(Operator::Or),
        "not" => Some(Operator::Not),
        "isNull" => Some(Operator::IsNull),
        "equal" => Some(Operator::Compare(Comparison::Equal)),
        "lessThan" => Some(Operator::Compare(Comparison::Less)),
        "lessThanOrEqual" => Some(Operator::Compare(Comparison::LessOrEqual)),
        "greaterThan" => Some(Operator::Compare(Comparison::Greater)),
        "greaterThanOrEqual" => Some(Operator::Compare(Comparison::GreaterOrEqual)),
        _ => None,
    }
}

fn operator_in(node: &Value) -> Option<Operator>
    ensures { result ≡ spec.operator_in (view node.now) }
{
    match text_in(node, "op") {
        Some(word) => operator_named(word),
        None => None,
    }
}

fn children_in(node: &Value) -> Option<&[Value]>
    ensures { option_map (λ c. items_view c.now) result ≡ spec.children_in (view node.now) }
{
    match node.get("children") {
        Some(Value::Array(children)) => Some(children),
        _ => None,
    }
}

fn is_op(part: &Value, op: &str) -> bool
    ensures { result ≡ is_text (the_text_in (codes "op") (view part.now)) op.now }
{
    match text_in(part, "op") {
        Some(word) => word == op,
        None => false,
    }
}

// The text of that field and the type, in an object with that `op`.
fn part_in<'a>(part: &'a Value, op: &str, field: &str) -> Option<(&'a str, PartType)>
    ensures { option_map (λ p. (p.0.now, p.1)) result ≡ spec.part_in op.now field.now (view part.now) }
{
    if !is_op(part, op) {
        return None;
    }
    let text = text_in(part, field)?;
    let word = text_in(part, "valueType")?;
    Some((text, value_type(word)))
}

fn column_in(part: &Value) -> Option<(&str, PartType)>
    ensures { option_map (λ p. (p.0.now, p.1)) result ≡ spec.column_in (view part.now) }
{
    part_in(part, "column", "name")
}

fn literal_in(part: &Value) -> Option<(&str, PartType)>
    ensures { option_map (λ p. (p.0.now, p.1)) result ≡ spec.literal_in (view part.now) }
{
    part_in(part, "literal", "value")
}

pub(crate) fn copied(alloc: Global, text: &str) -> Result<Text, AllocError>
    ensures { IfOk result (λ t. t ≡ text.now) }
{
    Ok(Text::of(String::from_str(alloc, text)?))
}

fn leaf_in(alloc: Global, part: &Value) -> Result<Option<Leaf>, AllocError>
    ensures { IfOk result (λ o. o ≡ spec.leaf_in (view part.now)) }
{
    if let Some((name, kind)) = column_in(part) {
        return Ok(Some(Leaf::Column {
            name: copied(alloc, name)?,
            kind,
        }));
    }
    match literal_in(part) {
        Some((value, kind)) => Ok(Some(Leaf::Literal {
            value: copied(alloc, value)?,
            kind,
        })),
        None => Ok(None),
    }
}

fn leaf_within(alloc: Global, part: &Value, levels: u8) -> Result<Option<Leaf>, AllocError>
    ensures { IfOk result (λ o. o ≡ spec.within levels spec.leaf_in (view part.now)) }
{
    if levels == 0 {
        return Ok(None);
    }
    leaf_in(alloc, part)
}

#[tactic(auto, using(crate::proofs::Levels::not_one))]
fn only_child(children: &[Value]) -> Option<&Value>
    ensures { option_map (λ c. view c.now) result ≡ spec.only_item (items_view children.now) }
{
    if children.len() != 1 {
        return None;
    }
    Some(&children[0])
}

#[tactic(auto, using(crate::proofs::Levels::not_two))]
fn two_children(children: &[Value]) -> Option<(&Value, &Value)>
    ensures { option_map (λ p. (view p.0.now, view p.1.now)) result ≡ spec.two_items (items_view children.now) }
{
    if children.len() != 2 {
        return None;
    }
    Some((&children[0], &children[1]))
}

fn comparison_between(
    alloc: Global,
    comparison: Comparison,
    left: &Value,
    right: &Value,
    levels: u8,
) -> Result<Option<Pred>, AllocError>
    ensures { IfOk result
        (λ o. option_map tree o
        ≡ spec.comparison_of (spec.within levels spec.leaf_in) comparison (view left.now, view right.now)) }
{
    let Some(left) = leaf_within(alloc, left, levels)? else {
        return Ok(None);
    };
    let Some(right) = leaf_within(alloc, right, levels)? else {
        return Ok(None);
    };
    Ok(Some(Pred::Compare(comparison, left, right)))
}

fn comparison_of(
    alloc: Global,
    comparison: Comparison,
    children: &[Value],
    levels: u8,
) -> Result<Option<Pred>, AllocError>
    ensures { IfOk result
        (λ o. option_map tree o
        ≡ option_and_then (spec.comparison_of (spec.within levels spec.leaf_in) comparison)
        (spec.two_items (items_view children.now))) }
{
    match two_children(children) {
        Some((left, right)) => comparison_between(alloc, comparison, left, right, levels),
        None => Ok(None),
    }
}

fn column_within(part: &Value, levels: u8) -> Option<(&str, PartType)>
    ensures { option_map (λ p. (p.0.now, p.1)) result ≡ spec.within levels spec.column_in (view part.now) }
{
    if levels == 0 {
        return None;
    }
    column_in(part)
}

fn only_column(children: &[Value], levels: u8) -> Option<(&str, PartType)>
    ensures { option_map (λ p. (p.0.now, p.1)) result
        ≡ option_and_then (spec.within levels spec.column_in) (spec.only_item (items_view children.now)) }
{
    match only_child(children) {
        Some(column) => column_within(column, levels),
        None => None,
    }
}

fn null_of(alloc: Global, children: &[Value], levels: u8) -> Result<Option<Pred>, AllocError>
    ensures { IfOk result
        (λ o. option_map tree o
        ≡ option_map (λ c. null_at c.0)
        (option_and_then (spec.within levels spec.column_in) (spec.only_item (items_view children.now)))) }
{
    match only_column(children, levels) {
        Some((name, _)) => Ok(Some(Pred::IsNull(copied(alloc, name)?))),
        None => Ok(None),
    }
}

fn negation_of(alloc: Global, node: Option<Pred>) -> Result<Option<Pred>, AllocError>
    ensures { IfOk result (λ o. option_map tree o ≡ option_map negated (option_map tree node)) }
{
    match node {
        Some(node) => Ok(Some(Pred::Not(Box::new(alloc, node)?))),
        None => Ok(None),
    }
}

fn all_of(nodes: Option<Vec<Pred>>) -> Option<Pred>
    ensures { option_map tree result
        ≡ option_map (λ ts. the_all_of (trees_of ts)) (option_map (λ v. map tree v.items) nodes) }
{
    match nodes {
        Some(nodes) => Some(Pred::All(nodes)),
        None => None,
    }
}

fn any_of(nodes: Option<Vec<Pred>>) -> Option<Pred>
    ensures { option_map tree result
        ≡ option_map (λ ts. the_any_of (trees_of ts)) (option_map (λ v. map tree v.items) nodes) }
{
    match nodes {
        Some(nodes) => Some(Pred::Any(nodes)),
        None => None,
    }
}

// The node that the value is, in at most that many levels.
#[cycle(node)]
fn node_within(alloc: Global, node: &Value, levels: u8) -> Result<Option<Pred>, AllocError>
    ensures { IfOk result (λ o. option_map tree o ≡ spec.node_within levels (view node.now)) }
{
    if levels == 0 {
        return Ok(None);
    }
    let Some(operator) = operator_in(node) else {
        return Ok(None);
    };
    match children_in(node) {
        Some(children) => node_by(alloc, operator, children, levels - 1),
        None => Ok(None),
    }
}

#[cycle(node)]
fn node_by(
    alloc: Global,
    operator: Operator,
    children: &[Value],
    levels: u8,
) -> Result<Option<Pred>, AllocError>
    ensures { IfOk result (λ o. option_map tree o ≡ spec.node_of levels operator (items_view children.now)) }
{
    match operator {
        Operator::And => Ok(all_of(nodes_within(alloc, children, levels)?)),
        Operator::Or => Ok(any_of(nodes_within(alloc, children, levels)?)),
        Operator::Not => Ok(negation_of(alloc, only_node(alloc, children, levels)?)?),
        Operator::IsNull => null_of(alloc, children, levels),
        Operator::Compare(comparison) => comparison_of(alloc, comparison, children, levels),
    }
}

#[cycle(node)]
fn only_node(alloc: Global, children: &[Value], levels: u8) -> Result<Option<Pred>, AllocError>
    ensures { IfOk result
        (λ o. option_map tree o
        ≡ option_and_then (spec.node_within levels) (spec.only_item (items_view children.now))) }
{
    match only_child(children) {
        Some(node) => node_within(alloc, node, levels),
        None => Ok(None),
    }
}

// The nodes that the children are, at least one.
#[cycle(node)]
fn nodes_within(
    alloc: Global,
    children: &[Value],
    levels: u8,
) -> Result<Option<Vec<Pred>>, AllocError>
    ensures { IfOk result
        (λ o. option_map (λ v. map tree v.items) o ≡ spec.some_nodes (spec.node_within levels) (items_view children.now)) }
{
    if children.is_empty() {
        return Ok(None);
    }
    each_within(alloc, children, levels)
}

#[cycle(node)]
fn each_within(
    alloc: Global,
    children: &[Value],
    levels: u8,
) -> Result<Option<Vec<Pred>>, AllocError>
    ensures { IfOk result
        (λ o. option_map (λ v. map tree v.items) o ≡ spec.each (spec.node_within levels) (items_view children.now)) }
{
    let mut nodes = Vec::new(alloc);
    for child in children {
        match node_within(alloc, child, levels)? {
            Some(node) => nodes.push(node)?,
            None => return Ok(None),
        }
    }
    Ok(Some(nodes))
}

// The value of a JSON text, none where it is no JSON.
fn value_of_text(alloc: Global, text: &str) -> Result<Option<Value>, AllocError>
    ensures { IfOk result (λ o. option_map view o ≡ read text.now) }
{
    match Value::from_str(alloc, text) {
        Ok(value) => Ok(Some(value)),
        Err(e) if e.is_memory() => Err(AllocError),
        Err(_) => Ok(None),
    }
}

fn node_of_text(alloc: Global, text: &str) -> Result<Option<Pred>, AllocError>
    ensures { IfOk result (λ o. option_map tree o ≡ option_and_then (spec.node_within 32) (read text.now)) }
{
    match value_of_text(alloc, text)? {
        Some(value) => node_within(alloc, &value, LEVELS),
        None => Ok(None),
    }
}

/// The predicate that the text is, none exactly where it isn't one. It is JSON of at most 2,048
/// bytes (RFC 8259; of members of one name the last counts). A node is an object with `op` and a
/// list `children`: `and` and `or` of at least one node, `not` of one node, `isNull` of one column,
/// and `equal`, `lessThan`, `lessThanOrEqual`, `greaterThan` and `greaterThanOrEqual` of two
/// leaves. A leaf is an object with `op` `column` and texts `name` and `valueType`, or with `op`
/// `literal` and texts `value` and `valueType`. Other members are passed over, and a leaf alone is
/// no predicate. At most 32 levels are read, from the outer node to the leaves.
///
/// # Errors
///
/// Want of memory.
pub fn pred_of(alloc: Global, text: &str) -> Result<Option<Pred>, AllocError>
    ensures { IfOk result (λ o. option_map tree o ≡ spec.predicate_in text.now) }
{
    if text.len() > LONGEST_TEXT {
        return Ok(None);
    }
    node_of_text(alloc, text)
}
