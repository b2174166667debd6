// Partition columns and their types.
ghost use Rattle.std.specs.Prelude.{◌≡◌, IfOk, List, map, option_map, ℕ};
ghost use Rattle.serde_json.specs.View.{items_view, view};
ghost use Rattle.part_values.specs.Columns.{column_of, columns_in, fields_in, first_kind, kind_by, kind_of_column, kind_named as the_kind_named, kind_of as the_kind_of, or_kind, or_other, schema_in, text_in as the_text_in};
ghost use Rattle.part_values.specs.Kinds.{kind_at};

use crate::PartType;
use json_tree::{Text, Texts, TreeFault, tree_of};
use serde_json::Value;
use std::alloc::{AllocError, Global};
use std::collections::BTreeMap;
use std::marker::Model;

/// A partition column.
#[derive(Drop)]
pub struct Column {
    /// The column's name, in its own case.
    pub name: Text,
    /// The column's type.
    pub kind: PartType,
}

/// The partition columns of a table, in the order of its metadata.
#[derive(Drop)]
pub struct Columns {
    items: Vec<Column>,
}

impl Model for Columns {
    ghost use Rattle.std.specs.Prelude.{List, ℕ, map};
    ghost use Rattle.part_values.specs.Columns.{column_of};
    ghost use Rattle.part_values.specs.declared.value.PartType.{PartType};

    ghost Value = { List (List ℕ × PartType) };

    ghost view = { λ c. map column_of c.items.items };
}

impl Columns {
    /// The columns, in the order given.
    pub fn of(items: Vec<Column>) -> Columns
        ensures { result ≡ map column_of items.items }
    {
        Columns { items }
    }

    /// The columns, in order.
    pub fn items(&self) -> &[Column]
        ensures { map column_of result.now ≡ self.now }
    {
        &self.items
    }

    /// The type of the first column of that name, none exactly where no column has it. Names are
    /// compared byte by byte. Takes no memory, and time in proportion to the columns.
    pub fn kind_of(&self, name: &str) -> Option<PartType>
        ensures { result ≡ kind_of_column name.now self.now }
    {
        kind_in(&self.items, name)
    }
}

// The type of the first column of that name.
fn kind_in(columns: &[Column], name: &str) -> Option<PartType>
    ensures { result ≡ kind_of_column name.now (map column_of columns.now) }
{
    for column in columns {
        if column.name.as_str() == name {
            return Some(column.kind);
        }
    }
    None
}

fn kind_named(name: &str) -> PartType
    ensures { result ≡ the_kind_named name.now }
{
    match name {
        "boolean" => PartType::Bool,
        "byte" => PartType::Byte,
        "short" => PartType::Short,
        "integer" => PartType::Int,
        "long" => PartType::Long,
        "string" => PartType::Str,
        "date" => PartType::Date,
        _ => PartType::Other,
    }
}

/// The text at that name in an object.
pub fn text_in<'a>(object: &'a Value, name: &str) -> Option<&'a str>
    ensures { option_map (λ t. t.now) result ≡ the_text_in name.now (view object.now) }
{
    match object.get(name) {
        Some(value) => value.as_str(),
        None => None,
    }
}

fn kind_of(field: &Value) -> PartType
    ensures { result ≡ the_kind_of (view field.now) }
{
    match text_in(field, "type") {
        Some(name) => kind_named(name),
        None => PartType::Other,
    }
}

fn put<'a>(kinds: &mut BTreeMap<&'a str, PartType>, field: &'a Value) -> Result<(), AllocError>
    ensures { IfOk result (λ _. (q : List ℕ) → kind_at kinds.new q ≡ or_kind (kind_by q (view field.now)) (kind_at kinds.old q)) }
{
    if let Some(name) = text_in(field, "name") {
        kinds.insert(name, kind_of(field))?;
    }
    Ok(())
}

// The types by name. Of fields of one name the first is put in last, and stands.
fn kinds_of<'a>(
    alloc: Global,
    fields: &'a [Value],
) -> Result<BTreeMap<&'a str, PartType>, AllocError>
    ensures { IfOk result (λ kinds. (q : List ℕ) → kind_at kinds q ≡ first_kind q (items_view fields.now)) }
{
    let mut kinds = BTreeMap::new(alloc);
    let mut left = fields.len();
    'fields: while left > 0 {
        left -= 1;
        put(&mut kinds, &fields[left])?;
    }
    Ok(kinds)
}

fn kind_among(kinds: &BTreeMap<&str, PartType>, name: &str) -> PartType
    ensures { result ≡ or_other (kind_at kinds.now name.now) }
{
    kinds.get(name).copied().unwrap_or(PartType::Other)
}

fn typed_columns(
    alloc: Global,
    kinds: &BTreeMap<&str, PartType>,
    names: &[Text],
) -> Result<Columns, AllocError>
    ensures { IfOk result (λ c. c ≡ map (λ name. (name, or_other (kind_at kinds.now name))) names.now) }
{
    let mut columns = Vec::new(alloc);
    for name in names {
        columns.push(Column {
            name: name.copy(alloc)?,
            kind: kind_among(kinds, name.as_str()),
        })?;
    }
    Ok(Columns::of(columns))
}

// The value of the schema's text, null where it is no JSON.
fn schema_of(alloc: Global, schema: &Text) -> Result<Value, AllocError>
    ensures { IfOk result (λ v. view v ≡ schema_in schema.now) }
{
    match tree_of(alloc, schema.as_str().as_bytes()) {
        Ok(value) => Ok(value),
        Err(TreeFault::NoMemory) => Err(AllocError),
        Err(TreeFault::NotUtf8 | TreeFault::NotJson) => Ok(Value::Null),
    }
}

fn fields_of(schema: &Value) -> &[Value]
    ensures { items_view result.now ≡ fields_in (view schema.now) }
{
    match schema.get("fields") {
        Some(Value::Array(fields)) => fields,
        _ => &[],
    }
}

/// The partition columns, each with its type by the schema in JSON (Delta Lake PROTOCOL.md,
/// "Schema Serialization Format"). The type is that of the first object in the schema's list
/// `fields` whose `name` is the column: its text `type`, where that is `boolean`, `byte`, `short`,
/// `integer`, `long`, `string` or `date`. It is other where the schema has no such object or is no
/// JSON object with a list `fields`, and at every other `type`. The error is want of memory.
pub fn columns_of(alloc: Global, schema: &Text, columns: &Texts) -> Result<Columns, AllocError>
    ensures { IfOk result (λ c. c ≡ columns_in schema.now columns.now) }
{
    let schema = schema_of(alloc, schema)?;
    let kinds = kinds_of(alloc, fields_of(&schema))?;
    typed_columns(alloc, &kinds, columns.items())
}
