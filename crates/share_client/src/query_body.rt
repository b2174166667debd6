// The body of a query.
ghost use Rattle.std.specs.Prelude.{◌≡◌, IfOk, IsTrue, false, string_bytes};
ghost use Rattle.json_tree.specs.Tree.{tree_in};
ghost use Rattle.serde_json.specs.Data.{object};
ghost use Rattle.serde_json.specs.View.{view, items_view, members_view};
ghost use Rattle.serde_json.specs.Written.{compact_text, has_float as has_float_in, items_have_float as items_have_float_in, members_have_float as members_have_float_in};
ghost use Rattle.share_client.specs.Bodies.{body_sent, is_query as is_query_data, is_query_text, printed, query_in, with_token};

use json_tree::{Text, TreeFault, tree_of};
use serde_json::{Map, Value};
use std::alloc::{AllocError, Global};
use std::marker::Model;

/// The body of a query (Delta Sharing PROTOCOL.md, "Read Data from a Table"): a JSON object (RFC 8259) in which each number is whole
/// and of 64 bits. Contracts see its text.
#[derive(Drop)]
pub struct QueryBody {
    text: String,
}

impl Model for QueryBody {
    ghost use Rattle.std.specs.Prelude.{List, ℕ, IsTrue, string_bytes};

    ghost Value = { List ℕ };

    ghost view = { λ b. string_bytes b.text };

    ghost use Rattle.share_client.specs.Bodies.{is_query_text};

    ghost invariant = { λ b. IsTrue (is_query_text (string_bytes b.text)) };
}

#[cycle(float)]
fn has_float(value: &Value) -> bool
    ensures { result ≡ has_float_in (view value.now) }
{
    match value {
        Value::Null => false,
        Value::Bool(_) => false,
        Value::Number(number) => number.is_f64(),
        Value::String(_) => false,
        Value::Array(items) => items_have_float(items),
        Value::Object(members) => members_have_float(members),
    }
}

#[cycle(float)]
fn items_have_float(items: &Vec<Value>) -> bool
    ensures { result ≡ items_have_float_in (items_view items.now.items) }
{
    for item in items {
        if has_float(item) {
            return true;
        }
    }
    false
}

#[cycle(float)]
fn members_have_float(members: &Map<String, Value>) -> bool
    ensures { result ≡ members_have_float_in (members_view members.now.entries) }
{
    for (_, member) in members.iter() {
        if has_float(member) {
            return true;
        }
    }
    false
}

fn is_query(value: &Value) -> bool
    ensures { result ≡ is_query_data (view value.now) }
{
    value.is_object() && !has_float(value)
}

fn is_query_of(alloc: Global, text: &str) -> Result<bool, AllocError>
    ensures { IfOk result (λ b. b ≡ is_query_text text.now) }
{
    match tree_of(alloc, text.as_bytes()) {
        Ok(value) => Ok(is_query(&value)),
        Err(TreeFault::NotUtf8) => Ok(false),
        Err(TreeFault::NotJson) => Ok(false),
        Err(TreeFault::NoMemory) => Err(AllocError),
    }
}

impl QueryBody {
    /// The body of that text, or `None` exactly where it isn't one's. The error is want of memory.
    pub fn of(alloc: Global, text: &str) -> Result<Option<QueryBody>, AllocError>
        ensures { IfOk result (λ found. found ≡ query_in text.now) }
    {
        if is_query_of(alloc, text)? {
            Ok(Some(QueryBody {
                text: String::from_str(alloc, text)?,
            }))
        } else {
            Ok(None)
        }
    }

    /// The text, as it was given.
    pub fn as_str(&self) -> &str
        ensures value { result.now ≡ self.now }
        ensures good { IsTrue (is_query_text self.now) }
    {
        &self.text
    }
}

// The text of the object with that page token.
fn put_token(
    alloc: Global,
    mut members: Map<String, Value>,
    token: &str,
) -> Result<String, AllocError>
    requires { members_have_float_in (members_view members.entries) ≡ false }
    ensures { IfOk result (λ t. string_bytes t ≡ compact_text (with_token token.now (object (members_view members.entries)))) }
{
    let name = String::from_str(alloc, "pageToken")?;
    let value = Value::String(String::from_str(alloc, token)?);
    members.insert(name, value)?;
    Value::Object(members).to_string(alloc)
}

fn value_text(alloc: Global, value: Value, token: &str) -> Result<String, AllocError>
    requires { IsTrue (is_query_data (view value)) }
    ensures { IfOk result (λ t. string_bytes t ≡ compact_text (with_token token.now (view value))) }
{
    match value {
        Value::Object(members) => put_token(alloc, members, token),
        _ => unreachable!(),
    }
}

fn body_after(alloc: Global, body: &str, token: &str) -> Result<String, AllocError>
    requires { IsTrue (is_query_text body.now) }
    ensures { IfOk result (λ t. string_bytes t ≡ printed token.now (tree_in body.now)) }
{
    match tree_of(alloc, body.as_bytes()) {
        Ok(value) => value_text(alloc, value, token),
        Err(TreeFault::NoMemory) => Err(AllocError),
        Err(TreeFault::NotUtf8) => unreachable!(),
        Err(TreeFault::NotJson) => unreachable!(),
    }
}

// The body of the request for the page with that token.
pub(crate) fn body_sent(
    alloc: Global,
    body: &QueryBody,
    token: &Option<Text>,
) -> Result<String, AllocError>
    ensures { IfOk result (λ t. string_bytes t ≡ body_sent body.now token.now) }
{
    match token {
        Some(token) => body_after(alloc, body.as_str(), token.as_str()),
        None => String::from_str(alloc, body.as_str()),
    }
}
