// A page of a list.
ghost use Rattle.std.specs.Prelude.{◌≡◌, ◌++◌, List, Option, IfOk, Some, codes, option_map};
ghost use Rattle.serde_json.specs.Data.{Data};
ghost use Rattle.serde_json.specs.View.{view, items_view};
ghost use Rattle.share_client.specs.Lists.{list_in, name_in, page_in, table_in, token_in};
ghost use Rattle.share_client.specs.Reads.{GivesText, ReadsItems, ReadsPage};

use crate::ClientFault;
use crate::target::text_of;
use json_tree::{FieldFault, Text, TreeFault, member_at, text_at, tree_of, unless_empty};
use serde_json::Value;
use std::alloc::{AllocError, Global};

/// The name of a shared table, as a server gives it (Delta Sharing PROTOCOL.md, "Concepts"): any texts.
#[derive(Drop)]
pub struct SharedTable {
    /// The share that has the schema.
    pub share: Text,
    /// The schema that has the table.
    pub schema: Text,
    /// The table's own name.
    pub table: Text,
}

// What a list has.
pub(crate) trait Listed: Sized + Drop {
    // What is read of a value, if anything.
    ghost reads: { Data → Option Self };

    // What a value is, or none where it is something else. The error is want of memory.
    fn of_value(alloc: Global, value: &Value) -> Result<Option<Self>, AllocError>
        ensures { IfOk result (λ found. found ≡ reads (view value.now)) };
}

fn name_at<'a>(value: &'a Value, name: &str) -> Option<&'a str>
    ensures { option_map (λ s. s.now) result ≡ name_in name.now (view value.now) }
{
    member_at(value, name)?.as_str()
}

fn copied(alloc: Global, name: Option<&str>) -> Result<Option<Text>, AllocError>
    ensures { IfOk result (λ found. found ≡ option_map (λ s. s.now) name.entry) }
{
    match name {
        Some(name) => Ok(Some(text_of(alloc, name)?)),
        None => Ok(None),
    }
}

impl Listed for Text {
    ghost use Rattle.share_client.specs.Lists.{share_in};

    ghost reads = { share_in };

    fn of_value(alloc: Global, value: &Value) -> Result<Option<Text>, AllocError> {
        copied(alloc, name_at(value, "name"))
    }
}

#[tactic(auto, unfolding(crate::specs::Lists::table_in))]
fn table_names(value: &Value) -> Option<(&str, &str, &str)>
    ensures { option_map (λ t. record { share = t.0.now; schema = t.1.now; table = t.2.now }) result ≡ table_in (view value.now) }
{
    let share = name_at(value, "share")?;
    let schema = name_at(value, "schema")?;
    let table = name_at(value, "name")?;
    Some((share, schema, table))
}

impl Listed for SharedTable {
    ghost use Rattle.share_client.specs.Lists.{table_in};

    ghost reads = { table_in };

    fn of_value(alloc: Global, value: &Value) -> Result<Option<SharedTable>, AllocError> {
        match table_names(value) {
            Some((share, schema, table)) => Ok(Some(SharedTable {
                share: text_of(alloc, share)?,
                schema: text_of(alloc, schema)?,
                table: text_of(alloc, table)?,
            })),
            None => Ok(None),
        }
    }
}

// Reads each value, behind those that were read before.
fn read_items<T: Listed>(
    alloc: Global,
    found: &mut Vec<T>,
    values: &[Value],
) -> Result<(), ClientFault>
    ensures { ReadsItems T.reads found.old.items found.new.items (items_view values.now) result }
{
    for value in values {
        match T::of_value(alloc, value)? {
            Some(item) => found.push(item)?,
            None => return Err(ClientFault::BadReply { at: 0 }),
        }
    }
    Ok(())
}

// The token of the next page.
fn next_token(alloc: Global, page: &Value) -> Result<Option<Text>, ClientFault>
    ensures { GivesText result (token_in (view page.now)) }
{
    match text_at(alloc, page, "nextPageToken") {
        Ok(token) => Ok(unless_empty(token)),
        Err(FieldFault::WrongKind) => Err(ClientFault::BadReply { at: 0 }),
        Err(FieldFault::NoMemory) => Err(ClientFault::NoMemory),
    }
}

#[tactic(auto, unfolding(crate::specs::Lists::list_in))]
fn read_page<T: Listed>(
    alloc: Global,
    found: &mut Vec<T>,
    page: &Value,
) -> Result<Option<Text>, ClientFault>
    ensures { ReadsPage found.old.items found.new.items (list_in T.reads (view page.now)) result }
{
    if !page.is_object() {
        return Err(ClientFault::BadReply { at: 0 });
    }
    match member_at(page, "items") {
        Some(items) => match items.as_array() {
            Some(values) => read_items(alloc, found, values)?,
            None => return Err(ClientFault::BadReply { at: 0 }),
        },
        None => {}
    }
    next_token(alloc, page)
}

// Reads the page of a body, its items behind those that were read before. The answer is the token of the next page.
pub(crate) fn read_list<T: Listed>(
    alloc: Global,
    found: &mut Vec<T>,
    body: &[u8],
) -> Result<Option<Text>, ClientFault>
    ensures { ReadsPage found.old.items found.new.items (page_in T.reads body.now) result }
{
    match tree_of(alloc, body) {
        Ok(page) => read_page(alloc, found, &page),
        Err(TreeFault::NotUtf8) => Err(ClientFault::BadReply { at: 0 }),
        Err(TreeFault::NotJson) => Err(ClientFault::BadReply { at: 0 }),
        Err(TreeFault::NoMemory) => Err(ClientFault::NoMemory),
    }
}
