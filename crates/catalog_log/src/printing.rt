// The record of an edit.
ghost use Rattle.std.specs.Prelude.{◌≡◌, ◌<◌, ◌≤◌, ◌^◌, ◌++◌, ◌∷◌, [], Ok, Some, IfOk, IfSome, IsUtf8, OnOk, codes, length, option_map, string_bytes};
ghost use Rattle.hex.specs.Hex.{IsBytes, encode_lower};
ghost use Rattle.serde_json.specs.Data.{string};
ghost use Rattle.json_print.specs.Fields.{object_of};
ghost use Rattle.json_print.specs.Tokens.{Adds, field_tokens, value_tokens};
ghost use Rattle.json_print.specs.Values.{count_value};
ghost use Rattle.catalog_log.specs.Printing.{Kept, KeptBinding, KeptCredential, KeptLocation, KeptName, KeptRestriction, KeptTable, bind_fields, edit_data, edit_fields, expiry_value, kind_name as name_of_kind, name_fields, pair_fields, recipient_fields, record_data, record_line, record_text, table_fields};
ghost use Rattle.catalog_log.specs.Records.{record_in};

use json::Writer;
use json_print::{
    begin_object, count_field, end_object, flag_field, new_writer, printed, string_field,
};
use json_tree::{Millis, Version};
use share_catalog::{Binding, CatalogName, Credential, Edit, Location, Restriction, TableName};
use std::alloc::{AllocError, Global};

// Room for most records.
const ROOM: usize = 512;

fn name_field(line: &mut Writer, field: &str, name: &CatalogName) -> Result<(), AllocError>
    ensures written { OnOk result (Adds line.old line.new (field_tokens (field.now, Some (string name.now)))) }
    ensures kept { KeptName name.now }
{
    string_field(line, field, name.as_str())
}

fn location_field(line: &mut Writer, location: &Location) -> Result<(), AllocError>
    ensures written { OnOk result (Adds line.old line.new (field_tokens (codes "location", Some (string location.now)))) }
    ensures kept { KeptLocation location.now }
{
    string_field(line, "location", location.name().as_str())
}

fn first_field(line: &mut Writer, first: Version) -> Result<(), AllocError>
    ensures written { OnOk result (Adds line.old line.new (field_tokens (codes "first", Some (count_value first)))) }
    ensures bound { first < 2 ^ 63 }
{
    count_field(line, "first", first.get())
}

fn only_field(line: &mut Writer, only: &Option<Restriction>) -> Result<(), AllocError>
    ensures written { OnOk result (Adds line.old line.new (field_tokens (codes "only", option_map string only.now))) }
    ensures kept { IfSome only.now KeptRestriction }
{
    match only {
        Some(only) => string_field(line, "only", only.as_str()),
        None => Ok(()),
    }
}

fn digest_field(alloc: Global, line: &mut Writer, digest: &[u8; 32]) -> Result<(), AllocError>
    ensures written { OnOk result (Adds line.old line.new (field_tokens (codes "digest", Some (string (encode_lower digest.now))))) }
    ensures bytes { IsBytes digest.now }
    ensures long { length digest.now ≡ 32 }
{
    let digits = hex::encode(alloc, *digest)?;
    string_field(line, "digest", &digits)
}

fn expiry_field(line: &mut Writer, expires: Option<Millis>) -> Result<(), AllocError>
    ensures written { OnOk result (Adds line.old line.new (field_tokens (codes "expires", Some (expiry_value expires)))) }
    ensures bound { IfSome expires (λ n. n < 2 ^ 63) }
{
    line.key("expires")?;
    match expires {
        Some(expires) => line.u64(expires.get()),
        None => line.null(),
    }
}

fn name_object(line: &mut Writer, name: &CatalogName) -> Result<(), AllocError>
    ensures written { OnOk result (Adds line.old line.new (value_tokens (object_of (name_fields name.now)))) }
    ensures kept { OnOk result (KeptName name.now) }
{
    begin_object(line)?;
    name_field(line, "name", name)?;
    end_object(line)
}

fn bind_object(line: &mut Writer, table: &TableName, binding: &Binding) -> Result<(), AllocError>
    ensures written { OnOk result (Adds line.old line.new (value_tokens (object_of (bind_fields table.now binding.now)))) }
    ensures table { OnOk result (KeptTable table.now) }
    ensures binding { OnOk result (KeptBinding binding.now) }
{
    begin_object(line)?;
    first_field(line, binding.first)?;
    flag_field(line, "history", binding.history)?;
    location_field(line, &binding.location)?;
    only_field(line, &binding.only)?;
    name_field(line, "schema", &table.schema)?;
    name_field(line, "share", &table.share)?;
    name_field(line, "table", &table.table)?;
    end_object(line)
}

fn table_object(line: &mut Writer, table: &TableName) -> Result<(), AllocError>
    ensures written { OnOk result (Adds line.old line.new (value_tokens (object_of (table_fields table.now)))) }
    ensures kept { OnOk result (KeptTable table.now) }
{
    begin_object(line)?;
    name_field(line, "schema", &table.schema)?;
    name_field(line, "share", &table.share)?;
    name_field(line, "table", &table.table)?;
    end_object(line)
}

fn recipient_object(
    alloc: Global,
    line: &mut Writer,
    name: &CatalogName,
    credential: &Credential,
) -> Result<(), AllocError>
    ensures written { OnOk result (Adds line.old line.new (value_tokens (object_of (recipient_fields name.now credential.now)))) }
    ensures name { OnOk result (KeptName name.now) }
    ensures credential { OnOk result (KeptCredential credential.now) }
{
    begin_object(line)?;
    digest_field(alloc, line, &credential.digest)?;
    expiry_field(line, credential.expires)?;
    name_field(line, "name", name)?;
    end_object(line)
}

fn pair_object(
    line: &mut Writer,
    recipient: &CatalogName,
    share: &CatalogName,
) -> Result<(), AllocError>
    ensures written { OnOk result (Adds line.old line.new (value_tokens (object_of (pair_fields recipient.now share.now)))) }
    ensures recipient { OnOk result (KeptName recipient.now) }
    ensures share { OnOk result (KeptName share.now) }
{
    begin_object(line)?;
    name_field(line, "recipient", recipient)?;
    name_field(line, "share", share)?;
    end_object(line)
}

fn kind_name(edit: &Edit) -> &'static str
    ensures { result.now ≡ name_of_kind edit.now }
{
    match edit {
        Edit::NewShare { .. } => "newShare",
        Edit::DropShare { .. } => "dropShare",
        Edit::Bind { .. } => "bind",
        Edit::Unbind { .. } => "unbind",
        Edit::NewRecipient { .. } => "newRecipient",
        Edit::Rotate { .. } => "rotate",
        Edit::DropRecipient { .. } => "dropRecipient",
        Edit::Grant { .. } => "grant",
        Edit::Revoke { .. } => "revoke",
    }
}

fn fields_object(alloc: Global, line: &mut Writer, edit: &Edit) -> Result<(), AllocError>
    ensures written { OnOk result (Adds line.old line.new (value_tokens (object_of (edit_fields edit.now)))) }
    ensures kept { OnOk result (Kept edit.now) }
{
    match edit {
        Edit::NewShare { name } | Edit::DropShare { name } | Edit::DropRecipient { name } => {
            name_object(line, name)
        }
        Edit::Bind { table, binding } => bind_object(line, table, binding),
        Edit::Unbind { table } => table_object(line, table),
        Edit::NewRecipient { name, credential } | Edit::Rotate { name, credential } => {
            recipient_object(alloc, line, name, credential)
        }
        Edit::Grant { recipient, share } | Edit::Revoke { recipient, share } => {
            pair_object(line, recipient, share)
        }
    }
}

fn edit_object(alloc: Global, line: &mut Writer, edit: &Edit) -> Result<(), AllocError>
    ensures written { OnOk result (Adds line.old line.new (value_tokens (edit_data edit.now))) }
    ensures kept { OnOk result (Kept edit.now) }
{
    begin_object(line)?;
    line.key(kind_name(edit))?;
    fields_object(alloc, line, edit)?;
    end_object(line)
}

fn record_object(alloc: Global, line: &mut Writer, edit: &Edit) -> Result<(), AllocError>
    ensures written { OnOk result (Adds line.old line.new (value_tokens (record_data edit.now))) }
    ensures kept { OnOk result (Kept edit.now) }
{
    begin_object(line)?;
    line.key("edit")?;
    edit_object(alloc, line, edit)?;
    count_field(line, "version", 2)?;
    end_object(line)
}

// The record of an edit without its line feed.
fn record_line(alloc: Global, edit: &Edit) -> Result<String, AllocError>
    ensures text { IfOk result (λ t. string_bytes t ≡ record_line edit.now) }
    ensures utf8 { IfOk result (λ t. IsUtf8 (string_bytes t)) }
    ensures kept { OnOk result (Kept edit.now) }
{
    let mut line = new_writer(alloc, ROOM)?;
    record_object(alloc, &mut line, edit)?;
    Ok(printed(line))
}

/// The record of an edit: a compact JSON object of the edit and version 2, with the names in byte
/// order and a line feed at its end. A binding has its first shared version always, and its
/// restriction where there is one. It has at most 16 MiB, and is read by `edit_of` as that edit. The error is want of memory.
pub fn bytes_of_edit(alloc: Global, edit: &Edit) -> Result<Vec<u8>, AllocError>
    ensures text { IfOk result (λ v. v.items ≡ record_text edit.now) }
    ensures back { IfOk result (λ v. record_in v.items ≡ Ok edit.now) }
    ensures short { IfOk result (λ v. length v.items ≤ 2 ^ 24) }
{
    let mut text = record_line(alloc, edit)?;
    text.push_str("\n")?;
    Ok(text.into_bytes())
}
