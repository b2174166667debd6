// The edits that JSON values and records stand for.
ghost use Rattle.std.specs.Prelude.{◌≡◌, ◌<◌, ◌^◌, IfSome, bytes_eq, option_map, option_and_then, codes};
ghost use Rattle.serde_json.specs.Find.{as_bool};
ghost use Rattle.serde_json.specs.View.{view};
ghost use Rattle.hex.specs.Hex.{encode_lower};
ghost use Rattle.json_tree.specs.Fields.{present};
ghost use Rattle.catalog_log.specs.Reading.{bind_in, binding_in, credential_in, digest_in, digest_of as digest_of_text, drop_recipient_in, drop_share_in, edit_by, edit_in, expiry_of, first_in, first_or_zero, grant_in, grants_in, kind_count, kind_in, location_in, name_in, natural, new_recipient_in, new_share_in, only_in, recipients_in, restriction_of, restriction_or_none, revoke_in, rotate_in, table_in, text_in, unbind_in};
ghost use Rattle.catalog_log.specs.Records.{Gives, GivesRecord, edit_of_record, record_in, version_in, version_of as version_of_number, without_line_feed as without_line_feed_in};

use crate::RecordFault;
use crate::version::RecordVersion;
use edge_core::{Name, is_name_text};
use hex::FromHex;
use json_tree::{Millis, TreeFault, Version, count_at, member_at, tree_of};
use serde_json::Value;
use share_catalog::{
    Binding, CatalogName, Credential, Edit, Location, Restriction, TableName, is_catalog_name_text,
};
use std::alloc::Global;

fn text_at<'a>(object: &'a Value, name: &str) -> Option<&'a str>
    ensures { option_map (λ s. s.now) result ≡ text_in name.now (view object.now) }
{
    member_at(object, name)?.as_str()
}

fn name_at(alloc: Global, object: &Value, field: &str) -> Result<CatalogName, RecordFault>
    ensures { Gives result (name_in field.now (view object.now)) }
{
    let Some(text) = text_at(object, field) else {
        return Err(RecordFault::BadRecord);
    };
    if !is_catalog_name_text(text) {
        return Err(RecordFault::BadRecord);
    }
    match CatalogName::of(String::from_str(alloc, text)?) {
        Some(name) => Ok(name),
        None => Err(RecordFault::BadRecord),
    }
}

fn location_at(alloc: Global, object: &Value) -> Result<Location, RecordFault>
    ensures { Gives result (location_in (view object.now)) }
{
    let Some(text) = text_at(object, "location") else {
        return Err(RecordFault::BadRecord);
    };
    if !is_name_text(text) {
        return Err(RecordFault::BadRecord);
    }
    let Some(name) = Name::of(String::from_str(alloc, text)?) else {
        return Err(RecordFault::BadRecord);
    };
    match Location::of(name) {
        Some(location) => Ok(location),
        None => Err(RecordFault::BadRecord),
    }
}

fn digits_of(bytes: &[u8; 32]) -> [u8; 64]
    ensures { result ≡ encode_lower bytes.now }
{
    let mut text = [0u8; 64];
    hex::encode_to_slice(bytes.as_slice(), &mut text).unwrap();
    text
}

fn spells(bytes: &[u8; 32], text: &str) -> bool
    ensures { result ≡ bytes_eq (encode_lower bytes.now) text.now }
{
    digits_of(bytes).as_slice() == text.as_bytes()
}

// The bytes that 64 lower-case digits spell.
fn digest_of(text: &str) -> Option<[u8; 32]>
    ensures { result ≡ digest_of_text text.now }
{
    match <[u8; 32] as FromHex>::from_hex(text) {
        Ok(bytes) => {
            if spells(&bytes, text) {
                Some(bytes)
            } else {
                None
            }
        }
        Err(_) => None,
    }
}

fn digest_at(object: &Value) -> Option<[u8; 32]>
    ensures { result ≡ digest_in (view object.now) }
{
    digest_of(text_at(object, "digest")?)
}

// The whole number from 0 to 2^63 - 1 that a value is.
fn natural_of(value: &Value) -> Option<u64>
    ensures value { result ≡ natural (view value.now) }
    ensures below { IfSome result (λ n. n < 2 ^ 63) }
{
    u64::try_from(value.as_i64()?).ok()
}

// When a credential ends: `Some(None)` where it has no end, and `None` where the field is of another
// kind.
fn expiry_at(object: &Value) -> Option<Option<Millis>>
    ensures { result ≡ expiry_of (present (codes "expires") (view object.now)) }
{
    let Some(value) = member_at(object, "expires") else {
        return Some(None);
    };
    Some(Some(Millis::of_small(natural_of(value)?)))
}

fn credential_at(object: &Value) -> Option<Credential>
    ensures { result ≡ credential_in (view object.now) }
{
    let digest = digest_at(object)?;
    let expires = expiry_at(object)?;
    Some(Credential { digest, expires })
}

fn table_at(alloc: Global, object: &Value) -> Result<TableName, RecordFault>
    ensures { Gives result (table_in (view object.now)) }
{
    Ok(TableName {
        share: name_at(alloc, object, "share")?,
        schema: name_at(alloc, object, "schema")?,
        table: name_at(alloc, object, "table")?,
    })
}

fn history_at(object: &Value) -> Option<bool>
    ensures { result ≡ option_and_then as_bool (present (codes "history") (view object.now)) }
{
    member_at(object, "history")?.as_bool()
}

fn first_or_zero(value: Option<&Value>) -> Option<Version>
    ensures { result ≡ first_or_zero (option_map (λ v. view v.now) value.entry) }
{
    match value {
        Some(value) => Some(Version::of_small(natural_of(value)?)),
        None => Some(Version::of_small(0)),
    }
}

fn first_at(version: RecordVersion, object: &Value) -> Option<Version>
    ensures { result ≡ first_in version (view object.now) }
{
    match version {
        RecordVersion::One => Some(Version::of_small(0)),
        RecordVersion::Two => first_or_zero(member_at(object, "first")),
    }
}

fn restriction_of(alloc: Global, value: &Value) -> Result<Restriction, RecordFault>
    ensures { Gives result (restriction_of (view value.now)) }
{
    let Some(text) = value.as_str() else {
        return Err(RecordFault::BadRecord);
    };
    match Restriction::of(String::from_str(alloc, text)?) {
        Some(restriction) => Ok(restriction),
        None => Err(RecordFault::BadRecord),
    }
}

fn restriction_or_none(
    alloc: Global,
    value: Option<&Value>,
) -> Result<Option<Restriction>, RecordFault>
    ensures { Gives result (restriction_or_none (option_map (λ v. view v.now) value.entry)) }
{
    match value {
        Some(value) => Ok(Some(restriction_of(alloc, value)?)),
        None => Ok(None),
    }
}

fn only_at(
    alloc: Global,
    version: RecordVersion,
    object: &Value,
) -> Result<Option<Restriction>, RecordFault>
    ensures { Gives result (only_in version (view object.now)) }
{
    match version {
        RecordVersion::One => Ok(None),
        RecordVersion::Two => restriction_or_none(alloc, member_at(object, "only")),
    }
}

fn binding_at(alloc: Global, version: RecordVersion, object: &Value) -> Result<Binding, RecordFault>
    ensures { Gives result (binding_in version (view object.now)) }
{
    let Some(history) = history_at(object) else {
        return Err(RecordFault::BadRecord);
    };
    let Some(first) = first_at(version, object) else {
        return Err(RecordFault::BadRecord);
    };
    Ok(Binding {
        history,
        first,
        only: only_at(alloc, version, object)?,
        location: location_at(alloc, object)?,
    })
}

fn new_share_at(alloc: Global, object: &Value) -> Result<Edit, RecordFault>
    ensures { Gives result (new_share_in (view object.now)) }
{
    Ok(Edit::NewShare {
        name: name_at(alloc, object, "name")?,
    })
}

fn drop_share_at(alloc: Global, object: &Value) -> Result<Edit, RecordFault>
    ensures { Gives result (drop_share_in (view object.now)) }
{
    Ok(Edit::DropShare {
        name: name_at(alloc, object, "name")?,
    })
}

fn bind_at(alloc: Global, version: RecordVersion, object: &Value) -> Result<Edit, RecordFault>
    ensures { Gives result (bind_in version (view object.now)) }
{
    Ok(Edit::Bind {
        table: table_at(alloc, object)?,
        binding: binding_at(alloc, version, object)?,
    })
}

fn unbind_at(alloc: Global, object: &Value) -> Result<Edit, RecordFault>
    ensures { Gives result (unbind_in (view object.now)) }
{
    Ok(Edit::Unbind {
        table: table_at(alloc, object)?,
    })
}

fn new_recipient_at(alloc: Global, object: &Value) -> Result<Edit, RecordFault>
    ensures { Gives result (new_recipient_in (view object.now)) }
{
    let name = name_at(alloc, object, "name")?;
    match credential_at(object) {
        Some(credential) => Ok(Edit::NewRecipient { name, credential }),
        None => Err(RecordFault::BadRecord),
    }
}

fn rotate_at(alloc: Global, object: &Value) -> Result<Edit, RecordFault>
    ensures { Gives result (rotate_in (view object.now)) }
{
    let name = name_at(alloc, object, "name")?;
    match credential_at(object) {
        Some(credential) => Ok(Edit::Rotate { name, credential }),
        None => Err(RecordFault::BadRecord),
    }
}

fn drop_recipient_at(alloc: Global, object: &Value) -> Result<Edit, RecordFault>
    ensures { Gives result (drop_recipient_in (view object.now)) }
{
    Ok(Edit::DropRecipient {
        name: name_at(alloc, object, "name")?,
    })
}

fn grant_at(alloc: Global, object: &Value) -> Result<Edit, RecordFault>
    ensures { Gives result (grant_in (view object.now)) }
{
    Ok(Edit::Grant {
        recipient: name_at(alloc, object, "recipient")?,
        share: name_at(alloc, object, "share")?,
    })
}

fn revoke_at(alloc: Global, object: &Value) -> Result<Edit, RecordFault>
    ensures { Gives result (revoke_in (view object.now)) }
{
    Ok(Edit::Revoke {
        recipient: name_at(alloc, object, "recipient")?,
        share: name_at(alloc, object, "share")?,
    })
}

// How many of the nine kinds have a member that isn't null.
fn count_kinds(object: &Value) -> u8
    ensures { result ≡ kind_count (view object.now) }
{
    count_at(object, "newShare")
        + count_at(object, "dropShare")
        + count_at(object, "bind")
        + count_at(object, "unbind")
        + count_at(object, "newRecipient")
        + count_at(object, "rotate")
        + count_at(object, "dropRecipient")
        + count_at(object, "grant")
        + count_at(object, "revoke")
}

// The edit of a kind of the grants, by the member of the kind.
fn grants_at(alloc: Global, object: &Value) -> Result<Edit, RecordFault>
    ensures { Gives result (grants_in (view object.now)) }
{
    if let Some(value) = member_at(object, "grant") {
        return grant_at(alloc, value);
    }
    if let Some(value) = member_at(object, "revoke") {
        return revoke_at(alloc, value);
    }
    Err(RecordFault::BadRecord)
}

// The edit of a kind of the recipients or the grants.
fn recipients_at(alloc: Global, object: &Value) -> Result<Edit, RecordFault>
    ensures { Gives result (recipients_in (view object.now)) }
{
    if let Some(value) = member_at(object, "newRecipient") {
        return new_recipient_at(alloc, value);
    }
    if let Some(value) = member_at(object, "rotate") {
        return rotate_at(alloc, value);
    }
    if let Some(value) = member_at(object, "dropRecipient") {
        return drop_recipient_at(alloc, value);
    }
    grants_at(alloc, object)
}

// The edit of the kind that has a member.
fn kind_at(alloc: Global, version: RecordVersion, object: &Value) -> Result<Edit, RecordFault>
    ensures { Gives result (kind_in version (view object.now)) }
{
    if let Some(value) = member_at(object, "newShare") {
        return new_share_at(alloc, value);
    }
    if let Some(value) = member_at(object, "dropShare") {
        return drop_share_at(alloc, value);
    }
    if let Some(value) = member_at(object, "bind") {
        return bind_at(alloc, version, value);
    }
    if let Some(value) = member_at(object, "unbind") {
        return unbind_at(alloc, value);
    }
    recipients_at(alloc, object)
}

fn edit_by(alloc: Global, version: RecordVersion, object: &Value) -> Result<Edit, RecordFault>
    ensures { Gives result (edit_by version (view object.now)) }
{
    if count_kinds(object) == 1 {
        kind_at(alloc, version, object)
    } else {
        Err(RecordFault::BadRecord)
    }
}

/// The edit that a JSON object stands for: of the nine kinds `newShare`, `dropShare`, `bind`,
/// `unbind`, `newRecipient`, `rotate`, `dropRecipient`, `grant` and `revoke` it has exactly one
/// member that isn't null, which has the fields of the kind. Other members are passed over. A table
/// that is bound is shared from the version `first` on, 0 where it is absent or null, and by the
/// restriction `only`, a text of at most 2,048 bytes, where it is there and not null; that it is a
/// predicate isn't tested. The fault is `BadRecord` or `NoMemory`.
pub fn edit_at(alloc: Global, object: &Value) -> Result<Edit, RecordFault>
    ensures { Gives result (edit_in (view object.now)) }
{
    edit_by(alloc, RecordVersion::Two, object)
}

fn version_of(number: u64) -> Option<RecordVersion>
    ensures { result ≡ version_of_number number }
{
    match number {
        1 => Some(RecordVersion::One),
        2 => Some(RecordVersion::Two),
        _ => None,
    }
}

fn version_at(object: &Value) -> Option<RecordVersion>
    ensures { result ≡ version_in (view object.now) }
{
    version_of(natural_of(member_at(object, "version")?)?)
}

// The edit of a record's object.
fn record_edit(alloc: Global, object: &Value) -> Result<Edit, RecordFault>
    ensures { Gives result (edit_of_record (view object.now)) }
{
    let Some(version) = version_at(object) else {
        return Err(RecordFault::BadRecord);
    };
    match member_at(object, "edit") {
        Some(edit) => edit_by(alloc, version, edit),
        None => Err(RecordFault::BadRecord),
    }
}

fn without_line_feed(bytes: &[u8]) -> &[u8]
    ensures { result.now ≡ without_line_feed_in bytes.now }
{
    match bytes.last() {
        Some(b'\n') => &bytes[..bytes.len() - 1],
        _ => bytes,
    }
}

/// The edit of a record: the JSON text of an object with the members `edit` and `version`, which is
/// 1 or 2, perhaps with a line feed behind it. Other members are passed over, and so are `first` and
/// `only` of a table that a record of version 1 binds: it is shared whole. What `bytes_of_edit`
/// writes is read as that edit.
pub fn edit_of(alloc: Global, bytes: &[u8]) -> Result<Edit, RecordFault>
    ensures { GivesRecord result (record_in bytes.now) }
{
    match tree_of(alloc, without_line_feed(bytes)) {
        Ok(object) => record_edit(alloc, &object),
        Err(TreeFault::NotUtf8) => Err(RecordFault::NotUtf8),
        Err(TreeFault::NotJson) => Err(RecordFault::NotJson),
        Err(TreeFault::NoMemory) => Err(RecordFault::NoMemory),
    }
}
