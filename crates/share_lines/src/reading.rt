// The line that a JSON value stands for.
ghost use Rattle.std.specs.Prelude.{◌≡◌, IfOk};
ghost use Rattle.serde_json.specs.View.{view};
ghost use Rattle.serde_json.specs.Find.{as_str};
ghost use Rattle.json_tree.specs.Fields.{field};
ghost use Rattle.share_lines.specs.Reading.{Gives, add_of, change_with, end_of, file_kind_in, file_of, file_with, kind_count, kind_in, line_in, meta_of, optional as optional_in, protocol_of, required as required_in};

use crate::faults::LineFault;
use crate::fields::{default_to, expiry_at, optional, required, version_at};
use crate::{EndLine, FileLine, Line, MetaLine, Version};
use json_tree::{Pairs, Text, Texts, count_at, member_at, pairs_at, text_at, texts_at, whole_at};
use log_actions::size_at;
use serde_json::Value;
use std::alloc::Global;

#[tactic(auto, using(crate::proofs::FieldAnswers::Gives_required))]
fn required_text(alloc: Global, object: &Value, name: &str) -> Result<Text, LineFault>
    ensures { Gives result (required_in (field as_str name.now (view object.now))) }
{
    required(text_at(alloc, object, name))
}

#[tactic(auto, using(crate::proofs::FieldAnswers::Gives_optional))]
fn optional_text(alloc: Global, object: &Value, name: &str) -> Result<Option<Text>, LineFault>
    ensures { Gives result (optional_in (field as_str name.now (view object.now))) }
{
    optional(text_at(alloc, object, name))
}

fn read_protocol(value: &Value) -> Result<Line, LineFault>
    ensures { Gives result (protocol_of (view value.now)) }
{
    let version = required(version_at(value, "minReaderVersion"))?;
    if version.get() == 1 {
        Ok(Line::Protocol)
    } else {
        Err(LineFault::Bad)
    }
}

#[tactic(auto, using(crate::proofs::FieldAnswers::Gives_default_to), unfolding(crate::specs::Reading::meta_of))]
fn read_meta(alloc: Global, value: &Value) -> Result<MetaLine, LineFault>
    ensures { Gives result (meta_of (view value.now)) }
{
    let id = required_text(alloc, value, "id")?;
    let name = optional_text(alloc, value, "name")?;
    let description = optional_text(alloc, value, "description")?;
    let schema = required_text(alloc, value, "schemaString")?;
    let columns = default_to(
        Texts::of(Vec::new(alloc)),
        texts_at(alloc, value, "partitionColumns"),
    )?;
    let configuration = default_to(Pairs::new(alloc), pairs_at(alloc, value, "configuration"))?;
    Ok(MetaLine {
        id,
        name,
        description,
        schema,
        columns,
        configuration,
    })
}

// A file with what its kind has besides.
#[tactic(auto, using(crate::proofs::FieldAnswers::Gives_required), unfolding(crate::specs::Reading::file_with))]
fn read_file_with(
    alloc: Global,
    value: &Value,
    stats: Option<Text>,
    time: Option<i64>,
    version: Option<Version>,
) -> Result<FileLine, LineFault>
    ensures { Gives result (file_with (view value.now) stats time version) }
{
    let url = required_text(alloc, value, "url")?;
    let id = required_text(alloc, value, "id")?;
    let values = required(pairs_at(alloc, value, "partitionValues"))?;
    let size = required(size_at(value, "size"))?;
    let expires = optional(expiry_at(value, "expirationTimestamp"))?;
    Ok(FileLine {
        url,
        id,
        values,
        size,
        stats,
        expires,
        time,
        version,
    })
}

#[tactic(auto, unfolding(crate::specs::Reading::file_of))]
fn read_file(alloc: Global, value: &Value) -> Result<FileLine, LineFault>
    ensures { Gives result (file_of (view value.now)) }
{
    let stats = optional_text(alloc, value, "stats")?;
    read_file_with(alloc, value, stats, None, None)
}

#[tactic(auto, unfolding(crate::specs::Reading::change_with))]
fn read_change_with(
    alloc: Global,
    value: &Value,
    stats: Option<Text>,
) -> Result<FileLine, LineFault>
    ensures { Gives result (change_with (view value.now) stats) }
{
    let time = required(whole_at(value, "timestamp"))?;
    let version = required(version_at(value, "version"))?;
    read_file_with(alloc, value, stats, Some(time), Some(version))
}

#[tactic(auto, unfolding(crate::specs::Reading::add_of))]
fn read_add(alloc: Global, value: &Value) -> Result<FileLine, LineFault>
    ensures { Gives result (add_of (view value.now)) }
{
    let stats = optional_text(alloc, value, "stats")?;
    read_change_with(alloc, value, stats)
}

#[tactic(auto, unfolding(crate::specs::Reading::end_of))]
fn read_end(alloc: Global, value: &Value) -> Result<EndLine, LineFault>
    ensures { Gives result (end_of (view value.now)) }
{
    if !value.is_object() {
        return Err(LineFault::Bad);
    }
    let min_expires = optional(expiry_at(value, "minUrlExpirationTimestamp"))?;
    let token = optional_text(alloc, value, "nextPageToken")?;
    Ok(EndLine { min_expires, token })
}

// How many of the seven kinds have a member that isn't null.
fn count_kinds(object: &Value) -> u8
    ensures { result ≡ kind_count (view object.now) }
{
    count_at(object, "protocol")
        + count_at(object, "metaData")
        + count_at(object, "file")
        + count_at(object, "add")
        + count_at(object, "cdf")
        + count_at(object, "remove")
        + count_at(object, "endStreamAction")
}

// The line of a kind that is a file.
fn file_kind_at(alloc: Global, object: &Value) -> Result<Line, LineFault>
    ensures { Gives result (file_kind_in (view object.now)) }
{
    if let Some(value) = member_at(object, "file") {
        return Ok(Line::File(read_file(alloc, value)?));
    }
    if let Some(value) = member_at(object, "add") {
        return Ok(Line::Add(read_add(alloc, value)?));
    }
    if let Some(value) = member_at(object, "cdf") {
        return Ok(Line::Cdf(read_change_with(alloc, value, None)?));
    }
    if let Some(value) = member_at(object, "remove") {
        return Ok(Line::Remove(read_change_with(alloc, value, None)?));
    }
    Err(LineFault::Bad)
}

// The line of the kind that has a member.
fn kind_at(alloc: Global, object: &Value) -> Result<Line, LineFault>
    ensures { Gives result (kind_in (view object.now)) }
{
    if let Some(value) = member_at(object, "protocol") {
        return read_protocol(value);
    }
    if let Some(value) = member_at(object, "metaData") {
        return Ok(Line::MetaData(read_meta(alloc, value)?));
    }
    if let Some(value) = member_at(object, "endStreamAction") {
        return Ok(Line::End(read_end(alloc, value)?));
    }
    file_kind_at(alloc, object)
}

// The line of an object: of the seven kinds it has exactly one member that isn't null.
pub(crate) fn line_of(alloc: Global, object: &Value) -> Result<Line, LineFault>
    ensures { Gives result (line_in (view object.now)) }
{
    if count_kinds(object) == 1 {
        kind_at(alloc, object)
    } else {
        Err(LineFault::Bad)
    }
}
