// The line of an action.
ghost use Rattle.std.specs.Prelude.{◌≡◌, ◌<◌, ◌^◌, Ok, Some, IfOk, IfSome, OnOk, codes, false, length, option_map};
ghost use Rattle.json_print.specs.Fields.{object_of};
ghost use Rattle.json_print.specs.Lengths.{capped};
ghost use Rattle.json_print.specs.Tokens.{field_tokens, value_tokens};
ghost use Rattle.json_print.specs.Values.{count_value};
ghost use Rattle.log_actions.specs.Kept.{Kept, KeptAdd, KeptCdc, KeptCommitInfo, KeptMetaData, KeptProtocol, KeptRemove, KeptTxn};
ghost use Rattle.log_actions.specs.Lines.{action_at};
ghost use Rattle.log_actions.specs.Printing.{action_data, action_fields, action_name, add_fields_at, cdc_fields_at, commit_info_fields, format_fields, has_vector, line_text, meta_data_fields, protocol_fields, remove_fields_at, txn_fields};
ghost use Rattle.log_actions.specs.Ranges.{times_end};
ghost use Rattle.json_tree.specs.Pairs.{IsPairs};

use crate::{
    Action, AddFile, CdcFile, CommitInfo, CommitTime, FileSize, Format, MetaData, Protocol,
    ProtocolVersion, RemoveFile, Txn,
};
use json_print::{
    Length, Tokens, count_field, flag_field, new_writer, optional_pairs_field, optional_text_field,
    optional_texts_field, optional_whole_field, pairs_field, printed, text_field, texts_field,
    whole_field,
};
use json_tree::Text;
use std::alloc::{AllocError, Global};

// Room for most lines.
const ROOM: usize = 512;

fn version_field<W: Tokens>(
    line: &mut W,
    name: &str,
    version: ProtocolVersion,
) -> Result<(), W::Error>
    ensures written { OnOk result (W.adds line.old line.new (field_tokens (name.now, Some (count_value version)))) }
    ensures bound { version < 2 ^ 31 }
{
    count_field(line, name, version.get().into())
}

/// Writes the size of a file.
pub fn size_field<W: Tokens>(line: &mut W, size: FileSize) -> Result<(), W::Error>
    ensures written { OnOk result (W.adds line.old line.new (field_tokens (codes "size", Some (count_value size)))) }
    ensures bound { size < 2 ^ 63 }
{
    count_field(line, "size", size.get())
}

fn optional_size_field<W: Tokens>(line: &mut W, size: Option<FileSize>) -> Result<(), W::Error>
    ensures written { OnOk result (W.adds line.old line.new (field_tokens (codes "size", option_map count_value size))) }
    ensures bound { IfSome size (λ n. n < 2 ^ 63) }
{
    match size {
        Some(size) => size_field(line, size),
        None => Ok(()),
    }
}

fn optional_time_field<W: Tokens>(line: &mut W, time: Option<CommitTime>) -> Result<(), W::Error>
    ensures written { OnOk result (W.adds line.old line.new (field_tokens (codes "timestamp", option_map count_value time))) }
    ensures bound { IfSome time (λ n. n < times_end) }
{
    match time {
        Some(time) => count_field(line, "timestamp", time.get()),
        None => Ok(()),
    }
}

fn protocol_object<W: Tokens>(line: &mut W, protocol: &Protocol) -> Result<(), W::Error>
    ensures written { OnOk result (W.adds line.old line.new (value_tokens (object_of (protocol_fields protocol.now)))) }
    ensures kept { OnOk result (KeptProtocol protocol.now) }
{
    line.begin_object()?;
    version_field(line, "minReaderVersion", protocol.min_reader)?;
    version_field(line, "minWriterVersion", protocol.min_writer)?;
    optional_texts_field(line, "readerFeatures", &protocol.reader_features)?;
    optional_texts_field(line, "writerFeatures", &protocol.writer_features)?;
    line.end_object()
}

fn format_object<W: Tokens>(line: &mut W, format: &Format) -> Result<(), W::Error>
    ensures written { OnOk result (W.adds line.old line.new (value_tokens (object_of (format_fields format.now)))) }
    ensures kept { OnOk result (IsPairs format.now.options) }
{
    line.begin_object()?;
    pairs_field(line, "options", &format.options)?;
    text_field(line, "provider", &format.provider)?;
    line.end_object()
}

fn meta_data_object<W: Tokens>(line: &mut W, meta: &MetaData) -> Result<(), W::Error>
    ensures written { OnOk result (W.adds line.old line.new (value_tokens (object_of (meta_data_fields meta.now)))) }
    ensures kept { OnOk result (KeptMetaData meta.now) }
{
    line.begin_object()?;
    pairs_field(line, "configuration", &meta.configuration)?;
    optional_whole_field(line, "createdTime", meta.created)?;
    optional_text_field(line, "description", &meta.description)?;
    line.key("format")?;
    format_object(line, &meta.format)?;
    text_field(line, "id", &meta.id)?;
    optional_text_field(line, "name", &meta.name)?;
    texts_field(line, "partitionColumns", &meta.columns)?;
    text_field(line, "schemaString", &meta.schema)?;
    line.end_object()
}

/// Prints what a log says of a file that comes in, with this path in place of its own: the object alone, without the action's name
/// around it ("Add File and Remove File"). A deletion vector is left out.
pub fn push_add<W: Tokens>(line: &mut W, file: &AddFile, path: &Text) -> Result<(), W::Error>
    ensures written { OnOk result (W.adds line.old line.new (value_tokens (object_of (add_fields_at path.now file.now)))) }
    ensures kept { OnOk result (KeptAdd file.now) }
{
    line.begin_object()?;
    flag_field(line, "dataChange", file.data_change)?;
    whole_field(line, "modificationTime", file.modified)?;
    pairs_field(line, "partitionValues", &file.values)?;
    text_field(line, "path", path)?;
    size_field(line, file.size)?;
    optional_text_field(line, "stats", &file.stats)?;
    optional_pairs_field(line, "tags", &file.tags)?;
    line.end_object()
}

/// The same of a file that goes.
pub fn push_remove<W: Tokens>(line: &mut W, file: &RemoveFile, path: &Text) -> Result<(), W::Error>
    ensures written { OnOk result (W.adds line.old line.new (value_tokens (object_of (remove_fields_at path.now file.now)))) }
    ensures kept { OnOk result (KeptRemove file.now) }
{
    line.begin_object()?;
    flag_field(line, "dataChange", file.data_change)?;
    optional_whole_field(line, "deletionTimestamp", file.deleted)?;
    optional_pairs_field(line, "partitionValues", &file.values)?;
    text_field(line, "path", path)?;
    optional_size_field(line, file.size)?;
    line.end_object()
}

/// The same of a file of changed rows ("Add CDC File").
pub fn push_cdc<W: Tokens>(line: &mut W, file: &CdcFile, path: &Text) -> Result<(), W::Error>
    ensures written { OnOk result (W.adds line.old line.new (value_tokens (object_of (cdc_fields_at path.now file.now)))) }
    ensures kept { OnOk result (KeptCdc file.now) }
{
    line.begin_object()?;
    flag_field(line, "dataChange", false)?;
    pairs_field(line, "partitionValues", &file.values)?;
    text_field(line, "path", path)?;
    size_field(line, file.size)?;
    line.end_object()
}

fn txn_object<W: Tokens>(line: &mut W, txn: &Txn) -> Result<(), W::Error>
    ensures written { OnOk result (W.adds line.old line.new (value_tokens (object_of (txn_fields txn.now)))) }
    ensures kept { OnOk result (KeptTxn txn.now) }
{
    line.begin_object()?;
    text_field(line, "appId", &txn.app)?;
    optional_whole_field(line, "lastUpdated", txn.updated)?;
    whole_field(line, "version", txn.version)?;
    line.end_object()
}

fn commit_info_object<W: Tokens>(line: &mut W, info: &CommitInfo) -> Result<(), W::Error>
    ensures written { OnOk result (W.adds line.old line.new (value_tokens (object_of (commit_info_fields info.now)))) }
    ensures kept { OnOk result (KeptCommitInfo info.now) }
{
    line.begin_object()?;
    optional_time_field(line, info.timestamp)?;
    line.end_object()
}

fn name_of(action: &Action) -> &'static str
    ensures { result.now ≡ action_name action.now }
{
    match action {
        Action::Protocol(_) => "protocol",
        Action::MetaData(_) => "metaData",
        Action::Add(_) => "add",
        Action::Remove(_) => "remove",
        Action::Cdc(_) => "cdc",
        Action::Txn(_) => "txn",
        Action::CommitInfo(_) => "commitInfo",
    }
}

fn value_object<W: Tokens>(line: &mut W, action: &Action) -> Result<(), W::Error>
    ensures written { OnOk result (W.adds line.old line.new (value_tokens (object_of (action_fields action.now)))) }
    ensures kept { OnOk result (Kept action.now) }
{
    match action {
        Action::Protocol(protocol) => protocol_object(line, protocol),
        Action::MetaData(meta) => meta_data_object(line, meta),
        Action::Add(file) => push_add(line, file, &file.path),
        Action::Remove(file) => push_remove(line, file, &file.path),
        Action::Cdc(file) => push_cdc(line, file, &file.path),
        Action::Txn(txn) => txn_object(line, txn),
        Action::CommitInfo(info) => commit_info_object(line, info),
    }
}

fn action_object<W: Tokens>(line: &mut W, action: &Action) -> Result<(), W::Error>
    ensures written { OnOk result (W.adds line.old line.new (value_tokens (action_data action.now))) }
    ensures kept { OnOk result (Kept action.now) }
{
    line.begin_object()?;
    line.key(name_of(action))?;
    value_object(line, action)?;
    line.end_object()
}

/// The line of an action, without a line feed: a compact JSON object with the action's name alone,
/// whose value has each field that has a value, in byte order of the names. A deletion vector is
/// left out; the line of an action without one is read as that action. It fails where memory is
/// wanting.
pub fn line_of_action(alloc: Global, action: &Action) -> Result<Text, AllocError>
    ensures text { IfOk result (λ t. t ≡ line_text action.now) }
    ensures back { IfOk result (λ t. has_vector action.now ≡ false → action_at t ≡ Ok (Some action.now)) }
{
    let mut line = new_writer(alloc, ROOM)?;
    action_object(&mut line, action)?;
    Ok(Text::of(printed(line)))
}

/// How many bytes `line_of_action` writes for an action: 2^64 - 1 where they are more. It takes no
/// memory, and goes over each text of the action once.
pub fn line_len(action: &Action) -> u64
    ensures { result ≡ capped (length (line_text action.now)) }
{
    let mut length = Length::new();
    let Ok(()) = action_object(&mut length, action);
    length.bytes
}
