// The actions that JSON objects stand for.
ghost use Rattle.std.specs.Prelude.{◌≡◌, [], IfOk, codes};
ghost use Rattle.serde_json.specs.View.{view};
ghost use Rattle.json_tree.specs.Fields.{field as field_in, pairs, texts, whole};
ghost use Rattle.case_table.specs.declared.action_fields.Field.TheVariants.{MetaDataConfiguration, MetaDataCreatedTime, MetaDataFormat, MetaDataPartitionColumns};
ghost use Rattle.log_actions.specs.Faults.{Gives};
ghost use Rattle.log_actions.specs.Reading.{add_of, cdc_of, commit_info_of, default_to as default_in, format_in, meta_data_of, optional as optional_in, parquet, protocol_of, remove_of, txn_of};

use crate::fields::{
    default_to, format_at, has_member, object_of, optional, optional_text, required, required_text,
    size_at, time_at, version_at,
};
use crate::{AddFile, CdcFile, CommitInfo, Format, MetaData, NoAction, Protocol, RemoveFile, Txn};
use case_table::Field;
use json_tree::{Pairs, Text, Texts, flag_at, pairs_at, texts_at, whole_at};
use serde_json::Value;
use std::alloc::{AllocError, Global};

#[tactic(auto, using(crate::proofs::FieldReads::Gives_optional), unfolding(crate::specs::Reading::protocol_of))]
pub(crate) fn read_protocol(alloc: Global, value: &Value) -> Result<Protocol, NoAction>
    ensures { Gives result (protocol_of (view value.now)) }
{
    object_of(value)?;
    let min_reader = required(
        Field::ProtocolMinReaderVersion,
        version_at(value, "minReaderVersion"),
    )?;
    let min_writer = required(
        Field::ProtocolMinWriterVersion,
        version_at(value, "minWriterVersion"),
    )?;
    let reader_features = optional(
        Field::ProtocolReaderFeatures,
        texts_at(alloc, value, "readerFeatures"),
    )?;
    let writer_features = optional(
        Field::ProtocolWriterFeatures,
        texts_at(alloc, value, "writerFeatures"),
    )?;
    Ok(Protocol {
        min_reader,
        min_writer,
        reader_features,
        writer_features,
    })
}

fn parquet_format(alloc: Global) -> Result<Format, AllocError>
    ensures { IfOk result (λ f. f ≡ parquet) }
{
    Ok(Format {
        provider: Text::of(String::from_str(alloc, "parquet")?),
        options: Pairs::new(alloc),
    })
}

#[tactic(auto, using(crate::proofs::FieldReads::Gives_default_to))]
fn format_or_parquet(alloc: Global, value: &Value) -> Result<Format, NoAction>
    ensures { Gives result (default_in MetaDataFormat parquet (field_in format_in (codes "format") (view value.now))) }
{
    let parquet = parquet_format(alloc)?;
    default_to(
        Field::MetaDataFormat,
        parquet,
        format_at(alloc, value, "format"),
    )
}

#[tactic(auto, using(crate::proofs::FieldReads::Gives_default_to))]
fn columns_at(alloc: Global, value: &Value) -> Result<Texts, NoAction>
    ensures { Gives result (default_in MetaDataPartitionColumns [] (field_in texts (codes "partitionColumns") (view value.now))) }
{
    default_to(
        Field::MetaDataPartitionColumns,
        Texts::of(Vec::new(alloc)),
        texts_at(alloc, value, "partitionColumns"),
    )
}

#[tactic(auto, using(crate::proofs::FieldReads::Gives_default_to))]
fn configuration_at(alloc: Global, value: &Value) -> Result<Pairs, NoAction>
    ensures { Gives result (default_in MetaDataConfiguration [] (field_in pairs (codes "configuration") (view value.now))) }
{
    default_to(
        Field::MetaDataConfiguration,
        Pairs::new(alloc),
        pairs_at(alloc, value, "configuration"),
    )
}

#[tactic(auto, using(crate::proofs::FieldReads::Gives_optional))]
fn created_at(value: &Value) -> Result<Option<i64>, NoAction>
    ensures { Gives result (optional_in MetaDataCreatedTime (field_in whole (codes "createdTime") (view value.now))) }
{
    optional(Field::MetaDataCreatedTime, whole_at(value, "createdTime"))
}

#[tactic(auto, unfolding(crate::specs::Reading::meta_data_of))]
pub(crate) fn read_meta_data(alloc: Global, value: &Value) -> Result<MetaData, NoAction>
    ensures { Gives result (meta_data_of (view value.now)) }
{
    object_of(value)?;
    let id = required_text(alloc, value, "id", Field::MetaDataId)?;
    let name = optional_text(alloc, value, "name", Field::MetaDataName)?;
    let description = optional_text(alloc, value, "description", Field::MetaDataDescription)?;
    let format = format_or_parquet(alloc, value)?;
    let schema = required_text(alloc, value, "schemaString", Field::MetaDataSchemaString)?;
    let columns = columns_at(alloc, value)?;
    let configuration = configuration_at(alloc, value)?;
    let created = created_at(value)?;
    Ok(MetaData {
        id,
        name,
        description,
        format,
        schema,
        columns,
        configuration,
        created,
    })
}

#[tactic(auto, using(crate::proofs::FieldReads::Gives_required, crate::proofs::FieldReads::Gives_optional, crate::proofs::FieldReads::Gives_default_to), unfolding(crate::specs::Reading::add_of))]
pub(crate) fn read_add(alloc: Global, value: &Value) -> Result<AddFile, NoAction>
    ensures { Gives result (add_of (view value.now)) }
{
    object_of(value)?;
    let path = required_text(alloc, value, "path", Field::AddPath)?;
    let values = default_to(
        Field::AddPartitionValues,
        Pairs::new(alloc),
        pairs_at(alloc, value, "partitionValues"),
    )?;
    let size = required(Field::AddSize, size_at(value, "size"))?;
    let modified = default_to(
        Field::AddModificationTime,
        0,
        whole_at(value, "modificationTime"),
    )?;
    let data_change = default_to(Field::AddDataChange, true, flag_at(value, "dataChange"))?;
    let stats = optional_text(alloc, value, "stats", Field::AddStats)?;
    let tags = optional(Field::AddTags, pairs_at(alloc, value, "tags"))?;
    let vector = has_member(value, "deletionVector");
    Ok(AddFile {
        path,
        values,
        size,
        modified,
        data_change,
        stats,
        tags,
        vector,
    })
}

#[tactic(auto, using(crate::proofs::FieldReads::Gives_required, crate::proofs::FieldReads::Gives_optional), unfolding(crate::specs::Reading::remove_of))]
pub(crate) fn read_remove(alloc: Global, value: &Value) -> Result<RemoveFile, NoAction>
    ensures { Gives result (remove_of (view value.now)) }
{
    object_of(value)?;
    let path = required_text(alloc, value, "path", Field::RemovePath)?;
    let deleted = optional(
        Field::RemoveDeletionTimestamp,
        whole_at(value, "deletionTimestamp"),
    )?;
    let data_change = default_to(Field::RemoveDataChange, true, flag_at(value, "dataChange"))?;
    let values = optional(
        Field::RemovePartitionValues,
        pairs_at(alloc, value, "partitionValues"),
    )?;
    let size = optional(Field::RemoveSize, size_at(value, "size"))?;
    let vector = has_member(value, "deletionVector");
    Ok(RemoveFile {
        path,
        deleted,
        data_change,
        values,
        size,
        vector,
    })
}

#[tactic(auto, using(crate::proofs::FieldReads::Gives_required, crate::proofs::FieldReads::Gives_default_to), unfolding(crate::specs::Reading::cdc_of))]
pub(crate) fn read_cdc(alloc: Global, value: &Value) -> Result<CdcFile, NoAction>
    ensures { Gives result (cdc_of (view value.now)) }
{
    object_of(value)?;
    let path = required_text(alloc, value, "path", Field::CdcPath)?;
    let values = default_to(
        Field::CdcPartitionValues,
        Pairs::new(alloc),
        pairs_at(alloc, value, "partitionValues"),
    )?;
    let size = required(Field::CdcSize, size_at(value, "size"))?;
    Ok(CdcFile { path, values, size })
}

#[tactic(auto, unfolding(crate::specs::Reading::txn_of))]
pub(crate) fn read_txn(alloc: Global, value: &Value) -> Result<Txn, NoAction>
    ensures { Gives result (txn_of (view value.now)) }
{
    object_of(value)?;
    let app = required_text(alloc, value, "appId", Field::TxnAppId)?;
    let version = required(Field::TxnVersion, whole_at(value, "version"))?;
    let updated = optional(Field::TxnLastUpdated, whole_at(value, "lastUpdated"))?;
    Ok(Txn {
        app,
        version,
        updated,
    })
}

pub(crate) fn read_commit_info(value: &Value) -> CommitInfo
    ensures { result ≡ commit_info_of (view value.now) }
{
    CommitInfo {
        timestamp: time_at(value, "timestamp"),
    }
}
