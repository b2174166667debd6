// The fields of the actions in a commit.
ghost use Rattle.std.specs.Prelude.{◌≡◌};
ghost use Rattle.case_table.specs.Fields.{action_word, field_row};
ghost use Rattle.case_table.specs.Laws.{FieldsDiffer};

/// An action whose fields are looked at (Delta Lake PROTOCOL.md, "Actions").
#[derive(Clone, Copy, Debug, PartialEq, Eq)]
pub enum ActionKind {
    /// Which readers and writers a table needs.
    Protocol,
    /// What a table is.
    MetaData,
    /// A file is there from now on.
    Add,
    /// A file is there no more.
    Remove,
    /// A file of the change data feed.
    Cdc,
    /// How far an application is.
    Txn,
}

impl ActionKind {
    /// The name of the member of a commit's line that has the action.
    pub fn word(self) -> &'static str
        ensures { result.now ≡ action_word self }
    {
        match self {
            ActionKind::Protocol => "protocol",
            ActionKind::MetaData => "metaData",
            ActionKind::Add => "add",
            ActionKind::Remove => "remove",
            ActionKind::Cdc => "cdc",
            ActionKind::Txn => "txn",
        }
    }
}

/// A field of an action in a commit (Delta Lake PROTOCOL.md, "Actions").
#[derive(Clone, Copy, Debug, PartialEq, Eq)]
pub enum Field {
    /// `protocol.minReaderVersion`.
    ProtocolMinReaderVersion,
    /// `protocol.minWriterVersion`.
    ProtocolMinWriterVersion,
    /// `protocol.readerFeatures`.
    ProtocolReaderFeatures,
    /// `protocol.writerFeatures`.
    ProtocolWriterFeatures,
    /// `metaData.id`.
    MetaDataId,
    /// `metaData.name`.
    MetaDataName,
    /// `metaData.description`.
    MetaDataDescription,
    /// `metaData.format`.
    MetaDataFormat,
    /// `metaData.schemaString`.
    MetaDataSchemaString,
    /// `metaData.partitionColumns`.
    MetaDataPartitionColumns,
    /// `metaData.configuration`.
    MetaDataConfiguration,
    /// `metaData.createdTime`.
    MetaDataCreatedTime,
    /// `add.path`.
    AddPath,
    /// `add.partitionValues`.
    AddPartitionValues,
    /// `add.size`.
    AddSize,
    /// `add.modificationTime`.
    AddModificationTime,
    /// `add.dataChange`.
    AddDataChange,
    /// `add.stats`.
    AddStats,
    /// `add.tags`.
    AddTags,
    /// `remove.path`.
    RemovePath,
    /// `remove.deletionTimestamp`.
    RemoveDeletionTimestamp,
    /// `remove.dataChange`.
    RemoveDataChange,
    /// `remove.partitionValues`.
    RemovePartitionValues,
    /// `remove.size`.
    RemoveSize,
    /// `cdc.path`.
    CdcPath,
    /// `cdc.partitionValues`.
    CdcPartitionValues,
    /// `cdc.size`.
    CdcSize,
    /// `txn.appId`.
    TxnAppId,
    /// `txn.version`.
    TxnVersion,
    /// `txn.lastUpdated`.
    TxnLastUpdated,
}

impl Field {
    /// All fields, by number.
    pub const ALL: [Field; 30] = [
        Field::ProtocolMinReaderVersion,
        Field::ProtocolMinWriterVersion,
        Field::ProtocolReaderFeatures,
        Field::ProtocolWriterFeatures,
        Field::MetaDataId,
        Field::MetaDataName,
        Field::MetaDataDescription,
        Field::MetaDataFormat,
        Field::MetaDataSchemaString,
        Field::MetaDataPartitionColumns,
        Field::MetaDataConfiguration,
        Field::MetaDataCreatedTime,
        Field::AddPath,
        Field::AddPartitionValues,
        Field::AddSize,
        Field::AddModificationTime,
        Field::AddDataChange,
        Field::AddStats,
        Field::AddTags,
        Field::RemovePath,
        Field::RemoveDeletionTimestamp,
        Field::RemoveDataChange,
        Field::RemovePartitionValues,
        Field::RemoveSize,
        Field::CdcPath,
        Field::CdcPartitionValues,
        Field::CdcSize,
        Field::TxnAppId,
        Field::TxnVersion,
        Field::TxnLastUpdated,
    ];

    /// The number of the field in the documents, from 1 on. Numbers rise in the order of [`Field::ALL`].
    pub fn code(self) -> u16
        ensures { result ≡ (field_row self).code }
    {
        match self {
            Field::ProtocolMinReaderVersion => 1,
            Field::ProtocolMinWriterVersion => 2,
            Field::ProtocolReaderFeatures => 3,
            Field::ProtocolWriterFeatures => 4,
            Field::MetaDataId => 5,
            Field::MetaDataName => 6,
            Field::MetaDataDescription => 7,
            Field::MetaDataFormat => 8,
            Field::MetaDataSchemaString => 9,
            Field::MetaDataPartitionColumns => 10,
            Field::MetaDataConfiguration => 11,
            Field::MetaDataCreatedTime => 12,
            Field::AddPath => 13,
            Field::AddPartitionValues => 14,
            Field::AddSize => 15,
            Field::AddModificationTime => 16,
            Field::AddDataChange => 17,
            Field::AddStats => 18,
            Field::AddTags => 19,
            Field::RemovePath => 20,
            Field::RemoveDeletionTimestamp => 21,
            Field::RemoveDataChange => 22,
            Field::RemovePartitionValues => 23,
            Field::RemoveSize => 24,
            Field::CdcPath => 25,
            Field::CdcPartitionValues => 26,
            Field::CdcSize => 27,
            Field::TxnAppId => 28,
            Field::TxnVersion => 29,
            Field::TxnLastUpdated => 30,
        }
    }

    /// The action that the field is of.
    pub fn kind(self) -> ActionKind
        ensures { result ≡ (field_row self).kind }
    {
        match self {
            Field::ProtocolMinReaderVersion
            | Field::ProtocolMinWriterVersion
            | Field::ProtocolReaderFeatures
            | Field::ProtocolWriterFeatures => ActionKind::Protocol,
            Field::MetaDataId
            | Field::MetaDataName
            | Field::MetaDataDescription
            | Field::MetaDataFormat
            | Field::MetaDataSchemaString
            | Field::MetaDataPartitionColumns
            | Field::MetaDataConfiguration
            | Field::MetaDataCreatedTime => ActionKind::MetaData,
            Field::AddPath
            | Field::AddPartitionValues
            | Field::AddSize
            | Field::AddModificationTime
            | Field::AddDataChange
            | Field::AddStats
            | Field::AddTags => ActionKind::Add,
            Field::RemovePath
            | Field::RemoveDeletionTimestamp
            | Field::RemoveDataChange
            | Field::RemovePartitionValues
            | Field::RemoveSize => ActionKind::Remove,
            Field::CdcPath | Field::CdcPartitionValues | Field::CdcSize => ActionKind::Cdc,
            Field::TxnAppId | Field::TxnVersion | Field::TxnLastUpdated => ActionKind::Txn,
        }
    }

    /// The name of the field in its action's object.
    pub fn name(self) -> &'static str
        ensures { result.now ≡ (field_row self).name }
    {
        match self {
            Field::ProtocolMinReaderVersion => "minReaderVersion",
            Field::ProtocolMinWriterVersion => "minWriterVersion",
            Field::ProtocolReaderFeatures => "readerFeatures",
            Field::ProtocolWriterFeatures => "writerFeatures",
            Field::MetaDataId => "id",
            Field::MetaDataName => "name",
            Field::MetaDataDescription => "description",
            Field::MetaDataFormat => "format",
            Field::MetaDataSchemaString => "schemaString",
            Field::MetaDataPartitionColumns => "partitionColumns",
            Field::MetaDataConfiguration => "configuration",
            Field::MetaDataCreatedTime => "createdTime",
            Field::AddPath | Field::RemovePath | Field::CdcPath => "path",
            Field::AddPartitionValues | Field::RemovePartitionValues | Field::CdcPartitionValues =>
                "partitionValues",
            Field::AddSize | Field::RemoveSize | Field::CdcSize => "size",
            Field::AddModificationTime => "modificationTime",
            Field::AddDataChange | Field::RemoveDataChange => "dataChange",
            Field::AddStats => "stats",
            Field::AddTags => "tags",
            Field::RemoveDeletionTimestamp => "deletionTimestamp",
            Field::TxnAppId => "appId",
            Field::TxnVersion => "version",
            Field::TxnLastUpdated => "lastUpdated",
        }
    }
}

/// A law: no number stands twice, no name twice within an action, and numbers rise. It does nothing when it is called.
pub fn fields_differ()
    ensures { FieldsDiffer }
{}
