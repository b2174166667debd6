// The kinds of actions (Delta Lake PROTOCOL.md, "Actions").
ghost use Rattle.std.specs.Prelude.{◌≡◌, IfOk};

use crate::{CommitTime, FileSize, ProtocolVersion};
use json_tree::{Pairs, Text, Texts, copy_pairs_or_none, copy_text_or_none};
use std::alloc::{AllocError, Global};
use std::marker::Model;

/// What reading and writing the table takes ("Protocol Evolution", "Table Features").
#[derive(Drop)]
pub struct Protocol {
    /// `minReaderVersion`; required.
    pub min_reader: ProtocolVersion,
    /// `minWriterVersion`; required.
    pub min_writer: ProtocolVersion,
    /// `readerFeatures`, the features that a reader of version 3 has to have.
    pub reader_features: Option<Texts>,
    /// `writerFeatures`, the features that a writer of version 7 has to have.
    pub writer_features: Option<Texts>,
}

/// How the table's files are encoded ("Format Specification").
#[derive(Drop)]
pub struct Format {
    /// `provider`; absent or null it is `parquet`.
    pub provider: Text,
    /// `options`, texts by name; absent or null it has none.
    pub options: Pairs,
}

/// What holds for the whole table ("Change Metadata").
#[derive(Drop)]
pub struct MetaData {
    /// `id`, the table's own identifier; required.
    pub id: Text,
    /// `name`.
    pub name: Option<Text>,
    /// `description`.
    pub description: Option<Text>,
    /// `format`; absent or null it is `parquet` without options.
    pub format: Format,
    /// `schemaString`, the schema as a text of JSON; required.
    pub schema: Text,
    /// `partitionColumns`, names of columns in their order; absent or null it has none.
    pub columns: Texts,
    /// `configuration`, texts by name; absent or null it has none.
    pub configuration: Pairs,
    /// `createdTime`, in milliseconds since the start of 1970 in UTC, any number of 64 bits with
    /// sign.
    pub created: Option<i64>,
}

/// A data file that the table gains ("Add File and Remove File").
#[derive(Drop)]
pub struct AddFile {
    /// `path`, as it is spelt in the log; required.
    pub path: Text,
    /// `partitionValues`, texts or nulls by name of column; absent or null it has none.
    pub values: Pairs,
    /// `size` in bytes; required.
    pub size: FileSize,
    /// `modificationTime`, in milliseconds since the start of 1970 in UTC, any number of 64 bits
    /// with sign; absent or null it is 0.
    pub modified: i64,
    /// `dataChange`; absent or null it is true.
    pub data_change: bool,
    /// `stats`, the file's statistics as a text of JSON.
    pub stats: Option<Text>,
    /// `tags`, texts or nulls by name.
    pub tags: Option<Pairs>,
    /// Whether there is a `deletionVector` that isn't null.
    pub vector: bool,
}

/// A data file that the table loses ("Add File and Remove File").
#[derive(Drop)]
pub struct RemoveFile {
    /// `path`, as it is spelt in the log; required.
    pub path: Text,
    /// `deletionTimestamp`, in milliseconds since the start of 1970 in UTC, any number of 64 bits
    /// with sign.
    pub deleted: Option<i64>,
    /// `dataChange`; absent or null it is true.
    pub data_change: bool,
    /// `partitionValues`, texts or nulls by name of column.
    pub values: Option<Pairs>,
    /// `size` in bytes.
    pub size: Option<FileSize>,
    /// Whether there is a `deletionVector` that isn't null.
    pub vector: bool,
}

/// A file of changed rows ("Add CDC File").
#[derive(Drop)]
pub struct CdcFile {
    /// `path`, as it is spelt in the log; required.
    pub path: Text,
    /// `partitionValues`, texts or nulls by name of column; absent or null it has none.
    pub values: Pairs,
    /// `size` in bytes; required.
    pub size: FileSize,
}

/// How far an application has come with its own writes ("Transaction Identifiers").
#[derive(Drop)]
pub struct Txn {
    /// `appId`, the application; required.
    pub app: Text,
    /// `version`, a number of the application's own, of 64 bits with sign; required.
    pub version: i64,
    /// `lastUpdated`, in milliseconds since the start of 1970 in UTC, any number of 64 bits with
    /// sign.
    pub updated: Option<i64>,
}

/// What a commit says of itself ("Commit Provenance Information"). Only its moment is kept.
#[derive(Drop)]
pub struct CommitInfo {
    /// `timestamp`, none where it isn't a whole number in the bounds of a commit's time.
    pub timestamp: Option<CommitTime>,
}

/// An action of a commit.
#[derive(Drop)]
pub enum Action {
    Protocol(Protocol),
    MetaData(MetaData),
    Add(AddFile),
    Remove(RemoveFile),
    Cdc(CdcFile),
    Txn(Txn),
    CommitInfo(CommitInfo),
}

/// A list of actions.
#[derive(Drop)]
pub struct Actions {
    items: Vec<Action>,
}

impl Model for Actions {
    ghost use Rattle.std.specs.Prelude.{List};
    ghost use Rattle.log_actions.specs.declared.actions.Action.{Action};

    ghost Value = { List Action };

    ghost view = { λ a. a.items.items };
}

impl Actions {
    /// The actions, in the order given.
    pub fn of(items: Vec<Action>) -> Actions
        ensures { result ≡ items.items }
    {
        Actions { items }
    }

    /// The actions, in order.
    pub fn items(&self) -> &[Action]
        ensures { result.now ≡ self.now }
    {
        &self.items
    }

    /// A list of the same actions.
    pub fn copy(&self, alloc: Global) -> Result<Actions, AllocError>
        ensures { IfOk result (λ a. a ≡ self.now) }
    {
        Ok(Actions::of(copy_actions(alloc, self.items())?))
    }
}

fn copy_actions(alloc: Global, actions: &[Action]) -> Result<Vec<Action>, AllocError>
    ensures { IfOk result (λ v. v.items ≡ actions.now) }
{
    let mut copies = Vec::new(alloc);
    for action in actions {
        copies.push(action.copy(alloc)?)?;
    }
    Ok(copies)
}

impl Action {
    /// An action of the same kind and fields.
    pub fn copy(&self, alloc: Global) -> Result<Action, AllocError>
        ensures { IfOk result (λ a. a ≡ self.now) }
    {
        match self {
            Action::Protocol(protocol) => Ok(Action::Protocol(protocol.copy(alloc)?)),
            Action::MetaData(meta) => Ok(Action::MetaData(meta.copy(alloc)?)),
            Action::Add(file) => Ok(Action::Add(file.copy(alloc)?)),
            Action::Remove(file) => Ok(Action::Remove(file.copy(alloc)?)),
            Action::Cdc(file) => Ok(Action::Cdc(file.copy(alloc)?)),
            Action::Txn(txn) => Ok(Action::Txn(txn.copy(alloc)?)),
            Action::CommitInfo(info) => Ok(Action::CommitInfo(info.copy())),
        }
    }
}

fn copy_texts_or_none(alloc: Global, texts: &Option<Texts>) -> Result<Option<Texts>, AllocError>
    ensures { IfOk result (λ t. t ≡ texts.now) }
{
    match texts {
        Some(texts) => Ok(Some(texts.copy(alloc)?)),
        None => Ok(None),
    }
}

impl Protocol {
    /// A protocol of the same versions and features.
    pub fn copy(&self, alloc: Global) -> Result<Protocol, AllocError>
        ensures { IfOk result (λ p. p ≡ self.now) }
    {
        Ok(Protocol {
            min_reader: self.min_reader,
            min_writer: self.min_writer,
            reader_features: copy_texts_or_none(alloc, &self.reader_features)?,
            writer_features: copy_texts_or_none(alloc, &self.writer_features)?,
        })
    }
}

impl Format {
    /// A format of the same fields.
    pub fn copy(&self, alloc: Global) -> Result<Format, AllocError>
        ensures { IfOk result (λ f. f ≡ self.now) }
    {
        Ok(Format {
            provider: self.provider.copy(alloc)?,
            options: self.options.copy(alloc)?,
        })
    }
}

impl MetaData {
    /// A metaData of the same fields.
    pub fn copy(&self, alloc: Global) -> Result<MetaData, AllocError>
        ensures { IfOk result (λ m. m ≡ self.now) }
    {
        Ok(MetaData {
            id: self.id.copy(alloc)?,
            name: copy_text_or_none(alloc, &self.name)?,
            description: copy_text_or_none(alloc, &self.description)?,
            format: self.format.copy(alloc)?,
            schema: self.schema.copy(alloc)?,
            columns: self.columns.copy(alloc)?,
            configuration: self.configuration.copy(alloc)?,
            created: self.created,
        })
    }
}

impl AddFile {
    /// An added file of the same fields.
    pub fn copy(&self, alloc: Global) -> Result<AddFile, AllocError>
        ensures { IfOk result (λ f. f ≡ self.now) }
    {
        Ok(AddFile {
            path: self.path.copy(alloc)?,
            values: self.values.copy(alloc)?,
            size: self.size,
            modified: self.modified,
            data_change: self.data_change,
            stats: copy_text_or_none(alloc, &self.stats)?,
            tags: copy_pairs_or_none(alloc, &self.tags)?,
            vector: self.vector,
        })
    }
}

impl RemoveFile {
    /// A removed file of the same fields.
    pub fn copy(&self, alloc: Global) -> Result<RemoveFile, AllocError>
        ensures { IfOk result (λ f. f ≡ self.now) }
    {
        Ok(RemoveFile {
            path: self.path.copy(alloc)?,
            deleted: self.deleted,
            data_change: self.data_change,
            values: copy_pairs_or_none(alloc, &self.values)?,
            size: self.size,
            vector: self.vector,
        })
    }
}

impl CdcFile {
    /// A file of changed rows of the same fields.
    pub fn copy(&self, alloc: Global) -> Result<CdcFile, AllocError>
        ensures { IfOk result (λ f. f ≡ self.now) }
    {
        Ok(CdcFile {
            path: self.path.copy(alloc)?,
            values: self.values.copy(alloc)?,
            size: self.size,
        })
    }
}

impl Txn {
    /// A txn of the same fields.
    pub fn copy(&self, alloc: Global) -> Result<Txn, AllocError>
        ensures { IfOk result (λ t. t ≡ self.now) }
    {
        Ok(Txn {
            app: self.app.copy(alloc)?,
            version: self.version,
            updated: self.updated,
        })
    }
}

impl CommitInfo {
    /// A commitInfo of the same moment.
    pub fn copy(&self) -> CommitInfo
        ensures { result ≡ self.now }
    {
        CommitInfo {
            timestamp: self.timestamp,
        }
    }
}
