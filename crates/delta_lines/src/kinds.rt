// The kinds of lines (Delta Sharing PROTOCOL.md, "API Response Format in Delta").

use json_tree::{Millis, Text, Version};
use log_actions::{AddFile, CdcFile, MetaData, Protocol, RemoveFile};
use share_lines::EndLine;

/// What a log says of a file.
#[derive(Drop)]
pub enum FileAction {
    /// The file came in.
    Add(AddFile),
    /// The file has changed rows.
    Cdc(CdcFile),
    /// The file went.
    Remove(RemoveFile),
}

/// A file of the table, or a file of a change.
#[derive(Drop)]
pub struct DeltaFile {
    /// `id`, the file's path as it is spelt in the log.
    pub id: Text,
    /// Where the file is read: the `path` of the action that is printed.
    pub url: Text,
    /// What the log says, with the log's own path, which is `id`.
    pub action: FileAction,
    /// `expirationTimestamp`, when the url ends.
    pub expires: Option<Millis>,
    /// `timestamp` of the version, in milliseconds since the start of 1970 in UTC, any number of 64
    /// bits with sign. Only changes have it.
    pub time: Option<i64>,
    /// `version` with which the change came. Only changes have it.
    pub version: Option<Version>,
}

/// A line of an answer.
#[derive(Drop)]
pub enum DeltaLine {
    /// What reading and writing the table takes.
    Protocol(Protocol),
    /// What holds for the whole table.
    MetaData(MetaData),
    /// A file.
    File(DeltaFile),
    /// The end of a page.
    End(EndLine),
}
