// What is read of a table.
use delta_lines::DeltaFile;
use log_actions::{MetaData, Protocol};
use share_lines::{FileLine, Line};

/// A version of a table, as a server gives it (Delta Sharing PROTOCOL.md, "Read Data from a Table").
#[derive(Drop)]
pub struct TableRead {
    /// The version that was read, below 2^63.
    pub version: u64,
    /// The metaData line, which is that of each page.
    pub meta: Line,
    /// The files of all pages, in order.
    pub files: Vec<FileLine>,
    /// How many pages came, 1 to 100,000.
    pub pages: u64,
}

/// A version of a table, as a server gives it in the delta format (Delta Sharing PROTOCOL.md, "API Response Format in Delta").
#[derive(Drop)]
pub struct DeltaRead {
    /// The version that was read, below 2^63.
    pub version: u64,
    /// The protocol of the table's log, which is that of each page.
    pub protocol: Protocol,
    /// The metaData of the table's log, which is that of each page.
    pub meta: MetaData,
    /// The files of all pages, in order.
    pub files: Vec<DeltaFile>,
    /// How many pages came, 1 to 100,000.
    pub pages: u64,
}
