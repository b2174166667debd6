// The kinds of lines (Delta Sharing PROTOCOL.md, "API Response Format in Parquet" and "Read Change
// Data Feed from a Table").
ghost use Rattle.std.specs.Prelude.{◌≡◌};

use crate::{Millis, Version};
use json_tree::{Pairs, Text, Texts};
use log_actions::FileSize;
use std::marker::Model;

/// What holds for the whole table ("Metadata"). The files are always `parquet`.
#[derive(Drop)]
pub struct MetaLine {
    /// `id`, the table's own identifier.
    pub id: Text,
    /// `name`.
    pub name: Option<Text>,
    /// `description`.
    pub description: Option<Text>,
    /// `schemaString`, the schema as a text of JSON.
    pub schema: Text,
    /// `partitionColumns`, names of columns in their order.
    pub columns: Texts,
    /// `configuration`, texts or nulls by name.
    pub configuration: Pairs,
}

/// A file of the table, or a file of a change ("File", "Add File", "CDF File", "Remove File").
#[derive(Drop)]
pub struct FileLine {
    /// `url`, where the file is read.
    pub url: Text,
    /// `id`, which is the same for the same file in each answer.
    pub id: Text,
    /// `partitionValues`, texts or nulls by name of column.
    pub values: Pairs,
    /// `size` in bytes.
    pub size: FileSize,
    /// `stats`, the file's statistics as a text of JSON. Only files and adds print it.
    pub stats: Option<Text>,
    /// `expirationTimestamp`, when the url ends.
    pub expires: Option<Millis>,
    /// `timestamp` of the version, in milliseconds since the start of 1970 in UTC, any number of 64
    /// bits with sign. Only changes have it, and each of them does.
    pub time: Option<i64>,
    /// `version` with which the change came. Only changes have it, and each of them does.
    pub version: Option<Version>,
}

/// The end of a page ("EndStreamAction").
#[derive(Drop)]
pub struct EndLine {
    /// `minUrlExpirationTimestamp`, when the first of the page's urls ends.
    pub min_expires: Option<Millis>,
    /// `nextPageToken`, with which the next page is asked for.
    pub token: Option<Text>,
}

/// A line of an answer.
#[derive(Drop)]
pub enum Line {
    /// What a reader has to know: version 1 of the reader's protocol ("Protocol").
    Protocol,
    MetaData(MetaLine),
    /// A file of a version.
    File(FileLine),
    /// A file that a change adds.
    Add(FileLine),
    /// A file of changed rows.
    Cdf(FileLine),
    /// A file that a change removes.
    Remove(FileLine),
    End(EndLine),
}

/// A list of lines.
#[derive(Drop)]
pub struct Lines {
    items: Vec<Line>,
}

impl Model for Lines {
    ghost use Rattle.std.specs.Prelude.{List};
    ghost use Rattle.share_lines.specs.declared.kinds.Line.{Line};

    ghost Value = { List Line };

    ghost view = { λ l. l.items.items };
}

impl Lines {
    /// The lines, in the order given.
    pub fn of(items: Vec<Line>) -> Lines
        ensures { result ≡ items.items }
    {
        Lines { items }
    }

    /// The lines, in order.
    pub fn items(&self) -> &[Line]
        ensures { result.now ≡ self.now }
    {
        &self.items
    }

    /// The lines, in order, given back.
    pub fn into_items(self) -> Vec<Line>
        ensures { result.items ≡ self }
    {
        self.items
    }
}
