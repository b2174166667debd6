// The names of shared tables.
ghost use Rattle.std.specs.Prelude.{◌≡◌, ◌&&◌, IfOk, MatchOption, IsTrue, false, string_bytes};
ghost use Rattle.share_catalog.specs.Grammar.{is_catalog_name};
ghost use Rattle.share_catalog.specs.TableNames.{parts_of, texts_cmp};

use crate::name::CatalogName;
use std::alloc::{AllocError, Global};
use std::cmp::Ordering;

/// The name of a shared table: its share, its schema and its own name (Delta Sharing PROTOCOL.md,
/// "Concepts").
#[derive(Drop)]
pub struct TableName {
    /// The share that has the schema.
    pub share: CatalogName,
    /// The schema that has the table.
    pub schema: CatalogName,
    /// The table's own name.
    pub table: CatalogName,
}

impl TableName {
    /// The name of these three texts, or `None` exactly where one of them isn't a name.
    pub fn of(share: String, schema: String, table: String) -> Option<TableName>
        ensures { MatchOption result ((is_catalog_name (string_bytes share) && (is_catalog_name (string_bytes schema) && is_catalog_name (string_bytes table))) ≡ false)
            (λ n. n ≡ record { share = string_bytes share; schema = string_bytes schema; table = string_bytes table }) }
    {
        Some(TableName {
            share: CatalogName::of(share)?,
            schema: CatalogName::of(schema)?,
            table: CatalogName::of(table)?,
        })
    }

    /// Another name of the same texts. The error is want of memory.
    pub fn copy(&self, alloc: Global) -> Result<TableName, AllocError>
        ensures { IfOk result (λ n. n ≡ self.now) }
    {
        Ok(TableName {
            share: self.share.copy(alloc)?,
            schema: self.schema.copy(alloc)?,
            table: self.table.copy(alloc)?,
        })
    }

    /// The order of table names: by share, then by schema, then by table, each in byte order. They
    /// are one name exactly where it is `Equal`.
    pub fn compare(&self, other: &TableName) -> Ordering
        ensures { result ≡ texts_cmp (parts_of self.now) (parts_of other.now) }
    {
        self.share
            .compare(&other.share)
            .then(self.schema.compare(&other.schema))
            .then(self.table.compare(&other.table))
    }
}
