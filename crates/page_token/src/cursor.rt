// What a page token stands for.
use json_tree::{Edition, Place, Text, Version};

/// Which listing a page is of.
#[derive(Clone, Copy, Debug, PartialEq, Eq)]
pub enum ListKind {
    /// The shares of a recipient.
    Shares,
    /// The schemas of a share.
    Schemas,
    /// The tables of a schema.
    Tables,
    /// The tables of a share.
    AllTables,
}

/// Which state of a table a query asked for.
#[derive(Clone, Copy, Debug, PartialEq, Eq)]
pub enum Asked {
    /// The latest version.
    Latest,
    /// A version.
    Version(Version),
    /// The version of a moment, in nanoseconds since 1970-01-01T00:00:00Z.
    Moment(i128),
}

/// Where a listing or a query goes on.
#[derive(Drop)]
pub enum Cursor {
    /// A listing.
    List(ListCursor),
    /// The files of a table.
    Files(FilesCursor),
    /// The changes of a table.
    Feed(FeedCursor),
}

/// Where a listing goes on.
#[derive(Drop)]
pub struct ListCursor {
    /// What is listed.
    pub kind: ListKind,
    /// The name of the recipient that asked.
    pub recipient: Text,
    /// The share that is listed, or the empty text where the listing is of no share.
    pub share: Text,
    /// The schema that is listed, or the empty text where the listing is of no schema.
    pub schema: Text,
    /// The last name given, of all tables `schema/table`; the empty text before the first.
    pub after: Text,
}

/// Who asked for which table, and under which editions.
#[derive(Drop)]
pub struct TableAccess {
    /// The name of the recipient that asked.
    pub recipient: Text,
    /// The share that the table is in.
    pub share: Text,
    /// The schema that the table is in.
    pub schema: Text,
    /// The table's name.
    pub table: Text,
    /// The edition of the recipient's grant.
    pub grant: Edition,
    /// The edition of the table's binding.
    pub binding: Edition,
}

/// Where the files of a table go on.
#[derive(Drop)]
pub struct FilesCursor {
    /// Who asked for which table.
    pub access: TableAccess,
    /// The state that was asked for.
    pub asked: Asked,
    /// The version that is answered.
    pub version: Version,
    /// The text that was used as the predicate.
    pub hint: Option<Text>,
    /// How many files were given.
    pub place: Place,
}

/// Where the changes of a table go on.
#[derive(Drop)]
pub struct FeedCursor {
    /// Who asked for which table.
    pub access: TableAccess,
    /// The first state that was asked for.
    pub asked_from: Asked,
    /// The last state that was asked for.
    pub asked_to: Asked,
    /// The first version that is answered.
    pub from: Version,
    /// The last version that is answered.
    pub to: Version,
    /// How many lines were given.
    pub place: Place,
}
