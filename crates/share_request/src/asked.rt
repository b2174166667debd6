// What requests ask for.
use crate::fault::{RequestFault, TurnedAway};
use case_table::Route;
use commit_check::Offer;
use file_ranges::span::Span;
use json_tree::{Text, Version};
use query_body::QueryBody;
use share_catalog::{CatalogName, Edit, Location, TableName};

/// Which page of a list is asked for.
#[derive(Drop)]
pub struct ListPage {
    /// The most names of the page: `maxResults`, but at most 500, and 500 without it.
    pub most: u64,
    /// `pageToken`, not empty.
    pub token: Option<Text>,
}

/// A version of a table, or a moment.
#[derive(Clone, Copy, Debug, PartialEq, Eq)]
pub enum Bound {
    /// The version.
    Version(Version),
    /// The moment, in nanoseconds since 1970-01-01T00:00:00Z.
    Moment(i128),
}

/// What a request by token asks for (Delta Sharing PROTOCOL.md, "REST APIs"; the last three are our own).
#[derive(Drop)]
pub enum What {
    /// The shares that are granted to who asks.
    ListShares {
        page: ListPage,
    },
    /// A share.
    GetShare {
        share: CatalogName,
    },
    /// The schemas of a share.
    ListSchemas {
        share: CatalogName,
        page: ListPage,
    },
    /// The tables of a schema.
    ListTables {
        share: CatalogName,
        schema: CatalogName,
        page: ListPage,
    },
    /// The tables of a share.
    ListAll {
        share: CatalogName,
        page: ListPage,
    },
    /// The version of a table: the latest, or the first one at or after the moment `from`, in nanoseconds since
    /// 1970-01-01T00:00:00Z.
    Version {
        table: TableName,
        from: Option<i128>,
    },
    /// The metadata of a table: at the latest version, or at the version or moment `at`.
    Metadata {
        table: TableName,
        at: Option<Bound>,
    },
    /// The files of a table.
    Query {
        table: TableName,
        body: QueryBody,
    },
    /// The changes of a table.
    Changes {
        table: TableName,
        /// Where they start. It is there, unless `token` is.
        from: Option<Bound>,
        /// Where they end; at the latest version, where it isn't there.
        to: Option<Bound>,
        /// `maxFiles`, 1 to 2^31 - 1.
        max: Option<u64>,
        /// `pageToken`, not empty.
        token: Option<Text>,
    },
    /// A provider's commit.
    Commit {
        offer: Offer,
    },
    /// A look for commits that others placed.
    Refresh {
        location: Location,
    },
    /// The administrator's edit of the catalogue.
    Edit {
        edit: Edit,
    },
}

/// Who asks, and by which route.
#[derive(Clone, Copy)]
pub struct Caller {
    /// The SHA-256 digest of the bearer token.
    pub digest: [u8; 32],
    /// The route, which says whose token is wanted.
    pub route: Route,
}

/// The format in which the lines of a table are asked for (Delta Sharing PROTOCOL.md, "Delta Sharing Capabilities Header").
#[derive(Clone, Copy, Debug, PartialEq, Eq)]
pub enum ResponseFormat {
    /// The protocol's own lines.
    Parquet,
    /// The actions of the table's log, each file's link in its path's place.
    Delta,
}

/// A request by bearer token.
#[derive(Drop)]
pub struct ByToken {
    /// The SHA-256 digest of the token.
    pub digest: [u8; 32],
    /// The route, which says whose token is wanted. It isn't [`Route::File`].
    pub route: Route,
    /// The format of lines. What is asked for, and what is refused, don't depend on it; answers without lines have no format.
    pub format: ResponseFormat,
    /// What is asked for, by that route; or why the request is refused, once it is known who asks.
    pub asked: Result<What, RequestFault>,
}

/// A request for a file, by a link.
#[derive(Drop)]
pub struct ByLink {
    /// The link's target, in the one spelling of links.
    pub target: Text,
    /// Whether the method is HEAD, which asks for the head alone of what GET is answered (RFC 9110, section 9.3.2).
    pub head: bool,
    /// The part of the file that is asked for (RFC 9110, section 14.2), all without one. HEAD has none.
    pub span: Option<Span>,
}

/// A request.
#[derive(Drop)]
pub enum Request {
    /// It is refused, whoever asks.
    TurnedAway(TurnedAway),
    /// It is answered by the view of who has the token.
    ByToken(ByToken),
    /// It asks for a file, by a link.
    ByLink(ByLink),
}
