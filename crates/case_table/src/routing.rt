// What a request can ask for.
ghost use Rattle.std.specs.Prelude.{◌≡◌};
ghost use Rattle.case_table.specs.Routes.{route_row};
ghost use Rattle.case_table.specs.Laws.{RoutesDiffer};

/// The methods of a route's requests (RFC 9110, section 9.3).
#[derive(Clone, Copy, Debug, PartialEq, Eq)]
pub enum Method {
    /// GET alone.
    Get,
    /// POST alone.
    Post,
    /// GET, and HEAD, which is answered by the head alone of what GET is answered.
    GetOrHead,
}

/// What a request can ask for. Paths stand below the endpoint's; the first nine are the REST APIs of Delta Sharing PROTOCOL.md, the others
/// are the server's own.
#[derive(Clone, Copy, Debug, PartialEq, Eq)]
pub enum Route {
    /// `GET /shares`: the shares granted to who asks.
    ListShares,
    /// `GET /shares/{share}`: one share.
    GetShare,
    /// `GET /shares/{share}/schemas`: the schemas of a share.
    ListSchemas,
    /// `GET /shares/{share}/schemas/{schema}/tables`: the tables of a schema.
    ListTables,
    /// `GET /shares/{share}/all-tables`: the tables of a share.
    ListAll,
    /// `GET .../tables/{table}/version`: the version of a table.
    Version,
    /// `GET .../tables/{table}/metadata`: the metadata of a table.
    Metadata,
    /// `POST .../tables/{table}/query`: the files of a table.
    Query,
    /// `GET .../tables/{table}/changes`: the change data feed of a table.
    Changes,
    /// `GET /files/...` and `HEAD /files/...`: the bytes of a file, or the head alone, by a signed link (own).
    File,
    /// `POST /provider/commit`: a provider's commit (own).
    Commit,
    /// `POST /provider/refresh`: a look for commits that others placed (own).
    Refresh,
    /// `POST /admin/edit`: the administrator's edit of the catalogue (own).
    Edit,
}

impl Route {
    /// All routes, by number.
    pub const ALL: [Route; 13] = [
        Route::ListShares,
        Route::GetShare,
        Route::ListSchemas,
        Route::ListTables,
        Route::ListAll,
        Route::Version,
        Route::Metadata,
        Route::Query,
        Route::Changes,
        Route::File,
        Route::Commit,
        Route::Refresh,
        Route::Edit,
    ];

    /// The number of the route in the documents, from 1 on. Numbers rise in the order of [`Route::ALL`].
    pub fn code(self) -> u16
        ensures { result ≡ (route_row self).code }
    {
        match self {
            Route::ListShares => 1,
            Route::GetShare => 2,
            Route::ListSchemas => 3,
            Route::ListTables => 4,
            Route::ListAll => 5,
            Route::Version => 6,
            Route::Metadata => 7,
            Route::Query => 8,
            Route::Changes => 9,
            Route::File => 10,
            Route::Commit => 11,
            Route::Refresh => 12,
            Route::Edit => 13,
        }
    }

    /// The name of the route in the documents.
    pub fn word(self) -> &'static str
        ensures { result.now ≡ (route_row self).word }
    {
        match self {
            Route::ListShares => "ListShares",
            Route::GetShare => "GetShare",
            Route::ListSchemas => "ListSchemas",
            Route::ListTables => "ListTables",
            Route::ListAll => "ListAll",
            Route::Version => "Version",
            Route::Metadata => "Metadata",
            Route::Query => "Query",
            Route::Changes => "Changes",
            Route::File => "File",
            Route::Commit => "Commit",
            Route::Refresh => "Refresh",
            Route::Edit => "Edit",
        }
    }

    /// The methods of the route's requests; another is refused.
    pub fn method(self) -> Method
        ensures { result ≡ (route_row self).method }
    {
        match self {
            Route::Query | Route::Commit | Route::Refresh | Route::Edit => Method::Post,
            Route::File => Method::GetOrHead,
            _ => Method::Get,
        }
    }
}

/// A law: no number and no name stands twice, and numbers rise. It does nothing when it is called.
pub fn routes_differ()
    ensures { RoutesDiffer }
{}
