// Why the server refuses a request.
ghost use Rattle.std.specs.Prelude.{◌≡◌, bytes_eq, ◌≤◌, IfSome, Some};
ghost use Rattle.case_table.specs.Refusals.{refusal_of_word, refusal_row};
ghost use Rattle.std.specs.List.{find};
ghost use Rattle.case_table.specs.Laws.{RefusalsDiffer};

/// Why the server refuses a request (Delta Sharing PROTOCOL.md, the errors of the REST APIs; the four from `BadMessage` on, which refuse
/// a message before it is known what it asks, are those of RFC 9112; the last one is of RFC 9110, section 15.5.17).
#[derive(Clone, Copy, Debug, PartialEq, Eq)]
pub enum Refusal {
    /// The request has no bearer token that a recipient, a provider or the administrator has, or the recipient's time is over.
    Unauthenticated,
    /// What is named isn't there, or isn't granted to who asks.
    NotFound,
    /// The path is a route's, with another method.
    MethodNotAllowed,
    /// A parameter of the query string, or a field of the body, is outside its grammar or its bounds. The detail is its name.
    BadParameter,
    /// The body isn't a JSON object whose fields have the stated kinds.
    BadBody,
    /// The table has no such version.
    VersionRange,
    /// The table has no version at that side of the moment.
    TimestampRange,
    /// A former version is asked for, and the table is shared without its history.
    HistoryNotShared,
    /// Changes are asked for, and the table's change data feed isn't enabled at a version. The detail is the first such version.
    ChangesNotEnabled,
    /// The table, or its next version, needs what isn't supported.
    UnsupportedTable,
    /// The page token isn't one that this server signed for this recipient and this request's kind and names.
    TokenInvalid,
    /// The page token is of another edition of the grant or of the binding than there is now: it was revoked or unbound since, and perhaps made again.
    TokenStale,
    /// A field of the query differs from what the page token was given for.
    TokenMismatch,
    /// The page token is of a version that this server doesn't keep, or of a place behind the end.
    TokenAhead,
    /// The link isn't one that this server signed.
    LinkInvalid,
    /// The link's file is no longer there.
    FileGone,
    /// The commit or the edit conflicts with what is there. The detail is the conflict.
    Conflict,
    /// Others came before, each time it was tried.
    Contended,
    /// The store failed.
    StoreFault,
    /// A bound of the server would be passed. The detail is the bound.
    Limit,
    /// The link's time is over.
    LinkExpired,
    /// The grant or the binding that the link came from is gone.
    LinkRevoked,
    /// A record of the catalogue can't be read, or doesn't apply. The detail is its number.
    CatalogBlocked,
    /// The message breaks the grammar or the rules of framing (RFC 9112).
    BadMessage,
    /// The body is longer than is allowed.
    BodyTooLarge,
    /// The head, or the trailers behind the last chunk, are longer or have more lines than is allowed.
    HeadTooLarge,
    /// The transfer coding isn't `chunked` alone.
    TransferCoding,
    /// A version is asked for that is before the first one that is shared. The detail is that one.
    VersionNotShared,
    /// Changes are asked for, and the table is shared by the values of its partition columns.
    ChangesRestricted,
    /// The file has none of the bytes that are asked for.
    RangeNotSatisfiable,
}

impl Refusal {
    /// All refusals, by number.
    pub const ALL: [Refusal; 30] = [
        Refusal::Unauthenticated,
        Refusal::NotFound,
        Refusal::MethodNotAllowed,
        Refusal::BadParameter,
        Refusal::BadBody,
        Refusal::VersionRange,
        Refusal::TimestampRange,
        Refusal::HistoryNotShared,
        Refusal::ChangesNotEnabled,
        Refusal::UnsupportedTable,
        Refusal::TokenInvalid,
        Refusal::TokenStale,
        Refusal::TokenMismatch,
        Refusal::TokenAhead,
        Refusal::LinkInvalid,
        Refusal::FileGone,
        Refusal::Conflict,
        Refusal::Contended,
        Refusal::StoreFault,
        Refusal::Limit,
        Refusal::LinkExpired,
        Refusal::LinkRevoked,
        Refusal::CatalogBlocked,
        Refusal::BadMessage,
        Refusal::BodyTooLarge,
        Refusal::HeadTooLarge,
        Refusal::TransferCoding,
        Refusal::VersionNotShared,
        Refusal::ChangesRestricted,
        Refusal::RangeNotSatisfiable,
    ];

    /// The number of the refusal in the documents, from 1 on, in the order of [`Refusal::ALL`].
    pub fn code(self) -> u16
        ensures { result ≡ (refusal_row self).code }
    {
        match self {
            Refusal::Unauthenticated => 1,
            Refusal::NotFound => 2,
            Refusal::MethodNotAllowed => 3,
            Refusal::BadParameter => 4,
            Refusal::BadBody => 5,
            Refusal::VersionRange => 6,
            Refusal::TimestampRange => 7,
            Refusal::HistoryNotShared => 8,
            Refusal::ChangesNotEnabled => 9,
            Refusal::UnsupportedTable => 10,
            Refusal::TokenInvalid => 11,
            Refusal::TokenStale => 12,
            Refusal::TokenMismatch => 13,
            Refusal::TokenAhead => 14,
            Refusal::LinkInvalid => 15,
            Refusal::FileGone => 16,
            Refusal::Conflict => 17,
            Refusal::Contended => 18,
            Refusal::StoreFault => 19,
            Refusal::Limit => 20,
            Refusal::LinkExpired => 21,
            Refusal::LinkRevoked => 22,
            Refusal::CatalogBlocked => 23,
            Refusal::BadMessage => 24,
            Refusal::BodyTooLarge => 25,
            Refusal::HeadTooLarge => 26,
            Refusal::TransferCoding => 27,
            Refusal::VersionNotShared => 28,
            Refusal::ChangesRestricted => 29,
            Refusal::RangeNotSatisfiable => 30,
        }
    }

    /// The text that an error body has as `errorCode`.
    pub fn word(self) -> &'static str
        ensures { result.now ≡ (refusal_row self).word }
    {
        match self {
            Refusal::Unauthenticated => "UNAUTHENTICATED",
            Refusal::NotFound => "NOT_FOUND",
            Refusal::MethodNotAllowed => "METHOD_NOT_ALLOWED",
            Refusal::BadParameter => "BAD_PARAMETER",
            Refusal::BadBody => "BAD_BODY",
            Refusal::VersionRange => "VERSION_RANGE",
            Refusal::TimestampRange => "TIMESTAMP_RANGE",
            Refusal::HistoryNotShared => "HISTORY_NOT_SHARED",
            Refusal::ChangesNotEnabled => "CHANGES_NOT_ENABLED",
            Refusal::UnsupportedTable => "UNSUPPORTED_TABLE",
            Refusal::TokenInvalid => "TOKEN_INVALID",
            Refusal::TokenStale => "TOKEN_STALE",
            Refusal::TokenMismatch => "TOKEN_MISMATCH",
            Refusal::TokenAhead => "TOKEN_AHEAD",
            Refusal::LinkInvalid => "LINK_INVALID",
            Refusal::FileGone => "FILE_GONE",
            Refusal::Conflict => "CONFLICT",
            Refusal::Contended => "CONTENDED",
            Refusal::StoreFault => "STORE_FAULT",
            Refusal::Limit => "LIMIT",
            Refusal::LinkExpired => "LINK_EXPIRED",
            Refusal::LinkRevoked => "LINK_REVOKED",
            Refusal::CatalogBlocked => "CATALOG_BLOCKED",
            Refusal::BadMessage => "BAD_MESSAGE",
            Refusal::BodyTooLarge => "BODY_TOO_LARGE",
            Refusal::HeadTooLarge => "HEAD_TOO_LARGE",
            Refusal::TransferCoding => "TRANSFER_CODING",
            Refusal::VersionNotShared => "VERSION_NOT_SHARED",
            Refusal::ChangesRestricted => "CHANGES_RESTRICTED",
            Refusal::RangeNotSatisfiable => "RANGE_NOT_SATISFIABLE",
        }
    }

    /// The status of the response (RFC 9110, section 15; 431 is RFC 6585, section 5), a client's or a server's error.
    pub fn status(self) -> u16
        ensures status { result ≡ (refusal_row self).status }
        ensures least { 400 ≤ result }
        ensures most { result ≤ 599 }
    {
        match self {
            Refusal::Unauthenticated => 401,
            Refusal::NotFound => 404,
            Refusal::MethodNotAllowed => 405,
            Refusal::BadParameter => 400,
            Refusal::BadBody => 400,
            Refusal::VersionRange => 400,
            Refusal::TimestampRange => 400,
            Refusal::HistoryNotShared => 400,
            Refusal::ChangesNotEnabled => 400,
            Refusal::UnsupportedTable => 400,
            Refusal::TokenInvalid => 400,
            Refusal::TokenStale => 400,
            Refusal::TokenMismatch => 400,
            Refusal::TokenAhead => 400,
            Refusal::LinkInvalid => 403,
            Refusal::FileGone => 404,
            Refusal::Conflict => 409,
            Refusal::Contended => 409,
            Refusal::StoreFault => 503,
            Refusal::Limit => 400,
            Refusal::LinkExpired => 403,
            Refusal::LinkRevoked => 403,
            Refusal::CatalogBlocked => 500,
            Refusal::BadMessage => 400,
            Refusal::BodyTooLarge => 413,
            Refusal::HeadTooLarge => 431,
            Refusal::TransferCoding => 501,
            Refusal::VersionNotShared => 400,
            Refusal::ChangesRestricted => 400,
            Refusal::RangeNotSatisfiable => 416,
        }
    }

    /// The fixed words of the message that an error body has, empty where the detail is all of it.
    pub fn message(self) -> &'static str
        ensures { result.now ≡ (refusal_row self).message }
    {
        match self {
            Refusal::Unauthenticated => "unauthenticated",
            Refusal::NotFound => "not found",
            Refusal::MethodNotAllowed => "method not allowed",
            Refusal::BadParameter => "bad parameter ",
            Refusal::BadBody => "bad body",
            Refusal::VersionRange => "version out of range",
            Refusal::TimestampRange => "timestamp out of range",
            Refusal::HistoryNotShared => "history not shared",
            Refusal::ChangesNotEnabled => "changes not enabled at version ",
            Refusal::UnsupportedTable => "unsupported table",
            Refusal::TokenInvalid => "token invalid",
            Refusal::TokenStale => "token stale",
            Refusal::TokenMismatch => "token mismatch",
            Refusal::TokenAhead => "token ahead",
            Refusal::LinkInvalid => "link invalid",
            Refusal::FileGone => "file gone",
            Refusal::Conflict => "",
            Refusal::Contended => "contended",
            Refusal::StoreFault => "store fault",
            Refusal::Limit => "limit ",
            Refusal::LinkExpired => "link expired",
            Refusal::LinkRevoked => "link revoked",
            Refusal::CatalogBlocked => "catalog blocked at record ",
            Refusal::BadMessage => "bad message",
            Refusal::BodyTooLarge => "body too large",
            Refusal::HeadTooLarge => "head too large",
            Refusal::TransferCoding => "transfer coding",
            Refusal::VersionNotShared => "version not shared before ",
            Refusal::ChangesRestricted => "changes restricted",
            Refusal::RangeNotSatisfiable => "range not satisfiable",
        }
    }

    /// Whether a detail, as the name of a parameter, follows the fixed words of the message.
    pub fn has_detail(self) -> bool
        ensures { result ≡ (refusal_row self).has_detail }
    {
        matches!(
            self,
            Refusal::BadParameter
                | Refusal::ChangesNotEnabled
                | Refusal::Conflict
                | Refusal::Limit
                | Refusal::CatalogBlocked
                | Refusal::VersionNotShared
        )
    }

    /// The refusal of a word, compared byte by byte; `None` exactly where no refusal has it. Takes no memory.
    #[tactic(auto, using(crate::proofs::Differ::refusal_back))]
    pub fn of_word(word: &str) -> Option<Refusal>
        ensures told { result ≡ refusal_of_word word.now }
        ensures found { IfSome result (λ refusal. (refusal_row refusal).word ≡ word.now) }
        ensures every { (refusal : Refusal) → (refusal_row refusal).word ≡ word.now → result ≡ Some refusal }
    {
        refusal_in(&Self::ALL, word)
    }
}

fn refusal_in(refusals: &[Refusal], word: &str) -> Option<Refusal>
    ensures { result ≡ find (λ refusal. bytes_eq word.now (refusal_row refusal).word) refusals.now }
{
    refusals
        .iter()
        .copied()
        .find(|refusal| word == refusal.word())
}

/// A law: no number and no word stands twice, and numbers rise. It does nothing when it is called.
pub fn refusals_differ()
    ensures { RefusalsDiffer }
{}
