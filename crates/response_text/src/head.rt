// What a head says.
ghost use Rattle.std.specs.Prelude.{◌≡◌, ◌≤◌, length};
ghost use Rattle.response_text.specs.Contents.{content_type_name};

use crate::status::Status;

/// The form of a body (RFC 9110, section 8.3).
#[derive(Clone, Copy, Debug, PartialEq, Eq)]
pub enum ContentType {
    /// One JSON text.
    Json,
    /// JSON texts, one a line.
    JsonLines,
    /// The same with the actions of a table's log (Delta Sharing PROTOCOL.md, "Delta Sharing Capabilities Header").
    DeltaLines,
    /// Bytes of a file.
    Bytes,
}

impl ContentType {
    /// The text of the field Content-Type.
    pub fn name(self) -> &'static str
        ensures name { result.now ≡ content_type_name self }
        ensures short { length result.now ≤ 35 }
    {
        match self {
            ContentType::Json => "application/json; charset=utf-8",
            ContentType::JsonLines | ContentType::DeltaLines => {
                "application/x-ndjson; charset=utf-8"
            }
            ContentType::Bytes => "application/octet-stream",
        }
    }
}

/// The head of a response (RFC 9112, section 2.1). Which fields it has, it says alone.
#[derive(Clone, Copy, Debug, PartialEq, Eq)]
pub struct ResponseHead {
    /// The status, with the table's version, the part, the size, the challenge or the allowed methods that go with it.
    pub status: Status,
    /// The moment at which the response is made, in milliseconds since the start of 1970 in UTC: at most 253402300799999,
    /// the end of the year 9999, since no later year has a date.
    pub moment: u64,
    /// The form of the body. An empty body has none: where `length` is 0 the head doesn't tell it.
    pub content_type: ContentType,
    /// How many bytes the body has; in a response to HEAD, those of the body that isn't sent (RFC 9110, section 9.3.2).
    pub length: u128,
    /// Whether the connection is closed behind the response.
    pub closes: bool,
    ghost dated: { moment ≤ 253_402_300_799_999 },
}
