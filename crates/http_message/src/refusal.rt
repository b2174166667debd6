// What is wrong with a message.
ghost use Rattle.std.specs.Prelude.{◌≡◌};
ghost use Rattle.http_message.specs.Refusals.{refusal_of};

use case_table::Refusal;

/// What is wrong with a message that is refused.
#[derive(Clone, Copy, Debug, PartialEq, Eq)]
pub enum Flaw {
    /// It breaks the rules of heads, of framing, of chunks or of trailers (RFC 9112).
    BadMessage,
    /// Its body is larger than is allowed.
    BodyTooLarge,
    /// Its head, or its trailers, have more bytes or lines than are allowed.
    HeadTooLarge,
    /// It has a Transfer-Encoding that isn't one field `chunked`.
    TransferCoding,
}

impl Flaw {
    /// The refusal that answers the message.
    pub fn refusal(self) -> Refusal
        ensures { result ≡ refusal_of self }
    {
        match self {
            Flaw::BadMessage => Refusal::BadMessage,
            Flaw::BodyTooLarge => Refusal::BodyTooLarge,
            Flaw::HeadTooLarge => Refusal::HeadTooLarge,
            Flaw::TransferCoding => Refusal::TransferCoding,
        }
    }
}
