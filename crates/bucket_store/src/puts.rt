// What the answers to a put decide.
ghost use Rattle.std.specs.Prelude.{◌≡◌};
ghost use Rattle.bucket_store.specs.Puts as spec;

use edge_core::Put;

/// How often a request is made at most.
pub const MOST_TRIES: u32 = 3;

/// What came back for a put that stores nothing where an object has the name.
#[derive(Clone, Copy, Debug, PartialEq, Eq)]
pub enum PutReply {
    /// The object was stored.
    Made,
    /// An object has the name.
    Taken,
    /// It isn't known whether the object was stored or will be.
    Unsure,
    /// The bucket refuses it.
    Refused,
}

/// What follows from what came back for a put.
#[derive(Clone, Copy, Debug, PartialEq, Eq)]
pub enum PutNext {
    /// The store's answer is decided.
    Done(Put),
    /// The request is made again, with the same mark.
    Again,
    /// The object that has the name is looked at: its mark decides.
    Look,
}

/// What a look at the object that has a put's name showed.
#[derive(Clone, Copy, Debug, PartialEq, Eq)]
pub enum Look {
    /// An object with the put's mark.
    Ours,
    /// An object with another mark, or with none.
    Others,
    /// No object, or no answer.
    Nothing,
}

/// What a status says of a put; none where the line was lost (RFC 9110, section 15; Amazon S3 API Reference, "PutObject").
pub fn put_reply(status: Option<u16>) -> PutReply
    ensures { result ≡ spec.put_reply status }
{
    match status {
        None => PutReply::Unsure,
        Some(200) => PutReply::Made,
        Some(412) => PutReply::Taken,
        Some(409 | 429) => PutReply::Unsure,
        Some(500..=599) => PutReply::Unsure,
        Some(_) => PutReply::Refused,
    }
}

/// What follows from what came back for a put's request, the `made`-th of it. Behind one that is unsure an earlier one may have stored the
/// object, so that it has the name says nothing then of who stored it.
pub fn put_next(made: u32, reply: PutReply) -> PutNext
    ensures { result ≡ spec.put_next made reply }
{
    match reply {
        PutReply::Made => PutNext::Done(Put::Stored),
        PutReply::Taken => {
            if made <= 1 {
                PutNext::Done(Put::Exists)
            } else {
                PutNext::Look
            }
        }
        PutReply::Unsure => {
            if made < MOST_TRIES {
                PutNext::Again
            } else {
                PutNext::Done(Put::Failed)
            }
        }
        PutReply::Refused => PutNext::Done(Put::Failed),
    }
}

/// The store's answer to a put, by what a look at the object showed.
pub fn looked(look: Look) -> Put
    ensures { result ≡ spec.looked look }
{
    match look {
        Look::Ours => Put::Stored,
        Look::Others => Put::Exists,
        Look::Nothing => Put::Failed,
    }
}
