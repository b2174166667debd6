// Why a bucket can't be a store.
use crate::asking::status_of;
use crate::exchange::Response;
use crate::facts::body_in;
use bucket_text::code_of;
use json_tree::Text;
use std::alloc::Global;

// The most bytes of a code.
const MOST_CODE: usize = 64;

/// What a bucket answered in place of what was asked for.
#[derive(Drop)]
pub struct Refusal {
    /// The status of the last answer; none where no whole answer came: nothing listens at the address, the line was lost, or memory was
    /// wanting.
    pub status: Option<u16>,
    /// The bucket's word for the error, as `SignatureDoesNotMatch`: 1 to 64 letters and digits of ASCII; none where it told no such word.
    pub code: Option<Text>,
}

/// Why a bucket can't be a store.
#[derive(Drop)]
pub enum BucketFault {
    /// It isn't listed. `NoSuchBucket`: there is no such bucket; `InvalidAccessKeyId`: the key's id is another; `SignatureDoesNotMatch`: its
    /// secret is, or the host; `AuthorizationHeaderMalformed`, or status 301: the region is another; `RequestTimeTooSkewed`: a clock is
    /// wrong; `AccessDenied`: the key may not list it. Status 200: what answers isn't a bucket's page.
    NotListed(Refusal),
    /// An object isn't stored. `AccessDenied`: the key may not put; status 501: the bucket knows no condition.
    NotStored(Refusal),
    /// A put overwrote an object: the bucket passes over the condition, and would lose commits.
    Overwritten,
}

fn is_word(text: &str) -> bool {
    !text.is_empty()
        && text.len() <= MOST_CODE
        && text
            .as_bytes()
            .iter()
            .all(|byte| byte.is_ascii_alphanumeric())
}

// The code of an error, where it is a word.
fn word_in(alloc: Global, body: &[u8]) -> Option<Text> {
    match code_of(alloc, body) {
        Ok(code) if is_word(code.as_str()) => Some(code),
        _ => None,
    }
}

/// What a response says in place of what was asked for.
pub(crate) fn refusal_of(alloc: Global, response: &Option<Response>) -> Refusal {
    Refusal {
        status: status_of(response),
        code: word_in(alloc, body_in(response)),
    }
}
