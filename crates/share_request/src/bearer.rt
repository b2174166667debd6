// The bearer token of a request.
ghost use Rattle.std.specs.Prelude.{◌≡◌, option_map};
ghost use Rattle.std.specs.List.{list_all};
ghost use Rattle.share_request.specs.Bearers.{bearer_in, behind_spaces, is_token, is_visible, skip_spaces, token_in};

use http_message::field::{count_named, first_named};
use http_message::head::Head;
use sha2::{Digest, Sha256};

// The most bytes of a token.
const MOST_BYTES: usize = 512;

fn is_visible(byte: u8) -> bool
    ensures { result ≡ is_visible byte }
{
    matches!(byte, b'!'..=b'~')
}

fn are_visible(bytes: &[u8]) -> bool
    ensures { result ≡ list_all is_visible bytes.now }
{
    bytes.iter().all(|byte| is_visible(*byte))
}

fn is_token(text: &[u8]) -> bool
    ensures { result ≡ is_token text.now }
{
    !text.is_empty() && text.len() <= MOST_BYTES && are_visible(text)
}

fn skip_spaces(mut bytes: &[u8]) -> &[u8]
    ensures { result.now ≡ skip_spaces bytes.now }
{
    while let [first, rest @ ..] = bytes
        && *first == b' '
    {
        bytes = rest;
    }
    bytes
}

// The token behind the word, where one space or more stands between them.
fn behind_spaces(rest: &[u8]) -> Option<&[u8]>
    ensures { option_map (λ t. t.now) result ≡ behind_spaces rest.now }
{
    match rest {
        [b' ', more @ ..] => {
            let token = skip_spaces(more);
            if is_token(token) { Some(token) } else { None }
        }
        _ => None,
    }
}

// The token of an Authorization field's value.
fn token_in(value: &[u8]) -> Option<&[u8]>
    ensures { option_map (λ t. t.now) result ≡ token_in value.now }
{
    if value.len() < 6 {
        return None;
    }
    let (word, rest) = value.split_at(6);
    if !word.eq_ignore_ascii_case(b"bearer") {
        return None;
    }
    behind_spaces(rest)
}

/// The SHA-256 digest of the request's bearer token: `None` exactly where there isn't exactly one Authorization field, or its
/// value isn't `Bearer`, in any case, one space or more, and a token of 1 to 512 visible ASCII bytes (RFC 6750, section 2.1). It
/// takes no memory.
pub fn bearer_of(head: &Head) -> Option<[u8; 32]>
    ensures { result ≡ bearer_in head.now.fields }
{
    if count_named(&head.fields, "authorization") != 1 {
        return None;
    }
    let token = token_in(first_named(&head.fields, "authorization"))?;
    Some(Sha256::digest(token))
}
