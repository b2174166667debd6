// The address that links begin with.
ghost use Rattle.std.specs.Prelude.{◌≡◌, List, ℕ, IsTrue, MatchOption, false, codes, option_map, string_bytes};
ghost use Rattle.std.specs.List.{list_all};
ghost use Rattle.share_config.specs.Endpoints.{authority_in, is_authority, is_authority_byte as is_byte_of_authority, is_endpoint, behind_scheme};

use crate::texts::{after, before};
use std::marker::Model;

// The most bytes of an endpoint.
const MOST_BYTES: usize = 512;

/// The address of a server as its links begin: `http://` or `https://`, an authority and `/delta-sharing`, in at most
/// 512 bytes. The authority, a host and perhaps a port, isn't parsed further: it is one or more visible ASCII bytes,
/// none of which is `/`, `\`, `?` or `#`. Contracts see the text's bytes.
#[derive(Drop)]
pub struct Endpoint {
    text: String,
}

impl Model for Endpoint {
    ghost use Rattle.std.specs.Prelude.{List, ℕ, IsTrue, string_bytes};

    ghost Value = { List ℕ };

    ghost view = { λ e. string_bytes e.text };

    ghost use Rattle.share_config.specs.Endpoints.{is_endpoint};

    ghost invariant = { λ e. IsTrue (is_endpoint (string_bytes e.text)) };
}

fn is_authority_byte(byte: u8) -> bool
    ensures { result ≡ is_byte_of_authority byte }
{
    matches!(byte, b'!'..=b'~') && !matches!(byte, b'/' | b'\\' | b'?' | b'#')
}

fn are_authority_bytes(bytes: &[u8]) -> bool
    ensures { result ≡ list_all is_byte_of_authority bytes.now }
{
    bytes.iter().all(|byte| is_authority_byte(*byte))
}

fn is_authority_text(text: &str) -> bool
    ensures { result ≡ is_authority text.now }
{
    !text.is_empty() && are_authority_bytes(text.as_bytes())
}

fn rest_behind_scheme(text: &str) -> Option<&str>
    ensures { option_map (λ s. s.now) result ≡ behind_scheme text.now }
{
    match after("http://", text) {
        Some(rest) => Some(rest),
        None => after("https://", text),
    }
}

fn authority_of(text: &str) -> Option<&str>
    ensures { option_map (λ s. s.now) result ≡ authority_in text.now }
{
    before("/delta-sharing", rest_behind_scheme(text)?)
}

/// Whether a text is an endpoint.
pub fn is_endpoint_text(text: &str) -> bool
    ensures { result ≡ is_endpoint text.now }
{
    match authority_of(text) {
        Some(authority) => text.len() <= MOST_BYTES && is_authority_text(authority),
        None => false,
    }
}

impl Endpoint {
    /// The endpoint of that text, or `None` exactly where the text isn't one.
    pub fn of(text: String) -> Option<Endpoint>
        ensures { MatchOption result (is_endpoint (string_bytes text) ≡ false) (λ e. (e ≡ string_bytes text) × IsTrue (is_endpoint e)) }
    {
        if is_endpoint_text(&text) {
            Some(Endpoint { text })
        } else {
            None
        }
    }

    /// The text of the endpoint.
    pub fn as_str(&self) -> &str
        ensures value { result.now ≡ self.now }
        ensures good { IsTrue (is_endpoint self.now) }
    {
        &self.text
    }
}
