// Where connections go.
ghost use Rattle.std.specs.Prelude.{◌≡◌, ◌<◌, IfOk, option_map};
ghost use Rattle.bucket_config.specs.Addresses as spec;
ghost use Rattle.bucket_config.specs.Words.{if_word as if_is_word};

use crate::words::{copy_of, if_word};
use json_tree::Text;
use std::alloc::{AllocError, Global};
use text_forms::number_in;

// The greatest port.
const MOST_PORT: u64 = 65_535;

/// Where connections go.
#[derive(Drop)]
pub struct BucketAddress {
    /// A name or an address of IPv4: one visible character of ASCII or more and no others.
    pub host: Text,
    /// The port, 1 to 65535.
    pub port: u16,
}

// What comes before the first such character, and what comes after it.
#[tactic(auto, unfolding(crate::specs::Addresses::cut))]
fn cut(at: char, text: &str) -> Option<(&str, &str)>
    requires { at < 128 }
    ensures { option_map (λ x. (x.0.now, x.1.now)) result ≡ spec.cut at text.now }
{
    text.split_once(at)
}

fn port_of(text: &str) -> Option<u16>
    ensures { result ≡ spec.port_of text.now }
{
    match number_in(1, MOST_PORT, text.as_bytes()) {
        Some(port) => Some(port as u16),
        None => None,
    }
}

// The host and the port of an address.
fn parts_of(text: &str) -> Option<(&str, u16)>
    ensures { option_map (λ x. (x.0.now, x.1)) result ≡ spec.parts_of text.now }
{
    let (front, back) = cut(':', text)?;
    let host = if_word(front)?;
    let port = port_of(back)?;
    Some((host, port))
}

// The address that a text spells.
pub(crate) fn address_of(alloc: Global, text: &str) -> Result<Option<BucketAddress>, AllocError>
    ensures { IfOk result (λ found. found ≡ spec.address_of text.now) }
{
    match parts_of(text) {
        Some((host, port)) => Ok(Some(BucketAddress {
            host: copy_of(alloc, host)?,
            port,
        })),
        None => Ok(None),
    }
}
