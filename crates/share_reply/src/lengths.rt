// How long the parts of links are, counted and not printed.
ghost use Rattle.std.specs.Prelude.{◌≡◌, ◌≤◌, ◌<◌, ◌^◌, decimal, length};
ghost use Rattle.json.specs.Print.{escape};
ghost use Rattle.text_forms.specs.Escape.{escaped, escaped_byte, is_unreserved as stands_as_it_is};

use json_print::{Length, Tokens};
use share_catalog::CatalogName;
use share_config::Endpoint;

// Whether a byte of a path stands in a link as it is (RFC 3986, section 2.3).
fn is_unreserved(byte: u8) -> bool
    ensures { result ≡ stands_as_it_is byte }
{
    byte.is_ascii_alphanumeric() || matches!(byte, b'-' | b'.' | b'_' | b'~')
}

// How many bytes are written for a byte of a path.
fn escaped_byte_len(byte: u8) -> u8
    ensures counted { result ≡ length (escaped_byte byte) }
    ensures few { result ≤ 3 }
{
    if is_unreserved(byte) { 1 } else { 3 }
}

// How many bytes the escaped form of a path has.
pub(crate) fn escaped_len(path: &str) -> u128
    ensures counted { result ≡ length (escaped path.now) }
    ensures few { result < 2 ^ 66 }
{
    let mut bytes: u128 = 0;
    for byte in path.as_bytes() {
        bytes += u128::from(escaped_byte_len(*byte));
    }
    bytes
}

// How many digits a number has in decimal.
pub(crate) fn number_len(number: u64) -> u64
    ensures counted { result ≡ length (decimal number) }
    ensures few { result ≤ 20 }
{
    let mut length = Length::new();
    let Ok(()) = length.u64(number);
    length.bytes
}

// How many bytes a name has in a JSON string.
pub(crate) fn name_len(name: &CatalogName) -> u64
    ensures counted { result ≡ length (escape name.now) }
    ensures few { result ≤ 128 }
{
    name.as_str().len() as u64
}

// How many bytes an endpoint has in a JSON string.
pub(crate) fn endpoint_len(endpoint: &Endpoint) -> u64
    ensures counted { result ≡ length (escape endpoint.now) }
    ensures few { result ≤ 3072 }
{
    let mut length = Length::new();
    let Ok(()) = length.string(endpoint.as_str());
    length.bytes - 2
}
