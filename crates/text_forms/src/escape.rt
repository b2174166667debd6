// Percent-encoding.
ghost use Rattle.std.specs.Prelude.{◌≡◌, ◌++◌, OnOk, string_bytes};
ghost use Rattle.text_forms.specs.Escape.{escaped};

use percent_encoding::{AsciiSet, NON_ALPHANUMERIC, ascii_set, percent_encode};
use std::alloc::AllocError;

// The ASCII bytes that are escaped: all but those that RFC 3986 calls unreserved (section 2.3).
const RESERVED: AsciiSet = ascii_set!(
    NON_ALPHANUMERIC
        .remove(b'-')
        .remove(b'.')
        .remove(b'_')
        .remove(b'~')
);

/// Writes the escaped form of some bytes at the end (RFC 3986, section 2.1): each byte but the unreserved ASCII characters (section 2.3)
/// as `%` and two upper-case digits. The error is want of memory.
pub fn push_escaped(out: &mut String, bytes: &[u8]) -> Result<(), AllocError>
    ensures { OnOk result (string_bytes out.new ≡ string_bytes out.old ++ escaped bytes.now) }
{
    percent_encode(bytes, RESERVED).append_to(out)
}
