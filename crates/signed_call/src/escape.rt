// The path of a request.
ghost use Rattle.std.specs.Prelude.{◌≡◌, ◌++◌, OnOk, string_bytes};
ghost use Rattle.signed_call.specs.Paths.{escaped_path};

use percent_encoding::{AsciiSet, NON_ALPHANUMERIC, ascii_set, percent_encode};
use std::alloc::AllocError;

// The ASCII bytes that are escaped: all but the slash and those that RFC 3986 calls unreserved (section 2.3).
const RESERVED: AsciiSet = ascii_set!(
    NON_ALPHANUMERIC
        .remove(b'/')
        .remove(b'-')
        .remove(b'.')
        .remove(b'_')
        .remove(b'~')
);

/// Writes the escaped form of a path at the end.
pub(crate) fn push_path(out: &mut String, bytes: &[u8]) -> Result<(), AllocError>
    ensures { OnOk result (string_bytes out.new ≡ string_bytes out.old ++ escaped_path bytes.now) }
{
    percent_encode(bytes, RESERVED).append_to(out)
}
