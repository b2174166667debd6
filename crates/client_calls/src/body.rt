// The body of a query, as it is handed in.
ghost use Rattle.std.specs.Prelude.{◌≡◌, IfOk};
ghost use Rattle.client_calls.specs.Bodies.{body_in, or_object};

use share_client::QueryBody;
use std::alloc::{AllocError, Global};

// The bytes, or those of an empty object where there are none.
fn or_object(bytes: &[u8]) -> &[u8]
    ensures { result.now ≡ or_object bytes.now }
{
    if bytes.is_empty() {
        b"{}".as_slice()
    } else {
        bytes
    }
}

/// The body that bytes are, where they are one's; nothing counts as `{}`. The error is want of memory.
pub fn body_of(alloc: Global, bytes: &[u8]) -> Result<Option<QueryBody>, AllocError>
    ensures { IfOk result (λ found. found ≡ body_in bytes.now) }
{
    match str::from_utf8(or_object(bytes)) {
        Ok(text) => QueryBody::of(alloc, text),
        Err(_) => Ok(None),
    }
}
