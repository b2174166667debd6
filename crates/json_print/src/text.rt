// Objects in a buffer of their own.
ghost use Rattle.std.specs.Prelude.{◌≡◌, [], ◌∷◌, IfOk, IsUtf8, OnOk, string_bytes};
ghost use Rattle.json.specs.Print.{print};
ghost use Rattle.json.specs.Token as token;
ghost use Rattle.json_print.specs.Tokens.{Adds};

use json::Writer;
use std::alloc::{AllocError, Global};

/// A writer with nothing written, and room for that many bytes before its buffer grows.
pub fn new_writer(alloc: Global, room: usize) -> Result<Writer, AllocError>
    ensures { IfOk result (λ w. (w.before ≡ []) × (w.tokens ≡ [])) }
{
    Ok(Writer::new(Vec::with_capacity(alloc, room)?))
}

/// Begins an object. It fails where memory is wanting, and then the writer is of no more use.
pub fn begin_object(writer: &mut Writer) -> Result<(), AllocError>
    ensures { OnOk result (Adds writer.old writer.new (token.begin_object ∷ [])) }
{
    writer.begin_object()
}

/// Ends an object. It fails where memory is wanting, and then the writer is of no more use.
pub fn end_object(writer: &mut Writer) -> Result<(), AllocError>
    ensures { OnOk result (Adds writer.old writer.new (token.end_object ∷ [])) }
{
    writer.end_object()
}

/// The text that was written.
pub fn printed(writer: Writer) -> String
    requires { writer.before ≡ [] }
    ensures text { string_bytes result ≡ print writer.tokens }
    ensures utf8 { IsUtf8 (string_bytes result) }
{
    let Ok(text) = String::from_utf8(writer.into_inner()) else {
        unreachable!();
    };
    text
}
