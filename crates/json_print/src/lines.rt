//! The lines of newline-delimited JSON: JSON texts (RFC 8259) that line feeds part.
ghost use Rattle.std.specs.Prelude.{◌≡◌, ◌+◌, ◌≤◌, IfSome, length, option_copied};
ghost use Rattle.json_print.specs.Lines.{IsCut};

use memchr::memchr;

/// The first line of a text, without its line feed, and what follows the line feed: none exactly
/// where the text has no line feed, and then the line is the whole text. It takes no memory.
///
/// A text that ends with a line feed has an empty line behind it.
pub fn cut(text: &[u8]) -> (&[u8], Option<&[u8]>)
    ensures lines { IsCut text.now result.0.now (option_copied result.1) }
    ensures whole { IfSome result.1 (λ rest. length result.0.now + 1 + length rest.now ≡ length text.now) }
    ensures short { length result.0.now ≤ length text.now }
{
    match memchr(b'\n', text) {
        Some(at) => (&text[..at], Some(&text[at + 1..])),
        None => (text, None),
    }
}
