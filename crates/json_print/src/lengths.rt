// How long a text is, counted and not printed.
ghost use Rattle.std.specs.Prelude.{◌≡◌, ◌+◌, ◌≤◌, ◌&&◌, cond, length, nat_lt, not};
ghost use Rattle.json.specs.Print.{escape, escape_byte, escape_letter, quoted, token_text};
ghost use Rattle.json.specs.Token as token;
ghost use Rattle.json_print.specs.Lengths.{capped, nothing};

use crate::Tokens;
use itoa::Buffer;
use std::convert::Infallible;

/// How long a JSON text is, as its tokens are counted one after another: the bytes that a
/// `json::Writer` would write for them. Nothing is printed, and no memory is taken.
#[derive(Clone, Copy, Debug, PartialEq, Eq)]
pub struct Length {
    /// How many bytes the text has, 2^64 - 1 where it has more.
    pub bytes: u64,
    /// Whether a value ends the text, so that a comma stands before the next.
    pub after_value: bool,
}

// How many bytes are counted in one go, few enough for a small counter.
const GO: usize = 48;

// Whether a byte is written with a backslash and a letter.
fn is_short(byte: u8) -> bool
    ensures { result ≡ nat_lt 0 (escape_letter byte) }
{
    (byte == b'"') | (byte == b'\\') | ((byte >= 8) & (byte <= 13) & (byte != 11))
}

// Whether a byte is written as `\u` with four digits.
fn is_long(byte: u8) -> bool
    ensures { result ≡ nat_lt byte 32 && not (nat_lt 0 (escape_letter byte)) }
{
    (byte < 32) & !is_short(byte)
}

// How many bytes more than one are written for a byte.
fn extra_of(byte: u8) -> u8
    ensures value { result + 1 ≡ length (escape_byte byte) }
    ensures few { result ≤ 5 }
{
    u8::from(is_short(byte)) + 5 * u8::from(is_long(byte))
}

// How long a few bytes are with their escapes. It has no branch, so that it can be done for many
// bytes at once.
fn escaped_len(bytes: &[u8]) -> u64
    requires { length bytes.now ≤ GO }
    ensures { result ≡ length (escape bytes.now) }
{
    let mut extra: u8 = 0;
    for byte in bytes {
        extra += extra_of(*byte);
    }
    bytes.len() as u64 + u64::from(extra)
}

// How long the JSON string of a text is.
fn quoted_len(text: &str) -> u64
    ensures { result ≡ capped (length (quoted text.now)) }
{
    let mut rest = text.as_bytes();
    let mut bytes: u64 = 2;
    while rest.len() > GO {
        let (go, after) = rest.split_at(GO);
        bytes = bytes.saturating_add(escaped_len(go));
        rest = after;
    }
    bytes.saturating_add(escaped_len(rest))
}

fn flag_len(flag: bool) -> u64
    ensures { result ≡ length (token_text (token.boolean flag)) }
{
    if flag { 4 } else { 5 }
}

impl Length {
    /// Nothing counted.
    pub fn new() -> Length
        ensures { result ≡ nothing }
    {
        Length {
            bytes: 0,
            after_value: false,
        }
    }

    // One token more, of so many bytes.
    fn add(&mut self, begins: bool, bytes: u64, ends: bool)
        ensures { self.new ≡ record { bytes = capped (self.old.bytes + (cond (self.old.after_value && begins) 1 0 + bytes)); after_value = ends } }
    {
        let comma = u64::from(self.after_value && begins);
        self.bytes = self.bytes.saturating_add(bytes.saturating_add(comma));
        self.after_value = ends;
    }
}

// It never fails.
impl Tokens for Length {
    ghost use Rattle.json_print.specs.Lengths.{Counts};
    ghost use Rattle.json_print.specs.LengthLaws.{nothing as nothing_counted, then as then_counted};

    type Error = Infallible;

    ghost adds = { Counts };

    ghost nothing = { nothing_counted };

    ghost then = { then_counted };

    fn begin_object(&mut self) -> Result<(), Infallible> {
        self.add(true, 1, false);
        Ok(())
    }

    fn end_object(&mut self) -> Result<(), Infallible> {
        self.add(false, 1, true);
        Ok(())
    }

    fn begin_array(&mut self) -> Result<(), Infallible> {
        self.add(true, 1, false);
        Ok(())
    }

    fn end_array(&mut self) -> Result<(), Infallible> {
        self.add(false, 1, true);
        Ok(())
    }

    fn key(&mut self, name: &str) -> Result<(), Infallible> {
        self.add(true, quoted_len(name).saturating_add(1), false);
        Ok(())
    }

    fn string(&mut self, text: &str) -> Result<(), Infallible> {
        self.add(true, quoted_len(text), true);
        Ok(())
    }

    fn u64(&mut self, count: u64) -> Result<(), Infallible> {
        let mut buffer = Buffer::new();
        self.add(true, buffer.format(count).len() as u64, true);
        Ok(())
    }

    fn i64(&mut self, number: i64) -> Result<(), Infallible> {
        let mut buffer = Buffer::new();
        self.add(true, buffer.format(number).len() as u64, true);
        Ok(())
    }

    fn boolean(&mut self, flag: bool) -> Result<(), Infallible> {
        self.add(true, flag_len(flag), true);
        Ok(())
    }

    fn null(&mut self) -> Result<(), Infallible> {
        self.add(true, 4, true);
        Ok(())
    }
}
