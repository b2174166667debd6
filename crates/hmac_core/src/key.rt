// Keys, of which what each tag begins with is hashed once.
ghost use Rattle.std.specs.Prelude.{◌≡◌, ◌↔◌, ℕ, List, IsTrue, OnOk, ◌≤◌, ◌++◌, length, drop, string_bytes};
ghost use Rattle.std.specs.List.{list_all};
ghost use Rattle.hex.specs.Hex.{encode_lower};
ghost use Rattle.hmac_core.specs.Hmac.{are_tag_digits as are_digits_of_tag, block_key, hmac, is_tag_digit as is_digit_of_tag, padded_with};

use crate::equal::is_equal;
use sha2::{Digest, Sha256};
use std::alloc::AllocError;
use std::marker::Model;
use std::snapshot::Snapshot;

// The bytes of a block of SHA-256.
const BLOCK: usize = 64;

const INNER_PAD: u8 = 0x36;

const OUTER_PAD: u8 = 0x5c;

/// A key that is prepared: the first block of each of the two hashes is hashed already (RFC 2104, section 4).
/// Contracts see it as section 2's K, the block of 64 bytes that the key is made, which is a key with the same
/// tags.
#[derive(Drop)]
pub struct HmacKey {
    inner: Sha256,
    outer: Sha256,
    block: Snapshot<[u8; BLOCK]>,
}

impl Model for HmacKey {
    ghost use Rattle.std.specs.Prelude.{List, ℕ};
    ghost use Rattle.hmac_core.specs.Keys.{IsPrepared};

    ghost Value = { List ℕ };

    ghost view = { λ k. k.block.value };

    ghost invariant = { λ k. IsPrepared k.inner k.outer k.block.value };
}

fn is_tag_digit(byte: u8) -> bool
    ensures { result ≡ is_digit_of_tag byte }
{
    matches!(byte, b'0'..=b'9' | b'a'..=b'f')
}

fn are_digits(text: &[u8]) -> bool
    ensures { result ≡ list_all is_digit_of_tag text.now }
{
    text.iter().all(|byte| is_tag_digit(*byte))
}

/// Whether a text has the form of a tag's digits: 64 hexadecimal digits in lower case. No other text is one, so it
/// is tested before anything is hashed.
pub fn are_tag_digits(text: &[u8]) -> bool
    ensures { result ≡ are_digits_of_tag text.now }
{
    text.len() == 64 && are_digits(text)
}

// The key in front of the block, and past it what stood there.
fn fill_front(block: &mut [u8], key: &[u8])
    requires { length key.now ≤ length block.old }
    ensures { block.new ≡ key.now ++ drop (length key.now) block.old }
{
    block[..key.len()].copy_from_slice(key);
}

// The key, as one block.
fn key_block(key: &[u8]) -> [u8; BLOCK]
    ensures { result ≡ block_key key.now }
{
    let mut block = [0u8; BLOCK];
    if key.len() > BLOCK {
        let digest = Sha256::digest(key);
        fill_front(&mut block, &digest);
    } else {
        fill_front(&mut block, key);
    }
    block
}

// The block, each byte xor the pad.
fn xor_pad(block: &[u8; BLOCK], pad: u8) -> [u8; BLOCK]
    ensures { result ≡ padded_with pad block.now }
{
    let mut out = [0u8; BLOCK];
    for i in 0..BLOCK {
        out[i] = block[i] ^ pad;
    }
    out
}

// The same state of hashing again.
fn again(state: &Sha256) -> Sha256
    ensures { result ≡ state.now }
{
    let Ok(same) = state.clone() else {
        unreachable!();
    };
    same
}

impl HmacKey {
    /// The key of these bytes, of any length.
    pub fn of(key: &[u8]) -> HmacKey
        ensures block { result ≡ block_key key.now }
        // Its tags are those of the bytes.
        ensures tags { (text : List ℕ) → hmac result text ≡ hmac key.now text }
    {
        let block = key_block(key);
        HmacKey {
            inner: Sha256::new_with_prefix(xor_pad(&block, INNER_PAD)),
            outer: Sha256::new_with_prefix(xor_pad(&block, OUTER_PAD)),
            block: Snapshot::of(&block),
        }
    }

    /// The tag of the text (RFC 2104, section 2, with SHA-256).
    pub fn tag(&self, text: &[u8]) -> [u8; 32]
        ensures { result ≡ hmac self.now text.now }
    {
        let mut inner = again(&self.inner);
        inner.update(text);
        let mut outer = again(&self.outer);
        outer.update(inner.finalize());
        outer.finalize()
    }

    /// Whether the tag is that of the text, whole: a shorter or longer one is none. All 32 bytes are compared,
    /// whatever they are, so the time that it takes doesn't tell how many agree.
    pub fn agrees(&self, text: &[u8], tag: &[u8]) -> bool
        ensures { IsTrue result ↔ (tag.now ≡ hmac self.now text.now) }
    {
        is_equal(tag, &self.tag(text))
    }

    /// The tag of the text, in lower-case hexadecimal digits (RFC 4648, section 8).
    pub fn tag_digits(&self, text: &[u8]) -> [u8; 64]
        ensures { result ≡ encode_lower (hmac self.now text.now) }
    {
        let mut digits = [0u8; 64];
        let _ = hex::encode_to_slice(self.tag(text), &mut digits);
        digits
    }

    /// Writes the digits of the text's tag at the end, as `tag_digits` gives them. The error is want of memory.
    pub fn push_digits(&self, out: &mut String, text: &[u8]) -> Result<(), AllocError>
        ensures { OnOk result (string_bytes out.new ≡ string_bytes out.old ++ encode_lower (hmac self.now text.now)) }
    {
        let digits = self.tag_digits(text);
        let Ok(digits) = str::from_utf8(&digits) else {
            unreachable!();
        };
        out.push_str(digits)
    }

    /// Whether these are the digits of the text's tag, as `tag_digits` writes them. All 64 are compared, whatever
    /// they are.
    pub fn agrees_with_digits(&self, text: &[u8], digits: &[u8]) -> bool
        ensures { IsTrue result ↔ (digits.now ≡ encode_lower (hmac self.now text.now)) }
    {
        is_equal(digits, &self.tag_digits(text))
    }
}
