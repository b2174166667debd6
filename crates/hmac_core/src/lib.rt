//! HMAC (RFC 2104) over SHA-256: a tag of 32 bytes that only who has the key can make. But for `push_digits` no
//! function takes memory.
#![tactic(auto)]

ghost use Rattle.std.specs.Prelude.{◌≡◌, ◌↔◌, IsTrue};
ghost use Rattle.hmac_core.specs.Hmac as spec;

mod equal;
mod fault;
mod key;

pub use fault::Fault;
pub use key::{HmacKey, are_tag_digits};

/// The tag of a text under a key of any length (RFC 2104, section 2, with SHA-256). Who tags several texts
/// under one key prepares it once, as an `HmacKey`.
pub fn hmac(key: &[u8], text: &[u8]) -> [u8; 32]
    ensures { result ≡ spec.hmac key.now text.now }
{
    HmacKey::of(key).tag(text)
}

/// Whether the tag is that of the text under the key, whole, as `HmacKey::agrees` tells.
pub fn agrees(key: &[u8], text: &[u8], tag: &[u8]) -> bool
    ensures { IsTrue result ↔ (tag.now ≡ spec.hmac key.now text.now) }
{
    HmacKey::of(key).agrees(text, tag)
}
