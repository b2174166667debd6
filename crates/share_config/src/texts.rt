// Texts of fields, and what stands behind a front or before an end.
ghost use Rattle.std.specs.Prelude.{◌≡◌, option_map};
ghost use Rattle.serde_json.specs.View.{view};
ghost use Rattle.share_config.specs.Texts.{after, before, bytes_in, bytes_of as bytes_of_digits, text_in};

use hex::FromHex;
use json_tree::member_at;
use serde_json::Value;

// The text of a field, none where it is absent, null or of another kind.
pub(crate) fn text_at<'a>(object: &'a Value, name: &str) -> Option<&'a str>
    ensures { option_map (λ s. s.now) result ≡ text_in name.now (view object.now) }
{
    member_at(object, name)?.as_str()
}

// The 32 bytes that 64 hexadecimal digits spell, in either case.
pub(crate) fn bytes_of(digits: &str) -> Option<[u8; 32]>
    ensures { result ≡ bytes_of_digits digits.now }
{
    <[u8; 32] as FromHex>::from_hex(digits).ok()
}

pub(crate) fn bytes_at(object: &Value, name: &str) -> Option<[u8; 32]>
    ensures { result ≡ bytes_in name.now (view object.now) }
{
    bytes_of(text_at(object, name)?)
}

// What stands behind the front of a text that begins with it.
pub(crate) fn after<'a>(front: &str, text: &'a str) -> Option<&'a str>
    ensures { option_map (λ s. s.now) result ≡ after front.now text.now }
{
    text.strip_prefix(front)
}

// What stands before the end of a text that ends with it.
pub(crate) fn before<'a>(end: &str, text: &'a str) -> Option<&'a str>
    ensures { option_map (λ s. s.now) result ≡ before end.now text.now }
{
    text.strip_suffix(end)
}
