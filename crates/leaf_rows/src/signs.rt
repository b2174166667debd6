// Forms of texts, and tags.
use crate::answer::Answer;
use crate::given::Given;
use hmac_core::{HmacKey, agrees, hmac};
use text_forms::{number_in, push_escaped};

fn escaped(given: &Given, out: &mut Answer) {
    let mut text = String::new(out.alloc());
    let done = push_escaped(&mut text, &given.bytes("bytes", out));
    out.stored(done);
    out.words("/", text.as_str());
}

fn number(given: &Given, out: &mut Answer) {
    let (low, high) = (given.number("low", out), given.number("high", out));
    let text = given.bytes("text", out);
    out.show(&number_in(low, high, &text));
}

// The digits of a tag, and whether the key writes the same.
fn tag(given: &Given, out: &mut Answer) {
    let bytes = given.bytes("key", out);
    let text = given.bytes("text", out);
    if let Ok(digits) = hex::encode(out.alloc(), hmac(&bytes, &text).as_slice()) {
        out.word(digits.as_str());
        out.flag(
            " ",
            HmacKey::of(&bytes).tag_digits(&text).as_slice() == digits.as_bytes(),
        );
    }
}

// Whether a tag agrees, asked of a key that is made once, of one that is made for the question, and by the tag's digits.
fn tag_agrees(given: &Given, out: &mut Answer) {
    let bytes = given.bytes("key", out);
    let text = given.bytes("text", out);
    let tag = given.bytes("tag", out);
    let key = HmacKey::of(&bytes);
    out.flag("", key.agrees(&text, &tag));
    out.flag(" ", agrees(&bytes, &text, &tag));
    if let Ok(digits) = hex::encode(out.alloc(), tag.as_slice()) {
        out.flag(" ", key.agrees_with_digits(&text, digits.as_bytes()));
    }
}

fn digits_agree(given: &Given, out: &mut Answer) {
    let key = HmacKey::of(&given.bytes("key", out));
    let text = given.bytes("text", out);
    let digits = given.bytes("digits", out);
    out.flag("", key.agrees_with_digits(&text, &digits));
}

/// Answers a call, where it is one of these.
pub(crate) fn answer(call: &str, given: &Given, out: &mut Answer) -> bool {
    match call {
        "escaped" => escaped(given, out),
        "number" => number(given, out),
        "tag" => tag(given, out),
        "tag_agrees" => tag_agrees(given, out),
        "digits_agree" => digits_agree(given, out),
        _ => return false,
    }
    true
}
