// The bodies of refusals.
ghost use Rattle.std.specs.Prelude.{◌≡◌, ◌==◌, ◌||◌, ◌++◌, List, ℕ, IfOk, IfSome, IsTrue, IsUtf8, OnOk, Some, length, option_map, string_bytes};
ghost use Rattle.serde_json.specs.View.{view};
ghost use Rattle.serde_json.specs.Written.{compact_text};
ghost use Rattle.json_print.specs.Tokens.{Adds, value_tokens};
ghost use Rattle.share_lines.specs.ErrorReading.{as_text as text_of_bytes, behind as behind_front, detail_in as detail_behind, guess_in, guessed, is_spelt, refusal_by_word, text_in};
ghost use Rattle.share_lines.specs.Errors.{IsErrorBody, error_body, error_data, takes_detail};

use case_table::Refusal;
use json::Writer;
use json_print::{begin_object, end_object, new_writer, printed, string_field};
use json_tree::{Text, TreeFault, member_at, tree_of};
use serde_json::Value;
use std::alloc::{AllocError, Global};

// Room for most bodies.
const ROOM: usize = 128;

fn error_object(body: &mut Writer, word: &str, message: &str) -> Result<(), AllocError>
    ensures { OnOk result (Adds body.old body.new (value_tokens (error_data word.now message.now))) }
{
    begin_object(body)?;
    string_field(body, "errorCode", word)?;
    string_field(body, "message", message)?;
    end_object(body)
}

fn message_of(alloc: Global, fixed: &str, what: &str) -> Result<String, AllocError>
    ensures { IfOk result (λ s. string_bytes s ≡ fixed.now ++ what.now) }
{
    let mut message = String::from_str(alloc, fixed)?;
    message.push_str(what)?;
    Ok(message)
}

fn printed_error(alloc: Global, word: &str, message: &str) -> Result<Text, AllocError>
    ensures { IfOk result (λ t. t ≡ compact_text (error_data word.now message.now)) }
{
    let mut body = new_writer(alloc, ROOM)?;
    error_object(&mut body, word, message)?;
    Ok(Text::of(printed(body)))
}

fn body_of(alloc: Global, refusal: Refusal, detail: &str) -> Result<Text, AllocError>
    ensures { IfOk result (λ t. t ≡ error_body refusal detail.now) }
{
    let message = message_of(alloc, refusal.message(), detail)?;
    printed_error(alloc, refusal.word(), &message)
}

fn takes(refusal: Refusal, detail: &str) -> bool
    ensures { result ≡ takes_detail refusal detail.now }
{
    detail.is_empty() || refusal.has_detail()
}

/// The body of a refusal: a compact JSON object of `errorCode`, its word, and `message`, the fixed words of its message
/// and then `detail`, which is empty where the message has none. The error is want of memory.
pub fn error_text(alloc: Global, refusal: Refusal, detail: &str) -> Result<Text, AllocError>
    requires { IsTrue (takes_detail refusal detail.now) }
    ensures { IfOk result (λ t. t ≡ error_body refusal detail.now) }
{
    body_of(alloc, refusal, detail)
}

fn text_at<'a>(object: &'a Value, name: &str) -> Option<&'a str>
    ensures { option_map (λ s. s.now) result ≡ text_in name.now (view object.now) }
{
    member_at(object, name)?.as_str()
}

#[tactic(auto, unfolding(crate::specs::ErrorReading::refusal_by_word))]
fn refusal_of(word: &str) -> Option<Refusal>
    ensures { result ≡ refusal_by_word word.now }
{
    Refusal::of_word(word)
}

// What stands behind a front.
fn behind<'a>(front: &str, text: &'a str) -> Option<&'a [u8]>
    ensures { option_map (λ s. s.now) result ≡ behind_front front.now text.now }
{
    text.as_bytes().strip_prefix(front.as_bytes())
}

#[tactic(auto, using(crate::proofs::ErrorBack::text_yes, crate::proofs::ErrorBack::text_no))]
fn as_text(bytes: &[u8]) -> Option<&str>
    ensures { option_map (λ s. s.now) result ≡ text_of_bytes bytes.now }
{
    match str::from_utf8(bytes) {
        Ok(text) => Some(text),
        Err(_) => None,
    }
}

#[tactic(auto, unfolding(crate::specs::ErrorReading::detail_in))]
fn detail_in(refusal: Refusal, message: &str) -> Option<&str>
    ensures { option_map (λ s. s.now) result ≡ detail_behind refusal message.now }
{
    as_text(behind(refusal.message(), message)?)
}

// The refusal and the detail that an error's value seems to have.
fn guess(object: &Value) -> Option<(Refusal, &str)>
    ensures { option_map (λ g. (g.0, g.1.now)) result ≡ guessed (view object.now) }
{
    let word = text_at(object, "errorCode")?;
    let message = text_at(object, "message")?;
    let refusal = refusal_of(word)?;
    let detail = detail_in(refusal, message)?;
    Some((refusal, detail))
}

fn copied(
    alloc: Global,
    guess: Option<(Refusal, &str)>,
) -> Result<Option<(Refusal, Text)>, AllocError>
    ensures { IfOk result (λ o. o ≡ option_map (λ g. (g.0, g.1.now)) guess.entry) }
{
    match guess {
        Some((refusal, detail)) => Ok(Some((refusal, Text::of(String::from_str(alloc, detail)?)))),
        None => Ok(None),
    }
}

fn guess_of(alloc: Global, bytes: &[u8]) -> Result<Option<(Refusal, Text)>, AllocError>
    ensures { IfOk result (λ o. o ≡ guess_in bytes.now) }
{
    match tree_of(alloc, bytes) {
        Ok(object) => copied(alloc, guess(&object)),
        Err(TreeFault::NoMemory) => Err(AllocError),
        Err(_) => Ok(None),
    }
}

// Whether the bytes are the body of that refusal.
fn spells(alloc: Global, refusal: Refusal, detail: &str, bytes: &[u8]) -> Result<bool, AllocError>
    ensures { IfOk result (λ b. b ≡ is_spelt refusal detail.now bytes.now) }
{
    let body = body_of(alloc, refusal, detail)?;
    Ok(takes(refusal, detail) && body.as_str().as_bytes() == bytes)
}

/// The refusal and the detail of a refusal's body: `Some` exactly where the bytes are what [`error_text`] writes of them.
/// Another spelling of the same JSON value is none. The error is want of memory.
pub fn error_of(alloc: Global, bytes: &[u8]) -> Result<Option<(Refusal, Text)>, AllocError>
    // The bytes are the body of what is answered.
    ensures found { IfOk result (λ o. IfSome o (λ e. IsErrorBody e.0 e.1 bytes.now)) }
    // What the bytes are the body of is answered.
    ensures every { IfOk result (λ o. (refusal : Refusal) (detail : List ℕ) → IsUtf8 detail → IsErrorBody refusal detail bytes.now → o ≡ Some (refusal, detail)) }
{
    let Some((refusal, detail)) = guess_of(alloc, bytes)? else {
        return Ok(None);
    };
    if spells(alloc, refusal, detail.as_str(), bytes)? {
        Ok(Some((refusal, detail)))
    } else {
        Ok(None)
    }
}

/// A law: no two refusals have one body, and no two details. It does nothing when it is called.
pub fn one_error()
    ensures { (text detail other : List ℕ) (refusal another : Refusal) → IsUtf8 detail → IsUtf8 other → IsErrorBody refusal detail text → IsErrorBody another other text → (refusal ≡ another) × (detail ≡ other) }
{}
