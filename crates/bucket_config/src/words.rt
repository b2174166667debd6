// Texts of members.
ghost use Rattle.std.specs.List.{list_all};
ghost use Rattle.std.specs.Prelude.{◌≡◌, option_map, IfOk};
ghost use Rattle.bucket_config.specs.Words.{before as before_end, if_segment as if_one_segment, if_some as if_not_empty, if_word as if_is_word, is_folder as is_folder_text, is_visible_byte, is_word as is_word_text, prefix_of as prefix_of_text};

use edge_core::{is_name_text, is_segment_text};
use json_tree::Text;
use std::alloc::{AllocError, Global};

fn is_visible(byte: u8) -> bool
    ensures { result ≡ is_visible_byte byte }
{
    matches!(byte, b'!'..=b'~')
}

fn are_visible(bytes: &[u8]) -> bool
    ensures { result ≡ list_all is_visible_byte bytes.now }
{
    bytes.iter().all(|byte| is_visible(*byte))
}

fn is_word(text: &str) -> bool
    ensures { result ≡ is_word_text text.now }
{
    !text.is_empty() && are_visible(text.as_bytes())
}

// The text where it is one visible character of ASCII or more and no others.
pub(crate) fn if_word(text: &str) -> Option<&str>
    ensures { option_map (λ s. s.now) result ≡ if_is_word text.now }
{
    if is_word(text) { Some(text) } else { None }
}

// The text where it isn't empty.
pub(crate) fn if_some(text: &str) -> Option<&str>
    ensures { option_map (λ s. s.now) result ≡ if_not_empty text.now }
{
    if text.is_empty() { None } else { Some(text) }
}

// The text where it is such a word, and a segment of a name.
pub(crate) fn if_segment(text: &str) -> Option<&str>
    ensures { option_map (λ s. s.now) result ≡ if_one_segment text.now }
{
    if is_word(text) && is_segment_text(text) {
        Some(text)
    } else {
        None
    }
}

// What stands before the end of a text that ends with it.
fn before<'a>(end: &str, text: &'a str) -> Option<&'a str>
    ensures { option_map (λ s. s.now) result ≡ before_end end.now text.now }
{
    text.strip_suffix(end)
}

// Whether a text is a name with a slash behind it.
fn is_folder(text: &str) -> bool
    ensures { result ≡ is_folder_text text.now }
{
    match before("/", text) {
        Some(name) => is_name_text(name),
        None => false,
    }
}

// The text where it is empty, or a name with a slash behind it.
pub(crate) fn prefix_of(text: &str) -> Option<&str>
    ensures { option_map (λ s. s.now) result ≡ prefix_of_text text.now }
{
    if !text.is_empty() && !is_folder(text) {
        None
    } else {
        Some(text)
    }
}

// An own copy of a text.
pub(crate) fn copy_of(alloc: Global, text: &str) -> Result<Text, AllocError>
    ensures { IfOk result (λ t. t ≡ text.now) }
{
    Ok(Text::of(String::from_str(alloc, text)?))
}
