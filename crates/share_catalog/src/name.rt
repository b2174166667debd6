// The names of shares, schemas, tables and recipients.
ghost use Rattle.std.specs.Prelude.{◌≡◌, List, ℕ, IfOk, MatchOption, IsTrue, false, string_bytes, bytes_eq, [], ◌≤◌};
ghost use Rattle.std.specs.String.{string_capacity, string_len};
ghost use Rattle.std.specs.Ordering.{nat_cmp};
ghost use Rattle.std.specs.Cmp.Lexicographic.{slice_cmp};
ghost use Rattle.std.specs.List.{list_all};
ghost use Rattle.share_catalog.specs.Grammar.{is_catalog_name, is_name_byte as is_byte_of_name};

use std::alloc::{AllocError, Global};
use std::cmp::Ordering;
use std::marker::Model;

// The most bytes of a name.
const MOST_BYTES: usize = 128;

/// The name of a share, a schema, a table or a recipient: 1 to 128 bytes, each of which is `a` to
/// `z`, `0` to `9`, `_`, `-` or `.`. Contracts see its bytes.
#[derive(Drop)]
pub struct CatalogName {
    text: String,
}

impl Model for CatalogName {
    ghost use Rattle.std.specs.Prelude.{List, ℕ, IsTrue, string_bytes};

    ghost Value = { List ℕ };

    ghost view = { λ n. string_bytes n.text };

    ghost use Rattle.std.specs.List.{list_all};
    ghost use Rattle.share_catalog.specs.Grammar.{is_catalog_name};

    ghost invariant = { λ n. IsTrue (is_catalog_name (string_bytes n.text)) };
}

fn is_name_byte(byte: u8) -> bool
    ensures { result ≡ is_byte_of_name byte }
{
    matches!(byte, b'a'..=b'z' | b'0'..=b'9' | b'_' | b'-' | b'.')
}

fn are_name_bytes(bytes: &[u8]) -> bool
    ensures { result ≡ list_all is_byte_of_name bytes.now }
{
    bytes.iter().all(|byte| is_name_byte(*byte))
}

/// Whether a text is a name.
pub fn is_catalog_name_text(text: &str) -> bool
    ensures { result ≡ is_catalog_name text.now }
{
    !text.is_empty() && text.len() <= MOST_BYTES && are_name_bytes(text.as_bytes())
}

impl CatalogName {
    /// The name of that text, or `None` exactly where the text isn't one.
    pub fn of(text: String) -> Option<CatalogName>
        ensures { MatchOption result (is_catalog_name (string_bytes text) ≡ false) (λ n. (n ≡ string_bytes text) × IsTrue (is_catalog_name n)) }
    {
        if is_catalog_name_text(&text) {
            Some(CatalogName { text })
        } else {
            None
        }
    }

    /// The text of the name.
    pub fn as_str(&self) -> &str
        ensures value { result.now ≡ self.now }
        ensures good { IsTrue (is_catalog_name self.now) }
    {
        &self.text
    }

    /// The text that the name was made of.
    pub fn into_text(self) -> String
        ensures value { string_bytes result ≡ self }
        ensures good { IsTrue (is_catalog_name self) }
    {
        self.text
    }

    /// Another name of the same text. The error is want of memory.
    pub fn copy(&self, alloc: Global) -> Result<CatalogName, AllocError>
        ensures { IfOk result (λ n. n ≡ self.now) }
    {
        Ok(CatalogName {
            text: String::from_str(alloc, self.text.as_str())?,
        })
    }

    // Another name of the same text, in a text that has room for it.
    pub(crate) fn copy_into(&self, mut room: String) -> CatalogName
        requires empty { string_bytes room ≡ [] }
        requires room { (string_len room ≡ 0) × (128 ≤ string_capacity room) }
        ensures { result ≡ self.now }
    {
        let _ = room.push_str(self.text.as_str());
        CatalogName { text: room }
    }

    /// Whether both are one name.
    pub fn is(&self, other: &CatalogName) -> bool
        ensures { result ≡ bytes_eq self.now other.now }
    {
        self.as_str() == other.as_str()
    }

    /// The order of names, which is the byte order of their texts.
    pub fn compare(&self, other: &CatalogName) -> Ordering
        ensures { result ≡ slice_cmp nat_cmp self.now other.now }
    {
        self.as_str().cmp(other.as_str())
    }
}
