// The names of commits.
ghost use Rattle.std.specs.Prelude.{◌≡◌, ◌<◌, ◌≤◌, ◌^◌, IfOk, IfSome, IfNone, IsSome, length, MatchOption, ℕ, true, bytes_eq, codes};
ghost use Rattle.std.specs.List.{list_all};
ghost use Rattle.std.specs.Char.{is_ascii_digit};
ghost use Rattle.std.specs.Str.Parse.{digits_value};
ghost use Rattle.log_commit.specs.Names as spec;

use edge_core::Name;
use std::alloc::{AllocError, Global};

fn commit_name(alloc: Global, location: &Name, version: u64) -> Result<Option<Name>, AllocError>
    ensures { IfOk result (λ name. name ≡ spec.name_of location.now version) }
{
    Ok(Name::of(format!(in alloc; "{}/_delta_log/{:020}.json", location.as_str(), version)?))
}

/// The name of a version's commit below the table's location: none exactly where it would pass 1,024 bytes. Below a
/// location of at most 256 bytes there is one. The error is want of memory.
pub fn name_of(alloc: Global, location: &Name, version: u64) -> Result<Option<Name>, AllocError>
    requires { version < 2 ^ 63 }
    ensures value { IfOk result (λ name. name ≡ spec.name_of location.now version) }
    ensures short { IfOk result (λ name. length location.now ≤ 256 → IsSome name) }
{
    commit_name(alloc, location, version)
}

fn are_digits(bytes: &[u8]) -> bool
    ensures { result ≡ list_all is_ascii_digit bytes.now }
{
    bytes.iter().all(|b| b.is_ascii_digit())
}

// The number that digits write, none from 2^64 on.
fn number_of(digits: &[u8]) -> Option<u64>
    requires { list_all is_ascii_digit digits.now ≡ true }
    ensures { MatchOption result (2 ^ 64 ≤ digits_value 10 digits.now) (λ n. n ≡ digits_value 10 digits.now) }
{
    let mut number = 0u64;
    for digit in digits {
        number = number.checked_mul(10)?.checked_add((*digit - b'0') as u64)?;
    }
    Some(number)
}

fn is_suffix(bytes: &[u8]) -> bool
    ensures { result ≡ bytes_eq bytes.now (codes ".json") }
{
    bytes == b".json".as_slice()
}

// The version that digits write, none from 2^63 on.
fn version_in(digits: &[u8]) -> Option<u64>
    requires { list_all is_ascii_digit digits.now ≡ true }
    ensures { MatchOption result (2 ^ 63 ≤ digits_value 10 digits.now) (λ n. (n ≡ digits_value 10 digits.now) × (n < 2 ^ 63)) }
{
    match number_of(digits) {
        Some(number) if number < 1 << 63 => Some(number),
        _ => None,
    }
}

fn version_of_bytes(segment: &[u8]) -> Option<u64>
    ensures { result ≡ spec.version_of segment.now }
{
    if segment.len() != 25 {
        return None;
    }
    let (digits, suffix) = segment.split_at(20);
    if !is_suffix(suffix) {
        return None;
    }
    if !are_digits(digits) {
        return None;
    }
    version_in(digits)
}

/// The version whose commit has that last segment in its name: none exactly where the segment isn't 20 decimal digits
/// that write a number below 2^63 and `.json`. It takes no memory.
pub fn version_of(segment: &str) -> Option<u64>
    ensures value { result ≡ spec.version_of segment.now }
    ensures found { IfSome result (λ version. spec.IsSegmentOf segment.now version) }
    ensures none { IfNone result ((version : ℕ) → ¬ (spec.IsSegmentOf segment.now version)) }
{
    version_of_bytes(segment.as_bytes())
}
