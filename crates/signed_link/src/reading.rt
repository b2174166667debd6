// Links read. What is read is no more than a guess: the caller spells it again and compares.
ghost use Rattle.std.specs.Prelude.{◌≡◌, ◌^◌, ◌<◌, Some, IfOk};
ghost use Rattle.hmac_core.specs.Faults.{Gives};
ghost use Rattle.signed_link.specs.Reading.{cut, after, value_in, number_of, number_in, name_of, path_of, parts_in};

use crate::parts::LinkParts;
use hmac_core::Fault;
use json_tree::{Edition, Millis, Text};
use percent_encoding::{DecodeError, percent_decode_str};
use share_catalog::{CatalogName, TableName};
use std::alloc::Global;

// What comes before the first such character, and what comes after it.
#[tactic(auto, unfolding(crate::specs::Reading::cut))]
fn cut(at: char, text: &str) -> Result<(&str, &str), Fault>
    requires { at < 128 }
    ensures { Gives (λ x. (x.0.now, x.1.now)) result (cut at text.now) }
{
    match text.split_once(at) {
        Some(pair) => Ok(pair),
        None => Err(Fault::NotSpelt),
    }
}

// What comes after the front.
#[tactic(auto, unfolding(crate::specs::Reading::after))]
fn after<'a>(front: &str, text: &'a str) -> Result<&'a str, Fault>
    ensures { Gives (λ t. t.now) result (after front.now text.now) }
{
    match text.strip_prefix(front) {
        Some(rest) => Ok(rest),
        None => Err(Fault::NotSpelt),
    }
}

// The value of the parameter, and what comes after it.
#[tactic(auto, unfolding(crate::specs::Reading::value_in))]
fn value_in<'a>(name: &str, text: &'a str) -> Result<(&'a str, &'a str), Fault>
    ensures { Gives (λ x. (x.0.now, x.1.now)) result (value_in name.now text.now) }
{
    cut('&', after(name, text)?)
}

#[tactic(auto, unfolding(crate::specs::Reading::number_of))]
fn number_of(text: &str) -> Result<u64, Fault>
    ensures value { Gives (λ n. n) result (number_of text.now) }
    ensures below { IfOk result (λ n. n < 2 ^ 63) }
{
    match text.parse::<u64>() {
        Ok(number) => {
            if number < 1 << 63 {
                Ok(number)
            } else {
                Err(Fault::NotSpelt)
            }
        }
        Err(_) => Err(Fault::NotSpelt),
    }
}

#[tactic(auto, unfolding(crate::specs::Reading::number_in))]
fn number_in<'a>(name: &str, text: &'a str) -> Result<(u64, &'a str), Fault>
    ensures value { Gives (λ x. (x.0, x.1.now)) result (number_in name.now text.now) }
    ensures below { IfOk result (λ x. x.0 < 2 ^ 63) }
{
    let (value, rest) = value_in(name, text)?;
    Ok((number_of(value)?, rest))
}

fn name_of(alloc: Global, text: &str) -> Result<CatalogName, Fault>
    ensures { Gives (λ n. n) result (name_of text.now) }
{
    match CatalogName::of(String::from_str(alloc, text)?) {
        Some(name) => Ok(name),
        None => Err(Fault::NotSpelt),
    }
}

// The path whose escaped form the text is.
fn path_of(alloc: Global, text: &str) -> Result<Text, Fault>
    ensures { Gives (λ t. t) result (path_of text.now) }
{
    match percent_decode_str(text).decode_utf8(alloc) {
        Ok(path) => Ok(Text::of(path.into_owned(alloc)?)),
        Err(DecodeError::Utf8(_)) => Err(Fault::NotSpelt),
        Err(DecodeError::OutOfMemory) => Err(Fault::NoMemory),
    }
}

// The parts of the link, which stands below the endpoint.
#[tactic(auto, unfolding(crate::specs::Reading::parts_in))]
pub(crate) fn parts_in(alloc: Global, endpoint: &str, text: &str) -> Result<LinkParts, Fault>
    ensures { Gives (λ p. p) result (parts_in endpoint.now text.now) }
{
    let rest = after(endpoint, text)?;
    let rest = after("/files/", rest)?;
    let (share, rest) = cut('/', rest)?;
    let (schema, rest) = cut('/', rest)?;
    let (table, rest) = cut('/', rest)?;
    let (path, rest) = cut('?', rest)?;
    let (binding, rest) = number_in("b=", rest)?;
    let (expires, rest) = number_in("e=", rest)?;
    let (grant, rest) = number_in("g=", rest)?;
    let (recipient, _) = value_in("r=", rest)?;
    let share = name_of(alloc, share)?;
    let schema = name_of(alloc, schema)?;
    let table = name_of(alloc, table)?;
    let recipient = name_of(alloc, recipient)?;
    let path = path_of(alloc, path)?;
    Ok(LinkParts {
        table: TableName {
            share,
            schema,
            table,
        },
        path,
        binding: Edition::of_small(binding),
        expires: Millis::of_small(expires),
        grant: Edition::of_small(grant),
        recipient,
    })
}
