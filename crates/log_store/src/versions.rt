// The versions that names stand for.
ghost use Rattle.std.specs.Prelude.{◌≡◌, ◌<◌, ◌≤◌, ◌^◌, IfOk, IfSome, filter_map, fold, length, min, option_map};
ghost use Rattle.log_commit.specs.Names.{folder, version_of as version_in};
ghost use Rattle.log_store.specs.Log.{least_of, missing};
ghost use Rattle.log_store.specs.Reading.{gap_at, leading_from};

use crate::loaded::{Block, BlockCause};
use edge_core::{Name, Segment};
use log_commit::version_of;
use std::alloc::{AllocError, Global};

// The versions of those segments that name one.
pub(crate) fn versions_of(alloc: Global, names: &[Segment]) -> Result<Vec<u64>, AllocError>
    ensures { IfOk result (λ versions. versions.items ≡ filter_map version_in names.now) }
{
    let mut versions = Vec::new(alloc);
    for name in names {
        if let Some(version) = version_of(name.as_str()) {
            versions.push(version)?;
        }
    }
    Ok(versions)
}

// How many versions in front are 0 and on, without a gap.
pub(crate) fn leading(versions: &[u64]) -> usize
    ensures { result ≡ leading_from 0 versions.now }
{
    let mut count = 0;
    for version in versions {
        if *version != count as u64 {
            return count;
        }
        count += 1;
    }
    count
}

fn least_of_all(first: u64, rest: &[u64]) -> u64
    ensures { result ≡ fold min first rest.now }
{
    let mut least = first;
    for version in rest {
        least = least.min(*version);
    }
    least
}

fn least(versions: &[u64]) -> u64
    ensures { result ≡ least_of versions.now }
{
    match versions.split_first() {
        Some((first, rest)) => least_of_all(*first, rest),
        None => 0,
    }
}

// Why the version after so many isn't kept, which no name stands for.
fn cause_of(versions: &[u64], count: usize) -> BlockCause
    ensures { result ≡ missing versions.now count }
{
    if count == 0 {
        BlockCause::NeedsCheckpoint {
            lowest: least(versions),
        }
    } else {
        BlockCause::Gap
    }
}

// The block after so many versions in front, where later ones are named.
pub(crate) fn gap(versions: &[u64], count: usize) -> Option<Block>
    ensures { result ≡ gap_at versions.now count }
{
    if count < versions.len() {
        Some(Block {
            version: count as u64,
            cause: cause_of(versions, count),
        })
    } else {
        None
    }
}

// The version after the last that is named, which is the greatest, since names are listed in byte order. Versions are below 2^63.
pub(crate) fn end_named(versions: &[u64]) -> u64
    ensures { result ≤ 2 ^ 63 }
{
    match versions.last() {
        Some(last) => (*last).min((1 << 63) - 1) + 1,
        None => 0,
    }
}

// A block with the cause that a log's beginning has where version 0 is missing.
pub(crate) fn with_beginning(block: Option<Block>, versions: &[u64]) -> Option<Block>
    ensures { option_map (λ b. b.version) result ≡ option_map (λ b. b.version) block }
{
    match block {
        Some(block) if block.version == 0 && matches!(block.cause, BlockCause::Gap) => Some(
            Block {
                version: 0,
                cause: cause_of(versions, 0),
            },
        ),
        _ => block,
    }
}

// The folder of the log of the table at a location.
pub(crate) fn folder_name(alloc: Global, location: &Name) -> Result<Name, AllocError>
    requires { length location.now ≤ 256 }
    ensures { IfOk result (λ n. n ≡ folder location.now) }
{
    match Name::of(format!(in alloc; "{}/_delta_log", location.as_str())?) {
        Some(name) => Ok(name),
        None => unreachable!(),
    }
}
