// Reads the commits of versions from a store.
ghost use Rattle.std.specs.Prelude.{◌≡◌, ◌<◌, ◌≤◌, ◌+◌, ◌^◌, [], length, max, IfOk, IfNone, IfSome, OnErr, OnOk, vec_len};
ghost use Rattle.edge_core.specs.Faults.{Cause};
ghost use Rattle.log_commit.specs.Names.{commit_name};
ghost use Rattle.log_store.specs.Log.{log_below, text_at};
ghost use Rattle.log_store.specs.Reading.{AreStored, IsCommitAt, Keeps, loaded_of};
ghost use Rattle.log_store.specs.Loads.{IsFetched, Looked};
ghost use Rattle.log_store.specs.Refusals.{failed_load, failed_step};
ghost use Rattle.std.specs.FinMap as finmap;

use crate::kept::Kept;
use crate::loaded::{Block, BlockCause};
use crate::refusal::{LoadRefusal, Stop};
use edge_core::{Got, Name, Store};
use log_actions::Commit;
use log_commit::{CommitFault, commit_of, name_of};
use std::alloc::{AllocError, Global};
use std::sync::Arc;

/// What a store has under a name.
#[derive(Drop)]
pub enum Fetched {
    /// The object's bytes.
    Bytes(Vec<u8>),
    /// No object has the name.
    Absent,
    /// The object has more bytes than were asked for.
    TooLong,
}

const PIECE: usize = 65_536;

pub(crate) const MOST_TEXT: usize = 16 << 20;

// Room for a piece.
pub(crate) fn piece_room(alloc: Global) -> Result<Vec<u8>, AllocError>
    ensures { IfOk result (λ v. 0 < vec_len v) }
{
    vec![in alloc; 0; PIECE]
}

/// An object of at most `limit` bytes, read in pieces of the length of `piece`; in which of the
/// calls of the store it is absent or longer decides. A fault comes only where the store's count of
/// faults rose in this call. Nothing is stored: its count of stored puts stays.
pub fn fetch<W: Store>(
    alloc: Global,
    store: &mut W,
    name: &Name,
    limit: usize,
    piece: &mut [u8],
) -> Result<Fetched, LoadRefusal>
    requires room { 0 < length piece.old }
    requires small { limit ≤ 2 ^ 24 }
    ensures looked { Looked (W.objects store.old) (W.objects store.new) (W.alone store.old) (W.alone store.new) }
    ensures object { IfSome (W.objects store.new) (λ os. IsFetched limit (finmap.get os name.now) result) }
    ensures cause { Cause (W.faults store.old) (W.faults store.new) (failed_load result) }
    ensures stored { W.stored store.new ≡ W.stored store.old }
{
    let mut bytes = Vec::new(alloc);
    while bytes.len() <= limit {
        match store.get(name, bytes.len() as u64, piece) {
            Got::Bytes(0) => return Ok(Fetched::Bytes(bytes)),
            Got::Bytes(n) => bytes.extend_from_slice(&piece[..n])?,
            Got::Absent => return Ok(Fetched::Absent),
            Got::Failed => return Err(LoadRefusal::StoreFault),
        }
    }
    Ok(Fetched::TooLong)
}

/// The name of a version's commit (Delta Lake PROTOCOL.md, "Delta Log Entries"). The error is want of memory.
pub fn version_name(alloc: Global, location: &Name, version: u64) -> Result<Name, AllocError>
    requires short { length location.now ≤ 256 }
    requires small { version < 2 ^ 63 }
    ensures { IfOk result (λ n. n ≡ commit_name location.now version) }
{
    match name_of(alloc, location, version)? {
        Some(name) => Ok(name),
        None => unreachable!(),
    }
}

// The commit of a version.
fn commit_of_version<W: Store>(
    alloc: Global,
    store: &mut W,
    location: &Name,
    version: u64,
    piece: &mut [u8],
) -> Result<Commit, Stop>
    requires short { length location.now ≤ 256 }
    requires small { version < 2 ^ 63 }
    requires room { 0 < length piece.old }
    ensures looked { Looked (W.objects store.old) (W.objects store.new) (W.alone store.old) (W.alone store.new) }
    ensures commit { IfSome (W.objects store.new) (λ os. IsCommitAt (text_at location.now os version) result) }
    ensures cause { Cause (W.faults store.old) (W.faults store.new) (failed_step result) }
    ensures stored { W.stored store.new ≡ W.stored store.old }
{
    let name = version_name(alloc, location, version)?;
    match fetch(alloc, store, &name, MOST_TEXT, piece)? {
        Fetched::Bytes(bytes) => Ok(commit_of(alloc, &bytes)?),
        Fetched::Absent => Err(Stop::Blocked(BlockCause::Gap)),
        Fetched::TooLong => Err(Stop::Blocked(BlockCause::Commit(CommitFault::TooLarge))),
    }
}

// Keeps the commit of a version.
fn keep_version<W: Store>(
    alloc: Global,
    store: &mut W,
    location: &Name,
    version: u64,
    kept: &mut Kept,
    piece: &mut [u8],
) -> Result<(), Stop>
    requires short { length location.now ≤ 256 }
    requires small { version < 2 ^ 63 }
    requires count { length kept.old ≡ version }
    requires room { 0 < length piece.old }
    ensures looked { Looked (W.objects store.old) (W.objects store.new) (W.alone store.old) (W.alone store.new) }
    ensures count { OnOk result (length kept.new ≡ version + 1) }
    ensures same { OnErr result (kept.new ≡ kept.old) }
    ensures keeps { IfSome (W.objects store.new) (λ os. Keeps kept.old kept.new (text_at location.now os version) result) }
    ensures cause { Cause (W.faults store.old) (W.faults store.new) (failed_step result) }
    ensures stored { W.stored store.new ≡ W.stored store.old }
{
    let commit = commit_of_version(alloc, store, location, version, piece)?;
    kept.keep(alloc, Arc::new(alloc, commit)?)
}

// Keeps the versions after those that are kept, below an end, up to the first that isn't kept, which is the block.
pub(crate) fn read_on<W: Store>(
    alloc: Global,
    store: &mut W,
    location: &Name,
    kept: &mut Kept,
    end: u64,
) -> Result<Option<Block>, LoadRefusal>
    requires short { length location.now ≤ 256 }
    requires small { end ≤ 2 ^ 63 }
    requires first { IfSome (W.objects store.old) (λ os. kept.old ≡ []) }
    requires stored { IfSome (W.objects store.old) (AreStored location.now end) }
    ensures looked { Looked (W.objects store.old) (W.objects store.new) (W.alone store.old) (W.alone store.new) }
    ensures log { IfSome (W.objects store.old) (λ os. IfOk result (λ block. loaded_of kept.new block ≡ log_below location.now os end)) }
    ensures next { IfOk result (λ block. IfSome block (λ b. b.version ≡ length kept.new)) }
    ensures count { IfOk result (λ block. IfNone block (length kept.new ≡ max (length kept.old) end)) }
    ensures cause { Cause (W.faults store.old) (W.faults store.new) (failed_load result) }
    ensures stored { W.stored store.new ≡ W.stored store.old }
{
    let mut piece = piece_room(alloc)?;
    for version in kept.versions()..end {
        match keep_version(alloc, store, location, version, kept, &mut piece) {
            Ok(()) => {}
            Err(Stop::Blocked(cause)) => return Ok(Some(Block { version, cause })),
            Err(Stop::Failed(refusal)) => return Err(refusal),
        }
    }
    Ok(None)
}
