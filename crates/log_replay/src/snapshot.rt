// A table at one version.
ghost use Rattle.std.specs.Prelude.{◌≡◌, ◌↔◌, ◌<◌, IsTrue, Contains, length, map, option_map, bytes_eq, slice_get, Some, IfOk, IfSome, IfNone};
ghost use Rattle.std.specs.List.{find};
ghost use Rattle.std.specs.Arc.{arc_value};
ghost use Rattle.log_replay.specs.Listing.{IsListing, listed};

use crate::files::Files;
use crate::listing::{file_of, parts_of};
use crate::part::Part;
use crate::places::{file_in, starts};
use log_actions::{AddFile, MetaData, Protocol, Txn};
use std::alloc::{AllocError, Global};
use std::marker::Model;
use std::sync::Arc;

/// The state of a table at a version: its live files in byte order of path, of which no two have
/// one path, the protocol and the metaData that hold, and the last txn of each application in byte
/// order of appId (Delta Lake PROTOCOL.md, "Action
/// Reconciliation").
///
/// The files stand in parts of at most 256, which the states of several versions share, so that a
/// version keeps only what it changes.
#[derive(Drop)]
pub struct Snapshot {
    version: u64,
    len: u64,
    starts: Vec<u64>,
    parts: Vec<Arc<Part>>,
    protocol: Protocol,
    meta: MetaData,
    txns: Vec<Txn>,
}

// All of a state but its version, borrowed.
#[derive(Drop)]
pub(crate) struct Parts<'a> {
    pub(crate) files: Vec<&'a AddFile>,
    pub(crate) protocol: &'a Protocol,
    pub(crate) meta: &'a MetaData,
    pub(crate) txns: Vec<&'a Txn>,
}

impl Model for Snapshot {
    ghost use Rattle.std.specs.Prelude.{◌≡◌, length};
    ghost use Rattle.log_replay.specs.State.{State};
    ghost use Rattle.log_replay.specs.Snapshots.{AppsRise};
    ghost use Rattle.log_replay.specs.Listing.{IsListing, listed, starts_of};

    ghost Value = { State };

    ghost view = { λ s. record { version = s.version; files = listed s.parts.items; protocol = s.protocol; meta = s.meta; txns = s.txns.items } };

    ghost invariant = { λ s. IsListing s.parts.items × AppsRise s.txns.items × (s.len ≡ length (listed s.parts.items)) × (s.starts.items ≡ starts_of 0 s.parts.items) };
}

impl Snapshot {
    ghost use Rattle.log_replay.specs.Snapshots.{AppsRise};

    // The state of these at a version.
    pub(crate) fn of(
        alloc: Global,
        version: u64,
        parts: Vec<Arc<Part>>,
        protocol: Protocol,
        meta: MetaData,
        txns: Vec<Txn>,
    ) -> Result<Snapshot, AllocError>
        requires listing { IsListing parts.items }
        requires txns { AppsRise txns.items }
        ensures { IfOk result (λ s. s ≡ record { version = version; files = listed parts.items; protocol = protocol; meta = meta; txns = txns.items }) }
    {
        let (starts, len) = starts(alloc, &parts)?;
        Ok(Snapshot {
            version,
            len,
            starts,
            parts,
            protocol,
            meta,
            txns,
        })
    }

    /// The version: how many commits came after the first.
    pub fn version(&self) -> u64
        ensures { result ≡ self.now.version }
    {
        self.version
    }

    /// How many files are live.
    pub fn len(&self) -> u64
        ensures { result ≡ length self.now.files }
    {
        self.len
    }

    /// Whether no file is live.
    pub fn is_empty(&self) -> bool
        ensures { IsTrue result ↔ (length self.now.files ≡ 0) }
    {
        self.len == 0
    }

    /// The live file at that place in byte order of path, counted from 0. It is found by halving.
    pub fn file(&self, place: u64) -> &AddFile
        requires { place < length self.now.files }
        ensures { slice_get self.now.files place ≡ Some result.now }
    {
        file_in(&self.parts, &self.starts, place)
    }

    /// The live files in byte order of path. Each takes constant time.
    pub fn files(&self) -> Files<'_>
        ensures { result ≡ self.now.files }
    {
        Files::of(&self.parts)
    }

    // The parts of the live files.
    pub(crate) fn parts(&self) -> &[Arc<Part>]
        ensures files { listed result.now ≡ self.now.files }
        ensures listing { IsListing result.now }
    {
        &self.parts
    }

    /// The last txn of each application, in byte order of appId (Delta Lake PROTOCOL.md,
    /// "Transaction Identifiers").
    pub fn txns(&self) -> &[Txn]
        ensures { result.now ≡ self.now.txns }
    {
        &self.txns
    }

    /// The last txn of an application, none exactly where it has none. It is found by halving.
    pub fn txn(&self, app: &str) -> Option<&Txn>
        ensures found { IfSome result (λ t. Contains self.now.txns t.now × (t.now.app ≡ app.now)) }
        ensures none { IfNone result (¬ (Contains (map (λ t. t.app) self.now.txns) app.now)) }
    {
        match self.txns.binary_search_by(|txn| txn.app.as_str().cmp(app)) {
            Ok(place) => Some(&self.txns[place]),
            Err(_) => None,
        }
    }

    /// The protocol that holds.
    pub fn protocol(&self) -> &Protocol
        ensures { result.now ≡ self.now.protocol }
    {
        &self.protocol
    }

    /// The metaData that holds.
    pub fn meta(&self) -> &MetaData
        ensures { result.now ≡ self.now.meta }
    {
        &self.meta
    }

    /// The live file with that path, as spelt. It is found by halving.
    pub fn find(&self, path: &str) -> Option<&AddFile>
        ensures { option_map (λ f. f.now) result ≡ find (λ f. bytes_eq f.path path.now) self.now.files }
    {
        file_of(&self.parts, path)
    }

    /// Whether a live file has that path, as spelt. It is found by halving.
    pub fn has(&self, path: &str) -> bool
        ensures { IsTrue result ↔ Contains (map (λ f. f.path) self.now.files) path.now }
    {
        self.find(path).is_some()
    }
}

/// The state of a table at a version, as a [`Snapshot`] has it, borrowed from what it is the state of.
#[derive(Drop)]
pub struct SnapshotRef<'a> {
    version: u64,
    parts: Parts<'a>,
}

impl<'a> Model for SnapshotRef<'a> {
    ghost use Rattle.std.specs.Prelude.{map};
    ghost use Rattle.log_replay.specs.State.{State};
    ghost use Rattle.log_replay.specs.Snapshots.{AppsRise, PathsRise};
    ghost use Rattle.log_replay.specs.Applied.{state_in};

    ghost Value = { State };

    ghost view = { λ s. state_in s.version s.parts };

    ghost invariant = { λ s. PathsRise (map (λ f. f.now) s.parts.files.items) × AppsRise (map (λ t. t.now) s.parts.txns.items) };
}

pub(crate) fn copy_txns(alloc: Global, txns: &[&Txn]) -> Result<Vec<Txn>, AllocError>
    ensures { IfOk result (λ copies. copies.items ≡ map (λ t. t.now) txns.now) }
{
    let mut copies = Vec::new(alloc);
    for txn in txns {
        copies.push(txn.copy(alloc)?)?;
    }
    Ok(copies)
}

impl<'a> SnapshotRef<'a> {
    ghost use Rattle.log_replay.specs.Snapshots.{AppsRise, PathsRise};
    ghost use Rattle.log_replay.specs.Applied.{state_in};

    // The state of these parts at a version.
    pub(crate) fn of(version: u64, parts: Parts<'a>) -> SnapshotRef<'a>
        requires files { PathsRise (map (λ f. f.now) parts.files.items) }
        requires txns { AppsRise (map (λ t. t.now) parts.txns.items) }
        ensures { result ≡ state_in version parts.entry }
    {
        SnapshotRef { version, parts }
    }

    /// The version: how many commits came after the first.
    pub fn version(&self) -> u64
        ensures { result ≡ self.now.version }
    {
        self.version
    }

    /// How many files are live.
    pub fn len(&self) -> u64
        ensures { result ≡ length self.now.files }
    {
        self.parts.files.len() as u64
    }

    /// Whether no file is live.
    pub fn is_empty(&self) -> bool
        ensures { IsTrue result ↔ (length self.now.files ≡ 0) }
    {
        self.parts.files.is_empty()
    }

    /// The live file at that place in byte order of path, counted from 0. It takes constant time.
    pub fn file(&self, place: u64) -> &AddFile
        requires { place < length self.now.files }
        ensures { slice_get self.now.files place ≡ Some result.now }
    {
        self.parts.files[place as usize]
    }

    /// The protocol that holds.
    pub fn protocol(&self) -> &Protocol
        ensures { result.now ≡ self.now.protocol }
    {
        self.parts.protocol
    }

    /// The metaData that holds.
    pub fn meta(&self) -> &MetaData
        ensures { result.now ≡ self.now.meta }
    {
        self.parts.meta
    }

    /// The same state, with all of it copied. The error is want of memory.
    pub fn copy(&self, alloc: Global) -> Result<Snapshot, AllocError>
        ensures { IfOk result (λ s. s ≡ self.now) }
    {
        let parts = parts_of(alloc, &self.parts.files)?;
        let protocol = self.parts.protocol.copy(alloc)?;
        let meta = self.parts.meta.copy(alloc)?;
        let txns = copy_txns(alloc, &self.parts.txns)?;
        Snapshot::of(alloc, self.version, parts, protocol, meta, txns)
    }
}
