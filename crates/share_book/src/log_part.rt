// What is found of a table's log.
ghost use Rattle.std.specs.Prelude.{◌≡◌, ◌+◌, ◌<◌, ◌≤◌, ◌^◌, Bool, IfOk, IfSome, None, Some, length, map, slice_get, take};
ghost use Rattle.std.specs.Arc.{arc_value};
ghost use Rattle.log_replay.specs.Times.{marks_in};
ghost use Rattle.share_book.specs.Bases as bases;
ghost use Rattle.share_book.specs.Bases.{CanReplay, IsBase, MakesFound, MakesHead, MakesVersion};
ghost use Rattle.share_book.specs.Looked.{IsKept};
ghost use Rattle.share_book.specs.Parts as parts;
ghost use Rattle.share_book.specs.declared.look.PartFound.TheVariants as found_is;
ghost use Rattle.share_book.specs.Views.{Log, seen_log, whole_log};

use crate::entry::SharedCommit;
use crate::look::{FeedPart, Marks, Part, PartFound, Spot, TableRefusal};
use crate::replay::Replay;
use crate::snapshot::SharedSnapshot;
use crate::snapshots::Snapshots;
use crate::table::{Table, shared};
use json_tree::Version;
use log_actions::Commit;
use log_replay::{Bound, Mark, Unresolved, resolve};
use log_store::Commits;
use std::alloc::{AllocError, Global};
use std::marker::Model;
use std::sync::Arc;

/// A table's log as a look reads it, empty where none is loaded.
#[derive(Drop)]
pub(crate) struct SeenLog<'a> {
    commits: &'a [Arc<Commit>],
    marks: &'a [Mark],
    blocked: bool,
    snapshots: Option<&'a Snapshots>,
}

impl<'a> Model for SeenLog<'a> {
    ghost use Rattle.std.specs.Prelude.{map, option_map};
    ghost use Rattle.std.specs.Arc.{arc_value};
    ghost use Rattle.share_book.specs.Views.{Log, whole_log};

    ghost Value = { Log };

    ghost view = { λ l. whole_log (map arc_value l.commits.now) l.blocked };

    ghost use Rattle.share_book.specs.Pinning.{IsSeenLog};

    ghost invariant = { λ l. IsSeenLog (map arc_value l.commits.now) l.marks.now (option_map (λ s. s.now) l.snapshots) };
}

// The first version after a base.
fn first_left(base: &Option<SharedSnapshot>) -> usize
    requires { bases.first_left base.now < 2 ^ 64 }
    ensures { result ≡ bases.first_left base.now }
{
    match base {
        Some(state) => state.version() as usize + 1,
        None => 0,
    }
}

impl<'a> SeenLog<'a> {
    /// The log of the table.
    pub(crate) fn of(table: &'a Table) -> SeenLog<'a>
        ensures { result ≡ seen_log (Some table.now.log) }
    {
        SeenLog {
            commits: table.held(),
            marks: table.marks(),
            blocked: table.is_blocked(),
            snapshots: Some(table.snapshots()),
        }
    }

    /// The log where none was loaded.
    pub(crate) fn empty() -> SeenLog<'a>
        ensures { result ≡ seen_log None }
    {
        SeenLog {
            commits: &[],
            marks: &[],
            blocked: false,
            snapshots: None,
        }
    }

    // How many versions are kept.
    fn len(&self) -> u64
        ensures commits { result ≡ length self.now.commits }
        ensures states { result ≡ length self.now.states }
    {
        self.commits.len() as u64
    }

    // The version that a bound means.
    fn resolve(&self, bound: Bound) -> Result<u64, Unresolved>
        ensures version { result ≡ parts.resolved_at self.now bound }
        ensures kept { IfOk result (λ version. version < length self.now.commits) }
    {
        resolve(self.marks, self.blocked, bound)
    }

    // The latest state that is kept of the versions up to that one, none where none is.
    fn base(&self, version: u64) -> Result<Option<SharedSnapshot>, AllocError>
        ensures { IfOk result (IsBase (take (version + 1) self.now.commits)) }
    {
        let Some(snapshots) = self.snapshots else {
            return Ok(None);
        };
        match snapshots.latest(version) {
            Some(state) => Ok(Some(state.share()?)),
            None => Ok(None),
        }
    }

    // What makes the state of a version.
    fn replay(&self, alloc: Global, version: u64) -> Result<Replay, AllocError>
        requires { version < length self.now.commits }
        ensures makes { IfOk result (λ r. MakesFound (Some (take (version + 1) self.now.commits)) (Some r)) }
        ensures fits { IfOk result CanReplay }
    {
        let front: &[Arc<Commit>] = &self.commits[..version as usize + 1];
        let base = self.base(version)?;
        let first = first_left(&base);
        let after = shared(alloc, &front[first..])?;
        Ok(Replay {
            base,
            commits: Commits::of(after),
        })
    }

    /// What makes the state of a version, none where it isn't kept. The error is want of memory.
    pub(crate) fn replay_to(
        &self,
        alloc: Global,
        version: u64,
    ) -> Result<Option<Replay>, AllocError>
        ensures makes { IfOk result (MakesVersion version self.now.commits) }
        ensures fits { IfOk result (λ r. IfSome r CanReplay) }
    {
        if version < self.len() {
            Ok(Some(self.replay(alloc, version)?))
        } else {
            Ok(None)
        }
    }

    /// What makes the state after all commits, none where there are none. The error is want of memory.
    pub(crate) fn head(&self, alloc: Global) -> Result<Option<Replay>, AllocError>
        ensures makes { IfOk result (MakesHead self.now.commits) }
        ensures fits { IfOk result (λ r. IfSome r CanReplay) }
    {
        match self.len().checked_sub(1) {
            Some(last) => Ok(Some(self.replay(alloc, last)?)),
            None => Ok(None),
        }
    }
}

// The commit of a version.
fn commit_at(commits: &[Arc<Commit>], version: u64) -> Result<SharedCommit, AllocError>
    requires { version < length commits.now }
    ensures { IfOk result (λ c. Some c ≡ slice_get (map arc_value commits.now) version) }
{
    let commit = Arc::try_clone(&commits[version as usize])?;
    Ok(SharedCommit::of(commit))
}

// The versions of a feed.
fn feed_of(
    alloc: Global,
    commits: &[Arc<Commit>],
    marks: &[Mark],
    from: u64,
    to: u64,
) -> Result<FeedPart, AllocError>
    requires marked { marks.now ≡ marks_in (map arc_value commits.now) }
    requires kept { to < length commits.now }
    requires counted { length marks.now ≡ length commits.now }
    ensures { IfOk result (λ feed. (blocked : Bool) → feed ≡ parts.feed_of (whole_log (map arc_value commits.now) blocked) from to) }
{
    let mark = marks[to as usize];
    let behind = to as usize + 1;
    let first = behind.min(from as usize);
    let between: &[Mark] = &marks[first..behind];
    Ok(FeedPart {
        from,
        to,
        commits: Commits::of(shared(alloc, &commits[first..behind])?),
        marks: Marks::of(Vec::from_slice(alloc, between)?),
        meta: commit_at(commits, mark.meta_at)?,
        protocol: commit_at(commits, mark.protocol_at)?,
    })
}

fn refused_by(why: Unresolved) -> TableRefusal
    ensures { result ≡ parts.refused_by why }
{
    match why {
        Unresolved::Unsupported => TableRefusal::Unsupported,
        Unresolved::VersionRange => TableRefusal::VersionRange,
        Unresolved::TimestampRange => TableRefusal::TimestampRange,
    }
}

fn is_latest(bound: Bound) -> bool
    ensures { result ≡ parts.is_latest bound }
{
    matches!(bound, Bound::Latest)
}

// What is found at a version that is kept, unless it comes before the first that is shared.
fn version_found(spot: &Spot, version: u64) -> PartFound
    ensures found { result ≡ parts.from_first spot.now.first version (found_is.Version version) }
    ensures kept { (log : Log) → version < length log.commits → IsKept log result }
{
    let first = spot.first().get();
    if version < first {
        PartFound::Refused(TableRefusal::NotShared { first })
    } else {
        PartFound::Version(version)
    }
}

fn head_found(spot: &Spot, log: &SeenLog<'_>, bound: Bound) -> PartFound
    ensures found { result ≡ parts.head_found spot.now log.now bound }
    ensures kept { IsKept log.now result }
{
    if !spot.has_history() && !is_latest(bound) {
        return PartFound::Refused(TableRefusal::NoHistory);
    }
    match log.resolve(bound) {
        Ok(version) => version_found(spot, version),
        Err(why) => PartFound::Refused(refused_by(why)),
    }
}

fn pinned_found(spot: &Spot, log: &SeenLog<'_>, version: u64) -> PartFound
    ensures found { result ≡ parts.pinned_found spot.now log.now version }
    ensures kept { IsKept log.now result }
{
    if version < log.len() {
        version_found(spot, version)
    } else {
        PartFound::Refused(TableRefusal::Ahead)
    }
}

// The versions of a feed that are kept, unless its first comes before the first that is shared.
fn feed_from_first(
    alloc: Global,
    spot: &Spot,
    log: &SeenLog<'_>,
    from: u64,
    to: u64,
) -> Result<PartFound, AllocError>
    requires { to < length log.now.commits }
    ensures found { IfOk result (λ p. p ≡ parts.from_first spot.now.first from (found_is.Feed (parts.feed_of log.now from to))) }
    ensures kept { IfOk result (IsKept log.now) }
{
    let first = spot.first().get();
    if from < first {
        return Ok(PartFound::Refused(TableRefusal::NotShared { first }));
    }
    Ok(PartFound::Feed(feed_of(alloc, log.commits, log.marks, from, to)?))
}

fn feed_found(
    alloc: Global,
    spot: &Spot,
    log: &SeenLog<'_>,
    from: Bound,
    to: Bound,
) -> Result<PartFound, AllocError>
    ensures found { IfOk result (λ p. p ≡ parts.feed_found spot.now log.now from to) }
    ensures kept { IfOk result (IsKept log.now) }
{
    if spot.is_restricted() {
        return Ok(PartFound::Refused(TableRefusal::Restricted));
    }
    if !spot.has_history() {
        return Ok(PartFound::Refused(TableRefusal::NoHistory));
    }
    match (log.resolve(from), log.resolve(to)) {
        (Err(why), _) | (Ok(_), Err(why)) => Ok(PartFound::Refused(refused_by(why))),
        (Ok(from), Ok(to)) => {
            if to < from {
                return Ok(PartFound::Refused(TableRefusal::VersionRange));
            }
            feed_from_first(alloc, spot, log, from, to)
        }
    }
}

fn pinned_feed(
    alloc: Global,
    spot: &Spot,
    log: &SeenLog<'_>,
    from: Version,
    to: Version,
) -> Result<PartFound, AllocError>
    ensures found { IfOk result (λ p. p ≡ parts.pinned_feed spot.now log.now from to) }
    ensures kept { IfOk result (IsKept log.now) }
{
    if spot.is_restricted() {
        return Ok(PartFound::Refused(TableRefusal::Restricted));
    }
    if to.get() < log.len() {
        feed_from_first(alloc, spot, log, from.get(), to.get())
    } else {
        Ok(PartFound::Refused(TableRefusal::Ahead))
    }
}

// What is found of a log, with a version in place of its files.
fn version_of(
    alloc: Global,
    spot: &Spot,
    log: &SeenLog<'_>,
    part: &Part,
) -> Result<PartFound, AllocError>
    ensures found { IfOk result (λ p. p ≡ parts.version_of spot.now log.now part.now) }
    ensures kept { IfOk result (IsKept log.now) }
{
    match *part {
        Part::Place => Ok(PartFound::Nothing),
        Part::Head(bound) | Part::Files(bound) => Ok(head_found(spot, log, bound)),
        Part::Feed(from, to) => feed_found(alloc, spot, log, from, to),
        Part::PinnedFiles(version) => Ok(pinned_found(spot, log, version.get())),
        Part::PinnedFeed(from, to) => pinned_feed(alloc, spot, log, from, to),
    }
}

// What makes the files of a part, nothing where none are asked or no version is found.
fn replay_for(
    alloc: Global,
    log: &SeenLog<'_>,
    part: &Part,
    found: &PartFound,
) -> Result<Option<Replay>, AllocError>
    requires { IsKept log.now found.now }
    ensures makes { IfOk result (MakesFound (parts.commits_for log.now part.now found.now)) }
    ensures fits { IfOk result (λ r. IfSome r CanReplay) }
{
    match (part, found) {
        (Part::Files(_) | Part::PinnedFiles(_), PartFound::Version(version)) => {
            Ok(Some(log.replay(alloc, *version)?))
        }
        _ => Ok(None),
    }
}

/// What is found of a log, with a version in place of its files, and what makes these. The error is want of memory.
pub(crate) fn part_found(
    alloc: Global,
    spot: &Spot,
    log: &SeenLog<'_>,
    part: &Part,
) -> Result<(PartFound, Option<Replay>), AllocError>
    ensures found { IfOk result (λ p. p.0 ≡ parts.version_of spot.now log.now part.now) }
    ensures makes { IfOk result (λ p. MakesFound (parts.commits_for log.now part.now (parts.version_of spot.now log.now part.now)) p.1) }
    ensures fits { IfOk result (λ p. IfSome p.1 CanReplay) }
{
    let found = version_of(alloc, spot, log, part)?;
    let replay = replay_for(alloc, log, part, &found)?;
    Ok((found, replay))
}
