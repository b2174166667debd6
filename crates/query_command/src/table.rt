// The lines of a table.
ghost use Rattle.std.specs.Prelude.{◌≡◌, ◌++◌, ◌∷◌, [], ◌<◌, false, ◌≤◌, IfOk, OnOk, filter, flat_map, length, map};
ghost use Rattle.edge_core.specs.Faults.{Cause};
ghost use Rattle.edge_core.specs.Objects.{Between};
ghost use Rattle.log_store.specs.Loads.{Looked};
ghost use Rattle.share_lines.specs.Lines.{file_line, meta_line, protocol_line};
ghost use Rattle.std.specs.Arc.{arc_value};
ghost use Rattle.log_replay.specs.State.{state_of};
ghost use Rattle.log_replay.specs.Times.{marks_in, resolved};
ghost use Rattle.pred_tree.specs.Listing.{passes};
ghost use Rattle.query_command.specs.Query.{bound_of};
ghost use Rattle.query_command.specs.Table.{block_refusal, lines_in, lines_of_commits, lines_of_log, lines_of_state, state_lines, unresolved_by, unsupported_version};
ghost use Rattle.query_command.specs.TableSteps.{IsLog, IsVersion, failed_lines, load_fault, replay_fault};
ghost use Rattle.query_command.specs.declared.table.LinesFault.TheVariants as fault;

use crate::ends::TableRefusal;
use edge_core::{Name, Store};
use json_tree::Text;
use log_actions::{AddFile, Commit};
use log_replay::{
    Bound, NoState, ReplayRefusal, SnapshotRef, Unresolved, marks_of, replay_ref, resolve,
};
use log_store::{Block, BlockCause, LoadRefusal, Loaded, load};
use pred_tree::Filter;
use query_body::QueryBody;
use share_lines::{push_file, push_meta, push_protocol};
use std::alloc::{AllocError, Global};
use std::sync::Arc;
use step_count::Steps;

// Pushes the line of a file, if it is listed.
fn push_if_listed(
    alloc: Global,
    out: &mut Vec<u8>,
    file: &AddFile,
    listing: &Filter,
) -> Result<(), AllocError>
    ensures { OnOk result (out.new.items
        ≡ out.old.items ++ flat_map file_line (filter (passes listing.now) (file.now ∷ []))) }
{
    if listing.lists(file) {
        push_file(alloc, out, file)
    } else {
        Ok(())
    }
}

fn push_listed(
    alloc: Global,
    out: &mut Vec<u8>,
    snapshot: &SnapshotRef,
    listing: &Filter,
) -> Result<(), AllocError>
    ensures { OnOk result (out.new.items
        ≡ out.old.items ++ flat_map file_line (filter (passes listing.now) snapshot.now.files)) }
{
    for place in 0..snapshot.len() {
        push_if_listed(alloc, out, snapshot.file(place), listing)?;
    }
    Ok(())
}

// Room for the lines of all files, as a rule: the path stands twice, and quotes in statistics take two bytes.
fn room_for(snapshot: &SnapshotRef) -> usize {
    let mut room = 4096usize;
    for place in 0..snapshot.len() {
        let file = snapshot.file(place);
        let stats = match &file.stats {
            Some(stats) => stats.as_str().len(),
            None => 0,
        };
        room = room
            .saturating_add(file.path.as_str().len() * 2)
            .saturating_add(stats + stats / 4)
            .saturating_add(160);
    }
    room
}

fn lines_under(
    alloc: Global,
    listing: &Filter,
    snapshot: &SnapshotRef,
) -> Result<Vec<u8>, AllocError>
    ensures { IfOk result (λ v. v.items
        ≡ protocol_line ++ meta_line snapshot.now.meta ++ flat_map file_line (filter (passes listing.now) snapshot.now.files)) }
{
    let mut out = Vec::with_capacity(alloc, room_for(snapshot))?;
    push_protocol(&mut out)?;
    push_meta(alloc, &mut out, snapshot.meta())?;
    push_listed(alloc, &mut out, snapshot, listing)?;
    Ok(out)
}

// The lines of a state.
fn snapshot_lines(
    alloc: Global,
    hint: &Option<Text>,
    snapshot: &SnapshotRef,
) -> Result<Vec<u8>, AllocError>
    ensures { IfOk result (λ v. v.items ≡ state_lines hint.now snapshot.now) }
{
    let listing = Filter::of_hint(alloc, hint, snapshot.meta())?;
    lines_under(alloc, &listing, snapshot)
}

/// Why there are no lines of a table.
#[derive(Drop)]
pub(crate) enum LinesFault {
    /// The table isn't read.
    Refused(TableRefusal),
    /// A call of the store failed.
    StoreFault,
    /// Memory is wanting.
    NoMemory,
}

impl From<AllocError> for LinesFault {
    ghost from_gives = { λ _ e. e ≡ fault.NoMemory };

    fn from(_: AllocError) -> Self {
        LinesFault::NoMemory
    }
}

impl From<LoadRefusal> for LinesFault {
    ghost from_gives = { λ refusal e. e ≡ load_fault refusal };

    fn from(refusal: LoadRefusal) -> Self {
        match refusal {
            LoadRefusal::StoreFault => LinesFault::StoreFault,
            LoadRefusal::NoMemory => LinesFault::NoMemory,
        }
    }
}

// The version that isn't read.
fn unsupported_version(refusal: ReplayRefusal) -> u64
    ensures { result ≡ unsupported_version refusal }
{
    match refusal {
        ReplayRefusal::NoProtocol | ReplayRefusal::NoMetaData => 0,
        ReplayRefusal::Unsupported { version, .. } => version,
    }
}

impl From<NoState> for LinesFault {
    ghost from_gives = { λ none e. e ≡ replay_fault none };

    fn from(none: NoState) -> Self {
        match none {
            NoState::Refusal(refusal) => LinesFault::Refused(TableRefusal::Unsupported {
                version: unsupported_version(refusal),
            }),
            NoState::NoMemory => LinesFault::NoMemory,
        }
    }
}

fn block_refusal_of(block: &Block) -> TableRefusal
    ensures { result ≡ block_refusal block.now }
{
    let version = block.version;
    match block.cause {
        BlockCause::NeedsCheckpoint { lowest } => TableRefusal::NeedsCheckpoint { lowest },
        BlockCause::Gap => TableRefusal::Gap { version },
        BlockCause::Commit(_) => TableRefusal::Commit { version },
        BlockCause::Replay(_) => TableRefusal::Unsupported { version },
        BlockCause::TooLarge => TableRefusal::TooLarge { version },
    }
}

impl From<Unresolved> for LinesFault {
    ghost from_gives = { λ refused e. e ≡ fault.Refused (unresolved_by refused) };

    fn from(refused: Unresolved) -> Self {
        LinesFault::Refused(match refused {
            Unresolved::Unsupported => TableRefusal::NoCommits,
            Unresolved::VersionRange => TableRefusal::VersionRange,
            Unresolved::TimestampRange => TableRefusal::TimestampRange,
        })
    }
}

// The version that a query asks for.
fn bound_by(query: &QueryBody) -> Bound
    ensures { result ≡ bound_of query.now }
{
    match (query.version, query.moment) {
        (Some(version), _) => Bound::Version(version),
        (None, Some(moment)) => Bound::AtOrBefore(moment),
        (None, None) => Bound::Latest,
    }
}

// The lines of the state after some commits.
fn replayed_lines<L>(
    alloc: Global,
    hint: &Option<Text>,
    commits: &[Arc<Commit>],
    steps: &mut Steps<L>,
) -> Result<Vec<u8>, LinesFault>
    requires { 0 < length commits.now }
    ensures lines { IsLog (lines_of_state hint.now (state_of (map arc_value commits.now))) result }
    ensures inside { failed_lines result ≡ false }
{
    let snapshot = replay_ref(alloc, commits, steps)?;
    Ok(snapshot_lines(alloc, hint, &snapshot)?)
}

// The version that a query asks for in a log without a block.
fn version_of(alloc: Global, query: &QueryBody, commits: &[Arc<Commit>]) -> Result<u64, LinesFault>
    ensures version { IsVersion (resolved (marks_in (map arc_value commits.now)) false (bound_of query.now)) result }
    ensures kept { IfOk result (λ version. version < length commits.now) }
{
    let marks = marks_of(alloc, commits)?;
    Ok(resolve(&marks, false, bound_by(query))?)
}

// The lines of a log without a block.
fn commit_lines<L>(
    alloc: Global,
    query: &QueryBody,
    commits: &[Arc<Commit>],
    steps: &mut Steps<L>,
) -> Result<Vec<u8>, LinesFault>
    ensures lines { IsLog (lines_of_commits query.now (map arc_value commits.now)) result }
    ensures inside { failed_lines result ≡ false }
{
    let version = version_of(alloc, query, commits)?;
    replayed_lines(alloc, &query.hint, &commits[..version as usize + 1], steps)
}

fn log_lines<L>(
    alloc: Global,
    query: &QueryBody,
    log: &Loaded,
    steps: &mut Steps<L>,
) -> Result<Vec<u8>, LinesFault>
    ensures lines { IsLog (lines_of_log query.now log.now) result }
    ensures inside { failed_lines result ≡ false }
{
    match &log.block {
        Some(block) => Err(LinesFault::Refused(block_refusal_of(block))),
        None => commit_lines(alloc, query, log.commits.items(), steps),
    }
}

/// The printed lines of the table that answer a query: protocol, metaData, and the files of the
/// version that it asks for which its predicate doesn't make False.
///
/// `LinesFault::Refused` comes exactly where the table isn't read or hasn't the version,
/// `StoreFault` only where the store's count of faults rose in this call.
pub(crate) fn table_lines<W: Store, L>(
    alloc: Global,
    store: &mut W,
    location: &Name,
    query: &QueryBody,
    steps: &mut Steps<L>,
) -> Result<Vec<u8>, LinesFault>
    requires { length location.now ≤ 256 }
    ensures table { Between (W.objects store.old) (W.objects store.new)
        (λ objects. IsLog (lines_in location.now query.now objects) result) }
    ensures looked { Looked (W.objects store.old) (W.objects store.new)
        (W.alone store.old) (W.alone store.new) }
    ensures cause { Cause (W.faults store.old) (W.faults store.new) (failed_lines result) }
    ensures stored { W.stored store.new ≡ W.stored store.old }
{
    let log = load(alloc, store, location)?;
    log_lines(alloc, query, &log, steps)
}
