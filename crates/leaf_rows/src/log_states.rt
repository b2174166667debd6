// Logs: their states, the times of their versions, and their change feeds.
ghost use Rattle.std.specs.Prelude.{◌≡◌, [], None};

use crate::answer::Answer;
use crate::given::Given;
use change_feed::{
    Change, changes, cuts_join, later_commits_leave, ranges_join, versions_stand_alone,
};
use json_tree::{Pairs, Text};
use log_actions::{AddFile, Commit, MetaData, Protocol};
use log_commit::commit_of;
use log_replay::{
    Bound, Mark, NoState, Snapshot, SnapshotRef, Support, advance, mark_of, marks_of, replay,
    replay_ref, resolve,
};
use row_files::RowFault;
use serde_json::Value;
use std::alloc::{AllocError, Global};
use std::sync::Arc;
use step_count::Steps;

struct Work;

// More versions than a row has.
const MOST_VERSIONS: u64 = 1_000_000;

/// The commit of a text.
pub(crate) fn commit(alloc: Global, text: &[u8]) -> Result<Arc<Commit>, RowFault> {
    match commit_of(alloc, text) {
        Ok(commit) => Ok(Arc::new(alloc, commit)?),
        Err(_) => Err(RowFault::Unknown("a commit")),
    }
}

fn push_commit(commits: &mut Vec<Arc<Commit>>, text: &[u8], out: &mut Answer) {
    match commit(out.alloc(), text) {
        Ok(commit) => {
            if commits.push(commit).is_err() {
                out.fail(RowFault::NoMemory);
            }
        }
        Err(fault) => out.fail(fault),
    }
}

// The commits of the texts of a list.
fn commits_at(given: &Given, member: &'static str, out: &mut Answer) -> Vec<Arc<Commit>> {
    let mut commits = Vec::new(out.alloc());
    for text in given.list(member, out) {
        let text = out.made(given.file.text(text));
        push_commit(&mut commits, &text, out);
    }
    commits
}

// The calls here have no clauses, so that what is known of their answers doesn't burden the proofs of those that make them.
fn first_state(alloc: Global, log: &[Arc<Commit>]) -> Result<Snapshot, NoState> {
    if log.is_empty() {
        return Err(NoState::NoMemory);
    }
    let mut steps: Steps<Work> = Steps::new();
    replay(alloc, log, &mut steps)
}

fn later_state(
    alloc: Global,
    base: Option<&Snapshot>,
    commit: &Commit,
) -> Result<Snapshot, NoState> {
    match base {
        Some(base) if base.version() < MOST_VERSIONS => {
            let mut steps: Steps<Work> = Steps::new();
            advance(alloc, base, commit, &mut steps)
        }
        _ => Err(NoState::NoMemory),
    }
}

// Adds the state of a log, and those of the versions that come next, each made of the one before.
fn push_states(
    alloc: Global,
    log: &[Arc<Commit>],
    next: &[Arc<Commit>],
    states: &mut Vec<Snapshot>,
) -> Result<(), NoState> {
    states.push(first_state(alloc, log)?)?;
    for commit in next {
        let state = later_state(alloc, states.last(), commit)?;
        states.push(state)?;
    }
    Ok(())
}

fn is_same(one: Option<&AddFile>, file: &AddFile) -> bool {
    match one {
        Some(one) => one.path.as_str() == file.path.as_str() && one.size == file.size,
        None => false,
    }
}

fn file_at(state: &Snapshot, place: u64) -> Option<&AddFile> {
    if place < state.len() {
        return Some(state.file(place));
    }
    None
}

fn add_file(out: &mut Answer, file: &AddFile) {
    out.word(file.path.as_str());
    out.number(" ", file.size.get());
    out.word("\n");
}

// Adds a file that stands at that place among all, and whether it isn't found there, or by its path.
fn add_file_at(out: &mut Answer, state: &Snapshot, place: u64, file: &AddFile) {
    add_file(out, file);
    if !is_same(file_at(state, place), file) {
        out.word("not at its place\n");
    }
    if !is_same(state.find(file.path.as_str()), file) {
        out.word("not by its path\n");
    }
}

fn add_version(out: &mut Answer, version: u64, files: u64, empty: bool) {
    out.number("version ", version);
    out.number(", files ", files);
    out.flag(", empty ", empty);
}

fn add_table(out: &mut Answer, protocol: &Protocol, meta: &MetaData) {
    out.number("\nreader ", u64::from(protocol.min_reader.get()));
    out.number(", writer ", u64::from(protocol.min_writer.get()));
    out.word(", metaData ");
    out.word(meta.id.as_str());
    out.word("\n");
}

fn add_state(out: &mut Answer, state: &Snapshot) {
    add_version(out, state.version(), state.len(), state.is_empty());
    add_table(out, state.protocol(), state.meta());
    let mut place = 0u64;
    for file in state.files() {
        add_file_at(out, state, place, file);
        place = place.wrapping_add(1);
    }
    for txn in state.txns() {
        out.word("txn ");
        out.word(txn.app.as_str());
        out.whole(" ", txn.version);
        out.word("\n");
    }
}

// Adds the path, if the state has it.
fn add_path(out: &mut Answer, state: &Snapshot, path: &str) {
    if state.has(path) {
        out.word("has ");
        out.word(path);
        out.word("\n");
    }
}

// Adds the last txn of an application, if the state has it.
fn add_txn(out: &mut Answer, state: &Snapshot, app: &str) {
    if let Some(txn) = state.txn(app) {
        out.word("has txn ");
        out.word(app);
        out.whole(" ", txn.version);
        out.word("\n");
    }
}

// Adds a state, and which of the paths and of the applications of a row it has.
fn add_states(out: &mut Answer, states: &[Snapshot], paths: &[Value], apps: &[Value]) {
    for state in states {
        add_state(out, state);
        for path in paths {
            add_path(out, state, path.as_str().unwrap_or(""));
        }
        for app in apps {
            add_txn(out, state, app.as_str().unwrap_or(""));
        }
    }
}

// The states of a log and of the versions that come next, and why there is no further one.
fn replayed(given: &Given, out: &mut Answer) {
    let paths = given.list("paths", out);
    let apps = given.list("apps", out);
    let log = commits_at(given, "log", out);
    let next = commits_at(given, "next", out);
    let mut states = Vec::new(out.alloc());
    let ended = push_states(out.alloc(), &log, &next, &mut states);
    add_states(out, &states, paths, apps);
    if let Err(told) = &ended {
        out.show(told);
    }
}

fn add_copied(out: &mut Answer, copy: &Result<Snapshot, AllocError>) {
    match copy {
        Ok(copy) => add_state(out, copy),
        Err(_) => out.fail(RowFault::NoMemory),
    }
}

fn add_borrowed(out: &mut Answer, state: &SnapshotRef) {
    add_version(out, state.version(), state.len(), state.is_empty());
    add_table(out, state.protocol(), state.meta());
    for place in 0..state.len() {
        add_file(out, state.file(place));
    }
    let copy = state.copy(out.alloc());
    add_copied(out, &copy);
}

fn add_borrowed_read(out: &mut Answer, state: &Result<SnapshotRef, NoState>) {
    match state {
        Ok(state) => add_borrowed(out, state),
        Err(told) => out.show(told),
    }
}

// The borrowed state of a log, and its copy.
fn borrowed(given: &Given, out: &mut Answer) {
    let log = commits_at(given, "log", out);
    if log.is_empty() {
        out.lacks("log");
        return;
    }
    let mut steps: Steps<Work> = Steps::new();
    let state = replay_ref(out.alloc(), &log, &mut steps);
    add_borrowed_read(out, &state);
}

// What is told of the first commit that isn't admitted.
fn admit_all(alloc: Global, log: &[Arc<Commit>]) -> Result<(), NoState> {
    let mut support = Support::new();
    for commit in log {
        if support.versions() >= MOST_VERSIONS {
            return Err(NoState::NoMemory);
        }
        support.admit(alloc, commit)?;
    }
    Ok(())
}

fn admitted(given: &Given, out: &mut Answer) {
    match admit_all(out.alloc(), &commits_at(given, "log", out)) {
        Ok(()) => out.word("admitted"),
        Err(told) => out.show(&told),
    }
}

fn add_mark(out: &mut Answer, mark: &Mark) {
    out.whole("time ", mark.time);
    out.flag(", feed ", mark.feed);
    out.number(", metaData of ", mark.meta_at);
    out.number(", protocol of ", mark.protocol_at);
    out.word("\n");
}

// The marks of the versions of a log.
fn marks_in(log: &[Arc<Commit>], out: &mut Answer) -> Vec<Mark> {
    match marks_of(out.alloc(), log) {
        Ok(marks) => marks,
        Err(_) => {
            out.fail(RowFault::NoMemory);
            Vec::new(out.alloc())
        }
    }
}

fn marks(given: &Given, out: &mut Answer) {
    let log = commits_at(given, "log", out);
    for mark in &marks_in(&log, out) {
        add_mark(out, mark);
    }
}

fn mark_at(given: &Given, out: &mut Answer) -> Mark {
    Mark {
        time: i64::try_from(given.number("time", out)).unwrap_or(0),
        feed: given.flag("feed", out),
        meta_at: given.number("meta_at", out),
        protocol_at: given.number("protocol_at", out),
    }
}

// The mark of a commit that comes after the version of another mark.
fn next_mark(given: &Given, out: &mut Answer) {
    let former = mark_at(given, out);
    let version = given.number("version", out);
    for commit in &commits_at(given, "next", out) {
        add_mark(out, &mark_of(Some(&former), version, commit));
    }
}

fn bound_at(given: &Given, out: &mut Answer) -> Bound {
    match given.word("bound", out) {
        "version" => Bound::Version(given.number("at", out)),
        "at or before" => Bound::AtOrBefore(i128::from(given.number("at", out))),
        "at or after" => Bound::AtOrAfter(i128::from(given.number("at", out))),
        word => {
            if word != "latest" {
                out.lacks("bound");
            }
            Bound::Latest
        }
    }
}

fn meant(given: &Given, out: &mut Answer) {
    let bound = bound_at(given, out);
    let blocked = given.flag("blocked", out);
    let log = commits_at(given, "log", out);
    let marks = marks_in(&log, out);
    match resolve(&marks, blocked, bound) {
        Ok(version) => out.number("version ", version),
        Err(told) => out.show(&told),
    }
}

// Adds a change. What it hasn't is lent.
fn add_change(out: &mut Answer, change: &Change, values: &Pairs, stats: &Option<Text>)
    requires values { values.now ≡ [] }
    requires stats { stats.now ≡ None }
{
    out.show(&change.kind());
    out.word(" ");
    out.word(change.path().as_str());
    out.number(", size ", change.size().get());
    out.number(", values ", change.values(values).items().len() as u64);
    out.flag(", stats ", change.stats(stats).is_some());
    out.number(", version ", change.version().get());
    out.whole(", time ", change.time());
    out.word("\n");
}

fn add_changes(out: &mut Answer, changes: &[Change]) {
    let values = Pairs::new(out.alloc());
    let stats = None;
    for change in changes {
        add_change(out, change, &values, &stats);
    }
}

// How many changes there are, and with which version the last came.
fn add_count(out: &mut Answer, changes: &[Change]) {
    out.number("changes ", changes.len() as u64);
    if let Some(last) = changes.last() {
        out.number(", the last of version ", last.version().get());
    }
}

// Adds the feed of a range of a log's versions.
fn add_feed(out: &mut Answer, log: &[Arc<Commit>], range: (usize, usize), counted: bool) {
    let (first, end) = range;
    let marks = marks_in(log, out);
    if first > end || end > log.len() || end > marks.len() {
        out.lacks("end");
        return;
    }
    match changes(
        out.alloc(),
        &log[first..end],
        &marks[first..end],
        first as u64,
    ) {
        Ok(changes) if counted => add_count(out, &changes),
        Ok(changes) => add_changes(out, &changes),
        Err(told) => out.show(&told),
    }
}

fn feed(given: &Given, out: &mut Answer) {
    let counted = given.flag("counted", out);
    let first = given.number("first", out) as usize;
    let end = given.number("end", out) as usize;
    let log = commits_at(given, "log", out);
    add_feed(out, &log, (first, end), counted);
}

// The laws of the feed can be called, and do nothing.
fn laws(out: &mut Answer) {
    versions_stand_alone();
    ranges_join();
    later_commits_leave();
    cuts_join();
    out.word("called");
}

/// Answers a call, where it is one of these.
pub(crate) fn answer(call: &str, given: &Given, out: &mut Answer) -> bool {
    match call {
        "replay" => replayed(given, out),
        "borrow" => borrowed(given, out),
        "admit" => admitted(given, out),
        "marks" => marks(given, out),
        "next mark" => next_mark(given, out),
        "resolve" => meant(given, out),
        "feed" => feed(given, out),
        "laws of the feed" => laws(out),
        _ => return false,
    }
    true
}
