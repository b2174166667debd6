// A hub with two callers, of which one calls. What a call needs is kept in the type, so that the tests' functions have no clauses.
ghost use Rattle.std.specs.Prelude.{◌≡◌, false};

use crate::objects::name;
use commit_check::Offer;
use edge_core::MemStore;
use json_tree::{Text, Version};
use log_actions::CommitTime;
use log_replay::Bound;
use log_store::Commits;
use share_book::{Ask, Found, Look, Part, PartFound, Pinned, SharedSnapshot, Want, Who};
use share_catalog::{CatalogName, TableName};
use share_hub::{CommitRefusal, Hub, HubPass};
use std::alloc::Global;
use std::mem::swap;
use std::sync::Wait;
use step_count::Steps;

/// What a call is told: a word, and up to two numbers.
pub(crate) type Told = (&'static str, u64, u64);

#[derive(Drop)]
pub(crate) struct Callers {
    pub(crate) hub: Hub,
    pub(crate) pass: HubPass,
    pub(crate) other: HubPass,
    ghost idle: { (pass.cell ≡ hub) × (pass.holds ≡ false) },
    ghost waits: { (other.cell ≡ hub) × (other.holds ≡ false) },
}

fn catalog_name(alloc: Global, text: &str) -> Option<CatalogName> {
    match String::from_str(alloc, text) {
        Ok(text) => CatalogName::of(text),
        Err(_) => None,
    }
}

fn table(alloc: Global) -> Option<TableName> {
    Some(TableName {
        share: catalog_name(alloc, "s1")?,
        schema: catalog_name(alloc, "sc")?,
        table: catalog_name(alloc, "t1")?,
    })
}

fn recipient(alloc: Global) -> Option<Who> {
    match String::from_str(alloc, "r1") {
        Ok(name) => Some(Who::Named(Text::of(name))),
        Err(_) => None,
    }
}

// What the recipient asks to be shown the names.
fn names_of(alloc: Global) -> Option<Ask> {
    let who = recipient(alloc)?;
    let want = Want::Names;
    Some(Ask { who, want })
}

// The same for the files of a version, or of the latest.
fn files_of(alloc: Global, version: Option<u64>) -> Option<Ask> {
    let part = match version {
        Some(version) => Part::PinnedFiles(Version::of(version)?),
        None => Part::Files(Bound::Latest),
    };
    let who = recipient(alloc)?;
    let want = Want::Table(table(alloc)?, part);
    Some(Ask { who, want })
}

// How many actions commits have.
fn actions_in(commits: &Commits) -> u64 {
    let mut actions = 0u64;
    for commit in commits.items() {
        actions = actions.saturating_add(commit.actions().len() as u64);
    }
    actions
}

fn left_from(base: &Option<SharedSnapshot>, actions: u64) -> Told {
    match base {
        Some(state) => ("begins with", state.version(), actions),
        None => ("begins with nothing", 0, actions),
    }
}

fn left_of(pinned: &Pinned) -> Option<Told> {
    match &pinned.replay {
        Some(replay) => Some(left_from(&replay.base, actions_in(&replay.commits))),
        None => None,
    }
}

fn found_told(found: &Found) -> Option<Told> {
    match found {
        Found::Names(names) => Some((
            "names",
            names.shares().len() as u64,
            names.tables().len() as u64,
        )),
        Found::Table(_, PartFound::Files(version, state)) => {
            Some(("files", *version, state.get().len()))
        }
        _ => None,
    }
}

fn seen_told(look: &Look) -> Option<Told> {
    match &look.seen {
        Some(seen) => found_told(&seen.found),
        None => None,
    }
}

impl Callers {
    pub(crate) fn open(alloc: Global, store: &mut MemStore) -> Option<Callers> {
        let Ok((hub, mut passes)) = Hub::open(alloc, store, 2) else {
            return None;
        };
        let pass = passes.pop()?;
        let other = passes.pop()?;
        Some(Callers { hub, pass, other })
    }

    /// The other caller calls from here on.
    pub(crate) fn change(&mut self) {
        swap(&mut self.pass, &mut self.other);
    }

    /// The other caller calls from here on, and is told what the first has seen.
    pub(crate) fn meet(&mut self) {
        self.change();
        self.hub.meet(&mut self.pass, &mut self.other);
    }

    /// A commit.
    pub(crate) fn commit<R: Wait>(
        &mut self,
        rt: &R,
        alloc: Global,
        store: &mut MemStore,
        now: CommitTime,
        offer: &Offer,
    ) -> Result<u64, CommitRefusal> {
        self.hub
            .commit(rt, alloc, &mut self.pass, store, now, offer)
    }

    /// How many commits are kept once those of others are looked for, and how many were found.
    pub(crate) fn refresh<R: Wait>(
        &mut self,
        rt: &R,
        alloc: Global,
        store: &mut MemStore,
    ) -> Option<Told> {
        let location = name(alloc, "tables/t1")?;
        match self
            .hub
            .refresh(rt, alloc, &mut self.pass, store, &location)
        {
            Ok(known) => Some(("kept", known.kept, u64::from(known.found))),
            Err(_) => None,
        }
    }

    /// Records that others stored are taken over: how many were found.
    pub(crate) fn found<R: Wait>(
        &mut self,
        rt: &R,
        alloc: Global,
        store: &mut MemStore,
    ) -> Option<Told> {
        match self.hub.refresh_catalog(rt, alloc, &mut self.pass, store) {
            Ok(known) => Some(("found", u64::from(known.found), 0)),
            Err(_) => None,
        }
    }

    // What the recipient is shown.
    fn look<R: Wait>(&mut self, rt: &R, alloc: Global, ask: &Ask) -> Option<Told> {
        let mut steps: Steps<()> = Steps::new();
        match self.hub.look(rt, alloc, &mut self.pass, ask, &mut steps) {
            Ok(look) => seen_told(&look),
            Err(_) => None,
        }
    }

    /// How many shares and tables it is shown.
    pub(crate) fn names<R: Wait>(&mut self, rt: &R, alloc: Global) -> Option<Told> {
        self.look(rt, alloc, &names_of(alloc)?)
    }

    /// The table's version and how many files it has, of a version or of the latest.
    pub(crate) fn files<R: Wait>(
        &mut self,
        rt: &R,
        alloc: Global,
        version: Option<u64>,
    ) -> Option<Told> {
        self.look(rt, alloc, &files_of(alloc, version)?)
    }

    // The version of the state with which a look would begin, and how many actions are left to replay.
    fn pin<R: Wait>(&mut self, rt: &R, alloc: Global, ask: &Ask) -> Option<Told> {
        match self.hub.pin(rt, alloc, &mut self.pass, ask) {
            Ok(pinned) => left_of(&pinned),
            Err(_) => None,
        }
    }

    /// The same of a look at the files of a version, or of the latest.
    pub(crate) fn left<R: Wait>(
        &mut self,
        rt: &R,
        alloc: Global,
        version: Option<u64>,
    ) -> Option<Told> {
        self.pin(rt, alloc, &files_of(alloc, version)?)
    }
}
