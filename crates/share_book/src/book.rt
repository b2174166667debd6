// What the turn is taken for.
ghost use Rattle.std.specs.Prelude.{◌≡◌, ℕ, ◌<◌, ◌≤◌, ◌+◌, ◌-◌, ◌++◌, ◌∷◌, [], length, slice_get, slice_index, None, Some, IfOk, IfSome, OnOk, OnErr, IsSome, MatchBool, true, false, drop, map, position};
ghost use Rattle.std.specs.List.{list_any};
ghost use Rattle.share_catalog.specs.Catalogue.{bound_location, refusal_of};
ghost use Rattle.share_catalog.specs.CatalogState.{unless};
ghost use Rattle.log_actions.specs.CommitTexts.{commit_text};
ghost use Rattle.share_book.specs.History as history;
ghost use Rattle.share_book.specs.History.{caller_of, entry, open_on, pending, starts, table_on};
ghost use Rattle.share_book.specs.Legal.{Follows, IsKeptLog, IsLegal, May, TakesCommit, There, TakesLog, has_log, locations_of, log_at};
ghost use Rattle.log_replay.specs.Times.{marks_in};
ghost use Rattle.share_book.specs.Looked.{commits_by, found_by, log_by, table_by};
ghost use Rattle.share_book.specs.Bases.{CanReplay, FilesStand, IsStateIn, MakesFound, MakesHead, MakesVersion};
ghost use Rattle.share_book.specs.Looks.{commits_of, glance_of, table_commits, who_of};
ghost use Rattle.share_book.specs.Parts.{version_of};
ghost use Rattle.share_book.specs.Tables.{IsState};
ghost use Rattle.share_book.specs.Views as views;
ghost use Rattle.share_book.specs.Views.{held_view};
ghost use Rattle.share_catalog.specs.Views.{shared};
ghost use Rattle.share_book.specs.Pasts.{Raised};
ghost use Rattle.share_book.specs.Books.{HasRooms, OthersRest, location, OwnIsLawful, commit_act, committed, is_table_at, added, edit_act, edited, loaded, rests};
ghost use Rattle.share_book.specs.declared.entry.Act.TheVariants as act;

use crate::entry::{Act, Entry, SharedCommit, SharedEdit};
use crate::log_part::{SeenLog, part_found};
use crate::look::{Ask, Found, Look, Part, PartFound, Pinned, Seen, Want};
use crate::past::Past;
use crate::replay::Replay;
use crate::snapshot::SharedSnapshot;
use crate::snapshots::MOST;
use crate::spots::{names_of, recipient_of, spot_of};
use crate::table::{LogState, ReadyLog, Table};
use edge_core::Name;
use json_tree::Text;
use log_actions::Commit;
use log_replay::Mark;
use log_store::Commits;
use share_catalog::{Catalog, Edit, EditRefusal, TableName};
use std::alloc::{AllocError, Global};
use std::marker::Model;
use std::sync::Arc;
use turn_cell::Kept;

/// The catalogue, the tables' logs and the history of both.
#[derive(Drop)]
pub struct Book {
    past: Past,
    pub(crate) catalog: Catalog,
    tables: Vec<Table>,
}

impl Model for Book {
    ghost use Rattle.std.specs.Prelude.{map, vec_len};
    ghost use Rattle.std.specs.Vec.{vec_capacity};
    ghost use Rattle.share_book.specs.BookView.{BookView};

    ghost Value = { BookView };

    ghost use Rattle.share_book.specs.Books.{IsBook, room_left};

    ghost view = { λ b. record { past = b.past; edit_room = b.catalog.spare; commit_rooms = map room_left b.tables.items } };

    ghost invariant = { λ b. IsBook b.past b.catalog.edits b.tables.items (vec_len b.tables) (vec_capacity b.tables) };
}

// The act of an edit.
fn edit_act(own: bool, edit: SharedEdit) -> Act
    ensures { result ≡ edit_act own edit }
{
    if own {
        Act::OwnEdit(edit)
    } else {
        Act::FoundEdit(edit)
    }
}

// Whether a table's log is stored at the location.
fn has_table(tables: &[Table], location: &str) -> bool
    ensures { result ≡ list_any (is_table_at location.now) tables.now }
{
    tables.iter().any(|table| is_table_at(table, location))
}

// Where the tables are stored, in their order.
fn locations_of(alloc: Global, tables: &[Table]) -> Result<Vec<Name>, AllocError>
    ensures { IfOk result (λ v. v.items ≡ map location tables.now) }
{
    let mut names = Vec::new(alloc);
    for table in tables {
        names.push(table.location().copy(alloc)?)?;
    }
    Ok(names)
}

// Which of the tables is stored at the location.
fn place_of(tables: &[Table], location: &str) -> Option<usize>
    ensures { result ≡ position (is_table_at location.now) tables.now }
{
    tables.iter().position(|table| is_table_at(table, location))
}

fn is_table_at(table: &Table, location: &str) -> bool
    ensures { result ≡ is_table_at location.now table.now }
{
    table.location().as_str() == location
}

// What is found where no recipient is.
fn nobody(at: u64) -> Pinned
    ensures { result ≡ record { look = record { at = at; seen = None }; replay = None; is_later = false } }
{
    Pinned {
        look: Look { at, seen: None },
        replay: None,
        is_later: false,
    }
}

// The table with the most states that are kept, where all have as many as may be.
fn fullest(tables: &[Table]) -> Option<usize>
    ensures { IfSome result (λ place. place < length tables.now) }
{
    let mut all = 0usize;
    let mut most = 0;
    let mut fullest = None;
    for place in 0..tables.len() {
        let count = tables[place].snapshots().len();
        all = all.saturating_add(count);
        if count > most {
            most = count;
            fullest = Some(place);
        }
    }
    if all < MOST { None } else { fullest }
}

// Where all tables have as many states as may be, the one with the most lets go of one.
fn make_room(tables: &mut [Table])
    ensures { tables.new ≡ tables.old }
{
    if let Some(place) = fullest(tables) {
        tables[place].drop_last();
    }
}

// Keeps a state of the table at that place. The error is want of memory.
fn keep_at(tables: &mut [Table], place: usize, state: SharedSnapshot) -> Result<(), AllocError>
    requires there { place < length tables.old }
    requires state { IfSome (slice_get tables.old place) (λ t. IsStateIn t.log.commits state) }
    ensures { tables.new ≡ tables.old }
{
    make_room(tables);
    tables[place].keep(state)
}

// The act of a commit.
fn commit_act(own: bool, commit: SharedCommit) -> Act
    ensures { result ≡ commit_act own commit }
{
    if own {
        Act::Own(commit)
    } else {
        Act::Found(commit)
    }
}

impl Book {
    /// A book of no entries.
    pub fn new(alloc: Global) -> Result<Book, AllocError>
        ensures { IfOk result (λ b. b ≡ record { past = record { history = []; rooms = 0 ∷ []; log_room = 0 }; edit_room = 0; commit_rooms = [] }) }
    {
        Ok(Book {
            past: Past::new(alloc)?,
            catalog: Catalog::new(alloc),
            tables: Vec::new(alloc),
        })
    }

    /// The number of entries.
    pub fn len(&self) -> u64
        ensures length { result ≡ length self.now.past.history }
        ensures legal { IsLegal self.now.past.history }
        ensures rooms { length self.now.past.rooms ≡ length (starts self.now.past.history) + 1 }
    {
        self.past.len()
    }

    /// Takes memory for four entries on log 0, an edit and a log. The error is want of memory; some of it may be taken then.
    pub fn reserve_catalog(&mut self, alloc: Global) -> Result<(), AllocError>
        ensures raised { Raised 0 self.old.past self.new.past }
        ensures tables { self.new.commit_rooms ≡ self.old.commit_rooms }
        ensures logs { self.old.past.log_room ≤ self.new.past.log_room }
        ensures edits { 1 ≤ self.old.edit_room → 1 ≤ self.new.edit_room }
        ensures ready { OnOk result (HasRooms self.new) }
        ensures others { OthersRest 0 self.old → OthersRest 0 self.new }
    {
        self.past.len();
        self.tables.reserve(1)?;
        self.catalog.reserve(alloc)?;
        self.past.reserve_log()?;
        self.past.reserve(0)?;
        Ok(())
    }

    /// Takes memory for four entries on a table's log, and a commit. The error is want of memory; some of it may be taken then.
    pub fn reserve(&mut self, log: u32) -> Result<(), AllocError>
        requires there { log < length self.old.past.rooms }
        requires table { 0 < log }
        ensures raised { Raised log self.old.past self.new.past }
        ensures logs { self.new.past.log_room ≡ self.old.past.log_room }
        ensures edits { self.new.edit_room ≡ self.old.edit_room }
        ensures commits { (i : ℕ) → slice_index self.old.commit_rooms i ≤ slice_index self.new.commit_rooms i }
        ensures ready { OnOk result ((4 ≤ slice_index self.new.past.rooms log) × (1 ≤ slice_index self.new.commit_rooms (log - 1))) }
        ensures others { OthersRest log self.old → OthersRest log self.new }
    {
        self.past.len();
        let table = &mut self.tables[log as usize - 1];
        table.reserve()?;
        self.past.reserve(log)?;
        Ok(())
    }

    /// The marks of a table's versions, version 0 first.
    pub fn marks(&self, log: u32) -> &[Mark]
        requires there { log < length self.now.past.rooms }
        requires table { 0 < log }
        ensures { There (table_on log self.now.past.history) (λ t. result.now ≡ marks_in t.commits) }
    {
        self.past.len();
        let table = &self.tables[log as usize - 1];
        table.marks()
    }

    /// The number of the log that was loaded from the location, from 1 on, none where none was.
    pub fn log_of(&self, location: &str) -> Option<u32>
        ensures { result ≡ log_at self.now.past.history location.now }
    {
        self.past.len();
        let place = place_of(&self.tables, location)?;
        Some(place as u32 + 1)
    }

    /// The locations of the logs, in the order in which they were loaded. The error is want of memory.
    pub fn locations(&self, alloc: Global) -> Result<Vec<Name>, AllocError>
        ensures { IfOk result (λ v. v.items ≡ locations_of self.now.past.history) }
    {
        locations_of(alloc, &self.tables)
    }

    /// Adds a Begin, unless one is open on the log. Then nothing changes.
    pub fn begin(&mut self, caller: u32, log: u32) -> bool
        requires there { log < length self.old.past.rooms }
        requires room { 0 < slice_index self.old.past.rooms log }
        requires settled { pending self.old.past.history ≡ None }
        ensures others { OthersRest log self.old → OthersRest log self.new }
        ensures begun { MatchBool result ((open_on log self.old.past.history ≡ None) × (self.new ≡ added self.old (entry caller log act.Begin)))
            (IsSome (open_on log self.old.past.history) × (self.new ≡ self.old)) }
    {
        self.past.len();
        if self.past.holder(log).is_some() {
            return false;
        }
        self.past.push(Entry {
            caller,
            log,
            act: Act::Begin,
        });
        true
    }

    /// Ends what the caller began.
    pub fn abort(&mut self, caller: u32, log: u32)
        requires there { log < length self.old.past.rooms }
        requires room { 0 < slice_index self.old.past.rooms log }
        requires settled { pending self.old.past.history ≡ None }
        requires begun { open_on log self.old.past.history ≡ Some caller }
        ensures added { self.new ≡ added self.old (entry caller log act.Abort) }
        ensures others { OthersRest log self.old → OthersRest log self.new }
    {
        self.past.push(Entry {
            caller,
            log,
            act: Act::Abort,
        });
    }

    /// The catalogue's answer to an edit.
    pub fn admits(&self, edit: &Edit) -> Result<(), EditRefusal>
        ensures { result ≡ unless (refusal_of (history.edits self.now.past.history) edit.now) }
    {
        self.catalog.admits(edit)
    }

    /// How many edits there are.
    pub fn edit_count(&self) -> u64
        ensures { result ≡ length (history.edits self.now.past.history) }
    {
        self.catalog.count()
    }

    /// Whether a log was loaded from the location.
    pub fn has_log(&self, location: &str) -> bool
        ensures { result ≡ has_log self.now.past.history location.now }
    {
        has_table(&self.tables, location)
    }

    /// Adds an edit, or tells why it isn't accepted. Then nothing changes.
    pub fn edit(
        &mut self,
        caller: u32,
        edit: Edit,
        shared: SharedEdit,
        own: bool,
    ) -> Result<(), EditRefusal>
        requires room { 0 < slice_index self.old.past.rooms 0 }
        requires spare { 1 ≤ self.old.edit_room }
        requires begun { open_on 0 self.old.past.history ≡ Some caller }
        requires same { shared ≡ edit }
        requires located { IfSome (bound_location edit) (λ location. has_log self.old.past.history location ≡ true) }
        requires follows { Follows (pending self.old.past.history) (edit_act own edit) }
        ensures answer { result ≡ unless (refusal_of (history.edits self.old.past.history) edit) }
        ensures accepted { OnOk result (self.new ≡ edited self.old caller own edit) }
        ensures refused { OnErr result (self.new ≡ self.old) }
        ensures others { OthersRest 0 self.old → OthersRest 0 self.new }
    {
        self.past.len();
        self.catalog.apply(edit)?;
        self.past.push(Entry {
            caller,
            log: 0,
            act: edit_act(own, shared),
        });
        Ok(())
    }

    /// Adds a commit to a table's log.
    pub fn commit(
        &mut self,
        caller: u32,
        log: u32,
        commit: Arc<Commit>,
        shared: SharedCommit,
        bytes: u64,
        own: bool,
    )
        requires there { log < length self.old.past.rooms }
        requires room { 0 < slice_index self.old.past.rooms log }
        requires spare { 0 < slice_index self.old.commit_rooms (log - 1) }
        requires settled { pending self.old.past.history ≡ None }
        requires begun { open_on log self.old.past.history ≡ Some caller }
        requires same { shared ≡ commit.value }
        requires bytes { bytes ≡ length (commit_text commit.value) }
        requires takes { TakesCommit self.old.past.history log commit.value }
        requires lawful { OwnIsLawful own self.old.past.history log commit.value }
        ensures committed { self.new ≡ committed self.old caller log own commit.value }
        ensures others { OthersRest log self.old → OthersRest log self.new }
    {
        self.past.len();
        let table = &mut self.tables[log as usize - 1];
        table.push(commit, bytes);
        self.past.push(Entry {
            caller,
            log,
            act: commit_act(own, shared),
        });
    }

    /// Blocks a table's log at its length.
    pub fn block(&mut self, caller: u32, log: u32)
        requires there { log < length self.old.past.rooms }
        requires room { 0 < slice_index self.old.past.rooms log }
        requires settled { pending self.old.past.history ≡ None }
        requires begun { open_on log self.old.past.history ≡ Some caller }
        requires free { (0 < log) × There (table_on log self.old.past.history) (λ t. t.block ≡ None) }
        ensures blocked { There (table_on log self.old.past.history) (λ t. self.new ≡ added self.old (entry caller log (act.Blocked (length t.commits)))) }
        ensures others { OthersRest log self.old → OthersRest log self.new }
    {
        self.past.len();
        let table = &mut self.tables[log as usize - 1];
        let version = table.block();
        self.past.push(Entry {
            caller,
            log,
            act: Act::Blocked(version),
        });
    }

    /// The commits of a table's log from a version on, none where it has no more. The error is want of memory.
    pub fn commits_from(&self, alloc: Global, log: u32, version: u64) -> Result<Commits, AllocError>
        requires there { log < length self.now.past.rooms }
        requires table { 0 < log }
        ensures { IfOk result (λ v. There (table_on log self.now.past.history) (λ t. v ≡ drop version t.commits)) }
    {
        self.past.len();
        let table = &self.tables[log as usize - 1];
        table.commits_from(alloc, version)
    }

    /// How far a table's log is known.
    pub fn state(&self, log: u32) -> LogState
        requires there { log < length self.now.past.rooms }
        requires table { 0 < log }
        ensures { There (table_on log self.now.past.history) (λ t. IsState t result × IsKeptLog t.commits) }
    {
        self.past.len();
        let table = &self.tables[log as usize - 1];
        table.state()
    }

    /// Adds a table's log. The next entry is an edit that binds its location.
    pub fn load_log(&mut self, caller: u32, log: ReadyLog)
        requires room { 0 < slice_index self.old.past.rooms 0 }
        requires line { 0 < self.old.past.log_room }
        requires settled { pending self.old.past.history ≡ None }
        requires begun { open_on 0 self.old.past.history ≡ Some caller }
        requires fresh { TakesLog self.old.past.history 0 log }
        ensures loaded { self.new ≡ loaded self.old caller log }
        ensures others { OthersRest 0 self.old → OthersRest 0 self.new }
    {
        self.past.len();
        let ReadyLog { table, start } = log;
        self.tables.push_reserved(table);
        self.past.push_load(caller, start);
    }

    /// What is found for one request at this point of the history: a plain function of what is held of the recipient's tables and
    /// of what is asked. Files are begun with the latest state of their table that is kept, up to their version. The error is want of memory.
    pub fn pin(&self, alloc: Global, ask: &Ask) -> Result<Pinned, AllocError>
        ensures at { IfOk result (λ p. p.look.at ≡ length self.now.past.history) }
        ensures seen { IfOk result (λ p. p.look.seen ≡ glance_of (held_view self.now.past.history (who_of ask.now.who)) ask.now.want) }
        ensures makes { IfOk result (λ p. MakesFound (commits_of (held_view self.now.past.history (who_of ask.now.who)) ask.now.want) p.replay) }
        ensures fits { IfOk result (λ p. IfSome p.replay CanReplay) }
    {
        let at = self.past.len();
        let Some(recipient) = recipient_of(&self.catalog, &ask.who) else {
            return Ok(nobody(at));
        };
        let Some(credential) = self.catalog.credential(recipient) else {
            return Ok(nobody(at));
        };
        let (found, replay) = self.found(alloc, recipient, &ask.want)?;
        let seen = Seen {
            recipient: Text::of(String::from_str(alloc, recipient)?),
            expires: credential.expires,
            found,
        };
        Ok(Pinned {
            look: Look {
                at,
                seen: Some(seen),
            },
            replay,
            is_later: ask.is_later(),
        })
    }

    /// The state with which a look began is the one used last.
    pub fn touch(&mut self, pinned: &Pinned)
        ensures { self.new ≡ self.old }
    {
        let (Some(seen), Some(replay)) = (&pinned.look.seen, &pinned.replay) else {
            return;
        };
        let (Found::Table(spot, _), Some(base)) = (&seen.found, &replay.base) else {
            return;
        };
        if let Some(place) = place_of(&self.tables, spot.location().as_str()) {
            self.tables[place].touch(base.version());
        }
    }

    /// Keeps the state of the files that a look found, for later ones to begin with. Of all tables 64 are kept: then the table with the
    /// most lets go of the one that was used least recently. The error is want of memory; nothing is kept then.
    pub fn keep(&mut self, look: &Look) -> Result<(), AllocError>
        requires { IfSome look.now.seen (λ s. FilesStand self.old.past.history s.found) }
        ensures { self.new ≡ self.old }
    {
        let Some(seen) = &look.seen else {
            return Ok(());
        };
        let Found::Table(spot, part) = &seen.found else {
            return Ok(());
        };
        let PartFound::Files(_, state) = part else {
            return Ok(());
        };
        match place_of(&self.tables, spot.location().as_str()) {
            Some(place) => keep_at(&mut self.tables, place, state.share()?),
            None => Ok(()),
        }
    }

    /// Keeps a state of a table's log in the same way.
    pub fn keep_state(&mut self, log: u32, state: SharedSnapshot) -> Result<(), AllocError>
        requires there { log < length self.old.past.rooms }
        requires table { 0 < log }
        requires state { There (table_on log self.old.past.history) (λ t. IsStateIn t.commits state) }
        ensures { self.new ≡ self.old }
    {
        self.past.len();
        keep_at(&mut self.tables, log as usize - 1, state)
    }

    /// What makes the state of a version of a table's log, none where the log doesn't have it. The error is want of memory.
    pub fn replay_to(
        &self,
        alloc: Global,
        log: u32,
        version: u64,
    ) -> Result<Option<Replay>, AllocError>
        requires there { log < length self.now.past.rooms }
        requires table { 0 < log }
        ensures makes { IfOk result (λ r. There (table_on log self.now.past.history) (λ t. MakesVersion version t.commits r)) }
        ensures fits { IfOk result (λ r. IfSome r CanReplay) }
    {
        self.past.len();
        let table = &self.tables[log as usize - 1];
        SeenLog::of(table).replay_to(alloc, version)
    }

    /// What makes the state after all commits of a table's log, none where it has none. The error is want of memory.
    pub fn head(&self, alloc: Global, log: u32) -> Result<Option<Replay>, AllocError>
        requires there { log < length self.now.past.rooms }
        requires table { 0 < log }
        ensures makes { IfOk result (λ r. There (table_on log self.now.past.history) (λ t. MakesHead t.commits r)) }
        ensures fits { IfOk result (λ r. IfSome r CanReplay) }
    {
        self.past.len();
        let table = &self.tables[log as usize - 1];
        SeenLog::of(table).head(alloc)
    }

    // What a recipient that is there finds, and what makes its files.
    fn found(
        &self,
        alloc: Global,
        recipient: &str,
        want: &Want,
    ) -> Result<(Found, Option<Replay>), AllocError>
        ensures found { IfOk result (λ f. f.0 ≡ found_by version_of self.now.past.history recipient.now want.now) }
        ensures makes { IfOk result (λ f. MakesFound (commits_by self.now.past.history recipient.now want.now) f.1) }
        ensures fits { IfOk result (λ f. IfSome f.1 CanReplay) }
    {
        match want {
            Want::Names => {
                let names = names_of(alloc, &self.catalog, recipient)?;
                Ok((Found::Names(names), None))
            }
            Want::Table(table, part) => self.table_found(alloc, recipient, table, part),
        }
    }

    // What it finds of a table.
    fn table_found(
        &self,
        alloc: Global,
        recipient: &str,
        table: &TableName,
        part: &Part,
    ) -> Result<(Found, Option<Replay>), AllocError>
        ensures found { IfOk result (λ f. f.0 ≡ table_by version_of self.now.past.history part.now (shared (history.edits self.now.past.history) recipient.now table.now)) }
        ensures makes { IfOk result (λ f. MakesFound (table_commits (log_by self.now.past.history (shared (history.edits self.now.past.history) recipient.now table.now)) part.now (shared (history.edits self.now.past.history) recipient.now table.now)) f.1) }
        ensures fits { IfOk result (λ f. IfSome f.1 CanReplay) }
    {
        let Some(spot) = spot_of(alloc, &self.catalog, recipient, table)? else {
            return Ok((Found::NoTable, None));
        };
        let log = self.seen_log(spot.location().as_str());
        let (found, replay) = part_found(alloc, &spot, &log, part)?;
        Ok((Found::Table(spot, found), replay))
    }

    // The log of a location.
    fn seen_log(&self, location: &str) -> SeenLog<'_>
        ensures { result ≡ views.log_at self.now.past.history location.now }
    {
        match place_of(&self.tables, location) {
            Some(place) => SeenLog::of(&self.tables[place]),
            None => SeenLog::empty(),
        }
    }
}

impl Kept for Book {
    type Entry = Entry;

    ghost caller = { caller_of };

    ghost history = { λ b. b.past.history };

    ghost may = { May };

    ghost rests = { rests };

    fn count(&self) -> u64 {
        self.len()
    }
}
