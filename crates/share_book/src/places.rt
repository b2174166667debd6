// Lists of the files that restrictions show of a state, so that a page needn't walk over those before it.
ghost use Rattle.std.specs.Prelude.{◌≡◌, [], All, Contains, IfOk, IfSome, bytes_eq, filter, length, map, option_copied, unwrap_or};
ghost use Rattle.std.specs.Arc.{arc_value};
ghost use Rattle.log_replay.specs.State.{State};
ghost use Rattle.pred_tree.specs.Shown.{shown_in};
ghost use Rattle.share_book.specs.Placed.{AreAt, IsListOf};

use json_tree::Text;
use log_replay::Snapshot;
use pred_tree::Shown;
use std::alloc::{AllocError, Global};
use std::marker::Model;
use std::sync::Arc;

// Of how many restrictions lists of one state are kept.
const MOST: usize = 16;

/// The places of the files of a state that a restriction shows.
#[derive(Drop)]
pub(crate) struct Places {
    only: Text,
    items: Vec<u32>,
}

impl Model for Places {
    ghost use Rattle.share_book.specs.Placed.{PlacesView};

    ghost Value = { PlacesView };

    ghost view = { λ p. record { only = p.only; places = p.items.items } };
}

impl Places {
    // Whether it is of that restriction.
    fn is_of(&self, only: &str) -> bool
        ensures { result ≡ bytes_eq self.now.only only.now }
    {
        self.only.as_str() == only
    }

    fn places(&self) -> &[u32]
        ensures { result.now ≡ self.now.places }
    {
        &self.items
    }
}

/// Such lists of one state, the one that was made last first.
#[derive(Drop)]
pub(crate) struct Lists {
    items: Vec<Arc<Places>>,
}

impl Model for Lists {
    ghost use Rattle.std.specs.Prelude.{List, map};
    ghost use Rattle.std.specs.Arc.{arc_value};
    ghost use Rattle.share_book.specs.Placed.{PlacesView};

    ghost Value = { List PlacesView };

    ghost view = { λ l. map arc_value l.items.items };
}

// The places of the files that are shown, where there are so many files.
fn shown_places(
    alloc: Global,
    snapshot: &Snapshot,
    shown: &Shown,
    len: u32,
) -> Result<Vec<u32>, AllocError>
    requires { len ≡ length snapshot.now.files }
    ensures { IfOk result (λ places. AreAt snapshot.now.files places.items (filter (shown_in shown.now) snapshot.now.files)) }
{
    let mut places = Vec::new(alloc);
    for at in 0..len {
        if shown.shows(snapshot.file(at as u64)) {
            places.push(at)?;
        }
    }
    Ok(places)
}

/// The places of the files that the restriction shows, none where the state has 2^32 files or more. The error is want of memory.
pub(crate) fn places_of(
    alloc: Global,
    snapshot: &Snapshot,
    only: &str,
) -> Result<Option<Places>, AllocError>
    ensures { IfOk result (λ list. IfSome list (IsListOf snapshot.now)) }
{
    let Ok(len) = u32::try_from(snapshot.len()) else {
        return Ok(None);
    };
    let shown = Shown::of(alloc, Some(only), snapshot.meta())?;
    let items = shown_places(alloc, snapshot, &shown, len)?;
    let only = Text::of(String::from_str(alloc, only)?);
    Ok(Some(Places { only, items }))
}

fn items_of(lists: Option<&Lists>) -> &[Arc<Places>]
    ensures { map arc_value result.now ≡ unwrap_or (option_copied lists.entry) [] }
{
    match lists {
        Some(lists) => &lists.items,
        None => &[],
    }
}

impl Lists {
    /// The places that the restriction shows, none where they aren't listed.
    pub(crate) fn find(&self, only: &str) -> Option<&[u32]>
        ensures { IfSome result (λ places. Contains self.now (record { only = only.now; places = places.now })) }
    {
        for list in &self.items {
            let list: &Places = list;
            if list.is_of(only) {
                return Some(list.places());
            }
        }
        None
    }

    /// A list more. Of the older ones those are kept that are among the latest 16, while all together have no more than twice as many
    /// places as there are files. The error is want of memory.
    pub(crate) fn with(
        alloc: Global,
        older: Option<&Lists>,
        list: Places,
        files: u64,
    ) -> Result<Lists, AllocError>
        ensures { (s : State) → IfSome (option_copied older.entry) (All (IsListOf s)) → IsListOf s list → IfOk result (All (IsListOf s)) }
    {
        let mut places = list.items.len() as u64;
        let mut items = Vec::new(alloc);
        items.push(Arc::new(alloc, list)?)?;
        for list in items_of(older) {
            places = places.saturating_add(list.items.len() as u64);
            if items.len() < MOST && places / 2 <= files {
                items.push(Arc::try_clone(list)?)?;
            }
        }
        Ok(Lists { items })
    }
}
