// What an offer adds, removes and counts for, looked up by its text.
ghost use Rattle.std.specs.Prelude.{◌≡◌, ℕ, List, [], IfOk, OnOk, option_map};
ghost use Rattle.log_commit.specs.Passes.{holds};
ghost use Rattle.commit_check.specs.Lookups.{has_one, puts_one};

use crate::actions::{added_path, app_of, removed_path};
use log_actions::Action;
use std::alloc::{AllocError, Global};
use std::collections::BTreeMap;

// The paths that actions add, those that they remove, and the applications whose txns they have.
#[derive(Drop)]
pub(crate) struct Offered<'a> {
    pub(crate) added: BTreeMap<&'a str, ()>,
    pub(crate) removed: BTreeMap<&'a str, ()>,
    pub(crate) apps: BTreeMap<&'a str, ()>,
}

// Puts the text in, if there is one.
fn put<'a>(texts: &mut BTreeMap<&'a str, ()>, text: Option<&'a str>) -> Result<(), AllocError>
    ensures { OnOk result ((q : List ℕ) → holds texts.new q ≡ puts_one texts.old (option_map (λ s. s.now) text.entry) q) }
{
    if let Some(text) = text {
        texts.insert(text, ())?;
    }
    Ok(())
}

/// Whether there is a text, and the set has it.
pub(crate) fn has(texts: &BTreeMap<&str, ()>, text: Option<&str>) -> bool
    ensures { result ≡ has_one texts.now (option_map (λ s. s.now) text.entry) }
{
    match text {
        Some(text) => texts.contains_key(text),
        None => false,
    }
}

impl<'a> Offered<'a> {
    ghost use Rattle.commit_check.specs.Known.{Knows, Records};

    fn new(alloc: Global) -> Offered<'a>
        ensures { Knows result [] }
    {
        Offered {
            added: BTreeMap::new(alloc),
            removed: BTreeMap::new(alloc),
            apps: BTreeMap::new(alloc),
        }
    }

    // One action more.
    fn record(&mut self, action: &'a Action) -> Result<(), AllocError>
        ensures { OnOk result (Records self.old self.new action.now) }
    {
        put(&mut self.added, added_path(action))?;
        put(&mut self.removed, removed_path(action))?;
        put(&mut self.apps, app_of(action))?;
        Ok(())
    }

    /// What these actions add, remove and count for.
    pub(crate) fn of(alloc: Global, actions: &'a [Action]) -> Result<Offered<'a>, AllocError>
        ensures { IfOk result (λ o. Knows o actions.now) }
    {
        let mut offered = Offered::new(alloc);
        for action in actions {
            offered.record(action)?;
        }
        Ok(offered)
    }
}
