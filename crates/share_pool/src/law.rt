// Laws of a worker's work. The functions do nothing when they are called.
ghost use Rattle.share_pool.specs.Laws.{BeginsUpToDate, WorksInOrder};
ghost use Rattle.share_pool.specs.Standing.{WhatWorkersAddStands};

use share_hub::{catalog_refreshes_stand, refreshes_stand};
use share_serve::what_is_added_stands;

/// A law: a worker closes the lines in the order in which it accepted them; each has a session, by the bytes that it came with and
/// those that were written to it. The sessions lie one after another, and outside of them the caller adds the entries of refreshes
/// alone. What the pass has seen, and what the store has, only grows.
pub fn works_in_order()
    ensures { WorksInOrder }
{}

/// A law: where memory was never wanting, as where a worker ends `Closed`, each session begins with the edits of all records that the
/// store had when its line was there; or the store failed, an object isn't taken as the next record, or 65,536 edits were found.
pub fn begins_up_to_date()
    ensures { BeginsUpToDate }
{}

/// A law: what a worker adds to the history, in the refreshes before its sessions and in the sessions, stands in the history and in the
/// store at the end of its work.
pub fn what_workers_add_stands()
    ensures { WhatWorkersAddStands }
{
    catalog_refreshes_stand();
    refreshes_stand();
    what_is_added_stands();
}
