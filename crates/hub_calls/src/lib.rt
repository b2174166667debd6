//! What the calls of a hub have in common: a caller's place, and in `specs/` what a call does to it.
#![tactic(auto)]

use share_book::Book;
use turn_cell::Pass;

/// A caller's place at a hub.
pub type HubPass = Pass<Book>;
