//! Signed links: where a recipient reads one file of a table, as a text that only who has the key can make.
#![tactic(auto)]

mod parts;
mod reading;
mod signed;
mod spelling;

pub use parts::{LentParts, LinkParts};
pub use signed::{link, links_are_spelt, one_link, parts_of};
