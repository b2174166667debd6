//! Edits of the catalogue and their records in a store, over one book that callers have in turn.
#![tactic(auto)]

mod caller;
mod catalog_calls;
mod catalog_turns;
mod edit;
mod found;
mod new_log;
mod open;
mod record;
mod refresh_catalog;

pub use caller::Caller;
pub use edit::EditEnd;
pub use found::CatalogRefusal;
pub use open::{OpenRefusal, read_book};
pub use refresh_catalog::RefreshedCatalog;
