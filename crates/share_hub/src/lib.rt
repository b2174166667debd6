//! The server's shared state: one book, which callers have in turn, over a store.
#![tactic(auto)]

mod catalog;
mod catalog_laws;
mod history;
mod hub;
mod knows;
mod look;
mod open;
mod places;
mod table_laws;
mod tables;

pub use catalog_laws::{
    catalog_refreshes_stand, edits_are_recorded, edits_stand, names_are_put_once, opens_find_all,
    stopped_servers_lose_nothing,
};
pub use history::HubNote;
pub use hub::Hub;
pub use hub_calls::HubPass;
pub use hub_catalog::{CatalogRefusal, EditEnd, OpenRefusal, RefreshedCatalog};
pub use hub_tables::{CommitRefusal, RefreshRefusal, Refreshed};
pub use table_laws::{
    calls_are_steps, calls_put_at_most_one, commits_stand, loads_are_the_stores,
    offers_are_committed, refreshes_stand, versions_are_given_once,
};
