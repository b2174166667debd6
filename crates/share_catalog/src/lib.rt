//! The catalogue of shares, bindings of tables, recipients and grants.
#![tactic(auto)]

mod catalog;
mod changes;
mod credential;
mod edit;
mod held;
mod laws;
mod listing;
mod location;
mod name;
mod past;
mod restriction;
mod sorted;
mod state;
mod table_name;

pub use catalog::Catalog;
pub use credential::Credential;
pub use edit::{Binding, Edit, EditRefusal};
pub use laws::{
    counted_is_never_full, editions_rise, foreign_edits_leave_views, grant_comes_back_later,
    holders_are_found, listings_are_views, others_see_the_same, share_comes_back_empty,
    views_show_edits,
};
pub use listing::{Bound, Granted};
pub use location::Location;
pub use name::{CatalogName, is_catalog_name_text};
pub use restriction::{Restriction, copy_restriction_or_none};
pub use table_name::TableName;
