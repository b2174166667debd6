// What is held of a share, a recipient, a table's name and a pair that was granted.
use crate::credential::Credential;
use crate::edit::Binding;
use crate::name::CatalogName;
use json_tree::Edition;

// A share that was ever made.
#[derive(Clone, Copy)]
pub(crate) struct ShareState {
    // Whether it is there now.
    pub(crate) stands: bool,
    // How often it was made.
    pub(crate) made: u64,
}

// A recipient that was ever made.
#[derive(Clone, Copy)]
pub(crate) struct RecipientState {
    // Whether it is there now.
    pub(crate) stands: bool,
    // How often it was made.
    pub(crate) made: u64,
    // The credential that it got last.
    pub(crate) credential: Credential,
}

// A table that was ever bound.
#[derive(Drop)]
pub(crate) struct TableState {
    // What the last edit of the table itself left.
    pub(crate) binding: Option<Binding>,
    // How often its share had been made then. The binding ended where the share was dropped since.
    pub(crate) share_made: u64,
    // How often the table was bound.
    pub(crate) edition: Edition,
}

// A pair that was ever granted.
#[derive(Clone, Copy)]
pub(crate) struct GrantState {
    // What the last edit of the pair itself left.
    pub(crate) granted: bool,
    // How often its recipient had been made then. The grant ended where it was dropped since.
    pub(crate) recipient_made: u64,
    // How often its share had been made then. The grant ended where it was dropped since.
    pub(crate) share_made: u64,
    // How often the pair was granted.
    pub(crate) edition: Edition,
}

// A recipient with a share.
#[derive(Drop)]
pub(crate) struct Pair {
    pub(crate) recipient: CatalogName,
    pub(crate) share: CatalogName,
}
