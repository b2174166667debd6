// What is held of the edits, in lists that are found by halving.
ghost use Rattle.std.specs.Prelude.{◌≡◌, ◌&&◌, IsTrue, Some, None, option_map, OnOk, bytes_eq, string_bytes, length, [], ◌≤◌, ◌<◌, ◌+◌, ◌^◌, is_some};
ghost use Rattle.std.specs.List.{list_any};
ghost use Rattle.std.specs.Option.{option_or};
ghost use Rattle.share_catalog.specs.Maps.{AreSorted, bound_in, full_at, grant_in, granted_by, granted_in, holder_in, is_other, limit_in, location_limit, missing_in, recipient_in, refusal_in, share_in, share_stands, recipient_stands, share_times, recipient_times, table_in, taken_in, token_taken_in, binding_holds};

use crate::credential::Credential;
use crate::edit::{Binding, Edit, EditRefusal};
use crate::location::Location;
use crate::name::CatalogName;
use crate::sorted::{
    Entry, place_of_digest, place_of_name, place_of_pair, place_of_table, value_at,
};
use crate::state::{GrantState, Pair, RecipientState, ShareState, TableState};
use crate::table_name::TableName;
use std::alloc::{AllocError, Global};

// How many shares, recipients, tables, grants and locations there may ever be.
const MOST_SHARES: u32 = 1024;

const MOST_RECIPIENTS: u32 = 1024;

const MOST_TABLES: u32 = 4096;

const MOST_GRANTS: u32 = 16384;

const MOST_LOCATIONS: u32 = 32;

pub(crate) fn stands(share: Option<ShareState>) -> bool
    ensures { result ≡ share_stands share }
{
    match share {
        Some(share) => share.stands,
        None => false,
    }
}

pub(crate) fn is_there(recipient: Option<RecipientState>) -> bool
    ensures { result ≡ recipient_stands recipient }
{
    match recipient {
        Some(recipient) => recipient.stands,
        None => false,
    }
}

// Whether a share stands since a table was bound.
pub(crate) fn binding_holds(share: Option<ShareState>, table: &TableState) -> bool
    ensures { result ≡ binding_holds share (Some table.now) }
{
    match share {
        Some(share) => share.stands && share.made == table.share_made,
        None => false,
    }
}

// Whether a recipient and a share stand since they were granted.
pub(crate) fn grant_holds(
    recipient: Option<RecipientState>,
    share: Option<ShareState>,
    grant: &GrantState,
) -> bool
    ensures { result ≡ granted_by recipient share (Some grant.now) }
{
    let (Some(recipient), Some(share)) = (recipient, share) else {
        return false;
    };
    grant.granted
        && recipient.stands
        && recipient.made == grant.recipient_made
        && share.stands
        && share.made == grant.share_made
}

pub(crate) fn has_location(locations: &[Location], location: &Location) -> bool
    ensures { result ≡ list_any (λ x. bytes_eq x location.now) locations.now }
{
    locations
        .iter()
        .any(|held| held.as_str() == location.as_str())
}

// The limit, where a new one would be one too many.
fn full_at(limit: u32, is_known: bool, count: usize) -> Option<u32>
    ensures { result ≡ full_at limit is_known count }
{
    if !is_known && count >= limit as usize {
        Some(limit)
    } else {
        None
    }
}

// Lists of entries in the order of their keys, and the locations in the order of their first bindings.
#[derive(Drop)]
pub(crate) struct Held {
    pub(crate) shares: Vec<Entry<CatalogName, ShareState>>,
    pub(crate) recipients: Vec<Entry<CatalogName, RecipientState>>,
    pub(crate) tables: Vec<Entry<TableName, TableState>>,
    pub(crate) grants: Vec<Entry<Pair, GrantState>>,
    pub(crate) holders: Vec<Entry<[u8; 32], CatalogName>>,
    pub(crate) locations: Vec<Location>,
}

impl Held {
    ghost use Rattle.share_catalog.specs.HeldMaps.{HasRoom, maps_of};

    pub(crate) fn new(alloc: Global) -> Held
        ensures { maps_of result ≡ record { shares = []; recipients = []; tables = []; grants = []; holders = []; locations = [] } }
    {
        Held {
            shares: Vec::new(alloc),
            recipients: Vec::new(alloc),
            tables: Vec::new(alloc),
            grants: Vec::new(alloc),
            holders: Vec::new(alloc),
            locations: Vec::new(alloc),
        }
    }

    // Makes room for one entry more in each list.
    pub(crate) fn reserve(&mut self) -> Result<(), AllocError>
        ensures same { maps_of self.new ≡ maps_of self.old }
        ensures room { OnOk result (HasRoom self.new) }
    {
        self.shares.reserve(1)?;
        self.recipients.reserve(1)?;
        self.tables.reserve(1)?;
        self.grants.reserve(1)?;
        self.holders.reserve(1)?;
        self.locations.reserve(1)
    }

    pub(crate) fn share(&self, name: &str) -> Option<ShareState>
        requires { AreSorted (maps_of self.now) }
        ensures { result ≡ share_in (maps_of self.now) name.now }
    {
        value_at(&self.shares, place_of_name(&self.shares, name)).copied()
    }

    pub(crate) fn recipient(&self, name: &str) -> Option<RecipientState>
        requires { AreSorted (maps_of self.now) }
        ensures { result ≡ recipient_in (maps_of self.now) name.now }
    {
        value_at(&self.recipients, place_of_name(&self.recipients, name)).copied()
    }

    pub(crate) fn table(&self, table: &TableName) -> Option<&TableState>
        requires { AreSorted (maps_of self.now) }
        ensures { option_map (λ t. t.now) result ≡ table_in (maps_of self.now) table.now }
    {
        value_at(&self.tables, place_of_table(&self.tables, table))
    }

    pub(crate) fn grant_state(&self, recipient: &str, share: &str) -> Option<GrantState>
        requires { AreSorted (maps_of self.now) }
        ensures { result ≡ grant_in (maps_of self.now) recipient.now share.now }
    {
        value_at(&self.grants, place_of_pair(&self.grants, recipient, share)).copied()
    }

    pub(crate) fn holder(&self, digest: &[u8; 32]) -> Option<&CatalogName>
        requires { AreSorted (maps_of self.now) }
        ensures { option_map (λ n. n.now) result ≡ holder_in (maps_of self.now) digest.now }
    {
        value_at(&self.holders, place_of_digest(&self.holders, digest))
    }

    // The binding that holds.
    pub(crate) fn binding(&self, table: &TableName) -> Option<&Binding>
        requires { AreSorted (maps_of self.now) }
        ensures { option_map (λ b. b.now) result ≡ bound_in (maps_of self.now) table.now }
    {
        let state = self.table(table)?;
        if binding_holds(self.share(table.share.as_str()), state) {
            state.binding.as_ref()
        } else {
            None
        }
    }

    // Whether the grant holds.
    pub(crate) fn is_granted(&self, recipient: &str, share: &str) -> bool
        requires { AreSorted (maps_of self.now) }
        ensures { result ≡ granted_in (maps_of self.now) recipient.now share.now }
    {
        match self.grant_state(recipient, share) {
            Some(grant) => { grant_holds(self.recipient(recipient), self.share(share), &grant) }
            None => false,
        }
    }

    fn has_location(&self, location: &Location) -> bool
        ensures { result ≡ list_any (λ x. bytes_eq x location.now) (maps_of self.now).locations }
    {
        has_location(&self.locations, location)
    }

    fn is_missing(&self, edit: &Edit) -> bool
        requires { AreSorted (maps_of self.now) }
        ensures { result ≡ missing_in (maps_of self.now) edit.now }
    {
        match edit {
            Edit::NewShare { .. } | Edit::NewRecipient { .. } => false,
            Edit::DropShare { name } => !stands(self.share(name.as_str())),
            Edit::Bind { table, .. } => !stands(self.share(table.share.as_str())),
            Edit::Unbind { table } => self.binding(table).is_none(),
            Edit::Rotate { name, .. } => !is_there(self.recipient(name.as_str())),
            Edit::DropRecipient { name } => !is_there(self.recipient(name.as_str())),
            Edit::Grant { recipient, share } => {
                !(is_there(self.recipient(recipient.as_str()))
                    && stands(self.share(share.as_str())))
            }
            Edit::Revoke { recipient, share } => {
                !self.is_granted(recipient.as_str(), share.as_str())
            }
        }
    }

    fn is_taken(&self, edit: &Edit) -> bool
        requires { AreSorted (maps_of self.now) }
        ensures { result ≡ taken_in (maps_of self.now) edit.now }
    {
        match edit {
            Edit::NewShare { name } => stands(self.share(name.as_str())),
            Edit::Bind { table, .. } => self.binding(table).is_some(),
            Edit::NewRecipient { name, .. } => is_there(self.recipient(name.as_str())),
            Edit::Grant { recipient, share } => self.is_granted(recipient.as_str(), share.as_str()),
            _ => false,
        }
    }

    // Whether another recipient than this one has the digest.
    fn has_other(&self, name: &CatalogName, digest: &[u8; 32]) -> bool
        requires { AreSorted (maps_of self.now) }
        ensures { result ≡ is_other name.now (holder_in (maps_of self.now) digest.now) }
    {
        match self.holder(digest) {
            Some(holder) => !holder.is(name),
            None => false,
        }
    }

    fn is_token_taken(&self, edit: &Edit) -> bool
        requires { AreSorted (maps_of self.now) }
        ensures { result ≡ token_taken_in (maps_of self.now) edit.now }
    {
        match edit {
            Edit::NewRecipient { name, credential } | Edit::Rotate { name, credential } => {
                self.has_other(name, &credential.digest)
            }
            _ => false,
        }
    }

    fn table_limit(&self, table: &TableName, location: &Location) -> Option<u32>
        requires { AreSorted (maps_of self.now) }
        ensures { result ≡ option_or (full_at 4096 (is_some (table_in (maps_of self.now) table.now)) (length (maps_of self.now).tables)) (location_limit (maps_of self.now) location.now) }
    {
        match full_at(MOST_TABLES, self.table(table).is_some(), self.tables.len()) {
            Some(limit) => Some(limit),
            None => full_at(
                MOST_LOCATIONS,
                self.has_location(location),
                self.locations.len(),
            ),
        }
    }

    // The limit that the edit passes.
    fn limit(&self, edit: &Edit) -> Option<u32>
        requires { AreSorted (maps_of self.now) }
        ensures { result ≡ limit_in (maps_of self.now) edit.now }
    {
        match edit {
            Edit::NewShare { name } => {
                full_at(
                    MOST_SHARES,
                    self.share(name.as_str()).is_some(),
                    self.shares.len(),
                )
            }
            Edit::NewRecipient { name, .. } => full_at(
                MOST_RECIPIENTS,
                self.recipient(name.as_str()).is_some(),
                self.recipients.len(),
            ),
            Edit::Bind { table, binding } => self.table_limit(table, &binding.location),
            Edit::Grant { recipient, share } => full_at(
                MOST_GRANTS,
                self.grant_state(recipient.as_str(), share.as_str())
                    .is_some(),
                self.grants.len(),
            ),
            _ => None,
        }
    }

    // Why an edit isn't accepted, if it isn't.
    pub(crate) fn refusal(&self, edit: &Edit) -> Option<EditRefusal>
        requires { AreSorted (maps_of self.now) }
        ensures { result ≡ refusal_in (maps_of self.now) edit.now }
    {
        if self.is_missing(edit) {
            return Some(EditRefusal::Missing);
        }
        if self.is_taken(edit) {
            return Some(EditRefusal::Taken);
        }
        if self.is_token_taken(edit) {
            return Some(EditRefusal::TokenTaken);
        }
        let limit = self.limit(edit)?;
        Some(EditRefusal::Full { limit })
    }
}
