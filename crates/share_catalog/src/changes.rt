// What an edit that was accepted changes of what is held. Nothing here takes memory.
ghost use Rattle.std.specs.Prelude.{◌≡◌, ◌+◌, ◌<◌, ◌≤◌, ◌^◌, [], ◌∷◌, ◌++◌, Some, None, if◌then◌else◌, vec_len, string_bytes, bytes_eq, option_map, IfOk};
ghost use Rattle.std.specs.List.{list_any};
ghost use Rattle.std.specs.Vec.{vec_capacity};
ghost use Rattle.std.specs.String.{string_capacity, string_len};
ghost use Rattle.std.specs.FinMap.Entries.{put as put_in};
ghost use Rattle.share_catalog.specs.declared.edit.Edit.TheVariants as edit;
ghost use Rattle.share_catalog.specs.Entries.{entries, pair_texts, texts};
ghost use Rattle.share_catalog.specs.HeldMaps.{HasRoom, maps_of};
ghost use Rattle.share_catalog.specs.Maps.{AreSorted, CountsFit, after, bytes_cmp, grant_times, grant_in, recipient_in, recipient_times, rotated, share_in, share_times, table_edition, table_in, table_made, with_grant, with_location, with_recipient, with_share, with_table, without_recipient};
ghost use Rattle.share_catalog.specs.Sorted.{take_out};
ghost use Rattle.share_catalog.specs.TableNames.{parts_of, texts_cmp};

use crate::credential::Credential;
use crate::edit::{Binding, Edit};
use crate::held::{Held, has_location};
use crate::location::Location;
use crate::name::CatalogName;
use crate::sorted::{put_digest, put_name, put_pair, put_table, take_digest};
use crate::state::{GrantState, Pair, RecipientState, ShareState, TableState};
use crate::table_name::TableName;
use json_tree::Edition;
use std::alloc::{AllocError, Global};

// Texts that were made before an edit, so that it takes no memory.
#[derive(Drop)]
pub(crate) struct Spare {
    // Room for a name.
    pub(crate) name: String,
    // Room for a location.
    pub(crate) location: String,
}

impl Spare {
    ghost use Rattle.share_catalog.specs.Spares.{IsSpare};

    pub(crate) fn new(alloc: Global) -> Result<Spare, AllocError>
        ensures { IfOk result (λ s. IsSpare s) }
    {
        Ok(Spare {
            name: String::with_capacity(alloc, 128)?,
            location: String::with_capacity(alloc, 256)?,
        })
    }
}

// How often the share was made.
fn share_times(share: Option<ShareState>) -> u64
    ensures { result ≡ share_times share }
{
    match share {
        Some(share) => share.made,
        None => 0,
    }
}

// How often the recipient was made.
fn recipient_times(recipient: Option<RecipientState>) -> u64
    ensures { result ≡ recipient_times recipient }
{
    match recipient {
        Some(recipient) => recipient.made,
        None => 0,
    }
}

// How often the pair was granted.
pub(crate) fn grant_times(grant: Option<GrantState>) -> Edition
    ensures { result ≡ grant_times grant }
{
    match grant {
        Some(grant) => grant.edition,
        None => Edition::never(),
    }
}

// How often the table was bound, and how often its share had been made then.
pub(crate) fn table_times(table: Option<&TableState>) -> (Edition, u64)
    ensures { result ≡ (table_edition (option_map (λ t. t.now) table.entry), table_made (option_map (λ t. t.now) table.entry)) }
{
    match table {
        Some(table) => (table.edition, table.share_made),
        None => (Edition::never(), 0),
    }
}

fn add_location(locations: &mut Vec<Location>, location: &Location, room: String)
    requires empty { string_bytes room ≡ [] }
    requires room { (string_len room ≡ 0) × (256 ≤ string_capacity room) }
    requires place { vec_len locations.old < vec_capacity locations.old }
    ensures { locations.new.items ≡ with_location location.now locations.old.items }
{
    if !has_location(locations, location) {
        let _ = locations.push(location.copy_into(room));
    }
}

impl Held {
    ghost use Rattle.share_catalog.specs.Spares.{IsSpare};

    fn make_share(&mut self, name: CatalogName)
        requires sorted { AreSorted (maps_of self.old) }
        requires room { HasRoom self.old }
        requires counts { CountsFit (maps_of self.old) }
        ensures { maps_of self.new ≡ after (maps_of self.old) (edit.NewShare name) }
    {
        let made = share_times(self.share(name.as_str())) + 1;
        put_name(&mut self.shares, name, ShareState { stands: true, made });
    }

    fn drop_share(&mut self, name: CatalogName)
        requires sorted { AreSorted (maps_of self.old) }
        requires room { HasRoom self.old }
        ensures { maps_of self.new ≡ after (maps_of self.old) (edit.DropShare name) }
    {
        let made = share_times(self.share(name.as_str()));
        put_name(
            &mut self.shares,
            name,
            ShareState {
                stands: false,
                made,
            },
        );
    }

    fn bind(&mut self, table: TableName, binding: Binding, room: String)
        requires sorted { AreSorted (maps_of self.old) }
        requires lists { HasRoom self.old }
        requires counts { CountsFit (maps_of self.old) }
        requires empty { string_bytes room ≡ [] }
        requires room { (string_len room ≡ 0) × (256 ≤ string_capacity room) }
        ensures { maps_of self.new ≡ after (maps_of self.old) (edit.Bind table binding) }
    {
        let share_made = share_times(self.share(table.share.as_str()));
        let edition = table_times(self.table(&table)).0.next();
        add_location(&mut self.locations, &binding.location, room);
        let state = TableState {
            binding: Some(binding),
            share_made,
            edition,
        };
        put_table(&mut self.tables, table, state);
    }

    fn unbind(&mut self, table: TableName)
        requires sorted { AreSorted (maps_of self.old) }
        requires room { HasRoom self.old }
        ensures { maps_of self.new ≡ after (maps_of self.old) (edit.Unbind table) }
    {
        let (edition, share_made) = table_times(self.table(&table));
        let state = TableState {
            binding: None,
            share_made,
            edition,
        };
        put_table(&mut self.tables, table, state);
    }

    fn make_recipient(&mut self, name: CatalogName, credential: Credential, room: String)
        requires sorted { AreSorted (maps_of self.old) }
        requires lists { HasRoom self.old }
        requires counts { CountsFit (maps_of self.old) }
        requires empty { string_bytes room ≡ [] }
        requires room { (string_len room ≡ 0) × (128 ≤ string_capacity room) }
        ensures { maps_of self.new ≡ after (maps_of self.old) (edit.NewRecipient name credential) }
    {
        let made = recipient_times(self.recipient(name.as_str())) + 1;
        let Credential { digest, expires } = credential;
        put_digest(&mut self.holders, digest, name.copy_into(room));
        let credential = Credential { digest, expires };
        let state = RecipientState {
            stands: true,
            made,
            credential,
        };
        put_name(&mut self.recipients, name, state);
    }

    fn rotate(&mut self, name: CatalogName, credential: Credential, room: String)
        requires sorted { AreSorted (maps_of self.old) }
        requires lists { HasRoom self.old }
        requires empty { string_bytes room ≡ [] }
        requires room { (string_len room ≡ 0) × (128 ≤ string_capacity room) }
        ensures { maps_of self.new ≡ after (maps_of self.old) (edit.Rotate name credential) }
    {
        let Some(old) = self.recipient(name.as_str()) else {
            return;
        };
        take_digest(&mut self.holders, &old.credential.digest);
        put_digest(&mut self.holders, credential.digest, name.copy_into(room));
        let state = RecipientState {
            stands: old.stands,
            made: old.made,
            credential,
        };
        put_name(&mut self.recipients, name, state);
    }

    fn drop_recipient(&mut self, name: CatalogName)
        requires sorted { AreSorted (maps_of self.old) }
        requires room { HasRoom self.old }
        ensures { maps_of self.new ≡ after (maps_of self.old) (edit.DropRecipient name) }
    {
        let Some(old) = self.recipient(name.as_str()) else {
            return;
        };
        take_digest(&mut self.holders, &old.credential.digest);
        let state = RecipientState {
            stands: false,
            made: old.made,
            credential: old.credential,
        };
        put_name(&mut self.recipients, name, state);
    }

    fn set_grant(&mut self, pair: Pair, granted: bool, edition: Edition)
        requires sorted { AreSorted (maps_of self.old) }
        requires room { HasRoom self.old }
        ensures { maps_of self.new ≡ with_grant pair.recipient pair.share granted edition (maps_of self.old) }
    {
        let state = GrantState {
            granted,
            recipient_made: recipient_times(self.recipient(pair.recipient.as_str())),
            share_made: share_times(self.share(pair.share.as_str())),
            edition,
        };
        put_pair(&mut self.grants, pair, state);
    }

    fn grant(&mut self, pair: Pair)
        requires sorted { AreSorted (maps_of self.old) }
        requires room { HasRoom self.old }
        requires counts { CountsFit (maps_of self.old) }
        ensures { maps_of self.new ≡ after (maps_of self.old) (edit.Grant pair.recipient pair.share) }
    {
        let edition = grant_times(self.grant_state(
            pair.recipient.as_str(),
            pair.share.as_str(),
        )).next();
        self.set_grant(pair, true, edition);
    }

    fn revoke(&mut self, pair: Pair)
        requires sorted { AreSorted (maps_of self.old) }
        requires room { HasRoom self.old }
        ensures { maps_of self.new ≡ after (maps_of self.old) (edit.Revoke pair.recipient pair.share) }
    {
        let edition = grant_times(self.grant_state(pair.recipient.as_str(), pair.share.as_str()));
        self.set_grant(pair, false, edition);
    }

    // What the edit changes.
    pub(crate) fn apply(&mut self, edit: Edit, spare: Spare)
        requires sorted { AreSorted (maps_of self.old) }
        requires room { HasRoom self.old }
        requires counts { CountsFit (maps_of self.old) }
        requires spare { IsSpare spare }
        ensures { maps_of self.new ≡ after (maps_of self.old) edit }
    {
        match edit {
            Edit::NewShare { name } => self.make_share(name),
            Edit::DropShare { name } => self.drop_share(name),
            Edit::Bind { table, binding } => self.bind(table, binding, spare.location),
            Edit::Unbind { table } => self.unbind(table),
            Edit::NewRecipient { name, credential } => {
                self.make_recipient(name, credential, spare.name);
            }
            Edit::Rotate { name, credential } => self.rotate(name, credential, spare.name),
            Edit::DropRecipient { name } => self.drop_recipient(name),
            Edit::Grant { recipient, share } => self.grant(Pair { recipient, share }),
            Edit::Revoke { recipient, share } => self.revoke(Pair { recipient, share }),
        }
    }
}
