// What is listed in byte order.
ghost use Rattle.std.specs.Prelude.{◌≡◌, ◌∷◌, [], map, IfOk, IfSome, option_map};
ghost use Rattle.share_catalog.specs.HeldMaps.{maps_of};
ghost use Rattle.share_catalog.specs.Entries.{entries, pair_texts};
ghost use Rattle.share_catalog.specs.Maps.{AreSorted, recipient_in, share_in};
ghost use Rattle.share_catalog.specs.Kept.{kept_grant as kept_grant_of, kept_table as kept_table_of};
ghost use Rattle.share_catalog.specs.Listed.{grant_entry, run, whole_entry, whole_run};
ghost use Rattle.share_catalog.specs.TableNames.{parts_of};

use crate::edit::Binding;
use crate::held::{Held, binding_holds, grant_holds};
use crate::name::CatalogName;
use crate::sorted::{Entry, start_of_recipient, start_of_share};
use crate::state::{GrantState, Pair, RecipientState, ShareState, TableState};
use crate::table_name::TableName;
use json_tree::Edition;
use std::alloc::{AllocError, Global};

/// A share that a recipient is granted.
#[derive(Drop)]
pub struct Granted<'a> {
    /// The share.
    pub share: &'a CatalogName,
    /// How often the recipient was granted it.
    pub edition: &'a Edition,
}

/// A table that is bound in a share.
#[derive(Drop)]
pub struct Bound<'a> {
    /// The table's name.
    pub table: &'a TableName,
    /// What stands behind the name.
    pub binding: &'a Binding,
    /// How often the name was bound.
    pub edition: &'a Edition,
}

// The table, where its binding holds.
fn kept_table<'a>(
    share: Option<ShareState>,
    entry: &'a Entry<TableName, TableState>,
) -> Option<Bound<'a>>
    ensures value { option_map (λ b. (b.binding.now, b.edition.now)) result ≡ kept_table_of share (entry.now.key.schema ∷ entry.now.key.table ∷ []) entry.now.value }
    ensures table { IfSome result (λ b. b.table.now ≡ entry.now.key) }
{
    if !binding_holds(share, &entry.value) {
        return None;
    }
    match &entry.value.binding {
        Some(binding) => Some(Bound {
            table: &entry.key,
            binding,
            edition: &entry.value.edition,
        }),
        None => None,
    }
}

// The bindings of a share among tables in the order of their names.
fn bindings_in<'a>(
    alloc: Global,
    tables: &'a [Entry<TableName, TableState>],
    name: &str,
    share: Option<ShareState>,
) -> Result<Vec<Bound<'a>>, AllocError>
    ensures { IfOk result (λ v. map whole_entry v.items ≡ whole_run name.now (kept_table_of share) (entries parts_of tables.now)) }
{
    let mut found = Vec::new(alloc);
    for entry in tables {
        let side = name.cmp(entry.key.share.as_str());
        if side.is_lt() {
            return Ok(found);
        }
        if side.is_eq() {
            if let Some(bound) = kept_table(share, entry) {
                found.push(bound)?;
            }
        }
    }
    Ok(found)
}

impl Held {
    // The grant, where it holds.
    fn kept_grant<'a>(
        &self,
        recipient: &Option<RecipientState>,
        entry: &'a Entry<Pair, GrantState>,
    ) -> Option<Granted<'a>>
        requires { AreSorted (maps_of self.now) }
        ensures value { option_map (λ g. g.edition.now) result ≡ kept_grant_of (maps_of self.now) recipient.now (entry.now.key.share ∷ []) entry.now.value }
        ensures share { IfSome result (λ g. g.share.now ≡ entry.now.key.share) }
    {
        if grant_holds(
            *recipient,
            self.share(entry.key.share.as_str()),
            &entry.value,
        ) {
            Some(Granted {
                share: &entry.key.share,
                edition: &entry.value.edition,
            })
        } else {
            None
        }
    }

    // The grants of a recipient among grants in the order of their names.
    fn grants_in<'a>(
        &self,
        alloc: Global,
        grants: &'a [Entry<Pair, GrantState>],
        name: &str,
        recipient: &Option<RecipientState>,
    ) -> Result<Vec<Granted<'a>>, AllocError>
        requires { AreSorted (maps_of self.now) }
        ensures { IfOk result (λ v. map grant_entry v.items ≡ run name.now (kept_grant_of (maps_of self.now) recipient.now) (entries pair_texts grants.now)) }
    {
        let mut found = Vec::new(alloc);
        for entry in grants {
            let side = name.cmp(entry.key.recipient.as_str());
            if side.is_lt() {
                return Ok(found);
            }
            if side.is_eq() {
                if let Some(granted) = self.kept_grant(recipient, entry) {
                    found.push(granted)?;
                }
            }
        }
        Ok(found)
    }

    // The grants of a recipient.
    pub(crate) fn grants_of<'a>(
        &'a self,
        alloc: Global,
        name: &str,
    ) -> Result<Vec<Granted<'a>>, AllocError>
        requires { AreSorted (maps_of self.now) }
        ensures { IfOk result (λ v. map grant_entry v.items ≡ run name.now (kept_grant_of (maps_of self.now) (recipient_in (maps_of self.now) name.now)) (maps_of self.now).grants) }
    {
        let start = start_of_recipient(&self.grants, name);
        self.grants_in(alloc, &self.grants[start..], name, &self.recipient(name))
    }

    // The bindings of a share.
    pub(crate) fn bindings_of<'a>(
        &'a self,
        alloc: Global,
        name: &str,
    ) -> Result<Vec<Bound<'a>>, AllocError>
        requires { AreSorted (maps_of self.now) }
        ensures { IfOk result (λ v. map whole_entry v.items ≡ whole_run name.now (kept_table_of (share_in (maps_of self.now) name.now)) (maps_of self.now).tables) }
    {
        let start = start_of_share(&self.tables, name);
        bindings_in(alloc, &self.tables[start..], name, self.share(name))
    }
}
