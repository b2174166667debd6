// The catalogue of shares, bindings, recipients and grants.
ghost use Rattle.std.specs.Prelude.{◌≡◌, ◌≤◌, ◌-◌, [], ◌∷◌, ◌++◌, OnOk, OnErr, IfOk, length, option_map};
ghost use Rattle.share_catalog.specs.Listing.{ListsBindings, ListsGrants};
ghost use Rattle.share_catalog.specs.Catalogue.{IsHolder, binding_edition, bound, credential, grant_edition, granted, has_recipient, has_share, refusal_of};
ghost use Rattle.share_catalog.specs.CatalogState.{CatalogState, unless};

use crate::changes::{Spare, grant_times, table_times};
use crate::credential::Credential;
use crate::edit::{Binding, Edit, EditRefusal};
use crate::held::{Held, is_there, stands};
use crate::listing::{Bound, Granted};
use crate::name::CatalogName;
use crate::past::Past;
use crate::table_name::TableName;
use json_tree::Edition;
use std::alloc::{AllocError, Global};
use std::marker::Model;

// How many edits there may ever be, so that each edition is below 2^63.
const MOST_EDITS: u64 = (1 << 63) - 1;

/// The shares, the tables bound in them, the recipients and what they are granted, as a list of
/// accepted edits leaves them.
///
/// Contracts see the list of the edits, the oldest first, and the spare: for how many more edits
/// memory is taken already. What was ever made is kept, so an edit or a look-up is found by halving.
#[derive(Drop)]
pub struct Catalog {
    held: Held,
    past: Past,
    count: u64,
    spare: Option<Spare>,
}

impl Model for Catalog {
    ghost use Rattle.share_catalog.specs.CatalogState.{CatalogState, IsCatalog, spare_count};

    ghost Value = { CatalogState };

    ghost view = { λ c. record { edits = c.past; spare = spare_count c.spare } };

    ghost invariant = { λ c. IsCatalog c.held c.past c.count c.spare };
}

impl Catalog {
    /// The catalogue of no edits.
    pub fn new(alloc: Global) -> Catalog
        ensures { result ≡ record { edits = []; spare = 0 } }
    {
        Catalog {
            held: Held::new(alloc),
            past: Past::new(),
            count: 0,
            spare: None,
        }
    }

    /// Takes memory for one edit more, where none is spare. The error is want of memory, also where
    /// 2^63 - 1 edits were accepted already: so many can't be held, and each edition stays below 2^63.
    pub fn reserve(&mut self, alloc: Global) -> Result<(), AllocError>
        ensures edits { self.new.edits ≡ self.old.edits }
        ensures spare { OnOk result (1 ≤ self.new.spare) }
        ensures refused { OnErr result (self.new ≡ self.old) }
    {
        if self.spare.is_some() {
            return Ok(());
        }
        if self.count == MOST_EDITS {
            return Err(AllocError);
        }
        let spare = Spare::new(alloc)?;
        self.held.reserve()?;
        self.spare = Some(spare);
        Ok(())
    }

    /// Whether an edit is accepted now, or why it isn't. It takes no memory and changes nothing.
    pub fn admits(&self, edit: &Edit) -> Result<(), EditRefusal>
        ensures { result ≡ unless (refusal_of self.now.edits edit.now) }
    {
        match self.held.refusal(edit) {
            Some(refusal) => Err(refusal),
            None => Ok(()),
        }
    }

    /// Makes an edit, or tells why it isn't accepted, and then changes nothing. It takes no memory:
    /// it uses one of the spare.
    pub fn apply(&mut self, edit: Edit) -> Result<(), EditRefusal>
        requires { 1 ≤ self.old.spare }
        ensures answer { result ≡ unless (refusal_of self.old.edits edit) }
        ensures accepted { OnOk result (self.new ≡ record { edits = self.old.edits ++ edit ∷ []; spare = self.old.spare - 1 }) }
        ensures refused { OnErr result (self.new ≡ self.old) }
    {
        self.admits(&edit)?;
        let past = self.past.with(&edit);
        let Some(spare) = self.spare.take() else {
            unreachable!();
        };
        self.held.apply(edit, spare);
        self.past = past;
        self.count += 1;
        Ok(())
    }

    /// How many edits were accepted.
    pub fn count(&self) -> u64
        ensures { result ≡ length self.now.edits }
    {
        self.count
    }

    /// Whether the share is there.
    pub fn has_share(&self, share: &str) -> bool
        ensures { result ≡ has_share self.now.edits share.now }
    {
        stands(self.held.share(share))
    }

    /// Whether the recipient is there.
    pub fn has_recipient(&self, recipient: &str) -> bool
        ensures { result ≡ has_recipient self.now.edits recipient.now }
    {
        is_there(self.held.recipient(recipient))
    }

    /// The credential of a recipient that is there.
    pub fn credential(&self, recipient: &str) -> Option<Credential>
        ensures { result ≡ credential self.now.edits recipient.now }
    {
        let recipient = self.held.recipient(recipient)?;
        if recipient.stands {
            Some(recipient.credential)
        } else {
            None
        }
    }

    /// The recipient that is there and has the digest, of which there is one at most.
    pub fn holder(&self, digest: &[u8; 32]) -> Option<&CatalogName>
        ensures { IsHolder self.now.edits digest.now (option_map (λ n. n.now) result) }
    {
        self.held.holder(digest)
    }

    /// Whether the recipient is granted the share.
    pub fn is_granted(&self, recipient: &str, share: &str) -> bool
        ensures { result ≡ granted self.now.edits recipient.now share.now }
    {
        self.held.is_granted(recipient, share)
    }

    /// How often the recipient was granted the share, whether or not it is now.
    pub fn grant_edition(&self, recipient: &str, share: &str) -> Edition
        ensures { result ≡ grant_edition self.now.edits recipient.now share.now }
    {
        grant_times(self.held.grant_state(recipient, share))
    }

    /// What stands behind the table's name, where it is bound.
    pub fn binding(&self, table: &TableName) -> Option<&Binding>
        ensures { option_map (λ b. b.now) result ≡ bound self.now.edits table.now }
    {
        self.held.binding(table)
    }

    /// How often the table's name was bound, whether or not it is now.
    pub fn binding_edition(&self, table: &TableName) -> Edition
        ensures { result ≡ binding_edition self.now.edits table.now }
    {
        table_times(self.held.table(table)).0
    }

    /// The shares that the recipient is granted, in byte order. The error is want of memory.
    pub fn grants_of<'a>(
        &'a self,
        alloc: Global,
        recipient: &str,
    ) -> Result<Vec<Granted<'a>>, AllocError>
        ensures { IfOk result (λ v. ListsGrants self.now.edits recipient.now v.items) }
    {
        self.held.grants_of(alloc, recipient)
    }

    /// The tables that are bound in the share, in byte order of schema and then of table. The error
    /// is want of memory.
    pub fn bindings_of<'a>(
        &'a self,
        alloc: Global,
        share: &str,
    ) -> Result<Vec<Bound<'a>>, AllocError>
        ensures { IfOk result (λ v. ListsBindings self.now.edits share.now v.items) }
    {
        self.held.bindings_of(alloc, share)
    }
}
