// The edits of a catalogue.
ghost use Rattle.std.specs.Prelude.{◌≡◌, IfOk, None, option_map};
ghost use Rattle.share_catalog.specs.Catalogue.{bound_location};

use crate::credential::Credential;
use crate::location::Location;
use crate::name::CatalogName;
use crate::restriction::{Restriction, copy_restriction_or_none};
use crate::table_name::TableName;
use json_tree::Version;
use std::alloc::{AllocError, Global};

/// What stands behind a table's name.
#[derive(Drop)]
pub struct Binding {
    /// Whether the table's earlier versions and its changes are shared too.
    pub history: bool,
    /// The first version of the table that is shared.
    pub first: Version,
    /// What of each version is shared: the files that it shows, all where there is none.
    pub only: Option<Restriction>,
    /// Where the table's log is stored.
    pub location: Location,
}

impl Binding {
    /// A binding that shares each version of a table whole.
    pub fn whole(history: bool, location: Location) -> Binding
        ensures { result ≡ record { history = history; first = 0; only = None; location = location } }
    {
        Binding {
            history,
            first: Version::of_small(0),
            only: None,
            location,
        }
    }

    /// The same binding again. The error is want of memory.
    pub fn copy(&self, alloc: Global) -> Result<Binding, AllocError>
        ensures { IfOk result (λ b. b ≡ self.now) }
    {
        Ok(Binding {
            history: self.history,
            first: self.first,
            only: copy_restriction_or_none(alloc, &self.only)?,
            location: self.location.copy(alloc)?,
        })
    }
}

/// A change of the catalogue.
#[derive(Drop)]
pub enum Edit {
    /// Makes a share.
    NewShare {
        name: CatalogName,
    },
    /// Drops a share, and with it its bindings and its grants.
    DropShare {
        name: CatalogName,
    },
    /// Puts a table into a share.
    Bind {
        table: TableName,
        binding: Binding,
    },
    /// Takes a table out of its share.
    Unbind {
        table: TableName,
    },
    /// Makes a recipient.
    NewRecipient {
        name: CatalogName,
        credential: Credential,
    },
    /// Gives a recipient another credential.
    Rotate {
        name: CatalogName,
        credential: Credential,
    },
    /// Drops a recipient, and with it its grants.
    DropRecipient {
        name: CatalogName,
    },
    /// Lets a recipient read a share.
    Grant {
        recipient: CatalogName,
        share: CatalogName,
    },
    /// Takes a grant back.
    Revoke {
        recipient: CatalogName,
        share: CatalogName,
    },
}

impl Edit {
    /// The location that the edit binds, none where it binds none.
    pub fn bound_location(&self) -> Option<&Location>
        ensures { option_map (λ l. l.now) result ≡ bound_location self.now }
    {
        match self {
            Edit::Bind { binding, .. } => Some(&binding.location),
            _ => None,
        }
    }

    /// The same edit again. The error is want of memory.
    pub fn copy(&self, alloc: Global) -> Result<Edit, AllocError>
        ensures { IfOk result (λ e. e ≡ self.now) }
    {
        match self {
            Edit::NewShare { name } => Ok(Edit::NewShare {
                name: name.copy(alloc)?,
            }),
            Edit::DropShare { name } => Ok(Edit::DropShare {
                name: name.copy(alloc)?,
            }),
            Edit::Bind { table, binding } => Ok(Edit::Bind {
                table: table.copy(alloc)?,
                binding: binding.copy(alloc)?,
            }),
            Edit::Unbind { table } => Ok(Edit::Unbind {
                table: table.copy(alloc)?,
            }),
            Edit::NewRecipient { name, credential } => Ok(Edit::NewRecipient {
                name: name.copy(alloc)?,
                credential: *credential,
            }),
            Edit::Rotate { name, credential } => Ok(Edit::Rotate {
                name: name.copy(alloc)?,
                credential: *credential,
            }),
            Edit::DropRecipient { name } => Ok(Edit::DropRecipient {
                name: name.copy(alloc)?,
            }),
            Edit::Grant { recipient, share } => Ok(Edit::Grant {
                recipient: recipient.copy(alloc)?,
                share: share.copy(alloc)?,
            }),
            Edit::Revoke { recipient, share } => Ok(Edit::Revoke {
                recipient: recipient.copy(alloc)?,
                share: share.copy(alloc)?,
            }),
        }
    }
}

/// Why an edit isn't accepted. Where several hold, the first of these is told.
#[derive(Clone, Copy, Debug, PartialEq, Eq)]
pub enum EditRefusal {
    /// A share, recipient, binding or grant that the edit needs isn't there.
    Missing,
    /// The name, binding or grant that the edit makes is there.
    Taken,
    /// Another recipient has the digest.
    TokenTaken,
    /// So many were made already, and the edit would make one more: 1,024 shares or recipients,
    /// 4,096 table names, 32 locations, 16,384 grants.
    Full { limit: u32 },
}
