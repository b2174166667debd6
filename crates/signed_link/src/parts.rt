// What a link says.
ghost use Rattle.std.specs.Prelude.{◌≡◌};

use json_tree::{Edition, Millis, Text};
use share_catalog::{CatalogName, TableName};
use std::marker::Model;

/// The parts of a link to one file of a shared table.
#[derive(Drop)]
pub struct LinkParts {
    /// The table's name.
    pub table: TableName,
    /// The file's path, as the table's log spells it. It may be any text.
    pub path: Text,
    /// The edition of the table's binding.
    pub binding: Edition,
    /// The moment from which the link is expired.
    pub expires: Millis,
    /// The edition of the recipient's grant.
    pub grant: Edition,
    /// The name of the recipient to whom the link was given.
    pub recipient: CatalogName,
}

/// The parts of a link that lie elsewhere, lent, so that a link is made with no copy of them. Contracts see the parts.
#[derive(Drop)]
pub struct LentParts<'a> {
    /// The table's name.
    pub table: &'a TableName,
    /// The file's path.
    pub path: &'a Text,
    /// The edition of the table's binding.
    pub binding: Edition,
    /// The moment from which the link is expired.
    pub expires: Millis,
    /// The edition of the recipient's grant.
    pub grant: Edition,
    /// The name of the recipient to whom the link is given.
    pub recipient: &'a CatalogName,
}

impl<'a> Model for LentParts<'a> {
    ghost use Rattle.signed_link.specs.declared.parts.LinkParts.{LinkParts};

    ghost Value = { LinkParts };

    ghost view = { λ p. record { table = p.table.now; path = p.path.now; binding = p.binding; expires = p.expires; grant = p.grant; recipient = p.recipient.now } };
}

impl LinkParts {
    /// The parts, lent.
    pub fn lent(&self) -> LentParts<'_>
        ensures { result ≡ self.now }
    {
        LentParts {
            table: &self.table,
            path: &self.path,
            binding: self.binding,
            expires: self.expires,
            grant: self.grant,
            recipient: &self.recipient,
        }
    }
}
