// Who reads which table, under which editions.
ghost use Rattle.std.specs.Prelude.{◌≡◌, IfOk, bytes_eq};
ghost use Rattle.share_reply.specs.Access.{expiry};

use crate::keys::ReplyKeys;
use crate::lengths::{endpoint_len, escaped_len, name_len, number_len};
use json_tree::{Edition, Millis, Text};
use page_token::TableAccess;
use share_book::Spot;
use share_catalog::{CatalogName, TableName};
use signed_link::{LentParts, link};
use std::alloc::{AllocError, Global};
use std::marker::Model;

// The bytes of a link that are no part's: `/files`, four slashes, the names of five parameters, and the digits of the tag.
const FIXED_BYTES: u64 = 89;

/// Who reads which table, under which editions of its share's grant and of its binding. Contracts see it as tokens have it.
#[derive(Drop)]
pub(crate) struct Access<'a> {
    recipient: CatalogName,
    table: &'a TableName,
    grant: Edition,
    binding: Edition,
}

impl<'a> Model for Access<'a> {
    ghost use Rattle.page_token.specs.declared.cursor.TableAccess.{TableAccess};

    ghost Value = { TableAccess };

    ghost view = { λ a. record { recipient = a.recipient; share = a.table.now.share; schema = a.table.now.schema; table = a.table.now.table; grant = a.grant; binding = a.binding } };
}

fn text_of(alloc: Global, name: &CatalogName) -> Result<Text, AllocError>
    ensures { IfOk result (λ t. t ≡ name.now) }
{
    Ok(Text::of(String::from_str(alloc, name.as_str())?))
}

fn is_text(text: &Text, name: &CatalogName) -> bool
    ensures { result ≡ bytes_eq text.now name.now }
{
    text.as_str() == name.as_str()
}

impl<'a> Access<'a> {
    ghost use Rattle.std.specs.Prelude.{◌≡◌, ◌<◌, ◌^◌, IfOk, length};
    ghost use Rattle.json.specs.Print.{escape};
    ghost use Rattle.share_reply.specs.Access.{access, is_same_edition, is_same_table, link_parts, link_to};

    // A recipient's access to a table that stands there. A recipient has a name, so another text never comes.
    pub(crate) fn of(
        alloc: Global,
        recipient: &Text,
        table: &'a TableName,
        spot: &Spot,
    ) -> Result<Access<'a>, AllocError>
        ensures { IfOk result (λ a. a ≡ access recipient.now table.now spot.now) }
    {
        let text = String::from_str(alloc, recipient.as_str())?;
        match CatalogName::of(text) {
            Some(recipient) => Ok(Access {
                recipient,
                table,
                grant: spot.grant(),
                binding: spot.binding(),
            }),
            None => Err(AllocError),
        }
    }

    // As a token has it.
    pub(crate) fn for_token(&self, alloc: Global) -> Result<TableAccess, AllocError>
        ensures { IfOk result (λ a. a ≡ self.now) }
    {
        Ok(TableAccess {
            recipient: text_of(alloc, &self.recipient)?,
            share: text_of(alloc, &self.table.share)?,
            schema: text_of(alloc, &self.table.schema)?,
            table: text_of(alloc, &self.table.table)?,
            grant: self.grant,
            binding: self.binding,
        })
    }

    // Whether a token's is of this recipient and this table.
    pub(crate) fn is_same_table(&self, given: &TableAccess) -> bool
        ensures { result ≡ is_same_table given.now self.now }
    {
        is_text(&given.recipient, &self.recipient)
            && is_text(&given.share, &self.table.share)
            && is_text(&given.schema, &self.table.schema)
            && is_text(&given.table, &self.table.table)
    }

    // Whether a token's is of these editions.
    pub(crate) fn is_same_edition(&self, given: &TableAccess) -> bool
        ensures { result ≡ is_same_edition given.now self.now }
    {
        given.grant.get() == self.grant.get() && given.binding.get() == self.binding.get()
    }

    fn link_parts<'b>(&'b self, expires: Millis, path: &'b Text) -> LentParts<'b>
        ensures { result ≡ link_parts self.now expires path.now }
    {
        LentParts {
            table: self.table,
            path,
            binding: self.binding,
            expires,
            grant: self.grant,
            recipient: &self.recipient,
        }
    }

    // The link to a file of the table, with its end.
    pub(crate) fn link(
        &self,
        alloc: Global,
        keys: &ReplyKeys,
        expires: Millis,
        path: &Text,
    ) -> Result<Text, AllocError>
        ensures { IfOk result (λ t. t ≡ link_to keys.now self.now expires path.now) }
    {
        let parts = self.link_parts(expires, path);
        link(alloc, &keys.link, keys.endpoint.as_str(), &parts)
    }

    // How many bytes that link has in a JSON string. It is counted by its parts: nothing is signed, and no memory is taken.
    pub(crate) fn link_len(&self, keys: &ReplyKeys, expires: Millis, path: &Text) -> u128
        ensures counted { result ≡ length (escape (link_to keys.now self.now expires path.now)) }
        ensures few { result < 2 ^ 67 }
    {
        let names = name_len(&self.table.share)
            + name_len(&self.table.schema)
            + name_len(&self.table.table)
            + name_len(&self.recipient);
        let numbers = number_len(self.binding.get())
            + number_len(expires.get())
            + number_len(self.grant.get());
        let others = FIXED_BYTES + endpoint_len(&keys.endpoint) + names + numbers;
        u128::from(others) + escaped_len(path.as_str())
    }
}

// What the links of a page are signed with: by which keys, for whom, and until when.
#[derive(Drop)]
pub(crate) struct Signing<'a> {
    pub(crate) keys: &'a ReplyKeys,
    pub(crate) access: Access<'a>,
    pub(crate) expires: Millis,
}

// When a link that is given now ends. No clock comes to 2^63 milliseconds.
pub(crate) fn expiry(keys: &ReplyKeys, now: Millis) -> Result<Millis, AllocError>
    ensures { IfOk result (λ e. e ≡ expiry keys.now now) }
{
    let ttl = keys.ttl.seconds();
    match Millis::of(now.get() + 1000 * ttl) {
        Some(end) => Ok(end),
        None => Err(AllocError),
    }
}
