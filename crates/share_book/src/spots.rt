// What a look finds in the catalogue.
ghost use Rattle.std.specs.Prelude.{◌≡◌, ◌++◌, IfOk, OnOk, map, option_map};
ghost use Rattle.share_catalog.specs.Views as views;
ghost use Rattle.share_book.specs.Looks as looks;
ghost use Rattle.share_book.specs.Looked as looked;

use crate::look::{Names, Spot, Who};
use json_tree::Edition;
use share_catalog::{Bound, Catalog, Granted, TableName};
use std::alloc::{AllocError, Global};

/// The name of the recipient that has the digest, or that name itself.
pub(crate) fn recipient_of<'a>(catalog: &'a Catalog, who: &'a Who) -> Option<&'a str>
    ensures { option_map (λ s. s.now) result ≡ views.name_of catalog.now.edits (looks.who_of who.now) }
{
    match who {
        Who::Token(digest) => match catalog.holder(digest) {
            Some(name) => Some(name.as_str()),
            None => None,
        },
        Who::Named(name) => Some(name.as_str()),
    }
}

// Adds the tables of bindings.
fn push_tables(
    alloc: Global,
    bindings: &[Bound<'_>],
    tables: &mut Vec<TableName>,
) -> Result<(), AllocError>
    ensures { OnOk result (tables.new.items ≡ tables.old.items ++ map (λ b. b.table.now) bindings.now) }
{
    for bound in bindings {
        tables.push(bound.table.copy(alloc)?)?;
    }
    Ok(())
}

// The shares of grants, and the tables that are bound in them.
fn names_among(
    alloc: Global,
    catalog: &Catalog,
    grants: &[Granted<'_>],
) -> Result<Names, AllocError>
    ensures { IfOk result (λ names. names ≡ record { shares = map (λ g. g.share.now) grants.now; tables = looked.tables_of_grants catalog.now.edits grants.now }) }
{
    let mut shares = Vec::new(alloc);
    let mut tables = Vec::new(alloc);
    for granted in grants {
        shares.push(granted.share.copy(alloc)?)?;
        let bindings = catalog.bindings_of(alloc, granted.share.as_str())?;
        push_tables(alloc, &bindings, &mut tables)?;
    }
    Ok(Names::of(shares, tables))
}

/// The shares that a recipient is granted, and the tables that are bound in them.
pub(crate) fn names_of(
    alloc: Global,
    catalog: &Catalog,
    recipient: &str,
) -> Result<Names, AllocError>
    ensures { IfOk result (λ names. names ≡ looked.names_by catalog.now.edits recipient.now) }
{
    let grants = catalog.grants_of(alloc, recipient)?;
    names_among(alloc, catalog, &grants)
}

// How often the recipient was granted the share, none where it isn't granted.
fn grant_of(catalog: &Catalog, recipient: &str, share: &str) -> Option<Edition>
    ensures { result ≡ views.grant catalog.now.edits recipient.now share.now }
{
    if catalog.is_granted(recipient, share) {
        Some(catalog.grant_edition(recipient, share))
    } else {
        None
    }
}

/// Where a table stands, none where it isn't bound in a share that the recipient is granted.
pub(crate) fn spot_of(
    alloc: Global,
    catalog: &Catalog,
    recipient: &str,
    table: &TableName,
) -> Result<Option<Spot>, AllocError>
    ensures { IfOk result (λ spot. spot ≡ views.shared catalog.now.edits recipient.now table.now) }
{
    let Some(grant) = grant_of(catalog, recipient, table.share.as_str()) else {
        return Ok(None);
    };
    let Some(binding) = catalog.binding(table) else {
        return Ok(None);
    };
    let binding = binding.copy(alloc)?;
    let edition = catalog.binding_edition(table);
    Ok(Some(Spot::of(grant, edition, binding)))
}
