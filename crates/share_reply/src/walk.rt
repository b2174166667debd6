// The names of a listing, gathered one after another.
ghost use Rattle.std.specs.Prelude.{◌≡◌, ◌==◌, ◌∷◌, [], IfOk, filter, map, option_copied, option_map, option_to_list, position};
ghost use Rattle.std.specs.List.{after_first, before_first};
ghost use Rattle.std.specs.Ordering.{is_lt};
ghost use Rattle.page_token.specs.declared.cursor.ListKind.TheVariants.{Shares};
ghost use Rattle.share_catalog.specs.TableNames.{texts_cmp};
ghost use Rattle.share_reply.specs.Lists as lists;
ghost use Rattle.share_reply.specs.Walks.{added, adds, came, is_same, schema_behind, texts_of, IsGathered, TakesIn};

use page_token::ListKind;
use share_catalog::{CatalogName, TableName};
use std::alloc::{AllocError, Global};
use std::cmp::Ordering;

// A name that is listed: a share, a schema or a table; or a schema and a table.
#[derive(Clone, Copy)]
pub(crate) enum Listed<'a> {
    One(&'a CatalogName),
    Pair(&'a CatalogName, &'a CatalogName),
}

// The names of a page, and whether one is left.
#[derive(Drop)]
pub(crate) struct Gathered<'a> {
    pub(crate) names: Vec<Listed<'a>>,
    pub(crate) is_left: bool,
}

// Which names are gathered: of which share and schema, behind which name, at most how many.
#[derive(Clone, Copy)]
pub(crate) struct Range<'a> {
    pub(crate) kind: ListKind,
    pub(crate) share: &'a str,
    pub(crate) schema: &'a str,
    pub(crate) after: &'a str,
    pub(crate) most: u64,
}

// ---- which names are behind one

fn first_slash(text: &[u8]) -> Option<usize>
    ensures { result ≡ position (λ b. b == 47) text.now }
{
    text.iter().position(|byte| *byte == b'/')
}

// A text cut at its first slash.
fn cut(text: &[u8]) -> (&[u8], &[u8])
    ensures first { result.0.now ≡ before_first (λ b. b == 47) text.now }
    ensures rest { result.1.now ≡ after_first (λ b. b == 47) text.now }
{
    match first_slash(text) {
        Some(at) => (&text[..at], &text[at + 1..]),
        None => (text, &[]),
    }
}

fn compare_one(after: &[u8], name: &Listed) -> Ordering
    ensures { result ≡ texts_cmp (after.now ∷ []) (texts_of name.now) }
{
    match name {
        Listed::One(name) => after.cmp(name.as_str().as_bytes()),
        Listed::Pair(schema, _) => after.cmp(schema.as_str().as_bytes()).then(Ordering::Less),
    }
}

fn compare_pair(first: &[u8], second: &[u8], name: &Listed) -> Ordering
    ensures { result ≡ texts_cmp (first.now ∷ second.now ∷ []) (texts_of name.now) }
{
    match name {
        Listed::One(name) => first.cmp(name.as_str().as_bytes()).then(Ordering::Greater),
        Listed::Pair(schema, table) => first
            .cmp(schema.as_str().as_bytes())
            .then(second.cmp(table.as_str().as_bytes())),
    }
}

fn is_behind(kind: ListKind, after: &str, name: &Listed) -> bool
    ensures { result ≡ lists.is_behind kind after.now (texts_of name.now) }
{
    match kind {
        ListKind::AllTables => {
            let (schema, table) = cut(after.as_bytes());
            compare_pair(schema, table, name).is_lt()
        }
        ListKind::Shares | ListKind::Schemas | ListKind::Tables => {
            compare_one(after.as_bytes(), name).is_lt()
        }
    }
}

// ---- what a table adds

fn is_same(before: Option<&CatalogName>, schema: &CatalogName) -> bool
    ensures { result ≡ is_same (option_copied before.entry) schema.now }
{
    match before {
        Some(before) => schema.is(before),
        None => false,
    }
}

// The name that a table adds, behind a table of that schema.
fn name_added<'a>(
    range: &Range,
    before: Option<&CatalogName>,
    table: &'a TableName,
) -> Option<Listed<'a>>
    ensures { option_map texts_of result ≡ adds range.now.kind range.now.share.now range.now.schema.now (option_copied before.entry) table.now }
{
    if table.share.as_str() != range.share {
        return None;
    }
    match range.kind {
        ListKind::Shares => None,
        ListKind::Schemas => {
            if is_same(before, &table.schema) {
                None
            } else {
                Some(Listed::One(&table.schema))
            }
        }
        ListKind::Tables => {
            if table.schema.as_str() == range.schema {
                Some(Listed::One(&table.table))
            } else {
                None
            }
        }
        ListKind::AllTables => Some(Listed::Pair(&table.schema, &table.table)),
    }
}

// The schema before the next table.
fn schema_behind<'a>(
    share: &str,
    before: Option<&'a CatalogName>,
    table: &'a TableName,
) -> Option<&'a CatalogName>
    ensures { option_copied result ≡ schema_behind share.now (option_copied before.entry) table.now }
{
    if table.share.as_str() == share && !is_same(before, &table.schema) {
        Some(&table.schema)
    } else {
        before
    }
}

// ---- gathering

// Takes a name in, unless it isn't there or isn't behind; and tells whether the page was full already.
fn take_in<'a>(
    names: &mut Vec<Listed<'a>>,
    range: &Range,
    name: Option<Listed<'a>>,
) -> Result<bool, AllocError>
    ensures { IfOk result (TakesIn range.now.most (came range.now.kind range.now.after.now (option_map texts_of name.entry)) names.old.items names.new.items) }
{
    let Some(name) = name else {
        return Ok(false);
    };
    if !is_behind(range.kind, range.after, &name) {
        return Ok(false);
    }
    if names.len() as u64 >= range.most {
        return Ok(true);
    }
    names.push(name)?;
    Ok(false)
}

// The first shares behind the range's name.
pub(crate) fn gather_shares<'a>(
    alloc: Global,
    range: &Range,
    shares: &'a [CatalogName],
) -> Result<Gathered<'a>, AllocError>
    ensures { IfOk result (IsGathered range.now.most (filter (lists.is_behind range.now.kind range.now.after.now) (map lists.one shares.now))) }
{
    let mut names = Vec::new(alloc);
    for share in shares {
        if take_in(&mut names, range, Some(Listed::One(share)))? {
            return Ok(Gathered {
                names,
                is_left: true,
            });
        }
    }
    Ok(Gathered {
        names,
        is_left: false,
    })
}

// The first names behind the range's that the tables add.
pub(crate) fn gather_tables<'a>(
    alloc: Global,
    range: &Range,
    tables: &'a [TableName],
) -> Result<Gathered<'a>, AllocError>
    ensures { IfOk result (IsGathered range.now.most (filter (lists.is_behind range.now.kind range.now.after.now) (added range.now.kind range.now.share.now range.now.schema.now None tables.now))) }
{
    let mut names = Vec::new(alloc);
    let mut before = None;
    for table in tables {
        if take_in(&mut names, range, name_added(range, before, table))? {
            return Ok(Gathered {
                names,
                is_left: true,
            });
        }
        before = schema_behind(range.share, before, table);
    }
    Ok(Gathered {
        names,
        is_left: false,
    })
}
