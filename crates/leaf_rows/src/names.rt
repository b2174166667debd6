// Names of the catalogue, and where a table's log may lie.
use crate::answer::Answer;
use crate::given::Given;
use share_catalog::{CatalogName, Location, TableName, is_catalog_name_text};

// Whether a name is its copy's, and another one.
fn add_sameness(one: &CatalogName, other: &CatalogName, out: &mut Answer) {
    if let Some(copy) = out.kept(one.copy(out.alloc())) {
        out.flag("copied=", one.is(&copy));
        out.flag(" other=", one.is(other));
    }
}

// The same, and the name's text.
fn name_back(given: &Given, out: &mut Answer) {
    if let (Some(one), Some(other)) = (
        given.catalog_name("one", out),
        given.catalog_name("other", out),
    ) {
        add_sameness(&one, &other, out);
        out.words(" ", one.into_text().as_str());
    }
}

fn names_compared(given: &Given, out: &mut Answer) {
    if let (Some(one), Some(other)) = (
        given.catalog_name("one", out),
        given.catalog_name("other", out),
    ) {
        out.show(&one.compare(&other));
    }
}

fn table(given: &Given, member: &'static str, out: &mut Answer) -> Option<TableName> {
    match given.list(member, out) {
        [share, schema, table] => TableName::of(
            given.text_of(share, out),
            given.text_of(schema, out),
            given.text_of(table, out),
        ),
        _ => {
            out.lacks(member);
            None
        }
    }
}

// How two tables stand.
fn tables_compared(given: &Given, out: &mut Answer) {
    match (table(given, "one", out), table(given, "other", out)) {
        (Some(one), Some(other)) => out.show(&one.compare(&other)),
        _ => out.word("no table"),
    }
}

fn add_copied(table: &TableName, out: &mut Answer) {
    if let Some(copy) = out.kept(table.copy(out.alloc())) {
        out.word(copy.share.as_str());
        out.words("/", copy.schema.as_str());
        out.words("/", copy.table.as_str());
        out.word(" ");
        out.show(&copy.compare(table));
    }
}

// A table's name of a copy, and how the two stand.
fn table_back(given: &Given, out: &mut Answer) {
    match &table(given, "names", out) {
        Some(table) => add_copied(table, out),
        None => out.word("no table"),
    }
}

fn add_location(location: &Location, out: &mut Answer) {
    if let Some(copy) = out.kept(location.copy(out.alloc())) {
        out.word(copy.as_str());
    }
}

fn location(given: &Given, out: &mut Answer) {
    let Some(name) = given.object_name("name", out) else {
        return;
    };
    match &Location::of(name) {
        Some(location) => add_location(location, out),
        None => out.word("no location"),
    }
}

/// Answers a call, where it is one of these.
pub(crate) fn answer(call: &str, given: &Given, out: &mut Answer) -> bool {
    match call {
        "is_name" => {
            let is_name = is_catalog_name_text(&given.text("text", out));
            out.flag("", is_name);
        }
        "name_back" => name_back(given, out),
        "names_compared" => names_compared(given, out),
        "tables_compared" => tables_compared(given, out),
        "table_back" => table_back(given, out),
        "location" => location(given, out),
        _ => return false,
    }
    true
}
