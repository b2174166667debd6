// Page tokens and links, spelt and read.
use crate::answer::Answer;
use crate::given::Given;
use hmac_core::HmacKey;
use json_tree::{Millis, Place};
use page_token::{
    Asked, Cursor, FeedCursor, FilesCursor, ListCursor, ListKind, TableAccess, cursor_of, spell,
};
use row_files::RowFault;
use serde_json::Value;
use share_catalog::TableName;
use signed_link::{LinkParts, link, parts_of};
use std::alloc::AllocError;

fn key(given: &Given, out: &mut Answer) -> HmacKey {
    HmacKey::of(&given.bytes("key", out))
}

fn access(given: &Given, out: &mut Answer) -> TableAccess {
    TableAccess {
        recipient: given.json_text("recipient", out),
        share: given.json_text("share", out),
        schema: given.json_text("schema", out),
        table: given.json_text("table", out),
        grant: given.edition("grant", out),
        binding: given.edition("binding", out),
    }
}

// What was asked for: a version, or a `{"moment":NUMBER}`, or the latest where it is lacking.
fn asked(given: &Given, name: &'static str, out: &mut Answer) -> Asked {
    match given.with.get(name) {
        None => Asked::Latest,
        Some(Value::Object(members)) => match members.get("moment").and_then(Value::as_i64) {
            Some(moment) => Asked::Moment(i128::from(moment)),
            None => {
                out.lacks(name);
                Asked::Latest
            }
        },
        Some(_) => Asked::Version(given.version(name, out)),
    }
}

fn place(given: &Given, out: &mut Answer) -> Place {
    match Place::of(given.number("place", out)) {
        Some(place) => place,
        None => {
            out.lacks("place");
            Place::of_small(0)
        }
    }
}

fn files(given: &Given, out: &mut Answer) -> Cursor {
    let hint = if given.has("hint") {
        Some(given.json_text("hint", out))
    } else {
        None
    };
    Cursor::Files(FilesCursor {
        access: access(given, out),
        asked: asked(given, "asked", out),
        version: given.version("version", out),
        hint,
        place: place(given, out),
    })
}

fn feed(given: &Given, out: &mut Answer) -> Cursor {
    Cursor::Feed(FeedCursor {
        access: access(given, out),
        asked_from: asked(given, "asked_from", out),
        asked_to: asked(given, "asked_to", out),
        from: given.version("from", out),
        to: given.version("to", out),
        place: place(given, out),
    })
}

fn all_tables(given: &Given, out: &mut Answer) -> Cursor {
    Cursor::List(ListCursor {
        kind: ListKind::AllTables,
        recipient: given.json_text("recipient", out),
        share: given.json_text("share", out),
        schema: given.json_text("schema", out),
        after: given.json_text("after", out),
    })
}

fn spelt(key: &HmacKey, cursor: &Cursor, out: &mut Answer) {
    if let Some(token) = out.kept(spell(out.alloc(), key, cursor)) {
        out.word(token.as_str());
    }
}

fn cursor(given: &Given, out: &mut Answer) -> Cursor {
    match given.word("of", out) {
        "files" => files(given, out),
        "changes" => feed(given, out),
        "all tables" => all_tables(given, out),
        _ => {
            out.lacks("of");
            all_tables(given, out)
        }
    }
}

fn token(given: &Given, out: &mut Answer) {
    let key = key(given, out);
    let cursor = cursor(given, out);
    spelt(&key, &cursor, out);
}

fn add_read(key: &HmacKey, cursor: &Result<Option<Cursor>, AllocError>, out: &mut Answer) {
    match cursor {
        Ok(Some(cursor)) => spelt(key, cursor, out),
        Ok(None) => out.word("no token"),
        Err(_) => out.fail(RowFault::NoMemory),
    }
}

// What a token stands for, spelt again.
fn token_read(given: &Given, out: &mut Answer) {
    let key = key(given, out);
    let cursor = cursor_of(out.alloc(), &key, &given.text("token", out));
    add_read(&key, &cursor, out);
}

fn table(given: &Given, out: &mut Answer) -> Option<TableName> {
    Some(TableName {
        share: given.catalog_name("share", out)?,
        schema: given.catalog_name("schema", out)?,
        table: given.catalog_name("table", out)?,
    })
}

fn parts(given: &Given, out: &mut Answer) -> Option<LinkParts> {
    let expires = Millis::of(given.number("expires", out))?;
    Some(LinkParts {
        table: table(given, out)?,
        recipient: given.catalog_name("recipient", out)?,
        path: given.json_text("path", out),
        binding: given.edition("binding", out),
        expires,
        grant: given.edition("grant", out),
    })
}

fn add_linked(key: &HmacKey, endpoint: &str, parts: &Option<LinkParts>, out: &mut Answer) {
    match parts {
        Some(parts) => match link(out.alloc(), key, endpoint, &parts.lent()) {
            Ok(text) => out.word(text.as_str()),
            Err(_) => out.fail(RowFault::NoMemory),
        },
        None => out.lacks("expires"),
    }
}

fn linked(given: &Given, out: &mut Answer) {
    let key = key(given, out);
    let endpoint = given.text("endpoint", out);
    let parts = parts(given, out);
    add_linked(&key, &endpoint, &parts, out);
}

fn add_parts(parts: &LinkParts, out: &mut Answer) {
    out.word(parts.table.share.as_str());
    out.words("/", parts.table.schema.as_str());
    out.words("/", parts.table.table.as_str());
    out.number(" binding=", parts.binding.get());
    out.number(" expires=", parts.expires.get());
    out.number(" grant=", parts.grant.get());
    out.words(" recipient=", parts.recipient.as_str());
    out.words(" path=", parts.path.as_str());
}

fn add_link(parts: &Result<Option<LinkParts>, AllocError>, out: &mut Answer) {
    match parts {
        Ok(Some(parts)) => add_parts(parts, out),
        Ok(None) => out.word("no link"),
        Err(_) => out.fail(RowFault::NoMemory),
    }
}

// What a link leads to.
fn link_read(given: &Given, out: &mut Answer) {
    let key = key(given, out);
    let parts = parts_of(out.alloc(), &key, &given.text("target", out));
    add_link(&parts, out);
}

/// Answers a call, where it is one of these.
pub(crate) fn answer(call: &str, given: &Given, out: &mut Answer) -> bool {
    match call {
        "token" => token(given, out),
        "token_read" => token_read(given, out),
        "link" => linked(given, out),
        "link_read" => link_read(given, out),
        _ => return false,
    }
    true
}
