// Requests, and what they ask for.
use crate::answer::Answer;
use crate::catalog::add_edit;
use crate::given::Given;
use crate::messages::push_pair;
use commit_check::{Offer, Reads};
use http_message::field::Fields;
use http_message::head::Head;
use json_tree::Text;
use query_body::{QueryBody, QueryFault, query_of};
use row_files::RowFault;
use share_catalog::{Edit, TableName};
use share_request::{
    ByLink, ByToken, ListPage, Request, RequestFault, What, bearer_of, request_of,
};
use std::alloc::Global;
use std::sync::Arc;

// The `fields` of a row, and the field Authorization where the row has its value.
fn push_fields(given: &Given, fields: &mut Fields, out: &mut Answer) {
    for pair in given.list("fields", out) {
        push_pair(given, pair, fields, out);
    }
    let authorization = given.bytes_or_empty("authorization", out);
    if !authorization.is_empty() {
        let done = fields.push(b"authorization", &authorization);
        out.stored(done);
    }
}

fn head(given: &Given, out: &mut Answer) -> Option<Head> {
    let mut fields = out.kept(Fields::with_capacity(out.alloc(), 0, 0))?;
    push_fields(given, &mut fields, out);
    Some(Head {
        method: given.json_text("method", out),
        target: given.json_text("target", out),
        minor: 1,
        fields,
    })
}

fn add_token(word: &str, token: &Option<Text>, out: &mut Answer) {
    match token {
        Some(token) => out.words(word, token.as_str()),
        None => out.words(word, "none"),
    }
}

fn add_page(page: &ListPage, out: &mut Answer) {
    out.number("most=", page.most);
    add_token(" token=", &page.token, out);
}

fn add_query(query: &QueryBody, out: &mut Answer) {
    out.word("version=");
    out.show(&query.version);
    out.word(" moment=");
    out.show(&query.moment);
    out.word(" max=");
    out.show(&query.max);
    add_token(" hint=", &query.hint, out);
    add_token(" token=", &query.token, out);
}

fn reads_text(reads: &Reads) -> &str {
    match reads {
        Reads::Nothing => "none",
        Reads::All => "all",
        Reads::Where(text) => text.as_str(),
    }
}

fn add_offer(offer: &Offer, out: &mut Answer) {
    out.words(offer.location.as_str(), " read=");
    out.show(&offer.read.map(|version| version.get()));
    out.number(" actions=", offer.actions.items().len() as u64);
    out.words(" reads=", reads_text(&offer.reads));
}

fn add_table(table: &TableName, out: &mut Answer) {
    out.word(table.share.as_str());
    out.words("/", table.schema.as_str());
    out.words("/", table.table.as_str());
}

// What is asked of the shares, schemas and tables.
fn add_list(what: &What, out: &mut Answer) {
    match what {
        What::ListShares { page } => add_page(page, out),
        What::GetShare { share } => out.word(share.as_str()),
        What::ListSchemas { share, page } | What::ListAll { share, page } => {
            out.words(share.as_str(), " ");
            add_page(page, out);
        }
        What::ListTables {
            share,
            schema,
            page,
        } => {
            out.words(share.as_str(), "/");
            out.words(schema.as_str(), " ");
            add_page(page, out);
        }
        _ => {}
    }
}

// What is asked of a table's changes.
fn add_changes(what: &What, out: &mut Answer) {
    if let What::Changes {
        table,
        from,
        to,
        max,
        token,
    } = what
    {
        add_table(table, out);
        out.word(" from=");
        out.show(from);
        out.word(" to=");
        out.show(to);
        out.word(" max=");
        out.show(max);
        add_token(" token=", token, out);
    }
}

fn add_what(what: &What, out: &mut Answer) {
    match what {
        What::Version { table, from } => {
            add_table(table, out);
            out.word(" from=");
            out.show(from);
        }
        What::Metadata { table, at } => {
            add_table(table, out);
            out.word(" at=");
            out.show(at);
        }
        What::Query { table, body } => {
            add_table(table, out);
            out.word(" ");
            add_query(body, out);
        }
        What::Changes { .. } => add_changes(what, out),
        What::Commit { offer } => add_offer(offer, out),
        What::Refresh { location } => out.word(location.as_str()),
        What::Edit { edit } => add_edit(edit, out),
        _ => add_list(what, out),
    }
}

fn add_fault(fault: RequestFault, out: &mut Answer) {
    out.word("refused ");
    out.show(&fault.refusal());
    out.words(" ", fault.detail());
}

// The route, and what is asked by it or why it is refused.
fn add_by_token(by: &ByToken, out: &mut Answer) {
    out.words(by.route.word(), " ");
    match &by.asked {
        Ok(what) => add_what(what, out),
        Err(fault) => add_fault(*fault, out),
    }
}

// Whether the head alone of what the link leads to is asked for, which part of it, and the link.
fn add_by_link(by: &ByLink, out: &mut Answer) {
    out.flag("link head=", by.head);
    out.word(" span=");
    out.show(&by.span);
    out.words(" ", by.target.as_str());
}

// The request of a head and a body. It is shared, since a function that drops a request of its own takes long to prove.
fn request_in(alloc: Global, head: &Head, body: &[u8]) -> Result<Arc<Request>, RowFault> {
    match request_of(alloc, head, body) {
        Ok(request) => Ok(Arc::new(alloc, request)?),
        Err(_) => Err(RowFault::NoMemory),
    }
}

fn add_request(request: &Request, out: &mut Answer) {
    match request {
        Request::TurnedAway(away) => {
            out.show(away);
            out.word(" ");
            out.show(&away.refusal());
        }
        Request::ByToken(by) => add_by_token(by, out),
        Request::ByLink(by) => add_by_link(by, out),
    }
}

fn request(given: &Given, out: &mut Answer) {
    let body = given.bytes_or_empty("body", out);
    let Some(head) = head(given, out) else {
        return;
    };
    match request_in(out.alloc(), &head, &body) {
        Ok(request) => add_request(&request, out),
        Err(fault) => out.fail(fault),
    }
}

// The digest of a request's bearer token.
fn bearer(given: &Given, out: &mut Answer) {
    let Some(head) = head(given, out) else {
        return;
    };
    match bearer_of(&head) {
        Some(digest) => out.digits(digest.as_slice()),
        None => out.word("no bearer"),
    }
}

fn add_query_read(query: &Result<QueryBody, QueryFault>, out: &mut Answer) {
    match query {
        Ok(query) => add_query(query, out),
        Err(fault) => out.show(fault),
    }
}

// What the body of a query asks, or the fault.
fn query(given: &Given, out: &mut Answer) {
    let query = query_of(out.alloc(), &given.bytes("body", out));
    add_query_read(&query, out);
}

/// Answers a call, where it is one of these.
pub(crate) fn answer(call: &str, given: &Given, out: &mut Answer) -> bool {
    match call {
        "request" => request(given, out),
        "bearer" => bearer(given, out),
        "query" => query(given, out),
        _ => return false,
    }
    true
}
