// The requests for the pages of a table.
ghost use Rattle.std.specs.Prelude.{◌≡◌, ◌++◌, IfOk, OnOk, decimal, string_bytes};
ghost use Rattle.text_forms.specs.Escape.{escaped};
ghost use Rattle.share_client.specs.TableRequests.{changes_text, later_token, query_with, request_text, table_route};
ghost use Rattle.share_client.specs.Requests.{capability_line};

use crate::SharedTable;
use crate::query_body::{QueryBody, body_sent};
use crate::request::post_text;
use crate::route::{path_of, route_text};
use crate::server::Server;
use json_tree::Text;
use std::alloc::{AllocError, Global};
use text_forms::push_escaped;

// What is asked of a table.
#[derive(Drop)]
pub(crate) enum TableRequest<'a> {
    // Its files, by the body of a query.
    Query(&'a SharedTable, &'a QueryBody),
    // The same in the delta format.
    Delta(&'a SharedTable, &'a QueryBody),
    // Its changes from a version to another.
    Changes(&'a SharedTable, u64, u64),
}

fn push_segment(route: &mut String, word: &str, name: &str) -> Result<(), AllocError>
    ensures { OnOk result (string_bytes route.new ≡ string_bytes route.old ++ word.now ++ escaped name.now) }
{
    route.push_str(word)?;
    push_escaped(route, name.as_bytes())
}

fn push_number(alloc: Global, route: &mut String, word: &str, number: u64) -> Result<(), AllocError>
    ensures { OnOk result (string_bytes route.new ≡ string_bytes route.old ++ word.now ++ decimal number) }
{
    let digits = format!(in alloc; "{number}")?;
    route.push_str(word)?;
    route.push_str(&digits)
}

// The route of a table.
fn table_route(alloc: Global, table: &SharedTable) -> Result<String, AllocError>
    ensures { IfOk result (λ t. string_bytes t ≡ table_route table.now) }
{
    let mut route = String::new(alloc);
    push_segment(&mut route, "/shares/", table.share.as_str())?;
    push_segment(&mut route, "/schemas/", table.schema.as_str())?;
    push_segment(&mut route, "/tables/", table.table.as_str())?;
    Ok(route)
}

// The field that asks for the delta format.
fn capability_line() -> &'static str
    ensures { result.now ≡ capability_line }
{
    "delta-sharing-capabilities: responseformat=delta\r\n"
}

fn query_with(
    alloc: Global,
    more: &str,
    server: &Server,
    table: &SharedTable,
    body: &QueryBody,
    token: &Option<Text>,
) -> Result<String, AllocError>
    ensures { IfOk result (λ t. string_bytes t ≡ query_with more.now server.now table.now body.now token.now) }
{
    let mut route = table_route(alloc, table)?;
    route.push_str("/query")?;
    let path = path_of(alloc, server, &route)?;
    let body = body_sent(alloc, body, token)?;
    post_text(
        alloc,
        &path,
        server.target.host_field.as_str(),
        Some(server.bearer.as_str()),
        more,
        &body,
    )
}

// A further parameter of a query string, where there is a token.
fn later_token(alloc: Global, token: &Option<Text>) -> Result<String, AllocError>
    ensures { IfOk result (λ t. string_bytes t ≡ later_token token.now) }
{
    match token {
        Some(token) => {
            let mut text = String::from_str(alloc, "&pageToken=")?;
            push_escaped(&mut text, token.as_str().as_bytes())?;
            Ok(text)
        }
        None => Ok(String::new(alloc)),
    }
}

fn changes_text(
    alloc: Global,
    server: &Server,
    table: &SharedTable,
    from: u64,
    to: u64,
    token: &Option<Text>,
) -> Result<String, AllocError>
    ensures { IfOk result (λ t. string_bytes t ≡ changes_text server.now table.now from to token.now) }
{
    let mut route = table_route(alloc, table)?;
    push_number(alloc, &mut route, "/changes?startingVersion=", from)?;
    push_number(alloc, &mut route, "&endingVersion=", to)?;
    route.push_str(&later_token(alloc, token)?)?;
    route_text(alloc, server, &route)
}

impl<'a> TableRequest<'a> {
    // The request for the page with that token.
    pub(crate) fn text(
        &self,
        alloc: Global,
        server: &Server,
        token: &Option<Text>,
    ) -> Result<String, AllocError>
        ensures { IfOk result (λ t. string_bytes t ≡ request_text server.now self.now token.now) }
    {
        match self {
            TableRequest::Query(table, body) => query_with(alloc, "", server, table, body, token),
            TableRequest::Delta(table, body) => query_with(
                alloc,
                capability_line(),
                server,
                table,
                body,
                token,
            ),
            TableRequest::Changes(table, from, to) => changes_text(
                alloc, server, table, *from, *to, token,
            ),
        }
    }
}
