// Requests read.
ghost use Rattle.std.specs.Prelude.{◌≡◌, IfOk, option_map};
ghost use Rattle.share_request.specs.Requests as spec;
ghost use Rattle.share_request.specs.Asked as asked;
ghost use Rattle.share_request.specs.Stops.{Gives};
ghost use Rattle.share_request.specs.Targets.{below_endpoint};

use crate::asked::{ByLink, ByToken, Request, ResponseFormat, What};
use crate::bearer::bearer_of;
use crate::body::{edit_in, offer_in, refresh_in};
use crate::capability::format_in;
use crate::fault::{Parameter, RequestFault, Stop, TurnedAway};
use crate::parameter::{
    QueryPair, at_in, from_in, max_files_in, moment_at, page_of, pairs_of, to_in, token_of,
};
use crate::path::{name_at, route_of, segments_of, table_at};
use crate::target::{after, below_endpoint, link_target, split_query};
use case_table::{Method, Route};
use file_ranges::span::span_of;
use http_message::head::Head;
use json_tree::Text;
use query_body::query_of;
use std::alloc::{AllocError, Global};

fn list_shares(alloc: Global, pairs: &[QueryPair]) -> Result<What, Stop>
    ensures { Gives result (asked.list_shares pairs.now) }
{
    let page = page_of(alloc, pairs)?;
    Ok(What::ListShares { page })
}

fn get_share(alloc: Global, names: &[Text]) -> Result<What, Stop>
    ensures { Gives result (asked.get_share names.now) }
{
    let share = name_at(alloc, names, 1)?;
    Ok(What::GetShare { share })
}

fn list_schemas(alloc: Global, names: &[Text], pairs: &[QueryPair]) -> Result<What, Stop>
    ensures { Gives result (asked.list_schemas names.now pairs.now) }
{
    let page = page_of(alloc, pairs)?;
    let share = name_at(alloc, names, 1)?;
    Ok(What::ListSchemas { share, page })
}

fn list_tables(alloc: Global, names: &[Text], pairs: &[QueryPair]) -> Result<What, Stop>
    ensures { Gives result (asked.list_tables names.now pairs.now) }
{
    let page = page_of(alloc, pairs)?;
    let share = name_at(alloc, names, 1)?;
    let schema = name_at(alloc, names, 3)?;
    Ok(What::ListTables {
        share,
        schema,
        page,
    })
}

fn list_all(alloc: Global, names: &[Text], pairs: &[QueryPair]) -> Result<What, Stop>
    ensures { Gives result (asked.list_all names.now pairs.now) }
{
    let page = page_of(alloc, pairs)?;
    let share = name_at(alloc, names, 1)?;
    Ok(What::ListAll { share, page })
}

fn version(alloc: Global, names: &[Text], pairs: &[QueryPair]) -> Result<What, Stop>
    ensures { Gives result (asked.version names.now pairs.now) }
{
    let from = moment_at(Parameter::StartingTimestamp, pairs)?;
    let table = table_at(alloc, names)?;
    Ok(What::Version { table, from })
}

fn metadata(alloc: Global, names: &[Text], pairs: &[QueryPair]) -> Result<What, Stop>
    ensures { Gives result (asked.metadata names.now pairs.now) }
{
    let at = at_in(pairs)?;
    let table = table_at(alloc, names)?;
    Ok(What::Metadata { table, at })
}

fn query(alloc: Global, names: &[Text], body: &[u8]) -> Result<What, Stop>
    ensures { Gives result (asked.query names.now body.now) }
{
    let body = query_of(alloc, body)?;
    let table = table_at(alloc, names)?;
    Ok(What::Query { table, body })
}

fn changes_from(
    alloc: Global,
    names: &[Text],
    pairs: &[QueryPair],
    token: Option<Text>,
) -> Result<What, Stop>
    ensures { Gives result (asked.changes_from names.now pairs.now token) }
{
    let from = from_in(pairs, &token)?;
    let to = to_in(pairs)?;
    let max = max_files_in(pairs)?;
    let table = table_at(alloc, names)?;
    Ok(What::Changes {
        table,
        from,
        to,
        max,
        token,
    })
}

fn changes(alloc: Global, names: &[Text], pairs: &[QueryPair]) -> Result<What, Stop>
    ensures { Gives result (asked.changes names.now pairs.now) }
{
    let token = token_of(alloc, pairs)?;
    changes_from(alloc, names, pairs, token)
}

fn commit(alloc: Global, body: &[u8]) -> Result<What, Stop>
    ensures { Gives result (asked.commit body.now) }
{
    let offer = offer_in(alloc, body)?;
    Ok(What::Commit { offer })
}

fn refresh(alloc: Global, body: &[u8]) -> Result<What, Stop>
    ensures { Gives result (asked.refresh body.now) }
{
    let location = refresh_in(alloc, body)?;
    Ok(What::Refresh { location })
}

fn edit(alloc: Global, body: &[u8]) -> Result<What, Stop>
    ensures { Gives result (asked.edit body.now) }
{
    let edit = edit_in(alloc, body)?;
    Ok(What::Edit { edit })
}

// What is asked by a route, which isn't that of links.
fn what_at(
    alloc: Global,
    route: Route,
    names: &[Text],
    pairs: &[QueryPair],
    body: &[u8],
) -> Result<What, Stop>
    ensures { Gives result (asked.what_at route names.now pairs.now body.now) }
{
    match route {
        Route::ListShares => list_shares(alloc, pairs),
        Route::GetShare => get_share(alloc, names),
        Route::ListSchemas => list_schemas(alloc, names, pairs),
        Route::ListTables => list_tables(alloc, names, pairs),
        Route::ListAll => list_all(alloc, names, pairs),
        Route::Version => version(alloc, names, pairs),
        Route::Metadata => metadata(alloc, names, pairs),
        Route::Query => query(alloc, names, body),
        Route::Changes => changes(alloc, names, pairs),
        Route::Commit => commit(alloc, body),
        Route::Refresh => refresh(alloc, body),
        Route::Edit => edit(alloc, body),
        Route::File => Err(Stop::Refused(RequestFault::NotFound)),
    }
}

// What is asked, or why the request is refused.
fn asked_at(
    alloc: Global,
    route: Route,
    names: &[Text],
    pairs: &[QueryPair],
    body: &[u8],
) -> Result<Result<What, RequestFault>, AllocError>
    ensures { IfOk result (λ r. r ≡ asked.what_at route names.now pairs.now body.now) }
{
    match what_at(alloc, route, names, pairs, body) {
        Ok(what) => Ok(Ok(what)),
        Err(Stop::Refused(fault)) => Ok(Err(fault)),
        Err(Stop::NoMemory) => Err(AllocError),
    }
}

fn pairs_or_none(alloc: Global, query: Option<&str>) -> Result<Vec<QueryPair>, AllocError>
    ensures { IfOk result (λ v. v.items ≡ spec.pairs_or_none (option_map (λ q. q.now) query.entry)) }
{
    match query {
        Some(query) => pairs_of(alloc, query),
        None => Ok(Vec::new(alloc)),
    }
}

fn by_token(
    alloc: Global,
    digest: [u8; 32],
    route: Route,
    format: ResponseFormat,
    names: &[Text],
    query: Option<&str>,
    body: &[u8],
) -> Result<Request, AllocError>
    ensures { IfOk result (λ r. r ≡ spec.by_token digest route format names.now (option_map (λ q. q.now) query.entry) body.now) }
{
    let pairs = pairs_or_none(alloc, query)?;
    let asked = asked_at(alloc, route, names, &pairs, body)?;
    Ok(Request::ByToken(ByToken {
        digest,
        route,
        format,
        asked,
    }))
}

fn is_head(head: &Head) -> bool
    ensures { result ≡ spec.is_head head.now }
{
    head.method.as_str() == "HEAD"
}

pub(crate) fn has_method(head: &Head, method: Method) -> bool
    ensures { result ≡ spec.has_method method head.now.method }
{
    match method {
        Method::Get => head.method.as_str() == "GET",
        Method::Post => head.method.as_str() == "POST",
        Method::GetOrHead => head.method.as_str() == "GET" || is_head(head),
    }
}

fn turned_away(why: TurnedAway) -> Request
    ensures { result ≡ spec.turned_away why }
{
    Request::TurnedAway(why)
}

fn at_route(
    alloc: Global,
    head: &Head,
    route: Route,
    names: &[Text],
    query: Option<&str>,
    body: &[u8],
) -> Result<Request, AllocError>
    ensures { IfOk result (λ r. r ≡ spec.at_route head.now route names.now (option_map (λ q. q.now) query.entry) body.now) }
{
    if !has_method(head, route.method()) {
        return Ok(turned_away(TurnedAway::WrongMethod(route.method())));
    }
    match bearer_of(head) {
        Some(digest) => {
            let format = format_in(&head.fields);
            by_token(alloc, digest, route, format, names, query, body)
        }
        None => Ok(turned_away(TurnedAway::NoBearer)),
    }
}

fn by_link(
    alloc: Global,
    head: &Head,
    below: &str,
    query: Option<&str>,
) -> Result<Request, AllocError>
    ensures { IfOk result (λ r. r ≡ spec.by_link head.now below.now (option_map (λ q. q.now) query.entry)) }
{
    let allowed = Route::File.method();
    if !has_method(head, allowed) {
        return Ok(turned_away(TurnedAway::WrongMethod(allowed)));
    }
    Ok(Request::ByLink(ByLink {
        target: link_target(alloc, below, query)?,
        head: is_head(head),
        span: span_of(head),
    }))
}

fn link_or(
    alloc: Global,
    head: &Head,
    below: &str,
    query: Option<&str>,
    body: &[u8],
) -> Result<Request, AllocError>
    ensures { IfOk result (λ r. r ≡ spec.below_in head.now (Some below.now) (option_map (λ q. q.now) query.entry) body.now) }
{
    if let Some(file) = after("files/", below) {
        return by_link(alloc, head, file, query);
    }
    let names = segments_of(alloc, below)?;
    match route_of(&names) {
        Some(route) => at_route(alloc, head, route, &names, query, body),
        None => Ok(turned_away(TurnedAway::NoRoute)),
    }
}

fn below_in(
    alloc: Global,
    head: &Head,
    path: &str,
    query: Option<&str>,
    body: &[u8],
) -> Result<Request, AllocError>
    ensures { IfOk result (λ r. r ≡ spec.below_in head.now (below_endpoint path.now) (option_map (λ q. q.now) query.entry) body.now) }
{
    match below_endpoint(path) {
        Some(below) => link_or(alloc, head, below, query, body),
        None => Ok(turned_away(TurnedAway::NoRoute)),
    }
}

/// The request that a head and a body ask (Delta Sharing PROTOCOL.md, "REST APIs"), or the first reason why it is refused: that no
/// route has its path, that the route has another method, and, but for links, that there is no bearer token (see
/// [`bearer_of`](crate::bearer_of)); then, for when it is known who asks, the query string, the body, and the names in the path.
///
/// A target in absolute form is read without its host. Segments of the path behind the endpoint's, `/delta-sharing/`, are
/// unescaped, and the letters of names lowered; of several parameters of one name the first counts; unknown parameters, unknown
/// fields of bodies and the bodies of GET requests are passed over. A link's target is answered in the one spelling of links:
/// unescaped and escaped again, as URL libraries and proxies rewrite escapes, but for its query. Links alone are asked for by HEAD
/// too, and in parts: see [`span_of`] for which Range fields count.
///
/// Lines are asked for in the delta format exactly where, of the parts between the `;` of all `delta-sharing-capabilities` fields, the
/// first one named `responseformat` lists `delta`, and not `parquet`, behind its `=`; case, spaces and tabs around the words say nothing,
/// and values that aren't UTF-8 are passed over.
///
/// The time is linear in the bytes, and no body is copied. The error is want of memory.
pub fn request_of(alloc: Global, head: &Head, body: &[u8]) -> Result<Request, AllocError>
    ensures { IfOk result (λ r. r ≡ spec.request_in head.now body.now) }
{
    let (path, query) = split_query(head.target.as_str());
    below_in(alloc, head, path, query, body)
}
