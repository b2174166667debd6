// The requests for lists.
ghost use Rattle.std.specs.Prelude.{◌≡◌, ◌++◌, IfOk, string_bytes, codes, option_map};
ghost use Rattle.share_client.specs.Routes.{first_token, list_text, route_text, tables_route};
ghost use Rattle.share_config.specs.Profiles.{without_slash as without_slash_at_end};
ghost use Rattle.share_config.specs.Texts.{before as before_end};

use crate::request::get_text;
use crate::server::Server;
use json_tree::Text;
use std::alloc::{AllocError, Global};
use text_forms::push_escaped;

// The route of the list of shares.
pub(crate) const SHARES: &str = "/shares";

// What stands before the end of a text that ends with it.
fn before<'a>(end: &str, text: &'a str) -> Option<&'a str>
    ensures { option_map (λ s. s.now) result ≡ before_end end.now text.now }
{
    text.strip_suffix(end)
}

fn without_slash(path: &str) -> &str
    ensures { result.now ≡ without_slash_at_end path.now }
{
    match before("/", path) {
        Some(front) => front,
        None => path,
    }
}

// A path below the server's.
pub(crate) fn path_of(alloc: Global, server: &Server, route: &str) -> Result<String, AllocError>
    ensures { IfOk result (λ t. string_bytes t ≡ without_slash_at_end server.now.target.path ++ route.now) }
{
    let mut path = String::from_str(alloc, without_slash(server.target.path.as_str()))?;
    path.push_str(route)?;
    Ok(path)
}

// A GET of a route of the server.
pub(crate) fn route_text(alloc: Global, server: &Server, route: &str) -> Result<String, AllocError>
    ensures { IfOk result (λ t. string_bytes t ≡ route_text server.now route.now) }
{
    let path = path_of(alloc, server, route)?;
    get_text(
        alloc,
        &path,
        server.target.host_field.as_str(),
        Some(server.bearer.as_str()),
    )
}

// The first parameter of a query string, where there is a token.
fn first_token(alloc: Global, token: &Option<Text>) -> Result<String, AllocError>
    ensures { IfOk result (λ t. string_bytes t ≡ first_token token.now) }
{
    match token {
        Some(token) => {
            let mut text = String::from_str(alloc, "?pageToken=")?;
            push_escaped(&mut text, token.as_str().as_bytes())?;
            Ok(text)
        }
        None => Ok(String::new(alloc)),
    }
}

// The request for the page of a list with that token.
pub(crate) fn list_text(
    alloc: Global,
    server: &Server,
    route: &str,
    token: &Option<Text>,
) -> Result<String, AllocError>
    ensures { IfOk result (λ t. string_bytes t ≡ list_text server.now route.now token.now) }
{
    let parameter = first_token(alloc, token)?;
    let route = format!(in alloc; "{route}{parameter}")?;
    route_text(alloc, server, &route)
}

// The route of the list of a share's tables.
pub(crate) fn tables_route(alloc: Global, share: &str) -> Result<String, AllocError>
    ensures { IfOk result (λ t. string_bytes t ≡ tables_route share.now) }
{
    let mut route = String::from_str(alloc, "/shares/")?;
    push_escaped(&mut route, share.as_bytes())?;
    route.push_str("/all-tables")?;
    Ok(route)
}
