// Where requests go.
ghost use Rattle.std.specs.Prelude.{◌≡◌, ◌++◌, IfOk, string_bytes, option_copied};
ghost use Rattle.share_client.specs.Targets.{port_tail, target_in};

use json_tree::Text;
use std::alloc::{AllocError, Global};
use url::{ParseError, Url};

// Where the requests of a URL go.
#[derive(Drop)]
pub(crate) struct Target {
    // The host to connect to.
    pub(crate) host: Text,
    // The port to connect to.
    pub(crate) port: u16,
    // The value of the field Host.
    pub(crate) host_field: Text,
    // The path.
    pub(crate) path: Text,
    // The query, without its question mark.
    pub(crate) query: Option<Text>,
}

// The host, and a colon and the port where there is one.
fn host_field(alloc: Global, host: &str, port: Option<u16>) -> Result<Text, AllocError>
    ensures { IfOk result (λ text. text ≡ host.now ++ port_tail port) }
{
    match port {
        Some(port) => Ok(Text::of(format!(in alloc; "{host}:{port}")?)),
        None => text_of(alloc, host),
    }
}

pub(crate) fn text_of(alloc: Global, text: &str) -> Result<Text, AllocError>
    ensures { IfOk result (λ t. t ≡ text.now) }
{
    Ok(Text::of(String::from_str(alloc, text)?))
}

fn query_of(alloc: Global, query: Option<&str>) -> Result<Option<Text>, AllocError>
    ensures { IfOk result (λ found. found ≡ option_copied query.entry) }
{
    match query {
        Some(query) => Ok(Some(text_of(alloc, query)?)),
        None => Ok(None),
    }
}

// Where the requests go of a text that is an absolute `http` URL with a host. The error is want of memory, or of room for a URL
// of 4 GiB.
pub(crate) fn target_of(alloc: Global, text: &str) -> Result<Option<Target>, AllocError>
    ensures { IfOk result (λ found. found ≡ target_in text.now) }
{
    let url = match Url::parse(alloc, text) {
        Ok(url) => url,
        Err(ParseError::OutOfMemory | ParseError::Overflow) => return Err(AllocError),
        Err(_) => return Ok(None),
    };
    if url.scheme() != "http" {
        return Ok(None);
    }
    let Some(host) = url.host_str() else {
        return Ok(None);
    };
    Ok(Some(Target {
        host: text_of(alloc, host)?,
        port: url.port().unwrap_or(80),
        host_field: host_field(alloc, host, url.port())?,
        path: text_of(alloc, url.path())?,
        query: query_of(alloc, url.query())?,
    }))
}
