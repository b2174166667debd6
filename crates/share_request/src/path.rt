// The routes that paths name, and the names in them.
ghost use Rattle.std.specs.Prelude.{◌≡◌, IfOk, bytes_eq, codes, take};
ghost use Rattle.share_request.specs.Paths.{name_at, segment_text, segments_in, table_at, table_route};
ghost use Rattle.share_request.specs.Paths as spec;
ghost use Rattle.share_request.specs.Stops.{Gives};

use crate::fault::{RequestFault, Stop};
use crate::target::cut;
use case_table::Route;
use json_tree::Text;
use percent_encoding::percent_decode_str;
use share_catalog::{CatalogName, TableName};
use std::alloc::{AllocError, Global};

// The text of a segment: unescaped, with U+FFFD for what isn't UTF-8.
fn segment_text(alloc: Global, segment: &str) -> Result<Text, AllocError>
    ensures { IfOk result (λ t. t ≡ segment_text segment.now) }
{
    let text = percent_decode_str(segment).decode_utf8_lossy(alloc)?;
    Ok(Text::of(text.into_owned(alloc)?))
}

// The texts between the slashes, of which the first eight are read: no route has more than seven.
pub(crate) fn segments_of(alloc: Global, path: &str) -> Result<Vec<Text>, AllocError>
    ensures { IfOk result (λ v. v.items ≡ take 8 (segments_in path.now)) }
{
    let mut segments = Vec::new(alloc);
    let mut rest = path;
    while segments.len() < 8 {
        let Some((segment, later)) = cut('/', rest) else {
            segments.push(segment_text(alloc, rest)?)?;
            return Ok(segments);
        };
        segments.push(segment_text(alloc, segment)?)?;
        rest = later;
    }
    Ok(segments)
}

fn pair_route(first: &str, second: &str) -> Option<Route>
    ensures { result ≡ spec.pair_route first.now second.now }
{
    match first {
        "shares" => Some(Route::GetShare),
        "provider" => provider_route(second),
        "admin" => admin_route(second),
        _ => None,
    }
}

fn provider_route(word: &str) -> Option<Route>
    ensures { result ≡ spec.provider_route word.now }
{
    match word {
        "commit" => Some(Route::Commit),
        "refresh" => Some(Route::Refresh),
        _ => None,
    }
}

fn admin_route(word: &str) -> Option<Route>
    ensures { result ≡ spec.admin_route word.now }
{
    match word {
        "edit" => Some(Route::Edit),
        _ => None,
    }
}

fn share_route(word: &str) -> Option<Route>
    ensures { result ≡ spec.share_route word.now }
{
    match word {
        "schemas" => Some(Route::ListSchemas),
        "all-tables" => Some(Route::ListAll),
        _ => None,
    }
}

fn table_route(word: &str) -> Option<Route>
    ensures { result ≡ table_route word.now }
{
    match word {
        "version" => Some(Route::Version),
        "metadata" => Some(Route::Metadata),
        "query" => Some(Route::Query),
        "changes" => Some(Route::Changes),
        _ => None,
    }
}

// The route that the segments below the endpoint name.
pub(crate) fn route_of(segments: &[Text]) -> Option<Route>
    ensures { result ≡ spec.route_of segments.now }
{
    match segments {
        [a] if a.as_str() == "shares" => Some(Route::ListShares),
        [a, b] => pair_route(a.as_str(), b.as_str()),
        [a, _, c] if a.as_str() == "shares" => share_route(c.as_str()),
        [a, _, c, _, e] if is_table_path(a, c, e) => Some(Route::ListTables),
        [a, _, c, _, e, _, g] if is_table_path(a, c, e) => table_route(g.as_str()),
        _ => None,
    }
}

fn is_table_path(shares: &Text, schemas: &Text, tables: &Text) -> bool
    ensures { result ≡ spec.is_table_path shares.now schemas.now tables.now }
{
    shares.as_str() == "shares" && schemas.as_str() == "schemas" && tables.as_str() == "tables"
}

// The name that a text is, with its letters lowered.
fn name_of(alloc: Global, text: &str) -> Result<CatalogName, Stop>
    ensures { Gives result (spec.name_of text.now) }
{
    let mut text = String::from_str(alloc, text)?;
    text.make_ascii_lowercase();
    match CatalogName::of(text) {
        Some(name) => Ok(name),
        None => Err(Stop::Refused(RequestFault::NotFound)),
    }
}

// The name that the segment at that index is.
pub(crate) fn name_at(alloc: Global, segments: &[Text], index: usize) -> Result<CatalogName, Stop>
    ensures { Gives result (name_at index segments.now) }
{
    match segments.get(index) {
        Some(segment) => name_of(alloc, segment.as_str()),
        None => Err(Stop::Refused(RequestFault::NotFound)),
    }
}

// The name of the table that the segments name.
pub(crate) fn table_at(alloc: Global, segments: &[Text]) -> Result<TableName, Stop>
    ensures { Gives result (table_at segments.now) }
{
    Ok(TableName {
        share: name_at(alloc, segments, 1)?,
        schema: name_at(alloc, segments, 3)?,
        table: name_at(alloc, segments, 5)?,
    })
}
