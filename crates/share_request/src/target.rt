// Targets of requests, and the one spelling of a link's.
ghost use Rattle.std.specs.Prelude.{◌≡◌, ◌++◌, ◌<◌, OnOk, IfOk, option_map, string_bytes};
ghost use Rattle.signed_link.specs.Reading.{after, cut};
ghost use Rattle.share_request.specs.Targets.{behind_host, below_endpoint, below_root, link_parts, one_spelling, path_spelling, query_text, split_query};
ghost use Rattle.share_request.specs.Targets as spec;

use json_tree::Text;
use percent_encoding::percent_decode_str;
use std::alloc::{AllocError, Global};
use text_forms::push_escaped;

// What comes before the first such character, and what comes after it.
#[tactic(auto, unfolding(signed_link::specs::Reading::cut))]
pub(crate) fn cut(at: char, text: &str) -> Option<(&str, &str)>
    requires { at < 128 }
    ensures { option_map (λ x. (x.0.now, x.1.now)) result ≡ cut at text.now }
{
    text.split_once(at)
}

// What comes after the front.
pub(crate) fn after<'a>(front: &str, text: &'a str) -> Option<&'a str>
    ensures { option_map (λ t. t.now) result ≡ after front.now text.now }
{
    match text.strip_prefix(front) {
        Some(rest) => Some(rest),
        None => None,
    }
}

// The path of a target, and its query, where it has one.
pub(crate) fn split_query(target: &str) -> (&str, Option<&str>)
    ensures path { result.0.now ≡ (split_query target.now).0 }
    ensures query { option_map (λ q. q.now) result.1 ≡ (split_query target.now).1 }
{
    match cut('?', target) {
        Some((path, query)) => (path, Some(query)),
        None => (target, None),
    }
}

fn behind_host(rest: &str) -> Option<&str>
    ensures { option_map (λ t. t.now) result ≡ behind_host rest.now }
{
    let (_, path) = cut('/', rest)?;
    Some(path)
}

// The path below the root, of a target in origin form or in absolute form.
fn below_root(path: &str) -> Option<&str>
    ensures { option_map (λ t. t.now) result ≡ below_root path.now }
{
    if let Some(rest) = after("http://", path) {
        return behind_host(rest);
    }
    if let Some(rest) = after("https://", path) {
        return behind_host(rest);
    }
    after("/", path)
}

// The path below the endpoint.
pub(crate) fn below_endpoint(path: &str) -> Option<&str>
    ensures { option_map (λ t. t.now) result ≡ below_endpoint path.now }
{
    after("delta-sharing/", below_root(path)?)
}

// A link's names and path, below `files/`.
fn link_parts(below: &str) -> Option<(&str, &str, &str, &str)>
    ensures { option_map (λ p. (p.0.now, p.1.now, p.2.now, p.3.now)) result ≡ link_parts below.now }
{
    let (share, rest) = cut('/', below)?;
    let (schema, rest) = cut('/', rest)?;
    let (table, path) = cut('/', rest)?;
    Some((share, schema, table, path))
}

// Writes the one spelling of a part at the end.
fn push_spelling(alloc: Global, text: &mut String, part: &str) -> Result<(), AllocError>
    ensures { OnOk result (string_bytes text.new ≡ string_bytes text.old ++ one_spelling part.now) }
{
    let mut bytes = Vec::new(alloc);
    percent_decode_str(part).append_to(&mut bytes)?;
    push_escaped(text, &bytes)
}

fn push_segment(alloc: Global, text: &mut String, name: &str) -> Result<(), AllocError>
    ensures { OnOk result (string_bytes text.new ≡ string_bytes text.old ++ spec.segment_spelling name.now) }
{
    push_spelling(alloc, text, name)?;
    text.push_str("/")
}

// Writes the one spelling of what stands below `files/` at the end.
fn push_path(alloc: Global, text: &mut String, below: &str) -> Result<(), AllocError>
    ensures { OnOk result (string_bytes text.new ≡ string_bytes text.old ++ path_spelling below.now) }
{
    let Some((share, schema, table, path)) = link_parts(below) else {
        return text.push_str(below);
    };
    push_segment(alloc, text, share)?;
    push_segment(alloc, text, schema)?;
    push_segment(alloc, text, table)?;
    push_spelling(alloc, text, path)
}

fn push_query(text: &mut String, query: Option<&str>) -> Result<(), AllocError>
    ensures { OnOk result (string_bytes text.new ≡ string_bytes text.old ++ query_text (option_map (λ q. q.now) query.entry)) }
{
    let Some(query) = query else {
        return Ok(());
    };
    text.push_str("?")?;
    text.push_str(query)
}

// The target of a link whose path stands so below `files/`, in its one spelling.
pub(crate) fn link_target(
    alloc: Global,
    below: &str,
    query: Option<&str>,
) -> Result<Text, AllocError>
    ensures { IfOk result (λ t. t ≡ spec.link_target below.now (option_map (λ q. q.now) query.entry)) }
{
    let mut text = String::from_str(alloc, "/delta-sharing/files/")?;
    push_path(alloc, &mut text, below)?;
    push_query(&mut text, query)?;
    Ok(Text::of(text))
}
