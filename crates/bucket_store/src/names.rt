// The names of a page, below a folder.
ghost use Rattle.std.specs.Prelude.{◌≡◌, ◌++◌, option_and_then, option_map, option_to_list, IfOk, OnOk, IfSome};
ghost use Rattle.edge_core.specs.Objects.{after_prefix};
ghost use Rattle.bucket_store.specs.Folders as spec;
ghost use Rattle.bucket_store.specs.Folders.{IsInOrder};

use edge_core::{Segment, Segments};
use json_tree::Text;
use std::alloc::{AllocError, Global};

// What stands behind the front of a text that begins with it.
fn behind<'a>(front: &str, text: &'a str) -> Option<&'a str>
    ensures { option_map (λ s. s.now) result ≡ after_prefix front.now text.now }
{
    text.strip_prefix(front)
}

// The text as a segment, where it is one.
fn segment_of(alloc: Global, text: &str) -> Result<Option<Segment>, AllocError>
    ensures { IfOk result (λ s. s ≡ spec.segment text.now) }
{
    let owned = String::from_str(alloc, text)?;
    Ok(Segment::of(owned))
}

// The last segment of a key, where it stands directly in the folder that the front ends with.
fn segment_in(alloc: Global, front: &str, key: &str) -> Result<Option<Segment>, AllocError>
    ensures { IfOk result (λ s. s ≡ option_and_then spec.segment (after_prefix front.now key.now)) }
{
    match behind(front, key) {
        Some(rest) => segment_of(alloc, rest),
        None => Ok(None),
    }
}

fn push_some(segments: &mut Vec<Segment>, segment: Option<Segment>) -> Result<(), AllocError>
    ensures { OnOk result (segments.new.items ≡ segments.old.items ++ option_to_list segment) }
{
    if let Some(segment) = segment {
        segments.push(segment)?;
    }
    Ok(())
}

/// Adds the segments of the keys of a page.
pub(crate) fn push_segments(
    alloc: Global,
    segments: &mut Vec<Segment>,
    front: &str,
    keys: &[Text],
) -> Result<(), AllocError>
    ensures { OnOk result (segments.new.items ≡ segments.old.items ++ spec.segments_of front.now keys.now) }
{
    for key in keys {
        let segment = segment_in(alloc, front, key.as_str())?;
        push_some(segments, segment)?;
    }
    Ok(())
}

/// The segments in byte order; none where memory is wanting.
pub(crate) fn in_order(segments: Vec<Segment>) -> Option<Segments>
    ensures { IfSome result (λ sorted. IsInOrder segments.items sorted) }
{
    let mut segments = segments;
    match segments.sort_by(|a, b| a.as_str().cmp(b.as_str())) {
        Ok(()) => Some(Segments::of(segments)),
        Err(_) => None,
    }
}
