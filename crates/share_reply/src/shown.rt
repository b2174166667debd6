// Pages of the files that are shown of a table, cut in one walk over all.
ghost use Rattle.std.specs.Prelude.{IfOk, filter};
ghost use Rattle.pred_tree.specs.Listing.{passes};
ghost use Rattle.pred_tree.specs.Shown.{shown_in};
ghost use Rattle.share_reply.specs.Cuts.{IsCutOf};

use crate::cut::{FilesCut, is_full};
use log_replay::Snapshot;
use pred_tree::{Filter, Shown};
use std::alloc::{AllocError, Global};

// The first files that are listed, from a place among those that are shown on; none where fewer are shown than stand before it. It
// ends at the first of them that is behind the page.
pub(crate) fn shown_cut<'a>(
    alloc: Global,
    snapshot: &'a Snapshot,
    shown: &Shown,
    listing: &Filter,
    most: Option<u64>,
    place: u64,
) -> Result<Option<FilesCut<'a>>, AllocError>
    ensures { IfOk result (IsCutOf (passes listing.now) most place (filter (shown_in shown.now) snapshot.now.files)) }
{
    let mut files = Vec::new(alloc);
    let mut next = place;
    let mut seen = 0u64;
    for at in 0..snapshot.len() {
        let file = snapshot.file(at);
        if shown.shows(file) {
            if seen >= place && listing.lists(file) {
                if is_full(files.len(), most) {
                    return Ok(Some(FilesCut {
                        files,
                        next: Some(next),
                    }));
                }
                files.push(file)?;
                next = seen + 1;
            }
            seen += 1;
        }
    }
    if seen < place {
        return Ok(None);
    }
    Ok(Some(FilesCut { files, next: None }))
}
