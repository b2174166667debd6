// Parts of lists, page by page.
ghost use Rattle.std.specs.Prelude.{◌≡◌, ◌≤◌, IfOk, length, map};
ghost use Rattle.pred_tree.specs.Listing.{passes};
ghost use Rattle.share_reply.specs.Cuts.{is_full};
ghost use Rattle.share_reply.specs.Pages.{given, next_place};

use log_actions::AddFile;
use pred_tree::Filter;
use share_book::ShownFiles;
use std::alloc::{AllocError, Global};

// The files of a page, and the place at which the next one begins.
#[derive(Drop)]
pub(crate) struct FilesCut<'a> {
    pub(crate) files: Vec<&'a AddFile>,
    pub(crate) next: Option<u64>,
}

// Whether a page has all that it may have.
pub(crate) fn is_full(count: usize, most: Option<u64>) -> bool
    ensures { result ≡ is_full count most }
{
    match most {
        Some(most) => most <= count as u64,
        None => false,
    }
}

// The first files from a place on that are listed. It ends at the first of them that is behind the page.
pub(crate) fn files_cut<'a>(
    alloc: Global,
    shown: &ShownFiles<'a>,
    listing: &Filter,
    most: Option<u64>,
    place: u64,
) -> Result<FilesCut<'a>, AllocError>
    ensures files { IfOk result (λ c. map (λ f. f.now) c.files.items ≡ given (passes listing.now) most place shown.now) }
    ensures next { IfOk result (λ c. c.next ≡ next_place (passes listing.now) most place shown.now) }
{
    let mut files = Vec::new(alloc);
    let mut next = place;
    for at in place..shown.len() {
        let file = shown.file(at);
        if listing.lists(file) {
            if is_full(files.len(), most) {
                return Ok(FilesCut {
                    files,
                    next: Some(next),
                });
            }
            files.push(file)?;
            next = at + 1;
        }
    }
    Ok(FilesCut { files, next: None })
}
