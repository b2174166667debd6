// What all pages of an answer have alike.
ghost use Rattle.std.specs.Prelude.{None, decimal};
ghost use Rattle.share_client.specs.TablePages.{changed, if_other};
ghost use Rattle.share_client.specs.TableSteps.{Compares, IsBehind};

use crate::ClientFault;
use crate::target::text_of;
use json_tree::Text;
use std::alloc::Global;

// What a page must have as the first page has it.
#[derive(Drop)]
pub(crate) struct PageHead<F> {
    // The version, below 2^63.
    pub(crate) version: u64,
    // What stands in front of the files: the metadata, and what else the form has there.
    pub(crate) front: F,
    // The text of it.
    pub(crate) text: Text,
}

fn compare(alloc: Global, first: &str, other: &str) -> Result<(), ClientFault>
    ensures { Compares (if_other first.now other.now None) result }
{
    if first == other {
        return Ok(());
    }
    Err(ClientFault::PageChanged {
        first: text_of(alloc, first)?,
        other: text_of(alloc, other)?,
    })
}

fn compare_versions(alloc: Global, first: u64, other: u64) -> Result<(), ClientFault>
    ensures { Compares (if_other (decimal first) (decimal other) None) result }
{
    let first = format!(in alloc; "{first}")?;
    let other = format!(in alloc; "{other}")?;
    compare(alloc, &first, &other)
}

fn compare_heads<F>(
    alloc: Global,
    first: &PageHead<F>,
    page: &PageHead<F>,
) -> Result<(), ClientFault>
    ensures { Compares (changed first.now page.now) result }
{
    compare_versions(alloc, first.version, page.version)?;
    compare(alloc, first.text.as_str(), page.text.as_str())
}

// The token behind a page that may come behind the first.
pub(crate) fn token_behind<F: Drop>(
    alloc: Global,
    first: &PageHead<F>,
    page: (PageHead<F>, Option<Text>),
) -> Result<Option<Text>, ClientFault>
    ensures { IsBehind first.now page result }
{
    let (head, token) = page;
    match compare_heads(alloc, first, &head) {
        Ok(()) => Ok(token),
        Err(fault) => Err(fault),
    }
}
