// A page of a table, before its format.
use crate::lines::PageLines;

// The version that is answered, and its lines.
#[derive(Drop)]
pub(crate) struct Paged<'a> {
    pub(crate) version: u64,
    pub(crate) lines: PageLines<'a>,
}
