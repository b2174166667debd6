// Who calls.
use share_book::Book;
use std::alloc::Global;
use turn_cell::TurnCell;

/// What a caller adds to tables' logs with: the cell of the book, the handle with which it waits for its turns, and the memory that
/// it takes.
#[derive(Drop)]
pub struct Caller<'a, R> {
    /// The cell of the book.
    pub cell: &'a TurnCell<Book>,
    /// What the caller waits with.
    pub rt: &'a R,
    /// The memory that is taken.
    pub alloc: Global,
}
