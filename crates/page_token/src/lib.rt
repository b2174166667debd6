//! Page tokens: where a listing or a query goes on, as a text that only who has the key can make.
#![tactic(auto)]

mod cursor;
mod payload;
mod reading;
mod token;

pub use cursor::{Asked, Cursor, FeedCursor, FilesCursor, ListCursor, ListKind, TableAccess};
pub use payload::kind_text;
pub use token::{cursor_of, cursors_are_spelt, one_cursor, spell};
