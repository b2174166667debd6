//! JSON values of bytes, the fields of JSON objects by their kinds (RFC 8259), and the texts and small numbers that
//! they hold.
#![tactic(auto)]

mod fields;
mod pairs;
mod small;
mod text;
mod tree;

pub use fields::{FieldFault, count_at, flag_at, member_at, pairs_at, text_at, texts_at, whole_at};
pub use pairs::{Pair, Pairs, copy_pairs_or_none};
pub use small::{Edition, Millis, Place, Small, Version};
pub use text::{Text, Texts, copy_text_or_none, unless_empty};
pub use tree::{TreeFault, tree_of};
