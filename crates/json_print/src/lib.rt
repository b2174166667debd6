//! JSON objects (RFC 8259) printed compactly, field after field, and read back; texts cut into
//! lines.
#![tactic(auto)]

mod fields;
mod lengths;
pub mod lines;
mod text;
mod tokens;

pub use fields::{
    count_field, flag_field, nonempty_pairs_field, optional_count_field, optional_pairs_field,
    optional_text_field, optional_texts_field, optional_whole_field, pairs_field, string_field,
    text_field, texts_field, whole_field,
};
pub use lengths::Length;
pub use text::{begin_object, end_object, new_writer, printed};
pub use tokens::Tokens;
