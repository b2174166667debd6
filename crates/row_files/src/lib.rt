//! Files of rows: each line names a call, what it is given and what it is to answer, as one JSON object. A program runs the rows of
//! its standard input, and tells those that are answered otherwise.
//!
//! A line is empty, or a heading behind `#`, or one of these objects:
//! - `{"let":NAME,"be":TEXT}` names a text, `{"let":NAME,"objects":{OBJECT:TEXT,..}}` names objects of a store; lines below it speak
//!   of either as `$NAME`;
//! - a row: an object with a `name`, which says what it shows. Its other members are the program's own.
//!
//! A TEXT is a PART, or a list of parts that are joined. A PART is
//! - `"abc"`: these characters; `"$NAME"`: the text of that name; `"$$abc"`: the characters `$abc`;
//! - `{"base64":"AAEC"}`: these bytes;
//! - `{"times":[3,"abc"]}`: that text so often; `{"front":[2,"abc"]}`: so many of its first bytes;
//! - `{"counted":20}`: so many bytes, of `00000000`, `00000001` and so on;
//! - `{"sized":[HEAD,BODY]}`: a head of HTTP up to its last field, with the `Content-Length` of the body, and the body.
#![tactic(auto)]

mod file;
mod members;
mod outside;
mod parts;
mod running;
mod told;

pub use file::{RowFault, RowFile, name_of};
pub use members::{
    flag_at, list_at, member_at, number_at, numbers_at, text_at, text_or_nothing, word_at,
};
pub use outside::{clock_of, sink_of, source_of, stock, store_of};
pub use running::run_rows;
pub use told::{Told, push_words};
