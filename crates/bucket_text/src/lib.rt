//! What a bucket over S3's protocol answers as XML: a page of a listing, and the code of an error. Anything else is told as bad.
#![tactic(auto)]

mod elements;
mod fault;
mod listing;
mod name;
mod tag;
mod text;

pub use elements::{Element, elements_of};
pub use fault::Fault;
pub use listing::{Listing, code_of, listing_of};
