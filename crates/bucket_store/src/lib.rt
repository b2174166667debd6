//! A store over S3's protocol: a bucket as a store of objects, what each of its answers decides, and that puts decided so tell the truth,
//! however the requests of any number of stores meet on one bucket.
#![tactic(auto)]

mod asking;
mod check;
mod ends;
mod exchange;
mod facts;
mod laws;
mod listing;
mod looks;
mod names;
mod objects;
mod place;
mod puts;
mod refusal;
mod road;
mod store;

pub use laws::puts_tell_the_truth;
pub use looks::{
    GetNext, GetReply, ListNext, SizeNext, get_next, is_passing, list_next, size_next,
};
pub use place::BucketPlace;
pub use puts::{Look, MOST_TRIES, PutNext, PutReply, looked, put_next, put_reply};
pub use refusal::{BucketFault, Refusal};
pub use store::BucketStore;
