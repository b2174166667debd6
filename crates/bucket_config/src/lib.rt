//! What a store over S3's protocol is told before it begins, read from a JSON text and from what the environment gives: where the bucket is,
//! and the key that signs.
#![tactic(auto)]

mod address;
mod config;
mod config_fault;
mod given;
mod words;

pub use address::BucketAddress;
pub use config::{BucketConfig, bucket_config_of};
pub use config_fault::{BucketConfigFault, BucketField};
pub use given::GivenKey;
