// Where a bucket is, and how it is reached.
use json_tree::Text;
use signed_call::{CallKey, CallPlace};

/// Where a bucket is, and how it is reached. Host, region, the bucket's name, and the id and the token of the key are written into heads of
/// requests as they are, so they are to be of visible ASCII.
#[derive(Drop)]
pub struct BucketPlace {
    /// The host, by its name or address, that lines are opened to.
    pub address: Text,
    /// Its port.
    pub port: u16,
    /// The bucket, and by which name its server knows itself.
    pub bucket: CallPlace,
    /// The key that signs.
    pub key: CallKey,
    /// What the keys of all objects begin with: nothing, or a text with a slash at its end.
    pub prefix: Text,
}
