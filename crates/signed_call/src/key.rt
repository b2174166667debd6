// Who signs, and for which bucket.
use json_tree::Text;

/// The key that signs. It isn't `Debug`, so no message shows its secret.
#[derive(Drop)]
pub struct CallKey {
    /// The key's name, which each request tells.
    pub id: Text,
    /// The secret, which no request tells.
    pub secret: Text,
    /// The token of a session, where the key is one of a session.
    pub token: Option<Text>,
}

/// Where the bucket is.
#[derive(Drop)]
pub struct CallPlace {
    /// The value of Host, by which the server knows itself.
    pub host: Text,
    /// The region, as `eu-central-1`.
    pub region: Text,
    /// The bucket's name.
    pub bucket: Text,
}
