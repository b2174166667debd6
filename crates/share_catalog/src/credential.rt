// How a recipient is known.
use json_tree::Millis;

/// How a recipient is known: by the SHA-256 digest of its bearer token, until the token ends
/// (Delta Sharing PROTOCOL.md, "Profile File Format").
#[derive(Clone, Copy, Debug, PartialEq, Eq)]
pub struct Credential {
    /// The SHA-256 digest of the bearer token.
    pub digest: [u8; 32],
    /// The moment at which the token ends, none where it has no end.
    pub expires: Option<Millis>,
}
