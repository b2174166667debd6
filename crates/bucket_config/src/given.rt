// What the environment gives.
use json_tree::Text;

/// The key that the environment gives, as Amazon's programs name its parts; it counts for what the text doesn't state. There is no `Debug`, so that no
/// secret is printed.
#[derive(Drop)]
pub struct GivenKey {
    /// `AWS_ACCESS_KEY_ID`, the key's name.
    pub id: Option<Text>,
    /// `AWS_SECRET_ACCESS_KEY`, its secret.
    pub secret: Option<Text>,
    /// `AWS_SESSION_TOKEN`, the token of its session. It counts only where the key's name is the environment's too, since a token is good with
    /// its own key alone.
    pub token: Option<Text>,
}
