// What tokens and links are made with.
ghost use Rattle.std.specs.Prelude.{◌≡◌, IfOk};
ghost use Rattle.page_token.specs.Token.{token_text};
ghost use Rattle.share_reply.specs.Chains.{IsSpelt};

use hmac_core::HmacKey;
use json_tree::Text;
use page_token::{Cursor, spell};
use share_config::{Endpoint, LinkTtl};
use std::alloc::{AllocError, Global};

/// What page tokens and links are signed with, prepared once, and how links begin and end.
#[derive(Drop)]
pub struct ReplyKeys {
    /// The key of page tokens.
    pub token: HmacKey,
    /// The key of links.
    pub link: HmacKey,
    /// How long a link holds from when it was given.
    pub ttl: LinkTtl,
    /// The address that links begin with.
    pub endpoint: Endpoint,
}

impl ReplyKeys {
    /// The page token of a cursor.
    pub(crate) fn token_of(&self, alloc: Global, cursor: Cursor) -> Result<Text, AllocError>
        ensures token { IfOk result (λ t. t ≡ token_text self.now.token cursor) }
        ensures spelt { IfOk result (λ _. IsSpelt self.now cursor) }
    {
        spell(alloc, &self.token, &cursor)
    }
}
