// What a server is configured with.
ghost use Rattle.std.specs.Prelude.{◌≡◌};
ghost use Rattle.share_serve.specs.Callers.{server_of};

use hmac_core::HmacKey;
use share_config::{Config, Providers};
use share_reply::ReplyKeys;

/// What a server answers by: the keys that it signs with, prepared, and whose tokens are the administrator's and the providers'.
/// There is no `Debug`, so that no key is printed.
#[derive(Drop)]
pub struct Server {
    /// What page tokens and links are signed with.
    pub keys: ReplyKeys,
    /// The SHA-256 digest of the administrator's bearer token.
    pub admin: [u8; 32],
    /// The digests of the providers' bearer tokens.
    pub providers: Providers,
}

impl Server {
    /// The server of a configuration. A prepared key makes the same tags as its bytes.
    pub fn of(config: Config) -> Server
        ensures { result ≡ server_of config }
    {
        let admin = config.admin;
        let keys = config.keys;
        Server {
            keys: ReplyKeys {
                token: HmacKey::of(&keys.token),
                link: HmacKey::of(&keys.link),
                ttl: keys.ttl,
                endpoint: keys.endpoint,
            },
            admin,
            providers: config.providers,
        }
    }
}
