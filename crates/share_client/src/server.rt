// The server that a profile names.
ghost use Rattle.std.specs.Prelude.{◌≡◌, IfOk, Some};
ghost use Rattle.share_client.specs.Servers.{server_in};

use crate::target::{Target, target_of};
use json_tree::Text;
use share_config::Profile;
use std::alloc::{AllocError, Global};

// Where a server is asked, and by whom.
#[derive(Drop)]
pub(crate) struct Server {
    // The address of the server.
    pub(crate) target: Target,
    // The token of who asks.
    pub(crate) bearer: Text,
}

// The server of a profile. The error is want of memory.
pub(crate) fn server_of(alloc: Global, profile: &Profile) -> Result<Server, AllocError>
    ensures { IfOk result (λ server. server_in profile.now ≡ Some server) }
{
    let bearer = profile.bearer.copy(alloc)?;
    match target_of(alloc, profile.endpoint.as_str())? {
        Some(target) => Ok(Server { target, bearer }),
        None => unreachable!(),
    }
}
