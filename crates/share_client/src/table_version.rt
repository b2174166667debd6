// The version that a response states.
ghost use Rattle.std.specs.Prelude.{◌≡◌};
ghost use Rattle.share_client.specs.TableVersions.{version_in};

use crate::exchange::Response;
use http_message::field::first_named;
use text_forms::number_in;

// The greatest version.
const MOST_VERSION: u64 = (1 << 63) - 1;

// The version that a response states.
#[tactic(auto, unfolding(crate::specs::TableVersions::version_in))]
pub(crate) fn version_in(response: &Response) -> Option<u64>
    ensures { result ≡ version_in response.now }
{
    number_in(
        0,
        MOST_VERSION,
        first_named(&response.fields, "delta-table-version"),
    )
}
