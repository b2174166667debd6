// How long links hold.
ghost use Rattle.std.specs.Prelude.{◌≡◌, IsTrue, MatchOption, false};
ghost use Rattle.share_config.specs.Limits.{is_link_ttl};

use std::marker::Model;

// The seconds of a week.
const WEEK: u64 = 604_800;

/// How long a link holds from when it was made, in whole seconds, 1 to 604,800 (a week). Contracts see the number.
#[derive(Clone, Copy, Debug, PartialEq, Eq, Drop)]
pub struct LinkTtl {
    seconds: u64,
}

impl Model for LinkTtl {
    ghost use Rattle.std.specs.Prelude.{ℕ, IsTrue};
    ghost use Rattle.share_config.specs.Limits.{is_link_ttl};

    ghost Value = { ℕ };

    ghost view = { λ t. t.seconds };

    ghost invariant = { λ t. IsTrue (is_link_ttl t.seconds) };

    ghost inverse = { λ n. record { seconds = n } };
}

impl LinkTtl {
    /// That many seconds, or `None` exactly where there are none or more than a week has.
    pub fn of(seconds: u64) -> Option<LinkTtl>
        ensures { MatchOption result (is_link_ttl seconds ≡ false) (λ t. (t ≡ seconds) × IsTrue (is_link_ttl t)) }
    {
        if 1 <= seconds && seconds <= WEEK {
            Some(LinkTtl { seconds })
        } else {
            None
        }
    }

    /// The number of seconds.
    pub fn seconds(self) -> u64
        ensures value { result ≡ self }
        ensures good { IsTrue (is_link_ttl self) }
    {
        self.seconds
    }
}
