// The digests by which providers are known.
ghost use Rattle.std.specs.Prelude.{◌≡◌, ◌<◌, ◌≤◌, List, ℕ, MatchOption, length};

use std::marker::Model;

// The most providers.
const MOST: usize = 64;

/// The SHA-256 digests of the bearer tokens of providers, who may commit to tables: at most 64 of them, in the order
/// given. Contracts see a list of lists of 32 bytes.
#[derive(Drop)]
pub struct Providers {
    digests: Vec<[u8; 32]>,
}

impl Model for Providers {
    ghost use Rattle.std.specs.Prelude.{List, ℕ, ◌≤◌, length};

    ghost Value = { List (List ℕ) };

    ghost view = { λ p. p.digests.items };

    ghost invariant = { λ p. length p.digests.items ≤ 64 };
}

impl Providers {
    /// The providers of those digests, or `None` exactly where there are more than 64.
    pub fn of(digests: Vec<[u8; 32]>) -> Option<Providers>
        ensures { MatchOption result (64 < length digests.items) (λ p. (p ≡ digests.items) × (length p ≤ 64)) }
    {
        if digests.len() <= MOST {
            Some(Providers { digests })
        } else {
            None
        }
    }

    /// The digests, in order.
    pub fn digests(&self) -> &[[u8; 32]]
        ensures value { result.now ≡ self.now }
        ensures few { length self.now ≤ 64 }
    {
        &self.digests
    }
}
