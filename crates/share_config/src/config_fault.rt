// Why a configuration isn't read.
ghost use Rattle.std.specs.Prelude.{◌≡◌, codes};
ghost use Rattle.share_config.specs.Configuration.{name_of};
ghost use Rattle.share_config.specs.Faults.{config_tree_fault};
ghost use Rattle.share_config.specs.declared.config_fault.ConfigFault.TheVariants as fault;

use json_tree::TreeFault;
use std::alloc::{AllocError, AllocFailed};

/// A field of a configuration.
#[derive(Clone, Copy, Debug, PartialEq, Eq)]
pub enum ConfigField {
    /// `tokenKey`: 64 hexadecimal digits, in either case.
    TokenKey,
    /// `linkKey`: 64 hexadecimal digits, in either case.
    LinkKey,
    /// `adminDigest`: 64 hexadecimal digits, in either case.
    AdminDigest,
    /// `providerDigests`: a list of at most 64 texts, each of 64 hexadecimal digits, in either case.
    ProviderDigests,
    /// `linkTtlSeconds`: a whole number from 1 to 604,800.
    LinkTtlSeconds,
    /// `endpoint`: a text that is an [`crate::Endpoint`].
    Endpoint,
}

impl ConfigField {
    /// The field's name in the JSON object.
    pub fn name(self) -> &'static str
        ensures { result.now ≡ name_of self }
    {
        match self {
            ConfigField::TokenKey => "tokenKey",
            ConfigField::LinkKey => "linkKey",
            ConfigField::AdminDigest => "adminDigest",
            ConfigField::ProviderDigests => "providerDigests",
            ConfigField::LinkTtlSeconds => "linkTtlSeconds",
            ConfigField::Endpoint => "endpoint",
        }
    }
}

/// Why a configuration isn't read. The first that holds is told, want of memory apart.
#[derive(Clone, Copy, Debug, PartialEq, Eq)]
pub enum ConfigFault {
    /// The bytes are no JSON text (RFC 8259): they aren't UTF-8, aren't of its grammar or have more than 127 levels.
    NotJson,
    /// The field is absent, null, of another kind or out of its range. Of several the first in the order of
    /// [`ConfigField`] is told, so of a value that is no object the first of all.
    Field(ConfigField),
    /// Memory is wanting.
    NoMemory,
}

impl From<AllocError> for ConfigFault {
    ghost from_gives = { λ _ e. e ≡ fault.NoMemory };

    fn from(_: AllocError) -> Self {
        ConfigFault::NoMemory
    }
}

impl<T: Drop> From<AllocFailed<T>> for ConfigFault {
    ghost from_gives = { λ _ e. e ≡ fault.NoMemory };

    fn from(_: AllocFailed<T>) -> Self {
        ConfigFault::NoMemory
    }
}

impl From<TreeFault> for ConfigFault {
    ghost from_gives = { λ f e. e ≡ config_tree_fault f };

    fn from(found: TreeFault) -> Self {
        match found {
            TreeFault::NotUtf8 | TreeFault::NotJson => ConfigFault::NotJson,
            TreeFault::NoMemory => ConfigFault::NoMemory,
        }
    }
}
