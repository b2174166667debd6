// Why a profile isn't read.
ghost use Rattle.std.specs.Prelude.{◌≡◌, codes};
ghost use Rattle.share_config.specs.Profiles.{name_of};
ghost use Rattle.share_config.specs.Faults.{profile_tree_fault};
ghost use Rattle.share_config.specs.declared.profile_fault.ProfileFault.TheVariants as fault;

use json_tree::TreeFault;
use std::alloc::AllocError;

/// A field of a profile.
#[derive(Clone, Copy, Debug, PartialEq, Eq)]
pub enum ProfileField {
    /// `shareCredentialsVersion`: the number 1.
    ShareCredentialsVersion,
    /// `endpoint`: a text.
    Endpoint,
    /// `bearerToken`: a text.
    BearerToken,
    /// `expirationTime`: a text, which may be absent or null.
    ExpirationTime,
}

impl ProfileField {
    /// The field's name in the JSON object.
    pub fn name(self) -> &'static str
        ensures { result.now ≡ name_of self }
    {
        match self {
            ProfileField::ShareCredentialsVersion => "shareCredentialsVersion",
            ProfileField::Endpoint => "endpoint",
            ProfileField::BearerToken => "bearerToken",
            ProfileField::ExpirationTime => "expirationTime",
        }
    }
}

/// Why a profile isn't read. The first that holds is told, want of memory apart.
#[derive(Clone, Copy, Debug, PartialEq, Eq)]
pub enum ProfileFault {
    /// The bytes are no JSON text (RFC 8259): they aren't UTF-8, aren't of its grammar or have more than 127 levels.
    NotJson,
    /// The field is absent or null where it may not be, is of another kind, or is another version. Of several the first
    /// in the order of [`ProfileField`] is told, so of a value that is no object the first of all.
    Field(ProfileField),
    /// The endpoint isn't an absolute `http` URL with a host.
    Scheme,
    /// Memory is wanting.
    NoMemory,
}

impl From<AllocError> for ProfileFault {
    ghost from_gives = { λ _ e. e ≡ fault.NoMemory };

    fn from(_: AllocError) -> Self {
        ProfileFault::NoMemory
    }
}

impl From<TreeFault> for ProfileFault {
    ghost from_gives = { λ f e. e ≡ profile_tree_fault f };

    fn from(found: TreeFault) -> Self {
        match found {
            TreeFault::NotUtf8 | TreeFault::NotJson => ProfileFault::NotJson,
            TreeFault::NoMemory => ProfileFault::NoMemory,
        }
    }
}
