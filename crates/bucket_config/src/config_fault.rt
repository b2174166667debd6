// Why it isn't read where a bucket is.
ghost use Rattle.std.specs.Prelude.{◌≡◌, codes};
ghost use Rattle.bucket_config.specs.Buckets.{name_of};
ghost use Rattle.bucket_config.specs.Faults.{config_tree_fault};
ghost use Rattle.bucket_config.specs.declared.config_fault.BucketConfigFault.TheVariants as fault;

use json_tree::TreeFault;
use std::alloc::AllocError;

/// A member of the object that says where a bucket is.
#[derive(Clone, Copy, Debug, PartialEq, Eq)]
pub enum BucketField {
    /// `address`: a name or an address of IPv4, a colon and a port, 1 to 65535: where connections go.
    Address,
    /// `bucket`: the bucket's name, one visible character of ASCII or more and no others, no slash among them.
    Bucket,
    /// `freshMillis`: a whole number from 0 to 86,400,000; 0 where it is absent or null.
    FreshMillis,
    /// `host`: by which name the server knows itself, one visible character of ASCII or more and no others.
    Host,
    /// `key`: the name of the key, likewise; that of the environment where it is absent or null.
    Key,
    /// `prefix`: what the keys of all objects begin with, nothing or a name with a slash behind it; it may be absent or null.
    Prefix,
    /// `region`: one visible character of ASCII or more and no others.
    Region,
    /// `secret`: a text that isn't empty; that of the environment where it is absent or null.
    Secret,
    /// `token`: one visible character of ASCII or more and no others; it may be absent or null.
    Token,
}

impl BucketField {
    /// The member's name in the JSON object.
    pub fn name(self) -> &'static str
        ensures { result.now ≡ name_of self }
    {
        match self {
            BucketField::Address => "address",
            BucketField::Bucket => "bucket",
            BucketField::FreshMillis => "freshMillis",
            BucketField::Host => "host",
            BucketField::Key => "key",
            BucketField::Prefix => "prefix",
            BucketField::Region => "region",
            BucketField::Secret => "secret",
            BucketField::Token => "token",
        }
    }
}

/// Why it isn't read where a bucket is. The first that holds is told, want of memory apart. No value of a member is in it.
#[derive(Clone, Copy, Debug, PartialEq, Eq)]
pub enum BucketConfigFault {
    /// The bytes are no JSON text (RFC 8259): they aren't UTF-8, aren't of its grammar or have more than 127 levels.
    NotJson,
    /// The member is absent or null where it may not be, is of another kind, or isn't as it has to be. Of several the first in the order of
    /// [`BucketField`] is told, so of a value that is no object the first of all.
    Field(BucketField),
    /// Memory is wanting.
    NoMemory,
}

impl From<AllocError> for BucketConfigFault {
    ghost from_gives = { λ _ e. e ≡ fault.NoMemory };

    fn from(_: AllocError) -> Self {
        BucketConfigFault::NoMemory
    }
}

impl From<TreeFault> for BucketConfigFault {
    ghost from_gives = { λ f e. e ≡ config_tree_fault f };

    fn from(found: TreeFault) -> Self {
        match found {
            TreeFault::NotUtf8 | TreeFault::NotJson => BucketConfigFault::NotJson,
            TreeFault::NoMemory => BucketConfigFault::NoMemory,
        }
    }
}
