// What is shared, as a mirror follows it.
ghost use Rattle.std.specs.Prelude.{◌≡◌, IfOk};
ghost use Rattle.mirror_table.specs.Goals.{app_of};

use json_tree::{Text, Version};
use log_actions::{AddFile, MetaData, Protocol};
use std::alloc::{AllocError, Global};

/// A version of a shared table, and the application by which its mirror says how far it has come.
#[derive(Clone, Copy, Drop)]
pub struct Shared<'a> {
    /// The application, as [`application`] makes it.
    pub app: &'a Text,
    /// The version of the shared table.
    pub version: Version,
    /// Its protocol.
    pub protocol: &'a Protocol,
    /// Its metaData.
    pub meta: &'a MetaData,
    /// Its live files, in any order.
    pub files: &'a [&'a AddFile],
}

/// The application of the mirror of a table, `delta-sharing SHARE.SCHEMA.TABLE`. The error is want of memory.
pub fn application(
    alloc: Global,
    share: &str,
    schema: &str,
    table: &str,
) -> Result<Text, AllocError>
    ensures { IfOk result (λ app. app ≡ app_of share.now schema.now table.now) }
{
    Ok(Text::of(format!(in alloc; "delta-sharing {}.{}.{}", share, schema, table)?))
}
