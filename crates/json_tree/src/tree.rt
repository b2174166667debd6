// The JSON value of bytes.
ghost use Rattle.json_tree.specs.Tree.{GivesTree, tree_in};

use serde_json::Value;
use std::alloc::Global;

/// Why bytes aren't read as JSON.
#[derive(Clone, Copy, Debug, PartialEq, Eq)]
pub enum TreeFault {
    /// The bytes aren't UTF-8.
    NotUtf8,
    /// The text is no JSON value (RFC 8259), or one of more than 127 levels.
    NotJson,
    /// Memory is wanting.
    NoMemory,
}

/// The JSON value that the bytes spell.
pub fn tree_of(alloc: Global, bytes: &[u8]) -> Result<Value, TreeFault>
    ensures { GivesTree result (tree_in bytes.now) }
{
    let Ok(text) = std::str::from_utf8(bytes) else {
        return Err(TreeFault::NotUtf8);
    };
    match Value::from_str(alloc, text) {
        Ok(value) => Ok(value),
        Err(e) => {
            if e.is_memory() {
                Err(TreeFault::NoMemory)
            } else {
                Err(TreeFault::NotJson)
            }
        }
    }
}
