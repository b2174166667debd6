// Where the logs of shared tables are stored.
ghost use Rattle.std.specs.Prelude.{◌≡◌, ◌||◌, IfOk, MatchOption, IsTrue, false, [], ◌≤◌, length, string_bytes, codes, bytes_eq, nat_eq};
ghost use Rattle.std.specs.String.{string_capacity, string_len};
ghost use Rattle.std.specs.List.{starts_with};
ghost use Rattle.edge_core.specs.Names.{is_name};
ghost use Rattle.share_catalog.specs.Locations.{is_location, is_reserved};

use edge_core::Name;
use std::alloc::{AllocError, Global};
use std::marker::Model;

// The most bytes of a location.
const MOST_BYTES: usize = 256;

/// Where a table's log is stored: the name of a folder of the store, of at most 256 bytes, whose
/// first segment isn't `_share_log`. Contracts see its bytes.
#[derive(Drop)]
pub struct Location {
    name: Name,
}

impl Model for Location {
    ghost use Rattle.std.specs.Prelude.{List, ℕ, IsTrue};

    ghost Value = { List ℕ };

    ghost view = { λ l. l.name };

    ghost use Rattle.share_catalog.specs.Locations.{is_location};

    ghost invariant = { λ l. IsTrue (is_location l.name) };
}

// Whether the first segment is the one that the catalogue's own objects have.
fn is_reserved_text(text: &str) -> bool
    ensures { result ≡ is_reserved text.now }
{
    text == "_share_log" || text.starts_with("_share_log/")
}

fn is_location_name(name: &Name) -> bool
    ensures { result ≡ is_location name.now }
{
    let text = name.as_str();
    text.len() <= MOST_BYTES && !is_reserved_text(text)
}

// The text that is known to be a name.
fn name_of(text: String) -> Name
    requires { IsTrue (is_name (string_bytes text)) }
    ensures { result ≡ string_bytes text }
{
    match Name::of(text) {
        Some(name) => name,
        None => unreachable!(),
    }
}

// Another name of the same text, in a text that has room for it.
fn name_in(mut room: String, name: &Name) -> Name
    requires empty { string_bytes room ≡ [] }
    requires room { (string_len room ≡ 0) × (256 ≤ string_capacity room) }
    requires short { length name.now ≤ 256 }
    ensures { result ≡ name.now }
{
    let _ = room.push_str(name.as_str());
    name_of(room)
}

impl Location {
    /// The location of that name, or `None` exactly where the name isn't one: where it has more
    /// than 256 bytes or `_share_log` as its first segment.
    pub fn of(name: Name) -> Option<Location>
        ensures { MatchOption result (is_location name ≡ false) (λ l. (l ≡ name) × IsTrue (is_location l)) }
    {
        if is_location_name(&name) {
            Some(Location { name })
        } else {
            None
        }
    }

    /// The name of the folder.
    pub fn name(&self) -> &Name
        ensures value { result.now ≡ self.now }
        ensures good { IsTrue (is_location self.now) }
    {
        &self.name
    }

    /// The text of the folder's name.
    pub fn as_str(&self) -> &str
        ensures { result.now ≡ self.now }
    {
        self.name.as_str()
    }

    // Another location of the same text, in a text that has room for it.
    pub(crate) fn copy_into(&self, room: String) -> Location
        requires empty { string_bytes room ≡ [] }
        requires room { (string_len room ≡ 0) × (256 ≤ string_capacity room) }
        ensures { result ≡ self.now }
    {
        Location {
            name: name_in(room, &self.name),
        }
    }

    /// Another location of the same text. The error is want of memory.
    pub fn copy(&self, alloc: Global) -> Result<Location, AllocError>
        ensures { IfOk result (λ l. l ≡ self.now) }
    {
        Ok(Location {
            name: self.name.copy(alloc)?,
        })
    }
}
