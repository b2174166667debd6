// Where objects are kept.
ghost use Rattle.std.specs.Prelude.{◌≡◌, ℕ, ◌<◌, Option, IfSome, Bool, true, length};
ghost use Rattle.std.specs.Bool.{OnTrue};
ghost use Rattle.edge_core.specs.Faults.{Cause};
ghost use Rattle.edge_core.specs.StoredPuts.{stored_after};
ghost use Rattle.edge_core.specs.Objects.{Objects, Gets, Measures, Puts, Lists, failed_get, failed_size, failed_put, failed_list};

use crate::{Name, Segments};
use std::alloc::Global;

/// The answer of a read of an object.
#[derive(Clone, Copy, Debug, PartialEq, Eq)]
pub enum Got {
    /// So many bytes were read, none exactly at or past the object's end.
    Bytes(usize),
    /// No object has that name.
    Absent,
    /// The store failed.
    Failed,
}

/// The answer of a look at an object's size.
#[derive(Clone, Copy, Debug, PartialEq, Eq)]
pub enum Measured {
    /// The object's length in bytes.
    Size(u64),
    /// No object has that name.
    Absent,
    /// The store failed.
    Failed,
}

/// The answer of a put.
#[derive(Clone, Copy, Debug, PartialEq, Eq)]
pub enum Put {
    /// The name was absent, and now has the bytes.
    Stored,
    /// An object has that name, and this call stored nothing.
    Exists,
    /// The store failed: the bytes may be stored under the name, or nothing was.
    Failed,
}

/// The answer of a listing.
#[derive(Drop)]
pub enum Listed {
    /// The last segments of the names, in byte order.
    Names(Segments),
    /// The store failed.
    Failed,
    /// There was no memory for the list.
    NoMemory,
}

/// Objects by name, which are added and never change or go, as those of a table's log (Delta Lake PROTOCOL.md, "Delta Log
/// Entries"). Others may add objects too, and what they added is found at the next call.
pub trait Store {
    /// The objects by name, or none where the store doesn't tell. A store that tells goes on telling, and one that doesn't
    /// never begins to.
    ghost objects: { Self → Option Objects };

    /// Whether nobody else adds objects. It stays once it is true.
    ghost alone: { Self → Bool };

    /// How often the store has failed: a count that never falls, and stands still at 2^64 - 1.
    ghost faults: { Self → ℕ };

    /// How many puts it has answered `Stored`, of which each stored an object: so what it acknowledged is told apart from what others
    /// stored, also where it tells nothing of its objects.
    ghost stored: { Self → ℕ };

    /// Reads the bytes of an object from place `from` on into the front of `out`: as many as the answer says, which may be
    /// fewer than fit or are there. `Bytes(0)` comes exactly where `from` is at or past the object's end. `Failed` comes
    /// only where the count of faults rose in this call.
    fn get(&mut self, name: &Name, from: u64, out: &mut [u8]) -> Got
        requires { 0 < length out.old }
        ensures bytes { Gets (objects self.old) (objects self.new) (alone self.old) name.now from result out.new }
        ensures stays { OnTrue (alone self.old) (alone self.new ≡ true) }
        ensures cause { Cause (faults self.old) (faults self.new) (failed_get result) }
        ensures stored { stored self.new ≡ stored self.old };

    /// The length of an object. `Failed` comes only where the count of faults rose in this call.
    fn size(&mut self, name: &Name) -> Measured
        ensures size { Measures (objects self.old) (objects self.new) (alone self.old) name.now result }
        ensures stays { OnTrue (alone self.old) (alone self.new ≡ true) }
        ensures cause { Cause (faults self.old) (faults self.new) (failed_size result) }
        ensures stored { stored self.new ≡ stored self.old };

    /// Stores bytes under a name that no object has. `Failed` comes only where the count of faults rose in this call; the
    /// objects are then as before or have the bytes under that name. The count of stored puts rises by one exactly with `Stored`.
    fn put_absent(&mut self, name: &Name, bytes: &[u8]) -> Put
        ensures object { Puts (objects self.old) (objects self.new) (alone self.old) name.now bytes.now result }
        ensures stays { OnTrue (alone self.old) (alone self.new ≡ true) }
        ensures cause { Cause (faults self.old) (faults self.new) (failed_put result) }
        ensures stored { stored self.new ≡ stored_after (stored self.old) result };

    /// Whether a listing shows the objects of one moment, so that a name that it lacks was absent while the names that it has were
    /// there. A store that tells its objects does; a folder that others add to while it is read may show a later object and lack an
    /// earlier one.
    fn lists_at_once(&self) -> bool
        ensures told { IfSome (objects self.now) (λ os. result ≡ true) };

    /// The last segments of the objects directly in the folder `dir`, in byte order of name; a folder that isn't there has
    /// none. `Failed` comes only where the count of faults rose in this call.
    fn list(&mut self, alloc: Global, dir: &Name) -> Listed
        ensures names { Lists (objects self.old) (objects self.new) (alone self.old) dir.now result }
        ensures stays { OnTrue (alone self.old) (alone self.new ≡ true) }
        ensures cause { Cause (faults self.old) (faults self.new) (failed_list result) }
        ensures stored { stored self.new ≡ stored self.old };
}
