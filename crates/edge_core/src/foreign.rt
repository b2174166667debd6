// Objects that others add to a store in memory.
ghost use Rattle.std.specs.Prelude.{◌≡◌, ◌≤◌, drop, length, true, nat_eq};
ghost use Rattle.std.specs.Bool.{OnTrue};
ghost use Rattle.edge_core.specs.Objects.{GrowsTo};
ghost use Rattle.edge_core.specs.Arrivals.{appeared, arrived, waiting};

use crate::Stored;
use crate::shelf::Shelf;

/// An object of others, which is found from the call of that number on, counted from 0. Objects come in the order of their
/// list: one that stands behind a later one comes with that one. Where its name is there already, or there is no room for
/// it, it is lost.
#[derive(Drop)]
pub struct Foreign {
    /// The number of the call that finds it first.
    pub call: u64,
    /// The object.
    pub object: Stored,
}

// Puts an object of others, where its name is absent and there is room.
fn appear(shelf: &mut Shelf, next: &Foreign)
    ensures shelf { shelf.new ≡ appeared shelf.old next.now }
    ensures grows { GrowsTo shelf.old.0 shelf.new.0 }
{
    if shelf.get(&next.object.name).is_none() {
        shelf.add(&next.object.name, &next.object.bytes);
    }
}

// Puts the objects of others that come by the call of that number, and says how many they are.
pub(crate) fn arrive(shelf: &mut Shelf, coming: &[Foreign], call: u64) -> usize
    ensures shelf { shelf.new ≡ arrived call shelf.old coming.now }
    ensures waiting { drop result coming.now ≡ waiting call coming.now }
    ensures within { result ≤ length coming.now }
    ensures grows { GrowsTo shelf.old.0 shelf.new.0 }
    ensures same { OnTrue (nat_eq (length coming.now) 0) (shelf.new ≡ shelf.old) }
{
    let mut come = 0;
    for next in coming {
        if next.call > call {
            return come;
        }
        appear(shelf, next);
        come += 1;
    }
    come
}
