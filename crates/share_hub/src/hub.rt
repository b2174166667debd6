// The hub.
ghost use Rattle.std.specs.Prelude.{◌≡◌};

use share_book::Book;
use std::alloc::Global;
use std::marker::Model;
use turn_cell::TurnCell;

/// The server's shared state: one book, which callers have in turn. No turn is held over a call of a store. What a pass has seen after a
/// call is legal, and by the hub's callers alone (`known`).
#[derive(Drop)]
pub struct Hub {
    pub(crate) cell: TurnCell<Book>,
}

impl Hub {
    // The catalogue's calls for the caller with this handle and this memory.
    pub(crate) fn catalog<'a, R>(&'a self, rt: &'a R, alloc: Global) -> hub_catalog::Caller<'a, R>
        ensures { result.cell.now ≡ self.now }
    {
        hub_catalog::Caller {
            cell: &self.cell,
            rt,
            alloc,
        }
    }

    // The calls on tables' logs for the caller with this handle and this memory.
    pub(crate) fn tables<'a, R>(&'a self, rt: &'a R, alloc: Global) -> hub_tables::Caller<'a, R>
        ensures { result.cell.now ≡ self.now }
    {
        hub_tables::Caller {
            cell: &self.cell,
            rt,
            alloc,
        }
    }
}

impl Model for Hub {
    ghost use Rattle.turn_cell.specs.Passes.{CellId, cell_code};

    ghost Value = { CellId };

    ghost coded = { cell_code };

    ghost view = { λ h. h.cell };
}
