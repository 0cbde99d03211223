// A search along one chain.
ghost use Rattle.std.specs.Prelude.{◌≡◌, None};
ghost use Rattle.rk_table.specs.Places.{comes_before};
ghost use Rattle.rk_bucket_table.specs.Cells.{IsChain, cell_at, place_seen};
ghost use Rattle.rk_bucket_table.specs.Spots.{IsSought};

use crate::cell::{Cell, END};
use crate::hashed::Place;
use slab::Slab;

/// A place between two cells of a chain: the cell in front of it, [`END`] before the first, and the cell behind it,
/// [`END`] behind the last.
#[derive(Clone, Copy)]
pub(crate) struct Spot {
    pub(crate) before: usize,
    pub(crate) at: usize,
}

/// The spot of a chain where an item of this place belongs. A step for each item in front of it.
pub(crate) fn seek(cells: &Slab<Cell>, head: usize, place: &Place<'_>) -> Spot
    requires chain { IsChain cells.now.slots head }
    requires free { cell_at cells.now.slots END ≡ None }
    ensures { IsSought cells.now.slots head (comes_before (place_seen place.now)) result.before result.at }
{
    let mut before = END;
    let mut at = head;
    'chain: while let Some(cell) = cells.get(at) {
        if !cell.comes_before(&*place) {
            break;
        }
        before = at;
        at = cell.next;
    }
    Spot { before, at }
}
