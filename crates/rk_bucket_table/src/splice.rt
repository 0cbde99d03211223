// Changes of one cell, and of the link that leads to it.
ghost use Rattle.std.specs.Prelude.{◌≡◌, ◌≢◌, ◌<◌, length, true, false, Some, slice_set, nat_lt, vec_capacity};
ghost use Rattle.slab.specs.Slab.{ContainsKey, get, slab_len};
ghost use Rattle.rk_bucket_table.specs.declared.cell.Cell.{Cell as LinkedCell};
ghost use Rattle.rk_bucket_table.specs.Cells.{cell_at, cell_of, item_is_at};

use crate::cell::{Cell, END};
use crate::hashed::Hashed;
use slab::Slab;

/// Whether a cell has an item of the same key of the same table.
pub(crate) fn has_key_of(cells: &Slab<Cell>, at: usize, item: &Hashed) -> bool
    ensures { result ≡ item_is_at item.now (cell_at cells.now.slots at) }
{
    match cells.get(at) {
        Some(cell) => cell.item.is_at(item.held().table, &item.held().key),
        None => false,
    }
}

/// Puts an item in the place of an older one, and answers whether the one in the cell is older; else it is dropped.
pub(crate) fn replace_older(cells: &mut Slab<Cell>, at: usize, item: Hashed) -> bool
    requires { ContainsKey cells.old at }
    ensures capacity { cells.new.capacity ≡ cells.old.capacity }
    ensures taken { slab_len cells.new ≡ slab_len cells.old }
    ensures older { (cell : LinkedCell) → get cells.old at ≡ Some cell → result ≡ nat_lt cell.item.version item.version }
    ensures kept { result ≡ false → cells.new.slots ≡ cells.old.slots }
    ensures put { (cell : LinkedCell) → get cells.old at ≡ Some cell → result ≡ true
        → cells.new.slots ≡ slice_set cells.old.slots at (Some (cell_of item cell.next)) }
{
    let cell = &mut cells[at];
    if cell.item.held().version >= item.held().version {
        return false;
    }
    cell.item = item;
    true
}

/// Makes a chain go on with another cell behind a cell of it, or from its head on.
pub(crate) fn link(
    heads: &mut Vec<usize>,
    cells: &mut Slab<Cell>,
    chain: usize,
    before: usize,
    next: usize,
)
    requires within { chain < length heads.old.items }
    requires there { before ≢ END → ContainsKey cells.old before }
    ensures room { vec_capacity heads.new ≡ vec_capacity heads.old }
    ensures capacity { cells.new.capacity ≡ cells.old.capacity }
    ensures taken { slab_len cells.new ≡ slab_len cells.old }
    ensures head { before ≡ END
        → (heads.new.items ≡ slice_set heads.old.items chain next) × (cells.new.slots ≡ cells.old.slots) }
    ensures behind { (cell : LinkedCell) → before ≢ END → get cells.old before ≡ Some cell
        → (heads.new.items ≡ heads.old.items)
        × (cells.new.slots ≡ slice_set cells.old.slots before (Some (cell_of cell.item next))) }
{
    if before == END {
        heads[chain] = next;
        return;
    }
    cells[before].next = next;
}
