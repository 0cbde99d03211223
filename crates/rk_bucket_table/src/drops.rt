// How the items of a range leave a chain.
ghost use Rattle.std.specs.Prelude.{◌≡◌, ◌<◌, List, [], length, map, slice_index_or, slice_set};
ghost use Rattle.rk_types.specs.declared.held.Held.{Held as Item};
ghost use Rattle.rk_table.specs.Items.{without};
ghost use Rattle.rk_bucket_table.specs.Cells.{IsTable};

use crate::cell::{Cell, END};
use crate::splice::link;
use rk_types::Range;
use slab::Slab;

/// Takes the items of the range out of one chain, and frees their cells. A step for each cell of the chain.
pub(crate) fn drop_in_chain(
    heads: &mut Vec<usize>,
    cells: &mut Slab<Cell>,
    per_bucket: usize,
    chain: usize,
    range: &Range,
)
    requires within { chain < length heads.old.items }
    requires table { (chains : List (List Item)) × IsTable per_bucket heads.old.items cells.old.slots chains }
    ensures dropped { (chains : List (List Item)) → IsTable per_bucket heads.old.items cells.old.slots chains
        → IsTable per_bucket heads.new.items cells.new.slots
        (slice_set chains chain (without range.now (slice_index_or chains chain []))) }
    ensures capacity { cells.new.capacity ≡ cells.old.capacity }
{
    let mut before = END;
    let mut at = heads[chain];
    'cells: while let Some(cell) = cells.get(at) {
        let next = cell.next;
        if !cell.item.is_in(range) {
            before = at;
            at = next;
            continue;
        }
        cells.remove(at);
        link(heads, cells, chain, before, next);
        at = next;
    }
}

/// Takes the items of the range out of all chains.
pub(crate) fn drop_in_chains(
    heads: &mut Vec<usize>,
    cells: &mut Slab<Cell>,
    per_bucket: usize,
    range: &Range,
)
    requires table { (chains : List (List Item)) × IsTable per_bucket heads.old.items cells.old.slots chains }
    ensures dropped { (chains : List (List Item)) → IsTable per_bucket heads.old.items cells.old.slots chains
        → IsTable per_bucket heads.new.items cells.new.slots (map (without range.now) chains) }
    ensures capacity { cells.new.capacity ≡ cells.old.capacity }
{
    for chain in 0..heads.len() {
        drop_in_chain(heads, cells, per_bucket, chain, range);
    }
}
