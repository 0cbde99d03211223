// How the chains of a table become twice as many: each is cut in two, and no cell moves.
ghost use Rattle.std.specs.Prelude.{◌≡◌, ◌==◌, ◌*◌, ◌≤◌, List, None, [], length, vec_capacity};
ghost use Rattle.rk_types.specs.declared.held.Held.{Held as Item};
ghost use Rattle.rk_table.specs.Order.{item_hash};
ghost use Rattle.rk_bucket_table.specs.Cells.{IsChain, IsTable, cell_at, chain_of, joined};
ghost use Rattle.rk_bucket_table.specs.Spots.{IsSought};

use crate::cell::{Cell, END, MOST_PER_BUCKET, chain_number};
use crate::seek::Spot;
use crate::splice::link;
use slab::Slab;

/// The spot of a chain behind its first items of one number, if each bucket has so many chains.
fn seek_other(cells: &Slab<Cell>, head: usize, per_bucket: usize, number: usize) -> Spot
    requires chain { IsChain cells.now.slots head }
    requires free { cell_at cells.now.slots END ≡ None }
    requires few { per_bucket ≤ MOST_PER_BUCKET }
    ensures { IsSought cells.now.slots head (λ item. chain_of per_bucket (item_hash item) == number) result.before result.at }
{
    let mut before = END;
    let mut at = head;
    'chain: while let Some(cell) = cells.get(at) {
        if chain_number(per_bucket, cell.item.hash()) != number {
            break;
        }
        before = at;
        at = cell.next;
    }
    Spot { before, at }
}

/// Cuts each chain in two, and puts the heads of the new ones into `twice`.
pub(crate) fn spread_chains(
    heads: &[usize],
    cells: &mut Slab<Cell>,
    per_bucket: usize,
    twice: &mut Vec<usize>,
)
    requires few { 2 * per_bucket ≤ MOST_PER_BUCKET }
    requires table { (chains : List (List Item)) × IsTable per_bucket heads.now cells.old.slots chains }
    requires none { twice.old.items ≡ [] }
    requires room { 2 * length heads.now ≤ vec_capacity twice.old }
    ensures spread { (chains : List (List Item)) → IsTable per_bucket heads.now cells.old.slots chains
        → (more : List (List Item)) × IsTable (2 * per_bucket) twice.new.items cells.new.slots more × (joined more ≡ joined chains) }
    ensures capacity { cells.new.capacity ≡ cells.old.capacity }
{
    for chain in 0..heads.len() {
        let head = heads[chain];
        let spot = seek_other(cells, head, 2 * per_bucket, 2 * chain);
        twice.push_reserved(head);
        twice.push_reserved(spot.at);
        link(twice, cells, 2 * chain, spot.before, END);
    }
}
