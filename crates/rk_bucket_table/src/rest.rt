ghost use Rattle.std.specs.Prelude.{◌≡◌, None};
ghost use Rattle.std.specs.Iterator.{YieldsFirstBy};
ghost use Rattle.rk_bucket_table.specs.Cells.{AreChains, cell_at, items_in};

use crate::cell::{Cell, END};
use crate::hashed::Hashed;
use slab::Slab;
use std::marker::Model;

/// A walk along chains, seen as the list of the items that are left.
#[derive(Drop)]
pub(crate) struct Rest<'a> {
    cells: &'a Slab<Cell>,
    // The next cell, END if its chain is at its end, and the heads of the chains behind.
    at: usize,
    heads: &'a [usize],
}

impl<'a> Model for Rest<'a> {
    ghost use Rattle.std.specs.Prelude.{◌++◌, List};
    ghost use Rattle.rk_types.specs.declared.held.Held.{Held};
    ghost use Rattle.rk_bucket_table.specs.Cells.{IsRest, chain, items_in};

    ghost Value = { List Held };

    ghost view = { λ rest. chain rest.cells.now.slots rest.at ++ items_in rest.heads.now rest.cells.now.slots };

    ghost invariant = { λ rest. IsRest rest.heads.now rest.cells.now.slots rest.at };
}

impl<'a> Rest<'a> {
    /// The items of these chains, one chain behind the other.
    pub(crate) fn new(cells: &'a Slab<Cell>, heads: &'a [usize]) -> Rest<'a>
        requires free { cell_at cells.now.slots END ≡ None }
        requires chains { AreChains heads.now cells.now.slots }
        ensures { result ≡ items_in heads.now cells.now.slots }
    {
        Rest {
            cells,
            at: END,
            heads,
        }
    }

    /// The next item, or none behind the last. A step for each chain without items that it passes.
    pub(crate) fn next(&mut self) -> Option<&'a Hashed>
        ensures { YieldsFirstBy (λ item. item.now) (λ rest. rest) self.old result self.new }
    {
        'chains: while self.at == END {
            match self.heads.split_first() {
                None => return None,
                Some((head, behind)) => {
                    self.at = *head;
                    self.heads = behind;
                }
            }
        }
        let cell = &self.cells[self.at];
        self.at = cell.next;
        Some(&cell.item)
    }
}
