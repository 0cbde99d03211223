ghost use Rattle.std.specs.Prelude.{◌≡◌, ◌≤◌, ◌<◌, ◌+◌, ◌^◌, ◌++◌, [], length, if◌then◌else◌, IfOk, OnOk, OnErr};
ghost use Rattle.std.specs.Option.{option_copied};
ghost use Rattle.rk_table.specs.Items.{at_hash as at_hash_lem, found, is_newer, live_in, with_newer, without};
ghost use Rattle.rk_table.specs.Scans.{batch_at, next_token};
ghost use Rattle.rk_bucket_table.specs.Cells.{IsCountOfChains};

use crate::cell::{Cell, END, MOST_PER_BUCKET, chain_number};
use crate::drops::drop_in_chains;
use crate::hashed::{Hashed, Place};
use crate::rest::Rest;
use crate::scans::{has_live, push_batch, push_live, push_with_hash};
use crate::seek::seek;
use crate::splice::{has_key_of, link, replace_older};
use crate::spread::spread_chains;
use rk_table::END as LAST;
use rk_types::{BUCKETS, Held, Key, NoMemory, Range, Token};
use slab::Slab;
use std::alloc::Global;
use std::marker::Model;

/// How often the chains can double.
const MOST_DOUBLINGS: u32 = 22;

/// Chains of cells, as many for each bucket, whose items are in scan order, one chain behind the other.
#[derive(Drop)]
pub(crate) struct Chains {
    per_bucket: usize,
    heads: Vec<usize>,
    cells: Slab<Cell>,
}

impl Model for Chains {
    ghost use Rattle.std.specs.Prelude.{◌-◌, List};
    ghost use Rattle.rk_types.specs.declared.held.Held.{Held};
    ghost use Rattle.rk_bucket_table.specs.Shown.{Shown};
    ghost use Rattle.rk_bucket_table.specs.Cells.{IsTable, items_in, taken};

    ghost Value = { Shown };

    ghost view = { λ t. record {
      items = items_in t.heads.items t.cells.slots;
      spare = t.cells.capacity - taken t.cells.slots;
    } };

    ghost invariant = { λ t. (chains : List (List Held)) × IsTable t.per_bucket t.heads.items t.cells.slots chains };
}

// So many chains without items.
fn empty_chains(alloc: Global, per_bucket: usize, count: usize) -> Result<Chains, NoMemory>
    requires count { IsCountOfChains per_bucket count }
    ensures { IfOk result (λ chains. chains.items ≡ []) }
{
    Ok(Chains {
        per_bucket,
        heads: vec![in alloc; END; count]?,
        cells: Slab::new(alloc),
    })
}

impl Chains {
    pub(crate) fn new(alloc: Global) -> Result<Chains, NoMemory>
        ensures { IfOk result (λ chains. chains.items ≡ []) }
    {
        empty_chains(alloc, 1, usize::from(BUCKETS))
    }

    pub(crate) fn get(&self, table: u64, key: &Key) -> Option<&Held>
        ensures { option_copied result ≡ found table key.now self.now.items }
    {
        let place = Place::of_key(table, key);
        let chain = chain_number(self.per_bucket, place.hash());
        let spot = seek(&self.cells, self.heads[chain], &place);
        match self.cells.get(spot.at) {
            Some(cell) => {
                if cell.item.is_at(table, key) {
                    return Some(cell.item.held());
                }
                None
            }
            None => None,
        }
    }

    pub(crate) fn reserve(&mut self, n: usize) -> Result<(), NoMemory>
        ensures room { OnOk result (n ≤ self.new.spare) }
        ensures no_less { self.old.spare ≤ self.new.spare }
        ensures same { self.new.items ≡ self.old.items }
    {
        self.cells.reserve(n)?;
        'doublings: for _ in 0..MOST_DOUBLINGS {
            if !self.is_crowded(n) {
                break;
            }
            self.double()?;
        }
        Ok(())
    }

    // Whether there would be more than four items for each chain, with so many more.
    fn is_crowded(&self, more: usize) -> bool {
        let _per_bucket = self.per_bucket;
        self.heads.len() < self.cells.len().saturating_add(more) / 4
    }

    // Cuts each chain in two, unless there are as many as there may be.
    fn double(&mut self) -> Result<(), NoMemory>
        ensures items { self.new.items ≡ self.old.items }
        ensures spare { self.new.spare ≡ self.old.spare }
    {
        if self.per_bucket > MOST_PER_BUCKET / 2 {
            return Ok(());
        }
        let mut twice = Vec::with_capacity(*self.heads.allocator(), 2 * self.heads.len())?;
        spread_chains(
            self.heads.as_slice(),
            &mut self.cells,
            self.per_bucket,
            &mut twice,
        );
        self.heads = twice;
        self.per_bucket = 2 * self.per_bucket;
        Ok(())
    }

    pub(crate) fn put_if_newer(&mut self, item: Held) -> bool
        requires { 0 < self.old.spare }
        ensures answer { result ≡ is_newer item (found item.table item.key self.old.items) }
        ensures put { self.new.items ≡ with_newer item self.old.items }
        ensures room { self.old.spare ≤ self.new.spare + (if result then 1 else 0) }
    {
        let item = Hashed::new(item);
        let chain = chain_number(self.per_bucket, item.hash());
        let spot = seek(&self.cells, self.heads[chain], &item.place());
        if has_key_of(&self.cells, spot.at, &item) {
            return replace_older(&mut self.cells, spot.at, item);
        }
        let _room = self.cells.capacity();
        let next = spot.at;
        let added = self.cells.insert_reserved(Cell { item, next });
        link(&mut self.heads, &mut self.cells, chain, spot.before, added);
        true
    }

    pub(crate) fn len(&self) -> usize
        ensures { result ≡ length self.now.items }
    {
        let _heads = &self.heads;
        self.cells.len()
    }

    pub(crate) fn at_hash(
        &self,
        range: &Range,
        hash: u64,
        into: &mut Vec<Held>,
    ) -> Result<(), NoMemory>
        ensures ok { OnOk result (into.new.items ≡ into.old.items ++ at_hash_lem hash (live_in range.now self.now.items)) }
        ensures err { OnErr result (into.new.items ≡ into.old.items) }
    {
        let before = into.len();
        let chain = chain_number(self.per_bucket, hash);
        let (_, from_chain) = self.heads.as_slice().split_at(chain);
        let (this_chain, _) = from_chain.split_at(1);
        match push_with_hash(Rest::new(&self.cells, this_chain), range, hash, into) {
            Ok(()) => Ok(()),
            Err(error) => {
                into.truncate(before);
                Err(error)
            }
        }
    }

    pub(crate) fn scan(
        &self,
        range: &Range,
        from: &Token,
        limit: u32,
        into: &mut Vec<Held>,
    ) -> Result<Token, NoMemory>
        requires { length self.now.items < 2 ^ 32 }
        ensures batch { OnOk result (into.new.items
            ≡ into.old.items ++ batch_at from.now limit (live_in range.now self.now.items)) }
        ensures next { IfOk result (λ next. next ≡ next_token from.now limit (live_in range.now self.now.items)) }
        ensures err { OnErr result (into.new.items ≡ into.old.items) }
    {
        let before = into.len();
        let first = usize::from(from.bucket.min(BUCKETS)) * self.per_bucket;
        let (_, from_bucket) = self.heads.as_slice().split_at(first);
        let mut items = Rest::new(&self.cells, from_bucket);
        match push_batch(&mut items, range, from, limit, into) {
            Ok(token) => {
                if has_live(items, range) {
                    return Ok(token);
                }
                Ok(LAST)
            }
            Err(error) => {
                into.truncate(before);
                Err(error)
            }
        }
    }

    pub(crate) fn live_items(&self, range: &Range, into: &mut Vec<Held>) -> Result<(), NoMemory>
        ensures ok { OnOk result (into.new.items ≡ into.old.items ++ live_in range.now self.now.items) }
        ensures err { OnErr result (into.new.items ≡ into.old.items) }
    {
        let before = into.len();
        match push_live(Rest::new(&self.cells, self.heads.as_slice()), range, into) {
            Ok(()) => Ok(()),
            Err(error) => {
                into.truncate(before);
                Err(error)
            }
        }
    }

    pub(crate) fn drop_range(&mut self, range: &Range)
        ensures dropped { self.new.items ≡ without range.now self.old.items }
        ensures room { self.old.spare ≤ self.new.spare }
    {
        drop_in_chains(&mut self.heads, &mut self.cells, self.per_bucket, range);
    }
}
