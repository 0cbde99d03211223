ghost use Rattle.std.specs.List.Sorted.{IsStrictlySortedBy-prop};
ghost use Rattle.rk_table.specs.Order.{IsInScanOrder, item_cmp};

use crate::chains::Chains;
use rk_table::RecordTable;
use rk_types::{Held, Key, NoMemory, Range, Token};
use std::alloc::Global;

/// A table whose items lie in hash chains: a look-up and an insertion are a walk along one chain. `reserve` alone makes
/// chains, so that they stay short.
#[derive(Drop)]
pub struct BucketTable {
    chains: Chains,
    ghost in_order: { IsInScanOrder chains.items } by { IsStrictlySortedBy-prop item_cmp chains.items },
}

impl BucketTable {
    ghost use Rattle.std.specs.Prelude.{◌≡◌, [], length, IfOk};
    ghost use Rattle.rk_bucket_table.specs.Tables.{items_of};

    /// A table of no items, with a chain for each bucket.
    pub fn new(alloc: Global) -> Result<BucketTable, NoMemory>
        ensures { IfOk result (λ table. items_of table ≡ []) }
    {
        Ok(BucketTable {
            chains: Chains::new(alloc)?,
        })
    }

    /// How many items there are, tombstones among them, in constant time.
    pub fn len(&self) -> usize
        ensures { result ≡ length (items_of self.now) }
    {
        self.chains.len()
    }
}

impl RecordTable for BucketTable {
    ghost use Rattle.rk_bucket_table.specs.Tables.{items_of, spare_of};

    ghost items = { items_of };

    ghost spare = { spare_of };

    fn get(&self, table: u64, key: &Key) -> Option<&Held> {
        self.chains.get(table, key)
    }

    fn reserve(&mut self, n: usize) -> Result<(), NoMemory> {
        self.chains.reserve(n)
    }

    fn put_if_newer(&mut self, item: Held) -> bool {
        self.chains.put_if_newer(item)
    }

    fn at_hash(&self, range: &Range, hash: u64, into: &mut Vec<Held>) -> Result<(), NoMemory> {
        self.chains.at_hash(range, hash, into)
    }

    fn scan(
        &self,
        range: &Range,
        from: &Token,
        limit: u32,
        into: &mut Vec<Held>,
    ) -> Result<Token, NoMemory> {
        self.chains.scan(range, from, limit, into)
    }

    fn live_items(&self, range: &Range, into: &mut Vec<Held>) -> Result<(), NoMemory> {
        self.chains.live_items(range, into)
    }

    fn drop_range(&mut self, range: &Range) {
        self.chains.drop_range(range);
    }

    ghost in_order = { λ table. table.in_order };
}
