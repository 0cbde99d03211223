ghost use Rattle.std.specs.List.Sorted.{IsStrictlySortedBy-prop};
ghost use Rattle.rk_table.specs.Order.{IsInScanOrder, item_cmp};

use crate::search::{count_before, count_before_bucket, count_with_hash, find};
use crate::slot::{Place, Slot};
use crate::table::{END, RecordTable};
use crate::walk::{append_live, batch_end, has_live, passed_over, token_behind};
use rk_types::{Held, Key, NoMemory, Range, Token};
use std::alloc::Global;

/// A table whose items are in one sorted vector: a look-up is a binary search, and an insertion moves the items behind
/// it.
#[derive(Drop)]
pub struct SortedTable {
    slots: Vec<Slot>,
    ghost in_order: { IsInScanOrder slots.items } by { IsStrictlySortedBy-prop item_cmp slots.items },
}

impl SortedTable {
    ghost use Rattle.std.specs.Prelude.{◌≡◌, [], length};
    ghost use Rattle.rk_table.specs.Sorted.{items_of};

    /// A table of no items, which takes no memory.
    pub fn new(alloc: Global) -> SortedTable
        ensures { items_of result ≡ [] }
    {
        SortedTable {
            slots: Vec::new(alloc),
        }
    }

    /// How many items there are, tombstones among them, in constant time.
    pub fn len(&self) -> usize
        ensures { result ≡ length (items_of self.now) }
    {
        self.slots.len()
    }
}

impl RecordTable for SortedTable {
    ghost use Rattle.rk_table.specs.Sorted.{items_of, spare_of};

    ghost items = { items_of };

    ghost spare = { spare_of };

    fn get(&self, table: u64, key: &Key) -> Option<&Held> {
        match find(self.slots.as_slice(), table, key) {
            Ok(at) => Some(self.slots[at].held()),
            Err(_) => None,
        }
    }

    fn reserve(&mut self, n: usize) -> Result<(), NoMemory> {
        self.slots.reserve(n)?;
        Ok(())
    }

    fn put_if_newer(&mut self, item: Held) -> bool {
        match find(self.slots.as_slice(), item.table, &item.key) {
            Ok(at) => {
                if self.slots[at].held().version >= item.version {
                    return false;
                }
                self.slots[at] = Slot::new(item);
                true
            }
            Err(at) => self.slots.insert(at, Slot::new(item)).is_ok(),
        }
    }

    fn at_hash(&self, range: &Range, hash: u64, into: &mut Vec<Held>) -> Result<(), NoMemory> {
        let slots = self.slots.as_slice();
        let (_, from_hash) = slots.split_at(count_before(slots, &Place::first_at(hash)));
        let (with_hash, _) = from_hash.split_at(count_with_hash(from_hash, hash));
        append_live(with_hash, range, into)
    }

    fn scan(
        &self,
        range: &Range,
        from: &Token,
        limit: u32,
        into: &mut Vec<Held>,
    ) -> Result<Token, NoMemory> {
        let slots = self.slots.as_slice();
        let (_, from_bucket) = slots.split_at(count_before_bucket(slots, from.bucket));
        let (_, left) = from_bucket.split_at(passed_over(from_bucket, range, from));
        let (batch, rest) = left.split_at(batch_end(left, range, limit));
        append_live(batch, range, into)?;
        if has_live(rest, range) {
            return Ok(token_behind(slots, slots.len() - rest.len(), range));
        }
        Ok(END)
    }

    fn live_items(&self, range: &Range, into: &mut Vec<Held>) -> Result<(), NoMemory> {
        append_live(self.slots.as_slice(), range, into)
    }

    fn drop_range(&mut self, range: &Range) {
        self.slots.retain(|slot| !slot.is_in(range));
    }

    ghost in_order = { λ table. table.in_order };
}
