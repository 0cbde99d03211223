ghost use Rattle.std.specs.Prelude.{ℕ, ◌≡◌, ◌+◌, ◌^◌, ◌<◌, ◌≤◌, ◌++◌, List, length, if◌then◌else◌, IfOk, OnOk, OnErr};
ghost use Rattle.std.specs.Option.{option_copied};
ghost use Rattle.rk_types.specs.declared.held.Held.{Held as Item};
ghost use Rattle.rk_table.specs.Order.{IsInScanOrder};
ghost use Rattle.rk_table.specs.Items.{at_hash as at_hash_lem, found, is_newer, live_in, with_newer, without};
ghost use Rattle.rk_table.specs.Scans.{batch_at, next_token};

use rk_types::{BUCKETS, Held, Key, NoMemory, Range, Token};

/// Where a scan begins.
pub const FIRST: Token = Token { bucket: 0, skip: 0 };

/// What a scan answers when nothing is left.
pub const END: Token = Token {
    bucket: BUCKETS,
    skip: 0,
};

/// The newest item of each key, tombstones among them, in scan order: by bucket, then by hash, then by table, then by
/// key. Contracts see it as the list of its items.
pub trait RecordTable {
    /// The items, in scan order.
    ghost items: { Self → List Item };

    /// How many more items there is room for.
    ghost spare: { Self → ℕ };

    /// The item of this key of this table, a tombstone too, or none if there is no item of the key. One search.
    fn get(&self, table: u64, key: &Key) -> Option<&Held>
        ensures { option_copied result ≡ found table key.now (items self.now) };

    /// Makes room for `n` items more than there are, and leaves no less room than there was. After `NoMemory` the items are
    /// as they were.
    fn reserve(&mut self, n: usize) -> Result<(), NoMemory>
        ensures room { OnOk result (n ≤ spare self.new) }
        ensures no_less { spare self.old ≤ spare self.new }
        ensures same { items self.new ≡ items self.old };

    /// Puts the item if its key is absent or has an older version, and answers whether it did; otherwise it is dropped.
    /// It takes no memory, and needs room for one item. One search, and what an insertion takes.
    fn put_if_newer(&mut self, item: Held) -> bool
        requires { 0 < spare self.old }
        ensures answer { result ≡ is_newer item (found item.table item.key (items self.old)) }
        ensures put { items self.new ≡ with_newer item (items self.old) }
        ensures room { spare self.old ≤ spare self.new + (if result then 1 else 0) };

    /// Appends duplicates of the live items of the range that have this hash, in scan order. After `NoMemory` `into` is
    /// as it was. One search, and a step for each item with the hash.
    fn at_hash(&self, range: &Range, hash: u64, into: &mut Vec<Held>) -> Result<(), NoMemory>
        ensures ok { OnOk result (into.new.items ≡ into.old.items ++ at_hash_lem hash (live_in range.now (items self.now))) }
        ensures err { OnErr result (into.new.items ≡ into.old.items) };

    /// Appends duplicates of the live items of the range from the token on, in scan order, up to and with the first one
    /// at which their entries have `limit` bytes, and answers the token behind them: `{1024, 0}` exactly when no live
    /// item of the range is left. The table has fewer than 2^32 items. After `NoMemory` `into` is as it was. One search,
    /// and a step for each item from the token's bucket to the next live item of the range.
    fn scan(
        &self,
        range: &Range,
        from: &Token,
        limit: u32,
        into: &mut Vec<Held>,
    ) -> Result<Token, NoMemory>
        requires { length (items self.now) < 2 ^ 32 }
        ensures batch { OnOk result (into.new.items
            ≡ into.old.items ++ batch_at from.now limit (live_in range.now (items self.now))) }
        ensures next { IfOk result (λ next. next ≡ next_token from.now limit (live_in range.now (items self.now))) }
        ensures err { OnErr result (into.new.items ≡ into.old.items) };

    /// Appends duplicates of the live items of the range, in scan order. After `NoMemory` `into` is as it was. A step for
    /// each item of the table.
    fn live_items(&self, range: &Range, into: &mut Vec<Held>) -> Result<(), NoMemory>
        ensures ok { OnOk result (into.new.items ≡ into.old.items ++ live_in range.now (items self.now)) }
        ensures err { OnErr result (into.new.items ≡ into.old.items) };

    /// Removes the items of the range, and leaves no less room than there was. A step for each item of the table: a range
    /// of hashes is spread over all buckets.
    fn drop_range(&mut self, range: &Range)
        ensures dropped { items self.new ≡ without range.now (items self.old) }
        ensures room { spare self.old ≤ spare self.new };

    /// The items are in scan order.
    ghost in_order: { (table : Self) → IsInScanOrder (items table) };
}
