ghost use Rattle.std.specs.Prelude.{◌≡◌, ◌<◌, ◌+◌, length, option_and_then, slice_get};
ghost use Rattle.rk_overlay.specs.Newest.{IsBestBefore, is_of as is_of_lem, newest as newest_lem};

use rk_types::{Held, Key};

/// The place, counted from 0, of the newest item of the record with this table and key: the one with the greatest
/// version, and the first of several that have it. None if no item is of the record. A step for each item.
pub fn newest(items: &[Held], table: u64, key: &Key) -> Option<usize>
    ensures place { IsBestBefore items.now table key.now (length items.now) result }
    ensures item { option_and_then (slice_get items.now) result ≡ newest_lem items.now table key.now }
{
    let mut best = None;
    for place in 0..items.len() {
        best = better(items, table, key, place, best);
    }
    best
}

// The newest among the items up to this place, if `best` is the newest before it.
fn better(items: &[Held], table: u64, key: &Key, place: usize, best: Option<usize>) -> Option<usize>
    requires within { place < length items.now }
    requires best { IsBestBefore items.now table key.now place best }
    ensures { IsBestBefore items.now table key.now (place + 1) result }
{
    let item = &items[place];
    if !is_of(item, table, key) {
        return best;
    }
    let Some(old) = best else {
        return Some(place);
    };
    if items[old].version < item.version {
        return Some(place);
    }
    best
}

// Whether the item is of the record with this table and key.
fn is_of(item: &Held, table: u64, key: &Key) -> bool
    ensures { result ≡ is_of_lem table key.now item.now }
{
    item.table == table && item.key == *key
}
