// Where items are among slots in scan order. Each call is one search.
ghost use Rattle.std.specs.Prelude.{◌≡◌, ◌==◌, [], false, nat_lt, IfOk, IfErr, All};
ghost use Rattle.rk_types.specs.Hashing.{bucket_of};
ghost use Rattle.rk_table.specs.Order.{IsInScanOrder, item_bucket, item_hash};
ghost use Rattle.rk_table.specs.Places.{IsCut, IsGap, IsHere, comes_before, place_seen};

use crate::slot::{Place, Slot};
use rk_types::Key;

/// How many items come before the place.
pub(crate) fn count_before(slots: &[Slot], place: &Place<'_>) -> usize
    requires { IsInScanOrder slots.now }
    ensures { IsCut (comes_before (place_seen place.now)) slots.now result }
{
    slots.partition_point(|slot| slot.place().cmp(place).is_lt())
}

/// How many items are in the buckets before this one.
pub(crate) fn count_before_bucket(slots: &[Slot], bucket: u16) -> usize
    requires { IsInScanOrder slots.now }
    ensures { IsCut (λ item. nat_lt (item_bucket item) bucket) slots.now result }
{
    slots.partition_point(|slot| slot.bucket() < bucket)
}

/// How many items have this hash, given that none comes before the first place with it.
pub(crate) fn count_with_hash(slots: &[Slot], hash: u64) -> usize
    requires order { IsInScanOrder slots.now }
    requires from_there { All (λ item. comes_before (bucket_of hash, hash, 0, []) item ≡ false) slots.now }
    ensures { IsCut (λ item. item_hash item == hash) slots.now result }
{
    slots.partition_point(|slot| slot.hash() == hash)
}

/// Where the item of this key of this table is, or else where it would be.
pub(crate) fn find(slots: &[Slot], table: u64, key: &Key) -> Result<usize, usize>
    requires { IsInScanOrder slots.now }
    ensures here { IfOk result (IsHere table key.now slots.now) }
    ensures gap { IfErr result (IsGap table key.now slots.now) }
{
    let at = count_before(slots, &Place::new(table, key));
    if at == slots.len() {
        return Err(at);
    }
    if slots[at].is_at(table, key) {
        return Ok(at);
    }
    Err(at)
}
