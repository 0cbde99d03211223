ghost use Rattle.std.specs.Prelude.{◌≡◌, ◌≤◌};
ghost use Rattle.rk_table.specs.Places.{comes_before as comes_before_lem};
ghost use Rattle.rk_bucket_table.specs.Cells.{chain_of, place_seen};

use crate::hashed::{Hashed, Place};
use rk_types::bucket_of;

/// What ends a chain, since no cell has this number.
pub(crate) const END: usize = usize::MAX;

/// The most chains that a bucket may have.
pub(crate) const MOST_PER_BUCKET: usize = 1 << 22;

/// An item, and the number of the cell behind it in its chain.
#[derive(Drop)]
pub(crate) struct Cell {
    pub(crate) item: Hashed,
    pub(crate) next: usize,
}

impl Cell {
    pub(crate) fn comes_before(&self, place: &Place<'_>) -> bool
        ensures { result ≡ comes_before_lem (place_seen place.now) self.now.item }
    {
        self.item.place().cmp(&*place).is_lt()
    }
}

/// The number of the chain of an item with this hash, if each bucket has so many chains: the bucket comes first, and then
/// the high bits of the hash.
pub(crate) fn chain_number(per_bucket: usize, hash: u64) -> usize
    requires { per_bucket ≤ MOST_PER_BUCKET }
    ensures { result ≡ chain_of per_bucket hash }
{
    let high = (hash >> 32) as usize;
    usize::from(bucket_of(hash)) * per_bucket + high * per_bucket / (1 << 32)
}
