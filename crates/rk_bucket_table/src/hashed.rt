ghost use Rattle.std.specs.Prelude.{◌≡◌, ◌==◌, ◌&&◌};
ghost use Rattle.rk_table.specs.Order.{item_bucket, item_hash, item_place, place_of};
ghost use Rattle.rk_table.specs.Items.{is_at, is_in, is_live_in};
ghost use Rattle.rk_bucket_table.specs.Cells.{place_seen};

use rk_types::{Held, Key, Range, bucket_of, hash};
use std::marker::Model;

/// A place in scan order.
#[derive(Clone, Copy, PartialEq, Eq, PartialOrd, Ord)]
pub(crate) struct Place<'a> {
    bucket: u16,
    hash: u64,
    table: u64,
    key: &'a [u8],
}

impl<'a> Place<'a> {
    /// Where an item of this key of this table belongs.
    pub(crate) fn of_key(table: u64, key: &'a Key) -> Place<'a>
        ensures { place_seen result ≡ place_of table key.now }
    {
        let key = key.bytes();
        let hash = hash(key);
        Place {
            bucket: bucket_of(hash),
            hash,
            table,
            key,
        }
    }

    pub(crate) fn hash(&self) -> u64
        ensures { result ≡ self.now.hash }
    {
        self.hash
    }
}

/// An item beside the hash of its key, which is computed once.
#[derive(Drop)]
pub(crate) struct Hashed {
    hash: u64,
    held: Held,
}

impl Model for Hashed {
    ghost use Rattle.std.specs.Prelude.{◌≡◌};
    ghost use Rattle.rk_types.specs.declared.held.Held.{Held};
    ghost use Rattle.rk_types.specs.Hashing.{hash_of};

    ghost Value = { Held };

    ghost view = { λ hashed. hashed.held };

    ghost invariant = { λ hashed. hashed.hash ≡ hash_of hashed.held.key };
}

impl Hashed {
    pub(crate) fn new(held: Held) -> Hashed
        ensures { result ≡ held }
    {
        let hash = hash(held.key.bytes());
        Hashed { hash, held }
    }

    pub(crate) fn held(&self) -> &Held
        ensures { result.now ≡ self.now }
    {
        &self.held
    }

    pub(crate) fn hash(&self) -> u64
        ensures { result ≡ item_hash self.now }
    {
        self.hash
    }

    pub(crate) fn bucket(&self) -> u16
        ensures { result ≡ item_bucket self.now }
    {
        bucket_of(self.hash)
    }

    pub(crate) fn place(&self) -> Place<'_>
        ensures { place_seen result ≡ item_place self.now }
    {
        Place {
            bucket: bucket_of(self.hash),
            hash: self.hash,
            table: self.held.table,
            key: self.held.key.bytes(),
        }
    }

    // Whether it is the item of this key of this table.
    pub(crate) fn is_at(&self, table: u64, key: &Key) -> bool
        ensures { result ≡ is_at table key.now self.now }
    {
        self.held.table == table && self.held.key == *key
    }

    pub(crate) fn is_in(&self, range: &Range) -> bool
        ensures { result ≡ is_in range.now self.now }
    {
        range.has(self.held.table, self.hash)
    }

    // Whether it is in the range and no tombstone.
    pub(crate) fn is_live_in(&self, range: &Range) -> bool
        ensures { result ≡ is_live_in range.now self.now }
    {
        self.held.value.is_some() && range.has(self.held.table, self.hash)
    }

    // Whether it is in the range, no tombstone, and has this hash.
    pub(crate) fn is_live_with_hash(&self, range: &Range, hash: u64) -> bool
        ensures { result ≡ (is_live_in range.now self.now && item_hash self.now == hash) }
    {
        self.is_live_in(range) && self.hash == hash
    }
}
