ghost use Rattle.std.specs.Prelude.{◌≡◌, [], All, IfNone, OnOk, OnErr, Some, length, slice_get};
ghost use Rattle.std.specs.Option.{option_copied};
ghost use Rattle.rk_types.specs.NumberMap as map;

use crate::memory::NoMemory;
use std::alloc::Global;
use std::collections::BTreeMap;
use std::collections::btree_map::Iter;
use std::marker::Model;

/// Values under their numbers. Contracts see the map by number.
#[derive(Drop)]
pub struct Numbered<V> {
    values: BTreeMap<u64, V>,
}

impl<V> Model for Numbered<V> {
    ghost use Rattle.std.specs.Ordering.{nat_cmp};
    ghost use Rattle.std.specs.BTreeMap.{IsOrdered};
    ghost use Rattle.rk_types.specs.NumberMap as map;

    ghost Value = { map.NumberMap V };

    ghost coded = { map.number_map_code V.code };

    ghost view = { λ numbered. numbered.values.entries };

    ghost invariant = { λ numbered. IsOrdered nat_cmp numbered.values };
}

impl<V> Numbered<V> {
    /// No values, which takes no memory.
    pub fn new(alloc: Global) -> Numbered<V>
        ensures { result ≡ [] }
    {
        Numbered {
            values: BTreeMap::new(alloc),
        }
    }

    /// The value of this number. One search.
    pub fn get(&self, number: u64) -> Option<&V>
        ensures { option_copied result ≡ map.get self.now number }
    {
        self.values.get(&number)
    }

    /// Puts a value under this number; a value that was there is dropped. After `NoMemory` the values are as they were,
    /// and the new one is dropped. One search.
    pub fn insert(&mut self, number: u64, value: V) -> Result<(), NoMemory>
    where
        V: Drop,
        ensures ok { OnOk result (self.new ≡ map.insert self.old number value) }
        ensures err { OnErr result (self.new ≡ self.old) }
    {
        self.values.insert(number, value)?;
        Ok(())
    }

    /// Takes the value of this number out, if there is one. One search.
    pub fn remove(&mut self, number: u64) -> Option<V>
        ensures value { result ≡ map.get self.old number }
        ensures removed { self.new ≡ map.remove self.old number }
        ensures unchanged { IfNone result (self.new ≡ self.old) }
    {
        self.values.remove(&number)
    }

    /// How many values there are.
    pub fn count(&self) -> u64
        ensures count { result ≡ length self.now }
        ensures order { map.IsInOrder self.now }
    {
        self.values.len() as u64
    }

    /// The values with their numbers, by rising number.
    pub fn iter(&self) -> Iter<'_, u64, V>
        ensures values { result ≡ self.now }
        ensures found { All (λ entry. map.get self.now entry.0 ≡ Some entry.1) self.now }
    {
        self.values.iter()
    }

    /// The number at a place; the numbers rise, and places count from 0. A step for each number up to there.
    pub fn number_at(&self, place: usize) -> Option<u64>
        ensures { result ≡ slice_get (map.numbers self.now) place }
    {
        self.values.keys().nth(place).copied()
    }
}
