ghost use Rattle.std.specs.Prelude.{◌≡◌, ◌<◌, [], All, IfNone, IfSome, OnOk, OnErr, None, Some, length, slice_get};
ghost use Rattle.std.specs.Option.{option_copied};
ghost use Rattle.std.specs.VecDeque.Iter.{deque_iter_rest};
ghost use Rattle.rk_types.specs.NumberMap as map;
ghost use Rattle.rk_types.specs.Places.{IsAt};

use rk_types::NoMemory;
use std::alloc::Global;
use std::collections::VecDeque;
use std::collections::vec_deque::Iter;
use std::marker::Model;

/// Values under numbers that rise: each that comes has a greater number than those before it. Contracts see the map by
/// number.
#[derive(Drop)]
pub struct Queue<V> {
    values: VecDeque<(u64, V)>,
}

impl<V> Model for Queue<V> {
    ghost use Rattle.rk_types.specs.NumberMap as map;

    ghost Value = { map.NumberMap V };

    ghost coded = { map.number_map_code V.code };

    ghost view = { λ queue. queue.values.items };

    ghost invariant = { λ queue. map.IsInOrder queue.values.items };
}

impl<V> Queue<V> {
    /// No values, which takes no memory.
    pub fn new(alloc: Global) -> Queue<V>
        ensures { result ≡ [] }
    {
        Queue {
            values: VecDeque::new(alloc),
        }
    }

    /// The value of this number. One binary search.
    pub fn get(&self, number: u64) -> Option<&V>
        ensures { option_copied result ≡ map.get self.now number }
    {
        let place = self.place_of(number)?;
        Some(&self.values[place].1)
    }

    /// Puts a value behind the others, under a number that is greater than all of theirs. After `NoMemory` the values
    /// are as they were, and the new one is dropped. No search; if the room is used up, all move to more of it.
    pub fn push(&mut self, number: u64, value: V) -> Result<(), NoMemory>
    where
        V: Drop,
        requires { map.EachIn (λ other _. other < number) self.old }
        ensures ok { OnOk result (self.new ≡ map.insert self.old number value) }
        ensures err { OnErr result (self.new ≡ self.old) }
    {
        self.values.push_back((number, value))?;
        Ok(())
    }

    /// Takes the value of this number out, if there is one. One binary search, and a move for each value before it,
    /// or for each behind it if those are fewer.
    pub fn remove(&mut self, number: u64) -> Option<V>
        ensures value { result ≡ map.get self.old number }
        ensures removed { self.new ≡ map.remove self.old number }
        ensures unchanged { IfNone result (self.new ≡ self.old) }
    {
        let place = self.place_of(number)?;
        let entry = self.values.remove(place)?;
        Some(entry.1)
    }

    /// How many values there are.
    pub fn count(&self) -> u64
        ensures count { result ≡ length self.now }
        ensures order { map.IsInOrder self.now }
    {
        self.values.len() as u64
    }

    /// The values with their numbers, by rising number.
    pub fn iter(&self) -> Iter<'_, (u64, V)>
        ensures values { deque_iter_rest result ≡ self.now }
        ensures found { All (λ entry. map.get self.now entry.0 ≡ Some entry.1) self.now }
    {
        self.values.iter()
    }

    /// The number at a place; the numbers rise, and places count from 0. No search.
    pub fn number_at(&self, place: usize) -> Option<u64>
        ensures { result ≡ slice_get (map.numbers self.now) place }
    {
        self.values.get(place).map(|entry| entry.0)
    }

    // The place of the entry of this number, if there is one. One binary search.
    fn place_of(&self, number: u64) -> Option<usize>
        ensures found { IfSome result (λ place. IsAt number self.now place) }
        ensures absent { IfNone result (map.get self.now number ≡ None) }
    {
        self.values
            .binary_search_by_key(&number, |entry| entry.0)
            .ok()
    }
}
