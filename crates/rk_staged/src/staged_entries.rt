ghost use Rattle.std.specs.Prelude.{◌≡◌, List, [], ◌∷◌, ◌++◌, Some, IfOk, OnOk, IsSome};
ghost use Rattle.std.specs.BTreeMap.{get as found_in, Updates};
ghost use Rattle.rk_types.specs.declared.held.Held.{Held as Item};
ghost use Rattle.rk_entry.specs.declared.entry.Entry.{Entry as Staged};
ghost use Rattle.std.specs.Option.{option_copied};
ghost use Rattle.rk_overlay.specs.Newest.{newest};
ghost use Rattle.rk_world.specs.Ends.{items_in, items_of};
ghost use Rattle.rk_staged.specs.Kept.{AreStaged, IsKept, kept, kept_with, name_cmp, newer_in};

use rk_entry::Entry;
use rk_types::{Held, Key, NoMemory};
use std::alloc::Global;
use std::collections::{BTreeMap, VecDeque};

/// What is kept of the staged items of a record: the version of the newest one, whether that one has a value, and how
/// many there are.
#[derive(Clone, Copy)]
pub struct Kept {
    pub version: u64,
    pub is_live: bool,
    pub count: u64,
}

/// The entries that are staged, the oldest first, and what is kept of the newest staged item of each record, by table and
/// key.
#[derive(Drop)]
pub struct StagedEntries {
    entries: VecDeque<Entry>,
    newest: BTreeMap<(u64, Key), Kept>,
}

impl StagedEntries {
    /// No entries.
    pub fn new(alloc: Global) -> StagedEntries
        ensures { AreStaged result [] }
    {
        StagedEntries {
            entries: VecDeque::new(alloc),
            newest: BTreeMap::new(alloc),
        }
    }

    /// The entries, the oldest first.
    pub fn entries(&self) -> &VecDeque<Entry>
        ensures { result.now ≡ self.now.entries }
    {
        &self.entries
    }

    /// What is kept of the items of this table and key. One search.
    pub fn look(&self, name: &(u64, Key)) -> Option<Kept>
        ensures { result ≡ found_in name_cmp self.now.newest name.now }
    {
        self.newest.get(name).copied()
    }

    /// Takes in the entry that is staged last. Two searches if it is an item.
    pub fn push(&mut self, entry: Entry) -> Result<(), NoMemory>
        ensures { OnOk result ((entries : List Staged)
            → AreStaged self.old entries → AreStaged self.new (entries ++ entry ∷ [])) }
    {
        self.take_in(&entry)?;
        self.entries.push_back(entry)?;
        Ok(())
    }

    // Keeps what is to be kept of the entry that is staged last, if it is an item.
    fn take_in(&mut self, entry: &Entry) -> Result<(), NoMemory>
        ensures kept { OnOk result ((items : List Item)
            → IsKept self.old.newest items → IsKept self.new.newest (items ++ items_in entry.now)) }
        ensures entries { self.new.entries ≡ self.old.entries }
    {
        match entry {
            Entry::Held(held) => {
                self.add(held)?;
                Ok(())
            }
            _ => Ok(()),
        }
    }

    // Keeps what is to be kept of the item that is staged last.
    fn add(&mut self, item: &Held) -> Result<(), NoMemory>
        ensures ok { OnOk result ((items : List Item)
            → IsKept self.old.newest items → IsKept self.new.newest (items ++ item.now ∷ [])) }
        ensures entries { self.new.entries ≡ self.old.entries }
    {
        let name = (item.table, item.key.duplicate()?);
        let kept = one_more(self.look(&name), item)?;
        self.newest.insert(name, kept)?;
        Ok(())
    }

    /// Takes out the entry that was staged first; none if nothing is staged. A few searches if it is an item, and a step
    /// for each of the others only if it is the newest of several of its record. It takes no memory.
    pub fn pop(&mut self) -> Option<Entry>
        ensures first { (entry : Staged) (entries : List Staged)
            → AreStaged self.old (entry ∷ entries) → result ≡ Some entry }
        ensures rest { (entry : Staged) (entries : List Staged)
            → AreStaged self.old (entry ∷ entries) → AreStaged self.new entries }
    {
        match self.entries.pop_front()? {
            Entry::Held(held) => Some(Entry::Held(self.take_out(held))),
            entry => Some(entry),
        }
    }

    // Keeps no more of an item that was staged before all that are staged, and hands it back.
    fn take_out(&mut self, item: Held) -> Held
        ensures item { result ≡ item }
        ensures kept { IsKept self.old.newest (item ∷ items_of self.old.entries.items)
            → IsKept self.new.newest (items_of self.old.entries.items) }
        ensures entries { self.new.entries ≡ self.old.entries }
    {
        let name = (item.table, item.key);
        self.subtract(&name, item.version);
        Held {
            key: name.1,
            ..item
        }
    }

    // Takes out the item of this table, key and version that was staged before all that are staged.
    fn subtract(&mut self, name: &(u64, Key), version: u64)
        ensures kept { (item : Item) → item.table ≡ name.now.0 → item.key ≡ name.now.1 → item.version ≡ version
            → IsKept self.old.newest (item ∷ items_of self.old.entries.items)
            → IsKept self.new.newest (items_of self.old.entries.items) }
        ensures entries { self.new.entries ≡ self.old.entries }
    {
        if let Some(old) = self.look(name) {
            let kept = left(old, name, version, &self.entries);
            self.put(name, kept);
        }
    }

    // Keeps this of the items of a table and key of which something is kept, or nothing.
    fn put(&mut self, name: &(u64, Key), kept: Option<Kept>)
        requires { IsSome (found_in name_cmp self.old.newest name.now) }
        ensures updates { Updates name_cmp self.old.newest self.new.newest name.now kept }
        ensures entries { self.new.entries ≡ self.old.entries }
    {
        let Some(now) = kept else {
            self.newest.remove(name);
            return;
        };
        if let Some(there) = self.newest.get_mut(name) {
            *there = now;
        }
    }
}

// What is left to keep of the items of a record once the first one is gone, which has this version.
fn left(old: Kept, name: &(u64, Key), version: u64, rest: &VecDeque<Entry>) -> Option<Kept>
    ensures { (item : Item) → item.table ≡ name.now.0 → item.key ≡ name.now.1 → item.version ≡ version
        → Some old ≡ kept (item ∷ items_of rest.now.items) name.now.0 name.now.1
        → result ≡ kept (items_of rest.now.items) name.now.0 name.now.1 }
{
    if old.count <= 1 {
        return None;
    }
    if version < old.version {
        return Some(Kept {
            version: old.version,
            is_live: old.is_live,
            count: old.count - 1,
        });
    }
    let newest = newest_in(rest, name)?;
    Some(Kept {
        version: newest.version,
        is_live: newest.value.is_some(),
        count: old.count - 1,
    })
}

// The newest item of a table and key among entries. A step for each entry.
fn newest_in<'a>(entries: &'a VecDeque<Entry>, name: &(u64, Key)) -> Option<&'a Held>
    ensures { option_copied result ≡ newest (items_of entries.now.items) name.now.0 name.now.1 }
{
    let (front, back) = entries.as_slices();
    newest_of(newest_of(None, front, name), back, name)
}

// The newest of the newest item so far and of the items of a table and key among entries.
fn newest_of<'a>(
    best: Option<&'a Held>,
    entries: &'a [Entry],
    name: &(u64, Key),
) -> Option<&'a Held>
    ensures { (before : List Staged) → option_copied best.entry ≡ newest (items_of before) name.now.0 name.now.1
        → option_copied result ≡ newest (items_of (before ++ entries.now)) name.now.0 name.now.1 }
{
    let mut best = best;
    for entry in entries {
        best = newer(best, entry, name);
    }
    best
}

// The newer of the newest item so far and of an entry, if that is an item of the table and key.
fn newer<'a>(best: Option<&'a Held>, entry: &'a Entry, name: &(u64, Key)) -> Option<&'a Held>
    ensures { option_copied result ≡ newer_in (option_copied best.entry) entry.now name.now.0 name.now.1 }
{
    let Entry::Held(held) = entry else {
        return best;
    };
    if held.table != name.0 || held.key != name.1 {
        return best;
    }
    let Some(old) = best else {
        return Some(held);
    };
    if old.version < held.version {
        return Some(held);
    }
    best
}

// What is kept once one more item of the record is staged.
fn one_more(kept: Option<Kept>, item: &Held) -> Result<Kept, NoMemory>
    ensures { IfOk result (λ more. more ≡ kept_with kept item.now) }
{
    let Some(old) = kept else {
        return Ok(Kept {
            version: item.version,
            is_live: item.value.is_some(),
            count: 1,
        });
    };
    if old.count == u64::MAX {
        return Err(NoMemory);
    }
    if old.version < item.version {
        return Ok(Kept {
            version: item.version,
            is_live: item.value.is_some(),
            count: old.count + 1,
        });
    }
    Ok(Kept {
        version: old.version,
        is_live: old.is_live,
        count: old.count + 1,
    })
}
