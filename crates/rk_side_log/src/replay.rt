ghost use Rattle.std.specs.Prelude.{◌≡◌, ◌+◌, ◌<◌, ◌≤◌, ◌^◌, ◌++◌, ◌∷◌, [], length, vec_len, vec_capacity, if◌then◌else◌, Some, None};
ghost use Rattle.std.specs.List.{All};
ghost use Rattle.rk_types.specs.Held.{spelled_of};
ghost use Rattle.rk_entry.specs.Lawful.{IsLawfulHeld};
ghost use Rattle.rk_entry.specs.Spelling.{spelled};
ghost use Rattle.rk_table.specs.Items.{found, is_newer, with_newer};
ghost use Rattle.rk_side_log.specs.Replayed.{side_replayed};
ghost use Rattle.rk_side_log.specs.Side.{with_last};
ghost use Rattle.rk_side_log.specs.Sides.{HasSegmentsFor};
ghost use Rattle.rk_side_log.specs.Spelled.{spelled_items};

use crate::side_log::SideLog;
use rk_entry::{Entry, put_entry};
use rk_table::RecordTable;
use rk_types::{Held, LONGEST_SPELLED};

/// How many items were put into a side log, and how many bytes their entries take.
#[derive(Clone, Copy)]
pub(crate) struct Tally {
    pub(crate) items: u32,
    pub(crate) bytes: u64,
}

/// Replays items into the table and a side log, both of which have room for them. It takes no memory. A search of the
/// table for each item.
pub(crate) fn replay_all<T: RecordTable>(
    items: Vec<Held>,
    table: &mut T,
    side: &mut SideLog,
    spelling: &mut Vec<u8>,
) -> Tally
    requires lawful { All IsLawfulHeld items.items }
    requires few { vec_len items < 2 ^ 32 }
    requires spare { vec_len items ≤ T.spare table.old }
    requires room { HasSegmentsFor items.items side.old }
    requires spelling { LONGEST_SPELLED ≤ vec_capacity spelling.old }
    ensures records { T.items table.new ≡ (side_replayed (T.items table.old) side.old.items items.items).records }
    ensures items { side.new.items ≡ (side_replayed (T.items table.old) side.old.items items.items).items }
    ensures made { side.new.made ≡ side.old.made }
    ensures count { length side.new.items ≡ length side.old.items + result.items }
    ensures bytes { length (spelled_items side.new.items) ≡ length (spelled_items side.old.items) + result.bytes }
    ensures small { result.bytes < 2 ^ 63 }
{
    let mut tally = Tally { items: 0, bytes: 0 };
    for item in items {
        if let Some(bytes) = replay_one(item, table, side, spelling) {
            tally.items += 1;
            tally.bytes += bytes as u64;
        }
    }
    tally
}

// Replays an item, and answers how many bytes its entry takes if it is newer than what the table has of its key.
fn replay_one<T: RecordTable>(
    item: Held,
    table: &mut T,
    side: &mut SideLog,
    spelling: &mut Vec<u8>,
) -> Option<u32>
    requires lawful { IsLawfulHeld item }
    requires spare { 0 < T.spare table.old }
    requires room { HasSegmentsFor (item ∷ []) side.old }
    requires spelling { LONGEST_SPELLED ≤ vec_capacity spelling.old }
    ensures records { T.items table.new ≡ with_newer item (T.items table.old) }
    ensures side { side.new ≡ (if is_newer item (found item.table item.key (T.items table.old))
        then with_last side.old item else side.old) }
    ensures bytes { result ≡ (if is_newer item (found item.table item.key (T.items table.old))
        then Some (spelled_of item) else None) }
    ensures spare { T.spare table.old ≤ T.spare table.new + 1 }
    ensures spelling { vec_capacity spelling.old ≤ vec_capacity spelling.new }
{
    let item = spell(item, spelling);
    if !table.put_if_newer(item) {
        return None;
    }
    side.put(spelling.as_slice());
    Some(spelling.len() as u32)
}

// Spells the entry of an item, and gives the item back.
fn spell(item: Held, spelling: &mut Vec<u8>) -> Held
    requires lawful { IsLawfulHeld item }
    requires room { LONGEST_SPELLED ≤ vec_capacity spelling.old }
    ensures item { result ≡ item }
    ensures bytes { spelling.new.items ≡ spelled (Entry.Held item) }
    ensures room { vec_capacity spelling.old ≤ vec_capacity spelling.new }
{
    spelling.clear();
    let entry = Entry::Held(item);
    put_entry(spelling, &entry);
    match entry {
        Entry::Held(item) => item,
        Entry::Refused(_refused) => unreachable!(),
        Entry::Carried(_carried) => unreachable!(),
        Entry::Joined(_joined) => unreachable!(),
    }
}
