ghost use Rattle.std.specs.Prelude.{◌≡◌, ◌+◌, ◌<◌, ◌≤◌, ◌^◌, ◌++◌, [], ◌∷◌, length, map, replicate, slice_index_or, slice_set, vec_len, vec_capacity, IfOk, OnOk, OnErr};
ghost use Rattle.std.specs.List.{All, HoldsAt};
ghost use Rattle.rk_entry.specs.Lawful.{IsLawfulHeld};
ghost use Rattle.rk_world.specs.SideLogs.{sealed_sides};
ghost use Rattle.rk_side_log.specs.Replayed.{side_replayed};
ghost use Rattle.rk_side_log.specs.Side.{no_side};
ghost use Rattle.rk_side_log.specs.Sides.{HasSegmentsFor, items_of_each, made_in};
ghost use Rattle.rk_side_log.specs.Spelled.{bytes_in, spelled_items, unsealed_in};

use crate::replay::replay_all;
use crate::side_log::SideLog;
use rk_segment::Segment;
use rk_table::RecordTable;
use rk_types::{Held, LONGEST_SPELLED, NoMemory};
use std::alloc::Global;
use std::marker::Model;
use std::mem;

/// How many workers replay what a target pulls.
pub const WORKERS: usize = 4;

/// The side logs of a target, one for each worker. Contracts see the items of each worker.
#[derive(Drop)]
pub struct SideLogs {
    workers: [SideLog; WORKERS],
    // How many bytes their items take.
    bytes: u64,
    // No segments, and room for all those of the workers.
    sealed: Vec<Segment>,
    // The buffer in which an entry is spelled before it goes into a segment; its memory is used again.
    spelling: Vec<u8>,
}

impl Model for SideLogs {
    ghost use Rattle.std.specs.Prelude.{List};
    ghost use Rattle.rk_types.specs.declared.held.Held.{Held};

    ghost Value = { List (List Held) };

    ghost use Rattle.rk_side_log.specs.Logs.{items_of_all, IsConsistent};

    ghost view = { items_of_all };

    ghost invariant = { IsConsistent };
}

impl SideLogs {
    /// No items, which takes no memory.
    pub fn new(alloc: Global) -> SideLogs
        ensures { result ≡ [] ∷ [] ∷ [] ∷ [] ∷ [] }
    {
        SideLogs {
            workers: [
                SideLog::new(alloc),
                SideLog::new(alloc),
                SideLog::new(alloc),
                SideLog::new(alloc),
            ],
            bytes: 0,
            sealed: Vec::new(alloc),
            spelling: Vec::new(alloc),
        }
    }

    /// Side logs of their own with the same items. The memory of whole segments is taken for all that are made. A step for
    /// each segment, and the time to copy its bytes.
    pub fn duplicate(&self) -> Result<SideLogs, NoMemory>
        ensures { IfOk result (λ logs. logs ≡ self.now) }
    {
        let alloc = *self.sealed.allocator();
        let workers = [
            self.workers[0].duplicate()?,
            self.workers[1].duplicate()?,
            self.workers[2].duplicate()?,
            self.workers[3].duplicate()?,
        ];
        let mut sealed = Vec::new(alloc);
        sealed.reserve(count_made(&workers))?;
        Ok(SideLogs {
            workers,
            bytes: self.bytes,
            sealed,
            spelling: Vec::new(alloc),
        })
    }

    /// How many bytes the entries of all items take, in constant time.
    pub fn bytes(&self) -> u64
        ensures { result ≡ unsealed_in self.now }
    {
        self.bytes
    }

    /// Replays items by a worker, one after the other: an item that is newer than what the table has of its key goes into the
    /// table and to the end of the worker's side log, and any other nowhere. It answers how many were newer. There are
    /// fewer than 2^32 items, and fewer than 2^63 bytes in the side logs. `NoMemory` comes before the first change, and
    /// nothing has changed after it; the memory of whole segments is taken for all that the items could begin, and kept.
    /// It takes a search of the table for each item, and the time to spell it.
    pub fn replay<T: RecordTable>(
        &mut self,
        worker: u8,
        items: Vec<Held>,
        table: &mut T,
    ) -> Result<u32, NoMemory>
        requires worker { worker < WORKERS }
        requires lawful { All IsLawfulHeld items.items }
        requires few { vec_len items < 2 ^ 32 }
        requires room { unsealed_in self.old < 2 ^ 63 }
        ensures records { OnOk result (T.items table.new
            ≡ (side_replayed (T.items table.old) (slice_index_or self.old worker []) items.items).records) }
        ensures items { OnOk result (self.new ≡ slice_set self.old worker
            (side_replayed (T.items table.old) (slice_index_or self.old worker []) items.items).items) }
        ensures count { IfOk result (λ count.
            length (slice_index_or self.new worker []) ≡ length (slice_index_or self.old worker []) + count) }
        ensures err { OnErr result (self.new ≡ self.old) }
        ensures err_records { OnErr result (T.items table.new ≡ T.items table.old) }
        ensures workers { OnOk result (length self.old ≡ WORKERS) }
    {
        let worker = worker as usize;
        table.reserve(items.len())?;
        self.spelling.clear();
        self.spelling.reserve(LONGEST_SPELLED as usize)?;
        make_room(
            &mut self.workers,
            worker,
            items.as_slice(),
            &mut self.sealed,
        )?;
        let side = &mut self.workers[worker];
        let tally = replay_all(items, table, side, &mut self.spelling);
        self.bytes += tally.bytes;
        Ok(tally.items)
    }

    /// Hands out the segments that spell all items, those of the first worker first, and leaves no items. The items are
    /// lawful. The numbers that the segments were made with say nothing. It takes no memory, and a step for each segment.
    pub fn seal(&mut self) -> Vec<Segment>
        ensures bytes { bytes_in result.items ≡ map spelled_items (sealed_sides self.old) }
        ensures lawful { All (All IsLawfulHeld) self.old }
        ensures empty { self.new ≡ [] ∷ [] ∷ [] ∷ [] ∷ [] }
    {
        let alloc = *self.sealed.allocator();
        seal_all(&mut self.workers, &mut self.sealed);
        self.bytes = 0;
        mem::replace(&mut self.sealed, Vec::new(alloc))
    }

    /// Forgets all items. A step for each segment.
    pub fn clear(&mut self)
        ensures { self.new ≡ [] ∷ [] ∷ [] ∷ [] ∷ [] }
    {
        let _ = self.seal();
    }
}

// Makes the segments that a worker lacks for these items, and room to hand out all segments.
fn make_room(
    sides: &mut [SideLog],
    worker: usize,
    items: &[Held],
    sealed: &mut Vec<Segment>,
) -> Result<(), NoMemory>
    requires worker { worker < length sides.old }
    requires none_sealed { sealed.old.items ≡ [] }
    requires made { made_in sides.old ≤ vec_capacity sealed.old }
    ensures ok { OnOk result (HoldsAt (HasSegmentsFor items.now) sides.new worker) }
    ensures items { items_of_each sides.new ≡ items_of_each sides.old }
    ensures none_sealed { sealed.new.items ≡ [] }
    ensures made { made_in sides.new ≤ vec_capacity sealed.new }
{
    let lacking = sides[worker].lacking(items);
    let wanted = count_made(sides).checked_add(lacking).ok_or(NoMemory)?;
    sealed.reserve(wanted)?;
    sides[worker].make(lacking)
}

// How many segments are made for all workers.
fn count_made(sides: &[SideLog]) -> usize
    requires { made_in sides.now < 2 ^ 64 }
    ensures { result ≡ made_in sides.now }
{
    let mut count = 0;
    for side in sides {
        count += side.made();
    }
    count
}

// Moves the segments of all workers to the end of these, which have room for them, and leaves none.
fn seal_all(sides: &mut [SideLog], sealed: &mut Vec<Segment>)
    requires { vec_len sealed.old + made_in sides.old ≤ vec_capacity sealed.old }
    ensures bytes { bytes_in sealed.new.items
        ≡ bytes_in sealed.old.items ++ map spelled_items (sealed_sides (items_of_each sides.old)) }
    ensures lawful { All (λ side. All IsLawfulHeld side.items) sides.old }
    ensures empty { sides.new ≡ replicate (length sides.old) no_side }
{
    for side in sides.iter_mut() {
        side.seal_into(sealed);
    }
}
