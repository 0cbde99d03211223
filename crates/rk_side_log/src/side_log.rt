ghost use Rattle.std.specs.Prelude.{◌≡◌, ◌+◌, ◌-◌, ◌<◌, ◌≤◌, ◌^◌, ◌++◌, ◌∷◌, [], length, map, take, replicate, vec_len, vec_capacity, IfOk, OnOk};
ghost use Rattle.std.specs.List.{All};
ghost use Rattle.rk_types.specs.declared.held.Held.{Held as Item};
ghost use Rattle.rk_entry.specs.Lawful.{IsLawfulHeld};
ghost use Rattle.rk_entry.specs.Spelling.{spelled};
ghost use Rattle.rk_world.specs.SideLogs.{cut_items};
ghost use Rattle.rk_side_log.specs.Side.{begun, no_side, place_for as place_for_lem, room_in, segments_of, with_last};
ghost use Rattle.rk_side_log.specs.Spelled.{bytes_in, spelled_items};

use rk_entry::Entry;
use rk_segment::Segment;
use rk_types::{Held, NoMemory, SEGMENT_BYTES};
use std::alloc::Global;
use std::marker::Model;

// The number that a segment is made with. It gets another one when it becomes part of a log.
const NO_NUMBER: u32 = 0;

/// The side log of one worker. Contracts see its items, and how many segments are made for it.
#[derive(Drop)]
pub(crate) struct SideLog {
    // The first ones spell the items, and those behind them are empty.
    segments: Vec<Segment>,
    used: usize,
}

impl Model for SideLog {
    ghost use Rattle.std.specs.Prelude.{length};
    ghost use Rattle.rk_side_log.specs.Side.{Side, IsFilled};
    ghost use Rattle.rk_side_log.specs.Spelled.{bytes_in, items_read};

    ghost Value = { Side };

    ghost view = { λ log. record { items = items_read (bytes_in log.segments.items); made = length log.segments.items } };

    ghost invariant = { λ log. IsFilled (bytes_in log.segments.items) log.used (items_read (bytes_in log.segments.items)) };
}

impl SideLog {
    /// No items and no segments, which takes no memory.
    pub(crate) fn new(alloc: Global) -> SideLog
        ensures { result ≡ no_side }
    {
        SideLog {
            segments: Vec::new(alloc),
            used: 0,
        }
    }

    /// A side log of its own with the same items and as many segments, of each of which the memory is taken whole.
    pub(crate) fn duplicate(&self) -> Result<SideLog, NoMemory>
        ensures { IfOk result (λ log. log ≡ self.now) }
    {
        let alloc = *self.segments.allocator();
        Ok(SideLog {
            segments: duplicates(alloc, self.segments.as_slice())?,
            used: self.used,
        })
    }

    /// How many segments are made for it.
    pub(crate) fn made(&self) -> usize
        ensures { result ≡ self.now.made }
    {
        self.segments.len()
    }

    /// How many segments have to be made before these items may be put at its end. A step for each of them.
    pub(crate) fn lacking(&self, items: &[Held]) -> usize
        ensures { result ≡ segments_of (self.now.items ++ items.now) - self.now.made }
    {
        let more = begun_by(items, room_behind(self.segments.as_slice(), self.used));
        (self.used + more).saturating_sub(self.segments.len())
    }

    /// Makes so many more segments; after `NoMemory` some of them at most.
    pub(crate) fn make(&mut self, count: usize) -> Result<(), NoMemory>
        ensures items { self.new.items ≡ self.old.items }
        ensures ok { OnOk result (self.new.made ≡ self.old.made + count) }
        ensures least { self.old.made ≤ self.new.made }
        ensures most { self.new.made ≤ self.old.made + count }
    {
        make_segments(&mut self.segments, count)
    }

    /// Puts an item at the end, of which the bytes of its entry are passed. It takes no memory.
    pub(crate) fn put(&mut self, bytes: &[u8])
        ghost item: { Item }
        requires lawful { IsLawfulHeld item }
        requires bytes { bytes.now ≡ spelled (Entry.Held item) }
        requires room { segments_of (self.old.items ++ item ∷ []) ≤ self.old.made }
        ensures { self.new ≡ with_last self.old item }
    {
        let place = place_for(self.segments.as_slice(), self.used, bytes);
        self.segments[place].append(bytes).unwrap();
        self.used = place + 1;
    }

    /// Moves the segments that spell the items to the end of these, which have room for them, and leaves none. The items
    /// are lawful. It takes no memory.
    pub(crate) fn seal_into(&mut self, sealed: &mut Vec<Segment>)
        requires { vec_len sealed.old + self.old.made ≤ vec_capacity sealed.old }
        ensures bytes { bytes_in sealed.new.items ≡ bytes_in sealed.old.items ++ map spelled_items (cut_items self.old.items) }
        ensures lawful { All IsLawfulHeld self.old.items }
        ensures few { vec_len sealed.new ≤ vec_len sealed.old + self.old.made }
        ensures room { vec_capacity sealed.old ≤ vec_capacity sealed.new }
        ensures empty { self.new ≡ no_side }
    {
        self.segments.truncate(self.used);
        sealed.append(&mut self.segments).unwrap();
        self.used = 0;
    }
}

// Segments of their own with the same bytes and numbers.
fn duplicates(alloc: Global, segments: &[Segment]) -> Result<Vec<Segment>, NoMemory>
    ensures { IfOk result (λ duplicates. duplicates.items ≡ segments.now) }
{
    let mut duplicates = Vec::new(alloc);
    for segment in segments {
        duplicates.push(duplicate(alloc, segment)?)?;
    }
    Ok(duplicates)
}

// A segment of its own with the same bytes and number.
fn duplicate(alloc: Global, segment: &Segment) -> Result<Segment, NoMemory>
    ensures { IfOk result (λ duplicate. duplicate ≡ segment.now) }
{
    let mut duplicate = Segment::new(alloc, segment.number())?;
    duplicate.append(segment.bytes()).unwrap();
    Ok(duplicate)
}

// How many more bytes the last of the first so many segments takes, none if there is none.
fn room_behind(segments: &[Segment], used: usize) -> u32
    requires { used ≤ length segments.now }
    ensures { result ≡ room_in (take used (bytes_in segments.now)) }
{
    if used == 0 {
        return 0;
    }
    SEGMENT_BYTES - segments[used - 1].length()
}

// How many segments items begin, behind a segment that takes so many bytes more. A step for each item.
fn begun_by(items: &[Held], room: u32) -> usize
    ensures count { result ≡ begun room items.now }
    ensures few { result ≤ length items.now }
{
    let mut room = room;
    let mut count = 0;
    for item in items {
        let bytes = item.spelled();
        if bytes > room {
            count += 1;
            room = SEGMENT_BYTES;
        }
        room -= bytes;
    }
    count
}

// Makes so many more segments behind these; after `NoMemory` some of them at most.
fn make_segments(segments: &mut Vec<Segment>, count: usize) -> Result<(), NoMemory>
    ensures empty { bytes_in segments.new.items ≡ bytes_in segments.old.items ++ replicate (vec_len segments.new - vec_len segments.old) [] }
    ensures ok { OnOk result (vec_len segments.new ≡ vec_len segments.old + count) }
    ensures least { vec_len segments.old ≤ vec_len segments.new }
    ensures most { vec_len segments.new ≤ vec_len segments.old + count }
{
    let alloc = *segments.allocator();
    for _ in 0..count {
        segments.push(Segment::new(alloc, NO_NUMBER)?)?;
    }
    Ok(())
}

// The place of the segment that takes these bytes: the last used one if they fit, and else the first one
// behind it.
fn place_for(segments: &[Segment], used: usize, bytes: &[u8]) -> usize
    requires used { used ≤ length segments.now }
    requires few { length bytes.now < 2 ^ 32 }
    ensures { result ≡ place_for_lem (bytes_in segments.now) used bytes.now }
{
    if used == 0 {
        return 0;
    }
    let length = segments[used - 1].length() as usize + bytes.len();
    if length <= SEGMENT_BYTES as usize {
        used - 1
    } else {
        used
    }
}
