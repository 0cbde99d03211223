ghost use Rattle.std.specs.Prelude.{◌≡◌, ◌==◌, IfOk, OnErr, filter, map as map_list, not};
ghost use Rattle.std.specs.Bool.{OnTrue, OnFalse};
ghost use Rattle.std.specs.Option.{option_map};
ghost use Rattle.rk_world.specs.Gather as gathers;
ghost use Rattle.rk_world.specs.Merge as merging;
ghost use Rattle.rk_rebuild.specs.Counted.{IsCounted};
ghost use Rattle.rk_rebuild.specs.Lent.{lent};

use crate::member::{ReadLog, Reader, next_of};
use crate::merging::{Counted, counted_by, counted_of_all, is_of_lineage, lent_again};
use crate::reading::read;
use rk_entry::Entry;
use rk_types::{Listed, Member, NoMemory, Range};
use rk_world::{Merged, Reading};
use std::alloc::Global;
use std::marker::Model;

/// What a rebuild of a range gathers from the logs of a lineage. Contracts see what was read of each member but the
/// rebuilding master itself, segment by segment.
#[derive(Drop)]
pub struct Gather {
    range: Range,
    own: u8,
    lineage: Vec<Member>,
    logs: Vec<ReadLog>,
    readers: Vec<Reader>,
}

impl Model for Gather {
    ghost use Rattle.rk_world.specs.Gather as gathers;

    ghost Value = { gathers.Gather };

    ghost use Rattle.rk_rebuild.specs.Gathering.{gather_of, IsKept};

    ghost view = { gather_of };

    ghost invariant = { IsKept };
}

impl Gather {
    /// Nothing is gathered so far for this range, from the logs of this lineage, by the master `own`. A step for each
    /// member.
    pub fn new(
        alloc: Global,
        range: Range,
        lineage: Vec<Member>,
        own: u8,
    ) -> Result<Gather, NoMemory>
        ensures { IfOk result (λ gather. gather ≡ gathers.gather_begun range lineage.items own) }
    {
        Ok(Gather {
            range,
            own,
            readers: readers_of(alloc, lineage.as_slice(), own)?,
            logs: Vec::new(alloc),
            lineage,
        })
    }

    /// What is read next; none if all is gathered. A look at each member, and a search for a side segment.
    pub fn next(&self) -> Option<Reading>
        ensures { result ≡ gathers.next_reading self.now }
    {
        next_of(self.logs.as_slice(), self.readers.as_slice())
    }

    /// Takes what was read of a segment of a master, none if it was never written. False if it is not the segment that is
    /// read next: then nothing changes. After `NoMemory` nothing has changed; it comes too for the main segment of number
    /// 2^31. What [`Gather::next`] takes, and a step for each entry of the segment, or for each entry of the log if its
    /// main segments are passed by this.
    pub fn take(&mut self, master: u8, segment: u32, bytes: Option<&[u8]>) -> Result<bool, NoMemory>
        ensures awaited { IfOk result (λ taken. taken ≡ gathers.is_awaited (gathers.next_reading self.old) master segment) }
        ensures taken { IfOk result (λ taken. OnTrue taken
            (self.new ≡ gathers.gathering self.old master segment (option_map (λ b. b.now) bytes.entry))) }
        ensures refused { IfOk result (λ taken. OnFalse taken (self.new ≡ self.old)) }
        ensures err { OnErr result (self.new ≡ self.old) }
    {
        if !is_awaited(self.next(), master, segment) {
            return Ok(false);
        }
        let alloc = *self.lineage.allocator();
        read(
            alloc,
            &self.range,
            &mut self.logs,
            &mut self.readers,
            master,
            segment,
            bytes,
        )?;
        Ok(true)
    }

    /// What was gathered and counts, lent, member by member in the order of the lineage. It may come at any time, and is
    /// of all logs once [`Gather::next`] returns none. A step for each entry that was read.
    pub fn counted(&self) -> Result<Vec<&Entry>, NoMemory>
        ensures { IfOk result (λ entries. lent entries.items ≡ gathers.counted self.now) }
    {
        counted_of_all(
            *self.lineage.allocator(),
            &self.range,
            self.logs.as_slice(),
            self.readers.as_slice(),
        )
    }

    /// What a rebuild makes of the rebuilding master's own entries that count, and of what was gathered: copies of the
    /// newest items that the own entries lack, a floor, and the last end of each client. It may come at any time, and is
    /// of all logs once [`Gather::next`] returns none. `NoMemory` comes too if no number of 64 bits is above a version
    /// that counts.
    ///
    /// A search for each entry that was read and for each own one, a sort of the newest item of each key, and a step for
    /// each end that is recorded; of the entries the copies alone are duplicated.
    pub fn merge(&self, own: &[&Entry]) -> Result<Merged, NoMemory>
        ensures { IfOk result (λ merged. merged ≡ merging.merge (lent own.now) (gathers.by_member self.now (lent own.now))) }
    {
        let alloc = *self.lineage.allocator();
        let counted = self.by_member(own)?;
        counted.merge(alloc, own)
    }

    // What counts of each member, in the order of the lineage; the own entries of a master outside it come last.
    fn by_member<'a>(&'a self, own: &[&'a Entry]) -> Result<Counted<'a>, NoMemory>
        ensures { IfOk result (λ counted. IsCounted counted (gathers.by_member self.now (lent own.now))) }
    {
        let alloc = *self.lineage.allocator();
        let lineage = self.lineage.as_slice();
        let mut counted = counted_members(alloc, self, lineage, own)?;
        if !is_of_lineage(lineage, self.own) {
            counted.add(alloc, own)?;
        }
        Ok(counted)
    }

    // What counts of one member: of the rebuilding master its own entries, and of another one what was read.
    fn material_by<'a>(
        &'a self,
        alloc: Global,
        own: &[&'a Entry],
        master: u8,
    ) -> Result<Vec<&'a Entry>, NoMemory>
        ensures { IfOk result (λ entries. lent entries.items ≡ gathers.material_by self.now (lent own.now) master) }
    {
        if master == self.own {
            return lent_again(alloc, own);
        }
        counted_by(
            alloc,
            &self.range,
            self.logs.as_slice(),
            self.readers.as_slice(),
            master,
        )
    }
}

// What counts of each of these members.
fn counted_members<'a>(
    alloc: Global,
    gather: &'a Gather,
    lineage: &[Member],
    own: &[&'a Entry],
) -> Result<Counted<'a>, NoMemory>
    ensures { IfOk result (λ counted. IsCounted counted
        (map_list (λ member. gathers.material_by gather.now (lent own.now) member.master) lineage.now)) }
{
    let mut counted = Counted::new(alloc);
    for member in lineage {
        let entries = gather.material_by(alloc, own, member.master)?;
        counted.add(alloc, entries.as_slice())?;
    }
    Ok(counted)
}

// Whether the segment of a master is read next.
fn is_awaited(next: Option<Reading>, master: u8, segment: u32) -> bool
    ensures { result ≡ gathers.is_awaited next master segment }
{
    match next {
        Some(reading) => reading.master == master && reading.segment == segment,
        None => false,
    }
}

// A reader for each member of a lineage but the rebuilding master itself.
fn readers_of(alloc: Global, lineage: &[Member], own: u8) -> Result<Vec<Reader>, NoMemory>
    ensures { IfOk result (λ readers. map_list (λ reader. reader.member) readers.items
        ≡ filter (λ member. not (member.master == own)) lineage.now) }
{
    let mut readers = Vec::new(alloc);
    for member in lineage {
        if member.master != own {
            readers.push(Reader {
                member: *member,
                named: Listed::new(alloc),
                done: 0,
            })?;
        }
    }
    Ok(readers)
}
