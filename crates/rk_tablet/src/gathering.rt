// What a tablet gathers for a rebuild, and what it becomes when the rebuild closes.
ghost use Rattle.std.specs.Prelude.{◌≡◌, true, Some, IfOk, OnOk, [], ◌&&◌, ◌==◌};
ghost use Rattle.std.specs.Bool.{OnTrue, OnFalse};
ghost use Rattle.std.specs.Option.{option_map};
ghost use Rattle.rk_done.specs.Completions.{completions_from, ends_of};
ghost use Rattle.rk_entry.specs.declared.entry.Entry.TheVariants as entries;
ghost use Rattle.rk_rebuild.specs.Lent.{lent};
ghost use Rattle.rk_transfer.specs.Handover.{carried};
ghost use Rattle.rk_world.specs.Gather as gathers;
ghost use Rattle.rk_world.specs.Rebuilds.{with_gathered};
ghost use Rattle.rk_world.specs.RoleTests.{is_gathering as is_gathering_lem};
ghost use Rattle.rk_tablet.specs.Tablets.{tablet_of};
ghost use Rattle.rk_tablet.specs.Rebuilding.{gathered_from as gathered_from_lem, is_awaiting, merged_with, with_gather};

use crate::tablet_lane::TabletLane;
use rk_done::Completions;
use rk_entry::{Carried, Entry};
use rk_message::CopySegment;
use rk_rebuild::Gather;
use rk_transfer::Role;
use rk_types::{Ended, Listed, NoMemory, Range};
use rk_world::Merged;
use std::alloc::Global;

// The range of a tablet that gathers nothing.
const NO_RANGE: Range = Range {
    table: 0,
    first: 0,
    last: 0,
};

impl TabletLane {
    /// The place from which the own log counts, if the tablet is rebuilt and has gathered all.
    pub fn gathered_from(&self) -> Option<u64>
        ensures { result ≡ gathered_from_lem self.now.handover.role (gathers.next_reading (tablet_of self.now).gather) }
    {
        let Role::Rebuilding { from, entry: None } = self.handover.role else {
            return None;
        };
        if self.next_reading().is_some() {
            return None;
        }
        Some(from)
    }

    /// Takes the copy of a segment if the tablet awaits just that: whether it does. After `NoMemory` nothing has
    /// changed. A look at each member of the lineage, and a step for each entry of the segment, or of the log that it ends.
    pub fn gather_segment(&mut self, copy: &CopySegment) -> Result<bool, NoMemory>
        ensures awaited { IfOk result (λ awaited. awaited ≡ is_awaiting (tablet_of self.old) copy.now) }
        ensures gathered { IfOk result (λ awaited. OnTrue awaited (tablet_of self.new ≡ with_gathered (tablet_of self.old) copy.now)) }
        ensures ignored { IfOk result (λ awaited. OnFalse awaited (tablet_of self.new ≡ tablet_of self.old)) }
        ensures handover { self.new.handover ≡ self.old.handover }
        ensures sealed { self.new.sealed ≡ self.old.sealed }
    {
        if !self.is_gathering_at(copy.tenure.term) {
            return Ok(false);
        }
        let Some(gather) = &mut self.gather else {
            return Ok(false);
        };
        gather.take(copy.master, copy.segment, bytes_in(copy))
    }

    // Whether the tablet gathers at this term.
    fn is_gathering_at(&self, term: u64) -> bool
        ensures { result ≡ (is_gathering_lem self.now.handover.role && self.now.handover.term == term) }
    {
        self.handover.term == term
            && matches!(self.handover.role, Role::Rebuilding { entry: None, .. })
    }

    /// What a rebuild makes of what was gathered, and of these own entries that count.
    pub fn merge(&self, alloc: Global, own: &[&Entry]) -> Result<Merged, NoMemory>
        ensures { IfOk result (λ merged. merged ≡ merged_with (tablet_of self.now) (lent own.now)) }
    {
        let Some(gather) = &self.gather else {
            let nothing = Gather::new(alloc, NO_RANGE, Vec::new(alloc), 0)?;
            return nothing.merge(own);
        };
        gather.merge(own)
    }

    /// Begins to gather: what was pulled and is not sealed, and what was merged, is dropped.
    pub fn begin_gather(&mut self, gather: Gather)
        ensures { tablet_of self.new ≡ with_gather (tablet_of self.old) gather }
    {
        self.pull_from(self.source);
        self.gather = Some(gather);
    }

    /// A rebuild closes with these ends, at this place of the log: the entry that closes it.
    pub fn close_rebuild(
        &mut self,
        alloc: Global,
        place: u64,
        floor: u64,
        ends: Listed<Ended>,
    ) -> Result<Entry, NoMemory>
        requires { is_gathering_lem self.old.handover.role ≡ true }
        ensures moved { carried self.old.handover self.old.handover.term place floor ≡ Some self.new.handover }
        ensures tablet { OnOk result (tablet_of self.new ≡ (record (tablet_of self.old) {
          handover = self.new.handover;
          completions = completions_from [] ends;
          merged_ends = ends;
        })) }
        ensures entry { IfOk result (λ entry. entry ≡ entries.Carried (record {
          range = self.old.handover.range;
          term = self.old.handover.term;
          floor = floor;
          ends = ends_of (completions_from [] ends);
        })) }
    {
        let term = self.handover.term;
        let _ = self.handover.carry(term, place, floor);
        self.completions = completions_of(alloc, ends.as_slice())?;
        self.merged_ends = ends;
        Ok(Entry::Carried(Carried {
            range: self.handover.range,
            term,
            floor,
            ends: Listed::from_vec(self.completions.ends()?),
        }))
    }
}

// The bytes of a copy; none if the segment was never written.
fn bytes_in(copy: &CopySegment) -> Option<&[u8]>
    ensures { option_map (λ bytes. bytes.now) result ≡ copy.now.bytes }
{
    match &copy.bytes {
        Some(bytes) => Some(bytes.as_slice()),
        None => None,
    }
}

/// The completions after these ends. A search for each of them, and for the first of a client what an insertion takes.
pub fn completions_of(alloc: Global, ends: &[Ended]) -> Result<Completions, NoMemory>
    ensures { IfOk result (λ it. it.completions ≡ completions_from [] ends.now) }
{
    let mut completions = Completions::new(alloc);
    completions.reserve(ends.len())?;
    for end in ends {
        completions.note(*end);
    }
    Ok(completions)
}
