// What a master makes of an order to rebuild a tablet, and of the copies of segments that it gathers for that.
ghost use Rattle.std.specs.Prelude.{◌≡◌, ◌<◌, true, IfOk, OnOk};
ghost use Rattle.std.specs.Bool.{OnTrue, OnFalse};
ghost use Rattle.rk_world.specs.Lineage.{own_member as own_member_lem};
ghost use Rattle.rk_world.specs.Master.{tablet_at};
ghost use Rattle.rk_world.specs.Rebuilds as rebuilds;
ghost use Rattle.rk_world.specs.RoleTests.{is_gathering};
ghost use Rattle.rk_master.specs.Parts.{tablet_in, worked_of};
ghost use Rattle.rk_types.specs.Places.{IsAt};
ghost use Rattle.rk_tablet.specs.Rebuilding.{is_awaiting};
ghost use Rattle.rk_master.specs.Rebuilding.{CanBeSpelled};
ghost use Rattle.rk_master.specs.State.{IsState, master_of};

use crate::own_entries::merged;
use crate::staging::{append, append_items};
use crate::state::MasterState;
use crate::tablets::{begin_gather, give_up_others, hand, handover_of, is_above_all, search};
use crate::work::Worked;
use rk_message::{CopySegment, Rebuild};
use rk_rebuild::Gather;
use rk_table::RecordTable;
use rk_transfer::Handover;
use rk_types::{Member, NoMemory};
use rk_world::{Mark, Merged};

/// A master takes a Rebuild: it gives up each other tablet of the range, and gathers what the logs of the lineage have;
/// if no log but its own is of the lineage, it merges at once. `NoMemory` also if the log is full, or an entry has no
/// room in a segment. A few binary searches and two looks at each tablet; if it applies at a master outside the lineage,
/// one at each record, and a copy of the lineage; and what a merge takes, if it comes to that.
pub(crate) fn take_rebuild(state: &mut MasterState, rebuild: &Rebuild) -> Result<Worked, NoMemory>
    requires state { IsState state.old }
    requires lawful { CanBeSpelled (rebuilds.rebuild_taken (master_of state.old) rebuild.now).master }
    ensures state { OnOk result (IsState state.new) }
    ensures ok { IfOk result (λ work. worked_of (master_of state.new) work ≡ rebuilds.rebuild_taken (master_of state.old) rebuild.now) }
{
    let tenure = rebuild.tenure;
    let before = handover_of(state.tablets.as_slice(), tenure.tablet);
    if tenure.term <= before.term
        || !is_above_all(state.tablets.as_slice(), &rebuild.range, tenure.term)
    {
        return Ok(state.nothing());
    }
    begin(state, rebuild, before)?;
    go_on(state, tenure.tablet)
}

// A rebuild begins at a tablet that has this handover, by a greater term.
fn begin(state: &mut MasterState, rebuild: &Rebuild, before: Handover) -> Result<(), NoMemory>
    requires state { IsState state.old }
    requires before { before ≡ (tablet_in state.old.tablets.items rebuild.now.tenure.tablet).handover }
    requires greater { before.term < rebuild.now.tenure.term }
    ensures state { OnOk result (IsState state.new) }
    ensures ok { OnOk result (master_of state.new ≡ rebuilds.rebuild_begun (master_of state.old) rebuild.now) }
{
    let tablet = rebuild.tenure.tablet;
    let from = begin_from(state, rebuild);
    let mut handover = before;
    let _ = handover.rebuild(rebuild.tenure.term, rebuild.range, from);
    let alloc = *state.tablets.allocator();
    let lineage = rebuild.lineage.duplicate()?.into_vec();
    let gather = Gather::new(alloc, rebuild.range, lineage, state.number)?;
    give_up_others(state.tablets.as_mut_slice(), tablet, &rebuild.range);
    hand(&mut state.tablets, tablet, handover)?;
    begin_gather(state.tablets.as_mut_slice(), tablet, gather);
    Ok(())
}

// The place from which the log of the rebuilding master counts; one outside the lineage drops the items of the range.
fn begin_from(state: &mut MasterState, rebuild: &Rebuild) -> u64
    requires { IsState state.old }
    ensures state { IsState state.new }
    ensures from { result ≡ rebuilds.begun_from (master_of state.old) (own_member_lem rebuild.now.lineage state.old.number) }
    ensures tablets { state.new.tablets ≡ state.old.tablets }
    ensures number { state.new.number ≡ state.old.number }
    ensures ok { master_of state.new
        ≡ rebuilds.without_foreign (master_of state.old) rebuild.now.range (own_member_lem rebuild.now.lineage state.old.number) }
{
    if let Some(member) = own_member(rebuild.lineage.as_slice(), state.number) {
        return member.from;
    }
    state.records.drop_range(&rebuild.range);
    state.log.length()
}

// The place of a master in a lineage. A look at each member.
fn own_member(lineage: &[Member], master: u8) -> Option<Member>
    ensures { result ≡ own_member_lem lineage.now master }
{
    for member in lineage {
        if member.master == master {
            return Some(*member);
        }
    }
    None
}

/// A master takes the copy of a segment, if it awaits just that: the rebuild gathers it, and once all is gathered,
/// merges. `NoMemory` also if the log is full, or an entry has no room in a segment. A few binary searches, a look at
/// each member of the lineage, a step for each entry of the segment, or of the log that it ends; and what a merge takes,
/// if it comes to that.
pub(crate) fn take_copy(state: &mut MasterState, copy: &CopySegment) -> Result<Worked, NoMemory>
    requires state { IsState state.old }
    requires lawful { CanBeSpelled (rebuilds.copy_taken (master_of state.old) copy.now).master }
    ensures state { OnOk result (IsState state.new) }
    ensures ok { IfOk result (λ work. worked_of (master_of state.new) work ≡ rebuilds.copy_taken (master_of state.old) copy.now) }
{
    let awaited = gather(state, copy)?;
    if !awaited {
        return Ok(state.nothing());
    }
    go_on(state, copy.tenure.tablet)
}

// A rebuild gathers a segment: whether it awaited just that.
fn gather(state: &mut MasterState, copy: &CopySegment) -> Result<bool, NoMemory>
    requires { IsState state.old }
    ensures state { OnOk result (IsState state.new) }
    ensures awaited { IfOk result (λ awaited. awaited
        ≡ is_awaiting (tablet_at (master_of state.old) copy.now.tenure.tablet) copy.now) }
    ensures gathered { IfOk result (λ awaited. OnTrue awaited
        (master_of state.new ≡ rebuilds.segment_gathered (master_of state.old) copy.now)) }
    ensures ignored { IfOk result (λ awaited. OnFalse awaited (master_of state.new ≡ master_of state.old)) }
{
    let Ok(at) = search(state.tablets.as_slice(), copy.tenure.tablet) else {
        return Ok(false);
    };
    let tablet = &mut state.tablets[at].1;
    let awaited = tablet.gather_segment(copy)?;
    Ok(awaited)
}

// A rebuild goes on by what its tablet has gathered: it waits while a segment is left to read, and then merges. A
// binary search, a look at each member of the lineage; and if it merges, a step for each byte of the side segments
// that its own entries name, a search for each entry that counts, and the time to spell what is appended.
fn go_on(state: &mut MasterState, tablet: u32) -> Result<Worked, NoMemory>
    requires state { IsState state.old }
    requires lawful { CanBeSpelled (rebuilds.rebuild_goes_on (master_of state.old) tablet).master }
    ensures state { OnOk result (IsState state.new) }
    ensures ok { IfOk result (λ work. worked_of (master_of state.new) work ≡ rebuilds.rebuild_goes_on (master_of state.old) tablet) }
{
    let Ok(at) = search(state.tablets.as_slice(), tablet) else {
        return Ok(state.nothing());
    };
    let lane = &state.tablets[at].1;
    let Some(from) = lane.gathered_from() else {
        return Ok(state.nothing());
    };
    let alloc = *state.tablets.allocator();
    let merged = merged(alloc, &state.log, lane, from)?;
    close(state, at, tablet, merged)
}

// A rebuild closes with what was merged: the copies are put at the end of the log, and then the entry that closes it.
fn close(
    state: &mut MasterState,
    at: usize,
    tablet: u32,
    merged: Merged,
) -> Result<Worked, NoMemory>
    requires state { IsState state.old }
    requires place { IsAt tablet state.old.tablets.items at }
    requires gathering { is_gathering (tablet_in state.old.tablets.items tablet).handover.role ≡ true }
    requires lawful { CanBeSpelled (rebuilds.merged_at (master_of state.old) tablet (tablet_in state.old.tablets.items tablet) merged).master }
    ensures state { OnOk result (IsState state.new) }
    ensures ok { IfOk result (λ work. worked_of (master_of state.new) work
        ≡ rebuilds.merged_at (master_of state.old) tablet (tablet_in state.old.tablets.items tablet) merged) }
{
    let alloc = *state.tablets.allocator();
    let first = state.log.length();
    append_items(&mut state.log, &mut state.staged, merged.copies.into_vec())?;
    let place = state.log.length();
    let lane = &mut state.tablets[at].1;
    let term = lane.handover.term;
    let closing = lane.close_rebuild(alloc, place, merged.floor, merged.ends)?;
    append(&mut state.log, &mut state.staged, closing)?;
    let past = state.log.length();
    let mut work = state.nothing();
    work.marked = Some(Mark {
        master: state.number,
        first,
        past,
        tablet,
        term,
    });
    Ok(work)
}
