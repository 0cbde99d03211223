// How a coordinator notices that a master has crashed.
ghost use Rattle.std.specs.Prelude.{◌≡◌, ◌<◌, ◌^◌, Some, not, map, OnOk, OnErr, IfOk};
ghost use Rattle.std.specs.List.{find};
ghost use Rattle.std.specs.Option.{option_map};
ghost use Rattle.rk_tablet_map.specs.Phase.{lineage_of as lineage_of_lem, member as member_lem};
ghost use Rattle.rk_tablet_map.specs.Rows.{IsTabletMap};
ghost use Rattle.rk_world.specs.Coordinator.{is_noticed, lowest_left as lowest_left_lem};
ghost use Rattle.rk_world.specs.Notices.{notice_one, next_rebuilder as next_rebuilder_lem, phase_noticed as phase_noticed_lem};
ghost use Rattle.rk_coordinator.specs.Lane.{MayRise, marked};
ghost use Rattle.rk_coordinator.specs.Changes.{change_of as change_of_lem, changes_of as changes_of_lem, rows_after};

use crate::coordinator_lane::CoordinatorLane;
use crate::coordinator_lane::duties::push_some;
use rk_tablet_map::{Phase, Row, TabletMap};
use rk_types::{Listed, Member, NoMemory};
use std::alloc::Global;

/// What becomes of a row: its term and its phase then.
#[derive(Drop)]
pub(crate) struct Change {
    pub tablet: u32,
    pub term: u64,
    pub phase: Phase,
}

impl CoordinatorLane {
    /// Notices that a master has crashed: each tablet that it owns, gives, takes or rebuilds is to be rebuilt by a master
    /// that is left, at the next term. Whether it was noticed before is not tested. After `NoMemory` nothing has changed. A
    /// step for each row and, for each row that changes, another one for each row; lineages are copied.
    pub fn notice(&mut self, master: u8) -> Result<(), NoMemory>
        requires { MayRise self.old }
        ensures ok { OnOk result (self.new ≡ notice_one self.old master) }
        ensures err { OnErr result (self.new ≡ self.old) }
    {
        let changes = changes_of(self, master)?;
        self.noticed.push(master)?;
        change_rows(&mut self.map, changes);
        Ok(())
    }
}

// The rows change.
fn change_rows(map: &mut TabletMap, changes: Vec<Change>)
    ensures { map.new ≡ rows_after map.old changes.items }
{
    for change in changes {
        map.change(change.tablet, change.term, change.phase);
    }
}

// Which rows change once one more master is noticed dead, and how.
fn changes_of(lane: &CoordinatorLane, dead: u8) -> Result<Vec<Change>, NoMemory>
    requires { MayRise lane.now }
    ensures changes { IfOk result (λ changes. changes.items ≡ changes_of_lem (marked lane.now dead) dead lane.now.rows) }
    ensures lawful { IsTabletMap lane.now.rows }
{
    let mut changes = Vec::new(lane.alloc());
    for row in lane.map.rows() {
        push_some(&mut changes, change_of(lane, dead, row)?)?;
    }
    Ok(changes)
}

// How a row changes once one more master is noticed dead, if it does.
fn change_of(lane: &CoordinatorLane, dead: u8, row: &Row) -> Result<Option<Change>, NoMemory>
    requires { row.now.term < 2 ^ 63 }
    ensures { IfOk result (λ change. change ≡ change_of_lem row.now (phase_noticed_lem (marked lane.now dead) dead row.now.phase)) }
{
    let Some(phase) = phase_noticed(lane, dead, &row.phase)? else {
        return Ok(None);
    };
    Ok(Some(Change {
        tablet: row.tablet,
        term: row.term + 1,
        phase,
    }))
}

// The phase of a row once one more master is noticed dead, if that changes it.
fn phase_noticed(lane: &CoordinatorLane, dead: u8, phase: &Phase) -> Result<Option<Phase>, NoMemory>
    ensures { IfOk result (λ changed. changed ≡ phase_noticed_lem (marked lane.now dead) dead phase.now) }
{
    let Some(to) = rebuilder(lane, dead, phase) else {
        return Ok(None);
    };
    let lineage = lineage_of(lane.alloc(), phase)?;
    Ok(Some(Phase::Rebuilding { lineage, to }))
}

// The master that is to rebuild a tablet once one more master is noticed dead, if that changes its phase.
fn rebuilder(lane: &CoordinatorLane, dead: u8, phase: &Phase) -> Option<u8>
    ensures { phase_noticed_lem (marked lane.now dead) dead phase.now ≡ option_map (Phase.Rebuilding (lineage_of_lem phase.now)) result }
{
    match phase {
        Phase::Owned { master, .. } if *master == dead => Some(lowest_left(lane, dead)),
        Phase::Opening { source, .. } if *source == dead => Some(lowest_left(lane, dead)),
        Phase::Opening { source, target, .. } if *target == dead => Some(*source),
        Phase::Moving { source, target, .. } if *source == dead => Some(*target),
        Phase::Moving { source, target, .. } if *target == dead => Some(*source),
        Phase::Rebuilding { lineage, to } if *to == dead => {
            Some(next_rebuilder(lane, dead, lineage.as_slice()))
        }
        _ => None,
    }
}

// The masters whose logs have a tablet, the oldest first.
fn lineage_of(alloc: Global, phase: &Phase) -> Result<Listed<Member>, NoMemory>
    ensures { IfOk result (λ lineage. lineage ≡ lineage_of_lem phase.now) }
{
    match phase {
        Phase::Owned { master, from } => listed(alloc, &[member(*master, *from)]),
        Phase::Opening { source, sfrom, .. } => listed(alloc, &[member(*source, *sfrom)]),
        Phase::Moving {
            source,
            sfrom,
            target,
            dfrom,
        } => { listed(alloc, &[member(*source, *sfrom), member(*target, *dfrom)]) }
        Phase::Rebuilding { lineage, .. } => lineage.duplicate(),
    }
}

// These masters as a list.
fn listed(alloc: Global, members: &[Member]) -> Result<Listed<Member>, NoMemory>
    ensures { IfOk result (λ listed. listed ≡ members.now) }
{
    Ok(Listed::from_vec(Vec::from_slice(alloc, members)?))
}

// A master of a lineage, with its place.
fn member(master: u8, from: u64) -> Member
    ensures { result ≡ member_lem master from }
{
    Member { master, from }
}

// The first master of a lineage that was not noticed dead once one more is, and else the lowest one left.
fn next_rebuilder(lane: &CoordinatorLane, dead: u8, lineage: &[Member]) -> u8
    ensures { result ≡ next_rebuilder_lem (marked lane.now dead) lineage.now }
{
    match first_left(lane, dead, lineage) {
        Some(master) => master,
        None => lowest_left(lane, dead),
    }
}

// The first master of a lineage that was not noticed dead once one more is.
fn first_left(lane: &CoordinatorLane, dead: u8, lineage: &[Member]) -> Option<u8>
    ensures { result ≡ find (λ master. not (is_noticed (marked lane.now dead) master)) (map (λ member. member.master) lineage.now) }
{
    lineage
        .iter()
        .map(|member| member.master)
        .find(|master| !is_marked(lane, dead, *master))
}

// The lowest master that was not noticed dead once one more is, and 0 if none is left.
fn lowest_left(lane: &CoordinatorLane, dead: u8) -> u8
    ensures { result ≡ lowest_left_lem (marked lane.now dead) }
{
    for master in 1..=lane.masters {
        if !is_marked(lane, dead, master) {
            return master;
        }
    }
    0
}

// Whether a master was noticed dead once one more is.
fn is_marked(lane: &CoordinatorLane, dead: u8, master: u8) -> bool
    ensures { result ≡ is_noticed (marked lane.now dead) master }
{
    lane.noticed(master) || dead == master
}
