// What a drive came to.
ghost use Rattle.std.specs.Prelude.{◌≡◌, ◌-◌, ◌^◌, length, map, min, IfOk};
ghost use Rattle.std.specs.List.{list_all, sum_by};
ghost use Rattle.rk_history.specs.Journals.{AreRising, journals_of as journals_behind};
ghost use Rattle.rk_world.specs.Cluster.{Cluster as Whole};
ghost use Rattle.rk_cluster.specs.State.{IsOf};
ghost use Rattle.rk_cluster.specs.Steps.{state_of};
ghost use Rattle.rk_cluster.specs.Told.{LaneTells, LanesTell};
ghost use Rattle.rk_conclude.specs.Results.{is_owner, one_owner, owner_at, summary_of};

use crate::auditing::receipts_of;
use rk_lane::Lane;
use rk_outside::Replica;
use rk_session::Session;
use rk_settle::row_at;
use rk_tablet_map::Phase;
use rk_types::{NoMemory, Placed};
use rk_workload::{Summary, TABLET, count};
use std::alloc::Global;
use std::collections::BTreeMap;

/// What sessions and lanes that have come to rest came to.
pub(crate) fn results_of<R: Replica + Drop>(
    alloc: Global,
    lanes: &[Lane<R>],
    sessions: &BTreeMap<u32, Session>,
) -> Result<Summary, NoMemory>
    ensures { IfOk result (λ summary. (cluster : Whole) → IsOf R.segments (state_of lanes.now sessions.now.entries) cluster → summary ≡ summary_of cluster) }
{
    let receipts = receipts_of(alloc, sessions)?;
    Ok(Summary {
        calls: asked_of(lanes),
        answered: receipts.len() as u64,
        counts: count(receipts.as_slice()),
        owner: owner_of(lanes),
    })
}

/// The journals of lanes, lane 0 first; lent.
pub(crate) fn journals_of<R: Replica + Drop>(
    alloc: Global,
    lanes: &[Lane<R>],
) -> Result<Vec<&[Placed]>, NoMemory>
    ensures journals { IfOk result (λ journals. map (λ journal. journal.now) journals.items ≡ map (λ lane. lane.ledger.journal) lanes.now) }
    ensures rising { IfOk result (λ journals. AreRising (journals_behind journals.items)) }
{
    let mut journals = Vec::new(alloc);
    for lane in lanes {
        journals.push(lane.journal())?;
    }
    Ok(journals)
}

// How many calls lanes were asked; 2^64 - 1 if they are more.
fn asked_of<R: Replica + Drop>(lanes: &[Lane<R>]) -> u64
    ensures { result ≡ min (sum_by (λ lane. lane.ledger.asked) lanes.now) (2 ^ 64 - 1) }
{
    let mut asked: u64 = 0;
    for lane in lanes {
        asked = asked.saturating_add(lane.asked());
    }
    asked
}

// The master that owns the tablet in all lanes, if it is one.
fn owner_of<R: Replica + Drop>(lanes: &[Lane<R>]) -> Option<u8>
    ensures { LanesTell R.segments lanes.now (λ cluster. one_owner cluster.lanes) result }
{
    let master = owner_in(lanes.first()?)?;
    if are_owned(lanes, master) {
        Some(master)
    } else {
        None
    }
}

// Whether a master owns the tablet in each of these lanes.
fn are_owned<R: Replica + Drop>(lanes: &[Lane<R>], master: u8) -> bool
    ensures { LanesTell R.segments lanes.now (λ cluster. list_all (λ w. is_owner master (owner_at w)) cluster.lanes) result }
{
    for lane in lanes {
        if !is_owned(lane, master) {
            return false;
        }
    }
    true
}

// Whether a master owns the tablet in a lane.
fn is_owned<R: Replica + Drop>(lane: &Lane<R>, master: u8) -> bool
    ensures { LaneTells R.segments lane.now (λ w. is_owner master (owner_at w)) result }
{
    match owner_in(lane) {
        Some(owner) => owner == master,
        None => false,
    }
}

/// The master that owns the tablet of a drive in a lane, if one does; of a lane that is not spent. A search of the rows.
pub fn owner_in<R: Replica + Drop>(lane: &Lane<R>) -> Option<u8>
    ensures { LaneTells R.segments lane.now owner_at result }
{
    match row_at(lane, TABLET)?.phase {
        Phase::Owned { master, .. } => Some(master),
        _ => None,
    }
}
