// What the commands that print show of a cluster.
ghost use Rattle.std.specs.Prelude.{◌≡◌, ◌≢◌, ◌≤◌, ◌++◌, ◌^◌, ◌-◌, false, true, length, map, min, None, IfErr, IfOk, OnOk};
ghost use Rattle.rk_history.specs.Journals.{AreRising, journals_of as journals_behind};
ghost use Rattle.rk_tablet_map.specs.Rows.{row_of};
ghost use Rattle.rk_world.specs.Cluster.{journals_of as journals_of_lem};
ghost use Rattle.rk_cluster.specs.Looks.{owner_in};
ghost use Rattle.rk_cluster.specs.Told.{LaneTells, LanesTell, Tells};
ghost use Rattle.rk_cluster.specs.declared.code.Code.TheVariants.{NotOwned as not_owned};
ghost use Rattle.rk_play.specs.Came.{Ran, Stopped, WhereRefused};
ghost use Rattle.rk_play.specs.Effects.{is_full as is_full_lem, journal_bytes as journal_bytes_lem, shown, wire_bytes as wire_bytes_lem};
ghost use Rattle.rk_play.specs.Faults.{IsOfReplicas};
ghost use Rattle.rk_play.specs.Shows as shows;

use crate::error::PlayError;
use rk_cluster::{Cluster, Code};
use rk_history::merge;
use rk_lane::Lane;
use rk_lines::{push_history, push_records, push_tablet};
use rk_outside::Replica;
use rk_settle::{is_tablet, row_at};
use rk_tablet_map::Phase;
use rk_types::{Held, NoMemory, Placed};
use std::alloc::Global;

/// So many bytes of values in the journals, or of frames on the wires, are too many for another command.
const MOST_BYTES: u64 = 134_217_728;

/// Whether the journals or the wires of a cluster have too many bytes for another command. A step for each lane.
pub(crate) fn is_full<R: Replica + Drop>(cluster: &Cluster<R>) -> bool
    ensures { Tells R.segments cluster.now is_full_lem result }
{
    let lanes = cluster.lanes();
    journal_bytes(lanes) >= MOST_BYTES || wire_bytes(lanes) >= MOST_BYTES
}

// The bytes of the values in the journals of lanes; 2^64 - 1 if they are more. A step for each lane.
fn journal_bytes<R: Replica + Drop>(lanes: &[Lane<R>]) -> u64
    ensures { LanesTell R.segments lanes.now (λ c. min (journal_bytes_lem c) (2 ^ 64 - 1)) result }
{
    let mut bytes: u64 = 0;
    for lane in lanes {
        bytes = bytes.saturating_add(lane.value_bytes());
    }
    bytes
}

// The bytes of the frames on the wires of lanes; 2^64 - 1 if they are more. A step for each lane.
fn wire_bytes<R: Replica + Drop>(lanes: &[Lane<R>]) -> u64
    ensures { LanesTell R.segments lanes.now (λ c. min (wire_bytes_lem c) (2 ^ 64 - 1)) result }
{
    let mut bytes: u64 = 0;
    for lane in lanes {
        bytes = bytes.saturating_add(lane.wire().bytes());
    }
    bytes
}

/// Shows where a tablet is: adds its lines to a text. A step for each row of each lane.
pub(crate) fn show_tablet<R: Replica + Drop>(
    alloc: Global,
    cluster: &Cluster<R>,
    tablet: u32,
    text: &mut Vec<u8>,
) -> Result<(), PlayError>
    ensures ok { OnOk result (Ran R.segments R.faults cluster.now cluster.now (λ c fates. shown c (shows.where_code c tablet) (shows.where_text c tablet)) text.old.items text.new.items) }
    ensures err { IfErr result (Stopped R.segments R.faults cluster.now cluster.now (λ c fates. shown c (shows.where_code c tablet) (shows.where_text c tablet))) }
    ensures kept { IfErr result (λ e. e ≢ PlayError.NoMemory → text.new.items ≡ text.old.items) }
    ensures cause { IfErr result (λ e. IsOfReplicas e → ⊥) }
{
    if !is_tablet(cluster, tablet) {
        return Err(PlayError::Refused(Code::Unknown));
    }
    let phases = phases_of(alloc, cluster.lanes(), tablet)?;
    push_tablet(text, tablet, phases.as_slice())?;
    Ok(())
}

// The phases of a tablet, lane 0 first; lent. A step for each row of each lane.
fn phases_of<R: Replica + Drop>(
    alloc: Global,
    lanes: &[Lane<R>],
    tablet: u32,
) -> Result<Vec<&Phase>, NoMemory>
    ensures { IfOk result (λ phases. LanesTell R.segments lanes.now (λ c. shows.phases_of c tablet) (map (λ phase. phase.now) phases.items)) }
{
    let mut phases = Vec::new(alloc);
    for lane in lanes {
        if let Some(row) = row_at(lane, tablet) {
            phases.push(&row.phase)?;
        }
    }
    Ok(phases)
}

/// Shows the records of a tablet that in each lane a living master owns: adds their lines to a text, by key. A step for each row of each
/// lane and each record of the owners, and a sort; each record of the tablet is copied once.
pub(crate) fn show_records<R: Replica + Drop>(
    alloc: Global,
    cluster: &Cluster<R>,
    tablet: u32,
    text: &mut Vec<u8>,
) -> Result<(), PlayError>
    ensures ok { OnOk result (Ran R.segments R.faults cluster.now cluster.now (λ c fates. shown c (shows.dump_code c tablet) (shows.dump_text c tablet)) text.old.items text.new.items) }
    ensures err { IfErr result (Stopped R.segments R.faults cluster.now cluster.now (λ c fates. shown c (shows.dump_code c tablet) (shows.dump_text c tablet))) }
    ensures kept { IfErr result (λ e. e ≢ PlayError.NoMemory → text.new.items ≡ text.old.items) }
    ensures cause { IfErr result (λ e. IsOfReplicas e → ⊥) }
{
    if !is_tablet(cluster, tablet) {
        return Err(PlayError::Refused(Code::Unknown));
    }
    let items = records_of(alloc, cluster.lanes(), tablet)?;
    push_records(text, items)?;
    Ok(())
}

// The records of a tablet, lane 0 first. `Refused` comes, with `NotOwned`, if in some lane no living master owns it.
fn records_of<R: Replica + Drop>(
    alloc: Global,
    lanes: &[Lane<R>],
    tablet: u32,
) -> Result<Vec<Held>, PlayError>
    ensures items { IfOk result (λ items. LanesTell R.segments lanes.now (λ c. shows.items_in c tablet) items.items) }
    ensures owned { IfOk result (λ items. LanesTell R.segments lanes.now (λ c. shows.is_held c tablet) true) }
    ensures err { IfErr result (WhereRefused (λ code. (code ≡ not_owned) × LanesTell R.segments lanes.now (λ c. shows.is_held c tablet) false)) }
{
    let mut items = Vec::new(alloc);
    for lane in lanes {
        add_records(lane, tablet, &mut items)?;
    }
    Ok(items)
}

// Adds the records of a tablet in a lane to others, if a master that lives owns it; `Refused` comes, with `NotOwned`, if none does.
fn add_records<R: Replica + Drop>(
    lane: &Lane<R>,
    tablet: u32,
    into: &mut Vec<Held>,
) -> Result<(), PlayError>
    ensures items { OnOk result (LaneTells R.segments lane.now (λ w. into.old.items ++ shows.items_of w (row_of w.coordinator.rows tablet)) into.new.items) }
    ensures owned { OnOk result (LaneTells R.segments lane.now (λ w. shows.lives_owner w (owner_in w tablet)) true) }
    ensures err { IfErr result (WhereRefused (λ code. (code ≡ not_owned) × LaneTells R.segments lane.now (λ w. shows.lives_owner w (owner_in w tablet)) false)) }
{
    let Some(row) = row_at(lane, tablet) else {
        return Err(PlayError::Refused(Code::NotOwned));
    };
    let Phase::Owned { master, .. } = row.phase else {
        return Err(PlayError::Refused(Code::NotOwned));
    };
    if lane.crashed(master) {
        return Err(PlayError::Refused(Code::NotOwned));
    }
    lane.master(master).live_items(&row.range, into)?;
    Ok(())
}

/// Shows the history that the journals of all lanes make: adds its lines to a text. Each record is copied once.
pub(crate) fn show_history<R: Replica + Drop>(
    alloc: Global,
    cluster: &Cluster<R>,
    text: &mut Vec<u8>,
) -> Result<(), PlayError>
    ensures ok { OnOk result (Ran R.segments R.faults cluster.now cluster.now (λ c fates. shown c None (shows.history_text c)) text.old.items text.new.items) }
    ensures err { IfErr result (Stopped R.segments R.faults cluster.now cluster.now (λ c fates. shown c None (shows.history_text c))) }
    ensures kept { IfErr result (λ e. e ≢ PlayError.NoMemory → text.new.items ≡ text.old.items) }
    ensures cause { IfErr result (λ e. IsOfReplicas e → ⊥) }
{
    // By the contract of `masters` a cluster has eight lanes.
    let _masters = cluster.masters();
    let journals = journals_of(alloc, cluster.lanes())?;
    let history = merge(alloc, journals.as_slice())?;
    push_history(text, history.as_slice())?;
    Ok(())
}

// The journals of lanes, lane 0 first; lent.
fn journals_of<R: Replica + Drop>(
    alloc: Global,
    lanes: &[Lane<R>],
) -> Result<Vec<&[Placed]>, NoMemory>
    ensures journals { IfOk result (λ journals. LanesTell R.segments lanes.now journals_of_lem (journals_behind journals.items)) }
    ensures count { IfOk result (λ journals. length journals.items ≡ length lanes.now) }
    ensures rising { IfOk result (λ journals. AreRising (journals_behind journals.items)) }
{
    let mut journals = Vec::new(alloc);
    for lane in lanes {
        journals.push(lane.journal())?;
    }
    Ok(journals)
}
