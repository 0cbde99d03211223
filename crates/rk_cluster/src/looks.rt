// What calls look at in the lanes of a cluster, and in its sessions.
ghost use Rattle.std.specs.Prelude.{◌≡◌, ◌≤◌, ◌<◌, ◌-◌, ◌^◌, true, All, length, map, min, sum, Some, IfOk};
ghost use Rattle.rk_world.specs.Premises.{IsMaster};
ghost use Rattle.rk_cluster.specs.Looks as looks;
ghost use Rattle.rk_cluster.specs.Steps.{AreLanes};
ghost use Rattle.rk_cluster.specs.Told.{LaneTells, LanesTell};

use rk_lane::Lane;
use rk_outside::Replica;
use rk_session::Session;
use rk_tablet_map::{Phase, Row, TabletMap};
use rk_types::{LANES, NoMemory};
use std::alloc::Global;
use std::collections::BTreeMap;

/// Whether a master is there.
pub(crate) fn is_master<R: Replica + Drop>(lanes: &[Lane<R>], masters: u8, master: u8) -> bool
    requires some { 1 ≤ length lanes.now }
    requires lanes { AreLanes masters 0 lanes.now }
    ensures told { LanesTell R.segments lanes.now (λ cluster. looks.is_master cluster master) result }
    ensures there { result ≡ true → IsMaster masters master }
{
    // By the contract of `spent`, the lane's coordinator counts its masters.
    let _spent = lanes[0].spent();
    1 <= master && master <= masters
}

/// Whether a master has crashed. A step for each master that has.
pub(crate) fn is_dead<R: Replica + Drop>(lanes: &[Lane<R>], master: u8) -> bool
    requires { 1 ≤ length lanes.now }
    ensures { LanesTell R.segments lanes.now (λ cluster. looks.is_dead cluster master) result }
{
    lanes[0].crashed(master)
}

/// The rows of all tablets.
pub(crate) fn rows_of<R: Replica + Drop>(lanes: &[Lane<R>]) -> &TabletMap
    requires { 1 ≤ length lanes.now }
    ensures { LanesTell R.segments lanes.now looks.rows_of result.now }
{
    lanes[0].rows()
}

/// Whether rows have a table. A step for each.
pub(crate) fn has_table(rows: &[Row], table: u64) -> bool
    ensures { result ≡ looks.has_table rows.now table }
{
    rows.iter().any(|row| row.range.table == table)
}

/// How many tables rows have. A step for each two of them.
pub(crate) fn count_tables(rows: &[Row]) -> usize
    ensures { result ≡ length (looks.tables_of rows.now) }
{
    let mut count = 0;
    for (place, row) in rows.iter().enumerate() {
        if !has_table(&rows[place + 1..], row.range.table) {
            count += 1;
        }
    }
    count
}

/// Whether a row's range can be split at a hash, so that both parts have hashes.
pub(crate) fn has_inside(row: &Row, at: u64) -> bool
    ensures { result ≡ looks.has_inside (Some row.now) at }
{
    row.range.first < at && at <= row.range.last
}

/// The owner of a tablet in a lane; none while it moves or is rebuilt there. A step for each row.
pub(crate) fn owner_in<R: Replica + Drop>(lane: &Lane<R>, tablet: u32) -> Option<u8>
    ensures { LaneTells R.segments lane.now (λ w. looks.owner_in w tablet) result }
{
    owner_by(lane.rows().row(tablet)?)
}

// The owner by a row.
fn owner_by(row: &Row) -> Option<u8>
    ensures { result ≡ looks.owner_by row.now.phase }
{
    match row.phase {
        Phase::Owned { master, .. } => Some(master),
        _ => None,
    }
}

/// Whether a tablet is owned in every lane. A step for each row of each lane.
pub(crate) fn is_owned<R: Replica + Drop>(lanes: &[Lane<R>], tablet: u32) -> bool
    ensures { LanesTell R.segments lanes.now (λ cluster. looks.is_owned cluster tablet) result }
{
    for lane in lanes {
        if owner_in(lane, tablet).is_none() {
            return false;
        }
    }
    true
}

/// The lanes in which another master than this one owns a tablet. A step for each row of each lane.
pub(crate) fn lanes_without<R: Replica + Drop>(
    alloc: Global,
    lanes: &[Lane<R>],
    tablet: u32,
    master: u8,
) -> Result<Vec<u8>, NoMemory>
    requires { length lanes.now ≡ LANES }
    ensures found { IfOk result (λ found. LanesTell R.segments lanes.now
        (λ cluster. looks.lanes_without cluster tablet master) found.items) }
    ensures there { IfOk result (λ found. All (λ lane. lane < LANES) found.items) }
{
    let mut found = Vec::new(alloc);
    for lane in 0..LANES {
        if owner_in(&lanes[lane as usize], tablet) != Some(master) {
            found.push(lane)?;
        }
    }
    Ok(found)
}

/// Whether the owner of a tablet has crashed in one of some lanes. A step for each row of each of these.
pub(crate) fn has_dead_owner<R: Replica + Drop>(
    lanes: &[Lane<R>],
    among: &[u8],
    tablet: u32,
) -> bool
    requires { All (λ lane. lane < length lanes.now) among.now }
    ensures { LanesTell R.segments lanes.now (λ cluster. looks.has_dead_owner cluster among.now tablet) result }
{
    for lane in among {
        if is_owner_dead(&lanes[*lane as usize], tablet) {
            return true;
        }
    }
    false
}

/// Whether the owner of a tablet has crashed in some lane. A step for each row of each lane.
pub(crate) fn has_dead_owner_anywhere<R: Replica + Drop>(lanes: &[Lane<R>], tablet: u32) -> bool
    requires { length lanes.now ≡ LANES }
    ensures { LanesTell R.segments lanes.now (λ cluster. looks.has_dead_owner cluster (looks.all_lanes cluster) tablet) result }
{
    has_dead_owner(lanes, &[0, 1, 2, 3, 4, 5, 6, 7], tablet)
}

// Whether the owner of a tablet in a lane, if there is one, has crashed.
fn is_owner_dead<R: Replica + Drop>(lane: &Lane<R>, tablet: u32) -> bool
    ensures { LaneTells R.segments lane.now (λ w. looks.is_dead_owner w (looks.owner_in w tablet)) result }
{
    let Some(owner) = owner_in(lane, tablet) else {
        return false;
    };
    lane.crashed(owner)
}

/// How many calls the clients asked; 2^64 - 1 if they are more. A step for each client.
pub(crate) fn calls_asked(sessions: &BTreeMap<u32, Session>) -> u64
    ensures { result ≡ min (sum (map (λ entry. looks.calls_of entry.1) sessions.now.entries)) (2 ^ 64 - 1) }
{
    let mut asked: u64 = 0;
    for session in sessions.values() {
        asked = asked.saturating_add(calls_of(session));
    }
    asked
}

// How many calls a client asked: those that were answered, and the outstanding one.
fn calls_of(session: &Session) -> u64
    ensures { result ≡ looks.calls_of session.now }
{
    session.receipts().len() as u64 + u64::from(session.outstanding().is_some())
}
