// Which calls on tables and tablets are carried out, and what they need; the others are refused by their codes.
ghost use Rattle.std.specs.Prelude.{◌≡◌, ◌≤◌, ◌<◌, None, Some, All, length, IfOk, IfErr, OnOk};
ghost use Rattle.rk_types.specs.declared.hashing.TheConstants.{LANES};
ghost use Rattle.rk_world.specs.Premises.{IsMaster};
ghost use Rattle.rk_cluster.specs.Codes as codes;
ghost use Rattle.rk_cluster.specs.Effects.{HasCode};
ghost use Rattle.rk_cluster.specs.Looks as looks;
ghost use Rattle.rk_cluster.specs.Makes.{next_tablet};
ghost use Rattle.rk_cluster.specs.Steps.{AreLanes, state_of};
ghost use Rattle.rk_cluster.specs.Told.{LanesTell, WhereRefused};

use crate::code::Code;
use crate::error::ClusterError;
use crate::looks::{
    calls_asked, count_tables, has_dead_owner, has_dead_owner_anywhere, has_inside, has_table,
    is_dead, is_master, is_owned, lanes_without, rows_of,
};
use rk_lane::Lane;
use rk_outside::Replica;
use rk_session::Session;
use std::alloc::Global;
use std::collections::BTreeMap;

/// As many tables and tablets as there may be.
const MOST_TABLES: usize = rk_types::MOST_TABLES as usize;

const MOST_TABLETS: usize = rk_types::MOST_TABLETS as usize;

/// A table is to be made: the number of its tablet.
pub(crate) fn admit_table<R: Replica + Drop>(
    lanes: &[Lane<R>],
    sessions: &BTreeMap<u32, Session>,
    masters: u8,
    table: u64,
    master: u8,
) -> Result<u32, ClusterError>
    requires count { length lanes.now ≡ LANES }
    requires lanes { AreLanes masters 0 lanes.now }
    ensures code { OnOk result (HasCode R.segments (state_of lanes.now sessions.now.entries)
        (λ cluster. codes.table_code cluster table master) None) }
    ensures tablet { IfOk result (LanesTell R.segments lanes.now next_tablet) }
    ensures number { IfOk result (λ tablet. 1 ≤ tablet) }
    ensures master { OnOk result (IsMaster masters master) }
    ensures err { IfErr result (WhereRefused (λ code. HasCode R.segments (state_of lanes.now sessions.now.entries)
        (λ cluster. codes.table_code cluster table master) (Some code))) }
{
    if calls_asked(sessions) > 0 {
        return Err(ClusterError::Code(Code::TooLate));
    }
    let rows = rows_of(lanes).rows();
    if has_table(rows, table) {
        return Err(ClusterError::Code(Code::Taken));
    }
    if !is_master(lanes, masters, master) {
        return Err(ClusterError::Code(Code::Unknown));
    }
    if is_dead(lanes, master) {
        return Err(ClusterError::Code(Code::Crashed));
    }
    if count_tables(rows) >= MOST_TABLES || rows.len() >= MOST_TABLETS {
        return Err(ClusterError::Code(Code::Limit));
    }
    Ok(rows.len() as u32 + 1)
}

/// A tablet is to move to a master: the lanes in which another one owns it.
pub(crate) fn admit_migration<R: Replica + Drop>(
    alloc: Global,
    lanes: &[Lane<R>],
    masters: u8,
    tablet: u32,
    to: u8,
) -> Result<Vec<u8>, ClusterError>
    requires count { length lanes.now ≡ LANES }
    requires lanes { AreLanes masters 0 lanes.now }
    ensures code { OnOk result (LanesTell R.segments lanes.now (λ cluster. codes.migrate_code cluster tablet to) None) }
    ensures found { IfOk result (λ found. LanesTell R.segments lanes.now
        (λ cluster. looks.lanes_without cluster tablet to) found.items) }
    ensures there { IfOk result (λ found. All (λ lane. lane < LANES) found.items) }
    ensures master { OnOk result (IsMaster masters to) }
    ensures err { IfErr result (WhereRefused (λ code. LanesTell R.segments lanes.now
        (λ cluster. codes.migrate_code cluster tablet to) (Some code))) }
{
    if rows_of(lanes).row(tablet).is_none() || !is_master(lanes, masters, to) {
        return Err(ClusterError::Code(Code::Unknown));
    }
    if !is_owned(lanes, tablet) {
        return Err(ClusterError::Code(Code::NotOwned));
    }
    let concerned = lanes_without(alloc, lanes, tablet, to)?;
    if concerned.is_empty() {
        return Err(ClusterError::Code(Code::OwnsAll));
    }
    if is_dead(lanes, to) || has_dead_owner(lanes, &concerned, tablet) {
        return Err(ClusterError::Code(Code::Crashed));
    }
    Ok(concerned)
}

/// A tablet is to be split at a hash: the number of the tablet that the hashes from there on become.
pub(crate) fn admit_split<R: Replica + Drop>(
    lanes: &[Lane<R>],
    tablet: u32,
    at: u64,
) -> Result<u32, ClusterError>
    requires { length lanes.now ≡ LANES }
    ensures code { OnOk result (LanesTell R.segments lanes.now (λ cluster. codes.split_code cluster tablet at) None) }
    ensures tablet { IfOk result (LanesTell R.segments lanes.now next_tablet) }
    ensures number { IfOk result (λ tablet. 1 ≤ tablet) }
    ensures err { IfErr result (WhereRefused (λ code. LanesTell R.segments lanes.now
        (λ cluster. codes.split_code cluster tablet at) (Some code))) }
{
    let rows = rows_of(lanes);
    let Some(row) = rows.row(tablet) else {
        return Err(ClusterError::Code(Code::Unknown));
    };
    if !is_owned(lanes, tablet) {
        return Err(ClusterError::Code(Code::NotOwned));
    }
    if has_dead_owner_anywhere(lanes, tablet) {
        return Err(ClusterError::Code(Code::Crashed));
    }
    let count = rows.rows().len();
    if count >= MOST_TABLETS {
        return Err(ClusterError::Code(Code::Limit));
    }
    if !has_inside(row, at) {
        return Err(ClusterError::Code(Code::BadSplit));
    }
    Ok(count as u32 + 1)
}
