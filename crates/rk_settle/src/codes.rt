// The codes of the settling commands: why a command is refused before it does anything.
ghost use Rattle.std.specs.Prelude.{◌≡◌, [], ◌∷◌, not};
ghost use Rattle.rk_tablet_map.specs.Rows.{row_of};
ghost use Rattle.rk_cluster.specs.Codes.{code_where, first_code};
ghost use Rattle.rk_cluster.specs.Looks.{is_tablet as is_tablet_lem};
ghost use Rattle.rk_cluster.specs.declared.code.Code.TheVariants.{Crashed, NotMigrating};
ghost use Rattle.rk_cluster.specs.Told.{LaneTells, Tells};
ghost use Rattle.rk_settle.specs.Codes as codes;

use crate::looks::{lives_at, row_at};
use crate::reaching::is_short_of;
use crate::unfolding::lane_of;
use rk_cluster::{Cluster, Code};
use rk_lane::Lane;
use rk_outside::Replica;
use rk_tablet_map::{Phase, Row};
use rk_types::Reach;

/// Why a client's call cannot be brought on, if it cannot: there is no such client, or it has no outstanding call. A search.
pub fn serve_code<R: Replica + Drop>(cluster: &Cluster<R>, client: u32) -> Option<Code>
    ensures { Tells R.segments cluster.now (λ c. codes.serve_code c client) result }
{
    let Some(session) = cluster.session(client) else {
        return Some(Code::Unknown);
    };
    match session.outstanding() {
        Some(_) => None,
        None => Some(Code::NothingSent),
    }
}

/// Why the migration of a tablet cannot be brought to a reach, if it cannot: there is no such tablet, it migrates in no lane short
/// of that reach, or in a lane where it does, its source or target has crashed. A step for each row of each lane, and for each master
/// that has crashed there.
pub fn advance_code<R: Replica + Drop>(
    cluster: &Cluster<R>,
    tablet: u32,
    reach: Reach,
) -> Option<Code>
    ensures { Tells R.segments cluster.now (λ c. codes.advance_code c tablet reach) result }
{
    if !is_tablet(cluster, tablet) {
        return Some(Code::Unknown);
    }
    let mut concerned = false;
    let mut dead = false;
    for lane in cluster.lanes() {
        if is_short_of(lane, tablet, reach) {
            concerned = true;
            dead |= is_dead_migration(lane, tablet);
        }
    }
    code_by(concerned, dead)
}

/// Why the target of a tablet cannot be sent what it wants first, if it cannot: there is no such tablet, it moves in no lane, or in a
/// lane where it does, its source or target has crashed. A step for each row of each lane, and for each master that has crashed there.
pub fn priority_code<R: Replica + Drop>(cluster: &Cluster<R>, tablet: u32) -> Option<Code>
    ensures { Tells R.segments cluster.now (λ c. codes.priority_code c tablet) result }
{
    if !is_tablet(cluster, tablet) {
        return Some(Code::Unknown);
    }
    let mut concerned = false;
    let mut dead = false;
    for lane in cluster.lanes() {
        if is_moving(lane, tablet) {
            concerned = true;
            dead |= is_dead_migration(lane, tablet);
        }
    }
    code_by(concerned, dead)
}

// The code of a command that acts on a migration, by whether some lane is concerned, and whether a master of it there has crashed.
fn code_by(concerned: bool, dead: bool) -> Option<Code>
    ensures { result ≡ first_code (code_where (not concerned) NotMigrating ∷ code_where dead Crashed ∷ []) }
{
    if !concerned {
        return Some(Code::NotMigrating);
    }
    if dead { Some(Code::Crashed) } else { None }
}

/// Whether a tablet is there: each one has a row in every lane. A step for each row of lane 0.
pub fn is_tablet<R: Replica + Drop>(cluster: &Cluster<R>, tablet: u32) -> bool
    ensures { Tells R.segments cluster.now (λ c. is_tablet_lem c tablet) result }
{
    row_at(lane_of(cluster, 0), tablet).is_some()
}

// Whether a tablet moves in a lane. A step for each row.
fn is_moving<R: Replica + Drop>(lane: &Lane<R>, tablet: u32) -> bool
    ensures { LaneTells R.segments lane.now (λ w. codes.is_moving (row_of w.coordinator.rows tablet)) result }
{
    match row_at(lane, tablet) {
        Some(row) => matches!(row.phase, Phase::Moving { .. }),
        None => false,
    }
}

// Whether the source or the target of a tablet that migrates in a lane has crashed there. A step for each row, and for each master that
// has crashed.
fn is_dead_migration<R: Replica + Drop>(lane: &Lane<R>, tablet: u32) -> bool
    ensures { LaneTells R.segments lane.now (λ w. codes.is_dead_migration w (row_of w.coordinator.rows tablet)) result }
{
    match row_at(lane, tablet) {
        Some(row) => has_dead_party(lane, row),
        None => false,
    }
}

// Whether the source or the target of a migration has crashed in a lane. A step for each master that has.
fn has_dead_party<R: Replica + Drop>(lane: &Lane<R>, row: &Row) -> bool
    ensures { LaneTells R.segments lane.now (λ w. codes.has_dead_party w row.now.phase) result }
{
    match row.phase {
        Phase::Opening { source, target, .. } | Phase::Moving { source, target, .. } => {
            !lives_at(lane, source) || !lives_at(lane, target)
        }
        _ => false,
    }
}
