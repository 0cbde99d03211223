// How far the migration of a tablet has come in a lane.
ghost use Rattle.std.specs.Prelude.{◌≡◌};
ghost use Rattle.rk_world.specs.Premises.{IsMaster};
ghost use Rattle.rk_cluster.specs.Told.{LaneTells};
ghost use Rattle.rk_settle.specs.Lawful.{AreNamed};
ghost use Rattle.rk_settle.specs.Reaches as reaches;

use crate::looks::{applied_at, role_at, row_at, term_at};
use rk_lane::Lane;
use rk_outside::Replica;
use rk_tablet_map::{Phase, Row};
use rk_transfer::Role;
use rk_types::Reach;

/// Whether the migration of a tablet in a lane, if there is one, is short of a reach. A step for each row.
pub(crate) fn is_short_of<R: Replica + Drop>(at: &Lane<R>, tablet: u32, reach: Reach) -> bool
    ensures { LaneTells R.segments at.now (λ w. reaches.is_short_of w tablet reach) result }
{
    match row_at(at, tablet) {
        None => false,
        Some(row) => !is_at_reach(at, row, reach),
    }
}

// Whether a migration has come to a reach.
fn is_at_reach<R: Replica + Drop>(at: &Lane<R>, row: &Row, reach: Reach) -> bool
    requires { AreNamed at.now.masters row.now.phase }
    ensures { LaneTells R.segments at.now (λ w. reaches.is_at_reach w row.now row.now.phase reach) result }
{
    match row.phase {
        Phase::Opening {
            source,
            target,
            dfrom,
            ..
        } => match reach {
            Reach::Begun => dfrom.is_some(),
            Reach::Frozen => is_source_frozen(at, row, source),
            _ => is_moved_to(at, row, target, reach),
        },
        Phase::Moving { source, target, .. } => match reach {
            Reach::Frozen => is_source_frozen(at, row, source),
            _ => is_moved_to(at, row, target, reach),
        },
        _ => true,
    }
}

// Whether the source of a migration is frozen.
fn is_source_frozen<R: Replica + Drop>(at: &Lane<R>, row: &Row, source: u8) -> bool
    requires { IsMaster at.now.masters source }
    ensures { LaneTells R.segments at.now (λ w. reaches.is_source_frozen w row.now source) result }
{
    matches!(role_at(at, source, row.tablet), Role::Frozen)
        && term_at(at, source, row.tablet) == row.term
}

// Whether a migration that moves has come to a reach.
fn is_moved_to<R: Replica + Drop>(at: &Lane<R>, row: &Row, target: u8, reach: Reach) -> bool
    requires { IsMaster at.now.masters target }
    ensures { LaneTells R.segments at.now (λ w. reaches.is_moved_to w row.now target reach) result }
{
    let has_term = term_at(at, target, row.tablet) == row.term;
    let role = role_at(at, target, row.tablet);
    match reach {
        Reach::Begun => true,
        Reach::Granted => has_term && is_target(role),
        Reach::Pulled => has_term && is_joining(role),
        Reach::Joined => has_term && has_joined(applied_at(at, target), role),
        _ => false,
    }
}

// Whether a role is that of a target that answers calls.
fn is_target(role: Role) -> bool
    ensures { result ≡ reaches.is_target role }
{
    matches!(role, Role::Receiving | Role::Joining { .. })
}

// Whether a role is that of a target that has all.
fn is_joining(role: Role) -> bool
    ensures { result ≡ reaches.is_joining role }
{
    matches!(role, Role::Joining { .. })
}

// Whether a role is that of a target whose closing entry is among so many applied ones.
fn has_joined(applied: u64, role: Role) -> bool
    ensures { result ≡ reaches.has_joined applied role }
{
    match role {
        Role::Joining { entry: Some(entry) } => entry < applied,
        _ => false,
    }
}
