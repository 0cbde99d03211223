// Whether a cluster is quiet.
ghost use Rattle.std.specs.Prelude.{◌≡◌, ◌==◌, ◌||◌, [], List, length, is_none, IfSome};
ghost use Rattle.std.specs.List.{list_all};
ghost use Rattle.rk_world.specs.Cluster.{Cluster as Known};
ghost use Rattle.rk_world.specs.Master.{staged};
ghost use Rattle.rk_world.specs.Premises.{IsMaster};
ghost use Rattle.rk_world.specs.World.{World, has_crashed, master_at};
ghost use Rattle.rk_lane.specs.LaneState.{world_with};
ghost use Rattle.rk_cluster.specs.Quiet as quiet;
ghost use Rattle.rk_cluster.specs.State.{AreWorlds, IsOf};
ghost use Rattle.rk_cluster.specs.Steps.{AreLanes};

use super::Cluster;
use rk_lane::Lane;
use rk_outside::Replica;
use rk_session::Session;
use rk_tablet_map::Phase;
use std::collections::BTreeMap;

impl<R: Replica + Drop> Cluster<R> {
    /// Whether a cluster of which no lane is spent is quiet: each row is owned by a master that lives, nothing is staged at a
    /// master that lives, and no call is outstanding. A look at each row and each master in each lane, and at each session.
    pub fn quiet(&self) -> bool
        ensures { (cluster : Known) → IsOf R.segments self.now cluster → result ≡ quiet.is_quiet cluster }
    {
        are_quiet(&self.lanes, self.masters) && is_answered(&self.sessions)
    }
}

// Whether no call is outstanding. A look at each session.
fn is_answered(sessions: &BTreeMap<u32, Session>) -> bool
    ensures { result ≡ list_all (λ entry. is_none entry.1.outstanding) sessions.now.entries }
{
    sessions
        .values()
        .all(|session| session.outstanding().is_none())
}

// Whether each lane is quiet. A look at each row and each master in each lane.
fn are_quiet<R: Replica + Drop>(lanes: &[Lane<R>], masters: u8) -> bool
    requires { AreLanes masters 0 lanes.now }
    ensures { (worlds : List World) → AreWorlds R.segments lanes.now worlds → result ≡ list_all quiet.is_quiet_lane worlds }
{
    for lane in lanes {
        if !is_quiet(lane, masters) {
            return false;
        }
    }
    true
}

// Whether a lane with so many masters is quiet, if it is not spent. A look at each row and each master.
fn is_quiet<R: Replica + Drop>(lane: &Lane<R>, masters: u8) -> bool
    requires { lane.now.masters ≡ masters }
    ensures { IfSome lane.now.running (λ running. result ≡ quiet.is_quiet_lane (world_with lane.now running [])) }
{
    has_owners(lane) && has_applied_all(lane, masters)
}

// Whether each row of a lane that is not spent is owned by a master that lives.
fn has_owners<R: Replica + Drop>(lane: &Lane<R>) -> bool
    ensures { IfSome lane.now.running (λ running. result ≡ quiet.has_owners (world_with lane.now running [])) }
{
    for row in lane.rows().rows() {
        if !is_owned_live(lane, &row.phase) {
            return false;
        }
    }
    true
}

// Whether a row in this phase is owned by a master that lives, in a lane that is not spent.
fn is_owned_live<R: Replica + Drop>(lane: &Lane<R>, phase: &Phase) -> bool
    ensures { IfSome lane.now.running (λ running. result ≡ quiet.is_owned_live (world_with lane.now running []) phase.now) }
{
    match phase {
        Phase::Owned { master, .. } => !lane.crashed(*master),
        _ => false,
    }
}

// Whether nothing is staged at the live masters of a lane with so many masters, if it is not spent.
fn has_applied_all<R: Replica + Drop>(lane: &Lane<R>, masters: u8) -> bool
    requires { lane.now.masters ≡ masters }
    ensures { IfSome lane.now.running (λ running. result ≡ quiet.has_applied_all (world_with lane.now running [])) }
{
    // By the contract of `spent`, the lane has just these masters.
    let _spent = lane.spent();
    for index in 0..masters {
        if !has_applied(lane, index + 1) {
            return false;
        }
    }
    true
}

// Whether a master has crashed or has nothing staged, in a lane that is not spent.
fn has_applied<R: Replica + Drop>(lane: &Lane<R>, master: u8) -> bool
    requires { IsMaster lane.now.masters master }
    ensures { IfSome lane.now.running (λ running. result ≡ (has_crashed (world_with lane.now running []) master
        || (length (staged (master_at (world_with lane.now running []) master)) == 0))) }
{
    lane.crashed(master) || lane.master(master).staged() == 0
}
