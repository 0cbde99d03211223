// How a master crashes.
ghost use Rattle.std.specs.Prelude.{◌≡◌, ◌<◌, [], ℕ, true, All, List, None, length, IfOk, IfErr};
ghost use Rattle.std.specs.List.{list_all};
ghost use Rattle.rk_types.specs.declared.hashing.TheConstants.{LANES as lane_count};
ghost use Rattle.rk_world.specs.Premises.{IsMaster};
ghost use Rattle.rk_world.specs.Runs.{lives_another as lives_another_lem};
ghost use Rattle.rk_world.specs.World.{World};
ghost use Rattle.rk_cluster.specs.Codes.{crash_code};
ghost use Rattle.rk_cluster.specs.Crashing.{IsOfCode, crashes};
ghost use Rattle.rk_cluster.specs.Effects.{EndsIn, IsCarriedOut};
ghost use Rattle.rk_cluster.specs.Makes.{crash_makes};
ghost use Rattle.rk_cluster.specs.Faults.{CountsGoOn, LanesGoOn};
ghost use Rattle.rk_cluster.specs.Masters.{backup_counts, backups_of};
ghost use Rattle.rk_cluster.specs.State.{AreWorlds};
ghost use Rattle.rk_cluster.specs.Steps.{AreLanes, CarriesSteps};
ghost use Rattle.rk_cluster.specs.Tests.{HoldsIn};

use super::{Cluster, nothing_said};
use crate::code::Code;
use crate::error::ClusterError;
use crate::steps::act_anyway;
use rk_lane::Lane;
use rk_outside::Replica;
use rk_types::{LANES, Said};
use rk_world::Event;

impl<R: Replica + Drop> Cluster<R> {
    /// A master crashes in each lane. It is refused if no other master would be left alive in some lane. It takes no memory, and
    /// comes even if lanes are worn. A look at each master in each lane.
    pub fn crash(&mut self, master: u8) -> Result<Vec<Said>, ClusterError>
        ensures ok { IfOk result (λ said. IsCarriedOut R.segments self.old self.new
            (λ cluster. crash_code cluster master) (λ cluster. crash_makes cluster master) said.items) }
        ensures err { IfErr result (EndsIn R.segments self.old self.new (λ cluster. crash_code cluster master)
            (λ cluster. crash_makes cluster master)) }
        ensures code { IfErr result IsOfCode }
        ensures backups { backups_of self.new ≡ backups_of self.old }
        ensures counts { CountsGoOn R.faults [] self.old self.new }
    {
        let alloc = self.alloc();
        let first = &self.lanes[0];
        // By the contract of `spent`, the lane's coordinator counts its masters.
        let _spent = first.spent();
        if master < 1 || master > self.masters {
            return Err(ClusterError::Code(Code::Unknown));
        }
        if first.crashed(master) {
            return Err(ClusterError::Code(Code::Crashed));
        }
        if !lives_another(&self.lanes, master) {
            return Err(ClusterError::Code(Code::LastMaster));
        }
        crash_all(&mut self.lanes, self.masters, master);
        Ok(nothing_said(alloc))
    }
}

// Whether another master than this one lives in each lane. A look at each master in each lane.
fn lives_another<R: Replica + Drop>(lanes: &[Lane<R>], master: u8) -> bool
    ensures value { (worlds : List World) → AreWorlds R.segments lanes.now worlds
        → result ≡ list_all (λ w. lives_another_lem w master) worlds }
    ensures each { result ≡ true → All (HoldsIn (λ w. lives_another_lem w master)) lanes.now }
{
    for lane in lanes {
        if !lane.lives_another(master) {
            return false;
        }
    }
    true
}

// A master crashes in each lane; in each one another master lives. Takes no memory.
fn crash_all<R: Replica + Drop>(lanes: &mut Vec<Lane<R>>, masters: u8, master: u8)
    requires count { length lanes.old.items ≡ lane_count }
    requires lanes { AreLanes masters 0 lanes.old.items }
    requires there { IsMaster masters master }
    requires calm { All (HoldsIn (λ w. lives_another_lem w master)) lanes.old.items }
    ensures acts { CarriesSteps R.segments lanes.old.items lanes.new.items (crashes master) [] }
    ensures lanes { AreLanes masters 0 lanes.new.items }
    ensures count { length lanes.new.items ≡ length lanes.old.items }
    ensures backups { backup_counts lanes.new.items ≡ backup_counts lanes.old.items }
    ensures counts { LanesGoOn R.faults [] lanes.old.items lanes.new.items }
{
    for lane in 0..LANES {
        // The one refusal is that the master has crashed already, and then nothing happens.
        act_anyway(lanes, lane, Event::Crash(master));
    }
}
