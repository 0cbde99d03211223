// How a cluster is made of replicas, and gives them back.
ghost use Rattle.std.specs.Prelude.{◌≡◌, ◌≤◌, ◌*◌, ℕ, [], All, length, map, slice_get, Some, IfOk};
ghost use Rattle.rk_log.specs.declared.copied.TheConstants.{MOST_BACKUPS as most_backups};
ghost use Rattle.rk_types.specs.declared.hashing.TheConstants.{LANES};
ghost use Rattle.rk_world.specs.Cluster.{new_cluster};
ghost use Rattle.rk_world.specs.Premises.{IsMaster, MOST_MASTERS};
ghost use Rattle.rk_lane.specs.LaneState.{LaneState, replicas_of};
ghost use Rattle.rk_cluster.specs.Dealt.{IsEighth};
ghost use Rattle.rk_cluster.specs.Fresh.{AreEmpty, AreMadeOf, IsHand, IsNewLane};
ghost use Rattle.rk_cluster.specs.Masters.{backups_of};
ghost use Rattle.rk_cluster.specs.State.{IsOf};

use super::Cluster;
use crate::dealing::{deal, gather};
use rk_lane::Lane;
use rk_outside::Replica;
use rk_types::NoMemory;
use std::alloc::Global;

impl<R: Replica + Drop> Cluster<R> {
    /// A cluster of eight lanes where nothing has happened, with so many masters and backups each; no client has a session. The
    /// replicas are those of backup 1 in lanes 0 to 7, then those of backup 2, and so on: backup b of lane l has the one at
    /// place 8 * (b - 1) + l, counted from 0. If all of them report that nothing was ever written, it is the new cluster.
    pub fn with_replicas(
        alloc: Global,
        masters: u8,
        backups: u8,
        replicas: Vec<R>,
    ) -> Result<Cluster<R>, NoMemory>
        requires masters { IsMaster MOST_MASTERS masters }
        requires backed { 1 ≤ backups }
        requires few_backups { backups ≤ most_backups }
        requires count { length replicas.items ≡ LANES * backups }
        ensures lanes { IfOk result (λ cluster. length cluster.lanes ≡ LANES) }
        ensures each { IfOk result (λ cluster. (number : ℕ) (lane : LaneState R) → slice_get cluster.lanes number ≡ Some lane
            → IsNewLane masters backups number lane) }
        ensures replicas { IfOk result (λ cluster. (number : ℕ) (lane : LaneState R) → slice_get cluster.lanes number ≡ Some lane
            → IsEighth replicas.items number (replicas_of lane.backups)) }
        ensures sessions { IfOk result (λ cluster. cluster.sessions ≡ []) }
        ensures new { IfOk result (λ cluster. AreEmpty R.segments replicas.items
            → IsOf R.segments cluster (new_cluster masters backups)) }
        ensures backups { IfOk result (λ cluster. backups_of cluster ≡ backups) }
    {
        let hands = deal(alloc, replicas)?;
        let lanes = new_lanes(alloc, masters, hands)?;
        Ok(Cluster::new(alloc, masters, backups, lanes))
    }

    /// The replicas, out of the cluster, also of one with a lane that is spent: as many as were given, and in that order, those
    /// of backup 1 in lanes 0 to 7, then those of backup 2, and so on. After `NoMemory` they are dropped. A step for each
    /// replica.
    pub fn into_replicas(self) -> Result<Vec<R>, NoMemory>
        ensures count { IfOk result (λ replicas. length replicas.items ≡ LANES * backups_of self) }
        ensures order { IfOk result (λ replicas. (number : ℕ) (lane : LaneState R) → slice_get self.lanes number ≡ Some lane
            → IsEighth replicas.items number (replicas_of lane.backups)) }
    {
        let alloc = self.alloc();
        let backups = self.backups;
        let mut hands = hands_of(alloc, self.lanes)?;
        gather(alloc, &mut hands, backups)
    }
}

// The replicas of each lane, lane 0 first.
fn hands_of<R: Replica + Drop>(alloc: Global, lanes: Vec<Lane<R>>) -> Result<Vec<Vec<R>>, NoMemory>
    ensures { IfOk result (λ hands. map (λ hand. hand.items) hands.items ≡ map (λ lane. replicas_of lane.backups) lanes.items) }
{
    let mut hands = Vec::with_capacity(alloc, lanes.len())?;
    for lane in lanes {
        hands.push(lane.into_replicas())?;
    }
    Ok(hands)
}

// New lanes, lane 0 first, with so many masters each and with these replicas.
fn new_lanes<R: Replica + Drop>(
    alloc: Global,
    masters: u8,
    hands: Vec<Vec<R>>,
) -> Result<Vec<Lane<R>>, NoMemory>
    requires masters { masters ≤ MOST_MASTERS }
    requires eight { length hands.items ≡ LANES }
    requires each { All IsHand hands.items }
    ensures { IfOk result (λ lanes. AreMadeOf R.segments masters 0 hands.items lanes.items) }
{
    let mut lanes = Vec::with_capacity(alloc, hands.len())?;
    let mut number = 0;
    for hand in hands {
        lanes.push(Lane::new(alloc, number, masters, hand)?)?;
        number += 1;
    }
    Ok(lanes)
}
