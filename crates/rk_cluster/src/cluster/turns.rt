// How the nodes of a lane take their turns, and how one event comes to a lane.
ghost use Rattle.std.specs.Prelude.{◌≡◌, ◌<◌, [], true, All, length, None, Some, IfErr, IfOk, OnErr, OnOk};
ghost use Rattle.rk_types.specs.declared.hashing.TheConstants.{LANES};
ghost use Rattle.rk_world.specs.Backup.{Gave};
ghost use Rattle.rk_world.specs.declared.event.Event.TheVariants as events;
ghost use Rattle.rk_types.specs.NumberMap.{numbers};
ghost use Rattle.rk_world.specs.Cluster.{Cluster as Lanes, Happens, lane_at};
ghost use Rattle.rk_world.specs.World.{live_masters};
ghost use Rattle.rk_cluster.specs.State.{IsOf};
ghost use Rattle.rk_cluster.specs.Turns.{IsIdleIn, clients_in as clients_in_lem};
ghost use Rattle.rk_world.specs.Premises.{IsMaster, MOST_MASTERS};
ghost use Rattle.rk_cluster.specs.Effects.{ActsOne, EndsIn, IsCarriedOut};
ghost use Rattle.rk_cluster.specs.Faults.{CountsGoOn};
ghost use Rattle.rk_cluster.specs.Makes.{turn_makes};
ghost use Rattle.rk_cluster.specs.Masters.{HasBackups, MayComeIn, backups_of, masters_of};
ghost use Rattle.rk_cluster.specs.Spending.{IsShortOf};
ghost use Rattle.rk_cluster.specs.Steps.{AreLanes, IsPlain, WhereWorn};

use super::nothing_said;
use crate::cluster::Cluster;
use crate::error::ClusterError;
use crate::steps::{act, act_all, lose};
use crate::turning::{are_elsewhere, ask_all, clients_in, live_in, turns_of};
use rk_outside::Replica;
use rk_types::{NoMemory, Said};
use rk_world::Event;

impl<R: Replica + Drop> Cluster<R> {
    /// How many masters each lane has, numbered from 1.
    pub fn masters(&self) -> u8
        ensures count { result ≡ masters_of self.now }
        ensures few { IsMaster MOST_MASTERS result }
        ensures lanes { AreLanes result 0 self.now.lanes }
        ensures eight { length self.now.lanes ≡ LANES }
    {
        self.masters
    }

    /// How many backups each lane has, numbered from 1.
    pub fn backups(&self) -> u8
        ensures count { result ≡ backups_of self.now }
        ensures each { All (HasBackups result) self.now.lanes }
    {
        self.backups
    }

    /// An event comes to a lane. It calls no replica, so it is neither a delivery nor a crash, and it names only masters that
    /// are there. If the lane refuses it, nothing changes; only a lane that is worn, or want of memory, is an error. What the
    /// event takes in the lane.
    pub fn happen(&mut self, lane: u8, event: Event) -> Result<(), ClusterError>
        requires there { lane < LANES }
        requires plain { IsPlain event }
        requires may { MayComeIn self.old event }
        ensures ok { OnOk result (ActsOne R.segments self.old self.new (Happens lane event (Gave None)) [] None) }
        ensures err { IfErr result (WhereWorn (λ number. ActsOne R.segments self.old self.new
            (Happens lane event (Gave None)) [] (Some number))) }
        ensures short { OnErr result (IsShortOf self.old self.new) }
        ensures masters { masters_of self.new ≡ masters_of self.old }
        ensures backups { backups_of self.new ≡ backups_of self.old }
        ensures counts { CountsGoOn R.faults [] self.old self.new }
    {
        act(&mut self.lanes, lane, event)
    }

    /// The message of a number is lost in a lane, even if that is worn. A message that is not on the wire changes nothing. It takes
    /// no memory. One search.
    pub fn lose(&mut self, lane: u8, number: u64)
        requires { lane < LANES }
        ensures acts { ActsOne R.segments self.old self.new (Happens lane (events.Forget number) (Gave None)) [] None }
        ensures masters { masters_of self.new ≡ masters_of self.old }
        ensures backups { backups_of self.new ≡ backups_of self.old }
        ensures counts { CountsGoOn R.faults [] self.old self.new }
    {
        lose(&mut self.lanes, lane, number);
    }

    /// The clients with an outstanding call in a lane, by rising number. The time to hash the key of each outstanding call.
    pub fn clients_in(&self, lane: u8) -> Result<Vec<u32>, NoMemory>
        ensures { IfOk result (λ clients. clients.items ≡ clients_in_lem lane self.now.sessions) }
    {
        clients_in(self.alloc(), &self.sessions, lane)
    }

    /// The masters that live in a lane, by rising number; of a lane that is spent, none. A step for each master and each one
    /// that has crashed.
    pub fn live_in(&self, lane: u8) -> Result<Vec<u8>, NoMemory>
        requires { lane < LANES }
        ensures there { IfOk result (λ live. All (IsMaster (masters_of self.now)) live.items) }
        ensures live { IfOk result (λ live. (cluster : Lanes) → IsOf R.segments self.now cluster
            → numbers (live_masters (lane_at cluster lane)) ≡ live.items) }
    {
        live_in(self.alloc(), &self.lanes[lane as usize], self.masters)
    }

    /// Whether no turn in a lane would leave anything, as far as a look shows: no call is outstanding there, and the lane rests. The time
    /// to hash the key of each outstanding call, and what [`rk_lane::Lane::rests`] takes.
    pub fn rests_in(&self, lane: u8) -> bool
        requires { lane < LANES }
        ensures { result ≡ true → IsIdleIn R.segments self.now lane }
    {
        are_elsewhere(&self.sessions, lane) && self.lanes[lane as usize].rests()
    }

    /// The nodes of a lane take their turns: the clients with an outstanding call there, by rising number, then the
    /// coordinator, and then the masters that live, by rising number. It is never refused by a code; if the lane is worn, or
    /// memory is wanting, the turns before that were taken. What each turn takes in the lane, and a step for each session.
    pub fn turn(&mut self, lane: u8) -> Result<Vec<Said>, ClusterError>
        requires { lane < LANES }
        ensures ok { IfOk result (λ said. IsCarriedOut R.segments self.old self.new
            (λ cluster. None) (λ cluster. turn_makes cluster lane) said.items) }
        ensures err { IfErr result (EndsIn R.segments self.old self.new (λ cluster. None)
            (λ cluster. turn_makes cluster lane)) }
        ensures masters { masters_of self.new ≡ masters_of self.old }
        ensures backups { backups_of self.new ≡ backups_of self.old }
        ensures counts { CountsGoOn R.faults [] self.old self.new }
    {
        let alloc = self.alloc();
        // Who takes a turn is settled before the first one does.
        let clients = clients_in(alloc, &self.sessions, lane)?;
        let live = live_in(alloc, &self.lanes[lane as usize], self.masters)?;
        let turns = turns_of(alloc, lane, &live)?;
        ask_all(
            &mut self.lanes,
            &mut self.sessions,
            self.masters,
            lane,
            &clients,
        )?;
        act_all(&mut self.lanes, self.masters, &turns)?;
        Ok(nothing_said(alloc))
    }
}
