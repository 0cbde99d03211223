ghost use Rattle.std.specs.Prelude.{◌≡◌, ◌≤◌, ◌<◌, [], true, All, length, None, Some, IfOk, IfErr, IfSome, OnErr, OnOk};
ghost use Rattle.std.specs.Option.{option_copied};
ghost use Rattle.rk_types.specs.NumberMap.{get};
ghost use Rattle.rk_types.specs.declared.hashing.TheConstants.{LANES};
ghost use Rattle.rk_world.specs.Cluster.{Asks};
ghost use Rattle.rk_world.specs.Premises.{IsMaster, MayAct, MOST_MASTERS};
ghost use Rattle.rk_cluster.specs.Codes.{client_code, notice_code, place_code};
ghost use Rattle.rk_cluster.specs.Crashing.{IsOfCode};
ghost use Rattle.rk_cluster.specs.Delivering.{Delivers, DeliversShort, IsDelivery};
ghost use Rattle.rk_cluster.specs.Effects.{ActsOne, EndsIn, IsCarriedOut};
ghost use Rattle.rk_cluster.specs.Faults.{BySomeFate, CountsGoOn, SomeLaneFailed};
ghost use Rattle.rk_cluster.specs.Makes.{client_makes, deliver_makes, forget_makes, notice_makes};
ghost use Rattle.rk_cluster.specs.Masters.{HasBackups, backups_of, masters_of};
ghost use Rattle.rk_cluster.specs.Spending.{IsShortOf};
ghost use Rattle.rk_cluster.specs.State.{has_spent};
ghost use Rattle.rk_cluster.specs.Steps.{AreLanes, MayAllAct, WhereWorn};
ghost use Rattle.rk_cluster.specs.Visits.{HasSession};

use crate::code::Code;
use crate::delivering::{Delivered, deliver_in, listed};
use crate::error::ClusterError;
use crate::sessions::{count, has_session, put_session};
use crate::steps::{act_all, in_all_lanes, lose};
use crate::visits::ask_in;
use rk_lane::Lane;
use rk_outside::Replica;
use rk_session::Session;
use rk_types::Said;
use rk_world::Event;
use std::alloc::Global;
use std::collections::BTreeMap;
use std::marker::Model;

mod again;
mod calling;
mod crashing;
mod fresh;
mod quiet;
mod tables;
mod turns;

/// As many clients as may have sessions.
const MOST_CLIENTS: usize = rk_types::MOST_CLIENTS as usize;

/// Eight lanes, and the sessions of the clients that act in them. Contracts see the lanes, and the session of each client.
#[derive(Drop)]
pub struct Cluster<R> {
    // How many masters each lane has.
    masters: u8,
    // How many backups each lane has.
    backups: u8,
    lanes: Vec<Lane<R>>,
    sessions: BTreeMap<u32, Session>,
}

impl<R> Model for Cluster<R> {
    ghost use Rattle.rk_cluster.specs.State.{ClusterState};

    ghost Value = { ClusterState R };

    ghost use Rattle.rk_cluster.specs.Inside.{IsCluster, cluster_of};

    ghost view = { cluster_of };

    ghost invariant = { IsCluster };
}

impl<R: Replica + Drop> Cluster<R> {
    /// A cluster of eight lanes, lane 0 first, with so many masters and backups each; no client has a session. Takes no memory.
    pub fn new(alloc: Global, masters: u8, backups: u8, lanes: Vec<Lane<R>>) -> Cluster<R>
        requires eight { length lanes.items ≡ LANES }
        requires lanes { AreLanes masters 0 lanes.items }
        requires masters { IsMaster MOST_MASTERS masters }
        requires backups { All (HasBackups backups) lanes.items }
        ensures lanes { result.lanes ≡ lanes.items }
        ensures sessions { result.sessions ≡ [] }
        ensures backups { backups_of result ≡ backups }
    {
        Cluster::from_parts(masters, backups, lanes, BTreeMap::new(alloc))
    }

    /// A cluster of eight lanes, lane 0 first, with so many masters and backups each, and of sessions that may act in them, by client.
    /// Takes no memory.
    pub fn from_parts(
        masters: u8,
        backups: u8,
        lanes: Vec<Lane<R>>,
        sessions: BTreeMap<u32, Session>,
    ) -> Cluster<R>
        requires eight { length lanes.items ≡ LANES }
        requires lanes { AreLanes masters 0 lanes.items }
        requires masters { IsMaster MOST_MASTERS masters }
        requires backups { All (HasBackups backups) lanes.items }
        requires sessions { MayAllAct masters sessions.entries }
        ensures lanes { result.lanes ≡ lanes.items }
        ensures sessions { result.sessions ≡ sessions.entries }
        ensures backups { backups_of result ≡ backups }
    {
        Cluster {
            masters,
            backups,
            lanes,
            sessions,
        }
    }

    /// The lanes, lane 0 first, and the sessions by client, out of the cluster, also of one with a lane that is spent. The sessions may
    /// act in the lanes. Takes no memory.
    pub fn into_parts(self) -> (Vec<Lane<R>>, BTreeMap<u32, Session>)
        ensures lanes { result.0.items ≡ self.lanes }
        ensures sessions { result.1.entries ≡ self.sessions }
        ensures acts { MayAllAct (masters_of self) result.1.entries }
    {
        (self.lanes, self.sessions)
    }

    /// The lanes, lane 0 first, out of the cluster, also of one with a lane that is spent. Takes no memory.
    pub fn into_lanes(self) -> Vec<Lane<R>>
        ensures { result.items ≡ self.lanes }
    {
        self.lanes
    }

    /// Whether some lane is spent: memory was wanting within an event there.
    pub fn spent(&self) -> bool
        ensures { result ≡ has_spent self.now.lanes }
    {
        self.lanes.iter().any(|lane| lane.spent())
    }

    /// The lanes, lane 0 first.
    pub fn lanes(&self) -> &[Lane<R>]
        ensures { result.now ≡ self.now.lanes }
    {
        self.lanes.as_slice()
    }

    /// A client gets a session, and may act in each lane. A search for it, and the time to add it in each lane.
    pub fn add_client(&mut self, client: u32) -> Result<Vec<Said>, ClusterError>
        requires { 1 ≤ client }
        ensures ok { IfOk result (λ said. IsCarriedOut R.segments self.old self.new
            (λ cluster. client_code cluster client) (λ cluster. client_makes cluster client) said.items) }
        ensures err { IfErr result (EndsIn R.segments self.old self.new (λ cluster. client_code cluster client)
            (λ cluster. client_makes cluster client)) }
        ensures backups { backups_of self.new ≡ backups_of self.old }
        ensures counts { CountsGoOn R.faults [] self.old self.new }
    {
        if has_session(&self.sessions, client) {
            return Err(ClusterError::Code(Code::Taken));
        }
        if count(&self.sessions) >= MOST_CLIENTS {
            return Err(ClusterError::Code(Code::Limit));
        }
        let alloc = self.alloc();
        let deeds = in_all_lanes(Event::AddClient(client));
        act_all(&mut self.lanes, self.masters, &deeds)?;
        put_session(&mut self.sessions, client, Session::new(alloc, client))?;
        Ok(nothing_said(alloc))
    }

    /// The session of a client, if it has one; it may act in the lanes. One search.
    pub fn session(&self, client: u32) -> Option<&Session>
        ensures session { option_copied result ≡ get self.now.sessions client }
        ensures acts { IfSome (option_copied result) (MayAct (masters_of self.now)) }
    {
        self.sessions.get(&client)
    }

    /// A client that has a session takes its turn in a lane. A session that does not fit the lane changes nothing. What that
    /// takes in the lane.
    pub fn ask_in(&mut self, lane: u8, client: u32) -> Result<(), ClusterError>
        requires there { lane < LANES }
        requires session { HasSession self.old.sessions client }
        ensures ok { OnOk result (ActsOne R.segments self.old self.new (Asks lane client) [] None) }
        ensures err { IfErr result (WhereWorn (λ number. ActsOne R.segments self.old self.new (Asks lane client) [] (Some number))) }
        ensures short { OnErr result (IsShortOf self.old self.new) }
        ensures masters { masters_of self.new ≡ masters_of self.old }
        ensures backups { backups_of self.new ≡ backups_of self.old }
        ensures counts { CountsGoOn R.faults [] self.old self.new }
    {
        ask_in(
            &mut self.lanes,
            &mut self.sessions,
            self.masters,
            lane,
            client,
        )
    }

    /// The coordinators learn that a master has crashed. What the notice takes in each lane.
    pub fn notice(&mut self, master: u8) -> Result<Vec<Said>, ClusterError>
        ensures ok { IfOk result (λ said. IsCarriedOut R.segments self.old self.new
            (λ cluster. notice_code cluster master) (λ cluster. notice_makes cluster master) said.items) }
        ensures err { IfErr result (EndsIn R.segments self.old self.new (λ cluster. notice_code cluster master)
            (λ cluster. notice_makes cluster master)) }
        ensures backups { backups_of self.new ≡ backups_of self.old }
        ensures counts { CountsGoOn R.faults [] self.old self.new }
    {
        let alloc = self.alloc();
        let first = &self.lanes[0];
        // By the contract of `spent`, the lane's coordinator counts its masters.
        let _spent = first.spent();
        if master < 1 || master > self.masters {
            return Err(ClusterError::Code(Code::Unknown));
        }
        if !first.crashed(master) {
            return Err(ClusterError::Code(Code::Alive));
        }
        let deeds = in_all_lanes(Event::Notice(master));
        act_all(&mut self.lanes, self.masters, &deeds)?;
        Ok(nothing_said(alloc))
    }

    /// The message of a number is delivered, if it is on a lane's wire; it stays there. A client that has a session takes it
    /// itself, and what it says of its call then is answered, at most one thing; nobody takes a message for a client without
    /// one. Answered too is whether the message was lost at a backup, since the backup's replica failed. `NoMemory` may also
    /// come once the message is taken. What its receiver takes.
    pub fn deliver_in(&mut self, lane: u8, number: u64) -> Result<Delivered, ClusterError>
        requires { lane < LANES }
        ensures ok { IfOk result (λ delivered. BySomeFate R.faults self.old.lanes self.new.lanes (IsDelivery R.segments self.old self.new lane number delivered)) }
        ensures err { IfErr result (WhereWorn (λ worn. Delivers R.segments R.faults self.old self.new lane number [] (Some worn))) }
        ensures short { OnErr result (DeliversShort R.segments R.faults self.old self.new lane number) }
        ensures masters { masters_of self.new ≡ masters_of self.old }
        ensures backups { backups_of self.new ≡ backups_of self.old }
        ensures counts { CountsGoOn R.faults [] self.old self.new }
        ensures failed { IfOk result (λ delivered. delivered.failed ≡ true → SomeLaneFailed R.faults self.old.lanes self.new.lanes) }
    {
        deliver_in(
            &mut self.lanes,
            &mut self.sessions,
            self.masters,
            lane,
            number,
        )
    }

    /// The message at a place of a lane's wire, counted from 1, the oldest first, is delivered; it stays there. What a client
    /// that takes it says of its call is answered. A step for each message up to there, and what its receiver takes.
    pub fn deliver(&mut self, lane: u8, place: u32) -> Result<Vec<Said>, ClusterError>
        requires { lane < LANES }
        ensures ok { IfOk result (λ said. BySomeFate R.faults self.old.lanes self.new.lanes (λ fate. IsCarriedOut R.segments self.old self.new
            (λ cluster. place_code cluster lane place) (λ cluster. deliver_makes cluster lane place fate) said.items)) }
        ensures err { IfErr result (λ e. BySomeFate R.faults self.old.lanes self.new.lanes (λ fate. EndsIn R.segments self.old self.new
            (λ cluster. place_code cluster lane place) (λ cluster. deliver_makes cluster lane place fate) e)) }
        ensures backups { backups_of self.new ≡ backups_of self.old }
        ensures counts { CountsGoOn R.faults [] self.old self.new }
    {
        let alloc = self.alloc();
        let Some(number) = self.lanes[lane as usize].wire().at(place) else {
            return Err(ClusterError::Code(Code::NoPlace));
        };
        let delivered = self.deliver_in(lane, number)?;
        Ok(listed(alloc, delivered.said)?)
    }

    /// The message at a place of a lane's wire, counted from 1, the oldest first, is forgotten, even if the lane is worn. It takes
    /// no memory. A step for each message up to there.
    pub fn forget(&mut self, lane: u8, place: u32) -> Result<Vec<Said>, ClusterError>
        requires { lane < LANES }
        ensures ok { IfOk result (λ said. IsCarriedOut R.segments self.old self.new
            (λ cluster. place_code cluster lane place) (λ cluster. forget_makes cluster lane place) said.items) }
        ensures err { IfErr result (EndsIn R.segments self.old self.new (λ cluster. place_code cluster lane place)
            (λ cluster. forget_makes cluster lane place)) }
        ensures code { IfErr result IsOfCode }
        ensures backups { backups_of self.new ≡ backups_of self.old }
        ensures counts { CountsGoOn R.faults [] self.old self.new }
    {
        let alloc = self.alloc();
        let Some(number) = self.lanes[lane as usize].wire().at(place) else {
            return Err(ClusterError::Code(Code::NoPlace));
        };
        lose(&mut self.lanes, lane, number);
        Ok(nothing_said(alloc))
    }

    // Where what is made takes its memory.
    fn alloc(&self) -> Global {
        *self.lanes.allocator()
    }
}

// No client said anything.
fn nothing_said(alloc: Global) -> Vec<Said>
    ensures { result.items ≡ [] }
{
    Vec::new(alloc)
}
