ghost use Rattle.std.specs.Prelude.{◌≡◌, ◌≢◌, ◌≤◌, [], true, All, length, is_some, not, Some, IfOk, IfErr, IfSome, OnErr};
ghost use Rattle.std.specs.List.{count_by};
ghost use Rattle.rk_types.specs.NumberMap.{NumberMap};
ghost use Rattle.rk_outside.specs.Segments.{Segments};
ghost use Rattle.rk_log.specs.declared.copied.TheConstants.{MOST_BACKUPS};
ghost use Rattle.rk_model.specs.Merged.{IsRisingAbove};
ghost use Rattle.rk_world.specs.Backup.{no_segments};
ghost use Rattle.rk_world.specs.Coordinator.{is_noticed};
ghost use Rattle.rk_world.specs.Ledger.{new_ledger};
ghost use Rattle.rk_world.specs.Premises.{IsMaster, MOST_MASTERS};
ghost use Rattle.rk_world.specs.Runs.{IsFormedWithRoom, lives_another as lives_another_lem};
ghost use Rattle.rk_world.specs.World.{bytes_of_logs, has_crashed, master_at, new_backups, new_world};
ghost use Rattle.rk_ledger.specs.Values.{value_bytes};
ghost use Rattle.rk_lane.specs.LaneState.{AreTold, replicas_of, world_with};
ghost use Rattle.rk_lane.specs.Lane.{AreNumbered};
ghost use Rattle.rk_lane.specs.Requests.{AreForMasters};
ghost use Rattle.rk_lane.specs.Resting.{IsResting};

use crate::copies::copy_records;
use crate::parts::{Parts, lives_another};
use crate::resting::rests;
use rk_backup::BackupLane;
use rk_master::MasterLane;
use rk_message::Wire;
use rk_outside::Replica;
use rk_tablet_map::TabletMap;
use rk_types::{NoMemory, Placed};
use std::alloc::Global;
use std::marker::Model;

mod steps;
mod visits;

/// One lane of the cluster: its masters, its coordinator, its backups over their replicas, the wire and the ledger.
/// Contracts see its number, how many masters it has, its ledger, what runs in it, and its backups; nothing runs in a lane
/// that is spent: it ran out of memory within an event, and answers `NoMemory` from then on.
pub struct Lane<R> {
    parts: Parts,
    backups: Vec<BackupLane<R>>,
    // Where the replicas are put when they are given back; empty until then.
    replicas: Vec<R>,
    spent: bool,
}

// No derive, so that to drop a lane is a call in proofs, and no walk through all that it holds.
impl<R: Drop> Drop for Lane<R> {
    fn drop(self) {
        let Lane {
            parts: _,
            backups: _,
            replicas: _,
            spent: _,
        } = self;
    }
}

impl<R> Model for Lane<R> {
    ghost use Rattle.rk_lane.specs.LaneState.{LaneState};

    ghost Value = { LaneState R };

    ghost use Rattle.rk_lane.specs.Lane.{lane_of, IsLane};

    ghost view = { lane_of };

    ghost invariant = { IsLane };
}

impl<R: Replica + Drop> Lane<R> {
    /// A lane of this number where nothing has happened, with so many masters, numbered from 1, and a backup for each
    /// replica, numbered from 1 in their order. If replicas report that no segment was ever written, that is what its
    /// backups store.
    pub fn new(
        alloc: Global,
        number: u8,
        masters: u8,
        replicas: Vec<R>,
    ) -> Result<Lane<R>, NoMemory>
        requires few_masters { masters ≤ MOST_MASTERS }
        requires backed { 1 ≤ length replicas.items }
        requires few_backups { length replicas.items ≤ MOST_BACKUPS }
        ensures world { IfOk result (λ lane. IfSome lane.running (λ running.
            world_with lane running [] ≡ record (new_world number masters (length replicas.items)) { backups = [] })) }
        ensures runs { IfOk result (λ lane. is_some lane.running ≡ true) }
        ensures number { IfOk result (λ lane. lane.number ≡ number) }
        ensures masters { IfOk result (λ lane. lane.masters ≡ masters) }
        ensures ledger { IfOk result (λ lane. lane.ledger ≡ new_ledger) }
        ensures replicas { IfOk result (λ lane. replicas_of lane.backups ≡ replicas.items) }
        ensures told { IfOk result (λ lane. All (λ replica. R.segments replica ≡ Some no_segments) replicas.items
            → AreTold R.segments lane.backups (new_backups (length replicas.items))) }
    {
        let count = replicas.len();
        let given_back = Vec::with_capacity(alloc, count)?;
        Ok(Lane {
            parts: Parts::new(alloc, number, masters, count as u8)?,
            backups: numbered(alloc, replicas)?,
            replicas: given_back,
            spent: false,
        })
    }

    /// The number of the lane.
    pub fn number(&self) -> u8
        ensures { result ≡ self.now.number }
    {
        self.parts.number
    }

    /// Whether the lane is spent: memory was wanting within an event. What is known of each other one: its world is well
    /// formed and has room, its coordinator counts its masters, and the last request of each client is for a master.
    pub fn spent(&self) -> bool
        ensures spent { result ≡ not (is_some self.now.running) }
        ensures formed { IfSome self.now.running (λ running. IsFormedWithRoom (world_with self.now running [])) }
        ensures masters { IfSome self.now.running (λ running. running.coordinator.masters ≡ self.now.masters) }
        ensures requests { IfSome self.now.running (λ _. AreForMasters self.now.ledger.requests) }
    {
        self.spent
    }

    /// The journal: the records of the calls that were carried out, oldest first, by rising stamps; lent.
    pub fn journal(&self) -> &[Placed]
        ensures value { result.now ≡ self.now.ledger.journal }
        ensures rising { IsRisingAbove 0 self.now.ledger.journal }
    {
        self.parts.ledger.journal()
    }

    /// The journal in a list of its own. A copy of each record.
    pub fn copy_journal(&self) -> Result<Vec<Placed>, NoMemory>
        ensures { IfOk result (λ journal. journal.items ≡ self.now.ledger.journal) }
    {
        copy_records(self.alloc(), self.parts.ledger.journal())
    }

    /// The bytes of the values in the calls and outcomes of the journal; they are kept, not counted. One step.
    pub fn value_bytes(&self) -> u64
        ensures { result ≡ value_bytes self.now.ledger.journal }
    {
        self.parts.ledger.value_bytes()
    }

    /// The rows of all tablets, of a lane that is not spent.
    pub fn rows(&self) -> &TabletMap
        ensures { IfSome self.now.running (λ running. result.now ≡ running.coordinator.rows) }
    {
        self.parts.coordinator.map()
    }

    /// How many calls were asked here.
    pub fn asked(&self) -> u64
        ensures { result ≡ self.now.ledger.asked }
    {
        self.parts.ledger.asked()
    }

    /// How many records of the journal are accepted; that is kept, not counted.
    pub fn accepted(&self) -> u64
        ensures { result ≡ count_by (λ placed. placed.accepted) self.now.ledger.journal }
    {
        self.parts.ledger.accepted()
    }

    /// The greatest number that has been in a lane that is not spent: of messages, stamps, terms and counters. It is kept,
    /// not computed.
    pub fn top(&self) -> u64
        ensures { IfSome self.now.running (λ running. result ≡ running.top) }
    {
        self.parts.top
    }

    /// The bytes of all masters' logs, crashed masters' too, of a lane that is not spent; kept, not computed.
    pub fn log_bytes(&self) -> u64
        ensures { IfSome self.now.running (λ running. result ≡ bytes_of_logs (world_with self.now running [])) }
    {
        self.parts.log_bytes
    }

    /// The wire of a lane that is not spent.
    pub fn wire(&self) -> &Wire
        ensures { IfSome self.now.running (λ running. result.now ≡ running.wire) }
    {
        &self.parts.wire
    }

    /// A master of a lane that is not spent, crashed or not.
    pub fn master(&self, number: u8) -> &MasterLane
        requires { IsMaster self.now.masters number }
        ensures { IfSome self.now.running (λ running. result.now ≡ Some (master_at (world_with self.now running []) number)) }
    {
        &self.parts.masters[number as usize - 1]
    }

    /// Whether a master has crashed, in a lane that is not spent. A step for each master that has.
    pub fn crashed(&self, master: u8) -> bool
        ensures { IfSome self.now.running (λ running. result ≡ has_crashed (world_with self.now running []) master) }
    {
        self.parts.has_crashed(master)
    }

    /// Whether another master than this one lives, in a lane that is not spent: only then may this one crash. A step for
    /// each master, and for each that has crashed.
    pub fn lives_another(&self, master: u8) -> bool
        ensures { IfSome self.now.running (λ running. result ≡ lives_another_lem (world_with self.now running []) master) }
    {
        lives_another(&self.parts, master)
    }

    /// Whether the coordinator of a lane that is not spent noticed a master dead. A step for each master that it did.
    pub fn noticed(&self, master: u8) -> bool
        ensures { IfSome self.now.running (λ running. result ≡ is_noticed running.coordinator master) }
    {
        self.parts.coordinator.noticed(master)
    }

    /// Whether no turn of the coordinator or of a master that lives would leave anything in the lane, as far as a look shows; false if the
    /// lane is worn or spent. A look at each row, each master, and each of its tablets and backups.
    pub fn rests(&self) -> bool
        ensures { result ≡ true → IfSome self.now.running (λ running. (stored : NumberMap Segments)
            → IsResting (world_with self.now running stored)) }
    {
        !self.spent && rests(&self.parts)
    }

    /// The replicas, in the order of the backups, also of a spent lane. Takes no memory.
    pub fn into_replicas(self) -> Vec<R>
        ensures { result.items ≡ replicas_of self.backups }
    {
        let Lane {
            parts: _,
            backups,
            mut replicas,
            spent: _,
        } = self;
        for backup in backups {
            replicas.push_reserved(backup.into_replica());
        }
        replicas
    }

    // Where what is made takes its memory.
    fn alloc(&self) -> Global {
        *self.backups.allocator()
    }
}

// Backups of these replicas, numbered from 1.
fn numbered<R: Replica + Drop>(
    alloc: Global,
    replicas: Vec<R>,
) -> Result<Vec<BackupLane<R>>, NoMemory>
    requires { length replicas.items ≤ MOST_BACKUPS }
    ensures numbered { IfOk result (λ backups. AreNumbered backups.items) }
    ensures replicas { IfOk result (λ backups. replicas_of backups.items ≡ replicas.items) }
{
    let mut backups = Vec::with_capacity(alloc, replicas.len())?;
    let mut number = 1;
    for replica in replicas {
        backups.push_reserved(BackupLane::new(number, replica));
        number += 1;
    }
    Ok(backups)
}
