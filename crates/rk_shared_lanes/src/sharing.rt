// How lanes and sessions get their locks, passes and shares.
ghost use Rattle.std.specs.Prelude.{◌≡◌, ◌+◌, ◌^◌, ◌<◌, ◌≤◌, ◌++◌, ◌∷◌, [], vec_len, vec_capacity, length, reverse, IfOk, All};
ghost use Rattle.std.specs.List.{range_with_len};
ghost use Rattle.rk_types.specs.declared.hashing.TheConstants.{LANES};
ghost use Rattle.rk_world.specs.Premises.{MayAct};
ghost use Rattle.rk_cluster.specs.Faults.{GoOn, counts_in};
ghost use Rattle.rk_shared_lanes.specs.Kept.{IsNoneBelow, IsSoundOrSpent};
ghost use Rattle.rk_shared_lanes.specs.Together.{AllSoundOrSpent, IsIdle, IsOfRoster, IsUnasked, clients_of, numbers_of, powers_of, sessions_of};

use crate::kept::KeptLane;
use crate::pass::Pass;
use crate::shared::{Leftover, SharedLanes};
use rk_lane::Lane;
use rk_outside::Replica;
use rk_session::Session;
use rk_shared::{DoubleEntry, Opened, Roster, Tally};
use rk_types::NoMemory;
use std::alloc::Global;
use std::marker::PhantomData;
use std::sync::Mutex;
use std::sync::ledger::{Blank, Book, Ledger, Share};

/// The blanks of the ledgers: of the records that lanes accept and the receipts that clients get, of the calls that lanes are asked and
/// that clients make, and of the numbers of lanes.
#[derive(Drop)]
pub struct Blanks {
    pub accepted: Blank,
    pub got: Blank,
    pub asked: Blank,
    pub made: Blank,
    pub numbers: Blank,
}

// Lanes behind locks, and what is left of the shares.
#[derive(Drop)]
struct Locking<R: Replica, L: Ledger, A: Ledger, N: Roster> {
    locks: Vec<Mutex<KeptLane<R, L, A, N>>>,
    accepted: Share<L>,
    asked: Share<A>,
    numbers: Book<N>,
    number: Share<N>,
}

impl<R: Replica + Drop, L: Ledger, A: Ledger, N: Roster> Locking<R, L, A, N> {
    // Puts lanes behind locks, the last one first.
    fn lock_all(&mut self, alloc: Global, masters: u8, lanes: &mut Vec<Lane<R>>)
        requires masters { masters ≡ N.masters }
        requires unasked { All IsUnasked lanes.old.items }
        requires few { All (λ lane. lane.number < LANES) lanes.old.items }
        requires roster { All (IsOfRoster N.masters N.backups N.clients) lanes.old.items }
        requires counts { All (IsNoneBelow R.faults N.counts) lanes.old.items }
        requires sound { N.tells → AllSoundOrSpent R.segments lanes.old.items }
        requires room { (self.old.locks.items ≡ []) × (vec_len lanes.old ≤ vec_capacity self.old.locks) }
        requires parts { (self.old.accepted.parts ≡ vec_len lanes.old) × (self.old.asked.parts ≡ vec_len lanes.old) × (self.old.number.parts ≡ vec_len lanes.old) }
        requires none { (self.old.accepted.amount ≡ 0) × (self.old.asked.amount ≡ 0) × (self.old.number.amount ≡ 0) }
        requires total { self.old.numbers.total ≡ 0 }
        ensures empty { (lanes.new.items ≡ []) × (vec_capacity lanes.new ≡ vec_capacity lanes.old) }
        ensures count { vec_len self.new.locks ≡ vec_len lanes.old }
        ensures total { self.new.numbers.total ≡ powers_of lanes.old.items }
        ensures parts { (self.new.accepted.parts ≡ 0) × (self.new.asked.parts ≡ 0) × (self.new.number.parts ≡ 0) }
        ensures none { (self.new.accepted.amount ≡ 0) × (self.new.asked.amount ≡ 0) × (self.new.number.amount ≡ 0) }
    {
        while let Some(lane) = lanes.pop() {
            self.lock(alloc, masters, lane);
        }
    }

    // A lane gets its shares and its lock.
    fn lock(&mut self, alloc: Global, masters: u8, lane: Lane<R>)
        requires masters { masters ≡ N.masters }
        requires unasked { IsUnasked lane }
        requires few { lane.number < LANES }
        requires roster { IsOfRoster N.masters N.backups N.clients lane }
        requires counts { IsNoneBelow R.faults N.counts lane }
        requires sound { N.tells → IsSoundOrSpent R.segments lane }
        requires room { vec_len self.old.locks < vec_capacity self.old.locks }
        requires parts { (0 < self.old.accepted.parts) × (0 < self.old.asked.parts) × (0 < self.old.number.parts) }
        requires none { (self.old.accepted.amount ≡ 0) × (self.old.asked.amount ≡ 0) × (self.old.number.amount ≡ 0) }
        ensures room { vec_capacity self.new.locks ≡ vec_capacity self.old.locks }
        ensures count { vec_len self.new.locks ≡ vec_len self.old.locks + 1 }
        ensures parts { (self.new.accepted.parts + 1 ≡ self.old.accepted.parts) × (self.new.asked.parts + 1 ≡ self.old.asked.parts) × (self.new.number.parts + 1 ≡ self.old.number.parts) }
        ensures none { (self.new.accepted.amount ≡ 0) × (self.new.asked.amount ≡ 0) × (self.new.number.amount ≡ 0) }
        ensures numbers { self.new.numbers.total ≡ self.old.numbers.total + 9 ^ lane.number }
    {
        let accepted = self.accepted.split_off(1, 0);
        let asked = self.asked.split_off(1, 0);
        let mut number = self.number.split_off(1, 0);
        self.numbers.add(&mut number, power_of_nine(lane.number()));
        self.locks.push_reserved(Mutex::new(KeptLane {
            lane,
            masters,
            alloc,
            accepted,
            asked,
            number,
        }));
    }
}

// A power of nine.
fn power_of_nine(number: u8) -> u64
    requires { number < LANES }
    ensures { result ≡ 9 ^ number }
{
    9u64.pow(number as u32)
}

// Sessions in passes, and what is left of the shares.
#[derive(Drop)]
struct Passing<M: Ledger, B: Ledger, N: Roster> {
    passes: Vec<Pass<M, B, N>>,
    got: Share<M>,
    made: Share<B>,
}

impl<M: Ledger, B: Ledger, N: Roster> Passing<M, B, N> {
    // Puts sessions into passes, the last one first.
    fn pass_all(&mut self, sessions: &mut Vec<Session>)
        requires idle { All IsIdle sessions.old.items }
        requires acts { All (MayAct N.masters) sessions.old.items }
        requires room { (self.old.passes.items ≡ []) × (vec_len sessions.old ≤ vec_capacity self.old.passes) }
        requires parts { (self.old.got.parts ≡ vec_len sessions.old) × (self.old.made.parts ≡ vec_len sessions.old) }
        requires none { (self.old.got.amount ≡ 0) × (self.old.made.amount ≡ 0) }
        ensures empty { (sessions.new.items ≡ []) × (vec_capacity sessions.new ≡ vec_capacity sessions.old) }
        ensures sessions { sessions_of self.new.passes.items ≡ reverse sessions.old.items }
        ensures parts { (self.new.got.parts ≡ 0) × (self.new.made.parts ≡ 0) }
        ensures none { (self.new.got.amount ≡ 0) × (self.new.made.amount ≡ 0) }
    {
        while let Some(session) = sessions.pop() {
            self.pass(session);
        }
    }

    // A session gets its shares.
    fn pass(&mut self, session: Session)
        requires idle { IsIdle session }
        requires acts { MayAct N.masters session }
        requires room { vec_len self.old.passes < vec_capacity self.old.passes }
        requires parts { (0 < self.old.got.parts) × (0 < self.old.made.parts) }
        requires none { (self.old.got.amount ≡ 0) × (self.old.made.amount ≡ 0) }
        ensures room { vec_capacity self.new.passes ≡ vec_capacity self.old.passes }
        ensures sessions { sessions_of self.new.passes.items ≡ sessions_of self.old.passes.items ++ session ∷ [] }
        ensures parts { (self.new.got.parts + 1 ≡ self.old.got.parts) × (self.new.made.parts + 1 ≡ self.old.made.parts) }
        ensures none { (self.new.got.amount ≡ 0) × (self.new.made.amount ≡ 0) }
    {
        let got = self.got.split_off(1, 0);
        let made = self.made.split_off(1, 0);
        self.passes.push_reserved(Pass {
            session,
            counted: false,
            got,
            made,
            marker: PhantomData,
        });
    }
}

/// Puts each of eight lanes that were asked no call behind its own lock, and each session, of a client of these lanes that asked nothing,
/// into a pass; the last session first. No replica's count of faults is below that of the roster. After `NoMemory` all are dropped.
pub fn share<R: Replica + Drop, L: Ledger, M: Ledger, A: Ledger, B: Ledger, N: Roster>(
    alloc: Global,
    masters: u8,
    lanes: Vec<Lane<R>>,
    sessions: Vec<Session>,
    blanks: Blanks,
) -> Result<(SharedLanes<R, L, M, A, B, N>, Vec<Pass<M, B, N>>), NoMemory>
    requires lane_names { (blanks.accepted.name ≡ L.name) × (blanks.asked.name ≡ A.name) × (blanks.numbers.name ≡ N.name) }
    requires session_names { (blanks.got.name ≡ M.name) × (blanks.made.name ≡ B.name) }
    requires lane_parts { (blanks.accepted.parts ≡ L.parts) × (blanks.asked.parts ≡ A.parts) × (blanks.numbers.parts ≡ N.parts) }
    requires session_parts { (blanks.got.parts ≡ M.parts) × (blanks.made.parts ≡ B.parts) }
    requires eight { (L.parts ≡ LANES) × (A.parts ≡ LANES) × (N.parts ≡ LANES) }
    requires each { (M.parts ≡ vec_len sessions) × (B.parts ≡ vec_len sessions) }
    requires lanes { numbers_of lanes.items ≡ range_with_len 0 LANES }
    requires unasked { All IsUnasked lanes.items }
    requires idle { All IsIdle sessions.items }
    requires masters { masters ≡ N.masters }
    requires clients { clients_of sessions.items ≡ N.clients }
    requires roster { All (IsOfRoster N.masters N.backups N.clients) lanes.items }
    requires acts { All (MayAct N.masters) sessions.items }
    requires counts { GoOn [] N.counts (counts_in R.faults lanes.items) }
    requires sound { N.tells → AllSoundOrSpent R.segments lanes.items }
    ensures sessions { IfOk result (λ r. sessions_of r.1.items ≡ reverse sessions.items) }
{
    let mut lanes = lanes;
    let mut sessions = sessions;
    let locks = Vec::with_capacity(alloc, lanes.len())?;
    let passes = Vec::with_capacity(alloc, sessions.len())?;
    let Opened {
        entry: accepted,
        lane: accepted_share,
        client: got,
    } = DoubleEntry::<L, M>::open(blanks.accepted, blanks.got);
    let Opened {
        entry: asked,
        lane: asked_share,
        client: made,
    } = DoubleEntry::<A, B>::open(blanks.asked, blanks.made);
    let (numbers, number) = blanks.numbers.open::<N>();
    let mut locking = Locking {
        locks,
        accepted: accepted_share,
        asked: asked_share,
        numbers,
        number,
    };
    locking.lock_all(alloc, masters, &mut lanes);
    let mut passing = Passing { passes, got, made };
    passing.pass_all(&mut sessions);
    let leftover = Leftover {
        lanes,
        sessions,
        accepted: locking.accepted,
        got: passing.got,
        asked: locking.asked,
        made: passing.made,
        number: locking.number,
    };
    let shared = SharedLanes {
        lanes: locking.locks,
        tally: Mutex::new(Tally::new(accepted, asked, locking.numbers)),
        leftover: Mutex::new(leftover),
    };
    Ok((shared, passing.passes))
}
