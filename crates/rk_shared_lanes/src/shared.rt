// Eight lanes, each behind a lock of its own.
ghost use Rattle.std.specs.Prelude.{◌≡◌, ◌<◌, ◌≤◌, ◌&&◌, ◌==◌, [], ℕ, true, false, Ok, IfOk, IfSome, None, Option, vec_len, vec_capacity, length, reverse, map, is_some, All};
ghost use Rattle.std.specs.List.{range_with_len};
ghost use Rattle.std.specs.List.Sorted.{IsPermutation, IsNonDecreasingBy};
ghost use Rattle.rk_types.specs.declared.hashing.TheConstants.{LANES};
ghost use Rattle.rk_world.specs.Premises.{MayAct};
ghost use Rattle.rk_attempts.specs.Came.{IsAttempt, IsReplay, IsTurn};
ghost use Rattle.rk_attempts.specs.Ends.{EndsAt};
ghost use Rattle.rk_attempts.specs.Turns.{left_to_replays};
ghost use Rattle.rk_attempts.specs.declared.attempt.Attempt.TheVariants as attempts;
ghost use Rattle.rk_lane.specs.LaneState.{IsSameLane, world_with};
ghost use Rattle.rk_cluster.specs.Faults.{GoOn, counts_in};
ghost use Rattle.rk_shared.specs.Powers.{ALL_NUMBERS};
ghost use Rattle.rk_shared_lanes.specs.Passes.{MakesOnly, suits as suits_lem};
ghost use Rattle.rk_shared_lanes.specs.Together.{AllCounted, AllOrderly, AllSoundOrSpent, IsOfRoster, accepted_of, asked_of, calls_of, clients_of, numbers_of, powers_of, receipts_of, sessions_of};

use crate::gathering::{Returned, Taken};
use crate::kept::KeptLane;
use crate::pass::Pass;
use rk_attempts::{Attempt, Short};
use rk_lane::Lane;
use rk_outside::{Gate, Point, Replica};
use rk_session::Session;
use rk_shared::{Roster, Tally};
use rk_types::{LANES, Parcel};
use std::marker::PhantomData;
use std::sync::ledger::{Ledger, Share};
use std::sync::{Mutex, MutexGuard, Wait};

/// What is kept for the end: shares of no part, to which all others are added, and empty lists with room for the lanes and the sessions.
#[derive(Drop)]
pub(crate) struct Leftover<R, L: Ledger, M: Ledger, A: Ledger, B: Ledger, N: Roster> {
    pub(crate) lanes: Vec<Lane<R>>,
    pub(crate) sessions: Vec<Session>,
    pub(crate) accepted: Share<L>,
    pub(crate) got: Share<M>,
    pub(crate) asked: Share<A>,
    pub(crate) made: Share<B>,
    pub(crate) number: Share<N>,
    pub(crate) ghost room: { (lanes.items ≡ []) × (LANES ≤ vec_capacity lanes) },
    pub(crate) ghost room_for_sessions: { (sessions.items ≡ []) × (length N.clients ≤ vec_capacity sessions) },
    pub(crate) ghost no_accepted: { (accepted.parts ≡ 0) × (accepted.amount ≡ 0) },
    pub(crate) ghost no_got: { (got.parts ≡ 0) × (got.amount ≡ 0) },
    pub(crate) ghost no_asked: { (asked.parts ≡ 0) × (asked.amount ≡ 0) },
    pub(crate) ghost no_made: { (made.parts ≡ 0) × (made.amount ≡ 0) },
    pub(crate) ghost no_number: { (number.parts ≡ 0) × (number.amount ≡ 0) },
}

/// Eight lanes, each behind a lock of its own, and the tally behind one more, which is taken inside a lane's lock.
#[derive(Drop)]
pub struct SharedLanes<R: Replica, L: Ledger, M: Ledger, A: Ledger, B: Ledger, N: Roster> {
    pub(crate) lanes: Vec<Mutex<KeptLane<R, L, A, N>>>,
    pub(crate) tally: Mutex<Tally<L, M, A, B, N>>,
    pub(crate) leftover: Mutex<Leftover<R, L, M, A, B, N>>,
    pub(crate) ghost eight: { vec_len lanes ≡ LANES },
    pub(crate) ghost further: { (number place : ℕ) → LANES ≤ number → N.counts number place ≡ None },
}

/// Lanes by rising number, and sessions, that were gathered.
#[derive(Drop)]
pub struct Gathered<R> {
    pub lanes: Vec<Lane<R>>,
    pub sessions: Vec<Session>,
}

impl<R: Replica + Drop, L: Ledger, M: Ledger, A: Ledger, B: Ledger, N: Roster> SharedLanes<
    R,
    L,
    M,
    A,
    B,
    N,
> {
    /// Takes the lock of a lane. Which lane lies behind which lock no contract can say; work in another lane than its own changes nothing.
    pub fn hold<'a, X: Wait>(&'a self, rt: &X, lane: u8) -> MutexGuard<'a, KeptLane<R, L, A, N>>
        requires { lane < LANES }
    {
        // The lanes were put behind their locks from the last one on.
        self.lanes[(LANES - 1 - lane) as usize].lock(rt)
    }

    /// A client's attempt for its outstanding call, in a lane that the session fits and that was asked the call exactly if the pass counts
    /// it as asked; in any other lane nothing changes, and the client goes on waiting.
    pub fn attempt<X: Wait, G: Gate>(
        &self,
        rt: &X,
        kept: &mut KeptLane<R, L, A, N>,
        pass: &mut Pass<M, B, N>,
        gate: &G,
    ) -> Result<Attempt, Short>
        ensures came { (worn : Option ℕ) → EndsAt result worn → IfSome kept.old.running (λ running.
            suits_lem (world_with kept.old running []) pass.old ≡ true
            → IsAttempt R.segments kept.old kept.new pass.old.session pass.new.session result) }
        ensures waits { IfSome kept.old.running (λ running. suits_lem (world_with kept.old running []) pass.old ≡ false
            → (result ≡ Ok attempts.Waiting) × (kept.new ≡ kept.old) × (pass.new ≡ pass.old)) }
        ensures client { pass.new.session.client ≡ pass.old.session.client }
        ensures lane { IsSameLane kept.old kept.new }
    {
        gate.at(kept.lane().number(), Point::ClientStep);
        if kept.lane().spent() {
            return Err(Short::NoMemory);
        }
        if !kept.suits(pass) {
            return Ok(Attempt::Waiting);
        }
        kept.attempt(rt, &self.tally, pass)
    }

    /// A turn of a lane.
    pub fn turn<G: Gate>(
        &self,
        kept: &mut KeptLane<R, L, A, N>,
        gate: &G,
    ) -> Result<Vec<u64>, Short>
        ensures came { (worn : Option ℕ) → EndsAt result worn → IsTurn R.segments kept.old kept.new worn }
        ensures left { IfOk result (λ numbers. IfSome kept.new.running (λ running. numbers.items ≡ left_to_replays (world_with kept.new running []))) }
        ensures lane { IsSameLane kept.old kept.new }
    {
        gate.at(kept.lane().number(), Point::TurnTaken);
        kept.turn()
    }

    /// Delivers the message of a parcel in its lane and forgets it, if it is there and for a node; in any other lane nothing changes.
    pub fn replay<G: Gate>(
        &self,
        kept: &mut KeptLane<R, L, A, N>,
        parcel: Parcel,
        gate: &G,
    ) -> Result<(), Short>
        ensures came { (worn : Option ℕ) → EndsAt result worn → kept.old.number ≡ parcel.lane → IsReplay R.segments kept.old kept.new parcel.number worn }
        ensures elsewhere { (kept.old.number == parcel.lane) ≡ false → (result ≡ Ok tt) × (kept.new ≡ kept.old) }
        ensures lane { IsSameLane kept.old kept.new }
    {
        gate.at(kept.lane().number(), Point::PullReplayed);
        if kept.lane().number() != parcel.lane {
            return Ok(());
        }
        kept.replay(parcel.number)
    }

    /// Takes the locks apart once all passes are back: the lanes by rising number, each with the clients of the sessions, and the sessions
    /// in their order. As many receipts were got as records are accepted, if that is taken for granted of the replicas, and at most as many
    /// calls were asked of lanes as the sessions made. No count of faults of a replica has fallen. It takes no memory.
    pub fn gather(self, passes: Vec<Pass<M, B, N>>) -> Gathered<R>
        requires lanes { (L.parts ≡ LANES) × (A.parts ≡ LANES) × (N.parts ≡ LANES) }
        requires passes { (M.parts ≡ vec_len passes) × (B.parts ≡ vec_len passes) }
        requires clients { reverse (clients_of (sessions_of passes.items)) ≡ N.clients }
        ensures numbers { numbers_of result.lanes.items ≡ range_with_len 0 LANES }
        ensures accepted { N.tells → receipts_of result.sessions.items ≡ accepted_of result.lanes.items }
        ensures asked { asked_of result.lanes.items ≤ calls_of result.sessions.items }
        ensures sessions { result.sessions.items ≡ reverse (sessions_of passes.items) }
        ensures acts { All (MayAct N.masters) result.sessions.items }
        ensures orderly { N.tells → AllOrderly result.sessions.items }
        ensures calls { N.tells → All (MakesOnly N.makes) result.sessions.items }
        ensures counts { GoOn [] N.counts (counts_in R.faults result.lanes.items) }
        ensures counted { N.tells → AllCounted result.lanes.items }
        ensures roster { All (IsOfRoster N.masters N.backups N.clients) result.lanes.items }
        ensures sound { N.tells → AllSoundOrSpent R.segments result.lanes.items }
    {
        let SharedLanes {
            lanes,
            tally,
            leftover,
        } = self;
        let Leftover {
            lanes: no_lanes,
            sessions: no_sessions,
            accepted,
            got,
            asked,
            made,
            number,
        } = leftover.into_inner();
        let mut taken = Taken {
            lanes: no_lanes,
            accepted,
            asked,
            number,
        };
        taken.take_all(lanes);
        let mut returned = Returned {
            sessions: no_sessions,
            got,
            made,
            marker: PhantomData,
        };
        returned.take_all(passes);
        let mut tally = tally.into_inner();
        tally.balance(
            &mut taken.accepted,
            &mut returned.got,
            &mut taken.asked,
            &mut returned.made,
            &mut taken.number,
        );
        Gathered {
            lanes: in_order(taken.lanes),
            sessions: returned.sessions,
        }
    }
}

// Eight lanes whose powers of nine add up to those of 0 to 7, by rising number.
fn in_order<R: Replica + Drop>(lanes: Vec<Lane<R>>) -> Vec<Lane<R>>
    requires count { length lanes.items ≡ LANES }
    requires few { All (λ lane. lane.number < LANES) lanes.items }
    requires powers { powers_of lanes.items ≡ ALL_NUMBERS }
    ensures numbers { numbers_of result.items ≡ range_with_len 0 LANES }
    ensures permutation { IsPermutation lanes.items result.items }
{
    let mut lanes = lanes;
    sort(lanes.as_mut_slice());
    lanes
}

// Sorts lanes by their numbers.
fn sort<R: Replica + Drop>(lanes: &mut [Lane<R>])
    ensures permutation { IsPermutation lanes.old lanes.new }
    ensures sorted { IsNonDecreasingBy (λ lane. lane.number) lanes.new }
    ensures len { length lanes.new ≡ length lanes.old }
{
    lanes.sort_unstable_by_key(|lane| lane.number());
}
