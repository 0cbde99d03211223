// Lanes and sessions taken out of their locks and passes.
ghost use Rattle.std.specs.Prelude.{◌≡◌, ◌+◌, ◌^◌, ◌<◌, ◌≤◌, ◌++◌, ◌∷◌, [], vec_len, vec_capacity, length, reverse, All};
ghost use Rattle.rk_types.specs.declared.hashing.TheConstants.{LANES};
ghost use Rattle.rk_world.specs.Premises.{MayAct};
ghost use Rattle.rk_laws_lanes.specs.Below.{waiting};
ghost use Rattle.rk_laws_lanes.specs.Counts.{accepted_count};
ghost use Rattle.rk_laws_lanes.specs.gathered.Gathered.{IsOrderly};
ghost use Rattle.rk_laws_lanes.specs.gathered.OpenCalls.{HasCountedCalls};
ghost use Rattle.rk_shared_lanes.specs.Kept.{IsNoneBelow, IsSoundOrSpent};
ghost use Rattle.rk_shared_lanes.specs.Passes.{MakesOnly};
ghost use Rattle.rk_shared_lanes.specs.Together.{AllCounted, AllOrderly, AllSoundOrSpent, IsOfRoster, accepted_of, asked_of, calls_of, powers_of, receipts_of, sessions_of};

use crate::kept::KeptLane;
use crate::pass::Pass;
use rk_lane::Lane;
use rk_outside::Replica;
use rk_session::Session;
use rk_shared::Roster;
use std::marker::PhantomData;
use std::sync::Mutex;
use std::sync::ledger::{Ledger, Share};

/// Lanes, beside the shares of all of them.
#[derive(Drop)]
pub(crate) struct Taken<R: Replica, L: Ledger, A: Ledger, N: Roster> {
    pub(crate) lanes: Vec<Lane<R>>,
    pub(crate) accepted: Share<L>,
    pub(crate) asked: Share<A>,
    pub(crate) number: Share<N>,
}

impl<R: Replica + Drop, L: Ledger, A: Ledger, N: Roster> Taken<R, L, A, N> {
    /// Takes lanes out of their locks, the last one first.
    pub(crate) fn take_all(&mut self, locks: Vec<Mutex<KeptLane<R, L, A, N>>>)
        requires none { (self.old.accepted.parts ≡ 0) × (self.old.accepted.amount ≡ 0) }
        requires no_asked { (self.old.asked.parts ≡ 0) × (self.old.asked.amount ≡ 0) }
        requires no_number { (self.old.number.parts ≡ 0) × (self.old.number.amount ≡ 0) }
        requires empty { self.old.lanes.items ≡ [] }
        requires room { vec_len locks ≤ vec_capacity self.old.lanes }
        ensures count { length self.new.lanes.items ≡ vec_len locks }
        ensures accepted { (self.new.accepted.parts ≡ vec_len locks) × (N.tells → self.new.accepted.amount ≡ accepted_of self.new.lanes.items) }
        ensures asked { (self.new.asked.parts ≡ vec_len locks) × (self.new.asked.amount ≡ asked_of self.new.lanes.items) }
        ensures number { (self.new.number.parts ≡ vec_len locks) × (self.new.number.amount ≡ powers_of self.new.lanes.items) }
        ensures few { All (λ lane. lane.number < LANES) self.new.lanes.items }
        ensures roster { All (IsOfRoster N.masters N.backups N.clients) self.new.lanes.items }
        ensures counts { All (IsNoneBelow R.faults N.counts) self.new.lanes.items }
        ensures counted { N.tells → AllCounted self.new.lanes.items }
        ensures sound { N.tells → AllSoundOrSpent R.segments self.new.lanes.items }
    {
        let mut locks = locks;
        while let Some(lock) = locks.pop() {
            self.take(lock.into_inner());
        }
    }

    // Takes one lane more, with its shares.
    fn take(&mut self, kept: KeptLane<R, L, A, N>)
        requires { vec_len self.old.lanes < vec_capacity self.old.lanes }
        ensures room { vec_capacity self.new.lanes ≡ vec_capacity self.old.lanes }
        ensures lanes { self.new.lanes.items ≡ self.old.lanes.items ++ kept ∷ [] }
        ensures accepted { (self.new.accepted.parts ≡ self.old.accepted.parts + 1) × (N.tells → self.new.accepted.amount ≡ self.old.accepted.amount + accepted_count kept.ledger) }
        ensures asked { (self.new.asked.parts ≡ self.old.asked.parts + 1) × (self.new.asked.amount ≡ self.old.asked.amount + kept.ledger.asked) }
        ensures number { (self.new.number.parts ≡ self.old.number.parts + 1) × (self.new.number.amount ≡ self.old.number.amount + 9 ^ kept.number) }
        ensures few { kept.number < LANES }
        ensures roster { IsOfRoster N.masters N.backups N.clients kept }
        ensures counts { IsNoneBelow R.faults N.counts kept }
        ensures counted { N.tells → HasCountedCalls kept.ledger }
        ensures sound { N.tells → IsSoundOrSpent R.segments kept }
    {
        let KeptLane {
            lane,
            accepted,
            asked,
            number,
            ..
        } = kept;
        self.accepted.merge(accepted);
        self.asked.merge(asked);
        self.number.merge(number);
        self.lanes.push_reserved(lane);
    }
}

/// Sessions, beside the shares of all of them.
#[derive(Drop)]
pub(crate) struct Returned<M: Ledger, B: Ledger, N: Roster> {
    pub(crate) sessions: Vec<Session>,
    pub(crate) got: Share<M>,
    pub(crate) made: Share<B>,
    pub(crate) marker: PhantomData<N>,
}

impl<M: Ledger, B: Ledger, N: Roster> Returned<M, B, N> {
    /// Takes sessions out of their passes, the last one first.
    pub(crate) fn take_all(&mut self, passes: Vec<Pass<M, B, N>>)
        requires none { (self.old.got.parts ≡ 0) × (self.old.got.amount ≡ 0) }
        requires no_made { (self.old.made.parts ≡ 0) × (self.old.made.amount ≡ 0) }
        requires empty { self.old.sessions.items ≡ [] }
        requires room { vec_len passes ≤ vec_capacity self.old.sessions }
        ensures sessions { self.new.sessions.items ≡ reverse (sessions_of passes.items) }
        ensures got { (self.new.got.parts ≡ vec_len passes) × (self.new.got.amount ≡ receipts_of self.new.sessions.items) }
        ensures made { (self.new.made.parts ≡ vec_len passes) × (self.new.made.amount ≤ calls_of self.new.sessions.items) }
        ensures acts { All (MayAct N.masters) self.new.sessions.items }
        ensures orderly { N.tells → AllOrderly self.new.sessions.items }
        ensures calls { N.tells → All (MakesOnly N.makes) self.new.sessions.items }
    {
        let mut passes = passes;
        while let Some(pass) = passes.pop() {
            self.take(pass);
        }
    }

    // Takes one session more, with its shares.
    fn take(&mut self, pass: Pass<M, B, N>)
        requires { vec_len self.old.sessions < vec_capacity self.old.sessions }
        ensures room { vec_capacity self.new.sessions ≡ vec_capacity self.old.sessions }
        ensures sessions { self.new.sessions.items ≡ self.old.sessions.items ++ pass.session ∷ [] }
        ensures got { (self.new.got.parts ≡ self.old.got.parts + 1) × (self.new.got.amount ≡ self.old.got.amount + length pass.session.receipts) }
        ensures made { (self.new.made.parts ≡ self.old.made.parts + 1)
            × (self.new.made.amount ≤ self.old.made.amount + (length pass.session.receipts + waiting pass.session.outstanding)) }
        ensures acts { MayAct N.masters pass.session }
        ensures orderly { N.tells → IsOrderly pass.session.client pass.session }
        ensures calls { N.tells → MakesOnly N.makes pass.session }
    {
        let Pass {
            session,
            got,
            made,
            ..
        } = pass;
        self.got.merge(got);
        self.made.merge(made);
        self.sessions.push_reserved(session);
    }
}
