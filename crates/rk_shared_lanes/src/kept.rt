// What lies behind the lock of a lane.
ghost use Rattle.std.specs.Prelude.{◌≡◌, ◌≢◌, ◌&&◌, if◌then◌else◌, [], false, true, not, None, Err, IfOk, IfErr, IfSome, OnErr, OnOk};
ghost use Rattle.rk_types.specs.NumberMap.{get};
ghost use Rattle.rk_world.specs.Calls as calls;
ghost use Rattle.rk_world.specs.Refusals.{accept_refusal, ask_refusal, comes_anyway};
ghost use Rattle.rk_lane.specs.Events.{IsRefused, IsStepOf, MayComeTo};
ghost use Rattle.rk_lane.specs.LaneState.{IsSameLane, world_with};
ghost use Rattle.rk_lane.specs.Visits.{IsRefusedFor, IsVisitOf};
ghost use Rattle.rk_laws_lanes.specs.Counts.{AddsNoClient};
ghost use Rattle.rk_shared_lanes.specs.Counting.{is_answer};
ghost use Rattle.rk_shared_lanes.specs.Passes.{Suits, suits as suits_lem};

use crate::counting::{count_answered, count_asked};
use crate::pass::Pass;
use rk_lane::Lane;
use rk_outside::Replica;
use rk_shared::{Roster, Tally};
use rk_world::{Event, Seen, StepError};
use std::alloc::Global;
use std::marker::Model;
use std::sync::ledger::{Ledger, Share};
use std::sync::{Mutex, Wait};

/// A lane beside its shares: of the records that are accepted, of the calls that were asked, and of its number as a power of nine.
/// Contracts see the lane. Whenever nothing is done with it, its share of calls counts those that it was asked, and no count of faults of
/// its replicas is below that of the roster. If its replicas report what they store, the lane is then sound or spent, and its share of
/// records counts those that are accepted.
#[derive(Drop)]
pub struct KeptLane<R: Replica, L: Ledger, A: Ledger, N: Roster> {
    pub(crate) lane: Lane<R>,
    pub(crate) masters: u8,
    pub(crate) alloc: Global,
    pub(crate) accepted: Share<L>,
    pub(crate) asked: Share<A>,
    pub(crate) number: Share<N>,
}

impl<R: Replica, L: Ledger, A: Ledger, N: Roster> Model for KeptLane<R, L, A, N> {
    ghost use Rattle.std.specs.Prelude.{◌≡◌};
    ghost use Rattle.rk_lane.specs.LaneState.{LaneState};

    ghost Value = { LaneState R };

    ghost use Rattle.rk_shared_lanes.specs.Kept.{IsKept};

    ghost view = { λ kept. kept.lane };

    ghost invariant = { λ kept. (kept.masters ≡ N.masters) × IsKept R.segments R.faults N.tells N.masters N.backups N.clients N.counts kept.lane
        (kept.accepted.parts, kept.accepted.amount) (kept.asked.parts, kept.asked.amount) (kept.number.parts, kept.number.amount) };
}

impl<R: Replica + Drop, L: Ledger, A: Ledger, N: Roster> KeptLane<R, L, A, N> {
    /// The lane.
    pub fn lane(&self) -> &Lane<R>
        ensures { result.now ≡ self.now }
    {
        &self.lane
    }

    /// How many masters the lane has.
    pub fn masters(&self) -> u8
        ensures { result ≡ self.now.masters }
    {
        self.masters
    }

    /// Whether a pass may ask its call here, in a lane that is not spent: its session fits, and the lane was asked the call exactly if the
    /// pass counts it as asked. A few searches.
    pub fn suits<M: Ledger, B: Ledger>(&self, pass: &Pass<M, B, N>) -> bool
        ensures { IfSome self.now.running (λ running. result ≡ suits_lem (world_with self.now running []) pass.now) }
    {
        let session = pass.session();
        self.lane.fits(session) && are_same(self.lane.asked_here(session), pass.counted())
    }

    /// The lane takes an event, as it does by itself, but none that adds a client.
    pub fn step(&mut self, event: Event) -> Result<Seen, StepError>
        requires may { MayComeTo self.old event }
        requires clients { AddsNoClient event }
        ensures ok { IfSome self.old.running (λ _. IfOk result (IsStepOf R.segments R.faults event self.old self.new)) }
        ensures refused { IfErr result (IsRefused R.faults event self.old self.new) }
        ensures spent { self.old.running ≡ None → self.new ≡ self.old }
        ensures never { self.old.running ≡ None → comes_anyway event ≡ false → result ≡ Err StepError.NoMemory }
        ensures free { comes_anyway event ≡ true → result ≢ Err StepError.NoMemory }
        ensures lane { IsSameLane self.old self.new }
    {
        self.lane.step(event)
    }

    /// A client takes its turn here, as it does in the lane by itself. The call is counted at its first ask, under the lock of the tally.
    pub fn ask<X: Wait, M: Ledger, B: Ledger>(
        &mut self,
        rt: &X,
        tally: &Mutex<Tally<L, M, A, B, N>>,
        pass: &mut Pass<M, B, N>,
    ) -> Result<Seen, StepError>
        requires suits { IfSome self.old.running (λ running. Suits (world_with self.old running []) pass.old) }
        ensures ok { IfOk result (λ seen. IsVisitOf (λ w. calls.ask w pass.old.session) self.old self.new pass.new.session seen) }
        ensures counted { OnOk result (pass.new.counted ≡ true) }
        ensures refused { IfErr result (λ e. e ≢ StepError.NoMemory → IsRefusedFor (λ w. ask_refusal w pass.old.session) self.old e) }
        ensures kept { OnErr result (self.new ≡ self.old) }
        ensures same { IfErr result (λ e. e ≢ StepError.NoMemory → pass.new ≡ pass.old) }
        ensures client { pass.new.session.client ≡ pass.old.session.client }
        ensures lane { IsSameLane self.old self.new }
        ensures spent { self.old.running ≡ None → result ≡ Err StepError.NoMemory }
    {
        let seen = self.lane.ask(&mut pass.session)?;
        count_asked(
            rt,
            tally,
            &mut self.asked,
            &mut pass.made,
            &mut pass.counted,
        );
        Ok(seen)
    }

    /// A client takes the message of a number, as it does in the lane by itself. An answer to its call is counted under the lock of the
    /// tally.
    pub fn accept<X: Wait, M: Ledger, B: Ledger>(
        &mut self,
        rt: &X,
        tally: &Mutex<Tally<L, M, A, B, N>>,
        pass: &mut Pass<M, B, N>,
        number: u64,
    ) -> Result<Seen, StepError>
        requires { pass.old.counted ≡ true }
        ensures ok { IfOk result (λ seen. IsVisitOf (λ w. calls.accept w number pass.old.session) self.old self.new pass.new.session seen) }
        ensures counted { IfOk result (λ seen. pass.new.counted ≡ not (is_answer seen.taken)) }
        ensures refused { IfErr result (λ e. e ≢ StepError.NoMemory
            → IsRefusedFor (λ w. accept_refusal w number pass.old.session.client (get w.wire.messages number)) self.old e) }
        ensures kept { OnErr result (self.new ≡ self.old) }
        ensures same { OnErr result (pass.new ≡ pass.old) }
        ensures client { pass.new.session.client ≡ pass.old.session.client }
        ensures lane { IsSameLane self.old self.new }
        ensures spent { self.old.running ≡ None → result ≡ Err StepError.NoMemory }
    {
        let seen = self.lane.accept(number, &mut pass.session)?;
        count_answered(
            rt,
            tally,
            &seen,
            &mut self.accepted,
            &mut pass.got,
            &mut pass.counted,
        );
        Ok(seen)
    }
}

// Whether both are so, or neither.
fn are_same(first: bool, second: bool) -> bool
    ensures { result ≡ (if first then second else not second) }
{
    if first { second } else { !second }
}
