// A client's attempt in a lane behind its lock.
ghost use Rattle.std.specs.Prelude.{◌≡◌, ◌≢◌, ℕ, [], true, is_some, Err, IfErr, IfOk, IfSome, None, OnOk, Option, Some};
ghost use Rattle.rk_lane.specs.LaneState.{IsSameLane, world_with};
ghost use Rattle.rk_attempts.specs.Attempts.{heard as heard_lem, refused_by};
ghost use Rattle.rk_attempts.specs.Came.{IsAttempt};
ghost use Rattle.rk_attempts.specs.Ends.{EndsAt, IsSending, IsTake, IsTakenUpTo};
ghost use Rattle.rk_attempts.specs.Wires.{is_to_client, numbers_with as numbers_with_lem};
ghost use Rattle.rk_shared_lanes.specs.Passes.{Suits};

use crate::kept::KeptLane;
use crate::pass::Pass;
use rk_attempts::{Attempt, Selection, Short};
use rk_outside::Replica;
use rk_shared::{Roster, Tally};
use rk_world::{Event, Seen, StepError, Taken};
use std::sync::ledger::Ledger;
use std::sync::{Mutex, Wait};

impl<R: Replica + Drop, L: Ledger, A: Ledger, N: Roster> KeptLane<R, L, A, N> {
    /// A client's attempt for its outstanding call in a lane that is not spent: it asks, what it sent is delivered and forgotten, and it
    /// takes the messages for it, oldest first, up to the first that says what became of the call. Each is forgotten.
    pub(crate) fn attempt<X: Wait, M: Ledger, B: Ledger>(
        &mut self,
        rt: &X,
        tally: &Mutex<Tally<L, M, A, B, N>>,
        pass: &mut Pass<M, B, N>,
    ) -> Result<Attempt, Short>
        requires runs { is_some self.old.running ≡ true }
        requires suits { IfSome self.old.running (λ running. Suits (world_with self.old running []) pass.old) }
        ensures came { (worn : Option ℕ) → EndsAt result worn
            → IsAttempt R.segments self.old self.new pass.old.session pass.new.session result }
        ensures client { pass.new.session.client ≡ pass.old.session.client }
        ensures lane { IsSameLane self.old self.new }
    {
        let seen = match self.ask(rt, tally, pass) {
            Ok(seen) => seen,
            Err(error) => return refused(error),
        };
        self.hand_sent(&seen)?;
        let numbers = self.numbers_to(pass)?;
        self.take_all(rt, tally, pass, &numbers)
    }

    // What a client sent is delivered and forgotten, if it sent a message.
    fn hand_sent(&mut self, seen: &Seen) -> Result<(), Short>
        requires runs { is_some self.old.running ≡ true }
        ensures came { (worn : Option ℕ) → EndsAt result worn → IsSending R.segments self.old self.new seen.now worn }
        ensures runs { OnOk result (is_some self.new.running ≡ true) }
        ensures lane { IsSameLane self.old self.new }
    {
        if seen.sent == 0 {
            return Ok(());
        }
        self.hand(seen.first)
    }

    // The messages for the client of a pass, oldest first.
    fn numbers_to<M: Ledger, B: Ledger>(&self, pass: &Pass<M, B, N>) -> Result<Vec<u64>, Short>
        ensures numbers { IfOk result (λ numbers. IfSome self.now.running (λ running.
            numbers.items ≡ numbers_with_lem (is_to_client pass.now.session.client) running.wire.messages)) }
        ensures err { IfErr result (λ e. e ≡ Short.NoMemory) }
    {
        self.numbers_of(Selection::ToClient(pass.session().client()))
    }

    // A client takes these messages, one after the other, up to the first that says what became of its call.
    fn take_all<X: Wait, M: Ledger, B: Ledger>(
        &mut self,
        rt: &X,
        tally: &Mutex<Tally<L, M, A, B, N>>,
        pass: &mut Pass<M, B, N>,
        numbers: &[u64],
    ) -> Result<Attempt, Short>
        requires runs { is_some self.old.running ≡ true }
        requires counted { pass.old.counted ≡ true }
        ensures came { IfOk result (IsTakenUpTo R.segments self.old self.new pass.old.session pass.new.session numbers.now) }
        ensures err { IfErr result (λ e. e ≡ Short.NoMemory) }
        ensures client { pass.new.session.client ≡ pass.old.session.client }
        ensures lane { IsSameLane self.old self.new }
    {
        for number in numbers {
            if let Some(attempt) = self.take(rt, tally, pass, *number)? {
                return Ok(attempt);
            }
        }
        Ok(Attempt::Waiting)
    }

    // A client takes a message, which is then forgotten; answers what it says became of the client's call.
    fn take<X: Wait, M: Ledger, B: Ledger>(
        &mut self,
        rt: &X,
        tally: &Mutex<Tally<L, M, A, B, N>>,
        pass: &mut Pass<M, B, N>,
        number: u64,
    ) -> Result<Option<Attempt>, Short>
        requires runs { is_some self.old.running ≡ true }
        requires counted { pass.old.counted ≡ true }
        ensures came { IfOk result (λ attempt. IsTake R.segments self.old self.new pass.old.session pass.new.session number attempt) }
        ensures err { IfErr result (λ e. e ≡ Short.NoMemory) }
        ensures counted { IfOk result (λ attempt. attempt ≡ None → pass.new.counted ≡ true) }
        ensures runs { OnOk result (is_some self.new.running ≡ true) }
        ensures client { pass.new.session.client ≡ pass.old.session.client }
        ensures lane { IsSameLane self.old self.new }
    {
        let taken = taken_of(self.accept(rt, tally, pass, number))?;
        unless_worn(self.act(Event::Forget(number)))?;
        Ok(said_by(taken))
    }
}

// What a client took, none if it could not take the message. Want of memory is answered as such.
fn taken_of(answer: Result<Seen, StepError>) -> Result<Option<Taken>, Short>
    ensures taken { IfOk result (λ taken. IfOk answer (λ seen. taken ≡ seen.taken)) }
    ensures none { IfOk result (λ taken. IfErr answer (λ e. (e ≢ StepError.NoMemory) × (taken ≡ None))) }
    ensures err { IfErr result (λ e. e ≡ Short.NoMemory) }
{
    match answer {
        Ok(seen) => Ok(seen.taken),
        Err(StepError::NoMemory) => Err(Short::NoMemory),
        Err(_) => Ok(None),
    }
}

// How an event ended that a worn lane takes too: only want of memory stops the work.
fn unless_worn(ended: Result<(), Short>) -> Result<(), Short>
    ensures ok { OnOk result (ended ≢ Err Short.NoMemory) }
    ensures err { IfErr result (λ e. e ≡ Short.NoMemory) }
{
    match ended {
        Ok(()) | Err(Short::Worn(_)) => Ok(()),
        Err(Short::NoMemory) => Err(Short::NoMemory),
    }
}

// What became of a call, if what its client took says so.
fn said_by(taken: Option<Taken>) -> Option<Attempt>
    ensures { result ≡ heard_lem taken }
{
    match taken {
        Some(Taken::Done) => Some(Attempt::Answered),
        Some(Taken::Moved(tablet)) => Some(Attempt::Moved(tablet)),
        Some(Taken::NotYet(key)) => Some(Attempt::NotYet(key)),
        _ => None,
    }
}

// What an attempt answers that could not ask.
fn refused(error: StepError) -> Result<Attempt, Short>
    ensures refused { error ≢ StepError.NoMemory → result ≡ refused_by error }
    ensures memory { error ≡ StepError.NoMemory → result ≡ Err Short.NoMemory }
{
    match error {
        StepError::NoMemory => Err(Short::NoMemory),
        StepError::Worn(number) => Err(Short::Worn(number)),
        _ => Ok(Attempt::Waiting),
    }
}
