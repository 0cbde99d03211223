// How a lane takes events.
ghost use Rattle.std.specs.Prelude.{◌≡◌, ◌≢◌, false, true, None, Err, IfOk, IfErr, IfSome};
ghost use Rattle.rk_world.specs.Refusals.{comes_anyway};
ghost use Rattle.rk_world.specs.declared.event.Event.TheVariants as events;
ghost use Rattle.rk_lane.specs.Events.{IsArrivalIn, IsRefused, IsStepOf, MayComeTo};
ghost use Rattle.rk_lane.specs.LaneState.{IsSameLane};
ghost use Rattle.rk_lane.specs.Spent.{is_out_of_memory};

use crate::events::{deliver, happen, lose};
use crate::lane::Lane;
use crate::messages::Arrival;
use crate::seen::quiet;
use rk_outside::Replica;
use rk_world::{Event, Seen, StepError};

impl<R: Replica + Drop> Lane<R> {
    /// Takes an event: a message is delivered or lost, a node takes its turn, a tablet is made, moved or split, a client is
    /// added or sends its request again, a master crashes or that is noticed. Each refusal but `NoMemory` leaves the lane as
    /// it was. After `NoMemory`, which never comes of Crash or Forget, the lane is spent; its journal, the calls that were
    /// asked and the clients that were added are as they were. A spent lane answers `NoMemory`, and to Crash and Forget that
    /// nothing happened. The message was lost if its receiver had crashed, or if the replica that it called failed, whose
    /// count of faults rose then. What the nodes take that work, and nothing that grows with the wire or the journal.
    pub fn step(&mut self, event: Event) -> Result<Seen, StepError>
        requires { MayComeTo self.old event }
        ensures ok { IfSome self.old.running (λ _. IfOk result (IsStepOf R.segments R.faults event self.old self.new)) }
        ensures refused { IfErr result (IsRefused R.faults event self.old self.new) }
        ensures spent { self.old.running ≡ None → self.new ≡ self.old }
        ensures never { self.old.running ≡ None → comes_anyway event ≡ false → result ≡ Err StepError.NoMemory }
        ensures free { comes_anyway event ≡ true → result ≢ Err StepError.NoMemory }
        ensures lane { IsSameLane self.old self.new }
    {
        if self.spent {
            return nothing_happens(event);
        }
        let alloc = self.alloc();
        let answer = happen(&mut self.parts, &mut self.backups, alloc, event);
        self.spent = out_of_memory(&answer);
        answer
    }

    /// A message that was looked up on the wire of the lane reaches its receiver: what [`Lane::step`] makes of Deliver, also of
    /// what it refuses. `NoMessage` never comes, and `Address` comes if the message is for a client. A spent lane answers
    /// `NoMemory`. No search for the message, and what its receiver takes.
    pub fn deliver(&mut self, arrival: Arrival) -> Result<Seen, StepError>
        requires { IsArrivalIn self.old arrival }
        ensures ok { IfSome self.old.running (λ _. IfOk result (IsStepOf R.segments R.faults (events.Deliver arrival.number) self.old self.new)) }
        ensures refused { IfErr result (IsRefused R.faults (events.Deliver arrival.number) self.old self.new) }
        ensures spent { self.old.running ≡ None → self.new ≡ self.old }
        ensures never { self.old.running ≡ None → result ≡ Err StepError.NoMemory }
        ensures lane { IsSameLane self.old self.new }
    {
        if self.spent {
            return Err(StepError::NoMemory);
        }
        let alloc = self.alloc();
        let answer = deliver(&mut self.parts, &mut self.backups, alloc, arrival);
        self.spent = out_of_memory(&answer);
        answer
    }

    /// The message of a number is lost: what [`Lane::step`] makes of Forget. If it is not on the wire, this is refused, and leaves
    /// the lane as it was; of a spent lane nothing happens. `NoMemory` never comes. One search.
    pub fn forget(&mut self, number: u64) -> Result<Seen, StepError>
        ensures ok { IfSome self.old.running (λ _. IfOk result (IsStepOf R.segments R.faults (events.Forget number) self.old self.new)) }
        ensures refused { IfErr result (IsRefused R.faults (events.Forget number) self.old self.new) }
        ensures spent { self.old.running ≡ None → self.new ≡ self.old }
        ensures free { result ≢ Err StepError.NoMemory }
        ensures lane { IsSameLane self.old self.new }
    {
        if self.spent {
            return Ok(quiet());
        }
        lose(&mut self.parts, &self.backups, number)
    }
}

// What a spent lane answers to an event.
fn nothing_happens(event: Event) -> Result<Seen, StepError>
    ensures memory { comes_anyway event ≡ false → result ≡ Err StepError.NoMemory }
    ensures free { comes_anyway event ≡ true → result ≢ Err StepError.NoMemory }
    ensures err { IfErr result (λ error. error ≡ StepError.NoMemory) }
{
    match event {
        Event::Forget(_) | Event::Crash(_) => Ok(quiet()),
        _ => Err(StepError::NoMemory),
    }
}

// Whether memory was wanting.
fn out_of_memory(answer: &Result<Seen, StepError>) -> bool
    ensures { result ≡ is_out_of_memory answer.now }
{
    matches!(answer, Err(StepError::NoMemory))
}
