// What a master makes of a request: a choice, and what the choice changes, sends and serves.
ghost use Rattle.std.specs.Prelude.{◌≡◌, ℕ, true, IfOk, IsSome, OnOk};
ghost use Rattle.rk_types.specs.NumberMap.{get};
ghost use Rattle.rk_world.specs.Premises.{IsLawfulCall};
ghost use Rattle.rk_world.specs.Requests as requests;
ghost use Rattle.rk_world.specs.Worked.{sending};
ghost use Rattle.rk_master.specs.Parts.{worked_of};
ghost use Rattle.rk_master.specs.Choices.{IsFit};
ghost use Rattle.rk_master.specs.State.{IsState, master_of};

use crate::effects::{answering, call_of};
use crate::staging::{stage_refusal, stage_write};
use crate::state::MasterState;
use crate::tablets::want;
use crate::work::Worked;
use rk_message::Request;
use rk_tablet::outcome_of;
use rk_types::{Answer, Call, NoMemory, Outcome, hash};
use rk_world::Choice;

/// A master takes a client's request. A look at each tablet, a few searches, and the time to spell the entry of a
/// mutation.
pub(crate) fn take_request(
    state: &mut MasterState,
    client: u32,
    request: Request,
) -> Result<Worked, NoMemory>
    requires state { IsState state.old }
    requires lawful { IsLawfulCall (requests.call_of client request) }
    ensures state { OnOk result (IsState state.new) }
    ensures ok { IfOk result (λ work. worked_of (master_of state.new) work ≡ requests.request_taken (master_of state.old) client request) }
{
    let tablet = request.tablet;
    let call = call_of(client, request);
    let choice = state.choice_of(&call)?;
    carry_out(state, tablet, call, choice)
}

// Carries out what is to be done with a call of a client that asked this tablet.
fn carry_out(
    state: &mut MasterState,
    asked: u32,
    call: Call,
    choice: Choice,
) -> Result<Worked, NoMemory>
    requires state { IsState state.old }
    requires lawful { IsLawfulCall call }
    requires fit { IsFit (master_of state.old).tablets choice }
    ensures state { OnOk result (IsState state.new) }
    ensures ok { IfOk result (λ work. worked_of (master_of state.new) work ≡ requests.chosen (master_of state.old) asked call choice) }
{
    match choice {
        Choice::Redirects => state.tell(&call, Answer::Moved(asked)),
        Choice::Repeats(end) => state.tell(&call, Answer::Done(outcome_of(end))),
        Choice::Ignores => Ok(state.nothing()),
        Choice::Wants(number) => put_off(state, &call, number),
        Choice::Reads(outcome) => state.tell_read(call, outcome),
        Choice::Writes(number) => write(state, call, number),
        Choice::Refuses(found, absent) => refuse(state, call, found, absent),
    }
}

// The hash of a call's key is wanted by the tablet of this number, and the client is told to wait.
fn put_off(state: &mut MasterState, call: &Call, number: u32) -> Result<Worked, NoMemory>
    requires state { IsState state.old }
    requires there { IsSome (get state.old.tablets.items number) }
    ensures state { OnOk result (IsState state.new) }
    ensures ok { IfOk result (λ work. (asked : ℕ) → worked_of (master_of state.new) work
        ≡ requests.chosen (master_of state.old) asked call.now (Choice.Wants number)) }
{
    want(state.tablets.as_mut_slice(), number, hash(call.key.bytes()))?;
    let key = call.key.duplicate()?;
    state.tell(call, Answer::NotYet(key))
}

// A write or a removal is staged at the tablet of this number.
fn write(state: &mut MasterState, call: Call, number: u32) -> Result<Worked, NoMemory>
    requires state { IsState state.old }
    requires there { IsSome (get state.old.tablets.items number) }
    requires lawful { IsLawfulCall call }
    ensures state { OnOk result (IsState state.new) }
    ensures ok { IfOk result (λ work. (asked : ℕ) → worked_of (master_of state.new) work
        ≡ requests.chosen (master_of state.old) asked call (Choice.Writes number)) }
{
    stage_write(state, number, call)?;
    Ok(state.nothing())
}

// A refusal is staged.
fn refuse(state: &mut MasterState, call: Call, found: u64, absent: bool) -> Result<Worked, NoMemory>
    requires state { IsState state.old }
    requires lawful { IsLawfulCall call }
    requires none { absent ≡ true → found ≡ 0 }
    ensures state { OnOk result (IsState state.new) }
    ensures ok { IfOk result (λ work. (asked : ℕ) → worked_of (master_of state.new) work
        ≡ requests.chosen (master_of state.old) asked call (Choice.Refuses found absent)) }
{
    stage_refusal(state, call, found, absent)?;
    Ok(state.nothing())
}

impl MasterState {
    // The client of a call is answered.
    fn tell(&self, call: &Call, answer: Answer) -> Result<Worked, NoMemory>
        ensures { IfOk result (λ work. worked_of (master_of self.now) work
            ≡ sending (master_of self.now) (requests.answering (master_of self.now) call.now answer)) }
    {
        let mut work = self.nothing();
        work.send(answering(self.number, call, answer))?;
        Ok(work)
    }

    // A read is answered, and served with that.
    fn tell_read(&self, call: Call, outcome: Outcome) -> Result<Worked, NoMemory>
        ensures { IfOk result (λ work. (asked : ℕ) → worked_of (master_of self.now) work ≡ requests.chosen (master_of self.now) asked call (Choice.Reads outcome)) }
    {
        let mut work = self.tell(&call, Answer::Done(outcome.duplicate()?))?;
        work.serve(call, outcome)?;
        Ok(work)
    }
}
