// One master among those of a lane.
ghost use Rattle.std.specs.Prelude.{◌≡◌, ◌≤◌, ◌-◌, ◌^◌, true, Some, None, min, length, slice_get, slice_set, IfOk, OnOk, IfSome};
ghost use Rattle.rk_log.specs.Log.{bytes_of};
ghost use Rattle.rk_world.specs.Master.{Master, log_bytes};
ghost use Rattle.rk_world.specs.MasterStep.{master_step};
ghost use Rattle.rk_world.specs.MasterTurn.{master_turn};
ghost use Rattle.rk_world.specs.Premises.{IsMaster};
ghost use Rattle.rk_world.specs.Splits.{with_split};
ghost use Rattle.rk_world.specs.Step.{seen_in as seen_in_lem, with_added};
ghost use Rattle.rk_world.specs.World.{counters_of, greatest};
ghost use Rattle.rk_master.specs.Taking.{CanTake};
ghost use Rattle.rk_lane.specs.Masters.{CanTakeThere, EachEntryFits, IsAt, IsWorkAt};
ghost use Rattle.rk_lane.specs.Resting.{SendsNothing};

use rk_master::{MasterLane, Worked};
use rk_message::{Body, Message};
use rk_types::{NoMemory, Range};

/// A master takes a message.
pub(crate) fn step_master(
    message: Message,
    masters: &mut Vec<MasterLane>,
    master: u8,
) -> Result<(Worked, u64), NoMemory>
    requires there { IsMaster (length masters.old.items) master }
    requires take { CanTakeThere message masters.old.items master }
    ensures ok { IfOk result (λ it. (before : Master) → IsAt masters.old.items master before
        → IsWorkAt masters.old.items master (master_step before message) (seen_in_lem message.body) masters.new.items it.0 it.1) }
    ensures count { length masters.new.items ≡ length masters.old.items }
{
    let seen = seen_in(&message.body);
    let it = &mut masters[master as usize - 1];
    let work = it.handle(message)?;
    Ok((work, seen))
}

/// A master takes its turn.
pub(crate) fn turn_master(masters: &mut Vec<MasterLane>, master: u8) -> Result<Worked, NoMemory>
    requires { IsMaster (length masters.old.items) master }
    ensures ok { IfOk result (λ work. (before : Master) → IsAt masters.old.items master before
        → IsWorkAt masters.old.items master (master_turn before) 0 masters.new.items work 0) }
    ensures count { length masters.new.items ≡ length masters.old.items }
{
    let it = &mut masters[master as usize - 1];
    it.turn()
}

/// Whether a master would send nothing on its turn, as far as a look shows. A look at each of its backups and tablets.
pub(crate) fn rests_at(masters: &[MasterLane], master: u8) -> bool
    requires { IsMaster (length masters.now) master }
    ensures { result ≡ true → SendsNothing masters.now master }
{
    let it = &masters[master as usize - 1];
    it.rests()
}

/// A master serves a new tablet.
pub(crate) fn serve(
    masters: &mut Vec<MasterLane>,
    master: u8,
    tablet: u32,
    range: Range,
) -> Result<(), NoMemory>
    requires { IsMaster (length masters.old.items) master }
    ensures ok { OnOk result ((before : Master) → IsAt masters.old.items master before
        → masters.new.items ≡ slice_set masters.old.items (master - 1) (Some (with_added before tablet range))) }
    ensures count { length masters.new.items ≡ length masters.old.items }
{
    let it = &mut masters[master as usize - 1];
    it.add(tablet, range)
}

/// A master serves both parts of a tablet that is split at a hash, at this term.
pub(crate) fn halve(
    masters: &mut Vec<MasterLane>,
    master: u8,
    tablet: u32,
    at: u64,
    new: u32,
    term: u64,
) -> Result<(), NoMemory>
    requires { IsMaster (length masters.old.items) master }
    ensures ok { OnOk result ((before : Master) → IsAt masters.old.items master before
        → masters.new.items ≡ slice_set masters.old.items (master - 1) (Some (with_split before tablet at new term))) }
    ensures count { length masters.new.items ≡ length masters.old.items }
{
    let it = &mut masters[master as usize - 1];
    it.split(tablet, at, new, term)
}

/// The bytes of a master's log, below 2^64.
pub(crate) fn bytes_at(masters: &[MasterLane], master: u8) -> u64
    requires { IsMaster (length masters.now) master }
    ensures bytes { (it : Master) → IsAt masters.now master it → result ≡ min (log_bytes it) (2 ^ 64 - 1) }
    ensures fits { (it : Master) → IsAt masters.now master it → EachEntryFits it }
{
    let it = &masters[master as usize - 1];
    it.log_bytes()
}

/// The bytes of a segment of a master's log, lent.
pub(crate) fn segment_at(masters: &[MasterLane], master: u8, number: u32) -> &[u8]
    requires { IsMaster (length masters.now) master }
    ensures { (it : Master) → IsAt masters.now master it → result.now ≡ bytes_of it.log number }
{
    let it = &masters[master as usize - 1];
    it.segment(number)
}

/// The greatest counter of a master's tablets.
pub(crate) fn counter_at(masters: &[MasterLane], master: u8) -> u64
    requires { IsMaster (length masters.now) master }
    ensures { (it : Master) → IsAt masters.now master it → result ≡ greatest (counters_of it) }
{
    let it = &masters[master as usize - 1];
    it.greatest_counter()
}

/// How many records a master has.
pub(crate) fn records_at(masters: &[MasterLane], master: u8) -> u64
    requires { IsMaster (length masters.now) master }
    ensures { (it : Master) → IsAt masters.now master it → result ≡ length it.records }
{
    let it = &masters[master as usize - 1];
    it.records()
}

// The stamp that the client of a request has seen, 0 for another message.
fn seen_in(body: &Body) -> u64
    ensures { result ≡ seen_in_lem body.now }
{
    match body {
        Body::Request(request) => request.seen,
        _ => 0,
    }
}
