// What a master of a lane makes of a message, and of its turn.
ghost use Rattle.std.specs.Prelude.{◌≡◌, ◌≤◌, ◌<◌, ◌^◌, length, map, true, None, Some, IfOk, IfErr, OnOk, OnErr};
ghost use Rattle.rk_types.specs.NumberMap.{get};
ghost use Rattle.rk_world.specs.Backup.{Gave};
ghost use Rattle.rk_world.specs.Premises.{IsMaster};
ghost use Rattle.rk_world.specs.Replies.{filled};
ghost use Rattle.rk_world.specs.declared.event.Event.TheVariants as events;
ghost use Rattle.rk_master.specs.Parts.{marks_of};
ghost use Rattle.rk_lane.specs.Made.{IsFault, IsMade, IsReady, KeepsLedger};
ghost use Rattle.rk_lane.specs.Sends.{IsFitToSend};
ghost use Rattle.rk_lane.specs.Working.{IsRaised, IsSettled, IsUnsettled, IsWeighed, is_nothing as is_nothing_lem, ledger_noted, sends_worked};

use crate::finishing::{finish, journal_length};
use crate::masters::{bytes_at, counter_at, records_at, rests_at, step_master, turn_master};
use crate::messages::Arrival;
use crate::parts::Parts;
use crate::seen::{lost, quiet};
use rk_ledger::LedgerLane;
use rk_master::Worked;
use rk_message::Message;
use rk_types::{NoMemory, Node};
use rk_world::{Mark, Seen, Served, StepError};
use std::alloc::Global;

/// From here on the bytes of all logs of a lane have no room.
const MOST_BYTES: u64 = 0x4000_0000;

/// From here on the records of a master have no room.
const MOST_RECORDS: u64 = 0x4000_0000;

/// A message reaches a master; if that has crashed, it is lost. What the master takes of it.
pub(crate) fn tell_master(
    parts: &mut Parts,
    arrival: Arrival,
    master: u8,
) -> Result<Seen, StepError>
    requires ready { IsReady parts.old (events.Deliver arrival.number) }
    requires there { get parts.old.wire.messages arrival.number ≡ Some arrival.message }
    requires to { arrival.message.to ≡ Node.Master master }
    ensures ok { IfOk result (IsMade parts.old (events.Deliver arrival.number) (Gave None) parts.new) }
    ensures err { IfErr result (IsFault parts.old (events.Deliver arrival.number) parts.new) }
{
    if parts.has_crashed(master) {
        return Ok(lost());
    }
    let records = journal_length(&parts.ledger);
    let before = bytes_at(&parts.masters, master);
    let Ok((work, seen)) = step_master(arrival.message, &mut parts.masters, master) else {
        return Err(StepError::NoMemory);
    };
    if !weigh(parts, master, before) {
        return Err(StepError::NoMemory);
    }
    settle(parts, master, seen, work, records)
}

/// A master takes its turn. What that takes of it.
pub(crate) fn turn_at(parts: &mut Parts, master: u8) -> Result<Seen, StepError>
    requires { IsReady parts.old (events.Turn (Node.Master master)) }
    ensures ok { IfOk result (IsMade parts.old (events.Turn (Node.Master master)) (Gave None) parts.new) }
    ensures err { IfErr result (IsFault parts.old (events.Turn (Node.Master master)) parts.new) }
{
    if parts.has_crashed(master) {
        return Err(StepError::Dead(master));
    }
    if rests_at(&parts.masters, master) {
        return Ok(quiet());
    }
    let records = journal_length(&parts.ledger);
    let before = bytes_at(&parts.masters, master);
    let Ok(work) = turn_master(&mut parts.masters, master) else {
        return Err(StepError::NoMemory);
    };
    if !weigh(parts, master, before) {
        return Err(StepError::NoMemory);
    }
    settle(parts, master, 0, work, records)
}

/// Counts the bytes of all logs once a master has changed, whose log had so many before; and returns whether they and the
/// master's records have room.
pub(crate) fn weigh(parts: &mut Parts, master: u8, before: u64) -> bool
    requires there { IsMaster (length parts.old.masters.items) master }
    requires counted { before ≤ parts.old.log_bytes }
    ensures parts { parts.new ≡ record parts.old { log_bytes = parts.new.log_bytes } }
    ensures weighed { result ≡ true → IsWeighed parts.old master before parts.new.log_bytes }
{
    let rest = parts.log_bytes - before;
    parts.log_bytes = rest.saturating_add(bytes_at(&parts.masters, master));
    parts.log_bytes < MOST_BYTES && records_at(&parts.masters, master) < MOST_RECORDS
}

// What a master's work leaves beside it: served calls get their records, its piece is marked, and what it sends gets the
// stamps and places of its records. `NoMemory` leaves the records, the calls and the clients of the ledger as they were.
fn settle(
    parts: &mut Parts,
    master: u8,
    seen: u64,
    work: Worked,
    records: usize,
) -> Result<Seen, StepError>
    requires there { IsMaster (length parts.old.masters.items) master }
    requires records { records ≡ length parts.old.ledger.journal }
    requires fits { IsFitToSend parts.old.wire (sends_worked parts.old.ledger seen work) }
    ensures ok { IfOk result (IsSettled parts.old master seen work parts.new) }
    ensures err { IfErr result (IsUnsettled parts.old parts.new) }
{
    if is_nothing(&work) {
        raise_top(parts, master);
        return Ok(quiet());
    }
    let Worked {
        mut sends,
        served,
        marked,
    } = work;
    let Ok(()) = note(&mut parts.ledger, seen, served.as_slice(), marked) else {
        return Err(StepError::NoMemory);
    };
    fill_all(&parts.ledger, served.as_slice(), &mut sends);
    raise_top(parts, master);
    finish(parts, sends, records)
}

// Whether a master's work leaves nothing: no call was served, nothing is marked, and nothing is sent.
fn is_nothing(work: &Worked) -> bool
    ensures { result ≡ is_nothing_lem work.now }
{
    work.sends.is_empty() && (work.served.is_empty() && work.marked.is_none())
}

// The greatest number rises to the last stamp of the ledger and to the greatest counter of a master.
fn raise_top(parts: &mut Parts, master: u8)
    requires { IsMaster (length parts.old.masters.items) master }
    ensures { IsRaised parts.old master parts.new }
{
    let stamp = parts.ledger.last_stamp();
    let counter = counter_at(&parts.masters, master);
    parts.raise(stamp);
    parts.raise(counter);
}

// Served calls get their records, and a piece is marked. After `NoMemory` nothing has changed.
fn note(
    ledger: &mut LedgerLane,
    seen: u64,
    served: &[Served],
    marked: Option<Mark>,
) -> Result<(), NoMemory>
    ensures ok { OnOk result (ledger.new ≡ ledger_noted ledger.old seen served.now (marks_of marked)) }
    ensures err { OnErr result (KeepsLedger ledger.old ledger.new) }
{
    let records = ledger.journal().len();
    ledger.serve(seen, served)?;
    if let Some(mark) = marked {
        let Ok(()) = ledger.mark(&[mark]) else {
            ledger.withdraw(records);
            return Err(NoMemory);
        };
    }
    Ok(())
}

// Messages get the stamps and places of their records.
fn fill_all(ledger: &LedgerLane, served: &[Served], sends: &mut Vec<Message>)
    ensures { sends.new.items ≡ map (filled ledger.now.journal served.now) sends.old.items }
{
    ledger.fill(served, sends.as_mut_slice());
}
