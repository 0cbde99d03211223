// How a message reaches a backup.
ghost use Rattle.std.specs.Prelude.{◌≡◌, ◌≤◌, ◌+◌, ◌-◌, ℕ, true, List, length, slice_get, Some, IfOk, IfErr};
ghost use Rattle.std.specs.Option.{option_to_list};
ghost use Rattle.rk_types.specs.NumberMap.{get};
ghost use Rattle.rk_world.specs.Premises.{IsMaster};
ghost use Rattle.rk_world.specs.declared.event.Event.TheVariants as events;
ghost use Rattle.rk_lane.specs.Backing.{CanBeAnswered, IsBackedAt, IsBackedBy, IsLogOf, IsUnanswered, IsUnansweredAt, IsWithinSegment, sending};
ghost use Rattle.rk_lane.specs.Happened.{IsHappened, IsUnhappened};
ghost use Rattle.rk_lane.specs.Lane.{AreNumbered};
ghost use Rattle.rk_lane.specs.Made.{IsReady};

use crate::finishing::{finish_one, journal_length};
use crate::masters::segment_at;
use crate::messages::Arrival;
use crate::parts::Parts;
use crate::seen::lost;
use rk_backup::BackupLane;
use rk_backup_node::{take_append, take_read};
use rk_master::MasterLane;
use rk_message::{Append, Body, Message, ReadSegment};
use rk_outside::{Lost, Replica};
use rk_types::{Node, SEGMENT_BYTES};
use rk_world::{Seen, StepError};
use std::alloc::Global;

/// A message reaches a backup; it is lost if the replica that it calls fails. What the backup takes of it.
pub(crate) fn deliver_to_backup<R: Replica + Drop>(
    parts: &mut Parts,
    backups: &mut Vec<BackupLane<R>>,
    alloc: Global,
    arrival: &Arrival,
    backup: u8,
) -> Result<Seen, StepError>
    requires ready { IsReady parts.old (events.Deliver arrival.now.number) }
    requires there { get parts.old.wire.messages arrival.now.number ≡ Some arrival.now.message }
    requires to { arrival.now.message.to ≡ Node.Backup backup }
    requires count { length backups.old.items ≡ parts.old.backups }
    requires numbered { AreNumbered backups.old.items }
    ensures ok { IfOk result (IsHappened R.segments R.faults (events.Deliver arrival.now.number) parts.old backups.old.items parts.new backups.new.items) }
    ensures err { IfErr result (IsUnhappened R.faults (events.Deliver arrival.now.number) parts.old backups.old.items parts.new backups.new.items) }
{
    let records = journal_length(&parts.ledger);
    match answer_at(&arrival.message, &parts.masters, backups, alloc, backup) {
        Ok(send) => finish_one(parts, send, records),
        Err(Lost::Failed) => Ok(lost()),
        Err(Lost::NoMemory) => Err(StepError::NoMemory),
    }
}

// The backup of a number takes a message: what it sends, if anything.
fn answer_at<R: Replica + Drop>(
    message: &Message,
    masters: &[MasterLane],
    backups: &mut Vec<BackupLane<R>>,
    alloc: Global,
    backup: u8,
) -> Result<Option<Message>, Lost>
    requires first { 1 ≤ backup }
    requires last { backup ≤ length backups.old.items }
    requires lawful { CanBeAnswered (length masters.now) message.now.body }
    ensures ok { IfOk result (λ send. (before : BackupLane R) (log : ℕ → ℕ → List ℕ)
        → slice_get backups.old.items (backup - 1) ≡ Some before → IsLogOf masters.now log message.now.body
        → IsBackedAt R.segments R.faults backups.old.items backups.new.items backup before message.now log (sending (option_to_list send))) }
    ensures err { IfErr result (λ cause. (before : BackupLane R) (log : ℕ → ℕ → List ℕ)
        → slice_get backups.old.items (backup - 1) ≡ Some before → IsLogOf masters.now log message.now.body
        → IsUnansweredAt R.segments R.faults backups.old.items backups.new.items backup before message.now log cause) }
{
    let it = &mut backups[backup as usize - 1];
    answer(it, alloc, message, masters)
}

// A backup takes a message: what it sends, if anything.
fn answer<R: Replica + Drop>(
    backup: &mut BackupLane<R>,
    alloc: Global,
    message: &Message,
    masters: &[MasterLane],
) -> Result<Option<Message>, Lost>
    requires { CanBeAnswered (length masters.now) message.now.body }
    ensures ok { IfOk result (λ send. (log : ℕ → ℕ → List ℕ) → IsLogOf masters.now log message.now.body
        → IsBackedBy R.segments R.faults backup.old backup.new message.now.from message.now.body log (sending (option_to_list send))) }
    ensures err { IfErr result (λ cause. (log : ℕ → ℕ → List ℕ) → IsLogOf masters.now log message.now.body
        → IsUnanswered R.segments R.faults backup.old backup.new message.now.from message.now.body log cause) }
{
    let Node::Master(sender) = message.from else {
        return Ok(None);
    };
    match &message.body {
        Body::Append(append) => store(backup, alloc, sender, append),
        Body::Read(wanted) => read(backup, alloc, sender, *wanted, masters),
        _ => Ok(None),
    }
}

// A backup takes a master's Append. `NoMemory` comes also if a replica has more bytes of a segment than that may have.
fn store<R: Replica + Drop>(
    backup: &mut BackupLane<R>,
    alloc: Global,
    sender: u8,
    append: &Append,
) -> Result<Option<Message>, Lost>
    requires { append.now.at + length append.now.bytes ≤ SEGMENT_BYTES }
    ensures ok { IfOk result (λ send. (log : ℕ → ℕ → List ℕ)
        → IsBackedBy R.segments R.faults backup.old backup.new (Node.Master sender) (Body.Append append.now) log (sending (option_to_list send))) }
    ensures err { IfErr result (λ cause. (log : ℕ → ℕ → List ℕ)
        → IsUnanswered R.segments R.faults backup.old backup.new (Node.Master sender) (Body.Append append.now) log cause) }
{
    let answer = take_append(backup, alloc, sender, append)?;
    if !is_within_segment(&answer.body) {
        return Err(Lost::NoMemory);
    }
    Ok(Some(answer))
}

// A backup takes a master's Read.
fn read<R: Replica + Drop>(
    backup: &mut BackupLane<R>,
    alloc: Global,
    reader: u8,
    wanted: ReadSegment,
    masters: &[MasterLane],
) -> Result<Option<Message>, Lost>
    requires { IsMaster (length masters.now) wanted.master }
    ensures ok { IfOk result (λ send. (log : ℕ → ℕ → List ℕ) → IsLogOf masters.now log (Body.Read wanted)
        → IsBackedBy R.segments R.faults backup.old backup.new (Node.Master reader) (Body.Read wanted) log (sending (option_to_list send))) }
    ensures err { IfErr result (λ cause. (log : ℕ → ℕ → List ℕ) → IsLogOf masters.now log (Body.Read wanted)
        → IsUnanswered R.segments R.faults backup.old backup.new (Node.Master reader) (Body.Read wanted) log cause) }
{
    let log = segment_at(masters, wanted.master, wanted.segment);
    let answer = take_read(backup, alloc, reader, wanted, log)?;
    Ok(Some(answer))
}

// Whether the length that a Stored reports is at most that of a segment.
fn is_within_segment(body: &Body) -> bool
    ensures { result ≡ true → IsWithinSegment body.now }
{
    match body {
        Body::Stored(stored) => stored.length <= SEGMENT_BYTES,
        _ => true,
    }
}
