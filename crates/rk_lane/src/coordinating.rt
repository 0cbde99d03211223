// What the coordinator of a lane makes of a message, and of its turn.
ghost use Rattle.std.specs.Prelude.{◌≡◌, length, None, Some, IfOk, IfErr, OnErr};
ghost use Rattle.rk_types.specs.NumberMap.{get};
ghost use Rattle.rk_world.specs.Backup.{Gave};
ghost use Rattle.rk_world.specs.World.{greatest};
ghost use Rattle.rk_world.specs.declared.event.Event.TheVariants as events;
ghost use Rattle.rk_lane.specs.Coordinating.{IsCoordinated, terms_of};
ghost use Rattle.rk_lane.specs.Made.{IsFault, IsMade, IsReady};

use crate::finishing::{finish, journal_length};
use crate::messages::Arrival;
use crate::parts::Parts;
use rk_coordinator::CoordinatorLane;
use rk_ledger::LedgerLane;
use rk_message::{Body, Message};
use rk_types::{NoMemory, Node};
use rk_world::{Seen, StepError};

/// A message reaches the coordinator. What that takes of it, and a step for each row.
pub(crate) fn tell_coordinator(parts: &mut Parts, arrival: Arrival) -> Result<Seen, StepError>
    requires ready { IsReady parts.old (events.Deliver arrival.number) }
    requires there { get parts.old.wire.messages arrival.number ≡ Some arrival.message }
    requires to { arrival.message.to ≡ Node.Coordinator }
    ensures ok { IfOk result (IsMade parts.old (events.Deliver arrival.number) (Gave None) parts.new) }
    ensures err { IfErr result (IsFault parts.old (events.Deliver arrival.number) parts.new) }
{
    let records = journal_length(&parts.ledger);
    let Ok(sends) = handle(&mut parts.coordinator, &mut parts.ledger, &arrival.message) else {
        return Err(StepError::NoMemory);
    };
    let stamp = parts.ledger.last_stamp();
    let term = greatest_term(&parts.coordinator);
    parts.raise(stamp);
    parts.raise(term);
    finish(parts, sends, records)
}

/// The coordinator takes its turn. What that takes of it.
pub(crate) fn turn_coordinator(parts: &mut Parts) -> Result<Seen, StepError>
    requires { IsReady parts.old (events.Turn Node.Coordinator) }
    ensures ok { IfOk result (IsMade parts.old (events.Turn Node.Coordinator) (Gave None) parts.new) }
    ensures err { IfErr result (IsFault parts.old (events.Turn Node.Coordinator) parts.new) }
{
    let records = journal_length(&parts.ledger);
    let Ok(sends) = parts.coordinator.turn() else {
        return Err(StepError::NoMemory);
    };
    finish(parts, sends, records)
}

// The coordinator takes a message, and the ledger a rebuild that it took. After `NoMemory` the ledger is as it was.
fn handle(
    coordinator: &mut CoordinatorLane,
    ledger: &mut LedgerLane,
    message: &Message,
) -> Result<Vec<Message>, NoMemory>
    ensures ok { IfOk result (λ sends. IsCoordinated coordinator.old ledger.old message.now coordinator.new ledger.new sends.items) }
    ensures err { OnErr result (ledger.new ≡ ledger.old) }
{
    let handled = coordinator.handle(message)?;
    if handled.took_rebuilt {
        if let Body::Rebuilt(rebuilt) = &message.body {
            ledger.take_rebuilt(rebuilt)?;
        }
    }
    Ok(handled.sends)
}

/// The greatest term of a row, 0 if there is none. A step for each row.
pub(crate) fn greatest_term(coordinator: &CoordinatorLane) -> u64
    ensures { result ≡ greatest (terms_of coordinator.now.rows) }
{
    let mut greatest = 0;
    for row in coordinator.map().rows() {
        greatest = greatest.max(row.term);
    }
    greatest
}
