// An event of a lane, by its kind.
ghost use Rattle.std.specs.Prelude.{◌≡◌, ◌≢◌, [], true, length, None, Some, Err, IfOk, IfErr};
ghost use Rattle.rk_types.specs.NumberMap.{get};
ghost use Rattle.rk_world.specs.Backup.{Gave};
ghost use Rattle.rk_world.specs.Refusals.{comes_anyway};
ghost use Rattle.rk_world.specs.declared.event.Event.TheVariants as events;
ghost use Rattle.rk_lane.specs.Events.{MayStep};
ghost use Rattle.rk_lane.specs.Happened.{IsHappened, IsUnhappened};
ghost use Rattle.rk_lane.specs.Lane.{AreNumbered};
ghost use Rattle.rk_lane.specs.Made.{IsFault, IsMade, IsNoDelivery, IsReady, IsReadyFor, worn_for as worn_for_lem};
ghost use Rattle.rk_lane.specs.Parts.{IsKept, world_of};

use crate::backing::deliver_to_backup;
use crate::changes::{add_client, add_tablet, crash, forget, migrate};
use crate::delivering::deliver_to;
use crate::messages::{Arrival, message_of};
use crate::notices::notice;
use crate::parts::Parts;
use crate::resending::send_again;
use crate::splits::split;
use crate::turns::turn;
use rk_backup::BackupLane;
use rk_outside::Replica;
use rk_types::Node;
use rk_world::{Event, Seen, StepError};
use std::alloc::Global;

/// Takes an event, unless the lane is worn. What that takes by its kind.
pub(crate) fn happen<R: Replica + Drop>(
    parts: &mut Parts,
    backups: &mut Vec<BackupLane<R>>,
    alloc: Global,
    event: Event,
) -> Result<Seen, StepError>
    requires kept { IsKept parts.old }
    requires may { MayStep (world_of parts.old []) event }
    requires count { length backups.old.items ≡ parts.old.backups }
    requires numbered { AreNumbered backups.old.items }
    ensures ok { IfOk result (IsHappened R.segments R.faults event parts.old backups.old.items parts.new backups.new.items) }
    ensures err { IfErr result (IsUnhappened R.faults event parts.old backups.old.items parts.new backups.new.items) }
    ensures free { comes_anyway event ≡ true → result ≢ Err StepError.NoMemory }
{
    // Forget comes most, and nothing has to be asked before it.
    match event {
        Event::Forget(number) => lose(parts, backups, number),
        _ => happen_else(parts, backups, alloc, event),
    }
}

/// The message of a number is lost: what [`happen`] makes of Forget. One search.
pub(crate) fn lose<R: Replica + Drop>(
    parts: &mut Parts,
    backups: &Vec<BackupLane<R>>,
    number: u64,
) -> Result<Seen, StepError>
    requires kept { IsKept parts.old }
    requires numbered { AreNumbered backups.now.items }
    ensures ok { IfOk result (IsHappened R.segments R.faults (events.Forget number) parts.old backups.now.items parts.new backups.now.items) }
    ensures err { IfErr result (IsUnhappened R.faults (events.Forget number) parts.old backups.now.items parts.new backups.now.items) }
    ensures free { result ≢ Err StepError.NoMemory }
{
    forget(parts, number)
}

/// A message that was looked up is delivered, unless the lane is worn: what [`happen`] makes of Deliver. No search for it, and what its
/// receiver takes.
pub(crate) fn deliver<R: Replica + Drop>(
    parts: &mut Parts,
    backups: &mut Vec<BackupLane<R>>,
    alloc: Global,
    arrival: Arrival,
) -> Result<Seen, StepError>
    requires kept { IsKept parts.old }
    requires there { get parts.old.wire.messages arrival.number ≡ Some arrival.message }
    requires count { length backups.old.items ≡ parts.old.backups }
    requires numbered { AreNumbered backups.old.items }
    ensures ok { IfOk result (IsHappened R.segments R.faults (events.Deliver arrival.number) parts.old backups.old.items parts.new backups.new.items) }
    ensures err { IfErr result (IsUnhappened R.faults (events.Deliver arrival.number) parts.old backups.old.items parts.new backups.new.items) }
{
    if let Some(number) = parts.worn() {
        return Err(StepError::Worn(number));
    }
    arrive(parts, backups, alloc, arrival)
}

// Takes an event in the same way, whichever it is.
fn happen_else<R: Replica + Drop>(
    parts: &mut Parts,
    backups: &mut Vec<BackupLane<R>>,
    alloc: Global,
    event: Event,
) -> Result<Seen, StepError>
    requires kept { IsKept parts.old }
    requires may { MayStep (world_of parts.old []) event }
    requires count { length backups.old.items ≡ parts.old.backups }
    requires numbered { AreNumbered backups.old.items }
    ensures ok { IfOk result (IsHappened R.segments R.faults event parts.old backups.old.items parts.new backups.new.items) }
    ensures err { IfErr result (IsUnhappened R.faults event parts.old backups.old.items parts.new backups.new.items) }
    ensures free { comes_anyway event ≡ true → result ≢ Err StepError.NoMemory }
{
    if let Some(number) = worn_for(parts, event) {
        return Err(StepError::Worn(number));
    }
    match event {
        Event::Deliver(number) => find_and_deliver(parts, backups, alloc, number),
        _ => happen_within(parts, alloc, event),
    }
}

// The number of a lane that is too great for an event; Crash and Forget come anyway.
fn worn_for(parts: &Parts, event: Event) -> Option<u64>
    requires { IsKept parts.now }
    ensures { result ≡ worn_for_lem parts.now event }
{
    match event {
        Event::Forget(_) | Event::Crash(_) => None,
        _ => parts.worn(),
    }
}

// Takes an event that is no delivery.
fn happen_within(parts: &mut Parts, alloc: Global, event: Event) -> Result<Seen, StepError>
    requires ready { IsReadyFor parts.old event }
    requires other { IsNoDelivery event }
    ensures ok { IfOk result (IsMade parts.old event (Gave None) parts.new) }
    ensures err { IfErr result (IsFault parts.old event parts.new) }
    ensures free { comes_anyway event ≡ true → result ≢ Err StepError.NoMemory }
{
    match event {
        Event::AddTablet {
            tablet,
            range,
            master,
        } => add_tablet(parts, tablet, range, master),
        Event::AddClient(client) => add_client(parts, client),
        Event::Deliver(_) => unreachable!(),
        Event::Forget(number) => forget(parts, number),
        Event::Turn(node) => turn(parts, node),
        Event::Again(client) => send_again(parts, alloc, client),
        Event::Migrate { tablet, to } => migrate(parts, tablet, to),
        Event::Split { tablet, at, new } => split(parts, tablet, at, new),
        Event::Crash(master) => crash(parts, master),
        Event::Notice(master) => notice(parts, alloc, master),
    }
}

// The message of a number is looked up, and reaches its receiver. One search.
fn find_and_deliver<R: Replica + Drop>(
    parts: &mut Parts,
    backups: &mut Vec<BackupLane<R>>,
    alloc: Global,
    number: u64,
) -> Result<Seen, StepError>
    requires ready { IsReady parts.old (events.Deliver number) }
    requires count { length backups.old.items ≡ parts.old.backups }
    requires numbered { AreNumbered backups.old.items }
    ensures ok { IfOk result (IsHappened R.segments R.faults (events.Deliver number) parts.old backups.old.items parts.new backups.new.items) }
    ensures err { IfErr result (IsUnhappened R.faults (events.Deliver number) parts.old backups.old.items parts.new backups.new.items) }
{
    let message = message_of(&parts.wire, number)?;
    arrive(parts, backups, alloc, Arrival { number, message })
}

// A message reaches its receiver; one for a client is not delivered.
fn arrive<R: Replica + Drop>(
    parts: &mut Parts,
    backups: &mut Vec<BackupLane<R>>,
    alloc: Global,
    arrival: Arrival,
) -> Result<Seen, StepError>
    requires ready { IsReady parts.old (events.Deliver arrival.number) }
    requires there { get parts.old.wire.messages arrival.number ≡ Some arrival.message }
    requires count { length backups.old.items ≡ parts.old.backups }
    requires numbered { AreNumbered backups.old.items }
    ensures ok { IfOk result (IsHappened R.segments R.faults (events.Deliver arrival.number) parts.old backups.old.items parts.new backups.new.items) }
    ensures err { IfErr result (IsUnhappened R.faults (events.Deliver arrival.number) parts.old backups.old.items parts.new backups.new.items) }
{
    if let Node::Backup(backup) = arrival.message.to {
        return deliver_to_backup(parts, backups, alloc, &arrival, backup);
    }
    deliver_to(parts, arrival)
}
