// Events at which no node works: a message is lost, a client comes or sends again, a master crashes, a tablet is made or moves.
ghost use Rattle.std.specs.Prelude.{◌≡◌, ◌≢◌, ◌&&◌, not, nat_le, length, [], None, Err, IfOk, IfErr};
ghost use Rattle.rk_world.specs.Ledger.{is_added};
ghost use Rattle.rk_world.specs.Backup.{Gave};
ghost use Rattle.rk_world.specs.declared.event.Event.TheVariants as events;
ghost use Rattle.rk_lane.specs.Events.{MayStep};
ghost use Rattle.rk_lane.specs.Made.{IsFault, IsMade, IsReady};
ghost use Rattle.rk_lane.specs.Parts.{IsKept, world_of};

use crate::coordinating::greatest_term;
use crate::masters::{bytes_at, counter_at, serve};
use crate::parts::Parts;
use crate::seen::quiet;
use crate::working::weigh;
use rk_ledger::LedgerLane;
use rk_tablet_map::MapError;
use rk_types::Range;
use rk_world::{Seen, StepError};

/// How many clients a lane takes.
const MOST_CLIENTS: u64 = rk_types::MOST_CLIENTS as u64;

/// The message of a number is lost. One search.
pub(crate) fn forget(parts: &mut Parts, number: u64) -> Result<Seen, StepError>
    requires { IsKept parts.old }
    ensures ok { IfOk result (IsMade parts.old (events.Forget number) (Gave None) parts.new) }
    ensures err { IfErr result (IsFault parts.old (events.Forget number) parts.new) }
    ensures free { result ≢ Err StepError.NoMemory }
{
    let Ok(()) = parts.wire.forget(number) else {
        return Err(StepError::NoMessage(number));
    };
    Ok(quiet())
}

/// A master stops for ever. A step for each master that has.
pub(crate) fn crash(parts: &mut Parts, master: u8) -> Result<Seen, StepError>
    requires kept { IsKept parts.old }
    requires may { MayStep (world_of parts.old []) (events.Crash master) }
    ensures ok { IfOk result (IsMade parts.old (events.Crash master) (Gave None) parts.new) }
    ensures err { IfErr result (IsFault parts.old (events.Crash master) parts.new) }
    ensures free { result ≢ Err StepError.NoMemory }
{
    if parts.has_crashed(master) {
        return Err(StepError::Dead(master));
    }
    parts.crashed.push_reserved(master);
    Ok(quiet())
}

/// A client may call from now on. A few searches.
pub(crate) fn add_client(parts: &mut Parts, client: u32) -> Result<Seen, StepError>
    requires { IsReady parts.old (events.AddClient client) }
    ensures ok { IfOk result (IsMade parts.old (events.AddClient client) (Gave None) parts.new) }
    ensures err { IfErr result (IsFault parts.old (events.AddClient client) parts.new) }
{
    if is_one_too_many(&parts.ledger, client) {
        return Err(StepError::TooMany);
    }
    let Ok(()) = parts.ledger.add_client(client) else {
        return Err(StepError::NoMemory);
    };
    Ok(quiet())
}

// Whether a client would be one more than a lane takes.
fn is_one_too_many(ledger: &LedgerLane, client: u32) -> bool
    ensures { result ≡ (not (is_added ledger.now client) && nat_le MOST_CLIENTS (length ledger.now.clients)) }
{
    !ledger.is_added(client) && ledger.clients() >= MOST_CLIENTS
}

/// A tablet begins to move to a master. What the coordinator takes, and a step for each row.
pub(crate) fn migrate(parts: &mut Parts, tablet: u32, to: u8) -> Result<Seen, StepError>
    requires { IsReady parts.old (events.Migrate tablet to) }
    ensures ok { IfOk result (IsMade parts.old (events.Migrate tablet to) (Gave None) parts.new) }
    ensures err { IfErr result (IsFault parts.old (events.Migrate tablet to) parts.new) }
{
    if parts.has_crashed(to) {
        return Err(StepError::Dead(to));
    }
    if let Err(error) = parts.coordinator.migrate(tablet, to) {
        return Err(StepError::Move(error));
    }
    let term = greatest_term(&parts.coordinator);
    parts.raise(term);
    Ok(quiet())
}

/// A tablet is made, and its master serves it at once. What both take of it, and a step for each
/// row and each master that has crashed.
pub(crate) fn add_tablet(
    parts: &mut Parts,
    tablet: u32,
    range: Range,
    master: u8,
) -> Result<Seen, StepError>
    requires { IsReady parts.old (events.AddTablet tablet range master) }
    ensures ok { IfOk result (IsMade parts.old (events.AddTablet tablet range master) (Gave None) parts.new) }
    ensures err { IfErr result (IsFault parts.old (events.AddTablet tablet range master) parts.new) }
{
    if parts.has_crashed(master) {
        return Err(StepError::Dead(master));
    }
    if let Err(error) = parts.coordinator.add(tablet, range, master) {
        return Err(map_error(error));
    }
    let before = bytes_at(&parts.masters, master);
    let Ok(()) = serve(&mut parts.masters, master, tablet, range) else {
        return Err(StepError::NoMemory);
    };
    if !weigh(parts, master, before) {
        return Err(StepError::NoMemory);
    }
    let term = greatest_term(&parts.coordinator);
    let counter = counter_at(&parts.masters, master);
    parts.raise(term);
    parts.raise(counter);
    Ok(quiet())
}

// Why a tablet is not added.
fn map_error(error: MapError) -> StepError
    ensures memory { error ≡ MapError.NoMemory → result ≡ StepError.NoMemory }
    ensures other { error ≢ MapError.NoMemory → result ≡ StepError.Map error }
{
    match error {
        MapError::NoMemory => StepError::NoMemory,
        other => StepError::Map(other),
    }
}
