// How a tablet of a lane is split.
ghost use Rattle.std.specs.Prelude.{◌≡◌, ◌≢◌, None, IfOk, IfErr};
ghost use Rattle.rk_tablet_map.specs.Rows.{row_of};
ghost use Rattle.rk_world.specs.Backup.{Gave};
ghost use Rattle.rk_world.specs.declared.event.Event.TheVariants as events;
ghost use Rattle.rk_lane.specs.Made.{IsFault, IsMade, IsReady};
ghost use Rattle.rk_lane.specs.Owners.{owner_in};

use crate::coordinating::greatest_term;
use crate::masters::{bytes_at, counter_at, halve};
use crate::parts::Parts;
use crate::seen::quiet;
use crate::working::weigh;
use rk_tablet_map::{Phase, TabletMap};
use rk_world::{MoveError, Seen, StepError};

/// The owner of a tablet, and the term of its row.
#[derive(Clone, Copy)]
pub(crate) struct Owner {
    pub(crate) master: u8,
    pub(crate) term: u64,
}

/// A tablet is split at a hash; its owner serves both parts, if it lives. What both take of it, and a step for each row
/// and each master that has crashed.
pub(crate) fn split(parts: &mut Parts, tablet: u32, at: u64, new: u32) -> Result<Seen, StepError>
    requires { IsReady parts.old (events.Split tablet at new) }
    ensures ok { IfOk result (IsMade parts.old (events.Split tablet at new) (Gave None) parts.new) }
    ensures err { IfErr result (IsFault parts.old (events.Split tablet at new) parts.new) }
{
    let owner = owner_of(parts.coordinator.map(), tablet);
    if let Err(error) = parts.coordinator.split(tablet, at, new) {
        return Err(move_error(error));
    }
    let term = greatest_term(&parts.coordinator);
    let Some(owner) = owner else {
        return Ok(quiet());
    };
    if parts.has_crashed(owner.master) {
        parts.raise(term);
        return Ok(quiet());
    }
    let before = bytes_at(&parts.masters, owner.master);
    let next = owner.term + 1;
    let Ok(()) = halve(&mut parts.masters, owner.master, tablet, at, new, next) else {
        return Err(StepError::NoMemory);
    };
    if !weigh(parts, owner.master, before) {
        return Err(StepError::NoMemory);
    }
    let counter = counter_at(&parts.masters, owner.master);
    parts.raise(term);
    parts.raise(counter);
    Ok(quiet())
}

// The owner of a tablet; none if there is no such tablet, or if it moves or is rebuilt.
fn owner_of(map: &TabletMap, tablet: u32) -> Option<Owner>
    ensures { result ≡ owner_in (row_of map.now tablet) }
{
    let Some(row) = map.row(tablet) else {
        return None;
    };
    let Phase::Owned { master, .. } = &row.phase else {
        return None;
    };
    Some(Owner {
        master: *master,
        term: row.term,
    })
}

// Why a tablet is not split.
fn move_error(error: MoveError) -> StepError
    ensures memory { error ≡ MoveError.NoMemory → result ≡ StepError.NoMemory }
    ensures other { error ≢ MoveError.NoMemory → result ≡ StepError.Move error }
{
    match error {
        MoveError::NoMemory => StepError::NoMemory,
        other => StepError::Move(other),
    }
}
