// How a client's last request is sent once more.
ghost use Rattle.std.specs.Prelude.{None, IfOk, IfErr};
ghost use Rattle.rk_types.specs.NumberMap.{get};
ghost use Rattle.rk_lane.specs.Resending.{IsLastRequest};
ghost use Rattle.rk_world.specs.Backup.{Gave};
ghost use Rattle.rk_world.specs.declared.event.Event.TheVariants as events;
ghost use Rattle.rk_lane.specs.Made.{IsFault, IsMade, IsReady};

use crate::finishing::{finish, journal_length};
use crate::parts::Parts;
use rk_ledger::LedgerLane;
use rk_message::Message;
use rk_types::NoMemory;
use rk_world::{Seen, StepError};
use std::alloc::Global;

/// The last request of a client is sent once more. A few searches, and a copy of it.
pub(crate) fn send_again(parts: &mut Parts, alloc: Global, client: u32) -> Result<Seen, StepError>
    requires { IsReady parts.old (events.Again client) }
    ensures ok { IfOk result (IsMade parts.old (events.Again client) (Gave None) parts.new) }
    ensures err { IfErr result (IsFault parts.old (events.Again client) parts.new) }
{
    if !parts.ledger.is_added(client) {
        return Err(StepError::Stranger(client));
    }
    let records = journal_length(&parts.ledger);
    let Ok(last) = last_request(alloc, &parts.ledger, client) else {
        return Err(StepError::NoMemory);
    };
    let Some(sends) = last else {
        return Err(StepError::NoMessage(0));
    };
    finish(parts, sends, records)
}

// A copy of the last request of a client, in a list of its own; none if it has none.
fn last_request(
    alloc: Global,
    ledger: &LedgerLane,
    client: u32,
) -> Result<Option<Vec<Message>>, NoMemory>
    ensures { IfOk result (IsLastRequest (get ledger.now.requests client)) }
{
    let Some(request) = ledger.request(client) else {
        return Ok(None);
    };
    let mut sends = Vec::new(alloc);
    sends.push(request.duplicate()?)?;
    Ok(Some(sends))
}
