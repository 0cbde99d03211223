// How a message reaches a receiver that is no backup.
ghost use Rattle.std.specs.Prelude.{◌≡◌, None, Some, IfOk, IfErr};
ghost use Rattle.rk_types.specs.NumberMap.{get};
ghost use Rattle.rk_world.specs.Backup.{Gave};
ghost use Rattle.rk_world.specs.declared.event.Event.TheVariants as events;
ghost use Rattle.rk_lane.specs.Made.{IsFault, IsMade, IsOfBackup, IsReady};

use crate::coordinating::tell_coordinator;
use crate::messages::Arrival;
use crate::parts::Parts;
use crate::working::tell_master;
use rk_types::Node;
use rk_world::{Seen, StepError};

/// A message reaches its receiver, which is no backup; one for a client is not delivered.
pub(crate) fn deliver_to(parts: &mut Parts, arrival: Arrival) -> Result<Seen, StepError>
    requires ready { IsReady parts.old (events.Deliver arrival.number) }
    requires there { get parts.old.wire.messages arrival.number ≡ Some arrival.message }
    requires other { IsOfBackup arrival.message.to → ⊥ }
    ensures ok { IfOk result (IsMade parts.old (events.Deliver arrival.number) (Gave None) parts.new) }
    ensures err { IfErr result (IsFault parts.old (events.Deliver arrival.number) parts.new) }
{
    match arrival.message.to {
        Node::Coordinator => tell_coordinator(parts, arrival),
        Node::Master(master) => tell_master(parts, arrival, master),
        Node::Client(_) | Node::Backup(_) => Err(StepError::Address(arrival.number)),
    }
}
