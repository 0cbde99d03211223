// How nodes take their turns.
ghost use Rattle.std.specs.Prelude.{None, IfOk, IfErr};
ghost use Rattle.rk_world.specs.Backup.{Gave};
ghost use Rattle.rk_world.specs.declared.event.Event.TheVariants as events;
ghost use Rattle.rk_lane.specs.Made.{IsFault, IsMade, IsReady};

use crate::coordinating::turn_coordinator;
use crate::parts::Parts;
use crate::seen::quiet;
use crate::working::turn_at;
use rk_types::Node;
use rk_world::{Seen, StepError};

/// A node takes its turn. Clients take theirs by asking, and backups have no duties.
pub(crate) fn turn(parts: &mut Parts, node: Node) -> Result<Seen, StepError>
    requires { IsReady parts.old (events.Turn node) }
    ensures ok { IfOk result (IsMade parts.old (events.Turn node) (Gave None) parts.new) }
    ensures err { IfErr result (IsFault parts.old (events.Turn node) parts.new) }
{
    match node {
        Node::Client(client) => turn_client(parts, client),
        Node::Coordinator => turn_coordinator(parts),
        Node::Master(master) => turn_at(parts, master),
        Node::Backup(_) => Ok(quiet()),
    }
}

// A client that was added takes its turn here: nothing comes of it.
fn turn_client(parts: &mut Parts, client: u32) -> Result<Seen, StepError>
    requires { IsReady parts.old (events.Turn (Node.Client client)) }
    ensures ok { IfOk result (IsMade parts.old (events.Turn (Node.Client client)) (Gave None) parts.new) }
    ensures err { IfErr result (IsFault parts.old (events.Turn (Node.Client client)) parts.new) }
{
    if !parts.ledger.is_added(client) {
        return Err(StepError::Stranger(client));
    }
    Ok(quiet())
}
