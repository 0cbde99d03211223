// Tasks that make one occurrence, or begin an exchange with one.
ghost use Rattle.std.specs.Prelude.{◌≡◌};
ghost use Rattle.rk_settle.specs.Tasks as made;

use crate::task::{Act, Task};
use crate::topic::Topic;
use rk_types::Node;
use rk_world::Event;

/// A message is forgotten.
pub(crate) fn forgets(lane: u8, number: u64) -> Task
    ensures { result ≡ made.forgets lane number }
{
    Task::Occurs {
        lane,
        act: Act::Happens(Event::Forget(number)),
    }
}

/// A node takes its turn.
pub(crate) fn takes_turn(lane: u8, node: Node) -> Task
    ensures { result ≡ made.takes_turn lane node }
{
    Task::Occurs {
        lane,
        act: Act::Happens(Event::Turn(node)),
    }
}

/// A client takes its turn.
pub(crate) fn asks(lane: u8, client: u32) -> Task
    ensures { result ≡ made.asks lane client }
{
    Task::Occurs {
        lane,
        act: Act::Asks(client),
    }
}

/// A node takes its turn, and what it sends on a topic is delivered, and so on.
pub(crate) fn turn_exchange(lane: u8, topic: Topic, node: Node) -> Task
    ensures { result ≡ made.turn_exchange lane topic node }
{
    Task::Exchanges {
        lane,
        topic,
        act: Act::Happens(Event::Turn(node)),
    }
}
