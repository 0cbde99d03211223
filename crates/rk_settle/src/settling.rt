// How the rounds of settle go on.
ghost use Rattle.std.specs.Prelude.{◌≡◌, ◌<◌, ◌++◌, ◌∷◌, map, OnOk, IfOk, ℕ, All};
ghost use Rattle.rk_world.specs.Premises.{IsMaster};
ghost use Rattle.rk_settle.specs.Lawful.{AreTasks};
ghost use Rattle.std.specs.List.{flat_map, range_with_len};
ghost use Rattle.rk_types.specs.declared.hashing.TheConstants.{LANES};
ghost use Rattle.rk_cluster.specs.Told.{LaneTells};
ghost use Rattle.rk_settle.specs.Settle as settle;
ghost use Rattle.rk_settle.specs.Tasks as made;

use crate::acts::{asks, forgets, takes_turn};
use crate::looks::{unnoticed, wire_of};
use crate::task::{Act, Task};
use crate::tasks::Tasks;
use rk_lane::Lane;
use rk_outside::Replica;
use rk_types::{LANES, NoMemory, Node};
use rk_world::Event;
use std::alloc::Global;

/// The lowest crashed master of a lane that was not noticed there is noticed, and then the next.
pub(crate) fn notice<R: Replica + Drop>(
    tasks: &mut Tasks,
    at: &Lane<R>,
    masters: u8,
    lane: u8,
) -> Result<(), NoMemory>
    requires { at.now.masters ≡ masters }
    ensures pushed { OnOk result (LaneTells R.segments at.now (λ w. settle.notice_tasks w lane ++ tasks.old) tasks.new) }
    ensures lawful { OnOk result (lane < LANES → AreTasks at.now.masters tasks.old → AreTasks at.now.masters tasks.new) }
{
    let Some(master) = unnoticed(at, masters) else {
        return Ok(());
    };
    let notices = Task::Occurs {
        lane,
        act: Act::Happens(Event::Notice(master)),
    };
    tasks.push_all(&[notices, Task::Notices { lane }])
}

/// The oldest message of a lane is delivered and forgotten, and then the next.
pub(crate) fn empty<R: Replica + Drop>(
    tasks: &mut Tasks,
    at: &Lane<R>,
    lane: u8,
) -> Result<(), NoMemory>
    ensures pushed { OnOk result (LaneTells R.segments at.now (λ w. settle.empty_tasks w lane ++ tasks.old) tasks.new) }
    ensures lawful { OnOk result ((masters : ℕ) → lane < LANES → AreTasks masters tasks.old → AreTasks masters tasks.new) }
{
    let Some(number) = wire_of(at).oldest() else {
        return Ok(());
    };
    tasks.push_all(&[
        Task::Delivers { lane, number },
        forgets(lane, number),
        Task::Empties { lane },
    ])
}

/// A round, and then the next.
pub(crate) fn round(tasks: &mut Tasks) -> Result<(), NoMemory>
    ensures pushed { OnOk result (tasks.new
        ≡ made.round_of (flat_map settle.lane_tasks (range_with_len 0 LANES)) ++ Task.Settles ∷ tasks.old) }
    ensures lawful { OnOk result ((masters : ℕ) → AreTasks masters tasks.old → AreTasks masters tasks.new) }
{
    tasks.push_all(&[Task::Ends, Task::Settles])?;
    for before in 0..LANES {
        let lane = LANES - 1 - before;
        tasks.push_all(&[Task::Turns { lane }, Task::Empties { lane }])?;
    }
    tasks.push(Task::Begins)
}

/// Clients, the coordinator and masters take their turns in a lane, in this order.
pub(crate) fn turns(
    tasks: &mut Tasks,
    lane: u8,
    clients: &[u32],
    masters: &[u8],
) -> Result<(), NoMemory>
    ensures pushed { OnOk result (tasks.new ≡ settle.turns_of lane clients.now masters.now ++ tasks.old) }
    ensures lawful { OnOk result ((count : ℕ) → lane < LANES → All (IsMaster count) masters.now → AreTasks count tasks.old → AreTasks count tasks.new) }
{
    let turns = turns_of(tasks.alloc(), lane, clients, masters)?;
    tasks.push_all(&turns)
}

// The turns of clients, the coordinator and masters in a lane.
fn turns_of(alloc: Global, lane: u8, clients: &[u32], masters: &[u8]) -> Result<Vec<Task>, NoMemory>
    ensures made { IfOk result (λ turns. turns.items ≡ settle.turns_of lane clients.now masters.now) }
    ensures lawful { IfOk result (λ turns. (count : ℕ) → lane < LANES → All (IsMaster count) masters.now → AreTasks count turns.items) }
{
    let mut turns = turns_of_clients(alloc, lane, clients)?;
    turns.push(takes_turn(lane, Node::Coordinator))?;
    for master in masters {
        turns.push(takes_turn(lane, Node::Master(*master)))?;
    }
    Ok(turns)
}

// The turns of clients in a lane.
fn turns_of_clients(alloc: Global, lane: u8, clients: &[u32]) -> Result<Vec<Task>, NoMemory>
    ensures made { IfOk result (λ turns. turns.items ≡ map (made.asks lane) clients.now) }
    ensures lawful { IfOk result (λ turns. (count : ℕ) → lane < LANES → AreTasks count turns.items) }
{
    let mut turns = Vec::new(alloc);
    for client in clients {
        turns.push(asks(lane, *client))?;
    }
    Ok(turns)
}
