// How an exchange goes on: what is forgotten, and what is delivered.
ghost use Rattle.std.specs.Prelude.{◌≡◌, ◌++◌, map, filter, find, IfOk, OnOk, ℕ, ◌<◌};
ghost use Rattle.rk_settle.specs.Lawful.{AreTasks, IsAct};
ghost use Rattle.rk_types.specs.declared.hashing.TheConstants.{LANES};
ghost use Rattle.rk_settle.specs.Exchange as exchange;
ghost use Rattle.rk_settle.specs.Tasks.{forgets as forgets_lem};

use crate::acts::forgets;
use crate::task::{Act, Task};
use crate::tasks::Tasks;
use crate::topic::Topic;
use rk_message::Wire;
use rk_types::NoMemory;
use std::alloc::Global;

/// An exchange begins: what is sent from now on is sorted.
pub(crate) fn begin(
    tasks: &mut Tasks,
    wire: &Wire,
    lane: u8,
    topic: Topic,
    act: Act,
) -> Result<(), NoMemory>
    ensures pushed { OnOk result (tasks.new ≡ exchange.exchange_tasks wire.now lane topic act ++ tasks.old) }
    ensures lawful { OnOk result ((masters : ℕ) → lane < LANES → IsAct masters act → AreTasks masters tasks.old → AreTasks masters tasks.new) }
{
    let sent = wire.sent();
    let sorts = Task::Sorts {
        lane,
        topic,
        from: sent,
        last: sent,
    };
    tasks.push_all(&[Task::Occurs { lane, act }, sorts])
}

/// What was sent after `last` and is not on the topic is forgotten; then what was sent after `from` is handed out. A search
/// for each message that was sent after `last`.
pub(crate) fn sort(
    tasks: &mut Tasks,
    wire: &Wire,
    lane: u8,
    topic: Topic,
    from: u64,
    last: u64,
) -> Result<(), NoMemory>
    ensures pushed { OnOk result (tasks.new ≡ exchange.sort_tasks wire.now lane topic from last ++ tasks.old) }
    ensures lawful { OnOk result ((masters : ℕ) → lane < LANES → AreTasks masters tasks.old → AreTasks masters tasks.new) }
{
    let off = off_topic(tasks.alloc(), wire, lane, topic, last)?;
    tasks.push(Task::Hands { lane, topic, from })?;
    tasks.push_all(&off)
}

// The messages that were sent after `last` and are not on the topic are forgotten.
fn off_topic(
    alloc: Global,
    wire: &Wire,
    lane: u8,
    topic: Topic,
    last: u64,
) -> Result<Vec<Task>, NoMemory>
    ensures found { IfOk result (λ off. off.items
        ≡ map (forgets_lem lane) (filter (exchange.is_number_off wire.now topic) (exchange.sent_after wire.now last))) }
    ensures lawful { IfOk result (λ off. (masters : ℕ) → lane < LANES → AreTasks masters off.items) }
{
    let mut off = Vec::new(alloc);
    for before in last..wire.sent() {
        let number = before + 1;
        let is_off = is_off(wire, topic, number)?;
        if is_off {
            off.push(forgets(lane, number))?;
        }
    }
    Ok(off)
}

// Whether a message, if it is there, is not on the topic.
fn is_off(wire: &Wire, topic: Topic, number: u64) -> Result<bool, NoMemory>
    ensures { IfOk result (λ is_off. is_off ≡ exchange.is_number_off wire.now topic number) }
{
    match wire.frame(number) {
        Ok(frame) => Ok(!topic.has(frame)?),
        Err(_) => Ok(false),
    }
}

/// The oldest message that was sent after `from` and is there is delivered and forgotten, and what that makes its receiver
/// send is sorted. A search for each number up to it.
pub(crate) fn hand(
    tasks: &mut Tasks,
    wire: &Wire,
    lane: u8,
    topic: Topic,
    from: u64,
) -> Result<(), NoMemory>
    ensures pushed { OnOk result (tasks.new ≡ exchange.hand_tasks wire.now lane topic from ++ tasks.old) }
    ensures lawful { OnOk result ((masters : ℕ) → lane < LANES → AreTasks masters tasks.old → AreTasks masters tasks.new) }
{
    let Some(number) = oldest_after(wire, from) else {
        return Ok(());
    };
    let sorts = Task::Sorts {
        lane,
        topic,
        from: number,
        last: wire.sent(),
    };
    tasks.push_all(&[
        Task::Delivers { lane, number },
        forgets(lane, number),
        sorts,
    ])
}

/// The first message that was sent after `last` and is there, but is not on a topic. A search for each number up to it.
pub(crate) fn first_off(wire: &Wire, topic: Topic, last: u64) -> Result<Option<u64>, NoMemory>
    ensures { IfOk result (λ off. off ≡ find (exchange.is_number_off wire.now topic) (exchange.sent_after wire.now last)) }
{
    for before in last..wire.sent() {
        let is_off = is_off(wire, topic, before + 1)?;
        if is_off {
            return Ok(Some(before + 1));
        }
    }
    Ok(None)
}

/// The oldest message that is there of those sent after this number. A search for each number up to it.
pub(crate) fn oldest_after(wire: &Wire, from: u64) -> Option<u64>
    ensures { result ≡ exchange.oldest_after wire.now from }
{
    for before in from..wire.sent() {
        if is_there(wire, before + 1) {
            return Some(before + 1);
        }
    }
    None
}

// Whether a message is there.
fn is_there(wire: &Wire, number: u64) -> bool
    ensures { result ≡ exchange.is_there wire.now number }
{
    wire.frame(number).is_ok()
}
