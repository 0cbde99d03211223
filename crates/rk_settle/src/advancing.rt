// How advance goes on in a lane.
ghost use Rattle.std.specs.Prelude.{◌≡◌, ◌++◌, ◌∷◌, [], map, OnOk, ℕ, ◌<◌};
ghost use Rattle.rk_settle.specs.Lawful.{AreTasks};
ghost use Rattle.rk_types.specs.declared.hashing.TheConstants.{LANES};
ghost use Rattle.rk_world.specs.Premises.{IsMaster};
ghost use Rattle.rk_cluster.specs.Told.{LaneTells};
ghost use Rattle.rk_settle.specs.Advance as advance;

use crate::acts::turn_exchange;
use crate::looks::{role_at, row_at};
use crate::reaching::is_short_of;
use crate::task::Task;
use crate::tasks::Tasks;
use crate::topic::Topic;
use rk_lane::Lane;
use rk_outside::Replica;
use rk_tablet_map::Phase;
use rk_transfer::Role;
use rk_types::{NoMemory, Node, Reach};

/// A migration that is short of a reach comes to all reaches up to it. A step for each row.
pub(crate) fn advance<R: Replica + Drop>(
    tasks: &mut Tasks,
    at: &Lane<R>,
    lane: u8,
    tablet: u32,
    reach: Reach,
) -> Result<(), NoMemory>
    ensures pushed { OnOk result (LaneTells R.segments at.now (λ w. advance.advance_tasks w lane tablet reach ++ tasks.old) tasks.new) }
    ensures lawful { OnOk result ((masters : ℕ) → lane < LANES → AreTasks masters tasks.old → AreTasks masters tasks.new) }
{
    if !is_short_of(at, tablet, reach) {
        return Ok(());
    }
    push_reaches(tasks, lane, tablet, reach)
}

// A migration comes to all reaches up to this one, in their order.
fn push_reaches(tasks: &mut Tasks, lane: u8, tablet: u32, reach: Reach) -> Result<(), NoMemory>
    ensures pushed { OnOk result (tasks.new ≡ map (Task.Reaches lane tablet) (advance.reaches_to reach) ++ tasks.old) }
    ensures lawful { OnOk result ((masters : ℕ) → lane < LANES → AreTasks masters tasks.old → AreTasks masters tasks.new) }
{
    let to = |reach| Task::Reaches {
        lane,
        tablet,
        reach,
    };
    let all = [
        to(Reach::Begun),
        to(Reach::Frozen),
        to(Reach::Granted),
        to(Reach::Pulled),
        to(Reach::Joined),
        to(Reach::Finished),
    ];
    let count = match reach {
        Reach::Begun => 1,
        Reach::Frozen => 2,
        Reach::Granted => 3,
        Reach::Pulled => 4,
        Reach::Joined => 5,
        Reach::Finished => 6,
    };
    tasks.push_all(&all[..count])
}

/// What brings a migration from the reach before to this one, if it is short of it. A step for each row.
pub(crate) fn reach<R: Replica + Drop>(
    tasks: &mut Tasks,
    at: &Lane<R>,
    lane: u8,
    tablet: u32,
    reach: Reach,
) -> Result<(), NoMemory>
    ensures pushed { OnOk result (LaneTells R.segments at.now (λ w. advance.reach_tasks w lane tablet reach ++ tasks.old) tasks.new) }
    ensures lawful { OnOk result (lane < LANES → AreTasks at.now.masters tasks.old → AreTasks at.now.masters tasks.new) }
{
    if !is_short_of(at, tablet, reach) {
        return Ok(());
    }
    let Some(row) = row_at(at, tablet) else {
        return Ok(());
    };
    match row.phase {
        Phase::Opening { source, target, .. } => {
            push_reach(tasks, lane, tablet, true, source, target, reach)
        }
        Phase::Moving { source, target, .. } => {
            push_reach(tasks, lane, tablet, false, source, target, reach)
        }
        _ => Ok(()),
    }
}

// What brings a migration with this source and target from the reach before to this one.
fn push_reach(
    tasks: &mut Tasks,
    lane: u8,
    tablet: u32,
    opening: bool,
    source: u8,
    target: u8,
    reach: Reach,
) -> Result<(), NoMemory>
    ensures pushed { OnOk result (tasks.new ≡ advance.reach_between lane tablet opening source target reach ++ tasks.old) }
    ensures lawful { OnOk result ((masters : ℕ) → lane < LANES → IsMaster masters source → IsMaster masters target → AreTasks masters tasks.old → AreTasks masters tasks.new) }
{
    let again = Task::Reaches {
        lane,
        tablet,
        reach,
    };
    match reach {
        Reach::Begun => tasks.push(coordinator_exchange(lane, Topic::Readiness(tablet))),
        Reach::Frozen => {
            tasks.push(Task::Freezes {
                lane,
                tablet,
                master: source,
            })?;
            tasks.push(coordinator_exchange(lane, Topic::Closing(tablet)))
        }
        Reach::Granted => push_grant(tasks, lane, tablet, opening),
        Reach::Pulled => {
            let pulls = turn_exchange(lane, Topic::Pulls(tablet), Node::Master(target));
            tasks.push_all(&[Task::Begins, pulls, Task::Ends, again])
        }
        Reach::Joined => {
            let log = turn_exchange(lane, Topic::Log, Node::Master(target));
            tasks.push_all(&[Task::Begins, log, Task::Ends, again])
        }
        Reach::Finished => {
            tasks.push(turn_exchange(lane, Topic::End(tablet), Node::Master(target)))
        }
    }
}

// The target is granted the tablet; if the row does not move yet, the source is asked first what it hands over.
fn push_grant(tasks: &mut Tasks, lane: u8, tablet: u32, opening: bool) -> Result<(), NoMemory>
    ensures pushed { OnOk result (tasks.new ≡ (advance.transfer_tasks lane tablet opening
        ++ advance.grant_task lane tablet ∷ []) ++ tasks.old) }
    ensures lawful { OnOk result ((masters : ℕ) → lane < LANES → AreTasks masters tasks.old → AreTasks masters tasks.new) }
{
    tasks.push(coordinator_exchange(lane, Topic::Granting(tablet)))?;
    if opening {
        tasks.push(coordinator_exchange(lane, Topic::Handing(tablet)))?;
    }
    Ok(())
}

// The coordinator takes its turn.
fn coordinator_exchange(lane: u8, topic: Topic) -> Task
    ensures { result ≡ advance.coordinator_exchange lane topic }
{
    turn_exchange(lane, topic, Node::Coordinator)
}

/// A log exchange of the source, and then the next, while it closes the tablet.
pub(crate) fn freeze<R: Replica + Drop>(
    tasks: &mut Tasks,
    at: &Lane<R>,
    lane: u8,
    tablet: u32,
    master: u8,
) -> Result<(), NoMemory>
    requires { IsMaster at.now.masters master }
    ensures pushed { OnOk result (LaneTells R.segments at.now (λ w. advance.freeze_tasks w lane tablet master ++ tasks.old) tasks.new) }
    ensures lawful { OnOk result (lane < LANES → AreTasks at.now.masters tasks.old → AreTasks at.now.masters tasks.new) }
{
    if !matches!(role_at(at, master, tablet), Role::Closing) {
        return Ok(());
    }
    let log = turn_exchange(lane, Topic::Log, Node::Master(master));
    let freezes = Task::Freezes {
        lane,
        tablet,
        master,
    };
    tasks.push_all(&[Task::Begins, log, Task::Ends, freezes])
}
