// The course of a command: its tasks are done move by move.
ghost use Rattle.std.specs.Prelude.{◌≡◌, ◌+◌, ◌-◌, ◌^◌, ◌<◌, ◌≤◌, ◌∷◌, ◌++◌, [], false, true, if◌then◌else◌, List, IfErr, IfSome, OnOk};
ghost use Rattle.std.specs.Option.{option_to_list};
ghost use Rattle.rk_types.specs.declared.hashing.TheConstants.{LANES};
ghost use Rattle.rk_cluster.specs.Faults.{CountsGoOn};
ghost use Rattle.rk_world.specs.Cluster.{Cluster as Lanes};
ghost use Rattle.rk_cluster.specs.Masters.{backups_of, masters_of};
ghost use Rattle.rk_settle.specs.Lawful.{AreTasks, IsAct, IsTask};
ghost use Rattle.rk_settle.specs.Course.{MOST_FAULTS as most_faults};
ghost use Rattle.rk_settle.specs.Faults.{HasFaults, IsOfReplicas, KeepsUp};
ghost use Rattle.rk_settle.specs.Outcomes.{Ends, Fails, Keeps};
ghost use Rattle.rk_settle.specs.States.{EightTell, Moves, MovesAll, Stops, StopsLater};
ghost use Rattle.rk_settle.specs.declared.course.Progress.{Progress as Came};
ghost use Rattle.rk_settle.specs.declared.error.SettleError.TheVariants as errors;
ghost use Rattle.rk_settle.specs.declared.task.Task.{Task as Step};
ghost use Rattle.rk_settle.specs.declared.task.Task.TheVariants as made;

use crate::error::SettleError;
use crate::exchange::{first_off, oldest_after};
use crate::looks::wire_of;
use crate::task::{Act, Task};
use crate::tasks::Tasks;
use crate::topic::Topic;
use crate::unfolding::{lane_of, unfold};
use rk_cluster::{Cluster, Delivered};
use rk_outside::Replica;
use rk_types::{NoMemory, Said};
use std::alloc::Global;
use std::mem;

/// In so many rounds replicas may fail before a command stops.
const MOST_FAULTS: u64 = 100;

/// What has come of a command so far: what clients have said, also before it, in how many rounds a replica failed, and whether one failed
/// in the round that runs.
#[derive(Drop)]
pub(crate) struct Progress {
    pub(crate) said: Vec<Said>,
    pub(crate) faults: u64,
    pub(crate) failing: bool,
}

impl Progress {
    /// Clients have said this before, and no replica failed.
    pub(crate) fn after(said: Vec<Said>) -> Progress
        ensures said { result.said ≡ said }
        ensures faults { result.faults ≡ 0 }
        ensures failing { result.failing ≡ false }
    {
        Progress {
            said,
            faults: 0,
            failing: false,
        }
    }
}

/// The tasks of a command are done, one after the other, until none is left. What clients say meanwhile follows what they had said before.
/// If the command stops before its end, what it has done stays done, and what was said stays said.
pub(crate) fn run<R: Replica + Drop>(
    alloc: Global,
    cluster: &mut Cluster<R>,
    tasks: Tasks,
    said: &mut Vec<Said>,
) -> Result<(), SettleError>
    requires { AreTasks (masters_of cluster.old) tasks }
    ensures ok { (command : Lanes → List Step) → EightTell R.segments cluster.old command tasks
        → OnOk result (Ends R.segments R.faults cluster.old cluster.new command said.old.items said.new.items) }
    ensures err { (command : Lanes → List Step) → EightTell R.segments cluster.old command tasks
        → IfErr result (Fails R.segments R.faults cluster.old cluster.new command said.old.items said.new.items) }
    ensures kept { Keeps said.old.items said.new.items }
    ensures masters { masters_of cluster.new ≡ masters_of cluster.old }
    ensures backups { backups_of cluster.new ≡ backups_of cluster.old }
    ensures counts { CountsGoOn R.faults [] cluster.old cluster.new }
    ensures cause { IfErr result (HasFaults R.faults cluster.old cluster.new) }
{
    let mut progress = Progress::after(mem::replace(said, Vec::new(alloc)));
    let end = make_moves(cluster, tasks, &mut progress);
    *said = progress.said;
    end
}

// The tasks make their moves until none is left.
fn make_moves<R: Replica + Drop>(
    cluster: &mut Cluster<R>,
    tasks: Tasks,
    progress: &mut Progress,
) -> Result<(), SettleError>
    requires tasks { AreTasks (masters_of cluster.old) tasks }
    requires faults { progress.old.faults ≡ 0 }
    requires failing { progress.old.failing ≡ false }
    ensures ok { (command : Lanes → List Step) → EightTell R.segments cluster.old command tasks
        → OnOk result (Ends R.segments R.faults cluster.old cluster.new command progress.old.said.items progress.new.said.items) }
    ensures err { (command : Lanes → List Step) → EightTell R.segments cluster.old command tasks
        → IfErr result (Fails R.segments R.faults cluster.old cluster.new command progress.old.said.items progress.new.said.items) }
    ensures kept { Keeps progress.old.said.items progress.new.said.items }
    ensures masters { masters_of cluster.new ≡ masters_of cluster.old }
    ensures backups { backups_of cluster.new ≡ backups_of cluster.old }
    ensures counts { CountsGoOn R.faults [] cluster.old cluster.new }
    ensures cause { IfErr result (HasFaults R.faults cluster.old cluster.new) }
{
    // By the contract of `masters`, the cluster has eight lanes.
    let _masters = cluster.masters();
    let mut tasks = tasks;
    for _ in 0..u64::MAX {
        let Some(task) = tasks.pop() else {
            return Ok(());
        };
        if !is_spared(cluster, task) {
            perform(cluster, &mut tasks, progress, task)?;
        }
    }
    Err(SettleError::TooLong)
}

// Whether a task is over as soon as it comes: the turns in a lane where none would leave anything.
fn is_spared<R: Replica + Drop>(cluster: &Cluster<R>, task: Task) -> bool
    requires { IsTask (masters_of cluster.now) task }
    ensures { result ≡ true → (rest : List Step) (progress : Came)
        → MovesAll R.segments R.faults cluster.now cluster.now (task ∷ rest) rest progress progress }
{
    match task {
        Task::Turns { lane } => cluster.rests_in(lane),
        _ => false,
    }
}

// What is handed out: the messages of a lane that were sent after a number, with the answers to them, as far as they are on a topic.
struct Handing {
    lane: u8,
    topic: Topic,
    from: u64,
}

// The first task makes its move. If it sorts messages of which none is to be forgotten, the next of them is handed out at once.
fn perform<R: Replica + Drop>(
    cluster: &mut Cluster<R>,
    tasks: &mut Tasks,
    progress: &mut Progress,
    task: Task,
) -> Result<(), SettleError>
    requires task { IsTask (masters_of cluster.old) task }
    requires left { AreTasks (masters_of cluster.old) tasks.old }
    requires faults { progress.old.faults < 2 ^ 64 - 1 }
    ensures ok { OnOk result (MovesAll R.segments R.faults cluster.old cluster.new (task ∷ tasks.old) tasks.new progress.old progress.new) }
    ensures err { IfErr result (StopsLater R.segments R.faults cluster.old cluster.new (task ∷ tasks.old) progress.old progress.new.said.items) }
    ensures lawful { OnOk result (AreTasks (masters_of cluster.new) tasks.new) }
    ensures faults { progress.new.faults ≤ progress.old.faults + 1 }
    ensures masters { masters_of cluster.new ≡ masters_of cluster.old }
    ensures backups { backups_of cluster.new ≡ backups_of cluster.old }
    ensures counts { CountsGoOn R.faults [] cluster.old cluster.new }
    ensures failed { OnOk result (KeepsUp R.faults cluster.old cluster.new progress.old progress.new) }
    ensures cause { IfErr result (λ e. IsOfReplicas e → most_faults ≤ progress.old.faults) }
{
    match handing_of(cluster, task) {
        Some(handing) => hand_out(cluster, tasks, progress, handing),
        None => make_move(cluster, tasks, progress, task),
    }
}

// What a task that sorts messages hands out, if none of them is to be forgotten; none for other tasks. A search for each message.
fn handing_of<R: Replica + Drop>(cluster: &Cluster<R>, task: Task) -> Option<Handing>
    requires { IsTask (masters_of cluster.now) task }
    ensures there { IfSome result (λ it. it.lane < LANES) }
    ensures moves { IfSome result (λ it. (rest : List Step) (progress : Came) → Moves R.segments R.faults cluster.now cluster.now
        (task ∷ rest) (made.Hands it.lane it.topic it.from ∷ rest) progress progress) }
{
    let Task::Sorts {
        lane,
        topic,
        from,
        last,
    } = task
    else {
        return None;
    };
    // Without memory to read a frame, the task is left to its own move.
    let Ok(off) = first_off(wire_of(lane_of(cluster, lane)), topic, last) else {
        return None;
    };
    match off {
        Some(_) => None,
        None => Some(Handing { lane, topic, from }),
    }
}

// The oldest message of those that are handed out, if there is one, is delivered and forgotten; then what that made its receiver send is
// to be sorted.
fn hand_out<R: Replica + Drop>(
    cluster: &mut Cluster<R>,
    tasks: &mut Tasks,
    progress: &mut Progress,
    handing: Handing,
) -> Result<(), SettleError>
    requires there { handing.lane < LANES }
    requires left { AreTasks (masters_of cluster.old) tasks.old }
    ensures ok { OnOk result (MovesAll R.segments R.faults cluster.old cluster.new
        (made.Hands handing.lane handing.topic handing.from ∷ tasks.old) tasks.new progress.old progress.new) }
    ensures err { IfErr result (StopsLater R.segments R.faults cluster.old cluster.new
        (made.Hands handing.lane handing.topic handing.from ∷ tasks.old) progress.old progress.new.said.items) }
    ensures lawful { OnOk result (AreTasks (masters_of cluster.new) tasks.new) }
    ensures faults { progress.new.faults ≡ progress.old.faults }
    ensures masters { masters_of cluster.new ≡ masters_of cluster.old }
    ensures backups { backups_of cluster.new ≡ backups_of cluster.old }
    ensures counts { CountsGoOn R.faults [] cluster.old cluster.new }
    ensures failed { OnOk result (KeepsUp R.faults cluster.old cluster.new progress.old progress.new) }
    ensures cause { IfErr result (λ e. IsOfReplicas e → ⊥) }
{
    let Handing { lane, topic, from } = handing;
    let wire = wire_of(lane_of(cluster, lane));
    let Some(number) = oldest_after(wire, from) else {
        return Ok(());
    };
    let last = wire.sent();
    tasks.push(Task::Sorts {
        lane,
        topic,
        from: number,
        last,
    })?;
    deliver(cluster, progress, lane, number)?;
    cluster.lose(lane, number);
    Ok(())
}

// The first task makes its move.
fn make_move<R: Replica + Drop>(
    cluster: &mut Cluster<R>,
    tasks: &mut Tasks,
    progress: &mut Progress,
    task: Task,
) -> Result<(), SettleError>
    requires task { IsTask (masters_of cluster.old) task }
    requires left { AreTasks (masters_of cluster.old) tasks.old }
    requires faults { progress.old.faults < 2 ^ 64 - 1 }
    ensures ok { OnOk result (Moves R.segments R.faults cluster.old cluster.new (task ∷ tasks.old) tasks.new progress.old progress.new) }
    ensures err { IfErr result (Stops R.segments cluster.old cluster.new (task ∷ tasks.old) progress.old) }
    ensures silent { IfErr result (λ e. progress.new.said.items ≡ progress.old.said.items) }
    ensures lawful { OnOk result (AreTasks (masters_of cluster.new) tasks.new) }
    ensures faults { progress.new.faults ≤ progress.old.faults + 1 }
    ensures masters { masters_of cluster.new ≡ masters_of cluster.old }
    ensures backups { backups_of cluster.new ≡ backups_of cluster.old }
    ensures counts { CountsGoOn R.faults [] cluster.old cluster.new }
    ensures failed { OnOk result (KeepsUp R.faults cluster.old cluster.new progress.old progress.new) }
    ensures cause { IfErr result (λ e. IsOfReplicas e → most_faults ≤ progress.old.faults) }
{
    match task {
        Task::Occurs { lane, act } => occur(cluster, lane, act),
        Task::Delivers { lane, number } => deliver(cluster, progress, lane, number),
        Task::Begins => begin(progress),
        Task::Ends => {
            end(progress);
            Ok(())
        }
        _ => Ok(unfold(tasks, cluster, task)?),
    }
}

// Something occurs, if somebody acts.
fn occur<R: Replica + Drop>(cluster: &mut Cluster<R>, lane: u8, act: Act) -> Result<(), SettleError>
    requires there { lane < LANES }
    requires act { IsAct (masters_of cluster.old) act }
    ensures ok { OnOk result ((rest : List Step) (progress : Came) → Moves R.segments R.faults cluster.old cluster.new
        (made.Occurs lane act ∷ rest) rest progress progress) }
    ensures err { IfErr result (λ e. (rest : List Step) (progress : Came) → Stops R.segments cluster.old cluster.new
        (made.Occurs lane act ∷ rest) progress e) }
    ensures masters { masters_of cluster.new ≡ masters_of cluster.old }
    ensures backups { backups_of cluster.new ≡ backups_of cluster.old }
    ensures counts { CountsGoOn R.faults [] cluster.old cluster.new }
    ensures cause { IfErr result (λ e. IsOfReplicas e → ⊥) }
{
    match act {
        Act::Happens(event) => cluster.happen(lane, event)?,
        Act::Asks(client) => {
            if cluster.session(client).is_some() {
                cluster.ask_in(lane, client)?;
            }
        }
    }
    Ok(())
}

// The message of a number, if it is there and somebody takes it, is delivered; what its receiver says is recorded.
fn deliver<R: Replica + Drop>(
    cluster: &mut Cluster<R>,
    progress: &mut Progress,
    lane: u8,
    number: u64,
) -> Result<(), SettleError>
    requires { lane < LANES }
    ensures ok { OnOk result ((rest : List Step) → Moves R.segments R.faults cluster.old cluster.new
        (made.Delivers lane number ∷ rest) rest progress.old progress.new) }
    ensures err { IfErr result (λ e. (rest : List Step) → Stops R.segments cluster.old cluster.new
        (made.Delivers lane number ∷ rest) progress.old e) }
    ensures silent { IfErr result (λ e. progress.new.said.items ≡ progress.old.said.items) }
    ensures faults { progress.new.faults ≡ progress.old.faults }
    ensures masters { masters_of cluster.new ≡ masters_of cluster.old }
    ensures backups { backups_of cluster.new ≡ backups_of cluster.old }
    ensures counts { CountsGoOn R.faults [] cluster.old cluster.new }
    ensures failed { OnOk result (KeepsUp R.faults cluster.old cluster.new progress.old progress.new) }
    ensures cause { IfErr result (λ e. IsOfReplicas e → ⊥) }
{
    let Delivered { said, failed } = cluster.deliver_in(lane, number)?;
    tell(&mut progress.said, said)?;
    progress.failing |= failed;
    Ok(())
}

// Puts what a client said, if it said something, behind the rest.
fn tell(into: &mut Vec<Said>, said: Option<Said>) -> Result<(), NoMemory>
    ensures ok { OnOk result (into.new.items ≡ into.old.items ++ option_to_list said) }
    ensures err { IfErr result (λ e. into.new.items ≡ into.old.items) }
{
    match said {
        Some(said) => {
            into.push(said)?;
            Ok(())
        }
        None => Ok(()),
    }
}

// A round of the limit of faults begins, unless replicas have failed in as many rounds as they may.
fn begin(progress: &mut Progress) -> Result<(), SettleError>
    ensures ok { OnOk result (progress.old.faults < most_faults) }
    ensures err { IfErr result (λ e. (e ≡ errors.Replica progress.old.faults) × (most_faults ≤ progress.old.faults)) }
    ensures same { progress.new ≡ progress.old }
{
    if progress.faults >= MOST_FAULTS {
        return Err(SettleError::Replica(progress.faults));
    }
    Ok(())
}

// A round is over: it counts if a replica failed in it.
fn end(progress: &mut Progress)
    requires { progress.old.faults < 2 ^ 64 - 1 }
    ensures { progress.new ≡ (record progress.old { faults = progress.old.faults + (if progress.old.failing then 1 else 0); failing = false }) }
{
    if progress.failing {
        progress.faults += 1;
        progress.failing = false;
    }
}
