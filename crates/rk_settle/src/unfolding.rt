// How a task unfolds into smaller ones, by the cluster as it is when its turn comes.
ghost use Rattle.std.specs.Prelude.{◌≡◌, ◌++◌, ◌<◌, OnOk};
ghost use Rattle.rk_types.specs.declared.hashing.TheConstants.{LANES};
ghost use Rattle.rk_world.specs.Cluster.{lane_at, session_at};
ghost use Rattle.rk_cluster.specs.Masters.{masters_of};
ghost use Rattle.std.specs.List.{list_all};
ghost use Rattle.rk_cluster.specs.Told.{LanesTell};
ghost use Rattle.rk_settle.specs.Lawful.{AreTasks, IsMigrating, IsServed, IsTask};
ghost use Rattle.rk_settle.specs.Rest.{is_at_rest as is_at_rest_lem, is_silent};
ghost use Rattle.rk_settle.specs.States.{ClusterTells, IsLaneOf};
ghost use Rattle.rk_settle.specs.Settle as settle;
ghost use Rattle.rk_settle.specs.Unfolding.{unfolded};

use crate::looks::wire_of;
use crate::task::Task;
use crate::tasks::Tasks;
use crate::{advancing, exchange, hastening, serving, settling};
use rk_cluster::Cluster;
use rk_lane::Lane;
use rk_outside::Replica;
use rk_types::NoMemory;

/// The tasks that a task unfolds into come before all others; none for a task that makes an occurrence, or begins or ends a
/// round.
pub(crate) fn unfold<R: Replica + Drop>(
    tasks: &mut Tasks,
    cluster: &Cluster<R>,
    task: Task,
) -> Result<(), NoMemory>
    requires task { IsTask (masters_of cluster.now) task }
    requires left { AreTasks (masters_of cluster.now) tasks.old }
    ensures ok { OnOk result (ClusterTells R.segments cluster.now (λ c. unfolded c task ++ tasks.old) tasks.new) }
    ensures lawful { OnOk result (AreTasks (masters_of cluster.now) tasks.new) }
{
    match task {
        Task::Exchanges { lane, topic, act } => {
            exchange::begin(tasks, wire_of(lane_of(cluster, lane)), lane, topic, act)
        }
        Task::Sorts {
            lane,
            topic,
            from,
            last,
        } => exchange::sort(
            tasks,
            wire_of(lane_of(cluster, lane)),
            lane,
            topic,
            from,
            last,
        ),
        Task::Hands { lane, topic, from } => {
            exchange::hand(tasks, wire_of(lane_of(cluster, lane)), lane, topic, from)
        }
        Task::Notices { lane } => {
            settling::notice(tasks, lane_of(cluster, lane), cluster.masters(), lane)
        }
        Task::Settles => settle(tasks, cluster),
        Task::Turns { lane } => turn(tasks, cluster, lane),
        Task::Empties { lane } => settling::empty(tasks, lane_of(cluster, lane), lane),
        _ => unfold_served(tasks, cluster, task),
    }
}

// The tasks that a task of serve unfolds into.
fn unfold_served<R: Replica + Drop>(
    tasks: &mut Tasks,
    cluster: &Cluster<R>,
    task: Task,
) -> Result<(), NoMemory>
    requires task { IsTask (masters_of cluster.now) task }
    requires left { AreTasks (masters_of cluster.now) tasks.old }
    requires other { IsServed task }
    ensures ok { OnOk result (ClusterTells R.segments cluster.now (λ c. unfolded c task ++ tasks.old) tasks.new) }
    ensures lawful { OnOk result (AreTasks (masters_of cluster.now) tasks.new) }
{
    match task {
        Task::Tries {
            lane,
            client,
            times,
        } => serving::attempt(tasks, cluster.session(client), lane, client, times),
        Task::Requests {
            lane,
            client,
            times,
        } => serving::request(tasks, cluster.session(client), lane, client, times),
        Task::Hears {
            lane,
            client,
            times,
            asked,
        } => serving::hear(tasks, cluster.session(client), lane, client, times, asked),
        Task::Commits {
            lane,
            client,
            asked,
        } => {
            let known = cluster.session(client);
            serving::commit(tasks, lane_of(cluster, lane), known, lane, client, asked)
        }
        _ => unfold_migrating(tasks, cluster, task),
    }
}

// The tasks that a task of a migration unfolds into.
fn unfold_migrating<R: Replica + Drop>(
    tasks: &mut Tasks,
    cluster: &Cluster<R>,
    task: Task,
) -> Result<(), NoMemory>
    requires task { IsTask (masters_of cluster.now) task }
    requires left { AreTasks (masters_of cluster.now) tasks.old }
    requires other { IsMigrating task }
    ensures ok { OnOk result (ClusterTells R.segments cluster.now (λ c. unfolded c task ++ tasks.old) tasks.new) }
    ensures lawful { OnOk result (AreTasks (masters_of cluster.now) tasks.new) }
{
    match task {
        Task::Hastens { lane, tablet } => {
            hastening::hasten(tasks, lane_of(cluster, lane), lane, tablet)
        }
        Task::Advances {
            lane,
            tablet,
            reach,
        } => advancing::advance(tasks, lane_of(cluster, lane), lane, tablet, reach),
        Task::Reaches {
            lane,
            tablet,
            reach,
        } => advancing::reach(tasks, lane_of(cluster, lane), lane, tablet, reach),
        Task::Freezes {
            lane,
            tablet,
            master,
        } => advancing::freeze(tasks, lane_of(cluster, lane), lane, tablet, master),
        _ => Ok(()),
    }
}

// A round, and then the next, while the cluster is not at rest.
fn settle<R: Replica + Drop>(tasks: &mut Tasks, cluster: &Cluster<R>) -> Result<(), NoMemory>
    requires { AreTasks (masters_of cluster.now) tasks.old }
    ensures ok { OnOk result (ClusterTells R.segments cluster.now (λ c. settle.settling_tasks c ++ tasks.old) tasks.new) }
    ensures lawful { OnOk result (AreTasks (masters_of cluster.now) tasks.new) }
{
    if is_at_rest(cluster) {
        return Ok(());
    }
    // By the contract of `masters`, the cluster has eight lanes.
    let _masters = cluster.masters();
    settling::round(tasks)
}

// Whether a cluster is at rest: it is quiet, and no message is on a wire.
fn is_at_rest<R: Replica + Drop>(cluster: &Cluster<R>) -> bool
    ensures { ClusterTells R.segments cluster.now is_at_rest_lem result }
{
    cluster.quiet() && are_silent(cluster.lanes())
}

// Whether no message is on a wire.
fn are_silent<R: Replica + Drop>(lanes: &[Lane<R>]) -> bool
    ensures { LanesTell R.segments lanes.now (λ c. list_all is_silent c.lanes) result }
{
    for lane in lanes {
        if wire_of(lane).oldest().is_some() {
            return false;
        }
    }
    true
}

// The nodes of a lane take their turns.
fn turn<R: Replica + Drop>(
    tasks: &mut Tasks,
    cluster: &Cluster<R>,
    lane: u8,
) -> Result<(), NoMemory>
    requires there { lane < LANES }
    requires left { AreTasks (masters_of cluster.now) tasks.old }
    ensures ok { OnOk result (ClusterTells R.segments cluster.now (λ c. settle.turn_tasks c lane ++ tasks.old) tasks.new) }
    ensures lawful { OnOk result (AreTasks (masters_of cluster.now) tasks.new) }
{
    let clients = cluster.clients_in(lane)?;
    let masters = cluster.live_in(lane)?;
    settling::turns(tasks, lane, &clients, &masters)
}

/// A lane of a cluster.
pub(crate) fn lane_of<R: Replica + Drop>(cluster: &Cluster<R>, lane: u8) -> &Lane<R>
    requires { lane < LANES }
    ensures lane { IsLaneOf R.segments cluster.now lane result.now }
    ensures masters { result.now.masters ≡ masters_of cluster.now }
{
    // By the contract of `masters`, there are eight lanes with so many each.
    let _masters = cluster.masters();
    &cluster.lanes()[lane as usize]
}
