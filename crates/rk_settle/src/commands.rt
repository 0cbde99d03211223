// The settling commands.
ghost use Rattle.std.specs.Prelude.{◌≡◌, ◌++◌, [], List, map, IfErr, OnOk};
ghost use Rattle.std.specs.List.{range_with_len};
ghost use Rattle.rk_types.specs.declared.hashing.TheConstants.{LANES};
ghost use Rattle.rk_cluster.specs.Faults.{CountsGoOn};
ghost use Rattle.rk_cluster.specs.Masters.{backups_of, masters_of};
ghost use Rattle.rk_settle.specs.Advance.{advance as advance_lem};
ghost use Rattle.rk_settle.specs.Faults.{HasFaults};
ghost use Rattle.rk_settle.specs.Lawful.{AreTasks};
ghost use Rattle.rk_settle.specs.Outcomes.{Ends, Fails, Keeps};
ghost use Rattle.rk_settle.specs.Priority.{priority as priority_lem};
ghost use Rattle.rk_settle.specs.Serve.{serve as serve_lem};
ghost use Rattle.rk_settle.specs.Settle.{settle as settle_lem};
ghost use Rattle.rk_settle.specs.States.{ClusterTells};
ghost use Rattle.rk_settle.specs.declared.task.Task.TheVariants as tasks;

use crate::course::run;
use crate::error::SettleError;
use crate::task::Task;
use crate::tasks::Tasks;
use rk_cluster::Cluster;
use rk_outside::Replica;
use rk_types::{NoMemory, Reach, Said, hash, lane_of};
use std::alloc::Global;

/// Crashed masters are noticed, and then rounds run until the cluster is at rest: in each lane the nodes take their turns,
/// and the wire is emptied. What clients say is put behind what was said before, in each of these commands. `Worn` comes if a number of a
/// lane has grown too great, and `Replica` if replicas failed in a hundred rounds: what came before has happened, and what clients said up
/// to then is there. After `NoMemory` and `TooLong` what they said up to some move is there.
pub fn settle<R: Replica + Drop>(
    alloc: Global,
    cluster: &mut Cluster<R>,
    said: &mut Vec<Said>,
) -> Result<(), SettleError>
    ensures ok { OnOk result (Ends R.segments R.faults cluster.old cluster.new settle_lem said.old.items said.new.items) }
    ensures err { IfErr result (Fails R.segments R.faults cluster.old cluster.new settle_lem said.old.items said.new.items) }
    ensures kept { Keeps said.old.items said.new.items }
    ensures masters { masters_of cluster.new ≡ masters_of cluster.old }
    ensures backups { backups_of cluster.new ≡ backups_of cluster.old }
    ensures counts { CountsGoOn R.faults [] cluster.old cluster.new }
    ensures cause { IfErr result (HasFaults R.faults cluster.old cluster.new) }
{
    let mut tasks = Tasks::new(alloc);
    tasks.push(Task::Settles)?;
    tasks.push_all(&notices())?;
    run(alloc, cluster, tasks, said)
}

/// The outstanding call of a client is brought on, up to its answer if it can be had: if the client does not know who owns
/// the key, it asks; its request is delivered, once more after a Moved, and committed. A client without an outstanding call does
/// nothing.
pub fn serve<R: Replica + Drop>(
    alloc: Global,
    cluster: &mut Cluster<R>,
    client: u32,
    said: &mut Vec<Said>,
) -> Result<(), SettleError>
    ensures ok { OnOk result (Ends R.segments R.faults cluster.old cluster.new (λ c. serve_lem c client) said.old.items said.new.items) }
    ensures err { IfErr result (Fails R.segments R.faults cluster.old cluster.new (λ c. serve_lem c client)
        said.old.items said.new.items) }
    ensures kept { Keeps said.old.items said.new.items }
    ensures masters { masters_of cluster.new ≡ masters_of cluster.old }
    ensures backups { backups_of cluster.new ≡ backups_of cluster.old }
    ensures counts { CountsGoOn R.faults [] cluster.old cluster.new }
    ensures cause { IfErr result (HasFaults R.faults cluster.old cluster.new) }
{
    let mut tasks = Tasks::new(alloc);
    push_serve(&mut tasks, cluster, client)?;
    run(alloc, cluster, tasks, said)
}

/// In each lane where a tablet moves, its target asks for the records that it wants first, if it wants some, and gets them.
pub fn priority<R: Replica + Drop>(
    alloc: Global,
    cluster: &mut Cluster<R>,
    tablet: u32,
    said: &mut Vec<Said>,
) -> Result<(), SettleError>
    ensures ok { OnOk result (Ends R.segments R.faults cluster.old cluster.new (λ c. priority_lem c tablet) said.old.items said.new.items) }
    ensures err { IfErr result (Fails R.segments R.faults cluster.old cluster.new (λ c. priority_lem c tablet)
        said.old.items said.new.items) }
    ensures kept { Keeps said.old.items said.new.items }
    ensures masters { masters_of cluster.new ≡ masters_of cluster.old }
    ensures backups { backups_of cluster.new ≡ backups_of cluster.old }
    ensures counts { CountsGoOn R.faults [] cluster.old cluster.new }
    ensures cause { IfErr result (HasFaults R.faults cluster.old cluster.new) }
{
    let mut tasks = Tasks::new(alloc);
    tasks.push_all(&hastenings(tablet))?;
    run(alloc, cluster, tasks, said)
}

/// In each lane where a tablet migrates and is short of a reach, the migration is brought there.
pub fn advance<R: Replica + Drop>(
    alloc: Global,
    cluster: &mut Cluster<R>,
    tablet: u32,
    reach: Reach,
    said: &mut Vec<Said>,
) -> Result<(), SettleError>
    ensures ok { OnOk result (Ends R.segments R.faults cluster.old cluster.new (λ c. advance_lem c tablet reach) said.old.items said.new.items) }
    ensures err { IfErr result (Fails R.segments R.faults cluster.old cluster.new (λ c. advance_lem c tablet reach)
        said.old.items said.new.items) }
    ensures kept { Keeps said.old.items said.new.items }
    ensures masters { masters_of cluster.new ≡ masters_of cluster.old }
    ensures backups { backups_of cluster.new ≡ backups_of cluster.old }
    ensures counts { CountsGoOn R.faults [] cluster.old cluster.new }
    ensures cause { IfErr result (HasFaults R.faults cluster.old cluster.new) }
{
    let mut tasks = Tasks::new(alloc);
    tasks.push_all(&advances(tablet, reach))?;
    run(alloc, cluster, tasks, said)
}

// The outstanding call of a client, if there is one, is tried in its lane.
fn push_serve<R: Replica + Drop>(
    tasks: &mut Tasks,
    cluster: &Cluster<R>,
    client: u32,
) -> Result<(), NoMemory>
    ensures pushed { OnOk result (ClusterTells R.segments cluster.now (λ c. serve_lem c client ++ tasks.old) tasks.new) }
    ensures lawful { OnOk result (AreTasks (masters_of cluster.now) tasks.old → AreTasks (masters_of cluster.now) tasks.new) }
{
    let Some(session) = cluster.session(client) else {
        return Ok(());
    };
    let Some(call) = session.outstanding() else {
        return Ok(());
    };
    let lane = lane_of(hash(call.key.bytes()));
    tasks.push(Task::Tries {
        lane,
        client,
        times: 1,
    })
}

// Crashed masters are noticed in each lane.
fn notices() -> [Task; 8]
    ensures { result ≡ map (tasks.Notices) (range_with_len 0 LANES) }
{
    [
        Task::Notices { lane: 0 },
        Task::Notices { lane: 1 },
        Task::Notices { lane: 2 },
        Task::Notices { lane: 3 },
        Task::Notices { lane: 4 },
        Task::Notices { lane: 5 },
        Task::Notices { lane: 6 },
        Task::Notices { lane: 7 },
    ]
}

// What the target of a tablet wants first is sent for in each lane.
fn hastenings(tablet: u32) -> [Task; 8]
    ensures { result ≡ map (λ lane. tasks.Hastens lane tablet) (range_with_len 0 LANES) }
{
    [
        Task::Hastens { lane: 0, tablet },
        Task::Hastens { lane: 1, tablet },
        Task::Hastens { lane: 2, tablet },
        Task::Hastens { lane: 3, tablet },
        Task::Hastens { lane: 4, tablet },
        Task::Hastens { lane: 5, tablet },
        Task::Hastens { lane: 6, tablet },
        Task::Hastens { lane: 7, tablet },
    ]
}

// The migration of a tablet is brought to a reach in each lane.
fn advances(tablet: u32, reach: Reach) -> [Task; 8]
    ensures { result ≡ map (λ lane. tasks.Advances lane tablet reach) (range_with_len 0 LANES) }
{
    let to = |lane| Task::Advances {
        lane,
        tablet,
        reach,
    };
    [to(0), to(1), to(2), to(3), to(4), to(5), to(6), to(7)]
}
