// How priority goes on in a lane.
ghost use Rattle.std.specs.Prelude.{◌++◌, OnOk, ◌<◌};
ghost use Rattle.rk_settle.specs.Lawful.{AreTasks};
ghost use Rattle.rk_types.specs.declared.hashing.TheConstants.{LANES};
ghost use Rattle.rk_world.specs.Premises.{IsMaster};
ghost use Rattle.rk_world.specs.World.{tablet_in};
ghost use Rattle.rk_cluster.specs.Told.{LaneTells};
ghost use Rattle.rk_settle.specs.Priority as priority;

use crate::acts::turn_exchange;
use crate::looks::{role_at, row_at, waits_at};
use crate::tasks::Tasks;
use crate::topic::Topic;
use rk_lane::Lane;
use rk_outside::Replica;
use rk_tablet_map::Phase;
use rk_transfer::Role;
use rk_types::{NoMemory, Node};

/// The target of a tablet, if that moves, asks for what it wants first, and gets it. A step for each row.
pub(crate) fn hasten<R: Replica + Drop>(
    tasks: &mut Tasks,
    at: &Lane<R>,
    lane: u8,
    tablet: u32,
) -> Result<(), NoMemory>
    ensures pushed { OnOk result (LaneTells R.segments at.now (λ w. priority.hasten_tasks w lane tablet ++ tasks.old) tasks.new) }
    ensures lawful { OnOk result (lane < LANES → AreTasks at.now.masters tasks.old → AreTasks at.now.masters tasks.new) }
{
    let Some(row) = row_at(at, tablet) else {
        return Ok(());
    };
    let Phase::Moving { target, .. } = row.phase else {
        return Ok(());
    };
    if !wants_first(at, target, tablet) {
        return Ok(());
    }
    tasks.push(turn_exchange(lane, Topic::Wants(tablet), Node::Master(target)))
}

// Whether a target that pulls wants some records first.
fn wants_first<R: Replica + Drop>(at: &Lane<R>, target: u8, tablet: u32) -> bool
    requires { IsMaster at.now.masters target }
    ensures { LaneTells R.segments at.now (λ w. priority.wants_first (tablet_in w target tablet)) result }
{
    matches!(role_at(at, target, tablet), Role::Receiving) && waits_at(at, target, tablet)
}
