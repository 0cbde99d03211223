// What a lane sums up of its masters.
ghost use Rattle.std.specs.Prelude.{◌≡◌, ◌-◌, ◌^◌, map, min, sum};
ghost use Rattle.rk_log.specs.Cut.{EachFits};
ghost use Rattle.rk_world.specs.Master.{log_bytes as log_bytes_lem, unsealed_bytes as unsealed_bytes_lem};
ghost use Rattle.rk_world.specs.World.{greatest};
ghost use Rattle.rk_master.specs.Parts.{tablets_of};
ghost use Rattle.rk_master.specs.State.{master_of};

use crate::state::MasterState;
use rk_tablet::TabletLane;

/// How many bytes a master's segments have, and those of side logs that are not sealed; 2^64 - 1 if they are more. A look
/// at each tablet.
pub(crate) fn log_bytes(state: &MasterState) -> u64
    ensures bytes { result ≡ min (log_bytes_lem (master_of state.now)) (2 ^ 64 - 1) }
    ensures fits { EachFits state.now.log.entries }
{
    let unsealed = unsealed_bytes(state.tablets.as_slice());
    state.log.size().saturating_add(unsealed)
}

// How many bytes the side logs of tablets have that are not sealed; 2^64 - 1 if they are more.
fn unsealed_bytes(tablets: &[(u32, TabletLane)]) -> u64
    ensures { result ≡ min (sum (map (λ entry. unsealed_bytes_lem entry.1) (tablets_of tablets.now))) (2 ^ 64 - 1) }
{
    let mut bytes: u64 = 0;
    for entry in tablets {
        bytes = bytes.saturating_add(entry.1.sides.bytes());
    }
    bytes
}

/// The greatest counter of tablets, and 0 if there is none. A look at each tablet.
pub(crate) fn greatest_counter(tablets: &[(u32, TabletLane)]) -> u64
    ensures { result ≡ greatest (map (λ entry. entry.1.handover.counter) (tablets_of tablets.now)) }
{
    let mut greatest = 0;
    for entry in tablets {
        greatest = greatest.max(entry.1.handover.counter);
    }
    greatest
}
