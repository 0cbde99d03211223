// Whether a lane rests.
ghost use Rattle.std.specs.Prelude.{◌≡◌, ℕ, false, true, length, [], IfSome};
ghost use Rattle.rk_types.specs.NumberMap.{NumberMap};
ghost use Rattle.rk_outside.specs.Segments.{Segments};
ghost use Rattle.rk_world.specs.Premises.{IsMaster};
ghost use Rattle.rk_world.specs.World.{has_crashed};
ghost use Rattle.rk_lane.specs.Parts.{IsKept, world_of};
ghost use Rattle.rk_lane.specs.Resting.{IsResting, SendsNothing};

use crate::masters::rests_at;
use crate::parts::Parts;

/// Whether no turn would leave anything in a lane that is not worn, as far as a look shows. A look at each row, each master and each
/// of its tablets and backups.
pub(crate) fn rests(parts: &Parts) -> bool
    requires { IsKept parts.now }
    ensures { result ≡ true → (stored : NumberMap Segments) → IsResting (world_of parts.now stored) }
{
    if parts.worn().is_some() {
        return false;
    }
    parts.coordinator.rests() && masters_rest(parts)
}

// Whether each master has crashed, or would send nothing.
fn masters_rest(parts: &Parts) -> bool
    requires { IsKept parts.now }
    ensures { result ≡ true → (master : ℕ) → IsMaster (length parts.now.masters.items) master → has_crashed (world_of parts.now []) master ≡ false
        → SendsNothing parts.now.masters.items master }
{
    for index in 0..parts.coordinator.masters() {
        if !is_at_rest(parts, index + 1) {
            return false;
        }
    }
    true
}

// Whether a master has crashed, or would send nothing.
fn is_at_rest(parts: &Parts, master: u8) -> bool
    requires { IsMaster (length parts.now.masters.items) master }
    ensures { result ≡ true → has_crashed (world_of parts.now []) master ≡ false → SendsNothing parts.now.masters.items master }
{
    parts.has_crashed(master) || rests_at(&parts.masters, master)
}
