// A number above every version that counts.
ghost use Rattle.std.specs.Prelude.{◌≡◌, fold, IfOk};
ghost use Rattle.rk_world.specs.Merge.{floor_by as floor_by_lem, floor_of as floor_of_lem};
ghost use Rattle.rk_rebuild.specs.Lent.{lent};

use rk_entry::Entry;
use rk_types::NoMemory;

/// The least number that is above each version of these entries and not below each floor of them, and at least 1. A
/// step for each entry. `NoMemory` comes if no number of 64 bits is above a version.
pub(crate) fn floor_of(entries: &[&Entry]) -> Result<u64, NoMemory>
    ensures { IfOk result (λ floor. floor ≡ floor_of_lem (lent entries.now)) }
{
    let mut floor = 1;
    for entry in entries {
        floor = raised(floor, entry)?;
    }
    Ok(floor)
}

// The floor, raised by an entry.
fn raised(floor: u64, entry: &Entry) -> Result<u64, NoMemory>
    ensures { IfOk result (λ raised. raised ≡ floor_by_lem floor entry.now) }
{
    match entry {
        Entry::Held(held) => {
            if held.version == u64::MAX {
                return Err(NoMemory);
            }
            Ok(floor.max(held.version + 1))
        }
        Entry::Refused(_) | Entry::Joined(_) => Ok(floor),
        Entry::Carried(carried) => Ok(floor.max(carried.floor)),
    }
}
