// What a rebuild takes of the master's own log: its entries from a place on, and the side segments that they name.
ghost use Rattle.std.specs.Prelude.{◌≡◌, ◌<◌, ◌^◌, drop, IfOk, OnOk};
ghost use Rattle.rk_log.specs.Log.{segment_bytes};
ghost use Rattle.rk_tablet.specs.Tablets.{tablet_of};
ghost use Rattle.rk_tablet.specs.Rebuilding.{merged_with};
ghost use Rattle.rk_master.specs.Rebuilding.{AreRead, own_counted, side_read as side_read_lem, with_side_read};
ghost use Rattle.rk_master.specs.Sides.{AreSpelled};

use crate::staging::MOST_LOG_BYTES;
use rk_entry::{Entry, FIRST_SIDE_SEGMENT, entries};
use rk_log::MasterLog;
use rk_rebuild::{counted_entries, lend_each, named};
use rk_tablet::TabletLane;
use rk_types::{Listed, NoMemory, Numbered};
use rk_world::Merged;
use std::alloc::Global;

/// What a rebuild makes of what its tablet has gathered, and of the master's own entries of the range from a place on.
/// `NoMemory` also if the log is full, since nothing could be appended to it. The time to read the own
/// entries and the side segments that they name, and what [`rk_rebuild::Gather::merge`] takes.
pub(crate) fn merged(
    alloc: Global,
    log: &MasterLog,
    tablet: &TabletLane,
    from: u64,
) -> Result<Merged, NoMemory>
    requires { AreSpelled log.now.sides }
    ensures { IfOk result (λ merged. merged
        ≡ merged_with (tablet_of tablet.now) (own_counted log.now tablet.now.handover.range from)) }
{
    if log.size() >= MOST_LOG_BYTES {
        return Err(NoMemory);
    }
    let range = tablet.handover.range;
    let entries = entries_behind(log, from)?;
    let own = lend_each(alloc, entries.as_slice())?;
    let numbers = named(alloc, &range, own.as_slice())?;
    let sides = sides_read(alloc, log, numbers.as_slice())?;
    let counted = counted_entries(alloc, &range, own.as_slice(), &sides)?;
    tablet.merge(alloc, counted.as_slice())
}

// The entries of a log from a place on; none if it has fewer. It takes the time to read them.
fn entries_behind(log: &MasterLog, from: u64) -> Result<Vec<Entry>, NoMemory>
    ensures { IfOk result (λ entries. entries.items ≡ drop from log.now.entries) }
{
    log.entries_from(from.min(log.length()))
}

// The entries of these side segments, by number; a segment that is not there has none. A step for each byte of them, and
// a search for each segment.
fn sides_read(
    alloc: Global,
    log: &MasterLog,
    numbers: &[u32],
) -> Result<Numbered<Listed<Entry>>, NoMemory>
    requires { segment_bytes log.now < 2 ^ 31 }
    ensures { IfOk result (λ read. AreRead read log.now.sides numbers.now) }
{
    let mut read = Numbered::new(alloc);
    for number in numbers {
        read_side(&mut read, alloc, log, *number)?;
    }
    Ok(read)
}

// Reads the side segment of this number too.
fn read_side(
    read: &mut Numbered<Listed<Entry>>,
    alloc: Global,
    log: &MasterLog,
    number: u32,
) -> Result<(), NoMemory>
    requires { segment_bytes log.now < 2 ^ 31 }
    ensures { OnOk result (read.new ≡ with_side_read log.now.sides read.old number) }
{
    let side = side_read(alloc, log, number)?;
    read.insert(u64::from(number), side)?;
    Ok(())
}

// The entries of the side segment of this number.
fn side_read(alloc: Global, log: &MasterLog, number: u32) -> Result<Listed<Entry>, NoMemory>
    requires { segment_bytes log.now < 2 ^ 31 }
    ensures { IfOk result (λ side. side ≡ side_read_lem log.now.sides number) }
{
    if number < FIRST_SIDE_SEGMENT {
        return Ok(Listed::new(alloc));
    }
    let (side, _) = entries(alloc, log.bytes(number))?;
    Ok(Listed::from_vec(side))
}
