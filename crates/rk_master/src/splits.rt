// A tablet is split by its owner.
ghost use Rattle.std.specs.Prelude.{◌≡◌, ◌<◌, OnOk};
ghost use Rattle.rk_types.specs.NumberMap.{insert};
ghost use Rattle.rk_world.specs.Ranges as ranges;
ghost use Rattle.rk_world.specs.Splits as splits;
ghost use Rattle.rk_tablet.specs.Tablets.{tablet_of};
ghost use Rattle.rk_master.specs.Parts.{AreTablets, IsClosable, tablets_of};
ghost use Rattle.rk_master.specs.State.{IsState, master_of};

use crate::state::MasterState;
use crate::tablets::{hand, search};
use rk_tablet::{TabletLane, half_of};
use rk_types::{NoMemory, Range};

/// The tablet of this number is split at a hash, if both parts have one: both are served from now on at this term, the
/// part from the hash on under the number `new`. Three binary searches, what an insertion takes, and a copy of what the
/// tablet has.
pub(crate) fn split(
    state: &mut MasterState,
    tablet: u32,
    at: u64,
    new: u32,
    term: u64,
) -> Result<(), NoMemory>
    requires { IsState state.old }
    ensures state { OnOk result (IsState state.new) }
    ensures ok { OnOk result (master_of state.new ≡ splits.with_split (master_of state.old) tablet at new term) }
{
    let Ok(place) = search(state.tablets.as_slice(), tablet) else {
        return Ok(());
    };
    let lane = &state.tablets[place].1;
    let before = lane.handover;
    if !has_parts(&before.range, at) {
        return Ok(());
    }
    let upper = lane.half(range_from(before.range, at), term)?;
    let lower = half_of(before, range_below(before.range, at), term);
    hand(&mut state.tablets, tablet, lower)?;
    put(&mut state.tablets, new, upper)?;
    Ok(())
}

// Whether both parts of a range have a hash if it is split at this one.
fn has_parts(range: &Range, at: u64) -> bool
    ensures { result ≡ splits.has_parts range.now at }
{
    range.first < at && at <= range.last
}

// The part of a range that is below a hash.
fn range_below(range: Range, at: u64) -> Range
    requires { 0 < at }
    ensures { result ≡ ranges.range_below range at }
{
    Range {
        table: range.table,
        first: range.first,
        last: at - 1,
    }
}

// The part of a range that begins at a hash.
fn range_from(range: Range, at: u64) -> Range
    ensures { result ≡ ranges.range_from range at }
{
    Range {
        table: range.table,
        first: at,
        last: range.last,
    }
}

// The tablet of this number is so from now on. A binary search, and what an insertion takes.
fn put(tablets: &mut Vec<(u32, TabletLane)>, number: u32, lane: TabletLane) -> Result<(), NoMemory>
    requires tablets { AreTablets tablets.old.items }
    requires closable { IsClosable (tablet_of lane) }
    ensures ok { OnOk result (tablets_of tablets.new.items ≡ insert (tablets_of tablets.old.items) number (tablet_of lane)) }
    ensures tablets { OnOk result (AreTablets tablets.new.items) }
{
    match search(tablets.as_slice(), number) {
        Ok(at) => {
            tablets[at].1 = lane;
            Ok(())
        }
        Err(at) => {
            tablets.insert(at, (number, lane))?;
            Ok(())
        }
    }
}
