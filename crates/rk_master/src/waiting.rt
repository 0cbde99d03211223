// What waits at a master until backups hold more: a tablet that closes freezes once nothing of it is staged, and a target
// that has all appends its closing entry once its side segments are stored.
ghost use Rattle.std.specs.Prelude.{◌≡◌, ℕ, ◌≤◌, ◌<◌, ◌+◌, Some, None, not, length, drop, slice_get, OnOk};
ghost use Rattle.std.specs.List.{list_all, list_any};
ghost use Rattle.rk_log.specs.Log.{is_side_stored};
ghost use Rattle.rk_transfer.specs.Handover.{frozen};
ghost use Rattle.rk_world.specs.Ranges.{has_key as has_key_lem};
ghost use Rattle.rk_world.specs.Master.{touches as touches_lem};
ghost use Rattle.rk_world.specs.Waiting as waiting;
ghost use Rattle.rk_tablet.specs.Tablets.{tablet_of};
ghost use Rattle.rk_types.specs.Places.{IsAt};
ghost use Rattle.rk_master.specs.Places.{Row};
ghost use Rattle.rk_master.specs.State.{IsState, master_of};

use crate::staging::append;
use crate::state::MasterState;
use rk_entry::Entry;
use rk_log::MasterLog;
use rk_staged::StagedEntries;
use rk_tablet::TabletLane;
use rk_transfer::Role;
use rk_types::{Key, NoMemory, Range, hash};

/// What was waited for goes on, tablet by tablet. A look at each tablet; for a tablet that closes, a step for each staged
/// entry, and for a target that has all, one for each of its side segments and each backup.
pub(crate) fn go_on(state: &mut MasterState) -> Result<(), NoMemory>
    requires { IsState state.old }
    ensures state { OnOk result (IsState state.new) }
    ensures ok { OnOk result (master_of state.new ≡ waiting.all_going_on (master_of state.old) (master_of state.old).tablets) }
{
    for at in 0..state.tablets.len() {
        go_on_at(state, at)?;
    }
    Ok(())
}

// What was waited for goes on in the tablet at a place.
fn go_on_at(state: &mut MasterState, at: usize) -> Result<(), NoMemory>
    requires state { IsState state.old }
    requires within { at < length state.old.tablets.items }
    ensures state { OnOk result (IsState state.new) }
    ensures ok { OnOk result ((row : Row) → slice_get state.old.tablets.items at ≡ Some row
        → master_of state.new ≡ waiting.going_on_in (master_of state.old) row.0 (tablet_of row.1) row.1.handover.role) }
    ensures behind { drop (at + 1) state.new.tablets.items ≡ drop (at + 1) state.old.tablets.items }
    ensures length { length state.new.tablets.items ≡ length state.old.tablets.items }
{
    let role = state.tablets[at].1.handover.role;
    match role {
        Role::Closing => {
            freeze_at(state, at);
            Ok(())
        }
        Role::Joining { entry } => {
            if entry.is_some() {
                return Ok(());
            }
            close_at(state, at)?;
            Ok(())
        }
        _ => Ok(()),
    }
}

/// The tablet at a place, which closes, freezes if nothing of it is staged. A step for each staged entry.
pub(crate) fn freeze_at(state: &mut MasterState, at: usize)
    requires state { IsState state.old }
    requires within { at < length state.old.tablets.items }
    requires role { (row : Row) → slice_get state.old.tablets.items at ≡ Some row → row.1.handover.role ≡ Role.Closing }
    ensures state { IsState state.new }
    ensures ok { (row : Row) → slice_get state.old.tablets.items at ≡ Some row
        → master_of state.new ≡ waiting.freezing (master_of state.old) row.0 (tablet_of row.1) (frozen row.1.handover row.1.handover.term) }
    ensures behind { drop (at + 1) state.new.tablets.items ≡ drop (at + 1) state.old.tablets.items }
    ensures length { length state.new.tablets.items ≡ length state.old.tablets.items }
    ensures place { (number : ℕ) → IsAt number state.old.tablets.items at → IsAt number state.new.tablets.items at }
{
    let range = state.tablets[at].1.handover.range;
    if !is_settled(&state.staged, &range) {
        return;
    }
    let tablet = &mut state.tablets[at].1;
    tablet.freeze();
}

// The target at a place, which has all, appends its closing entry if every backup holds its side segments. A step for
// each of those and each backup, and the time to spell the entry.
fn close_at(state: &mut MasterState, at: usize) -> Result<(), NoMemory>
    requires state { IsState state.old }
    requires within { at < length state.old.tablets.items }
    requires role { (row : Row) → slice_get state.old.tablets.items at ≡ Some row → row.1.handover.role ≡ Role.Joining None }
    ensures state { OnOk result (IsState state.new) }
    ensures ok { OnOk result ((row : Row) → slice_get state.old.tablets.items at ≡ Some row
        → master_of state.new ≡ waiting.going_on_in (master_of state.old) row.0 (tablet_of row.1) (Role.Joining None)) }
    ensures behind { drop (at + 1) state.new.tablets.items ≡ drop (at + 1) state.old.tablets.items }
    ensures length { length state.new.tablets.items ≡ length state.old.tablets.items }
{
    let target = &state.tablets[at].1;
    if !is_sealed_stored(&state.log, target) {
        return Ok(());
    }
    let entry = target.joined_entry()?;
    let place = state.log.length();
    let tablet = &mut state.tablets[at].1;
    tablet.join(place);
    append(&mut state.log, &mut state.staged, entry)?;
    Ok(())
}

// Whether every backup is known to hold the side segments that a target sealed. A step for each of them and each backup.
fn is_sealed_stored(log: &MasterLog, tablet: &TabletLane) -> bool
    ensures { result ≡ list_all (is_side_stored log.now) tablet.now.sealed }
{
    for segment in tablet.sealed.as_slice() {
        if !log.side_stored(*segment) {
            return false;
        }
    }
    true
}

// Whether nothing of a range is staged. A step for each staged entry.
fn is_settled(staged: &StagedEntries, range: &Range) -> bool
    ensures { result ≡ not (list_any (touches_lem range.now) staged.now.entries.items) }
{
    let (front, back) = staged.entries().as_slices();
    none_touches(front, range) && none_touches(back, range)
}

// Whether none of these entries is of a range.
fn none_touches(entries: &[Entry], range: &Range) -> bool
    ensures { result ≡ not (list_any (touches_lem range.now) entries.now) }
{
    for entry in entries {
        if touches(range, entry) {
            return false;
        }
    }
    true
}

// Whether an entry is of a range.
fn touches(range: &Range, entry: &Entry) -> bool
    ensures { result ≡ touches_lem range.now entry.now }
{
    match entry {
        Entry::Held(held) => has_key(range, held.table, &held.key),
        Entry::Refused(refused) => has_key(range, refused.table, &refused.key),
        Entry::Carried(carried) => carried.range.meets(range),
        Entry::Joined(joined) => joined.range.meets(range),
    }
}

// Whether a key of a table is in a range.
fn has_key(range: &Range, table: u64, key: &Key) -> bool
    ensures { result ≡ has_key_lem range.now table key.now }
{
    range.has(table, hash(key.bytes()))
}
