// Staging: an entry is put at the end of the log, and the call that it ends waits for it.
ghost use Rattle.std.specs.Prelude.{◌≡◌, ◌≤◌, ℕ, true, length, IsSome, OnOk};
ghost use Rattle.std.specs.List.{All};
ghost use Rattle.rk_types.specs.NumberMap.{get, insert};
ghost use Rattle.rk_entry.specs.Lawful.{IsLawfulEntry, IsLawfulHeld};
ghost use Rattle.rk_log.specs.Log.{with_entry};
ghost use Rattle.rk_world.specs.Premises.{IsLawfulCall};
ghost use Rattle.rk_world.specs.Requests as requests;
ghost use Rattle.rk_staged.specs.Kept.{AreStagedFrom};
ghost use Rattle.rk_master.specs.Rebuilding.{with_items};
ghost use Rattle.rk_master.specs.State.{IsState, master_of};

use crate::effects::{item_of, refusal_of};
use crate::state::MasterState;
use crate::tablets::next_version;
use rk_entry::{Entry, entry_len};
use rk_log::MasterLog;
use rk_staged::StagedEntries;
use rk_types::{Call, Held, NoMemory, SEGMENT_BYTES};

/// A log with so many bytes takes no more entries.
pub const MOST_LOG_BYTES: u64 = 1 << 31;

/// Puts an entry at the end of the log, where it is staged. `NoMemory` also if the log has
/// [`MOST_LOG_BYTES`], or the entry has no room in a segment. The time to spell the entry, and two searches.
pub(crate) fn append(
    log: &mut MasterLog,
    staged: &mut StagedEntries,
    entry: Entry,
) -> Result<(), NoMemory>
    requires { IsLawfulEntry entry }
    ensures log { OnOk result (log.new ≡ with_entry log.old entry) }
    ensures staged { OnOk result ((applied : ℕ) → applied ≤ length log.old.entries
        → AreStagedFrom applied staged.old log.old.entries → AreStagedFrom applied staged.new log.new.entries) }
{
    if entry_len(&entry) > SEGMENT_BYTES || log.size() >= MOST_LOG_BYTES {
        return Err(NoMemory);
    }
    log.append(&entry)?;
    staged.push(entry)
}

/// Puts items at the end of the log, one after the other, as [`append`] does. For each the time to spell its entry, and
/// two searches.
pub(crate) fn append_items(
    log: &mut MasterLog,
    staged: &mut StagedEntries,
    copies: Vec<Held>,
) -> Result<(), NoMemory>
    requires { All IsLawfulHeld copies.items }
    ensures log { OnOk result (log.new ≡ with_items log.old copies.items) }
    ensures staged { OnOk result ((applied : ℕ) → applied ≤ length log.old.entries
        → AreStagedFrom applied staged.old log.old.entries → AreStagedFrom applied staged.new log.new.entries) }
{
    for copy in copies {
        append(log, staged, Entry::Held(copy))?;
    }
    Ok(())
}

// Stages a call with its entry.
fn stage(state: &mut MasterState, call: Call, entry: Entry) -> Result<(), NoMemory>
    requires state { IsState state.old }
    requires lawful { IsLawfulEntry entry }
    ensures state { OnOk result (IsState state.new) }
    ensures ok { OnOk result (master_of state.new ≡ requests.with_staged (master_of state.old) call entry) }
{
    let place = state.log.length();
    append(&mut state.log, &mut state.staged, entry)?;
    state.calls.insert(place, call)?;
    Ok(())
}

/// Stages a write or a removal at the tablet of this number, whose counter rises. `NoMemory` also if no version is
/// left, or the log is full. The time to spell the entry, and a few searches.
pub(crate) fn stage_write(state: &mut MasterState, number: u32, call: Call) -> Result<(), NoMemory>
    requires state { IsState state.old }
    requires there { IsSome (get state.old.tablets.items number) }
    requires lawful { IsLawfulCall call }
    ensures state { OnOk result (IsState state.new) }
    ensures ok { OnOk result (master_of state.new
        ≡ requests.write_staged (master_of state.old) number call (requests.value_written call.op)) }
{
    let version = next_version(state.tablets.as_mut_slice(), number)?;
    let item = item_of(&call, version)?;
    stage(state, call, Entry::Held(item))?;
    Ok(())
}

/// Stages a refusal. `NoMemory` also if the log is full. The time to spell the entry, and a search.
pub(crate) fn stage_refusal(
    state: &mut MasterState,
    call: Call,
    found: u64,
    absent: bool,
) -> Result<(), NoMemory>
    requires state { IsState state.old }
    requires lawful { IsLawfulCall call }
    requires none { absent ≡ true → found ≡ 0 }
    ensures state { OnOk result (IsState state.new) }
    ensures ok { OnOk result (master_of state.new ≡ requests.refusal_staged (master_of state.old) call found absent) }
{
    let refusal = refusal_of(&call, found, absent)?;
    stage(state, call, refusal)?;
    Ok(())
}
