// Commits: entries that every backup holds are applied, one after the other.
ghost use Rattle.std.specs.Prelude.{◌≡◌, ◌<◌, ◌+◌, ◌∷◌, List, Some, length, map, slice_get, IfOk, OnOk};
ghost use Rattle.rk_types.specs.NumberMap.{get};
ghost use Rattle.rk_types.specs.declared.call.Ended.{Ended as Ending};
ghost use Rattle.rk_bucket_table.specs.Tables.{items_of as records_of};
ghost use Rattle.rk_world.specs.Commits.{apply_entries, apply_entry, newly_held, noting, with_applied, with_ended, with_entry_item};
ghost use Rattle.rk_world.specs.Ends.{end_of_item as item_end_lem, end_of_refusal as refusal_end_lem, told_by};
ghost use Rattle.rk_tablet.specs.Tablets.{tablet_of};
ghost use Rattle.rk_master.specs.Parts.{AreTablets, behind, tablets_of, with_items_of, worked_of};
ghost use Rattle.rk_master.specs.State.{IsState, master_of};

use crate::effects::answering;
use crate::state::MasterState;
use crate::work::Worked;
use rk_bucket_table::BucketTable;
use rk_entry::{Entry, Refused};
use rk_log::MasterLog;
use rk_table::RecordTable;
use rk_tablet::{TabletLane, outcome_of};
use rk_types::{Answer, Call, End, Ended, Held, NoMemory};

// The first end that an entry records.
fn first_end(entry: &Entry) -> Option<Ended>
    ensures { result ≡ slice_get (told_by entry.now) 0 }
{
    match entry {
        Entry::Held(held) => Some(Ended {
            client: held.client,
            seq: held.seq,
            end: end_of_item(held),
        }),
        Entry::Refused(refused) => Some(Ended {
            client: refused.client,
            seq: refused.seq,
            end: end_of_refusal(refused),
        }),
        Entry::Carried(carried) => carried.ends.as_slice().first().copied(),
        Entry::Joined(_) => None,
    }
}

// How the call that left an item ended.
fn end_of_item(held: &Held) -> End
    ensures { result ≡ item_end_lem held.now.version held.now.value }
{
    match &held.value {
        Some(_) => End::Written(held.version),
        None => End::Deleted(held.version),
    }
}

// How a refused call ended.
fn end_of_refusal(refused: &Refused) -> End
    ensures { result ≡ refusal_end_lem refused.now }
{
    if refused.absent {
        End::Absent
    } else {
        End::Mismatch(refused.found)
    }
}

// Notes the end of a call in each tablet that is not absent and has the key. A look at each tablet.
fn note_in_each(tablets: &mut [(u32, TabletLane)], call: &Call, end: Ended) -> Result<(), NoMemory>
    requires { AreTablets tablets.old }
    ensures noted { OnOk result (tablets_of tablets.new ≡ map (λ entry. (entry.0, noting call.now end entry.1)) (tablets_of tablets.old)) }
    ensures tablets { OnOk result (AreTablets tablets.new) }
{
    for entry in tablets.iter_mut() {
        entry.1.note(call, end)?;
    }
    Ok(())
}

/// Applies the entries that every backup holds and that are not applied. For each of them a few searches, what it takes
/// to put an item into the records, and if a call ends, a look at each tablet.
pub(crate) fn apply_held(state: &mut MasterState, work: &mut Worked) -> Result<(), NoMemory>
    requires { IsState state.old }
    ensures state { OnOk result (IsState state.new) }
    ensures ok { OnOk result (worked_of (master_of state.new) work.new
        ≡ behind work.old (apply_entries (master_of state.old) (newly_held (master_of state.old)))) }
{
    let held = state.log.committed();
    'held: while state.applied < held {
        apply_next(state, work)?;
    }
    Ok(())
}

// Applies the next entry, and answers the client whose call waited for it.
fn apply_next(state: &mut MasterState, work: &mut Worked) -> Result<(), NoMemory>
    requires state { IsState state.old }
    requires left { state.old.applied < length state.old.log.entries }
    ensures state { OnOk result (IsState state.new) }
    ensures log { state.new.log ≡ state.old.log }
    ensures applied { OnOk result (state.new.applied ≡ state.old.applied + 1) }
    ensures ok { OnOk result ((entry : Entry) → slice_get state.old.log.entries state.old.applied ≡ Some entry
        → worked_of (master_of state.new) work.new ≡ behind work.old (apply_entry (master_of state.old) entry)) }
{
    let place = state.applied;
    let Some(end) = apply_item(state)? else {
        return Ok(());
    };
    end_call(state, work, place, end)?;
    Ok(())
}

// Applies the next entry but for the call that waits for it, and returns the first end that the entry records.
fn apply_item(state: &mut MasterState) -> Result<Option<Ended>, NoMemory>
    requires state { IsState state.old }
    requires left { state.old.applied < length state.old.log.entries }
    ensures state { OnOk result (IsState state.new) }
    ensures log { state.new.log ≡ state.old.log }
    ensures applied { OnOk result (state.new.applied ≡ state.old.applied + 1) }
    ensures end { IfOk result (λ end. (entry : Entry) → slice_get state.old.log.entries state.old.applied ≡ Some entry
        → end ≡ slice_get (told_by entry) 0) }
    ensures ok { OnOk result ((entry : Entry) → slice_get state.old.log.entries state.old.applied ≡ Some entry
        → master_of state.new ≡ with_applied (with_entry_item (master_of state.old) entry)) }
{
    let entry = state.staged.pop().unwrap();
    let end = first_end(&entry);
    put_item(&mut state.records, entry)?;
    state.applied = next_place(&state.log, state.applied);
    Ok(end)
}

// The place after that of an entry.
fn next_place(log: &MasterLog, place: u64) -> u64
    requires { place < length log.now.entries }
    ensures { result ≡ place + 1 }
{
    let length = log.length();
    prove!(place < length);
    place + 1
}

// Puts the item that an entry is into the records, if it is newer than what is there. Two searches, and what an
// insertion takes.
fn put_item(records: &mut BucketTable, entry: Entry) -> Result<(), NoMemory>
    ensures { OnOk result (records_of records.new ≡ with_items_of entry (records_of records.old)) }
{
    let Entry::Held(item) = entry else {
        return Ok(());
    };
    records.reserve(1)?;
    let _ = records.put_if_newer(item);
    Ok(())
}

// Ends the call that waits for the entry at a place, if one does: its end is noted, and its client answered. A look at
// each tablet, and a search.
fn end_call(
    state: &mut MasterState,
    work: &mut Worked,
    place: u64,
    end: Ended,
) -> Result<(), NoMemory>
    requires { IsState state.old }
    ensures state { OnOk result (IsState state.new) }
    ensures log { state.new.log ≡ state.old.log }
    ensures applied { state.new.applied ≡ state.old.applied }
    ensures ok { OnOk result ((ends : List Ending) → worked_of (master_of state.new) work.new
        ≡ behind work.old (with_ended (master_of state.old) place (get (master_of state.old).calls place) (end ∷ ends))) }
{
    let Some(call) = state.calls.take(place) else {
        return Ok(());
    };
    note_in_each(state.tablets.as_mut_slice(), &call, end)?;
    let answer = Answer::Done(outcome_of(end.end));
    work.send(answering(state.number, &call, answer))?;
    work.serve(call, outcome_of(end.end))?;
    Ok(())
}
