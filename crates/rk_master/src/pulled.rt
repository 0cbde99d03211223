// What a target makes of the batches that it pulled, and of the items that it asked for first.
ghost use Rattle.std.specs.Prelude.{◌≡◌, ℕ, ◌+◌, ◌%◌, ◌<◌, ◌≤◌, true, length, IfOk, OnOk};
ghost use Rattle.std.specs.Int.{w32};
ghost use Rattle.std.specs.List.{All, AllByRecursion, range_with_len};
ghost use Rattle.rk_entry.specs.Lawful.{IsLawfulHeld};
ghost use Rattle.rk_entry.specs.Numbers.{IsNumber};
ghost use Rattle.rk_entry.specs.declared.lists.TheConstants.{FIRST_SIDE_SEGMENT};
ghost use Rattle.rk_log.specs.Log.{with_side as with_side_lem};
ghost use Rattle.rk_side_log.specs.Spelled.{bytes_in};
ghost use Rattle.rk_table.specs.Scans.{end};
ghost use Rattle.rk_world.specs.Ends.{items_of as items_of_lem};
ghost use Rattle.rk_world.specs.Master.{tablet_at};
ghost use Rattle.rk_world.specs.Pulls as pulls;
ghost use Rattle.rk_world.specs.RoleTests.{is_receiving_at};
ghost use Rattle.rk_world.specs.Worked.{changed};
ghost use Rattle.rk_master.specs.Parts.{worked_of};
ghost use Rattle.rk_types.specs.Places.{IsAt};
ghost use Rattle.rk_master.specs.Pulls.{CanClose, DoesPull, HasLawfulItems, with_sides};
ghost use Rattle.rk_master.specs.State.{IsState, master_of};

use crate::staging::append;
use crate::state::MasterState;
use crate::tablets::search;
use crate::work::Worked;
use rk_entry::Entry;
use rk_log::MasterLog;
use rk_message::{Got, Pulled};
use rk_segment::Segment;
use rk_types::{Held, Listed, NoMemory, Token};
use std::alloc::Global;

// A log whose segments have so many bytes takes no more side segments.
const MOST_BYTES: u64 = 1 << 63;

// So many side segments are the most that the entry that closes a role names.
const MOST_SEALED: usize = 32_000;

/// A master takes a Pulled: if the tablet pulls at its term and awaits that batch, the batch is replayed by the worker
/// whose turn it is; behind the last one the side logs are sealed, and the tablet has all. A binary search; if it is
/// awaited, the time to copy its items and to spell them, and a search of the records for each; behind the last batch a
/// step for each segment that is sealed.
pub(crate) fn take_pulled(state: &mut MasterState, pulled: &Pulled) -> Result<Worked, NoMemory>
    requires state { IsState state.old }
    requires lawful { HasLawfulItems pulled.now.entries }
    ensures state { OnOk result (IsState state.new) }
    ensures ok { IfOk result (λ work. worked_of (master_of state.new) work ≡ pulls.pulled_taken (master_of state.old) pulled.now) }
{
    let Ok(at) = search(state.tablets.as_slice(), pulled.tenure.tablet) else {
        return Ok(state.nothing());
    };
    let tablet = &state.tablets[at].1;
    if !tablet.awaits(pulled) {
        return Ok(state.nothing());
    }
    pull_on(state, at, pulled)?;
    Ok(state.nothing())
}

// The tablet at a place takes the batch that it awaits.
fn pull_on(state: &mut MasterState, at: usize, pulled: &Pulled) -> Result<(), NoMemory>
    requires state { IsState state.old }
    requires place { IsAt pulled.now.tenure.tablet state.old.tablets.items at }
    requires pulls { DoesPull state.old.tablets.items at }
    requires lawful { HasLawfulItems pulled.now.entries }
    ensures state { OnOk result (IsState state.new) }
    ensures ok { OnOk result (master_of state.new ≡ pulls.batch_taken (master_of state.old) pulled.now.tenure.tablet pulled.now) }
{
    let items = items_of(*state.tablets.allocator(), &pulled.entries)?;
    let has_all = take_batch(state, at, items, pulled.next)?;
    if !has_all {
        return Ok(());
    }
    seal_at(state, at)?;
    end_at(state, at)?;
    Ok(())
}

// Duplicates of the items among entries, in their order.
fn items_of(alloc: Global, entries: &Listed<Entry>) -> Result<Vec<Held>, NoMemory>
    ensures { IfOk result (λ items. items.items ≡ items_of_lem entries.now) }
{
    let mut items = Vec::new(alloc);
    for entry in entries.as_slice() {
        if let Entry::Held(held) = entry {
            items.push(held.duplicate()?)?;
        }
    }
    Ok(items)
}

// The tablet at a place replays a batch by the worker whose turn it is, and its token moves on. Answers whether that was
// the last batch.
fn take_batch(
    state: &mut MasterState,
    at: usize,
    items: Vec<Held>,
    next: Token,
) -> Result<bool, NoMemory>
    requires state { IsState state.old }
    requires within { at < length state.old.tablets.items }
    requires pulls { DoesPull state.old.tablets.items at }
    requires lawful { All IsLawfulHeld items.items }
    ensures state { OnOk result (IsState state.new) }
    ensures pulls { OnOk result (DoesPull state.new.tablets.items at) }
    ensures place { OnOk result ((number : ℕ) → IsAt number state.old.tablets.items at → IsAt number state.new.tablets.items at) }
    ensures ok { OnOk result ((number : ℕ) → IsAt number state.old.tablets.items at → master_of state.new
        ≡ pulls.token_passed (pulls.replay (master_of state.old) number
        ((tablet_at (master_of state.old) number).pulling.batches % 4) items.items) number next) }
    ensures last { IfOk result (λ has_all. has_all ≡ pulls.is_token next end) }
{
    let tablet = &mut state.tablets[at].1;
    let worker = tablet.worker();
    tablet.replay(&mut state.records, worker, items)?;
    tablet.pass(next)?;
    Ok(tablet.progress.has_all())
}

// The side logs of the tablet at a place become side segments, and the hashes that were wanted are forgotten.
fn seal_at(state: &mut MasterState, at: usize) -> Result<(), NoMemory>
    requires state { IsState state.old }
    requires within { at < length state.old.tablets.items }
    requires pulls { DoesPull state.old.tablets.items at }
    ensures state { OnOk result (IsState state.new) }
    ensures pulls { OnOk result (DoesPull state.new.tablets.items at) }
    ensures closes { OnOk result (CanClose state.new.tablets.items at) }
    ensures place { OnOk result ((number : ℕ) → IsAt number state.old.tablets.items at → IsAt number state.new.tablets.items at) }
    ensures ok { OnOk result ((number : ℕ) → IsAt number state.old.tablets.items at
        → master_of state.new ≡ pulls.sealing (master_of state.old) number (tablet_at (master_of state.old) number)) }
{
    let tablet = &mut state.tablets[at].1;
    let segments = tablet.sides.seal();
    let sealed = add_sides(&mut state.log, segments)?;
    tablet.note_sealed(sealed);
    Ok(())
}

// Puts segments beside the log, and returns the numbers that they have from now on. `NoMemory` too if they are more
// than an entry names, or if no number is left. A step for each of them.
fn add_sides(log: &mut MasterLog, segments: Vec<Segment>) -> Result<Listed<u32>, NoMemory>
    ensures log { OnOk result (log.new ≡ with_sides log.old (bytes_in segments.items)) }
    ensures numbers { IfOk result (λ numbers. numbers
        ≡ range_with_len (FIRST_SIDE_SEGMENT + length log.old.sides) (length segments.items)) }
    ensures each { IfOk result (λ numbers. AllByRecursion (IsNumber w32 FIRST_SIDE_SEGMENT) numbers) }
    ensures few { OnOk result (length segments.items ≤ MOST_SEALED) }
{
    if segments.len() > MOST_SEALED {
        return Err(NoMemory);
    }
    let mut numbers = Listed::new(*segments.allocator());
    for segment in segments {
        numbers.push(add_side(log, segment)?)?;
    }
    Ok(numbers)
}

// Puts a segment beside the log, and answers its number.
fn add_side(log: &mut MasterLog, segment: Segment) -> Result<u32, NoMemory>
    ensures number { IfOk result (λ number. number ≡ FIRST_SIDE_SEGMENT + length log.old.sides) }
    ensures lawful { IfOk result (IsNumber w32 FIRST_SIDE_SEGMENT) }
    ensures log { OnOk result (log.new ≡ with_side_lem log.old segment.bytes) }
{
    let length = segment.length() as u64;
    if log.size() >= MOST_BYTES - length {
        return Err(NoMemory);
    }
    log.add_side(segment)
}

// The target at a place, whose side logs are sealed, has all; if there was nothing to seal, its closing entry is
// appended at once.
fn end_at(state: &mut MasterState, at: usize) -> Result<(), NoMemory>
    requires state { IsState state.old }
    requires within { at < length state.old.tablets.items }
    requires pulls { DoesPull state.old.tablets.items at }
    requires closes { CanClose state.old.tablets.items at }
    ensures state { OnOk result (IsState state.new) }
    ensures ok { OnOk result ((number : ℕ) → IsAt number state.old.tablets.items at → master_of state.new
        ≡ pulls.joining_by (master_of state.old) number (tablet_at (master_of state.old) number)
        (tablet_at (master_of state.old) number).pulling.sealed) }
{
    let tablet = &mut state.tablets[at].1;
    if !tablet.sealed.as_slice().is_empty() {
        tablet.end_pull(None);
        return Ok(());
    }
    let entry = tablet.joined_entry()?;
    tablet.end_pull(Some(state.log.length()));
    append(&mut state.log, &mut state.staged, entry)?;
    Ok(())
}

/// A master takes a Got: if the tablet pulls at its term and these are the hashes that it asked for, the items are
/// replayed, and the hashes have come. A binary search; if they are those, the time to copy the items and to spell them,
/// and a search of the records for each.
pub(crate) fn take_got(state: &mut MasterState, got: &Got) -> Result<Worked, NoMemory>
    requires state { IsState state.old }
    requires lawful { HasLawfulItems got.now.entries }
    ensures state { OnOk result (IsState state.new) }
    ensures ok { IfOk result (λ work. worked_of (master_of state.new) work ≡ pulls.got_taken (master_of state.old) got.now) }
{
    let Ok(at) = search(state.tablets.as_slice(), got.tenure.tablet) else {
        return Ok(state.nothing());
    };
    let tablet = &state.tablets[at].1;
    if !tablet.is_receiving_at(got.tenure.term) {
        return Ok(state.nothing());
    }
    resolve(state, at, got)?;
    Ok(state.nothing())
}

// The tablet at a place, which pulls, takes the items that it asked for first, if they are those.
fn resolve(state: &mut MasterState, at: usize, got: &Got) -> Result<(), NoMemory>
    requires state { IsState state.old }
    requires place { IsAt got.now.tenure.tablet state.old.tablets.items at }
    requires pulls { is_receiving_at (tablet_at (master_of state.old) got.now.tenure.tablet) got.now.tenure.term ≡ true }
    requires lawful { HasLawfulItems got.now.entries }
    ensures state { OnOk result (IsState state.new) }
    ensures ok { OnOk result (changed (master_of state.new) ≡ pulls.got_taken (master_of state.old) got.now) }
{
    let alloc = *state.tablets.allocator();
    let tablet = &mut state.tablets[at].1;
    if !tablet.resolve(got.hashes.as_slice()) {
        return Ok(());
    }
    tablet.replay(&mut state.records, 0, items_of(alloc, &got.entries)?)?;
    Ok(())
}
