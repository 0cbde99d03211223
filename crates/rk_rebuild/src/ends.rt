// The last end of each client, in the order of the logs that record them.
ghost use Rattle.std.specs.Prelude.{◌≡◌, ◌++◌, List, [], map, IfOk, OnOk};
ghost use Rattle.std.specs.List.{flat_map, list_any};
ghost use Rattle.rk_types.specs.declared.call.Ended.{Ended as End_of};
ghost use Rattle.rk_done.specs.Completions.{completions_from, noted};
ghost use Rattle.rk_types.specs.NumberMap.{get};
ghost use Rattle.rk_world.specs.Ends.{end_of_item as item_end_lem, end_of_refusal as refusal_end_lem, told as told_lem, told_by};
ghost use Rattle.rk_world.specs.Merge as merging;
ghost use Rattle.rk_rebuild.specs.Lent.{lent};
ghost use Rattle.rk_rebuild.specs.Told.{ends_told};

use rk_done::Completion;
use rk_entry::{Entry, Refused};
use rk_types::{End, Ended, Held, Listed, NoMemory, Numbered};
use std::alloc::Global;

/// The ends that these entries record, in their order. A step for each end.
pub(crate) fn told(alloc: Global, entries: &[&Entry]) -> Result<Listed<Ended>, NoMemory>
    ensures { IfOk result (λ ends. ends ≡ told_lem (lent entries.now)) }
{
    let mut ends = Vec::new(alloc);
    for entry in entries {
        tell(&mut ends, entry)?;
    }
    Ok(Listed::from_vec(ends))
}

// Puts the ends that an entry records behind those that are there.
fn tell(ends: &mut Vec<Ended>, entry: &Entry) -> Result<(), NoMemory>
    ensures { OnOk result (ends.new.items ≡ ends.old.items ++ told_by entry.now) }
{
    match entry {
        Entry::Held(held) => {
            ends.push(Ended {
                client: held.client,
                seq: held.seq,
                end: end_of_item(held),
            })?;
            Ok(())
        }
        Entry::Refused(refused) => {
            ends.push(Ended {
                client: refused.client,
                seq: refused.seq,
                end: end_of_refusal(refused),
            })?;
            Ok(())
        }
        Entry::Carried(carried) => {
            ends.extend_from_slice(carried.ends.as_slice())?;
            Ok(())
        }
        Entry::Joined(_) => Ok(()),
    }
}

// How the call that left an item ended.
fn end_of_item(held: &Held) -> End
    ensures { result ≡ item_end_lem held.now.version held.now.value }
{
    match &held.value {
        Some(_) => End::Written(held.version),
        None => End::Deleted(held.version),
    }
}

// How a refused call ended.
fn end_of_refusal(refused: &Refused) -> End
    ensures { result ≡ refusal_end_lem refused.now }
{
    if refused.absent {
        End::Absent
    } else {
        End::Mismatch(refused.found)
    }
}

/// The last end of each client, of the ends that each member records: in the order of the members that record them
/// last, and within a member by place. Of several ends of that call the first one recorded counts. A search for each
/// end that is recorded, and for each that no later call outruns a look at the ends that are found so far, of which
/// there is one for each client.
pub(crate) fn merged_ends(alloc: Global, told: &[Listed<Ended>]) -> Result<Vec<Ended>, NoMemory>
    ensures { IfOk result (λ ends. ends.items ≡ ends_told told.now) }
{
    let last = last_ends(alloc, told)?;
    let ends = ends_by_place(alloc, &last, told)?;
    first_ends(alloc, &last, ends.as_slice())
}

// How each client's last call ended, as the members record it.
fn last_ends(alloc: Global, told: &[Listed<Ended>]) -> Result<Numbered<Completion>, NoMemory>
    ensures { IfOk result (λ last. last ≡ completions_from [] (flat_map (λ ends. ends) told.now)) }
{
    let mut last = Numbered::new(alloc);
    for ends in told {
        note_all(&mut last, ends.as_slice())?;
    }
    Ok(last)
}

// Notes ends, one after the other.
fn note_all(last: &mut Numbered<Completion>, ends: &[Ended]) -> Result<(), NoMemory>
    ensures { OnOk result (last.new ≡ completions_from last.old ends.now) }
{
    for end in ends {
        note(last, *end)?;
    }
    Ok(())
}

// Notes how a call ended, unless the last one of its client is as late.
fn note(last: &mut Numbered<Completion>, end: Ended) -> Result<(), NoMemory>
    ensures { OnOk result (last.new ≡ noted last.old end) }
{
    if let Some(there) = last.get(u64::from(end.client)) {
        if there.seq >= end.seq {
            return Ok(());
        }
    }
    last.insert(
        u64::from(end.client),
        Completion {
            seq: end.seq,
            end: end.end,
        },
    )
}

// The ends that have their place at some member, member by member.
fn ends_by_place(
    alloc: Global,
    last: &Numbered<Completion>,
    told: &[Listed<Ended>],
) -> Result<Vec<Ended>, NoMemory>
    ensures { IfOk result (λ ends. (all : List End_of) → last.now ≡ completions_from [] all
        → ends.items ≡ merging.ends_by_place all told.now) }
{
    let mut ends = Vec::new(alloc);
    let mut at = told.len();
    'members: while at > 0 {
        at -= 1;
        let mut here = placed(alloc, last, ends.as_slice(), told[at].as_slice())?;
        here.extend_from_slice(ends.as_slice())?;
        ends = here;
    }
    Ok(ends)
}

// The ends of one member that have their place there, given that these have theirs at later ones.
fn placed(
    alloc: Global,
    last: &Numbered<Completion>,
    later: &[Ended],
    told: &[Ended],
) -> Result<Vec<Ended>, NoMemory>
    ensures { IfOk result (λ ends. (all : List End_of) (members : List (List End_of))
        → last.now ≡ completions_from [] all → later.now ≡ merging.ends_by_place all members
        → ends.items ≡ merging.placed_ends all (flat_map (λ ends. ends) members) [] told.now) }
{
    let mut ends = Vec::new(alloc);
    for end in told {
        if is_placed(last, later, ends.as_slice(), end) {
            ends.push(*end)?;
        }
    }
    Ok(ends)
}

// Whether the place of an end is at this member, given that these ends have theirs at later ones and these before it here.
fn is_placed(last: &Numbered<Completion>, later: &[Ended], here: &[Ended], end: &Ended) -> bool
    ensures { (all seen : List End_of) (members : List (List End_of))
        → last.now ≡ completions_from [] all → later.now ≡ merging.ends_by_place all members
        → here.now ≡ merging.placed_ends all (flat_map (λ ends. ends) members) [] seen
        → result ≡ merging.is_placed all (flat_map (λ ends. ends) members) seen end.now }
{
    if is_outrun(last, end) {
        return false;
    }
    if has_call(later, end) {
        return false;
    }
    !has_call(here, end)
}

// Whether a later call of the client ended.
fn is_outrun(last: &Numbered<Completion>, end: &Ended) -> bool
    ensures { (all : List End_of) → last.now ≡ completions_from [] all
        → result ≡ list_any (merging.is_outrun_by end.now) all }
{
    match last.get(u64::from(end.client)) {
        Some(there) => end.seq < there.seq,
        None => false,
    }
}

// Whether an end of the same call is among these.
fn has_call(ends: &[Ended], end: &Ended) -> bool
    ensures { result ≡ list_any (merging.is_same_call end.now) ends.now }
{
    ends.iter()
        .any(|other| end.client == other.client && end.seq == other.seq)
}

// The end that counts for each of these calls.
fn first_ends(
    alloc: Global,
    last: &Numbered<Completion>,
    ends: &[Ended],
) -> Result<Vec<Ended>, NoMemory>
    ensures { IfOk result (λ firsts. firsts.items ≡ map (λ end. merging.first_told end (get last.now end.client)) ends.now) }
{
    let mut firsts = Vec::new(alloc);
    for end in ends {
        firsts.push(first_told(last, end))?;
    }
    Ok(firsts)
}

// The end that counts for a call.
fn first_told(last: &Numbered<Completion>, end: &Ended) -> Ended
    ensures { result ≡ merging.first_told end.now (get last.now end.now.client) }
{
    match last.get(u64::from(end.client)) {
        None => *end,
        Some(there) => Ended {
            client: end.client,
            seq: there.seq,
            end: there.end,
        },
    }
}
