// The entries of a log that count for a range, lent.
ghost use Rattle.std.specs.Prelude.{◌≡◌, ◌∷◌, ◌++◌, [], fold, IfOk, OnOk};
ghost use Rattle.std.specs.List.{flat_map};
ghost use Rattle.rk_types.specs.NumberMap.{get_or};
ghost use Rattle.rk_world.specs.Ranges.{has_all as has_all_lem};
ghost use Rattle.rk_world.specs.Material.{counting, counts as counts_lem, material_of, named as named_lem, named_by as named_by_lem, with_number};
ghost use Rattle.rk_rebuild.specs.Lent.{lent};
ghost use Rattle.rk_rebuild.specs.Numbers.{IsSetOf};

use rk_entry::Entry;
use rk_types::{Listed, NoMemory, Numbered, Range, hash};
use std::alloc::Global;
use std::collections::BTreeSet;

/// Whether an entry counts for a range.
pub(crate) fn counts(range: &Range, entry: &Entry) -> bool
    ensures { result ≡ counts_lem range.now entry.now }
{
    match entry {
        Entry::Held(held) => range.has(held.table, hash(held.key.bytes())),
        Entry::Refused(refused) => range.has(refused.table, hash(refused.key.bytes())),
        Entry::Carried(carried) => has_all(&carried.range, range),
        Entry::Joined(_) => false,
    }
}

// Whether a range has all of another one.
fn has_all(outer: &Range, inner: &Range) -> bool
    ensures { result ≡ has_all_lem outer.now inner.now }
{
    outer.table == inner.table && outer.first <= inner.first && inner.last <= outer.last
}

/// What counts for a range of these entries of a log: those that count themselves, and then those of the side segments
/// that they name. A step for each entry, and a search for each side segment.
pub fn counted_entries<'a>(
    alloc: Global,
    range: &Range,
    entries: &[&'a Entry],
    sides: &'a Numbered<Listed<Entry>>,
) -> Result<Vec<&'a Entry>, NoMemory>
    ensures { IfOk result (λ counted. lent counted.items ≡ material_of range.now (λ segment. get_or [] sides.now segment) (lent entries.now)) }
{
    let mut counted = Vec::new(alloc);
    for entry in entries {
        count(&mut counted, range, entry)?;
    }
    let segments = named(alloc, range, entries)?;
    count_sides(&mut counted, range, segments.as_slice(), sides)?;
    Ok(counted)
}

// Lends an entry too, if it counts.
fn count<'a>(counted: &mut Vec<&'a Entry>, range: &Range, entry: &'a Entry) -> Result<(), NoMemory>
    ensures { OnOk result (lent counted.new.items ≡ lent counted.old.items ++ counting range.now (entry.now ∷ [])) }
{
    if counts(range, entry) {
        counted.push(entry)?;
    }
    Ok(())
}

// Lends the entries of side segments too, if they count.
fn count_sides<'a>(
    counted: &mut Vec<&'a Entry>,
    range: &Range,
    segments: &[u32],
    sides: &'a Numbered<Listed<Entry>>,
) -> Result<(), NoMemory>
    ensures { OnOk result (lent counted.new.items
        ≡ lent counted.old.items ++ counting range.now (flat_map (λ segment. get_or [] sides.now segment) segments.now)) }
{
    for segment in segments {
        if let Some(side) = sides.get(u64::from(*segment)) {
            count_all(counted, range, side.as_slice())?;
        }
    }
    Ok(())
}

// Lends the entries that count too.
fn count_all<'a>(
    counted: &mut Vec<&'a Entry>,
    range: &Range,
    entries: &'a [Entry],
) -> Result<(), NoMemory>
    ensures { OnOk result (lent counted.new.items ≡ lent counted.old.items ++ counting range.now entries.now) }
{
    for entry in entries {
        count(counted, range, entry)?;
    }
    Ok(())
}

/// The side segments that entries make part of their log for a range, each once. A step for each entry, and a search for
/// each segment that they name.
pub fn named(alloc: Global, range: &Range, entries: &[&Entry]) -> Result<Listed<u32>, NoMemory>
    ensures { IfOk result (λ numbers. numbers ≡ named_lem range.now (lent entries.now)) }
{
    let mut seen = BTreeSet::new(alloc);
    let mut numbers = Vec::new(alloc);
    for entry in entries {
        add_all(&mut seen, &mut numbers, named_by(range, entry))?;
    }
    Ok(Listed::from_vec(numbers))
}

// The side segments that an entry makes part of its log for a range.
fn named_by<'a>(range: &Range, entry: &'a Entry) -> &'a [u32]
    ensures { result.now ≡ named_by_lem range.now entry.now }
{
    let Entry::Joined(joined) = entry else {
        return &[];
    };
    if !joined.range.meets(range) {
        return &[];
    }
    joined.segments.as_slice()
}

// Adds the numbers that are not among those that there are.
fn add_all(seen: &mut BTreeSet<u32>, numbers: &mut Vec<u32>, more: &[u32]) -> Result<(), NoMemory>
    requires { IsSetOf seen.old numbers.old.items }
    ensures numbers { OnOk result (numbers.new.items ≡ fold with_number numbers.old.items more.now) }
    ensures seen { OnOk result (IsSetOf seen.new numbers.new.items) }
{
    for number in more {
        add(seen, numbers, *number)?;
    }
    Ok(())
}

// Adds a number, if it is not among those that there are.
fn add(seen: &mut BTreeSet<u32>, numbers: &mut Vec<u32>, number: u32) -> Result<(), NoMemory>
    requires { IsSetOf seen.old numbers.old.items }
    ensures numbers { OnOk result (numbers.new.items ≡ with_number numbers.old.items number) }
    ensures seen { OnOk result (IsSetOf seen.new numbers.new.items) }
{
    if !seen.insert(number)? {
        return Ok(());
    }
    numbers.push(number)?;
    Ok(())
}

/// The entries of segments, in their order. A step for each.
pub(crate) fn lend_all<'a>(
    alloc: Global,
    segments: &'a [Listed<Entry>],
) -> Result<Vec<&'a Entry>, NoMemory>
    ensures { IfOk result (λ entries. lent entries.items ≡ flat_map (λ entries. entries) segments.now) }
{
    let mut entries = Vec::new(alloc);
    for segment in segments {
        lend(&mut entries, segment.as_slice())?;
    }
    Ok(entries)
}

/// These entries, lent. A step for each.
pub fn lend_each(alloc: Global, entries: &[Entry]) -> Result<Vec<&Entry>, NoMemory>
    ensures { IfOk result (λ lent_now. lent lent_now.items ≡ entries.now) }
{
    let mut lent_now = Vec::new(alloc);
    lend(&mut lent_now, entries)?;
    Ok(lent_now)
}

// Lends these entries too.
fn lend<'a>(into: &mut Vec<&'a Entry>, entries: &'a [Entry]) -> Result<(), NoMemory>
    ensures { OnOk result (lent into.new.items ≡ lent into.old.items ++ entries.now) }
{
    for entry in entries {
        into.push(entry)?;
    }
    Ok(())
}
