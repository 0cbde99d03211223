// What counts of each member of a lineage, lent, and what a rebuild makes of it.
ghost use Rattle.std.specs.Prelude.{◌≡◌, ◌==◌, ◌∷◌, ◌++◌, List, [], filter, map as map_list, IfOk, OnOk, if◌then◌else◌};
ghost use Rattle.std.specs.List.{flat_map, list_any};
ghost use Rattle.rk_entry.specs.declared.entry.Entry.{Entry as Entry_of};
ghost use Rattle.rk_world.specs.Gather as gathers;
ghost use Rattle.rk_world.specs.Merge as merging;
ghost use Rattle.rk_rebuild.specs.Counted.{IsCounted};
ghost use Rattle.rk_rebuild.specs.Lent.{lent};
ghost use Rattle.rk_rebuild.specs.Logs.{gathered_at, members_of};

use crate::copies::copies_of;
use crate::ends::{merged_ends, told};
use crate::floor::floor_of;
use crate::material::{counted_entries, lend_all};
use crate::member::{ReadLog, Reader, log_of};
use crate::reading::behind;
use rk_entry::Entry;
use rk_types::{Ended, Listed, Member, NoMemory, Range};
use rk_world::Merged;
use std::alloc::Global;

/// What counts of members, lent, and the ends that each of them records.
#[derive(Drop)]
pub(crate) struct Counted<'a> {
    all: Vec<&'a Entry>,
    told: Vec<Listed<Ended>>,
}

impl<'a> Counted<'a> {
    /// Of no members.
    pub(crate) fn new(alloc: Global) -> Counted<'a>
        ensures { IsCounted result [] }
    {
        Counted {
            all: Vec::new(alloc),
            told: Vec::new(alloc),
        }
    }

    /// One more member, of which these entries count.
    pub(crate) fn add(&mut self, alloc: Global, entries: &[&'a Entry]) -> Result<(), NoMemory>
        ensures { OnOk result ((members : List (List Entry_of))
            → IsCounted self.old members → IsCounted self.new (members ++ lent entries.now ∷ [])) }
    {
        self.told.push(told(alloc, entries)?)?;
        self.all.extend_from_slice(entries)?;
        Ok(())
    }

    /// What a rebuild makes of its own entries and of what counts of each member.
    pub(crate) fn merge(&self, alloc: Global, own: &[&Entry]) -> Result<Merged, NoMemory>
        ensures { IfOk result (λ merged. (members : List (List Entry_of))
            → IsCounted self.now members → merged ≡ merging.merge (lent own.now) members) }
    {
        Ok(Merged {
            copies: Listed::from_vec(copies_of(alloc, own, self.all.as_slice())?),
            floor: floor_of(self.all.as_slice())?,
            ends: Listed::from_vec(merged_ends(alloc, self.told.as_slice())?),
        })
    }
}

/// These entries, lent once more.
pub(crate) fn lent_again<'a>(alloc: Global, own: &[&'a Entry]) -> Result<Vec<&'a Entry>, NoMemory>
    ensures { IfOk result (λ entries. entries.items ≡ own.now) }
{
    let mut entries = Vec::new(alloc);
    entries.extend_from_slice(own)?;
    Ok(entries)
}

// What counts for a range of a member.
fn counted_at<'a>(
    alloc: Global,
    range: &Range,
    logs: &'a [ReadLog],
    member: &Member,
) -> Result<Vec<&'a Entry>, NoMemory>
    ensures { IfOk result (λ entries. lent entries.items ≡ gathers.counted_of range.now (gathered_at logs.now member.now)) }
{
    let Some(log) = log_of(logs, member.master) else {
        return Ok(Vec::new(alloc));
    };
    let entries = lend_all(alloc, log.main.as_slice())?;
    counted_entries(
        alloc,
        range,
        behind(entries.as_slice(), member.from),
        &log.sides,
    )
}

/// What counts for a range of all members, member by member. A step for each entry of a member's log.
pub(crate) fn counted_of_all<'a>(
    alloc: Global,
    range: &Range,
    logs: &'a [ReadLog],
    readers: &[Reader],
) -> Result<Vec<&'a Entry>, NoMemory>
    ensures { IfOk result (λ entries. lent entries.items ≡ flat_map (gathers.counted_of range.now) (members_of logs.now readers.now)) }
{
    let mut entries = Vec::new(alloc);
    for reader in readers {
        let more = counted_at(alloc, range, logs, &reader.member)?;
        entries.extend_from_slice(more.as_slice())?;
    }
    Ok(entries)
}

/// What counts for a range of the members with a master. A step for each entry of the master's log, and a look at each
/// member.
pub(crate) fn counted_by<'a>(
    alloc: Global,
    range: &Range,
    logs: &'a [ReadLog],
    readers: &[Reader],
    master: u8,
) -> Result<Vec<&'a Entry>, NoMemory>
    ensures { IfOk result (λ entries. lent entries.items
        ≡ flat_map (gathers.counted_of range.now) (filter (λ gathered. gathered.member.master == master) (members_of logs.now readers.now))) }
{
    let mut entries = Vec::new(alloc);
    for reader in readers {
        if reader.member.master == master {
            let more = counted_at(alloc, range, logs, &reader.member)?;
            entries.extend_from_slice(more.as_slice())?;
        }
    }
    Ok(entries)
}

/// Whether a master is of a lineage.
pub(crate) fn is_of_lineage(lineage: &[Member], master: u8) -> bool
    ensures { result ≡ list_any (λ member. member.master == master) lineage.now }
{
    lineage.iter().any(|member| member.master == master)
}
