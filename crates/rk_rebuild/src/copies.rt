// The newest items that a master's own entries lack.
ghost use Rattle.std.specs.Prelude.{◌≡◌, ◌++◌, List, IfOk, OnOk, not, filter, map};
ghost use Rattle.rk_types.specs.declared.held.Held.{Held as Item};
ghost use Rattle.rk_overlay.specs.Lent.{IsTreeOf};
ghost use Rattle.rk_overlay.specs.Newest.{Found, newest_from};
ghost use Rattle.rk_world.specs.Ends.{items_of, items_in};
ghost use Rattle.rk_world.specs.Merge.{copies_of as copies_of_lem, has_version as has_version_lem};
ghost use Rattle.rk_rebuild.specs.Lent.{lent};
ghost use Rattle.rk_rebuild.specs.Versions.{HasVersions};

use rk_entry::Entry;
use rk_overlay::{Newest, in_order, take_in};
use rk_types::{Held, Key, NoMemory};
use std::alloc::Global;
use std::collections::{BTreeMap, BTreeSet};

/// The items that there are, by table, key and version.
type Versions<'a> = BTreeSet<(u64, &'a Key, u64)>;

/// The newest item of each key among all these entries, in order of version, except those of which an own entry is an
/// item of that key and version. A tombstone counts like any other item. A search for each entry, and what is copied
/// takes a sort; the keys and values of the result alone are copied.
pub(crate) fn copies_of(
    alloc: Global,
    own: &[&Entry],
    all: &[&Entry],
) -> Result<Vec<Held>, NoMemory>
    ensures { IfOk result (λ copies. copies.items ≡ copies_of_lem (items_of (lent own.now)) (items_of (lent all.now))) }
{
    let mut newest = BTreeMap::new(alloc);
    take_all(&mut newest, all)?;
    let mut versions = BTreeSet::new(alloc);
    note_all(&mut versions, own)?;
    let items = in_order(alloc, &newest)?;
    lacking(alloc, &versions, items.as_slice())
}

// Takes in the items among entries, in their order.
fn take_all<'a>(newest: &mut Newest<'a>, entries: &[&'a Entry]) -> Result<(), NoMemory>
    ensures { OnOk result ((found : Found)
        → IsTreeOf newest.old found → IsTreeOf newest.new (newest_from found (items_of (lent entries.now)))) }
{
    for entry in entries {
        take(newest, entry)?;
    }
    Ok(())
}

// Takes in the item that an entry is, if it is one.
fn take<'a>(newest: &mut Newest<'a>, entry: &'a Entry) -> Result<(), NoMemory>
    ensures { OnOk result ((found : Found)
        → IsTreeOf newest.old found → IsTreeOf newest.new (newest_from found (items_in entry.now))) }
{
    match entry {
        Entry::Held(held) => take_in(newest, held),
        Entry::Refused(_) | Entry::Carried(_) | Entry::Joined(_) => Ok(()),
    }
}

// Notes the versions of the items among entries.
fn note_all<'a>(versions: &mut Versions<'a>, entries: &[&'a Entry]) -> Result<(), NoMemory>
    ensures { OnOk result ((items : List Item)
        → HasVersions versions.old items → HasVersions versions.new (items ++ items_of (lent entries.now))) }
{
    for entry in entries {
        note(versions, entry)?;
    }
    Ok(())
}

// Notes the version of the item that an entry is, if it is one.
fn note<'a>(versions: &mut Versions<'a>, entry: &'a Entry) -> Result<(), NoMemory>
    ensures { OnOk result ((items : List Item)
        → HasVersions versions.old items → HasVersions versions.new (items ++ items_in entry.now)) }
{
    match entry {
        Entry::Held(held) => {
            versions.insert((held.table, &held.key, held.version))?;
            Ok(())
        }
        Entry::Refused(_) | Entry::Carried(_) | Entry::Joined(_) => Ok(()),
    }
}

// Items of their own with the same parts as those of which no version is noted.
fn lacking<'a>(
    alloc: Global,
    versions: &Versions<'a>,
    items: &[&'a Held],
) -> Result<Vec<Held>, NoMemory>
    ensures { IfOk result (λ copies. (own : List Item) → HasVersions versions.now own
        → copies.items ≡ filter (λ item. not (has_version_lem own item)) (map (λ item. item.now) items.now)) }
{
    let mut copies = Vec::new(alloc);
    for item in items {
        if !has_version(versions, item) {
            copies.push(item.duplicate()?)?;
        }
    }
    Ok(copies)
}

// Whether an item of this key and version is noted.
fn has_version<'a>(versions: &Versions<'a>, item: &'a Held) -> bool
    ensures { (own : List Item) → HasVersions versions.now own → result ≡ has_version_lem own item.now }
{
    versions.contains(&(item.table, &item.key, item.version))
}
