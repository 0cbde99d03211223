ghost use Rattle.std.specs.Prelude.{◌≡◌, IfOk, List, OnOk, map};
ghost use Rattle.rk_overlay.specs.Newest.{Found, newest as newest_lem, newest_from, with_newer};
ghost use Rattle.rk_overlay.specs.Overlay.{item_cmp, newest_items, overlay as overlay_lem};
ghost use Rattle.std.specs.BTreeMap.{IsOrdered, values};
ghost use Rattle.rk_overlay.specs.Lent.{IsTreeOf, name_cmp};

use rk_types::{Held, Key, NoMemory};
use std::alloc::Global;
use std::cmp::Ordering;
use std::collections::BTreeMap;

/// The newest item so far of each key of each table.
pub type Newest<'a> = BTreeMap<(u64, &'a Key), &'a Held>;

/// The newest item of each key of both lists together, in ascending order of version, then table, then key by its
/// bytes. A tombstone counts like any other item. Of the items of a key that have its greatest version the first one
/// counts, first in `a` and then in `b`. `NoMemory` may come in place of the list.
///
/// The call walks both lists once, with a look-up for each item in a tree of the keys so far, sorts what is left, and
/// copies the keys and values of the result alone.
pub fn overlay(alloc: Global, a: &[Held], b: &[Held]) -> Result<Vec<Held>, NoMemory>
    ensures { IfOk result (λ items. items.items ≡ overlay_lem a.now b.now) }
{
    let mut newest = BTreeMap::new(alloc);
    take_all(&mut newest, a)?;
    take_all(&mut newest, b)?;
    let lent = in_order(alloc, &newest)?;
    duplicates(alloc, lent.as_slice())
}

// Takes in the items of a list, in their order.
fn take_all<'a>(newest: &mut Newest<'a>, items: &'a [Held]) -> Result<(), NoMemory>
    ensures { OnOk result ((found : Found)
        → IsTreeOf newest.old found → IsTreeOf newest.new (newest_from found items.now)) }
{
    for item in items {
        take_in(newest, item)?;
    }
    Ok(())
}

/// Takes in one more item, unless the tree has one of its key that is as new. A search.
pub fn take_in<'a>(newest: &mut Newest<'a>, item: &'a Held) -> Result<(), NoMemory>
    ensures { OnOk result ((found : Found)
        → IsTreeOf newest.old found → IsTreeOf newest.new (with_newer found item.now)) }
{
    let name = (item.table, &item.key);
    if let Some(old) = newest.get(&name) {
        if old.version >= item.version {
            return Ok(());
        }
    }
    newest.insert(name, item)?;
    Ok(())
}

/// The newest items of a list that was taken in, in ascending order of version, then table, then key by its bytes. A sort,
/// and nothing is copied.
pub fn in_order<'a>(alloc: Global, newest: &Newest<'a>) -> Result<Vec<&'a Held>, NoMemory>
    ensures { IfOk result (λ lent. (items : List Held)
        → IsTreeOf newest.now (newest_lem items) → map (λ item. item.now) lent.items ≡ newest_items items) }
{
    let mut lent = values(alloc, newest)?;
    lent.sort_by(|x, y| compare(x, y))?;
    Ok(lent)
}

// The items of the tree, in its order.
fn values<'a>(alloc: Global, newest: &Newest<'a>) -> Result<Vec<&'a Held>, NoMemory>
    ensures values { IfOk result (λ lent. lent.items ≡ values newest.now) }
    ensures ordered { IsOrdered name_cmp newest.now }
{
    let lent = newest.values().copied().collect(alloc)?;
    Ok(lent)
}

// Which of two items comes first.
fn compare(x: &Held, y: &Held) -> Ordering
    ensures { result ≡ item_cmp x.now y.now }
{
    x.version
        .cmp(&y.version)
        .then_with(|| x.table.cmp(&y.table))
        .then_with(|| x.key.cmp(&y.key))
}

// Items of their own with the same parts.
fn duplicates(alloc: Global, items: &[&Held]) -> Result<Vec<Held>, NoMemory>
    ensures { IfOk result (λ copies. copies.items ≡ map (λ item. item.now) items.now) }
{
    let mut copies = Vec::new(alloc);
    for item in items {
        copies.push(item.duplicate()?)?;
    }
    Ok(copies)
}
