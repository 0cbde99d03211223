use crate::comparing::same;
use rk_tablet_map::{MapError, Phase, Row, TabletMap};
use rk_types::{Listed, Member, NoMemory, Range};
use std::alloc::Global;
use std::process::Abort;
use std::test::Fail;

fn row(tablet: u32, table: u64, first: u64, last: u64) -> Row {
    Row {
        tablet,
        range: Range { table, first, last },
        term: 1,
        phase: Phase::Owned { master: 1, from: 0 },
    }
}

// Tablet 1 has the hashes 0 to 9 of table 1.
fn map_of_one(alloc: Global) -> Result<TabletMap, MapError> {
    let mut map = TabletMap::new(alloc);
    map.add(row(1, 1, 0, 9))?;
    Ok(map)
}

#[test]
fn locates_hashes(rt: HostRuntime) -> Result<(), Fail> {
    let map = map_of_one(rt.alloc())?;
    for (table, hash, wanted) in [
        (1, 9, Ok(1)),
        (1, 10, Err(MapError::NoTablet)),
        (2, 5, Err(MapError::NoTablet)),
    ] {
        same(&rt, &map.locate(table, hash), &wanted);
    }
    Ok(())
}

// A tablet, where it is split, and the number of the new one.
const SPLITS: &[(u32, u64, u32, Result<(), MapError>)] = &[
    (3, 4, 2, Err(MapError::NoTablet)),
    (1, 0, 1, Err(MapError::Taken(1))),
    (1, 0, 2, Err(MapError::BadSplit(0))),
    (1, 10, 2, Err(MapError::BadSplit(10))),
    (1, 4, 2, Ok(())),
];

fn check_splits<R: Abort>(rt: &R, map: &mut TabletMap) {
    for (tablet, at, new, wanted) in SPLITS {
        same(rt, &map.split(*tablet, *at, *new), wanted);
    }
}

#[test]
fn splits_tablets(rt: HostRuntime) -> Result<(), Fail> {
    let mut map = map_of_one(rt.alloc())?;
    check_splits(&rt, &mut map);
    same(&rt, &(map.locate(1, 3), map.locate(1, 4)), &(Ok(1), Ok(2)));
    Ok(())
}

// A tablet, and the first of its hashes.
const NEW: &[(u32, u64, Result<(), MapError>)] = &[
    (1, 20, Err(MapError::Taken(1))),
    (3, 9, Err(MapError::Overlap)),
    (3, 10, Ok(())),
];

fn check_new<R: Abort>(rt: &R, map: &mut TabletMap) {
    for (tablet, first, wanted) in NEW {
        same(rt, &map.add(row(*tablet, 1, *first, 29)), wanted);
    }
}

#[test]
fn adds_tablets(rt: HostRuntime) -> Result<(), Fail> {
    let mut map = map_of_one(rt.alloc())?;
    check_new(&rt, &mut map);
    same(&rt, &map.rows().len(), &2);
    Ok(())
}

// Two tablets of one table, by falling number.
fn map_of_two(alloc: Global) -> Result<TabletMap, MapError> {
    let mut map = TabletMap::new(alloc);
    map.add(row(7, 1, 5, 9))?;
    map.add(row(2, 1, 0, 4))?;
    Ok(map)
}

// It is rebuilt from one log.
fn rebuilding(alloc: Global) -> Result<Phase, NoMemory> {
    let mut lineage = Listed::new(alloc);
    lineage.push(Member { master: 2, from: 3 })?;
    Ok(Phase::Rebuilding { lineage, to: 3 })
}

// Tablet 7 at term 2, when it is rebuilt.
fn row_rebuilding(alloc: Global) -> Result<Row, NoMemory> {
    Ok(Row {
        term: 2,
        phase: rebuilding(alloc)?,
        ..row(7, 1, 5, 9)
    })
}

// The phase of a tablet changes if it is there.
fn change(alloc: Global, map: &mut TabletMap, tablet: u32) -> Result<bool, NoMemory> {
    Ok(map.change(tablet, 2, rebuilding(alloc)?))
}

fn check_rows<R: Abort + AllocGlobal>(rt: &R, map: &TabletMap) -> Result<(), Fail> {
    same(rt, &map.row(2), &Some(&row(2, 1, 0, 4)));
    same(rt, &map.row(7), &Some(&row_rebuilding(rt.alloc())?));
    same(rt, &map.row(9), &None);
    same(rt, &map.row_with(1, 4), &Some(&row(2, 1, 0, 4)));
    same(rt, &map.row_with(2, 4), &None);
    Ok(())
}

#[test]
fn changes_one_row(rt: HostRuntime) -> Result<(), Fail> {
    let mut map = map_of_two(rt.alloc())?;
    same(&rt, &change(rt.alloc(), &mut map, 9)?, &false);
    same(&rt, &change(rt.alloc(), &mut map, 7)?, &true);
    check_rows(&rt, &map)
}
