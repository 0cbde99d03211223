use crate::comparing::{same, same_in};
use crate::items::item;
use rk_overlay::{newest, overlay};
use rk_types::{Held, Key};
use std::alloc::Global;
use std::process::Abort;
use std::test::Fail;

// An item: its version, its table, its key, and its value, which a tombstone lacks.
type Row = (u64, u64, &'static [u8], &'static [u8]);

fn items(alloc: Global, rows: &[Row]) -> Result<Vec<Held>, Fail> {
    let mut items = Vec::new(alloc);
    for (version, table, key, value) in rows {
        let item = item(alloc, key, *version, value)?;
        items.push(Held {
            table: *table,
            ..item
        })?;
    }
    Ok(items)
}

// The tombstone of `a` is newer than its value, and of two items with one version the first counts.
const FIVE: &[Row] = &[
    (1, 1, b"a", b"x"),
    (5, 1, b"b", b"y"),
    (2, 1, b"a", b""),
    (2, 1, b"a", b"z"),
    (9, 2, b"a", b"w"),
];

// A table and a key, and the place of the newest of these items.
const PLACES: &[(u64, &[u8], Option<usize>)] = &[
    (1, b"a", Some(2)),
    (1, b"b", Some(1)),
    (2, b"a", Some(4)),
    (2, b"b", None),
    (1, b"c", None),
];

fn place_in(alloc: Global, items: &[Held], table: u64, name: &[u8]) -> Result<Option<usize>, Fail> {
    let key = Key::new(alloc, name)?;
    Ok(newest(items, table, &key))
}

#[test]
fn finds_the_newest(rt: HostRuntime) -> Result<(), Fail> {
    let items = items(rt.alloc(), FIVE)?;
    for (table, name, place) in PLACES {
        same(
            &rt,
            &place_in(rt.alloc(), items.as_slice(), *table, name)?,
            place,
        );
    }
    Ok(())
}

const VALUE: Row = (1, 1, b"a", b"x");

const TOMBSTONE: Row = (2, 1, b"a", b"");

const X: Row = (3, 1, b"a", b"x");

const Y: Row = (3, 1, b"a", b"y");

// Two lists, and the one laid over the other. A tombstone is newer than a value with a smaller version, whichever list has
// it. Of two items of one key and one version that of the first list counts, and of one list the first. The result is
// ordered by version, then by table, then by the bytes of the key, with a shorter key first.
const ROWS: &[(&[Row], &[Row], &[Row])] = &[
    (&[], &[], &[]),
    (&[VALUE], &[TOMBSTONE], &[TOMBSTONE]),
    (&[TOMBSTONE], &[VALUE], &[TOMBSTONE]),
    (&[X], &[Y], &[X]),
    (&[Y], &[X], &[Y]),
    (&[], &[Y, X], &[Y]),
    (
        &[(7, 1, b"z", b"1"), (5, 2, b"a", b"2"), (5, 1, b"b", b"3")],
        &[
            (5, 1, b"ab", b"4"),
            (5, 1, b"a", b"5"),
            (4, 1, b"z", b"6"),
            (1, 2, b"z", b"7"),
        ],
        &[
            (1, 2, b"z", b"7"),
            (5, 1, b"a", b"5"),
            (5, 1, b"ab", b"4"),
            (5, 1, b"b", b"3"),
            (5, 2, b"a", b"2"),
            (7, 1, b"z", b"1"),
        ],
    ),
];

fn laid(alloc: Global, first: &[Row], second: &[Row]) -> Result<Vec<Held>, Fail> {
    let first = items(alloc, first)?;
    let second = items(alloc, second)?;
    Ok(overlay(alloc, first.as_slice(), second.as_slice())?)
}

fn check_laid<R: Abort + AllocGlobal>(
    rt: &R,
    row: usize,
    (first, second, wanted): (&[Row], &[Row], &[Row]),
) -> Result<(), Fail> {
    let found = laid(rt.alloc(), first, second)?;
    let wanted = items(rt.alloc(), wanted)?;
    same_in(rt, row, &found, &wanted);
    Ok(())
}

#[test]
fn lays_a_list_over_another(rt: HostRuntime) -> Result<(), Fail> {
    for (row, lists) in ROWS.iter().enumerate() {
        check_laid(&rt, row, *lists)?;
    }
    Ok(())
}
