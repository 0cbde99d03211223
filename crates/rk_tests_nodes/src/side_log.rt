ghost use Rattle.std.specs.Prelude.{◌≡◌, ◌<◌, ◌^◌, length, vec_len, IfOk};
ghost use Rattle.std.specs.List.{All};
ghost use Rattle.rk_entry.specs.Lawful.{IsLawfulHeld};

use crate::comparing::same;
use rk_segment::Segment;
use rk_side_log::{SideLogs, WORKERS};
use rk_table::{RecordTable, SortedTable};
use rk_tests::items::item;
use rk_types::{Held, Key};
use std::alloc::Global;
use std::process::Abort;
use std::test::Fail;

// An item with this version and a value of so many bytes.
fn held(alloc: Global, key: u8, version: u64, count: usize) -> Result<Held, Fail>
    requires { 0 < version }
    ensures { IfOk result IsLawfulHeld }
{
    let value = vec![in alloc; b'v'; count]?;
    Ok(item(alloc, &[key], version, value.as_slice())?)
}

// The items with these keys, versions and lengths of values.
fn items<R: Abort>(rt: &R, alloc: Global, rows: &[(u8, u64, usize)]) -> Result<Vec<Held>, Fail>
    ensures lawful { IfOk result (λ items. All IsLawfulHeld items.items) }
    ensures count { IfOk result (λ items. vec_len items ≡ length rows.now) }
{
    let mut items = Vec::new(alloc);
    for (key, version, count) in rows {
        assert!(rt; *version > 0);
        let item = held(alloc, *key, *version, *count)?;
        items.push(item)?;
    }
    Ok(items)
}

// Replays such items by a worker, and answers how many were newer.
fn replay<R: Abort>(
    rt: &R,
    alloc: Global,
    logs: &mut SideLogs,
    table: &mut SortedTable,
    worker: u8,
    rows: &[(u8, u64, usize)],
) -> Result<u32, Fail>
    requires worker { worker < WORKERS }
    requires few { length rows.now < 2 ^ 32 }
{
    let items = items(rt, alloc, rows)?;
    assert!(rt; logs.bytes() < 1 << 62);
    Ok(logs.replay(worker, items, table)?)
}

// How many bytes each segment has that is sealed now.
fn sealed(alloc: Global, logs: &mut SideLogs) -> Result<Vec<u32>, Fail> {
    Ok(logs.seal().iter().map(Segment::length).collect(alloc)?)
}

// Two batches of items are replayed, the first with an older item behind a newer one of its key.
fn check_newer<R: Abort + AllocGlobal>(
    rt: &R,
    logs: &mut SideLogs,
    table: &mut SortedTable,
) -> Result<(), Fail> {
    let first = [(b'a', 5, 1), (b'a', 4, 1), (b'b', 1, 1)];
    let newer = replay(rt, rt.alloc(), logs, table, 0, &first)?;
    same(rt, &(newer, logs.bytes()), &(2, 80));
    let second = [(b'a', 3, 1), (b'b', 2, 1)];
    let newer = replay(rt, rt.alloc(), logs, table, 3, &second)?;
    same(rt, &(newer, logs.bytes()), &(1, 120));
    Ok(())
}

// The version of `b` in the table.
fn version_of_b(alloc: Global, table: &SortedTable) -> Result<Option<u64>, Fail> {
    let key = Key::new(alloc, b"b")?;
    Ok(table.get(1, &key).map(|held| held.version))
}

// The segments that are sealed now have so many bytes.
fn check_sealed<R: Abort + AllocGlobal>(
    rt: &R,
    logs: &mut SideLogs,
    wanted: &[u32],
) -> Result<(), Fail> {
    same(rt, &sealed(rt.alloc(), logs)?.as_slice(), &wanted);
    same(rt, &logs.bytes(), &0);
    Ok(())
}

// An item with a key and a value of one byte takes 40 bytes. The older one of two goes nowhere.
#[test]
fn replays_what_is_newer(rt: HostRuntime) -> Result<(), Fail> {
    let mut table = SortedTable::new(rt.alloc());
    let mut logs = SideLogs::new(rt.alloc());
    check_newer(&rt, &mut logs, &mut table)?;
    same(&rt, &version_of_b(rt.alloc(), &table)?, &Some(2));
    check_sealed(&rt, &mut logs, &[80, 40])
}

// Worker 2 replays five items with values of 65,000 bytes, and worker 1 one.
fn replay_six<R: Abort + AllocGlobal>(
    rt: &R,
    logs: &mut SideLogs,
    table: &mut SortedTable,
) -> Result<(), Fail> {
    for (worker, key) in [
        (2, b'a'),
        (1, b'b'),
        (2, b'c'),
        (2, b'd'),
        (2, b'e'),
        (2, b'f'),
    ] {
        let rows = [(key, 1, 65_000)];
        same(rt, &replay(rt, rt.alloc(), logs, table, worker, &rows)?, &1);
    }
    Ok(())
}

// An item with a value of 65,000 bytes takes 65,040, and two of them find room in a segment. What was sealed is gone.
#[test]
fn seals_three_segments_of_a_worker(rt: HostRuntime) -> Result<(), Fail> {
    let mut table = SortedTable::new(rt.alloc());
    let mut logs = SideLogs::new(rt.alloc());
    replay_six(&rt, &mut logs, &mut table)?;
    check_sealed(&rt, &mut logs, &[65_040, 130_080, 130_080, 65_040])?;
    check_sealed(&rt, &mut logs, &[])
}
