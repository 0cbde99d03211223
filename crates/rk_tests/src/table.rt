ghost use Rattle.std.specs.Prelude.{◌≤◌, length, IfOk};
ghost use Rattle.rk_table.specs.Sorted.{items_of};

use crate::comparing::same;
use crate::items::{WHOLE, item, put};
use rk_table::{END, FIRST, RecordTable, SortedTable};
use rk_types::{Held, Key, Token, hash};
use std::alloc::Global;
use std::process::Abort;
use std::test::Fail;

#[test]
fn keeps_the_newest_version(rt: HostRuntime) -> Result<(), Fail> {
    let mut table = SortedTable::new(rt.alloc());
    for (version, wanted) in [(1, true), (3, true), (2, false)] {
        let item = item(rt.alloc(), b"a", version, b"x")?;
        same(&rt, &put(&mut table, item)?, &wanted);
    }
    let key = Key::new(rt.alloc(), b"a")?;
    let found = [1, 2].map(|number| table.get(number, &key).map(|held| held.version));
    same(&rt, &found, &[Some(3), None]);
    Ok(())
}

// The buckets of these keys are 247, 401, 682 and 836; that of 401 has a tombstone.
fn table_of_four(alloc: Global) -> Result<SortedTable, Fail>
    ensures { IfOk result (λ table. length (items_of table) ≤ 4) }
{
    let mut table = SortedTable::new(alloc);
    put(&mut table, item(alloc, b"i", 1, b"x")?)?;
    put(&mut table, item(alloc, b"a", 1, b"")?)?;
    put(&mut table, item(alloc, b"y", 1, b"x")?)?;
    put(&mut table, item(alloc, b"q", 1, b"x")?)?;
    Ok(table)
}

// Whether the items have these keys.
fn check_keys<R: Abort>(rt: &R, items: &[Held], keys: &[u8]) {
    same(rt, &items.len(), &keys.len());
    for (item, key) in items.iter().zip(keys) {
        same(rt, &item.key.bytes(), &[*key].as_slice());
    }
}

#[test]
fn scans_live_items_in_order(rt: HostRuntime) -> Result<(), Fail> {
    let table = table_of_four(rt.alloc())?;
    let mut into = Vec::new(rt.alloc());
    let mut token = FIRST;
    for (bucket, skip) in [(247, 1), (682, 1), (END.bucket, END.skip)] {
        token = table.scan(&WHOLE, &token, 1, &mut into)?;
        same(&rt, &token, &Token { bucket, skip });
    }
    check_keys(&rt, into.as_slice(), b"qyi");
    Ok(())
}

#[test]
fn finds_live_items_by_hash(rt: HostRuntime) -> Result<(), Fail> {
    let table = table_of_four(rt.alloc())?;
    let mut into = Vec::new(rt.alloc());
    for key in [b"y", b"a"] {
        table.at_hash(&WHOLE, hash(key), &mut into)?;
    }
    check_keys(&rt, into.as_slice(), b"y");
    Ok(())
}

#[test]
fn drops_a_range(rt: HostRuntime) -> Result<(), Fail> {
    let mut table = table_of_four(rt.alloc())?;
    table.drop_range(&WHOLE);
    let key = Key::new(rt.alloc(), b"q")?;
    same(&rt, &table.get(1, &key), &None);
    Ok(())
}
