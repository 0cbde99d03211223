ghost use Rattle.std.specs.Prelude.{◌≤◌, length, IfOk};
ghost use Rattle.rk_table.specs.Sorted.{items_of};

use crate::comparing::same;
use crate::items::{WHOLE, item, put};
use rk_pull::{Progress, batch};
use rk_table::{END, FIRST, SortedTable};
use rk_types::Token;
use std::alloc::Global;
use std::test::Fail;

// The buckets of these keys are 836, 682, 401 and 247. Three entries of 8,231 bytes reach the limit of a batch.
fn table_of_four(alloc: Global) -> Result<SortedTable, Fail>
    ensures { IfOk result (λ table. length (items_of table) ≤ 4) }
{
    let value = vec![in alloc; b'v'; 8_192]?;
    let mut table = SortedTable::new(alloc);
    put(&mut table, item(alloc, b"i", 1, value.as_slice())?)?;
    put(&mut table, item(alloc, b"y", 1, value.as_slice())?)?;
    put(&mut table, item(alloc, b"a", 1, value.as_slice())?)?;
    put(&mut table, item(alloc, b"q", 1, value.as_slice())?)?;
    Ok(table)
}

#[test]
fn pulls_in_batches(rt: HostRuntime) -> Result<(), Fail> {
    let table = table_of_four(rt.alloc())?;
    let second = Token {
        bucket: 682,
        skip: 1,
    };
    for (token, count, wanted) in [(FIRST, 3, second), (second, 1, END)] {
        let (items, next) = batch(rt.alloc(), &table, &WHOLE, &token)?;
        same(&rt, &(items.len(), next), &(count, wanted));
    }
    Ok(())
}

// A batch that comes again is not awaited.
#[test]
fn a_batch_is_awaited_once(rt: HostRuntime) {
    let mut progress = Progress::new();
    let next = Token {
        bucket: 682,
        skip: 1,
    };
    for awaited in [true, false] {
        same(&rt, &progress.awaits(&FIRST), &awaited);
        progress.pass(next);
        same(&rt, progress.token(), &next);
    }
    let passed = [681, 682].map(|bucket| progress.passed_bucket(bucket));
    same(&rt, &passed, &[true, false]);
}

#[test]
fn the_end_is_all(rt: HostRuntime) {
    let mut progress = Progress::new();
    same(&rt, &progress.has_all(), &false);
    progress.pass(END);
    same(&rt, &progress.has_all(), &true);
}
