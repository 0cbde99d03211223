use crate::comparing::same;
use crate::items::{Asked, Told, op_of, outcome_of};
use Asked::{CondPut, Delete, Get, Put};
use Told::{Absent, Deleted, Found, Mismatch, Written};
use rk_model::{Line, replays};
use rk_types::{Call, Key, Placed, TextError};
use std::alloc::Global;
use std::test::Fail;

fn call_of(alloc: Global, table: u64, key: &[u8], asked: Asked) -> Result<Call, TextError> {
    Ok(Call {
        client: 1,
        seq: 1,
        table,
        key: Key::new(alloc, key)?,
        op: op_of(alloc, asked)?,
    })
}

fn record(
    alloc: Global,
    table: u64,
    key: &[u8],
    asked: Asked,
    told: Told,
) -> Result<Placed, TextError> {
    Ok(Placed {
        call: call_of(alloc, table, key, asked)?,
        outcome: outcome_of(alloc, told)?,
        stamp: 1,
        accepted: true,
    })
}

// A table, a key of one byte, and what was asked and answered there.
type Step = (u64, &'static [u8; 1], Asked, Told);

// The records of these steps, and then of one more.
fn history_of(alloc: Global, steps: &[Step], last: Option<Step>) -> Result<Vec<Placed>, Fail> {
    let mut history = Vec::new(alloc);
    for (table, key, asked, told) in steps {
        history.push(record(alloc, *table, *key, *asked, *told)?)?;
    }
    if let Some((table, key, asked, told)) = last {
        history.push(record(alloc, table, key, asked, told)?)?;
    }
    Ok(history)
}

// Whether the operation may have this outcome after these steps, which are legal.
fn may_end(alloc: Global, steps: &[Step], asked: Asked, told: Told) -> Result<bool, Fail> {
    let history = history_of(alloc, steps, Some((1, b"a", asked, told)))?;
    Ok(replays(alloc, history.as_slice())?.is_none())
}

// For each of nine outcomes `+` if the operation may have it after these steps, of which the last version is this
// one, and else `-`.
fn marks(alloc: Global, steps: &[Step], last: u64, asked: Asked) -> Result<[u8; 9], Fail> {
    let above = last.wrapping_add(1);
    let outcomes = [
        Found(1, b"x"),
        Found(1, b"y"),
        Absent,
        Written(last),
        Written(above),
        Deleted(last),
        Deleted(above),
        Mismatch(0),
        Mismatch(1),
    ];
    let mut marks = [b'-'; 9];
    for (mark, told) in marks.iter_mut().zip(outcomes) {
        if may_end(alloc, steps, asked, told)? {
            *mark = b'+';
        }
    }
    Ok(marks)
}

// What may come if a key never had a record, has version 1 of `x`, or lost it at version 2. The marks were written
// out from the table of the map machine, apart from this code.
#[test]
fn allows_what_the_machine_allows(rt: HostRuntime) -> Result<(), Fail> {
    let alloc = rt.alloc();
    let delete = (1, b"a", Delete, Deleted(2));
    let rows: [(Asked, &[u8; 9], &[u8; 9], &[u8; 9]); 5] = [
        (Get, b"--+------", b"+--------", b"--+------"),
        (Put(b"y"), b"----+----", b"----+----", b"----+----"),
        (CondPut(0, b"y"), b"----+----", b"--------+", b"----+----"),
        (CondPut(1, b"y"), b"-------+-", b"----+----", b"-------+-"),
        (Delete, b"--+------", b"------+--", b"--+------"),
    ];
    for (asked, never, live, gone) in rows {
        let found = [
            marks(alloc, &[], 0, asked)?,
            marks(alloc, &[PUT], 1, asked)?,
            marks(alloc, &[PUT, delete], 2, asked)?,
        ];
        same(&rt, &found, &[*never, *live, *gone]);
    }
    Ok(())
}

const PUT: Step = (1, b"a", Put(b"x"), Written(1));

// Histories over several keys and tables, and the first wrong place of each.
const HISTORIES: &[(&[Step], Option<u64>)] = &[
    (&[], None),
    (&[PUT, (1, b"a", Get, Found(1, b"y"))], Some(1)),
    (
        &[
            (1, b"a", Get, Absent),
            PUT,
            (1, b"a", Delete, Deleted(7)),
            (1, b"a", Put(b"y"), Written(8)),
        ],
        None,
    ),
    (
        &[
            PUT,
            (2, b"a", Get, Absent),
            (2, b"a", Put(b"y"), Written(1)),
            (1, b"a", Get, Found(1, b"x")),
        ],
        None,
    ),
    (
        &[
            PUT,
            (1, b"b", Put(b"y"), Written(1)),
            (1, b"a", Get, Found(1, b"x")),
        ],
        None,
    ),
    (
        &[PUT, (1, b"a", Get, Absent), (1, b"a", Delete, Absent)],
        Some(1),
    ),
];

#[test]
fn finds_the_first_wrong_place(rt: HostRuntime) -> Result<(), Fail> {
    for (steps, wanted) in HISTORIES {
        let history = history_of(rt.alloc(), steps, None)?;
        same(&rt, &replays(rt.alloc(), history.as_slice())?, wanted);
    }
    Ok(())
}
