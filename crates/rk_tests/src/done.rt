use crate::comparing::same;
use rk_done::{Completions, Look};
use rk_types::{End, Ended};
use std::alloc::Global;
use std::process::Abort;
use std::test::Fail;

// What is kept of several ends: client, seq and end of each.
fn noted(alloc: Global, rows: &[(u32, u64, End)]) -> Result<Completions, Fail> {
    let mut completions = Completions::new(alloc);
    for (client, seq, end) in rows {
        completions.reserve(1)?;
        completions.note(Ended {
            client: *client,
            seq: *seq,
            end: *end,
        });
    }
    Ok(completions)
}

const ROWS: &[(u32, u64, End)] = &[
    (3, 5, End::Written(9)),
    (1, 2, End::Absent),
    (1, 2, End::Mismatch(4)),
    (3, 4, End::Deleted(7)),
];

// A client and a seq, and what is known of that call.
const LOOKS: &[(u32, u64, Look)] = &[
    (1, 3, Look::New),
    (1, 2, Look::Same(End::Absent)),
    (1, 1, Look::Old(2)),
    (2, 1, Look::New),
    (3, 5, Look::Same(End::Written(9))),
];

fn check_looks<R: Abort>(rt: &R, completions: &Completions) {
    for (client, seq, wanted) in LOOKS {
        same(rt, &completions.look(*client, *seq), wanted);
    }
}

#[test]
fn looks_at_the_last_call(rt: HostRuntime) -> Result<(), Fail> {
    let completions = noted(rt.alloc(), ROWS)?;
    check_looks(&rt, &completions);
    Ok(())
}

// The ends are handed out by client.
#[test]
fn the_greatest_seq_stays(rt: HostRuntime) -> Result<(), Fail> {
    let ends = noted(rt.alloc(), ROWS)?.ends()?;
    same(&rt, &ends.len(), &2);
    for (ended, wanted) in ends
        .iter()
        .zip([(1, 2, End::Absent), (3, 5, End::Written(9))])
    {
        same(&rt, &(ended.client, ended.seq, ended.end), &wanted);
    }
    Ok(())
}
