use crate::comparing::same;
use rk_staged::StagedCalls;
use rk_tests::items::{Asked, call};
use std::alloc::Global;
use std::process::Abort;
use std::test::Fail;

// Whether calls with seq 7 and 8 of client 1, and with seq 7 of client 2, are staged.
fn staged(calls: &StagedCalls) -> (bool, bool, bool) {
    (
        calls.is_staged(1, 7),
        calls.is_staged(1, 8),
        calls.is_staged(2, 7),
    )
}

// A client's call with seq 7 is staged at a place.
fn stage(alloc: Global, calls: &mut StagedCalls, place: u64, client: u32) -> Result<(), Fail> {
    let mut call = call(alloc, 7, Asked::Get)?;
    call.client = client;
    calls.insert(place, call)?;
    Ok(())
}

fn check_taken<R: Abort>(rt: &R, calls: &mut StagedCalls) {
    same(rt, &staged(calls), &(true, false, true));
    for (place, wanted) in [(0, (true, false, true)), (2, (false, false, true))] {
        let _ = calls.take(place);
        same(rt, &staged(calls), &wanted);
    }
}

// Two clients stage a call with the same seq, and one of them two more.
#[test]
fn a_call_is_staged_until_the_last_of_its_name_is_taken(rt: HostRuntime) -> Result<(), Fail> {
    let mut calls = StagedCalls::new(rt.alloc());
    for (place, client) in [(0, 1), (1, 2), (2, 1)] {
        stage(rt.alloc(), &mut calls, place, client)?;
    }
    check_taken(&rt, &mut calls);
    Ok(())
}
