// The workload, and what is written of it.
use rk_types::{Op, Outcome, Receipt};
use rk_workload::{Summary, call, count, push_results};
use std::test::*;

// A client's turn of eight calls, all answered: three puts, three gets, a delete and a conditional put.
#[test]
fn a_turn_is_counted(rt: HostRuntime) -> Result<(), Fail> {
    let mut receipts = Vec::new(rt.alloc());
    for seq in 1..=8 {
        receipts.push(Receipt {
            call: call(rt.alloc(), 1, 1, seq)?,
            outcome: Outcome::Absent,
            lane: 6,
            place: 0,
            stamp: u64::from(seq),
        })?;
    }
    let fifth = call(rt.alloc(), 1, 1, 5)?;
    assert!(rt; matches!(fifth.op, Op::Get));
    let mut lent = Vec::new(rt.alloc());
    for receipt in &receipts {
        lent.push(receipt)?;
    }
    let summary = Summary {
        calls: 8,
        answered: 8,
        counts: count(lent.as_slice()),
        owner: Some(2),
    };
    let mut text = Vec::new(rt.alloc());
    push_results(&mut text, &summary)?;
    let wanted = b"calls 8\nanswered 8\nput 3 get 3 del 1 cput 1\nowner 2\n";
    assert!(rt; text.as_slice() == wanted.as_slice());
    Ok(())
}
