ghost use Rattle.std.specs.Prelude.{◌≡◌, IfOk};
ghost use Rattle.rk_model.specs.Merged.{IsRisingAbove};

use crate::comparing::same;
use crate::items::{Asked, call};
use rk_history::{Disagree, audit, merge};
use rk_model::Line;
use rk_types::{Outcome, Placed, Receipt, TextError};
use std::alloc::Global;
use std::test::Fail;

// A call that found nothing; its seq is its stamp.
fn placed(alloc: Global, stamp: u64, asked: Asked, accepted: bool) -> Result<Placed, TextError>
    ensures { IfOk result (λ placed. placed.stamp ≡ stamp) }
{
    Ok(Placed {
        call: call(alloc, stamp, asked)?,
        outcome: Outcome::Absent,
        stamp,
        accepted,
    })
}

// Lanes and stamps of a history's lines.
fn shown(alloc: Global, history: &[Line]) -> Result<Vec<(u8, u64)>, Fail> {
    let mut lines = Vec::new(alloc);
    for line in history {
        lines.push((line.lane, line.placed.stamp))?;
    }
    Ok(lines)
}

// A receipt of client 1 for the removal of seq 3 at place 1 of this lane.
fn receipt(alloc: Global, lane: u8, stamp: u64) -> Result<Receipt, TextError> {
    Ok(Receipt {
        call: call(alloc, 3, Asked::Delete)?,
        outcome: Outcome::Absent,
        lane,
        place: 1,
        stamp,
    })
}

// The journal of a lane: a read, a removal, and a read that nobody accepted.
fn journal(alloc: Global, accepted: bool) -> Result<Vec<Placed>, Fail>
    ensures { IfOk result (λ journal. IsRisingAbove 0 journal.items) }
{
    let mut journal = Vec::new(alloc);
    journal.push(placed(alloc, 1, Asked::Get, true)?)?;
    journal.push(placed(alloc, 3, Asked::Delete, accepted)?)?;
    journal.push(placed(alloc, 4, Asked::Get, false)?)?;
    Ok(journal)
}

#[test]
fn journals_merge_by_stamp_and_lane(rt: HostRuntime) -> Result<(), Fail> {
    let alloc = rt.alloc();
    let first = journal(alloc, true)?;
    let third = journal(alloc, false)?;
    let history = merge(alloc, &[first.as_slice(), &[], third.as_slice()])?;
    same(
        &rt,
        &shown(alloc, history.as_slice())?.as_slice(),
        &[(0, 1), (2, 1), (0, 3), (2, 3)].as_slice(),
    );
    Ok(())
}

// The first wrong one of two receipts, of which the first is right: the other is of this lane, with this stamp.
fn audited(alloc: Global, lane: u8, stamp: u64) -> Result<Result<(), Disagree>, Fail> {
    let (first, second) = (journal(alloc, true)?, journal(alloc, false)?);
    let receipts = [receipt(alloc, 0, 3)?, receipt(alloc, lane, stamp)?];
    Ok(audit(&receipts, &[first.as_slice(), second.as_slice()]))
}

#[test]
fn an_audit_finds_the_first_wrong_receipt(rt: HostRuntime) -> Result<(), Fail> {
    for (lane, stamp, agrees) in [(0, 3, true), (0, 4, false), (1, 3, false), (2, 3, false)] {
        let wrong = Disagree {
            index: 1,
            lane,
            place: 1,
        };
        let wanted = if agrees { Ok(()) } else { Err(wrong) };
        same(&rt, &audited(rt.alloc(), lane, stamp)?, &wanted);
    }
    Ok(())
}
