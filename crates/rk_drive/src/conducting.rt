// The conductor, which crashes a master if that is asked for.
ghost use Rattle.std.specs.Prelude.{◌≡◌, true};
ghost use Rattle.rk_world.specs.Premises.{IsMaster};

use crate::board::Board;
use crate::plan::Crash;
use rk_outside::Replica;
use rk_shared::Roster;
use rk_shared_lanes::{KeptLane, SharedLanes};
use rk_types::{LANES, NoMemory};
use rk_world::{Event, StepError};
use std::sync::Wait;
use std::sync::ledger::Ledger;

/// Crashes a master in each lane, one lane after the other, once so many calls are answered, and then gives notice of it in each.
pub(crate) fn conduct<
    X: Wait,
    R: Replica + Drop,
    L: Ledger,
    M: Ledger,
    A: Ledger,
    B: Ledger,
    N: Roster,
>(rt: &X, shared: &SharedLanes<R, L, M, A, B, N>, board: &Board, crash: Option<Crash>) {
    let Some(Crash { master, after }) = crash else {
        return;
    };
    if !wait_for(rt, board, after) {
        return;
    }
    if crash_all(rt, shared, board, master).is_err() {
        board.stop();
    }
}

// Waits until so many calls are answered: whether they are.
fn wait_for<X: Wait>(rt: &X, board: &Board, after: u32) -> bool {
    for _ in rt.forever() {
        let seen = board.news.count();
        if board.answered() >= u64::from(after) {
            return true;
        }
        if board.is_over() {
            return false;
        }
        board.news.wait_past(rt, seen);
    }
    unreachable!()
}

// Crashes a master in each lane, and then gives notice of it in each.
fn crash_all<X: Wait, R: Replica + Drop, L: Ledger, M: Ledger, A: Ledger, B: Ledger, N: Roster>(
    rt: &X,
    shared: &SharedLanes<R, L, M, A, B, N>,
    board: &Board,
    master: u8,
) -> Result<(), NoMemory> {
    for lane in 0..LANES {
        crash(&mut shared.hold(rt, lane), master)?;
    }
    for lane in 0..LANES {
        give_notice(&mut shared.hold(rt, lane), master)?;
        board.leave_work(lane);
    }
    Ok(())
}

// A master of a lane crashes, if another one lives.
fn crash<R: Replica + Drop, L: Ledger, A: Ledger, N: Roster>(
    kept: &mut KeptLane<R, L, A, N>,
    master: u8,
) -> Result<(), NoMemory> {
    if !has_master(kept, master) || !kept.lane().lives_another(master) {
        return Ok(());
    }
    heard(kept.step(Event::Crash(master)))
}

// The coordinator of a lane gets notice of a master's crash.
fn give_notice<R: Replica + Drop, L: Ledger, A: Ledger, N: Roster>(
    kept: &mut KeptLane<R, L, A, N>,
    master: u8,
) -> Result<(), NoMemory> {
    if !has_master(kept, master) {
        return Ok(());
    }
    heard(kept.step(Event::Notice(master)))
}

// Whether a lane has a master of this number.
fn has_master<R: Replica + Drop, L: Ledger, A: Ledger, N: Roster>(
    kept: &KeptLane<R, L, A, N>,
    master: u8,
) -> bool
    ensures { result ≡ true → IsMaster kept.now.masters master }
{
    master >= 1 && master <= kept.masters()
}

// Want of memory ends the drive; any other refusal changes nothing.
fn heard<T: Drop>(answer: Result<T, StepError>) -> Result<(), NoMemory> {
    match answer {
        Err(StepError::NoMemory) => Err(NoMemory),
        _ => Ok(()),
    }
}
