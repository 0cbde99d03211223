// Workers that let lanes take their turns.
ghost use Rattle.std.specs.Prelude.{◌<◌};
ghost use Rattle.rk_types.specs.declared.hashing.TheConstants.{LANES as lane_count};
ghost use Rattle.rk_drive.specs.Hands.{IsHand};
ghost use Rattle.rk_drive.specs.declared.turning.TheConstants.{TURNERS as turners};

use crate::board::Board;
use crate::watch::Watch;
use rk_attempts::Short;
use rk_conclude::owner_in;
use rk_dispatch::{ParcelPass, Parcels};
use rk_outside::{Gate, Replica};
use rk_shared::Roster;
use rk_shared_lanes::{KeptLane, SharedLanes};
use rk_types::{LANES, NoMemory, Parcel};
use std::sync::Wait;
use std::sync::ledger::Ledger;

/// How many workers take turns: each of them has the lanes whose number, divided by this, leaves its own.
pub(crate) const TURNERS: u8 = 2;

/// What a turn of a lane left.
#[derive(Drop)]
pub(crate) struct Turned {
    /// The numbers of the pull replies on its wire.
    replies: Vec<u64>,
    /// Whether the lane has more to do by itself.
    is_busy: bool,
}

impl Turned {
    /// Whether something is left for the workers that take turns: a further turn, or replies to give to those that replay.
    pub(crate) fn is_left(&self) -> bool {
        self.is_busy || !self.replies.is_empty()
    }
}

/// Lets the lanes of a worker take turns while there is something to do in them, until the drive is over. The worker sleeps while there is
/// nothing, until a client, a replay or the conductor left something to do.
pub(crate) fn run_turns<
    X: Wait,
    R: Replica + Drop,
    L: Ledger,
    M: Ledger,
    A: Ledger,
    B: Ledger,
    N: Roster,
    G: Gate + Watch,
>(
    rt: &X,
    shared: &SharedLanes<R, L, M, A, B, N>,
    board: &Board,
    parcels: &Parcels,
    pass: &mut ParcelPass,
    gate: &G,
    first: u8,
)
    requires hand { IsHand parcels.now pass.old }
    requires first { first < turners }
{
    for _ in rt.forever() {
        if board.is_over() {
            break;
        }
        let seen = board.asked.count();
        match turn_all(rt, shared, board, parcels, pass, gate, first) {
            Ok(true) => board.turned.raise(),
            Ok(false) => board.asked.wait_past(rt, seen),
            Err(NoMemory) => {
                board.stop();
                break;
            }
        }
    }
}

// Each lane of a worker in which there is something to do takes its turn, one after the other: whether one of them did.
fn turn_all<
    X: Wait,
    R: Replica + Drop,
    L: Ledger,
    M: Ledger,
    A: Ledger,
    B: Ledger,
    N: Roster,
    G: Gate + Watch,
>(
    rt: &X,
    shared: &SharedLanes<R, L, M, A, B, N>,
    board: &Board,
    parcels: &Parcels,
    pass: &mut ParcelPass,
    gate: &G,
    first: u8,
) -> Result<bool, NoMemory>
    requires hand { IsHand parcels.now pass.old }
    requires first { first < turners }
    ensures hand { IsHand parcels.now pass.new }
{
    let mut is_turned = false;
    for place in 0..LANES / TURNERS {
        let lane = TURNERS * place + first;
        if !board.begin_turn(lane) {
            continue;
        }
        // A lane that is worn changed nothing.
        let Some(turned) = take_turn(shared, &mut shared.hold(rt, lane), gate)? else {
            continue;
        };
        board.end_turn(lane, turned.is_busy);
        is_turned = true;
        give_all(
            rt,
            shared,
            board,
            parcels,
            pass,
            gate,
            lane,
            &turned.replies,
        )?;
    }
    Ok(is_turned)
}

/// A lane takes its turn, unless it is worn.
pub(crate) fn take_turn<
    R: Replica + Drop,
    L: Ledger,
    M: Ledger,
    A: Ledger,
    B: Ledger,
    N: Roster,
    G: Gate + Watch,
>(
    shared: &SharedLanes<R, L, M, A, B, N>,
    kept: &mut KeptLane<R, L, A, N>,
    gate: &G,
) -> Result<Option<Turned>, NoMemory> {
    match shared.turn(kept, gate) {
        Ok(replies) => {
            let owner = owner_in(kept.lane());
            gate.owned(kept.lane().number(), owner);
            // While the table moves or is rebuilt one turn leads to the next, unless the lane waits for a replay.
            let is_busy = owner.is_none() && replies.is_empty();
            Ok(Some(Turned { replies, is_busy }))
        }
        Err(Short::NoMemory) => Err(NoMemory),
        Err(Short::Worn(_)) => Ok(None),
    }
}

// Gives the parcels of a lane to the workers that replay. What the queue cannot take is replayed here.
fn give_all<
    X: Wait,
    R: Replica + Drop,
    L: Ledger,
    M: Ledger,
    A: Ledger,
    B: Ledger,
    N: Roster,
    G: Gate,
>(
    rt: &X,
    shared: &SharedLanes<R, L, M, A, B, N>,
    board: &Board,
    parcels: &Parcels,
    pass: &mut ParcelPass,
    gate: &G,
    lane: u8,
    numbers: &[u64],
) -> Result<(), NoMemory>
    requires hand { IsHand parcels.now pass.old }
    requires lane { lane < lane_count }
    ensures hand { IsHand parcels.now pass.new }
{
    for number in numbers {
        let parcel = Parcel {
            lane,
            number: *number,
        };
        match parcels.give(rt, pass, parcel) {
            Ok(()) => board.given.raise(),
            Err(back) => replay(rt, shared, board, gate, back)?,
        }
    }
    Ok(())
}

/// Replays a parcel in its lane, if there is one.
pub(crate) fn replay<
    X: Wait,
    R: Replica + Drop,
    L: Ledger,
    M: Ledger,
    A: Ledger,
    B: Ledger,
    N: Roster,
    G: Gate,
>(
    rt: &X,
    shared: &SharedLanes<R, L, M, A, B, N>,
    board: &Board,
    gate: &G,
    parcel: Parcel,
) -> Result<(), NoMemory> {
    if parcel.lane >= LANES {
        return Ok(());
    }
    let replayed = shared.replay(&mut shared.hold(rt, parcel.lane), parcel, gate);
    board.leave_work(parcel.lane);
    match replayed {
        Err(Short::NoMemory) => Err(NoMemory),
        // A lane that is worn changed nothing.
        _ => Ok(()),
    }
}
