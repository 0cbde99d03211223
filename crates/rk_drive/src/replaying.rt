// Workers that replay pulled records.
ghost use Rattle.rk_drive.specs.Hands.{IsHand};

use crate::board::Board;
use crate::turning::replay;
use rk_dispatch::{ParcelPass, Parcels};
use rk_outside::{Gate, Replica};
use rk_shared::Roster;
use rk_shared_lanes::SharedLanes;
use std::sync::Wait;
use std::sync::ledger::Ledger;

/// Takes parcels and replays them, until the drive is over.
pub(crate) fn run_replays<
    X: Wait,
    R: Replica + Drop,
    L: Ledger,
    M: Ledger,
    A: Ledger,
    B: Ledger,
    N: Roster,
    G: Gate,
>(
    rt: &X,
    shared: &SharedLanes<R, L, M, A, B, N>,
    board: &Board,
    parcels: &Parcels,
    pass: &mut ParcelPass,
    gate: &G,
)
    requires { IsHand parcels.now pass.old }
{
    for _ in rt.forever() {
        if board.is_over() {
            break;
        }
        let seen = board.given.count();
        match parcels.take(rt, pass) {
            Some(parcel) => {
                if replay(rt, shared, board, gate, parcel).is_err() {
                    board.stop();
                    break;
                }
            }
            None => board.given.wait_past(rt, seen),
        }
    }
}
