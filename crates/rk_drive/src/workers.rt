// All workers of a drive, each on a thread of its own.
ghost use Rattle.std.specs.Prelude.{◌≡◌, ◌<◌, length, vec_len};
ghost use Rattle.std.specs.List.{All};
ghost use Rattle.rk_drive.specs.Hands.{IsDuty};
ghost use Rattle.rk_drive.specs.Workers.{MakesWorkload, clients_in};

use crate::board::Board;
use crate::calling::run_callers;
use crate::conducting::conduct;
use crate::plan::Plan;
use crate::replaying::run_replays;
use crate::turning::run_turns;
use crate::watch::Watch;
use rk_dispatch::{ParcelPass, Parcels};
use rk_outside::{Gate, Replica};
use rk_shared::Roster;
use rk_shared_lanes::{Pass, SharedLanes};
use std::alloc::Global;
use std::sync::Wait;
use std::sync::ledger::Ledger;
use std::thread::{self, Threads};

/// How many workers there are for clients.
const CALLERS: usize = 4;

/// What a worker does that is not for clients.
#[derive(Drop)]
pub(crate) enum Duty {
    /// It lets the lanes take turns whose number, divided by how many such workers there are, leaves this.
    Turns(ParcelPass, u8),
    /// It replays what was pulled.
    Replays(ParcelPass),
    /// It conducts the drive: crashes a master if the plan asks for that.
    Conduct,
}

/// Runs all workers until the calls of all clients are answered, or memory is wanting. The passes come back, those of the same clients in
/// their order.
pub(crate) fn run_all<
    X: Threads + Wait + Sync,
    R: Replica + Send + Drop,
    L: Ledger + Send + Sync,
    M: Ledger + Send + Sync,
    A: Ledger + Send + Sync,
    B: Ledger + Send + Sync,
    N: Roster + Send + Sync,
    G: Gate + Watch + Sync,
>(
    rt: &X,
    alloc: Global,
    shared: &SharedLanes<R, L, M, A, B, N>,
    parcels: &Parcels,
    duties: &mut [Duty],
    plan: &Plan,
    gate: &G,
    passes: Vec<Pass<M, B, N>>,
) -> Vec<Pass<M, B, N>>
    requires keys { 0 < plan.now.keys }
    requires makes { N.tells → MakesWorkload N.makes plan.now.keys }
    requires duties { All (IsDuty parcels.now) duties.old }
    ensures clients { clients_in result.items ≡ clients_in passes.items }
    ensures len { vec_len result ≡ vec_len passes }
{
    let size = passes.len().div_ceil(CALLERS).max(1);
    let board = Board::new(passes.len().div_ceil(size) as u64);
    let board = &board;
    thread::join(
        rt,
        || -> Vec<Pass<M, B, N>>
            requires { (0 < size) × (0 < plan.now.keys) × (N.tells → MakesWorkload N.makes plan.now.keys) }
            ensures { (clients_in result.items ≡ clients_in passes.items) × (vec_len result ≡ vec_len passes) }
        { run_clients(rt, alloc, shared, board, plan, gate, size, passes) },
        ||
            requires { All (IsDuty parcels.now) duties.now }
        { run_others(rt, shared, board, parcels, duties, plan, gate) },
    )
    .0
}

// The clients, so many in each thread.
fn run_clients<
    X: Threads + Wait + Sync,
    R: Replica + Send + Drop,
    L: Ledger + Send + Sync,
    M: Ledger + Send + Sync,
    A: Ledger + Send + Sync,
    B: Ledger + Send + Sync,
    N: Roster + Send + Sync,
    G: Gate + Watch + Sync,
>(
    rt: &X,
    alloc: Global,
    shared: &SharedLanes<R, L, M, A, B, N>,
    board: &Board,
    plan: &Plan,
    gate: &G,
    size: usize,
    passes: Vec<Pass<M, B, N>>,
) -> Vec<Pass<M, B, N>>
    requires size { 0 < size }
    requires keys { 0 < plan.now.keys }
    requires makes { N.tells → MakesWorkload N.makes plan.now.keys }
    ensures { (clients_in result.items ≡ clients_in passes.items) × (vec_len result ≡ vec_len passes) }
{
    let mut passes = passes;
    each_chunk(
        rt,
        alloc,
        shared,
        board,
        plan,
        gate,
        size,
        passes.as_mut_slice(),
    );
    passes
}

// The clients of each chunk, on a thread of its own.
fn each_chunk<
    X: Threads + Wait + Sync,
    R: Replica + Send + Drop,
    L: Ledger + Send + Sync,
    M: Ledger + Send + Sync,
    A: Ledger + Send + Sync,
    B: Ledger + Send + Sync,
    N: Roster + Send + Sync,
    G: Gate + Watch + Sync,
>(
    rt: &X,
    alloc: Global,
    shared: &SharedLanes<R, L, M, A, B, N>,
    board: &Board,
    plan: &Plan,
    gate: &G,
    size: usize,
    passes: &mut [Pass<M, B, N>],
)
    requires size { 0 < size }
    requires keys { 0 < plan.now.keys }
    requires makes { N.tells → MakesWorkload N.makes plan.now.keys }
    ensures clients { clients_in passes.new ≡ clients_in passes.old }
    ensures len { length passes.new ≡ length passes.old }
{
    thread::for_each_chunk_mut(
        rt,
        passes,
        size,
        &|_: usize, chunk: &mut [Pass<M, B, N>]|
            requires { (0 < plan.now.keys) × (N.tells → MakesWorkload N.makes plan.now.keys) }
            ensures { clients_in chunk.exit.now ≡ clients_in chunk.entry.now }
        { run_callers(rt, alloc, shared, board, plan, gate, chunk) },
    );
}

// Runs the workers that are not for clients.
fn run_others<
    X: Threads + Wait + Sync,
    R: Replica + Send + Drop,
    L: Ledger + Send + Sync,
    M: Ledger + Send + Sync,
    A: Ledger + Send + Sync,
    B: Ledger + Send + Sync,
    N: Roster + Send + Sync,
    G: Gate + Watch + Sync,
>(
    rt: &X,
    shared: &SharedLanes<R, L, M, A, B, N>,
    board: &Board,
    parcels: &Parcels,
    duties: &mut [Duty],
    plan: &Plan,
    gate: &G,
)
    requires { All (IsDuty parcels.now) duties.old }
{
    let workers = duties.len().max(1);
    thread::for_each_mut(
        rt,
        duties,
        workers,
        &|_: usize, duty: &mut Duty|
            requires { IsDuty parcels.now duty.now }
        { run_duty(rt, shared, board, parcels, duty, plan, gate) },
    );
}

// Does what a worker is for, until the drive is over.
fn run_duty<
    X: Wait,
    R: Replica + Drop,
    L: Ledger,
    M: Ledger,
    A: Ledger,
    B: Ledger,
    N: Roster,
    G: Gate + Watch,
>(
    rt: &X,
    shared: &SharedLanes<R, L, M, A, B, N>,
    board: &Board,
    parcels: &Parcels,
    duty: &mut Duty,
    plan: &Plan,
    gate: &G,
)
    requires { IsDuty parcels.now duty.old }
{
    match duty {
        Duty::Turns(pass, first) => run_turns(rt, shared, board, parcels, pass, gate, *first),
        Duty::Replays(pass) => run_replays(rt, shared, board, parcels, pass, gate),
        Duty::Conduct => conduct(rt, shared, board, plan.crash),
    }
}
