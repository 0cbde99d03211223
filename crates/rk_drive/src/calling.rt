// Workers for clients.
ghost use Rattle.std.specs.Prelude.{◌≡◌, ◌<◌, true};
ghost use Rattle.rk_types.specs.declared.hashing.TheConstants.{LANES as lane_count};
ghost use Rattle.rk_message.specs.Calls.{IsLawfulOp};
ghost use Rattle.rk_drive.specs.Driven.{HasAnswers};
ghost use Rattle.rk_drive.specs.Workers.{MakesWorkload, clients_in};

use crate::board::Board;
use crate::plan::Plan;
use crate::turning::take_turn;
use crate::watch::Watch;
use rk_attempts::{Attempt, Short};
use rk_outside::{Gate, Replica};
use rk_session::Session;
use rk_shared::Roster;
use rk_shared_lanes::{KeptLane, Pass, SharedLanes};
use rk_types::{LANES, NoMemory, Op, hash, lane_of};
use rk_workload::{TABLE, call};
use std::alloc::Global;
use std::mem;
use std::sync::Wait;
use std::sync::ledger::Ledger;

/// How far clients came: the later one of two says more.
#[derive(Clone, Copy)]
enum Round {
    /// All their calls are answered.
    Ended,
    /// They wait for turns that lanes have not taken.
    Waits,
    /// A call was answered, or can be looked at.
    GoesOn,
}

impl Round {
    // How far the clients of both came.
    fn and(self, other: Round) -> Round {
        match (self, other) {
            (Round::GoesOn, _) | (_, Round::GoesOn) => Round::GoesOn,
            (Round::Waits, _) | (_, Round::Waits) => Round::Waits,
            (Round::Ended, Round::Ended) => Round::Ended,
        }
    }
}

/// Brings the calls of some clients on, until all are answered or memory is wanting.
pub(crate) fn run_callers<
    X: Wait,
    R: Replica + Drop,
    L: Ledger,
    M: Ledger,
    A: Ledger,
    B: Ledger,
    N: Roster,
    G: Gate + Watch,
>(
    rt: &X,
    alloc: Global,
    shared: &SharedLanes<R, L, M, A, B, N>,
    board: &Board,
    plan: &Plan,
    gate: &G,
    passes: &mut [Pass<M, B, N>],
)
    requires keys { 0 < plan.now.keys }
    requires makes { N.tells → MakesWorkload N.makes plan.now.keys }
    ensures clients { clients_in passes.new ≡ clients_in passes.old }
{
    let first = board.begin_caller();
    for _ in rt.forever() {
        if board.is_short() {
            break;
        }
        let seen = board.turned.count();
        match bring_all_on(rt, alloc, shared, board, plan, gate, first, passes) {
            Err(NoMemory) => {
                board.stop();
                break;
            }
            Ok(Round::Ended) => break,
            Ok(Round::GoesOn) => {}
            Ok(Round::Waits) => board.turned.wait_past(rt, seen),
        }
    }
    board.end_caller();
}

// Brings the calls of clients on, lane by lane from the first one on: so workers that begin at different lanes seldom want the same one.
fn bring_all_on<
    X: Wait,
    R: Replica + Drop,
    L: Ledger,
    M: Ledger,
    A: Ledger,
    B: Ledger,
    N: Roster,
    G: Gate + Watch,
>(
    rt: &X,
    alloc: Global,
    shared: &SharedLanes<R, L, M, A, B, N>,
    board: &Board,
    plan: &Plan,
    gate: &G,
    first: u8,
    passes: &mut [Pass<M, B, N>],
) -> Result<Round, NoMemory>
    requires keys { 0 < plan.now.keys }
    requires makes { N.tells → MakesWorkload N.makes plan.now.keys }
    ensures clients { clients_in passes.new ≡ clients_in passes.old }
{
    let mut round = Round::Ended;
    for step in 0..LANES {
        let lane = first.wrapping_add(step) % LANES;
        let came = bring_lane_on(rt, alloc, shared, board, plan, gate, lane, passes)?;
        round = round.and(came);
    }
    Ok(round)
}

// Brings the calls on that are of a lane, under its lock if one of them can be looked at.
fn bring_lane_on<
    X: Wait,
    R: Replica + Drop,
    L: Ledger,
    M: Ledger,
    A: Ledger,
    B: Ledger,
    N: Roster,
    G: Gate + Watch,
>(
    rt: &X,
    alloc: Global,
    shared: &SharedLanes<R, L, M, A, B, N>,
    board: &Board,
    plan: &Plan,
    gate: &G,
    lane: u8,
    passes: &mut [Pass<M, B, N>],
) -> Result<Round, NoMemory>
    requires keys { 0 < plan.now.keys }
    requires makes { N.tells → MakesWorkload N.makes plan.now.keys }
    requires lane { lane < lane_count }
    ensures clients { clients_in passes.new ≡ clients_in passes.old }
{
    let round = ask_all(alloc, board, plan, lane, passes)?;
    if round != Round::GoesOn {
        return Ok(round);
    }
    let mut kept = shared.hold(rt, lane);
    look_all(rt, shared, board, plan, gate, lane, &mut kept, passes)
}

// Each client asks its next call, if it has none outstanding: how far those came whose calls are of a lane.
fn ask_all<M: Ledger, B: Ledger, N: Roster>(
    alloc: Global,
    board: &Board,
    plan: &Plan,
    lane: u8,
    passes: &mut [Pass<M, B, N>],
) -> Result<Round, NoMemory>
    requires keys { 0 < plan.now.keys }
    requires makes { N.tells → MakesWorkload N.makes plan.now.keys }
    ensures clients { clients_in passes.new ≡ clients_in passes.old }
{
    let mut round = Round::Ended;
    for index in 0..passes.len() {
        let came = ask(alloc, board, plan, lane, &mut passes[index])?;
        round = round.and(came);
    }
    Ok(round)
}

// A client asks its next call, if it has none outstanding: how far it came, if its call is of a lane.
fn ask<M: Ledger, B: Ledger, N: Roster>(
    alloc: Global,
    board: &Board,
    plan: &Plan,
    lane: u8,
    pass: &mut Pass<M, B, N>,
) -> Result<Round, NoMemory>
    requires keys { 0 < plan.now.keys }
    requires makes { N.tells → MakesWorkload N.makes plan.now.keys }
    ensures client { pass.new.session.client ≡ pass.old.session.client }
{
    ask_next(alloc, plan, pass)?;
    Ok(standing(board, pass.session(), lane))
}

// How far a client came, if its call is of a lane.
fn standing(board: &Board, session: &Session, lane: u8) -> Round {
    match session.outstanding() {
        Some(call) if lane_of(hash(call.key.bytes())) == lane => {
            if board.waits_for_turn(session.client(), lane) {
                return Round::Waits;
            }
            Round::GoesOn
        }
        _ => Round::Ended,
    }
}

// Each client whose call is of a lane looks there, one after the other.
fn look_all<
    X: Wait,
    R: Replica + Drop,
    L: Ledger,
    M: Ledger,
    A: Ledger,
    B: Ledger,
    N: Roster,
    G: Gate + Watch,
>(
    rt: &X,
    shared: &SharedLanes<R, L, M, A, B, N>,
    board: &Board,
    plan: &Plan,
    gate: &G,
    lane: u8,
    kept: &mut KeptLane<R, L, A, N>,
    passes: &mut [Pass<M, B, N>],
) -> Result<Round, NoMemory>
    ensures clients { clients_in passes.new ≡ clients_in passes.old }
{
    let mut round = Round::Ended;
    for index in 0..passes.len() {
        let came = look(
            rt,
            shared,
            board,
            plan,
            gate,
            lane,
            kept,
            &mut passes[index],
        )?;
        round = round.and(came);
    }
    Ok(round)
}

// A client looks for the answer of its call, if that is of a lane and does not wait for a turn.
fn look<
    X: Wait,
    R: Replica + Drop,
    L: Ledger,
    M: Ledger,
    A: Ledger,
    B: Ledger,
    N: Roster,
    G: Gate + Watch,
>(
    rt: &X,
    shared: &SharedLanes<R, L, M, A, B, N>,
    board: &Board,
    plan: &Plan,
    gate: &G,
    lane: u8,
    kept: &mut KeptLane<R, L, A, N>,
    pass: &mut Pass<M, B, N>,
) -> Result<Round, NoMemory>
    ensures client { pass.new.session.client ≡ pass.old.session.client }
{
    let round = standing(board, pass.session(), lane);
    if round != Round::GoesOn {
        return Ok(round);
    }
    let client = pass.session().client();
    let turns = board.turns_of(lane);
    if !matches!(
        attempt(rt, shared, board, gate, lane, kept, pass)?,
        Attempt::Answered
    ) {
        board.wait_for_turn(client, lane, turns);
        return Ok(Round::Waits);
    }
    board.answer(client);
    gate.answered(board.answered(), plan.all_calls());
    Ok(Round::GoesOn)
}

// The client asks its next call, if it has none outstanding and has not made all.
fn ask_next<M: Ledger, B: Ledger, N: Roster>(
    alloc: Global,
    plan: &Plan,
    pass: &mut Pass<M, B, N>,
) -> Result<(), NoMemory>
    requires keys { 0 < plan.now.keys }
    requires makes { N.tells → MakesWorkload N.makes plan.now.keys }
    ensures client { pass.new.session.client ≡ pass.old.session.client }
{
    let session = pass.session();
    if session.outstanding().is_some() {
        return Ok(());
    }
    let made = session.receipts().len();
    if made >= plan.calls as usize {
        return Ok(());
    }
    let mut next = call(alloc, plan.keys, session.client(), made as u32 + 1)?;
    // A short key is copied in place.
    let key = next.key.duplicate()?;
    let op = mem::replace(&mut next.op, Op::Get);
    // Bytes that are lent are within their limits.
    let _ = key.bytes();
    show_limits(&op);
    match pass.ask(TABLE, key, op) {
        Ok(_) => Ok(()),
        // No call is outstanding.
        Err(_) => Err(NoMemory),
    }
}

// The number and the value of an operation, if it has them, are within their limits.
fn show_limits(op: &Op)
    ensures { IsLawfulOp op.now }
{
    match op {
        Op::Put(value) => {
            let _ = value.bytes();
        }
        Op::CondPut(version, value) => {
            let _version = *version;
            let _ = value.bytes();
        }
        Op::Get | Op::Delete => {}
    }
}

// A client's attempt in the lane of its call. If the call is not answered at the client's first look, the lane takes a turn, and the client
// tries once more, all under one lock: so most calls need no other worker, and find their lane in the cache.
fn attempt<
    X: Wait,
    R: Replica + Drop,
    L: Ledger,
    M: Ledger,
    A: Ledger,
    B: Ledger,
    N: Roster,
    G: Gate + Watch,
>(
    rt: &X,
    shared: &SharedLanes<R, L, M, A, B, N>,
    board: &Board,
    gate: &G,
    lane: u8,
    kept: &mut KeptLane<R, L, A, N>,
    pass: &mut Pass<M, B, N>,
) -> Result<Attempt, NoMemory>
    ensures client { pass.new.session.client ≡ pass.old.session.client }
{
    let client = pass.session().client();
    let came = heard(shared.attempt(rt, kept, pass, gate))?;
    if matches!(came, Attempt::Answered) || !board.waits_for_nothing(client) {
        return Ok(came);
    }
    let Some(turned) = take_turn(shared, kept, gate)? else {
        return Ok(came);
    };
    if turned.is_left() {
        board.leave_work(lane);
    }
    heard(shared.attempt(rt, kept, pass, gate))
}

// What came of an attempt. A lane that is worn changed nothing: the client waits.
fn heard(came: Result<Attempt, Short>) -> Result<Attempt, NoMemory> {
    match came {
        Ok(attempt) => Ok(attempt),
        Err(Short::NoMemory) => Err(NoMemory),
        Err(Short::Worn(_)) => Ok(Attempt::Waiting),
    }
}

/// Whether a session made all calls of a plan, and all are answered.
pub(crate) fn has_ended(plan: &Plan, session: &Session) -> bool
    ensures { result ≡ true → HasAnswers plan.now.calls session.now }
{
    session.outstanding().is_none() && session.receipts().len() == plan.calls as usize
}
