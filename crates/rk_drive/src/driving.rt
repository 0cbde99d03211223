// A drive from its beginning to its end.
ghost use Rattle.std.specs.Prelude.{◌≡◌, ◌<◌, ◌*◌, [], All, IfOk, is_some, length, true, vec_len};
ghost use Rattle.std.specs.List.{range_with_len};
ghost use Rattle.rk_types.specs.declared.hashing.TheConstants.{LANES as lane_count};
ghost use Rattle.rk_types.specs.declared.call.Call.{Call};
ghost use Rattle.rk_types.specs.declared.status.Status.TheVariants as statuses;
ghost use Rattle.rk_world.specs.Premises.{MayAct};
ghost use Rattle.rk_cluster.specs.Faults.{GoOn, counts_in};
ghost use Rattle.rk_cluster.specs.Fresh.{AreEmpty};
ghost use Rattle.rk_lending.specs.declared.lending.TheConstants.{REPLICAS};
ghost use Rattle.rk_settle.specs.Faults.{RoseInRounds};
ghost use Rattle.rk_play.specs.Runs.{NoneFell, replica_counts};
ghost use Rattle.rk_shared_lanes.specs.Together.{AllSoundOrSpent, IsIdle, IsOfRoster, IsUnasked, clients_of, numbers_of, sessions_of};
ghost use Rattle.rk_conclude.specs.Concluded.{HasSinkCause, MayEnd};
ghost use Rattle.rk_drive.specs.Beginning.{NoneFellSince};
ghost use Rattle.rk_drive.specs.Driven.{AreDriven, HasAnswers, IsOfWorkload};
ghost use Rattle.rk_drive.specs.Outcomes.{Drives, EndsDone};
ghost use Rattle.rk_drive.specs.Workers.{MakesWorkload};
ghost use Rattle.rk_drive.specs.declared.start.TheConstants.{BACKUPS as backup_count, MASTERS as master_count};

use crate::calling::has_ended;
use crate::plan::Plan;
use crate::start::{BACKUPS, MASTERS, new_lanes, new_sessions};
use crate::watch::Watch;
use crate::workers::{Duty, run_all};
use rk_conclude::conclude;
use rk_dispatch::Parcels;
use rk_lane::Lane;
use rk_lending::lend;
use rk_outside::{Gate, Replica, Sink};
use rk_session::Session;
use rk_shared::Roster;
use rk_shared_lanes::{Blanks, Gathered, Pass, share};
use rk_types::{LANES, NoMemory, Status};
use std::alloc::Global;
use std::marker::Brand;
use std::sync::Wait;
use std::sync::ledger::{Blank, Ledger};
use std::thread::Threads;

/// How many parcels the queue takes.
const QUEUE: usize = 64;

/// Runs the clients of a plan on threads, while the table moves from master 1 to master 2, and writes the history, if the plan asks for
/// it, and the summary. What holds if replicas report that nothing was written before:
///
/// Once all clients have ended, their lanes and sessions come to rest, and the outcome is written and answered as `conclude` says; the
/// replicas come back. On `Done` the receipts are those of the workload, and the lanes have one history with them, which has the answer of
/// each call of the workload once, and nothing else. `NoMemory` also comes if memory was wanting before: then nothing was written.
pub fn drive<X: Threads + Wait + Sync, K: Sink, R: Replica + Send + Drop, G: Gate + Watch + Sync>(
    rt: &X,
    alloc: Global,
    plan: &Plan,
    sink: &mut K,
    replicas: &mut Vec<R>,
    gate: &G,
) -> Status
    requires keys { 0 < plan.now.keys }
    requires count { length replicas.old.items ≡ REPLICAS }
    ensures drives { Drives R.segments plan.now (K.written sink.old) (K.written sink.new) replicas.old.items replicas.new.items result }
    ensures done { AreEmpty R.segments replicas.old.items → result ≡ statuses.Done
        → EndsDone R.segments plan.now (K.written sink.old) (K.written sink.new) replicas.old.items replicas.new.items }
    ensures may { MayEnd result }
    ensures cause { HasSinkCause result (K.faults sink.old) (K.faults sink.new) }
    ensures count { (result ≡ statuses.NoMemory → ⊥) → length replicas.new.items ≡ REPLICAS }
    ensures counts { NoneFell R.faults replicas.old.items replicas.new.items }
    ensures replica_cause { result ≡ statuses.ReplicaFault
        → RoseInRounds 100 (replica_counts R.faults replicas.old.items) (replica_counts R.faults replicas.new.items) }
{
    let Ok((its, kept)) = lend(alloc, BACKUPS, replicas) else {
        return Status::NoMemory;
    };
    match run(rt, alloc, plan, its, gate) {
        Ok(Gathered { lanes, sessions }) => conclude(
            alloc,
            MASTERS,
            lanes,
            sessions,
            plan.history,
            sink,
            kept,
            replicas,
        ),
        Err(NoMemory) => Status::NoMemory,
    }
}

// Runs the workers over new lanes and sessions, and gathers these again.
fn run<X: Threads + Wait + Sync, R: Replica + Send + Drop, G: Gate + Watch + Sync>(
    rt: &X,
    alloc: Global,
    plan: &Plan,
    replicas: Vec<R>,
    gate: &G,
) -> Result<Gathered<R>, NoMemory>
    requires keys { 0 < plan.now.keys }
    requires count { length replicas.items ≡ lane_count * backup_count }
    ensures driven { IfOk result (λ gathered. AreDriven R.segments (AreEmpty R.segments replicas.items) plan.now gathered.lanes.items gathered.sessions.items) }
    ensures counts { IfOk result (λ gathered. NoneFellSince R.faults replicas.items gathered.lanes.items) }
{
    let lanes = new_lanes(alloc, plan.clients, replicas)?;
    let sessions = new_sessions(alloc, plan.clients)?;
    let clients = sessions.len() as u64;
    let blanks = Blanks {
        accepted: Blank::new(u64::from(LANES)),
        got: Blank::new(clients),
        asked: Blank::new(u64::from(LANES)),
        made: Blank::new(clients),
        numbers: Blank::new(u64::from(LANES)),
    };
    run_with::<X, R, Brand, Brand, Brand, Brand, Brand, G>(
        rt, alloc, plan, lanes, sessions, blanks, gate,
    )
}

// The same, with the ledgers by which lanes and clients are counted.
fn run_with<
    X: Threads + Wait + Sync,
    R: Replica + Send + Drop,
    L: Ledger + Send + Sync,
    M: Ledger + Send + Sync,
    A: Ledger + Send + Sync,
    B: Ledger + Send + Sync,
    N: Roster + Send + Sync,
    G: Gate + Watch + Sync,
>(
    rt: &X,
    alloc: Global,
    plan: &Plan,
    lanes: Vec<Lane<R>>,
    sessions: Vec<Session>,
    blanks: Blanks,
    gate: &G,
) -> Result<Gathered<R>, NoMemory>
    requires lane_names { (blanks.accepted.name ≡ L.name) × (blanks.asked.name ≡ A.name) × (blanks.numbers.name ≡ N.name) }
    requires session_names { (blanks.got.name ≡ M.name) × (blanks.made.name ≡ B.name) }
    requires lane_parts { (blanks.accepted.parts ≡ L.parts) × (blanks.asked.parts ≡ A.parts) × (blanks.numbers.parts ≡ N.parts) }
    requires session_parts { (blanks.got.parts ≡ M.parts) × (blanks.made.parts ≡ B.parts) }
    requires eight { (L.parts ≡ lane_count) × (A.parts ≡ lane_count) × (N.parts ≡ lane_count) }
    requires each { (M.parts ≡ vec_len sessions) × (B.parts ≡ vec_len sessions) }
    requires lanes { numbers_of lanes.items ≡ range_with_len 0 lane_count }
    requires unasked { All IsUnasked lanes.items }
    requires idle { All IsIdle sessions.items }
    requires masters { N.masters ≡ master_count }
    requires backups { N.backups ≡ backup_count }
    requires clients { clients_of sessions.items ≡ N.clients }
    requires numbered { N.clients ≡ range_with_len 1 plan.now.clients }
    requires roster { All (IsOfRoster N.masters N.backups N.clients) lanes.items }
    requires acts { All (MayAct N.masters) sessions.items }
    requires counts { GoOn [] N.counts (counts_in R.faults lanes.items) }
    requires sound { N.tells → AllSoundOrSpent R.segments lanes.items }
    requires keys { 0 < plan.now.keys }
    requires makes { MakesWorkload N.makes plan.now.keys }
    requires only { (call : Call) → N.makes call → IsOfWorkload plan.now.keys call }
    ensures driven { IfOk result (λ gathered. AreDriven R.segments N.tells plan.now gathered.lanes.items gathered.sessions.items) }
    ensures counts { IfOk result (λ gathered. GoOn [] N.counts (counts_in R.faults gathered.lanes.items)) }
{
    let (shared, passes) = share::<R, L, M, A, B, N>(alloc, MASTERS, lanes, sessions, blanks)?;
    let (parcels, mut first_turn) = Parcels::new(alloc, QUEUE)?;
    let second_turn = parcels.another(&mut first_turn);
    let first_replay = parcels.another(&mut first_turn);
    let second_replay = parcels.another(&mut first_turn);
    let mut duties = [
        Duty::Turns(first_turn, 0),
        Duty::Turns(second_turn, 1),
        Duty::Replays(first_replay),
        Duty::Replays(second_replay),
        Duty::Conduct,
    ];
    let passes = run_all(
        rt,
        alloc,
        &shared,
        &parcels,
        &mut duties,
        plan,
        gate,
        passes,
    );
    let gathered = shared.gather(passes);
    if has_come_through(plan, &gathered) {
        Ok(gathered)
    } else {
        Err(NoMemory)
    }
}

// Whether no lane was spent, and all calls of all clients are answered.
fn has_come_through<R: Replica + Drop>(plan: &Plan, gathered: &Gathered<R>) -> bool
    ensures runs { result ≡ true → All (λ lane. is_some lane.running ≡ true) gathered.now.lanes.items }
    ensures answered { result ≡ true → All (HasAnswers plan.now.calls) gathered.now.sessions.items }
{
    all_run(gathered.lanes.as_slice()) && have_ended(plan, gathered.sessions.as_slice())
}

// Whether none of these lanes is spent.
fn all_run<R: Replica + Drop>(lanes: &[Lane<R>]) -> bool
    ensures { result ≡ true → All (λ lane. is_some lane.running ≡ true) lanes.now }
{
    for lane in lanes {
        if lane.spent() {
            return false;
        }
    }
    true
}

// Whether all calls of these sessions are answered.
fn have_ended(plan: &Plan, sessions: &[Session]) -> bool
    ensures { result ≡ true → All (HasAnswers plan.now.calls) sessions.now }
{
    for session in sessions {
        if !has_ended(plan, session) {
            return false;
        }
    }
    true
}
