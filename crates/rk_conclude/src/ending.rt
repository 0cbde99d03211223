// The end of a drive: the lanes come to rest, the receipts are held against the journals, and the outcome is written.
ghost use Rattle.std.specs.Prelude.{◌≡◌, [], ℕ, All, IfOk, OnOk, length};
ghost use Rattle.rk_types.specs.declared.hashing.TheConstants.{LANES};
ghost use Rattle.rk_world.specs.Cluster.{Cluster as Whole};
ghost use Rattle.rk_world.specs.Premises.{IsMaster, MOST_MASTERS, MayAct};
ghost use Rattle.rk_cluster.specs.Faults.{CountsGoOn, GoOn};
ghost use Rattle.rk_cluster.specs.Masters.{HasBackups, backups_of};
ghost use Rattle.rk_cluster.specs.State.{IsOf};
ghost use Rattle.rk_cluster.specs.Steps.{AreLanes, MayAllAct, state_of};
ghost use Rattle.rk_lending.specs.Lent.{IsRoom};
ghost use Rattle.rk_lending.specs.declared.lending.TheConstants.{REPLICAS};
ghost use Rattle.rk_settle.specs.Course.{MOST_FAULTS};
ghost use Rattle.rk_settle.specs.Faults.{FailsInRounds, IsOfReplicas, RoseInRounds};
ghost use Rattle.rk_conclude.specs.Concluded.{ComeBack, Concludes, EndsSo, HasSinkCause, MayEnd, WritesReport, stop_status as stop_status_lem};
ghost use Rattle.rk_conclude.specs.Results.{by_client as by_client_lem, with_session};

use crate::reporting::make_report;
use rk_cluster::Cluster;
use rk_lane::Lane;
use rk_lending::{Kept, give_back};
use rk_outside::{Replica, Sink, put_all};
use rk_session::Session;
use rk_settle::{SettleError, settle};
use rk_types::{NoMemory, Status};
use std::alloc::Global;
use std::collections::BTreeMap;

// A cluster that was settled, and the status of its drive.
#[derive(Drop)]
struct Ended<R> {
    cluster: Cluster<R>,
    status: Status,
}

/// Settles lanes and sessions that were gathered, holds the receipts against the journals, and writes the history, if that is asked for,
/// the results, and what the audit found. The replicas of the lanes are put back before those that were kept, unless memory was wanting.
///
/// `Done` comes if each receipt is recorded, and `Audit` if one is not; both are written whole. `WriteFault` comes if the sink failed: a
/// prefix of the text was written. `Worn` and `ReplicaFault` come if settling stops so; then, and if memory was wanting, nothing was
/// written. The sink's count of faults rises if the status is `WriteFault`, and else stays. Unless memory was wanting, as many replicas
/// come back as a run has.
///
/// No count of faults of a replica that comes back falls, and `ReplicaFault` comes only after a hundred rounds in each of which one rose.
pub fn conclude<K: Sink, R: Replica + Drop>(
    alloc: Global,
    masters: u8,
    lanes: Vec<Lane<R>>,
    sessions: Vec<Session>,
    history: bool,
    sink: &mut K,
    kept: Kept<R>,
    replicas: &mut Vec<R>,
) -> Status
    requires eight { length lanes.items ≡ LANES }
    requires lanes { AreLanes masters 0 lanes.items }
    requires masters { IsMaster MOST_MASTERS masters }
    requires backups { All (HasBackups kept.backups) lanes.items }
    requires sessions { All (MayAct masters) sessions.items }
    requires room { IsRoom kept replicas.old }
    ensures concludes { (start : Whole) → IsOf R.segments (state_of lanes.items (by_client_lem sessions.items)) start
        → Concludes R.segments start history (K.written sink.old) (K.written sink.new) kept.others.items replicas.new.items result }
    ensures may { MayEnd result }
    ensures cause { HasSinkCause result (K.faults sink.old) (K.faults sink.new) }
    ensures count { (result ≡ Status.NoMemory → ⊥) → length replicas.new.items ≡ REPLICAS }
    ensures counts { (replicas.new.items ≡ [] → ⊥) → ComeBack R.faults (GoOn []) lanes.items kept.others.items replicas.new.items }
    ensures replica_cause { result ≡ Status.ReplicaFault
        → ComeBack R.faults (RoseInRounds MOST_FAULTS) lanes.items kept.others.items replicas.new.items }
{
    let Ok(sessions) = by_client(alloc, sessions) else {
        return Status::NoMemory;
    };
    let cluster = Cluster::from_parts(masters, kept.backups, lanes, sessions);
    let Ended { cluster, status } = end(alloc, cluster, history, sink);
    give_back(cluster, kept, replicas);
    status
}

// The sessions, each under its client.
fn by_client(alloc: Global, sessions: Vec<Session>) -> Result<BTreeMap<u32, Session>, NoMemory>
    ensures sessions { IfOk result (λ map. map.entries ≡ by_client_lem sessions.items) }
    ensures acts { IfOk result (λ map. (masters : ℕ) → All (MayAct masters) sessions.items → MayAllAct masters map.entries) }
{
    let mut map = BTreeMap::new(alloc);
    for session in sessions {
        put_session(&mut map, session)?;
    }
    Ok(map)
}

// Puts a session under its client.
fn put_session(map: &mut BTreeMap<u32, Session>, session: Session) -> Result<(), NoMemory>
    ensures { OnOk result (map.new.entries ≡ with_session map.old.entries session) }
{
    map.insert(session.client(), session)?;
    Ok(())
}

// Settles a cluster, and writes its report.
fn end<K: Sink, R: Replica + Drop>(
    alloc: Global,
    cluster: Cluster<R>,
    history: bool,
    sink: &mut K,
) -> Ended<R>
    ensures ends { (start : Whole) → IsOf R.segments cluster start
        → EndsSo R.segments start history (K.written sink.old) (K.written sink.new) result.cluster result.status }
    ensures backups { backups_of result.cluster ≡ backups_of cluster }
    ensures may { MayEnd result.status }
    ensures cause { HasSinkCause result.status (K.faults sink.old) (K.faults sink.new) }
    ensures counts { CountsGoOn R.faults [] cluster result.cluster }
    ensures replica_cause { result.status ≡ Status.ReplicaFault → FailsInRounds R.faults MOST_FAULTS cluster result.cluster }
{
    let mut cluster = cluster;
    let mut said = Vec::new(alloc);
    match settle(alloc, &mut cluster, &mut said) {
        Ok(()) => close(alloc, cluster, history, sink),
        Err(error) => Ended {
            cluster,
            status: stop_status(error),
        },
    }
}

// The status of a drive whose settling stops for this reason.
fn stop_status(error: SettleError) -> Status
    ensures status { result ≡ stop_status_lem error }
    ensures may { MayEnd result }
    ensures other { result ≡ Status.WriteFault → ⊥ }
    ensures replicas { result ≡ Status.ReplicaFault → IsOfReplicas error }
{
    match error {
        SettleError::Worn(_) => Status::Worn,
        SettleError::Replica(_) => Status::ReplicaFault,
        SettleError::NoMemory | SettleError::TooLong => Status::NoMemory,
    }
}

// Writes the report of a cluster that has come to rest.
fn close<K: Sink, R: Replica + Drop>(
    alloc: Global,
    cluster: Cluster<R>,
    history: bool,
    sink: &mut K,
) -> Ended<R>
    ensures same { result.cluster ≡ cluster }
    ensures writes { (whole : Whole) → IsOf R.segments cluster whole
        → WritesReport history (K.written sink.old) (K.written sink.new) result.status whole }
    ensures may { MayEnd result.status }
    ensures cause { HasSinkCause result.status (K.faults sink.old) (K.faults sink.new) }
    ensures other { result.status ≡ Status.ReplicaFault → ⊥ }
{
    let masters = cluster.masters();
    let backups = cluster.backups();
    let (lanes, sessions) = cluster.into_parts();
    let status = write(alloc, lanes.as_slice(), &sessions, history, sink);
    Ended {
        cluster: Cluster::from_parts(masters, backups, lanes, sessions),
        status,
    }
}

// Writes the report of lanes and sessions that have come to rest.
fn write<K: Sink, R: Replica + Drop>(
    alloc: Global,
    lanes: &[Lane<R>],
    sessions: &BTreeMap<u32, Session>,
    history: bool,
    sink: &mut K,
) -> Status
    requires { length lanes.now ≡ LANES }
    ensures writes { (whole : Whole) → IsOf R.segments (state_of lanes.now sessions.now.entries) whole
        → WritesReport history (K.written sink.old) (K.written sink.new) result whole }
    ensures may { MayEnd result }
    ensures cause { HasSinkCause result (K.faults sink.old) (K.faults sink.new) }
    ensures other { result ≡ Status.ReplicaFault → ⊥ }
{
    let Ok(report) = make_report(alloc, lanes, sessions, history) else {
        return Status::NoMemory;
    };
    match put_all(sink, report.text.as_slice()) {
        Ok(()) => report.status,
        Err(_) => Status::WriteFault,
    }
}
