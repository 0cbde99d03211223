// How a drive begins: lanes with the table, the clients, and a migration under way.
ghost use Rattle.std.specs.Prelude.{◌≡◌, ◌≤◌, ◌*◌, ◌∷◌, [], All, IfOk, OnOk, length, map};
ghost use Rattle.std.specs.List.{range_with_len};
ghost use Rattle.rk_types.specs.declared.hashing.TheConstants.{LANES};
ghost use Rattle.rk_cluster.specs.Faults.{LanesGoOn};
ghost use Rattle.rk_cluster.specs.Fresh.{AreEmpty};
ghost use Rattle.rk_lane.specs.Events.{MayComeTo};
ghost use Rattle.rk_lane.specs.LaneState.{IsSameLane};
ghost use Rattle.rk_shared_lanes.specs.Kept.{HasClients, IsSoundOrSpent};
ghost use Rattle.rk_shared_lanes.specs.Together.{AllSoundOrSpent, IsIdle, IsOfRoster, IsUnasked, clients_of, numbers_of};
ghost use Rattle.rk_world.specs.Client.{new_session};
ghost use Rattle.rk_world.specs.Premises.{MayAct};
ghost use Rattle.rk_drive.specs.Beginning.{AddsClients, IsFresh, KeepsUnasked, NoneFellSince};

use rk_cluster::Cluster;
use rk_lane::Lane;
use rk_outside::Replica;
use rk_session::Session;
use rk_types::{NoMemory, Range};
use rk_workload::{TABLE, TABLET};
use rk_world::Event;
use std::alloc::Global;

/// How many masters and backups each lane has.
pub(crate) const MASTERS: u8 = 2;

pub(crate) const BACKUPS: u8 = 2;

/// The master that has the table at first, and the master that it moves to.
const FIRST_OWNER: u8 = 1;

const SECOND_OWNER: u8 = 2;

/// The lanes of a drive over these replicas, lane 0 first: each has the table, so many clients, and a migration that begins.
pub(crate) fn new_lanes<R: Replica + Drop>(
    alloc: Global,
    clients: u32,
    replicas: Vec<R>,
) -> Result<Vec<Lane<R>>, NoMemory>
    requires { length replicas.items ≡ LANES * BACKUPS }
    ensures numbers { IfOk result (λ lanes. numbers_of lanes.items ≡ range_with_len 0 LANES) }
    ensures roster { IfOk result (λ lanes. All (IsOfRoster MASTERS BACKUPS (range_with_len 1 clients)) lanes.items) }
    ensures unasked { IfOk result (λ lanes. All IsUnasked lanes.items) }
    ensures sound { IfOk result (λ lanes. AreEmpty R.segments replicas.items → AllSoundOrSpent R.segments lanes.items) }
    ensures counts { IfOk result (λ lanes. NoneFellSince R.faults replicas.items lanes.items) }
{
    let fresh = fresh_lanes(alloc, replicas)?;
    let mut lanes = Vec::with_capacity(alloc, fresh.len())?;
    for lane in fresh {
        lanes.push(prepared(lane, clients)?)?;
    }
    Ok(lanes)
}

// Lanes over these replicas in which nothing has happened, lane 0 first.
fn fresh_lanes<R: Replica + Drop>(alloc: Global, replicas: Vec<R>) -> Result<Vec<Lane<R>>, NoMemory>
    requires { length replicas.items ≡ LANES * BACKUPS }
    ensures numbers { IfOk result (λ lanes. numbers_of lanes.items ≡ range_with_len 0 LANES) }
    ensures fresh { IfOk result (λ lanes. All (IsFresh MASTERS BACKUPS) lanes.items) }
    ensures sound { IfOk result (λ lanes. AreEmpty R.segments replicas.items → AllSoundOrSpent R.segments lanes.items) }
    ensures counts { IfOk result (λ lanes. NoneFellSince R.faults replicas.items lanes.items) }
{
    let cluster = Cluster::with_replicas(alloc, MASTERS, BACKUPS, replicas)?;
    Ok(cluster.into_lanes())
}

/// New sessions of so many clients, numbered from 1: they asked nothing, and may act in the lanes of a drive.
pub(crate) fn new_sessions(alloc: Global, clients: u32) -> Result<Vec<Session>, NoMemory>
    ensures clients { IfOk result (λ sessions. clients_of sessions.items ≡ range_with_len 1 clients) }
    ensures idle { IfOk result (λ sessions. All IsIdle sessions.items) }
    ensures acts { IfOk result (λ sessions. All (MayAct MASTERS) sessions.items) }
{
    let sessions = numbered_sessions(alloc, clients)?;
    Ok(sessions)
}

// The new sessions of clients 1 to so many.
fn numbered_sessions(alloc: Global, clients: u32) -> Result<Vec<Session>, NoMemory>
    ensures { IfOk result (λ sessions. sessions.items ≡ map new_session (range_with_len 1 clients)) }
{
    let mut sessions = Vec::new(alloc);
    for index in 0..clients {
        sessions.push(Session::new(alloc, index + 1))?;
    }
    Ok(sessions)
}

// A lane in which nothing has happened gets the table, so many clients, and a migration that begins.
fn prepared<R: Replica + Drop>(lane: Lane<R>, clients: u32) -> Result<Lane<R>, NoMemory>
    requires { IsFresh MASTERS BACKUPS lane }
    ensures number { IfOk result (λ prepared. prepared.number ≡ lane.number) }
    ensures roster { IfOk result (IsOfRoster MASTERS BACKUPS (range_with_len 1 clients)) }
    ensures unasked { IfOk result IsUnasked }
    ensures sound { IfOk result (λ prepared. IsSoundOrSpent R.segments lane → IsSoundOrSpent R.segments prepared) }
    ensures counts { IfOk result (λ prepared. LanesGoOn R.faults [] (lane ∷ []) (prepared ∷ [])) }
{
    let mut lane = lane;
    let table = Range {
        table: TABLE,
        first: 0,
        last: u64::MAX,
    };
    take(
        &mut lane,
        Event::AddTablet {
            tablet: TABLET,
            range: table,
            master: FIRST_OWNER,
        },
    )?;
    add_clients(&mut lane, clients)?;
    take(
        &mut lane,
        Event::Migrate {
            tablet: TABLET,
            to: SECOND_OWNER,
        },
    )?;
    Ok(lane)
}

// Adds so many clients to a lane that has none.
fn add_clients<R: Replica + Drop>(lane: &mut Lane<R>, clients: u32) -> Result<(), NoMemory>
    requires { IsUnasked lane.old × HasClients [] lane.old.ledger }
    ensures same { IsSameLane lane.old lane.new }
    ensures unasked { OnOk result (IsUnasked lane.new) }
    ensures clients { OnOk result (HasClients (range_with_len 1 clients) lane.new.ledger) }
    ensures sound { IsSoundOrSpent R.segments lane.old → IsSoundOrSpent R.segments lane.new }
    ensures counts { OnOk result (LanesGoOn R.faults [] (lane.old ∷ []) (lane.new ∷ [])) }
{
    for index in 0..clients {
        take(lane, Event::AddClient(index + 1))?;
    }
    Ok(())
}

// A lane takes an event; any refusal ends the drive before its beginning.
fn take<R: Replica + Drop>(lane: &mut Lane<R>, event: Event) -> Result<(), NoMemory>
    requires { MayComeTo lane.old event }
    ensures same { IsSameLane lane.old lane.new }
    ensures ledger { OnOk result (KeepsUnasked event lane.old.ledger lane.new.ledger) }
    ensures clients { OnOk result (AddsClients event lane.old.ledger lane.new.ledger) }
    ensures sound { IsSoundOrSpent R.segments lane.old → IsSoundOrSpent R.segments lane.new }
    ensures counts { LanesGoOn R.faults [] (lane.old ∷ []) (lane.new ∷ []) }
{
    let Ok(_) = lane.step(event) else {
        return Err(NoMemory);
    };
    Ok(())
}
