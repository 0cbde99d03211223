// Which nodes of a lane take their turns, and the turns of clients.
ghost use Rattle.std.specs.Prelude.{◌≡◌, ◌<◌, ◌++◌, ◌∷◌, [], All, if◌then◌else◌, length, not, IfErr, IfOk, IfSome, OnErr, OnOk};
ghost use Rattle.std.specs.List.{list_all};
ghost use Rattle.rk_world.specs.Premises.{IsMaster};
ghost use Rattle.rk_cluster.specs.Effects.{AreCutShort, Carries};
ghost use Rattle.rk_cluster.specs.Faults.{LanesGoOn};
ghost use Rattle.rk_cluster.specs.Masters.{backup_counts};
ghost use Rattle.rk_cluster.specs.Steps.{AreLanes, EndsWorn, MayAllAct, WhereWorn, state_of};
ghost use Rattle.rk_cluster.specs.Turns.{clients_in as clients_in_lem, is_call_in, live_in as live_in_lem, turn_of as turn_of_lem, turns_of as turns_of_lem};
ghost use Rattle.rk_cluster.specs.Visits.{HasSession, all_ask};

use crate::error::ClusterError;
use crate::steps::Deed;
use crate::visits::ask_in;
use rk_lane::Lane;
use rk_outside::Replica;
use rk_session::Session;
use rk_types::{NoMemory, Node, hash, lane_of};
use rk_world::Event;
use std::alloc::Global;
use std::collections::BTreeMap;

/// The clients with an outstanding call in a lane, by rising number. The time to hash the key of each outstanding call.
pub(crate) fn clients_in(
    alloc: Global,
    sessions: &BTreeMap<u32, Session>,
    lane: u8,
) -> Result<Vec<u32>, NoMemory>
    ensures { IfOk result (λ clients. clients.items ≡ clients_in_lem lane sessions.now.entries) }
{
    let mut clients = Vec::new(alloc);
    for (client, session) in sessions {
        push_where(&mut clients, *client, is_asking_in(session, lane))?;
    }
    Ok(clients)
}

/// Whether no call is outstanding in a lane. The time to hash the key of each outstanding call.
pub(crate) fn are_elsewhere(sessions: &BTreeMap<u32, Session>, lane: u8) -> bool
    ensures { result ≡ list_all (λ entry. not (is_call_in lane entry.1.outstanding)) sessions.now.entries }
{
    sessions
        .values()
        .all(|session| !is_asking_in(session, lane))
}

// Whether a client has an outstanding call in a lane.
fn is_asking_in(session: &Session, lane: u8) -> bool
    ensures { result ≡ is_call_in lane session.now.outstanding }
{
    match session.outstanding() {
        None => false,
        Some(call) => lane_of(hash(call.key.bytes())) == lane,
    }
}

// Puts something at the end of a list, if it is wanted there.
fn push_where<T: Copy>(items: &mut Vec<T>, item: T, wanted: bool) -> Result<(), NoMemory>
    ensures { OnOk result (items.new.items ≡ items.old.items ++ (if wanted then item ∷ [] else [])) }
{
    if wanted {
        items.push(item)?;
    }
    Ok(())
}

/// Clients that have sessions take their turns in a lane, one after the other, up to a client that finds the lane worn, or for which
/// memory is wanting.
pub(crate) fn ask_all<R: Replica + Drop>(
    lanes: &mut Vec<Lane<R>>,
    sessions: &mut BTreeMap<u32, Session>,
    masters: u8,
    lane: u8,
    clients: &[u32],
) -> Result<(), ClusterError>
    requires there { lane < length lanes.old.items }
    requires clients { All (HasSession sessions.old.entries) clients.now }
    requires lanes { AreLanes masters 0 lanes.old.items }
    requires acts { MayAllAct masters sessions.old.entries }
    ensures ok { OnOk result (Carries R.segments (state_of lanes.old.items sessions.old.entries)
        (state_of lanes.new.items sessions.new.entries) (all_ask lane clients.now) []) }
    ensures err { IfErr result (WhereWorn (EndsWorn R.segments (state_of lanes.old.items sessions.old.entries)
        (state_of lanes.new.items sessions.new.entries) (all_ask lane clients.now))) }
    ensures short { OnErr result (AreCutShort R.segments (state_of lanes.old.items sessions.old.entries)
        (state_of lanes.new.items sessions.new.entries) (all_ask lane clients.now)) }
    ensures lanes { AreLanes masters 0 lanes.new.items }
    ensures count { length lanes.new.items ≡ length lanes.old.items }
    ensures backups { backup_counts lanes.new.items ≡ backup_counts lanes.old.items }
    ensures counts { LanesGoOn R.faults [] lanes.old.items lanes.new.items }
    ensures acts { MayAllAct masters sessions.new.entries }
{
    for client in clients {
        ask_in(lanes, sessions, masters, lane, *client)?;
    }
    Ok(())
}

/// The masters that live in a lane of so many, by rising number; none if the lane is spent. A step for each master, and for
/// each that has crashed.
pub(crate) fn live_in<R: Replica + Drop>(
    alloc: Global,
    at: &Lane<R>,
    masters: u8,
) -> Result<Vec<u8>, NoMemory>
    requires { at.now.masters ≡ masters }
    ensures there { IfOk result (λ live. All (IsMaster masters) live.items) }
    ensures live { IfOk result (λ live. IfSome at.now.running (λ running. live.items ≡ live_in_lem at.now running)) }
{
    let mut live = Vec::new(alloc);
    if at.spent() {
        return Ok(live);
    }
    for index in 0..masters {
        let master = index + 1;
        push_where(&mut live, master, !at.crashed(master))?;
    }
    Ok(live)
}

/// The turns of the coordinator and of some masters in a lane. A step for each.
pub(crate) fn turns_of(alloc: Global, lane: u8, masters: &[u8]) -> Result<Vec<Deed>, NoMemory>
    ensures { IfOk result (λ deeds. deeds.items ≡ turns_of_lem lane masters.now) }
{
    let mut deeds = Vec::new(alloc);
    deeds.push(turn_of(lane, Node::Coordinator))?;
    for master in masters {
        deeds.push(turn_of(lane, Node::Master(*master)))?;
    }
    Ok(deeds)
}

// The turn of a node in a lane.
fn turn_of(lane: u8, node: Node) -> Deed
    ensures { result ≡ turn_of_lem lane node }
{
    Deed {
        lane,
        event: Event::Turn(node),
    }
}
