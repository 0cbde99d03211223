// How clients take their turns and their answers in the lanes of a cluster.
ghost use Rattle.std.specs.Prelude.{◌≡◌, ◌<◌, [], ℕ, length, Some, None, IfErr, IfOk, OnErr, OnOk};
ghost use Rattle.std.specs.Option.{option_to_list};
ghost use Rattle.rk_world.specs.Cluster.{Accepts, Asks};
ghost use Rattle.rk_cluster.specs.Delivering.{IsArrivalAt};
ghost use Rattle.rk_cluster.specs.Effects.{ActsOne};
ghost use Rattle.rk_cluster.specs.Faults.{LanesGoOn};
ghost use Rattle.rk_cluster.specs.Masters.{backup_counts};
ghost use Rattle.rk_cluster.specs.Spending.{IsShortOf};
ghost use Rattle.rk_cluster.specs.Steps.{AreLanes, MayAllAct, WhereWorn, state_of};
ghost use Rattle.rk_cluster.specs.Visits.{AcceptsShort, HasSession};

use crate::error::ClusterError;
use crate::saying::{asked_by, tell};
use crate::steps::heard;
use rk_lane::{Arrival, Lane};
use rk_outside::Replica;
use rk_session::Session;
use rk_types::Said;
use std::collections::BTreeMap;

/// A client that has a session takes its turn in a lane. A refusal is passed over, unless the lane is worn or memory is
/// wanting.
pub(crate) fn ask_in<R: Replica + Drop>(
    lanes: &mut Vec<Lane<R>>,
    sessions: &mut BTreeMap<u32, Session>,
    masters: u8,
    lane: u8,
    client: u32,
) -> Result<(), ClusterError>
    requires there { lane < length lanes.old.items }
    requires session { HasSession sessions.old.entries client }
    requires lanes { AreLanes masters 0 lanes.old.items }
    requires acts { MayAllAct masters sessions.old.entries }
    ensures ok { OnOk result (ActsOne R.segments (state_of lanes.old.items sessions.old.entries)
        (state_of lanes.new.items sessions.new.entries) (Asks lane client) [] None) }
    ensures err { IfErr result (WhereWorn (λ number. ActsOne R.segments (state_of lanes.old.items sessions.old.entries)
        (state_of lanes.new.items sessions.new.entries) (Asks lane client) [] (Some number))) }
    ensures short { OnErr result (IsShortOf (state_of lanes.old.items sessions.old.entries) (state_of lanes.new.items sessions.new.entries)) }
    ensures lanes { AreLanes masters 0 lanes.new.items }
    ensures count { length lanes.new.items ≡ length lanes.old.items }
    ensures backups { backup_counts lanes.new.items ≡ backup_counts lanes.old.items }
    ensures counts { LanesGoOn R.faults [] lanes.old.items lanes.new.items }
    ensures acts { MayAllAct masters sessions.new.entries }
    ensures clients { (other : ℕ) → HasSession sessions.old.entries other → HasSession sessions.new.entries other }
{
    let Some(session) = sessions.get_mut(&client) else {
        return Ok(());
    };
    let at = &mut lanes[lane as usize];
    let answer = at.ask(session);
    heard(&answer)
}

/// A client that has a session takes a message that was looked up in a lane, and reports what it says of its call. A refusal is passed
/// over, unless memory is wanting; that may also come once the message is taken. No search for the message.
pub(crate) fn accept_in<R: Replica + Drop>(
    lanes: &mut Vec<Lane<R>>,
    sessions: &mut BTreeMap<u32, Session>,
    masters: u8,
    lane: u8,
    arrival: Arrival,
    client: u32,
) -> Result<Option<Said>, ClusterError>
    requires there { lane < length lanes.old.items }
    requires arrives { IsArrivalAt lanes.old.items lane arrival }
    requires session { HasSession sessions.old.entries client }
    requires lanes { AreLanes masters 0 lanes.old.items }
    requires acts { MayAllAct masters sessions.old.entries }
    ensures ok { IfOk result (λ said. ActsOne R.segments (state_of lanes.old.items sessions.old.entries)
        (state_of lanes.new.items sessions.new.entries) (Accepts lane arrival.number client) (option_to_list said) None) }
    ensures memory { IfErr result (λ e. e ≡ ClusterError.NoMemory) }
    ensures short { OnErr result (AcceptsShort R.segments (state_of lanes.old.items sessions.old.entries)
        (state_of lanes.new.items sessions.new.entries) lane arrival.number client) }
    ensures lanes { AreLanes masters 0 lanes.new.items }
    ensures count { length lanes.new.items ≡ length lanes.old.items }
    ensures backups { backup_counts lanes.new.items ≡ backup_counts lanes.old.items }
    ensures counts { LanesGoOn R.faults [] lanes.old.items lanes.new.items }
    ensures acts { MayAllAct masters sessions.new.entries }
    ensures clients { (other : ℕ) → HasSession sessions.old.entries other → HasSession sessions.new.entries other }
{
    let Some(session) = sessions.get_mut(&client) else {
        return Ok(None);
    };
    let asked = asked_by(session);
    let at = &mut lanes[lane as usize];
    let answer = at.take(arrival, session);
    tell(asked, session, answer)
}
