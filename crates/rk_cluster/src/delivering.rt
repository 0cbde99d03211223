// How the messages of a lane's wire reach their receivers.
ghost use Rattle.std.specs.Prelude.{◌≡◌, ◌<◌, ◌&&◌, [], false, true, length, Some, None, IfErr, IfOk, OnErr};
ghost use Rattle.std.specs.Option.{option_to_list};
ghost use Rattle.rk_cluster.specs.Delivering.{Delivers, DeliversShort, IsDelivery, is_backup};
ghost use Rattle.rk_cluster.specs.Faults.{BySomeFate, LanesGoOn, SomeLaneFailed};
ghost use Rattle.rk_cluster.specs.Masters.{backup_counts};
ghost use Rattle.rk_cluster.specs.Steps.{AreLanes, MayAllAct, WhereWorn, state_of};

use crate::error::ClusterError;
use crate::sessions::has_session;
use crate::steps::deliver_told;
use crate::visits::accept_in;
use rk_lane::{Arrival, Lane};
use rk_outside::Replica;
use rk_session::Session;
use rk_types::{NoMemory, Node, Said};
use std::alloc::Global;
use std::collections::BTreeMap;

/// What came of the delivery of a message.
#[derive(Drop)]
pub struct Delivered {
    /// What a client that took it said of its call.
    pub said: Option<Said>,
    /// Whether it was lost at a backup, since the backup's replica failed.
    pub failed: bool,
}

/// The message of a number is delivered, if it is on a lane's wire: a client that has a session takes it itself, and reports
/// what it says of its call; a client without one takes nothing, and each other node takes it by an event of the lane. It is
/// looked up once, to see whom it is for, and goes by value to who takes it.
pub(crate) fn deliver_in<R: Replica + Drop>(
    lanes: &mut Vec<Lane<R>>,
    sessions: &mut BTreeMap<u32, Session>,
    masters: u8,
    lane: u8,
    number: u64,
) -> Result<Delivered, ClusterError>
    requires there { lane < length lanes.old.items }
    requires lanes { AreLanes masters 0 lanes.old.items }
    requires acts { MayAllAct masters sessions.old.entries }
    ensures ok { IfOk result (λ delivered. BySomeFate R.faults lanes.old.items lanes.new.items (IsDelivery R.segments (state_of lanes.old.items sessions.old.entries)
        (state_of lanes.new.items sessions.new.entries) lane number delivered)) }
    ensures err { IfErr result (WhereWorn (λ worn. Delivers R.segments R.faults (state_of lanes.old.items sessions.old.entries)
        (state_of lanes.new.items sessions.new.entries) lane number [] (Some worn))) }
    ensures short { OnErr result (DeliversShort R.segments R.faults (state_of lanes.old.items sessions.old.entries)
        (state_of lanes.new.items sessions.new.entries) lane number) }
    ensures lanes { AreLanes masters 0 lanes.new.items }
    ensures count { length lanes.new.items ≡ length lanes.old.items }
    ensures backups { backup_counts lanes.new.items ≡ backup_counts lanes.old.items }
    ensures counts { LanesGoOn R.faults [] lanes.old.items lanes.new.items }
    ensures failed { IfOk result (λ delivered. delivered.failed ≡ true → SomeLaneFailed R.faults lanes.old.items lanes.new.items) }
    ensures acts { MayAllAct masters sessions.new.entries }
{
    let Ok(frame) = lanes[lane as usize].wire().frame(number) else {
        return Ok(quietly());
    };
    let to = frame.to();
    let Node::Client(client) = to else {
        let message = frame.message()?;
        let lost = deliver_told(lanes, lane, Arrival { number, message })?;
        return Ok(Delivered {
            said: None,
            failed: is_lost_at_backup(to, lost),
        });
    };
    if !has_session(sessions, client) {
        return Ok(quietly());
    }
    let message = frame.message()?;
    let arrival = Arrival { number, message };
    let said = accept_in(lanes, sessions, masters, lane, arrival, client)?;
    Ok(Delivered {
        said,
        failed: false,
    })
}

/// What was said, in a list.
pub(crate) fn listed(alloc: Global, said: Option<Said>) -> Result<Vec<Said>, NoMemory>
    ensures { IfOk result (λ list. list.items ≡ option_to_list said) }
{
    let mut list = Vec::new(alloc);
    if let Some(said) = said {
        list.push(said)?;
    }
    Ok(list)
}

// Nobody said anything, and no replica failed.
fn quietly() -> Delivered
    ensures { result ≡ record { said = None; failed = false } }
{
    Delivered {
        said: None,
        failed: false,
    }
}

// Whether a message to this node was lost at a backup; `lost` says whether it was lost at all.
fn is_lost_at_backup(to: Node, lost: bool) -> bool
    ensures { result ≡ (is_backup (Some to) && lost) }
{
    matches!(to, Node::Backup(_)) && lost
}
