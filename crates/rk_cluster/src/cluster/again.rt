// How a client sends its last request again.
ghost use Rattle.std.specs.Prelude.{◌≡◌, ◌<◌, [], ℕ, length, None, Some, IfErr, IfOk, OnErr, OnOk};
ghost use Rattle.rk_cluster.specs.Again.{IsAgainCutShort, IsNextAt, IsSentAgain};
ghost use Rattle.rk_cluster.specs.Codes.{again_code};
ghost use Rattle.rk_cluster.specs.Effects.{EndsIn, IsCarriedOut};
ghost use Rattle.rk_cluster.specs.Makes.{again_makes};
ghost use Rattle.rk_cluster.specs.Faults.{CountsGoOn, LanesGoOn};
ghost use Rattle.rk_cluster.specs.Masters.{backup_counts, backups_of};
ghost use Rattle.rk_cluster.specs.Steps.{AreLanes, WhereWorn};

use super::{Cluster, nothing_said};
use crate::code::Code;
use crate::error::ClusterError;
use crate::steps::act;
use rk_lane::Lane;
use rk_outside::Replica;
use rk_types::Said;
use rk_world::Event;

impl<R: Replica + Drop> Cluster<R> {
    /// A client sends its last request again, which is delivered at once and taken off the wire. If the lane of the request is
    /// spent, the answer is `NoMemory`. A search for the client, and what the request takes in that lane.
    pub fn again(&mut self, client: u32) -> Result<Vec<Said>, ClusterError>
        ensures ok { IfOk result (λ said. IsCarriedOut R.segments self.old self.new
            (λ cluster. again_code cluster client) (λ cluster. again_makes cluster client) said.items) }
        ensures err { IfErr result (EndsIn R.segments self.old self.new (λ cluster. again_code cluster client)
            (λ cluster. again_makes cluster client)) }
        ensures backups { backups_of self.new ≡ backups_of self.old }
        ensures counts { CountsGoOn R.faults [] self.old self.new }
    {
        let alloc = self.alloc();
        let Some(session) = self.sessions.get(&client) else {
            return Err(ClusterError::Code(Code::Unknown));
        };
        let Some(lane) = session.sent_in() else {
            return Err(ClusterError::Code(Code::NothingSent));
        };
        let its = &self.lanes[lane as usize];
        if its.spent() {
            return Err(ClusterError::NoMemory);
        }
        let next = its.wire().sent() + 1;
        again_in(&mut self.lanes, lane, client, next)?;
        Ok(nothing_said(alloc))
    }
}

// The last request of a client is sent again in a lane, under this number, delivered and forgotten.
fn again_in<R: Replica + Drop>(
    lanes: &mut Vec<Lane<R>>,
    lane: u8,
    client: u32,
    number: u64,
) -> Result<(), ClusterError>
    requires there { lane < length lanes.old.items }
    requires next { IsNextAt lanes.old.items lane number }
    ensures ok { OnOk result (IsSentAgain R.segments lanes.old.items lanes.new.items lane client number None) }
    ensures err { IfErr result (WhereWorn (λ broken. IsSentAgain R.segments lanes.old.items lanes.new.items lane client number (Some broken))) }
    ensures short { OnErr result (IsAgainCutShort R.segments lanes.old.items lanes.new.items lane client number) }
    ensures lanes { (masters : ℕ) → AreLanes masters 0 lanes.old.items → AreLanes masters 0 lanes.new.items }
    ensures count { length lanes.new.items ≡ length lanes.old.items }
    ensures backups { backup_counts lanes.new.items ≡ backup_counts lanes.old.items }
    ensures counts { LanesGoOn R.faults [] lanes.old.items lanes.new.items }
{
    act(lanes, lane, Event::Again(client))?;
    act(lanes, lane, Event::Deliver(number))?;
    act(lanes, lane, Event::Forget(number))
}
