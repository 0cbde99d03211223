// How events come to the lanes of a cluster.
ghost use Rattle.std.specs.Prelude.{◌≡◌, ◌<◌, [], ℕ, true, All, length, map, Some, None, IfErr, IfOk, OnErr, OnOk};
ghost use Rattle.std.specs.List.{range_with_len};
ghost use Rattle.rk_types.specs.declared.hashing.TheConstants.{LANES};
ghost use Rattle.rk_world.specs.Refusals.{comes_anyway};
ghost use Rattle.rk_world.specs.declared.event.Event.TheVariants as events;
ghost use Rattle.rk_cluster.specs.Crashing.{IsSameBeside};
ghost use Rattle.rk_cluster.specs.Delivering.{IsArrivalAt, IsForBackup};
ghost use Rattle.rk_cluster.specs.Faults.{LanesGoOn, SomeLaneFailed};
ghost use Rattle.rk_cluster.specs.Masters.{backup_counts};
ghost use Rattle.rk_cluster.specs.Spending.{AreButOne};
ghost use Rattle.rk_cluster.specs.Steps.{AreLanes, AreStepsCutShort, CarriesSteps, IsDeed, IsHappening, IsLosing, MayComeAt, StepsEndWorn, WhereWorn, failure_of, lost_by};

use crate::error::ClusterError;
use rk_lane::{Arrival, Lane};
use rk_outside::Replica;
use rk_types::NoMemory;
use rk_world::{Event, Seen, StepError};
use std::alloc::Global;

/// An event, and its lane.
#[derive(Clone, Copy)]
pub(crate) struct Deed {
    pub(crate) lane: u8,
    pub(crate) event: Event,
}

/// An event comes to a lane. A refusal of it is passed over, unless the lane is worn or memory is wanting; the lane is spent then.
pub(crate) fn act<R: Replica + Drop>(
    lanes: &mut Vec<Lane<R>>,
    lane: u8,
    event: Event,
) -> Result<(), ClusterError>
    requires there { lane < length lanes.old.items }
    requires may { MayComeAt lanes.old.items lane event }
    ensures ok { OnOk result (IsHappening R.segments R.faults lanes.old.items lanes.new.items lane event None) }
    ensures err { IfErr result (WhereWorn (λ number. IsHappening R.segments R.faults lanes.old.items lanes.new.items lane event (Some number))) }
    ensures short { OnErr result (AreButOne lanes.old.items lanes.new.items) }
    ensures lanes { (masters : ℕ) → AreLanes masters 0 lanes.old.items → AreLanes masters 0 lanes.new.items }
    ensures count { length lanes.new.items ≡ length lanes.old.items }
    ensures backups { backup_counts lanes.new.items ≡ backup_counts lanes.old.items }
    ensures counts { LanesGoOn R.faults [] lanes.old.items lanes.new.items }
{
    let answer = lanes[lane as usize].step(event);
    heard(&answer)
}

/// A message that was looked up in a lane is delivered there, in the same way; answers whether it was lost. No search for it.
pub(crate) fn deliver_told<R: Replica + Drop>(
    lanes: &mut Vec<Lane<R>>,
    lane: u8,
    arrival: Arrival,
) -> Result<bool, ClusterError>
    requires there { lane < length lanes.old.items }
    requires arrives { IsArrivalAt lanes.old.items lane arrival }
    ensures ok { IfOk result (IsLosing R.segments R.faults lanes.old.items lanes.new.items lane (events.Deliver arrival.number) None) }
    ensures err { IfErr result (WhereWorn (λ worn. IsHappening R.segments R.faults lanes.old.items lanes.new.items lane (events.Deliver arrival.number) (Some worn))) }
    ensures short { OnErr result (AreButOne lanes.old.items lanes.new.items) }
    ensures lanes { (masters : ℕ) → AreLanes masters 0 lanes.old.items → AreLanes masters 0 lanes.new.items }
    ensures count { length lanes.new.items ≡ length lanes.old.items }
    ensures backups { backup_counts lanes.new.items ≡ backup_counts lanes.old.items }
    ensures counts { LanesGoOn R.faults [] lanes.old.items lanes.new.items }
    ensures failed { IfOk result (λ lost. IsForBackup lanes.old.items lane (events.Deliver arrival.number) → lost ≡ true
        → SomeLaneFailed R.faults lanes.old.items lanes.new.items) }
{
    let answer = lanes[lane as usize].deliver(arrival);
    heard(&answer)?;
    Ok(has_lost(&answer))
}

/// A crash comes to a lane, even if that is worn; it takes no memory. A refusal of it is passed over.
pub(crate) fn act_anyway<R: Replica + Drop>(lanes: &mut Vec<Lane<R>>, lane: u8, event: Event)
    requires there { lane < length lanes.old.items }
    requires anyway { comes_anyway event ≡ true }
    requires may { MayComeAt lanes.old.items lane event }
    ensures happens { IsHappening R.segments R.faults lanes.old.items lanes.new.items lane event None }
    ensures beside { IsSameBeside lane lanes.old.items lanes.new.items }
    ensures lanes { (masters : ℕ) → AreLanes masters 0 lanes.old.items → AreLanes masters 0 lanes.new.items }
    ensures count { length lanes.new.items ≡ length lanes.old.items }
    ensures backups { backup_counts lanes.new.items ≡ backup_counts lanes.old.items }
    ensures counts { LanesGoOn R.faults [] lanes.old.items lanes.new.items }
{
    let _ = lanes[lane as usize].step(event);
}

/// The message of a number is lost in a lane, even if that is worn; this takes no memory. A message that is not there is passed over.
pub(crate) fn lose<R: Replica + Drop>(lanes: &mut Vec<Lane<R>>, lane: u8, number: u64)
    requires { lane < length lanes.old.items }
    ensures happens { IsHappening R.segments R.faults lanes.old.items lanes.new.items lane (events.Forget number) None }
    ensures lanes { (masters : ℕ) → AreLanes masters 0 lanes.old.items → AreLanes masters 0 lanes.new.items }
    ensures count { length lanes.new.items ≡ length lanes.old.items }
    ensures backups { backup_counts lanes.new.items ≡ backup_counts lanes.old.items }
    ensures counts { LanesGoOn R.faults [] lanes.old.items lanes.new.items }
{
    let _ = lanes[lane as usize].forget(number);
}

// Whether a lane's answer shows that a message was lost.
fn has_lost(answer: &Result<Seen, StepError>) -> bool
    ensures { result ≡ lost_by answer.now }
{
    match answer {
        Ok(seen) => seen.lost,
        Err(_) => false,
    }
}

/// What a call makes of a lane's answer.
pub(crate) fn heard(answer: &Result<Seen, StepError>) -> Result<(), ClusterError>
    ensures ok { OnOk result (failure_of answer.now ≡ None) }
    ensures err { IfErr result (λ e. failure_of answer.now ≡ Some e) }
{
    match answer {
        Err(StepError::NoMemory) => Err(ClusterError::NoMemory),
        Err(StepError::Worn(number)) => Err(ClusterError::Worn(*number)),
        _ => Ok(()),
    }
}

/// Deeds are done, one after the other, up to a deed that finds its lane worn, or for which memory is wanting.
pub(crate) fn act_all<R: Replica + Drop>(
    lanes: &mut Vec<Lane<R>>,
    masters: u8,
    deeds: &[Deed],
) -> Result<(), ClusterError>
    requires lanes { AreLanes masters 0 lanes.old.items }
    requires may { All (IsDeed (length lanes.old.items) masters) deeds.now }
    ensures ok { OnOk result (CarriesSteps R.segments lanes.old.items lanes.new.items deeds.now []) }
    ensures err { IfErr result (WhereWorn (StepsEndWorn R.segments lanes.old.items lanes.new.items deeds.now)) }
    ensures short { OnErr result (AreStepsCutShort R.segments lanes.old.items lanes.new.items deeds.now) }
    ensures lanes { AreLanes masters 0 lanes.new.items }
    ensures count { length lanes.new.items ≡ length lanes.old.items }
    ensures backups { backup_counts lanes.new.items ≡ backup_counts lanes.old.items }
    ensures counts { LanesGoOn R.faults [] lanes.old.items lanes.new.items }
{
    for deed in deeds {
        act(lanes, deed.lane, deed.event)?;
    }
    Ok(())
}

/// The same event in each of these lanes.
pub(crate) fn in_lanes(alloc: Global, lanes: &[u8], event: Event) -> Result<Vec<Deed>, NoMemory>
    ensures { IfOk result (λ deeds. deeds.items ≡ map (λ lane. record { lane = lane; event = event }) lanes.now) }
{
    let deeds = lanes.iter().map(|lane| Deed { lane: *lane, event });
    Ok(deeds.collect(alloc)?)
}

/// The same event in each lane.
pub(crate) fn in_all_lanes(event: Event) -> [Deed; 8]
    ensures { result ≡ map (λ lane. record { lane = lane; event = event }) (range_with_len 0 LANES) }
{
    [
        Deed { lane: 0, event },
        Deed { lane: 1, event },
        Deed { lane: 2, event },
        Deed { lane: 3, event },
        Deed { lane: 4, event },
        Deed { lane: 5, event },
        Deed { lane: 6, event },
        Deed { lane: 7, event },
    ]
}
