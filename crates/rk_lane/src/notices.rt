// How a lane notices that a master has crashed.
ghost use Rattle.std.specs.Prelude.{◌≡◌, ◌++◌, ◌∷◌, [], None, fold, filter, if◌then◌else◌, length, IfOk, IfErr, OnOk};
ghost use Rattle.rk_world.specs.Backup.{Gave};
ghost use Rattle.rk_world.specs.Lineage.{is_member as is_member_lem};
ghost use Rattle.rk_world.specs.Notices.{is_named as is_named_lem, names as names_lem, notice_one, notice_order as notice_order_lem};
ghost use Rattle.rk_world.specs.declared.event.Event.TheVariants as events;
ghost use Rattle.rk_lane.specs.Made.{IsFault, IsMade, IsReady};
ghost use Rattle.rk_lane.specs.Noticing.{MayRiseBy, is_of as is_of_lem, is_unnoticed as is_unnoticed_lem, unnoticed as unnoticed_lem};
ghost use Rattle.rk_lane.specs.Parts.{IsKept};

use crate::coordinating::greatest_term;
use crate::parts::Parts;
use crate::seen::quiet;
use rk_coordinator::CoordinatorLane;
use rk_tablet_map::{Phase, Row};
use rk_types::{Member, NoMemory};
use rk_world::{Seen, StepError};
use std::alloc::Global;

/// The groups in which crashed masters are noticed, one after the other.
#[derive(Clone, Copy)]
pub(crate) enum Group {
    /// No row names them.
    Unnamed,
    /// Some row names them, but the notice is of another one.
    Named,
    /// Some row names it, and the notice is of it.
    Last,
}

/// The crash of a master is noticed, and with it each other crash that was not. For each of these what the coordinator takes,
/// and a step for each row.
pub(crate) fn notice(parts: &mut Parts, alloc: Global, master: u8) -> Result<Seen, StepError>
    requires { IsReady parts.old (events.Notice master) }
    ensures ok { IfOk result (IsMade parts.old (events.Notice master) (Gave None) parts.new) }
    ensures err { IfErr result (IsFault parts.old (events.Notice master) parts.new) }
{
    if !parts.has_crashed(master) {
        return Err(StepError::Alive(master));
    }
    let Ok(order) = notice_order(parts, alloc, master) else {
        return Err(StepError::NoMemory);
    };
    let Ok(()) = notice_all(&mut parts.coordinator, order.as_slice()) else {
        return Err(StepError::NoMemory);
    };
    let term = greatest_term(&parts.coordinator);
    parts.raise(term);
    Ok(quiet())
}

// The coordinator notices these masters, one after the other.
fn notice_all(coordinator: &mut CoordinatorLane, order: &[u8]) -> Result<(), NoMemory>
    requires { MayRiseBy (length order.now) coordinator.old }
    ensures { OnOk result (coordinator.new ≡ fold notice_one coordinator.old order.now) }
{
    for master in order {
        coordinator.notice(*master)?;
    }
    Ok(())
}

// The masters that the notice of one marks, in their order.
fn notice_order(parts: &Parts, alloc: Global, dead: u8) -> Result<Vec<u8>, NoMemory>
    requires { IsKept parts.now }
    ensures { IfOk result (λ order. order.items ≡ notice_order_lem parts.now.coordinator.rows dead (unnoticed_lem parts.now)) }
{
    let masters = unnoticed(parts, alloc)?;
    let rows = parts.coordinator.map().rows();
    let mut order = Vec::with_capacity(alloc, masters.len())?;
    push_group(&mut order, rows, masters.as_slice(), dead, Group::Unnamed)?;
    push_group(&mut order, rows, masters.as_slice(), dead, Group::Named)?;
    push_group(&mut order, rows, masters.as_slice(), dead, Group::Last)?;
    Ok(order)
}

// The masters that have crashed and were not noticed, by rising number.
fn unnoticed(parts: &Parts, alloc: Global) -> Result<Vec<u8>, NoMemory>
    requires { IsKept parts.now }
    ensures { IfOk result (λ masters. masters.items ≡ unnoticed_lem parts.now) }
{
    let mut masters = Vec::new(alloc);
    for index in 0..parts.coordinator.masters() {
        let master = index + 1;
        push_where(&mut masters, master, is_unnoticed(parts, master))?;
    }
    Ok(masters)
}

// Whether a master has crashed and was not noticed.
fn is_unnoticed(parts: &Parts, master: u8) -> bool
    ensures { result ≡ is_unnoticed_lem parts.now master }
{
    parts.has_crashed(master) && !parts.coordinator.noticed(master)
}

// Puts those of some masters at the end of a list that are of a group.
fn push_group(
    order: &mut Vec<u8>,
    rows: &[Row],
    masters: &[u8],
    dead: u8,
    group: Group,
) -> Result<(), NoMemory>
    ensures { OnOk result (order.new.items ≡ order.old.items ++ filter (is_of_lem rows.now dead group) masters.now) }
{
    for master in masters {
        push_where(order, *master, is_of(rows, dead, group, *master))?;
    }
    Ok(())
}

// Puts a master at the end of a list, if it is wanted there.
fn push_where(masters: &mut Vec<u8>, master: u8, wanted: bool) -> Result<(), NoMemory>
    ensures { OnOk result (masters.new.items ≡ masters.old.items ++ (if wanted then master ∷ [] else [])) }
{
    if wanted {
        masters.push(master)?;
    }
    Ok(())
}

// Whether a master is of a group.
fn is_of(rows: &[Row], dead: u8, group: Group, master: u8) -> bool
    ensures { result ≡ is_of_lem rows.now dead group master }
{
    let named = is_named(rows, master);
    match group {
        Group::Unnamed => !named,
        Group::Named => named && master != dead,
        Group::Last => named && master == dead,
    }
}

// Whether some row names a master.
fn is_named(rows: &[Row], master: u8) -> bool
    ensures { result ≡ is_named_lem rows.now master }
{
    rows.iter().any(|row| names(&row.phase, master))
}

// Whether a phase names a master: as its owner, source, target, rebuilding master or member.
fn names(phase: &Phase, master: u8) -> bool
    ensures { result ≡ names_lem phase.now master }
{
    match phase {
        Phase::Owned { master: owner, .. } => *owner == master,
        Phase::Opening { source, target, .. } => *source == master || *target == master,
        Phase::Moving { source, target, .. } => *source == master || *target == master,
        Phase::Rebuilding { lineage, to } => {
            *to == master || is_member(lineage.as_slice(), master)
        }
    }
}

// Whether a lineage names a master.
fn is_member(lineage: &[Member], master: u8) -> bool
    ensures { result ≡ is_member_lem lineage.now master }
{
    lineage.iter().any(|member| member.master == master)
}
