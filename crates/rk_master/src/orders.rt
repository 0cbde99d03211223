// What a master makes of the coordinator's orders that hand a tablet over. Each finds its tablet by a binary search; one
// that the master does not know is Absent at term 0, and no order but a Prepare applies to that.
ghost use Rattle.std.specs.Prelude.{◌≡◌, ◌<◌, IfOk, OnOk};
ghost use Rattle.rk_transfer.specs.Handover.{closed};
ghost use Rattle.rk_types.specs.NumberMap.{IsInOrder};
ghost use Rattle.rk_world.specs.Handovers as handovers;
ghost use Rattle.rk_world.specs.Master.{Master, tablet_at};
ghost use Rattle.rk_world.specs.Worked.{changed, sending};
ghost use Rattle.rk_master.specs.Parts.{IsGrantable, tablet_in, worked_of};
ghost use Rattle.rk_types.specs.Places.{IsAt};
ghost use Rattle.rk_master.specs.State.{IsState, master_of};

use crate::staging::append;
use crate::state::MasterState;
use crate::tablets::{give_up_others, hand, handover_of, is_above_all, search};
use crate::waiting::freeze_at;
use crate::work::Worked;
use rk_entry::{Carried, Entry};
use rk_message::{Body, Grant, Message, Prepare, Ready, Tenure};
use rk_table::RecordTable;
use rk_tablet::completions_of;
use rk_transfer::{Handover, Role};
use rk_types::{NoMemory, Node};

/// A master takes a Close: the tablet answers no more calls, and once nothing of it is staged its Transfer is sent, also
/// again. One binary search, a step for each staged entry, and one for each client if the Transfer is sent.
pub(crate) fn take_close(state: &mut MasterState, tenure: Tenure) -> Result<Worked, NoMemory>
    requires { IsState state.old }
    ensures state { OnOk result (IsState state.new) }
    ensures ok { IfOk result (λ work. worked_of (master_of state.new) work ≡ handovers.close_taken (master_of state.old) tenure) }
{
    let Ok(at) = search(state.tablets.as_slice(), tenure.tablet) else {
        return Ok(state.nothing());
    };
    close(state, at, tenure);
    tell_frozen(state, at, tenure)
}

/// A master takes an Own: the tablet is served as its own, and what was pulled is forgotten, if the entry that closes its
/// role is applied. One binary search.
pub(crate) fn take_own(state: &mut MasterState, tenure: Tenure) -> Worked
    requires { IsState state.old }
    ensures state { IsState state.new }
    ensures ok { worked_of (master_of state.new) result ≡ handovers.own_taken (master_of state.old) tenure }
{
    let Ok(at) = search(state.tablets.as_slice(), tenure.tablet) else {
        return state.nothing();
    };
    own(state, at, tenure);
    state.nothing()
}

// The tablet at a place is owned if that move applies.
fn own(state: &mut MasterState, at: usize, tenure: Tenure)
    requires state { IsState state.old }
    requires place { IsAt tenure.tablet state.old.tablets.items at }
    ensures state { IsState state.new }
    ensures ok { changed (master_of state.new) ≡ handovers.own_taken (master_of state.old) tenure }
{
    let applied = state.applied;
    let tablet = &mut state.tablets[at].1;
    if !tablet.handover.own(tenure.term, applied) {
        return;
    }
    tablet.pull_from(0);
}

/// A master takes a Release: the frozen tablet is absent, and its items are dropped. One binary search, and if it
/// applies, a look at each record.
pub(crate) fn take_release(state: &mut MasterState, tenure: Tenure) -> Worked
    requires { IsState state.old }
    ensures state { IsState state.new }
    ensures ok { worked_of (master_of state.new) result ≡ handovers.release_taken (master_of state.old) tenure }
{
    let Ok(at) = search(state.tablets.as_slice(), tenure.tablet) else {
        return state.nothing();
    };
    release(state, at, tenure);
    state.nothing()
}

// The tablet at a place is released if that move applies.
fn release(state: &mut MasterState, at: usize, tenure: Tenure)
    requires state { IsState state.old }
    requires place { IsAt tenure.tablet state.old.tablets.items at }
    ensures state { IsState state.new }
    ensures ok { changed (master_of state.new) ≡ handovers.release_taken (master_of state.old) tenure }
{
    let tablet = &mut state.tablets[at].1;
    if !tablet.handover.release(tenure.term) {
        return;
    }
    let range = tablet.handover.range;
    tablet.forget_merged();
    state.records.drop_range(&range);
}

/// A master takes a Prepare: it drops the items of the range, gives up each other tablet there, and reports where its
/// entries of the tablet begin; if it made ready at this term, it reports that again. One binary search and a look at
/// each tablet; if it applies, one more of each, and a look at each record.
pub(crate) fn take_prepare(state: &mut MasterState, prepare: Prepare) -> Result<Worked, NoMemory>
    requires { IsState state.old }
    ensures state { OnOk result (IsState state.new) }
    ensures ok { IfOk result (λ work. worked_of (master_of state.new) work ≡ handovers.prepare_taken (master_of state.old) prepare) }
{
    let tenure = prepare.tenure;
    let before = handover_of(state.tablets.as_slice(), tenure.tablet);
    if tenure.term <= before.term
        || !is_above_all(state.tablets.as_slice(), &prepare.range, tenure.term)
    {
        return ready_again(state, tenure, before);
    }
    make_ready(state, prepare, before)?;
    tell_ready(state, tenure, state.log.length())
}

// A master that made ready at this term says so again, by the handover that it has.
fn ready_again(state: &MasterState, tenure: Tenure, handover: Handover) -> Result<Worked, NoMemory>
    ensures { IfOk result (λ work. worked_of (master_of state.now) work
        ≡ handovers.ready_again (master_of state.now) tenure handover.role handover.term) }
{
    let Role::Wanting { from } = handover.role else {
        return Ok(state.nothing());
    };
    if handover.term != tenure.term {
        return Ok(state.nothing());
    }
    tell_ready(state, tenure, from)
}

// A master says that its entries of the tablet begin at this place.
fn tell_ready(state: &MasterState, tenure: Tenure, place: u64) -> Result<Worked, NoMemory>
    ensures { IfOk result (λ work. (asked : Master) → asked.number ≡ state.now.number
        → worked_of (master_of state.now) work ≡ sending (master_of state.now) (handovers.ready asked tenure place)) }
{
    let mut work = state.nothing();
    work.send(Message {
        from: Node::Master(state.number),
        to: Node::Coordinator,
        body: Body::Ready(Ready { tenure, place }),
    })?;
    Ok(work)
}

// A master makes ready for a tablet that has this handover, by a greater term.
fn make_ready(state: &mut MasterState, prepare: Prepare, before: Handover) -> Result<(), NoMemory>
    requires state { IsState state.old }
    requires before { before ≡ (tablet_in state.old.tablets.items prepare.tenure.tablet).handover }
    requires greater { before.term < prepare.tenure.term }
    ensures state { OnOk result (IsState state.new) }
    ensures log { state.new.log ≡ state.old.log }
    ensures number { state.new.number ≡ state.old.number }
    ensures ok { OnOk result (master_of state.new ≡ handovers.tablet_prepared (master_of state.old) prepare) }
{
    let mut handover = before;
    let _ = handover.prepare(prepare.tenure.term, prepare.range, state.log.length());
    state.records.drop_range(&prepare.range);
    let tablet = prepare.tenure.tablet;
    give_up_others(state.tablets.as_mut_slice(), tablet, &prepare.range);
    hand(&mut state.tablets, tablet, handover)?;
    Ok(())
}

/// A master takes a Grant: the tablet is served by what its source reported, and pulled from there, if this master made
/// ready at its term. `NoMemory` also if the log is full, or the ends have no room in a segment. One binary search, and
/// if it applies, a search for each end, and the time to copy the ends and to spell the entry.
pub(crate) fn take_grant(state: &mut MasterState, grant: &Grant) -> Result<Worked, NoMemory>
    requires state { IsState state.old }
    requires lawful { IsGrantable (master_of state.old) grant.now }
    ensures state { OnOk result (IsState state.new) }
    ensures ok { IfOk result (λ work. worked_of (master_of state.new) work ≡ handovers.grant_taken (master_of state.old) grant.now) }
{
    let Ok(at) = search(state.tablets.as_slice(), grant.tenure.tablet) else {
        return Ok(state.nothing());
    };
    receive(state, at, grant)?;
    Ok(state.nothing())
}

// The tablet at a place is received if that move applies.
fn receive(state: &mut MasterState, at: usize, grant: &Grant) -> Result<(), NoMemory>
    requires state { IsState state.old }
    requires place { IsAt grant.now.tenure.tablet state.old.tablets.items at }
    requires lawful { IsGrantable (master_of state.old) grant.now }
    ensures state { OnOk result (IsState state.new) }
    ensures ok { OnOk result (changed (master_of state.new) ≡ handovers.grant_taken (master_of state.old) grant.now) }
{
    let alloc = *state.tablets.allocator();
    let tablet = &mut state.tablets[at].1;
    if !tablet.handover.grant(grant.tenure.term, grant.floor) {
        return Ok(());
    }
    let handover = tablet.handover;
    tablet.completions = completions_of(alloc, grant.ends.as_slice())?;
    tablet.pull_from(grant.source);
    let entry = carried_entry(handover, grant)?;
    append(&mut state.log, &mut state.staged, entry)?;
    Ok(())
}

// The entry that begins what a target has of a tablet.
fn carried_entry(handover: Handover, grant: &Grant) -> Result<Entry, NoMemory>
    ensures { IfOk result (λ entry. entry ≡ handovers.carried_entry handover grant.now) }
{
    Ok(Entry::Carried(Carried {
        range: handover.range,
        term: handover.term,
        floor: grant.floor,
        ends: grant.ends.duplicate()?,
    }))
}

// The tablet at a place closes if that move applies, and freezes at once if nothing of it is staged. A step for each
// staged entry.
fn close(state: &mut MasterState, at: usize, tenure: Tenure)
    requires state { IsState state.old }
    requires place { IsAt tenure.tablet state.old.tablets.items at }
    ensures state { IsState state.new }
    ensures place { IsAt tenure.tablet state.new.tablets.items at }
    ensures ok { master_of state.new ≡ handovers.closing (master_of state.old) tenure.tablet
        (closed (tablet_at (master_of state.old) tenure.tablet).handover tenure.term) }
{
    let tablet = &mut state.tablets[at].1;
    if !tablet.handover.close(tenure.term) {
        return;
    }
    tablet.forget_merged();
    freeze_at(state, at);
}

// If the tablet at a place is frozen at this term, what its next owner has to know is sent. A step for each client.
fn tell_frozen(state: &MasterState, at: usize, tenure: Tenure) -> Result<Worked, NoMemory>
    requires order { IsInOrder state.now.tablets.items }
    requires place { IsAt tenure.tablet state.now.tablets.items at }
    ensures { IfOk result (λ work. worked_of (master_of state.now) work ≡ handovers.transferring (master_of state.now) tenure) }
{
    let tablet = &state.tablets[at].1;
    let mut work = state.nothing();
    if !tablet.is_frozen_at(tenure.term) {
        return Ok(work);
    }
    work.send(tablet.transfer(state.number, tenure)?)?;
    Ok(work)
}
