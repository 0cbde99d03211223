// What a master does for its tablets on its turn: a target asks its source for what it lacks, a rebuild asks backup 1 for
// what it reads next, and either says when it has all. Each duty changes its own tablet alone, so that those behind it are
// as they were.
ghost use Rattle.std.specs.Prelude.{◌≡◌, ℕ, ◌<◌, ◌+◌, ◌++◌, [], true, false, Some, length, drop, slice_get, OnOk};
ghost use Rattle.rk_world.specs.Gather.{next_reading};
ghost use Rattle.rk_world.specs.Master.{Master};
ghost use Rattle.rk_world.specs.MasterTurn as turns;
ghost use Rattle.rk_world.specs.Tablet.{Tablet};
ghost use Rattle.rk_world.specs.Worked.{changed};
ghost use Rattle.rk_tablet.specs.Tablets.{tablet_of};
ghost use Rattle.rk_master.specs.Parts.{behind, tablets_of, worked_of};
ghost use Rattle.rk_master.specs.Places.{Row};
ghost use Rattle.rk_master.specs.State.{IsState, master_of};

use crate::state::MasterState;
use crate::work::Worked;
use rk_message::{Body, Message, Pull, ReadSegment, Rebuilt, Tenure, Want};
use rk_tablet::TabletLane;
use rk_transfer::Role;
use rk_types::{Listed, NoMemory, Node};

/// The duties of a master for its tablets, by rising number. A look at each tablet and at each member whose log is gathered,
/// and what is sent takes the time to copy it.
pub(crate) fn do_duties(state: &mut MasterState, work: &mut Worked) -> Result<(), NoMemory>
    requires { IsState state.old }
    ensures state { OnOk result (IsState state.new) }
    ensures ok { OnOk result (worked_of (master_of state.new) work.new
        ≡ behind work.old (turns.duties (master_of state.old) (master_of state.old).tablets)) }
{
    for at in 0..state.tablets.len() {
        do_duty(state, at, work)?;
    }
    Ok(())
}

/// Whether the role of no tablet has a duty, so that no duty would send anything. A look at each tablet.
pub(crate) fn are_at_rest(tablets: &[(u32, TabletLane)]) -> bool
    ensures { result ≡ true → (master : Master) → (turns.duties master (tablets_of tablets.now)).sends ≡ [] }
{
    for entry in tablets {
        if has_duty(entry.1.handover.role) {
            return false;
        }
    }
    true
}

// Whether a role may have a duty; one without it does nothing on a turn.
fn has_duty(role: Role) -> bool
    ensures { result ≡ false → (master : Master) (number : ℕ) (tablet : Tablet) → turns.tablet_duty master number tablet role ≡ changed master }
{
    matches!(
        role,
        Role::Receiving | Role::Joining { .. } | Role::Rebuilding { .. }
    )
}

// The duty for the tablet at a place, by its role.
fn do_duty(state: &mut MasterState, at: usize, work: &mut Worked) -> Result<(), NoMemory>
    requires state { IsState state.old }
    requires within { at < length state.old.tablets.items }
    ensures state { OnOk result (IsState state.new) }
    ensures ok { OnOk result ((row : Row) → slice_get state.old.tablets.items at ≡ Some row → worked_of (master_of state.new) work.new
        ≡ behind work.old (turns.tablet_duty (master_of state.old) row.0 (tablet_of row.1) row.1.handover.role)) }
    ensures behind { drop (at + 1) state.new.tablets.items ≡ drop (at + 1) state.old.tablets.items }
    ensures length { length state.new.tablets.items ≡ length state.old.tablets.items }
{
    let role = state.tablets[at].1.handover.role;
    match role {
        Role::Receiving => {
            ask_source(state, at, work)?;
            Ok(())
        }
        Role::Joining { entry } => {
            tell_joined(state, &state.tablets[at], entry, work)?;
            Ok(())
        }
        Role::Rebuilding { from, entry } => {
            rebuild(state, &state.tablets[at], from, entry, work)?;
            Ok(())
        }
        _ => Ok(()),
    }
}

// The target at a place asks its source for what it lacks: for the outstanding hashes, if there are any, and then for
// the batch from its token on. If no hashes are outstanding, those that are wanted become so first.
fn ask_source(state: &mut MasterState, at: usize, work: &mut Worked) -> Result<(), NoMemory>
    requires state { IsState state.old }
    requires within { at < length state.old.tablets.items }
    ensures state { OnOk result (IsState state.new) }
    ensures ok { OnOk result ((row : Row) → slice_get state.old.tablets.items at ≡ Some row → worked_of (master_of state.new) work.new
        ≡ behind work.old (turns.receiving_duty (master_of state.old) row.0 (tablet_of row.1))) }
    ensures behind { drop (at + 1) state.new.tablets.items ≡ drop (at + 1) state.old.tablets.items }
    ensures length { length state.new.tablets.items ≡ length state.old.tablets.items }
{
    let number = state.number;
    let alloc = *state.tablets.allocator();
    let row = &mut state.tablets[at];
    let hashes = row.1.next_batch(alloc)?;
    send_want(number, row, hashes, work)?;
    work.send(pull_of(number, row))?;
    Ok(())
}

// A target asks its source first for these hashes, if there are any.
fn send_want(
    number: u8,
    row: &(u32, TabletLane),
    hashes: Listed<u64>,
    work: &mut Worked,
) -> Result<(), NoMemory>
    ensures sends { OnOk result ((master : Master) → master.number ≡ number
        → work.new.sends.items ≡ work.old.sends.items ++ turns.want_of master row.now.0 (tablet_of row.now.1) hashes) }
    ensures served { work.new.served.items ≡ work.old.served.items }
    ensures marked { work.new.marked ≡ work.old.marked }
{
    if hashes.as_slice().is_empty() {
        return Ok(());
    }
    work.send(Message {
        from: Node::Master(number),
        to: Node::Master(row.1.source),
        body: Body::Want(Want {
            tenure: tenure_at(row),
            hashes,
        }),
    })?;
    Ok(())
}

// A target asks its source for the batch from its token on.
fn pull_of(number: u8, row: &(u32, TabletLane)) -> Message
    ensures { (master : Master) → master.number ≡ number → result ≡ turns.pull_of master row.now.0 (tablet_of row.now.1) }
{
    Message {
        from: Node::Master(number),
        to: Node::Master(row.1.source),
        body: Body::Pull(Pull {
            tenure: tenure_at(row),
            token: *row.1.progress.token(),
        }),
    }
}

// A target reports that it has all, if the entry that closes its role is applied.
fn tell_joined(
    state: &MasterState,
    row: &(u32, TabletLane),
    entry: Option<u64>,
    work: &mut Worked,
) -> Result<(), NoMemory>
    ensures { OnOk result (worked_of (master_of state.now) work.new
        ≡ behind work.old (turns.tablet_duty (master_of state.now) row.now.0 (tablet_of row.now.1) (Role.Joining entry))) }
{
    let Some(place) = entry else {
        return Ok(());
    };
    if place >= state.applied {
        return Ok(());
    }
    work.send(Message {
        from: Node::Master(state.number),
        to: Node::Coordinator,
        body: Body::Joined(tenure_at(row)),
    })?;
    Ok(())
}

// A rebuilding master reads on until the entry that closes its role is in the log; once that is applied, it reports the
// place from which its entries count, and the ends that it merged.
fn rebuild(
    state: &MasterState,
    row: &(u32, TabletLane),
    from: u64,
    entry: Option<u64>,
    work: &mut Worked,
) -> Result<(), NoMemory>
    ensures { OnOk result (worked_of (master_of state.now) work.new
        ≡ behind work.old (turns.tablet_duty (master_of state.now) row.now.0 (tablet_of row.now.1) (Role.Rebuilding from entry))) }
{
    let Some(closing) = entry else {
        return read_next(state, row, work);
    };
    if closing >= state.applied {
        return Ok(());
    }
    let ends = row.1.merged_ends.duplicate()?;
    work.send(Message {
        from: Node::Master(state.number),
        to: Node::Coordinator,
        body: Body::Rebuilt(Rebuilt {
            tenure: tenure_at(row),
            place: from,
            ends,
        }),
    })?;
    Ok(())
}

// A rebuilding master asks backup 1 for the segment that it reads next, if there is one.
fn read_next(
    state: &MasterState,
    row: &(u32, TabletLane),
    work: &mut Worked,
) -> Result<(), NoMemory>
    ensures { OnOk result (worked_of (master_of state.now) work.new ≡ behind work.old
        (turns.reading_duty (master_of state.now) row.now.0 (tablet_of row.now.1) (next_reading (tablet_of row.now.1).gather))) }
{
    let Some(reading) = row.1.next_reading() else {
        return Ok(());
    };
    work.send(Message {
        from: Node::Master(state.number),
        to: Node::Backup(1),
        body: Body::Read(ReadSegment {
            tenure: tenure_at(row),
            master: reading.master,
            segment: reading.segment,
        }),
    })?;
    Ok(())
}

// The tenure of a tablet here.
fn tenure_at(row: &(u32, TabletLane)) -> Tenure
    ensures { result ≡ turns.tenure_at row.now.0 (tablet_of row.now.1) }
{
    Tenure {
        tablet: row.0,
        term: row.1.handover.term,
    }
}
