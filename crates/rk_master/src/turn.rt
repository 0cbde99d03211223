// What a master does on its turn: it sends each backup what that lacks, and then does its duty for each tablet.
ghost use Rattle.std.specs.Prelude.{◌≡◌, ◌++◌, [], true, None, IfOk, OnOk};
ghost use Rattle.rk_log.specs.Log.{IsBackup, pending};
ghost use Rattle.rk_world.specs.Master.{Master};
ghost use Rattle.rk_world.specs.MasterTurn as turns;
ghost use Rattle.rk_master.specs.Parts.{worked_of};
ghost use Rattle.rk_master.specs.State.{IsState, master_of};

use crate::duties::{are_at_rest, do_duties};
use crate::state::MasterState;
use crate::work::Worked;
use rk_log::Piece;
use rk_message::{Append, Body, Message};
use rk_types::{Listed, NoMemory, Node};
use std::alloc::Global;

/// A master's turn: each backup is sent what it lacks, and then each tablet gets what its role asks of the master. A look
/// at each backup, each tablet and each member whose log is gathered, and what is sent takes the time to copy it.
pub(crate) fn take_turn(state: &mut MasterState) -> Result<Worked, NoMemory>
    requires { IsState state.old }
    ensures state { OnOk result (IsState state.new) }
    ensures ok { IfOk result (λ work. worked_of (master_of state.new) work ≡ turns.master_turn (master_of state.old)) }
{
    let mut work = state.nothing();
    send_pending(state, &mut work)?;
    do_duties(state, &mut work)?;
    Ok(work)
}

/// Whether it is known at a look that a turn would send nothing: every backup holds the whole log, and the role of no tablet
/// has a duty. A look at each backup and each tablet.
pub(crate) fn rests(state: &MasterState) -> bool
    requires { IsState state.now }
    ensures { result ≡ true → (turns.master_turn (master_of state.now)).sends ≡ [] }
{
    is_held(state) && are_at_rest(state.tablets.as_slice())
}

// Whether every backup is known to hold the whole log. A look at each backup.
fn is_held(state: &MasterState) -> bool
    requires { IsState state.now }
    ensures { result ≡ true → turns.appends (master_of state.now) ≡ [] }
{
    for before in 0..state.backups {
        if !holds_all(state, before + 1) {
            return false;
        }
    }
    true
}

// Whether a backup is known to lack nothing.
fn holds_all(state: &MasterState, backup: u8) -> bool
    requires { IsBackup state.now.log backup }
    ensures { result ≡ true → pending state.now.log backup ≡ None }
{
    state.log.pending(backup).is_none()
}

// Each backup is sent what it lacks, by rising number. A look at each backup, and the time to copy what is sent.
fn send_pending(state: &MasterState, work: &mut Worked) -> Result<(), NoMemory>
    requires { IsState state.now }
    ensures sends { OnOk result (work.new.sends.items ≡ work.old.sends.items ++ turns.appends (master_of state.now)) }
    ensures served { OnOk result (work.new.served.items ≡ work.old.served.items) }
    ensures marked { OnOk result (work.new.marked ≡ work.old.marked) }
{
    for before in 0..state.backups {
        send_to(state, before + 1, work)?;
    }
    Ok(())
}

// A backup is sent what it lacks, if it lacks something. The time to copy that.
fn send_to(state: &MasterState, backup: u8, work: &mut Worked) -> Result<(), NoMemory>
    requires { IsBackup state.now.log backup }
    ensures sends { OnOk result (work.new.sends.items
        ≡ work.old.sends.items ++ turns.append_of (master_of state.now) backup (pending state.now.log backup)) }
    ensures served { OnOk result (work.new.served.items ≡ work.old.served.items) }
    ensures marked { OnOk result (work.new.marked ≡ work.old.marked) }
{
    let Some(piece) = state.log.pending(backup) else {
        return Ok(());
    };
    let append = append_to(*work.sends.allocator(), state.number, backup, &piece)?;
    work.send(append)?;
    Ok(())
}

// A master of this number hands a backup bytes of a segment; a copy of them.
fn append_to(alloc: Global, number: u8, backup: u8, piece: &Piece<'_>) -> Result<Message, NoMemory>
    ensures { IfOk result (λ append. (master : Master) → master.number ≡ number → append ≡ turns.append_to master backup piece.now) }
{
    Ok(Message {
        from: Node::Master(number),
        to: Node::Backup(backup),
        body: Body::Append(Append {
            segment: piece.segment,
            at: piece.at,
            bytes: Listed::from_vec(Vec::from_slice(alloc, piece.bytes)?),
        }),
    })
}
