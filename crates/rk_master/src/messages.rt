// What a master makes of a message, by its sender and its kind.
ghost use Rattle.std.specs.Prelude.{◌≡◌, IfOk, OnOk};
ghost use Rattle.rk_world.specs.MasterStep as step;
ghost use Rattle.rk_master.specs.Parts.{worked_of};
ghost use Rattle.rk_master.specs.State.{IsState, master_of};
ghost use Rattle.rk_master.specs.Taking.{CanTake, CanTakeOfBackup, CanTakeOfClient, CanTakeOfPeer, CanTakeOrder};

use crate::orders::{take_close, take_grant, take_own, take_prepare, take_release};
use crate::pulled::{take_got, take_pulled};
use crate::pulls::{take_pull, take_want};
use crate::rebuilds::{take_copy, take_rebuild};
use crate::requests::take_request;
use crate::state::MasterState;
use crate::stored::take_stored;
use crate::work::Worked;
use rk_message::{Body, Message};
use rk_types::{NoMemory, Node};

/// A master takes a message. What the function of its kind takes.
pub(crate) fn take_message(state: &mut MasterState, message: Message) -> Result<Worked, NoMemory>
    requires state { IsState state.old }
    requires can { CanTake (master_of state.old) message }
    ensures state { OnOk result (IsState state.new) }
    ensures ok { IfOk result (λ work. worked_of (master_of state.new) work ≡ step.master_step (master_of state.old) message) }
{
    match message.from {
        Node::Client(client) => client_message(state, client, message.into_body()),
        Node::Coordinator => order(state, &message.body),
        Node::Master(_) => peer_message(state, message.from, &message.body),
        Node::Backup(backup) => backup_message(state, backup, &message.body),
    }
}

// Takes what a client sent.
fn client_message(state: &mut MasterState, client: u32, body: Body) -> Result<Worked, NoMemory>
    requires state { IsState state.old }
    requires can { CanTakeOfClient client body }
    ensures state { OnOk result (IsState state.new) }
    ensures ok { IfOk result (λ work. worked_of (master_of state.new) work ≡ step.client_message (master_of state.old) client body) }
{
    match body {
        Body::Request(request) => take_request(state, client, request),
        _ => Ok(state.nothing()),
    }
}

// Takes what a backup sent.
fn backup_message(state: &mut MasterState, backup: u8, body: &Body) -> Result<Worked, NoMemory>
    requires state { IsState state.old }
    requires can { CanTakeOfBackup (master_of state.old) backup body.now }
    ensures state { OnOk result (IsState state.new) }
    ensures ok { IfOk result (λ work. worked_of (master_of state.new) work ≡ step.backup_message (master_of state.old) backup body.now) }
{
    match body {
        Body::Stored(stored) => take_stored(state, backup, *stored),
        Body::Copy(copy) => take_copy(state, copy),
        _ => Ok(state.nothing()),
    }
}

// Takes what another master sent.
fn peer_message(state: &mut MasterState, sender: Node, body: &Body) -> Result<Worked, NoMemory>
    requires state { IsState state.old }
    requires can { CanTakeOfPeer body.now }
    ensures state { OnOk result (IsState state.new) }
    ensures ok { IfOk result (λ work. worked_of (master_of state.new) work ≡ step.peer_message (master_of state.old) sender body.now) }
{
    match body {
        Body::Pull(pull) => take_pull(state, sender, *pull),
        Body::Pulled(pulled) => take_pulled(state, pulled),
        Body::Want(want) => take_want(state, sender, want),
        Body::Got(got) => take_got(state, got),
        _ => Ok(state.nothing()),
    }
}

// Takes what the coordinator sent.
fn order(state: &mut MasterState, body: &Body) -> Result<Worked, NoMemory>
    requires state { IsState state.old }
    requires can { CanTakeOrder (master_of state.old) body.now }
    ensures state { OnOk result (IsState state.new) }
    ensures ok { IfOk result (λ work. worked_of (master_of state.new) work ≡ step.order (master_of state.old) body.now) }
{
    match body {
        Body::Prepare(prepare) => take_prepare(state, *prepare),
        Body::Close(tenure) => take_close(state, *tenure),
        Body::Grant(grant) => take_grant(state, grant),
        Body::Own(tenure) => Ok(take_own(state, *tenure)),
        Body::Release(tenure) => Ok(take_release(state, *tenure)),
        Body::Rebuild(rebuild) => take_rebuild(state, rebuild),
        _ => Ok(state.nothing()),
    }
}
