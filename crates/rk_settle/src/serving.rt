// How serve goes on with the outstanding call of a client.
ghost use Rattle.std.specs.Prelude.{◌≡◌, ◌++◌, OnOk, ℕ, ◌<◌, IfSome};
ghost use Rattle.rk_settle.specs.Lawful.{AreTasks};
ghost use Rattle.rk_types.specs.declared.hashing.TheConstants.{LANES};
ghost use Rattle.std.specs.Option.{option_copied};
ghost use Rattle.rk_world.specs.Premises.{IsMaster, MayAct};
ghost use Rattle.rk_cluster.specs.Told.{LaneTells};
ghost use Rattle.rk_session.specs.Owners.{known_owner as known_owner_lem, looks_up as looks_up_lem};
ghost use Rattle.rk_settle.specs.Serve as serve;
ghost use Rattle.rk_settle.specs.Serve.{session_of};

use crate::acts::turn_exchange;
use crate::looks::{lives_at, staged_at};
use crate::task::{Act, Task};
use crate::tasks::Tasks;
use crate::topic::Topic;
use rk_lane::Lane;
use rk_outside::Replica;
use rk_session::Session;
use rk_types::{Call, NoMemory, Node};

/// The second time that a call is tried, which is the last.
const MOST_TRIES: u8 = 2;

// A client takes its turn, and what comes of that is delivered.
fn ask_exchange(lane: u8, client: u32) -> Task
    ensures { result ≡ serve.ask_exchange lane client }
{
    Task::Exchanges {
        lane,
        topic: Topic::Call,
        act: Act::Asks(client),
    }
}

/// A call is tried: the owner is asked for, if the client's turn does that, and then the request is sent.
pub(crate) fn attempt(
    tasks: &mut Tasks,
    known: Option<&Session>,
    lane: u8,
    client: u32,
    times: u8,
) -> Result<(), NoMemory>
    ensures pushed { OnOk result (tasks.new ≡ serve.try_tasks (session_of client (option_copied known.entry)) lane client times ++ tasks.old) }
    ensures lawful { OnOk result ((masters : ℕ) → lane < LANES → AreTasks masters tasks.old → AreTasks masters tasks.new) }
{
    tasks.push(Task::Requests {
        lane,
        client,
        times,
    })?;
    if looks_up(known) {
        tasks.push(ask_exchange(lane, client))?;
    }
    Ok(())
}

/// The request is sent to the owner that the client knows, if it knows one.
pub(crate) fn request(
    tasks: &mut Tasks,
    known: Option<&Session>,
    lane: u8,
    client: u32,
    times: u8,
) -> Result<(), NoMemory>
    ensures pushed { OnOk result (tasks.new ≡ serve.request_tasks (session_of client (option_copied known.entry)) lane client times ++ tasks.old) }
    ensures lawful { OnOk result ((masters : ℕ) → lane < LANES → IfSome (option_copied known.entry) (MayAct masters) → AreTasks masters tasks.old → AreTasks masters tasks.new) }
{
    let Some(asked) = known_owner(known) else {
        return Ok(());
    };
    let hears = Task::Hears {
        lane,
        client,
        times,
        asked,
    };
    tasks.push_all(&[ask_exchange(lane, client), hears])
}

/// After a Moved the call is tried once more, and else it is committed.
pub(crate) fn hear(
    tasks: &mut Tasks,
    known: Option<&Session>,
    lane: u8,
    client: u32,
    times: u8,
    asked: u8,
) -> Result<(), NoMemory>
    ensures pushed { OnOk result (tasks.new ≡ serve.hear_tasks (session_of client (option_copied known.entry)) lane client times asked ++ tasks.old) }
    ensures lawful { OnOk result ((masters : ℕ) → lane < LANES → IsMaster masters asked → AreTasks masters tasks.old → AreTasks masters tasks.new) }
{
    if times != MOST_TRIES && was_moved(known) {
        return tasks.push(Task::Tries {
            lane,
            client,
            times: MOST_TRIES,
        });
    }
    tasks.push(Task::Commits {
        lane,
        client,
        asked,
    })
}

// Whether the client was told that the tablet has moved.
fn was_moved(known: Option<&Session>) -> bool
    ensures { (client : ℕ) → result ≡ serve.was_moved (session_of client (option_copied known.entry)) }
{
    outstanding(known).is_some() && known_owner(known).is_none()
}

// Whether a client asks on its turn where its key is; one without a session does not.
fn looks_up(known: Option<&Session>) -> bool
    ensures { (client : ℕ) → result ≡ looks_up_lem (session_of client (option_copied known.entry)) }
{
    match known {
        Some(session) => session.looks_up(),
        None => false,
    }
}

// The owner that a client knows; one without a session knows none.
fn known_owner(known: Option<&Session>) -> Option<u8>
    ensures owner { (client : ℕ) → result ≡ known_owner_lem (session_of client (option_copied known.entry)) }
    ensures there { (masters : ℕ) → IfSome (option_copied known.entry) (MayAct masters) → IfSome result (IsMaster masters) }
{
    match known {
        Some(session) => session.known_owner(),
        None => None,
    }
}

// The outstanding call of a client; one without a session has none.
fn outstanding<'a>(known: Option<&'a Session>) -> Option<&'a Call>
    ensures { (client : ℕ) → option_copied result ≡ (session_of client (option_copied known.entry)).outstanding }
{
    match known {
        Some(session) => session.outstanding(),
        None => None,
    }
}

/// A log exchange of the master that was asked, and then the next, while the call is outstanding and staged there.
pub(crate) fn commit<R: Replica + Drop>(
    tasks: &mut Tasks,
    at: &Lane<R>,
    known: Option<&Session>,
    lane: u8,
    client: u32,
    asked: u8,
) -> Result<(), NoMemory>
    requires { IsMaster at.now.masters asked }
    ensures pushed { OnOk result (LaneTells R.segments at.now
        (λ w. serve.commit_tasks w (session_of client (option_copied known.entry)) lane client asked ++ tasks.old) tasks.new) }
    ensures lawful { OnOk result (lane < LANES → AreTasks at.now.masters tasks.old → AreTasks at.now.masters tasks.new) }
{
    if !is_staged_at(at, client, asked, outstanding(known)) {
        return Ok(());
    }
    let exchange = turn_exchange(lane, Topic::Log, Node::Master(asked));
    let commits = Task::Commits {
        lane,
        client,
        asked,
    };
    tasks.push_all(&[Task::Begins, exchange, Task::Ends, commits])
}

// Whether a client's call, if there is one, is staged at a master that lives.
fn is_staged_at<R: Replica + Drop>(
    at: &Lane<R>,
    client: u32,
    asked: u8,
    call: Option<&Call>,
) -> bool
    requires { IsMaster at.now.masters asked }
    ensures { LaneTells R.segments at.now (λ w. serve.is_staged_by w client asked (option_copied call.entry)) result }
{
    match call {
        None => false,
        Some(call) => lives_at(at, asked) && staged_at(at, asked, client, call.seq),
    }
}
