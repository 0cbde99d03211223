// How clients take their turns in a lane, and their answers.
ghost use Rattle.std.specs.Prelude.{◌≡◌, ◌≢◌, ◌<◌, ◌+◌, ◌-◌, ◌^◌, true, false, [], ◌∷◌, Some, None, IfOk, IfErr, IfSome, OnOk, OnErr};
ghost use Rattle.std.specs.Option.{option_copied};
ghost use Rattle.rk_types.specs.NumberMap.{get};
ghost use Rattle.rk_world.specs.Calls as calls;
ghost use Rattle.rk_world.specs.Client.{session_accept, session_turn};
ghost use Rattle.rk_world.specs.Ledger.{asked_by, is_added};
ghost use Rattle.rk_world.specs.Premises.{MayAct};
ghost use Rattle.rk_world.specs.Refusals as refusals;
ghost use Rattle.rk_message.specs.Wire.{with_message};
ghost use Rattle.rk_lane.specs.Parts.{IsKept, world_of};
ghost use Rattle.rk_lane.specs.Sends.{IsFitToSend};
ghost use Rattle.rk_lane.specs.Visits.{IsVisited, MayHaveTurned};
ghost use Rattle.rk_lane.specs.Visiting.{MayTurn, accepted_by, last_to_note, noted, place_told, request_told, saved};

use crate::messages::{Arrival, message_of};
use crate::parts::{Parts, WORN_NUMBER};
use crate::seen::quiet;
use crate::short::is_short;
use rk_ledger::LedgerLane;
use rk_message::{Body, Message, Wire};
use rk_session::Session;
use rk_types::{Call, NoMemory, Node, Op, hash, lane_of};
use rk_world::{LastCall, Seen, StepError, Taken};

/// A client takes its turn in a lane: what it sends for its outstanding call is put on the wire, and the call is noted as
/// asked. A session that does not fit changes nothing. After an error the lane is as it was, and so is the session; but
/// after `NoMemory` the session may have taken its turn. A few searches, and the time to copy the call and the request.
pub(crate) fn ask(parts: &mut Parts, session: &mut Session) -> Result<Seen, StepError>
    requires kept { IsKept parts.old }
    requires may { MayAct parts.old.coordinator.masters session.old }
    ensures ok { IfOk result (IsVisited (λ w. calls.ask w session.old) parts.old parts.new session.new) }
    ensures refused { IfErr result (λ e. e ≢ StepError.NoMemory → refusals.ask_refusal (world_of parts.old []) session.old ≡ Some e) }
    ensures parts { OnErr result (parts.new ≡ parts.old) }
    ensures session { IfErr result (λ e. e ≢ StepError.NoMemory → session.new ≡ session.old) }
    ensures turned { OnErr result (MayHaveTurned session.old session.new) }
{
    if let Some(cause) = ask_refusal(parts, session) {
        return Err(cause);
    }
    if !fits(parts, session) {
        return Ok(quiet());
    }
    take_turn(parts, session)
}

/// A client takes the message of a number, which is looked up: what [`take`] makes of it. After an error lane and session are as they
/// were. One search, and the time to read the message.
pub(crate) fn accept(
    parts: &mut Parts,
    number: u64,
    session: &mut Session,
) -> Result<Seen, StepError>
    requires kept { IsKept parts.old }
    requires may { MayAct parts.old.coordinator.masters session.old }
    ensures ok { IfOk result (IsVisited (λ w. calls.accept w number session.old) parts.old parts.new session.new) }
    ensures refused { IfErr result (λ e. e ≢ StepError.NoMemory
        → refusals.accept_refusal (world_of parts.old []) number session.old.client (get parts.old.wire.messages number) ≡ Some e) }
    ensures parts { OnErr result (parts.new ≡ parts.old) }
    ensures session { OnErr result (session.new ≡ session.old) }
{
    let message = message_of(&parts.wire, number)?;
    take(parts, Arrival { number, message }, session)
}

/// A client takes a message that was looked up. A client whose call was not asked here ignores it; if the message answers its call,
/// the record is accepted. After an error, which is never want of memory, lane and session are as they were. A few searches.
pub(crate) fn take(
    parts: &mut Parts,
    arrival: Arrival,
    session: &mut Session,
) -> Result<Seen, StepError>
    requires kept { IsKept parts.old }
    requires may { MayAct parts.old.coordinator.masters session.old }
    requires there { get parts.old.wire.messages arrival.number ≡ Some arrival.message }
    ensures ok { IfOk result (IsVisited (λ w. calls.accept w arrival.number session.old) parts.old parts.new session.new) }
    ensures refused { IfErr result (λ e.
        refusals.accept_refusal (world_of parts.old []) arrival.number session.old.client (get parts.old.wire.messages arrival.number) ≡ Some e) }
    ensures parts { OnErr result (parts.new ≡ parts.old) }
    ensures session { OnErr result (session.new ≡ session.old) }
{
    if let Some(cause) = take_refusal(parts, &arrival, session.client()) {
        return Err(cause);
    }
    if !is_asked_here(parts, session) {
        return Ok(took(Taken::Ignored));
    }
    Ok(took(take_message(&mut parts.ledger, session, arrival.message)))
}

/// Whether the outstanding call of a session, if there is one, was asked in a lane. A few searches.
pub(crate) fn is_asked_here(parts: &Parts, session: &Session) -> bool
    ensures { result ≡ calls.is_asked_here (world_of parts.now []) session.now }
{
    let Some(call) = session.outstanding() else {
        return false;
    };
    is_asked(&parts.ledger, session, call)
}

/// Whether a session fits a lane where its client was added: its call was asked there or comes next. A few searches.
pub(crate) fn fits(parts: &Parts, session: &Session) -> bool
    ensures { result ≡ calls.fits_by (world_of parts.now []) session.now session.now.outstanding }
{
    let Some(call) = session.outstanding() else {
        return false;
    };
    is_asked(&parts.ledger, session, call)
        || (lane_of(hash(call.key.bytes())) == parts.number
            && is_next(&parts.ledger, session, call))
}

// Why a client's turn is refused in a lane.
fn ask_refusal(parts: &Parts, session: &Session) -> Option<StepError>
    requires { IsKept parts.now }
    ensures { result ≡ refusals.ask_refusal (world_of parts.now []) session.now }
{
    if let Some(number) = parts.worn() {
        return Some(StepError::Worn(number));
    }
    if let Some(number) = worn_session(session) {
        return Some(StepError::Worn(number));
    }
    if !parts.ledger.is_added(session.client()) {
        return Some(StepError::Stranger(session.client()));
    }
    None
}

// The first number of a session that is too great: the seq of its call, or the stamp that it has seen.
fn worn_session(session: &Session) -> Option<u64>
    ensures { result ≡ refusals.worn_session session.now session.now.outstanding }
{
    let Some(call) = session.outstanding() else {
        return too_great(session.seen());
    };
    if call.seq >= WORN_NUMBER {
        return Some(call.seq);
    }
    too_great(session.seen())
}

// A number that is too great.
fn too_great(number: u64) -> Option<u64>
    ensures { result ≡ refusals.too_great refusals.WORN_NUMBER number }
{
    if number >= WORN_NUMBER {
        return Some(number);
    }
    None
}

// Why a client cannot take a message that was looked up: it is for another node, or the client was not added.
fn take_refusal(parts: &Parts, arrival: &Arrival, client: u32) -> Option<StepError>
    ensures { result ≡ refusals.accept_refusal (world_of parts.now []) arrival.now.number client (Some arrival.now.message) }
{
    if !is_for(client, arrival.message.to) {
        return Some(StepError::Address(arrival.number));
    }
    if !parts.ledger.is_added(client) {
        return Some(StepError::Stranger(client));
    }
    None
}

// Whether a node is this client.
fn is_for(client: u32, node: Node) -> bool
    ensures { result ≡ refusals.is_for client node }
{
    match node {
        Node::Client(other) => other == client,
        _ => false,
    }
}

// Whether a client's call, with what it has seen, is the last that it asked here, and has no accepted record.
fn is_asked(ledger: &LedgerLane, session: &Session, call: &Call) -> bool
    ensures { result ≡ calls.is_asked ledger.now session.now call.now }
{
    is_last(call, session.seen(), ledger.last_call(session.client()))
        && !ledger.is_accepted(session.client(), call.seq)
}

// Whether a call, with what its client has seen, is the last that this client asked.
fn is_last(call: &Call, seen: u64, last: Option<&LastCall>) -> bool
    ensures { result ≡ calls.is_last call.now seen (option_copied last.entry) }
{
    match last {
        Some(asked) => is_call(&asked.call, call) && asked.seen == seen,
        None => false,
    }
}

// Whether two calls are one.
fn is_call(a: &Call, b: &Call) -> bool
    ensures { result ≡ calls.is_call a.now b.now }
{
    a.client == b.client
        && a.seq == b.seq
        && a.table == b.table
        && a.key == b.key
        && is_op(&a.op, &b.op)
}

// Whether two operations are one.
fn is_op(a: &Op, b: &Op) -> bool
    ensures { result ≡ calls.is_op a.now b.now }
{
    match (a, b) {
        (Op::Get, Op::Get) => true,
        (Op::Put(value), Op::Put(other)) => value == other,
        (Op::CondPut(expected, value), Op::CondPut(version, other)) => {
            expected == version && value == other
        }
        (Op::Delete, Op::Delete) => true,
        _ => false,
    }
}

// Whether a lane takes a new call of a client: it was asked none, or the call that it was asked is older and accepted.
fn is_next(ledger: &LedgerLane, session: &Session, call: &Call) -> bool
    ensures { result ≡ calls.is_next ledger.now session.now call.now (asked_by ledger.now session.now.client) }
{
    let client = session.client();
    match ledger.last_call(client) {
        Some(asked) => asked.call.seq < call.seq && ledger.is_accepted(client, asked.call.seq),
        None => true,
    }
}

// A client takes its turn in a lane that its session fits. `NoMemory` alone comes.
fn take_turn(parts: &mut Parts, session: &mut Session) -> Result<Seen, StepError>
    requires { MayTurn parts.old session.old }
    ensures ok { IfOk result (IsVisited (λ w. calls.ask w session.old) parts.old parts.new session.new) }
    ensures memory { IfErr result (λ e. e ≡ StepError.NoMemory) }
    ensures parts { OnErr result (parts.new ≡ parts.old) }
    ensures turned { OnErr result (MayHaveTurned session.old session.new) }
{
    let (client, seen) = (session.client(), session.seen());
    let Ok(last) = to_note(&parts.ledger, session) else {
        return Err(StepError::NoMemory);
    };
    let Ok(message) = turn(session) else {
        return Err(StepError::NoMemory);
    };
    let Ok(number) = send_one(&mut parts.wire, &message) else {
        return Err(StepError::NoMemory);
    };
    note(&mut parts.ledger, client, last);
    save(&mut parts.ledger, client, request_in(message));
    parts.raise(seen);
    parts.raise(number);
    Ok(one_sent(number))
}

// What a call that a client asks is noted by, if it was not asked yet.
fn to_note(ledger: &LedgerLane, session: &Session) -> Result<Option<LastCall>, NoMemory>
    ensures last { IfOk result (λ last. last ≡ last_to_note ledger.now session.now session.now.outstanding) }
    ensures room { IfOk result (λ last. IfSome last (λ _. ledger.now.asked < 2 ^ 64 - 1)) }
{
    let Some(call) = session.outstanding() else {
        return Ok(None);
    };
    if is_asked(ledger, session, call) {
        return Ok(None);
    }
    if ledger.asked() == u64::MAX {
        return Err(NoMemory);
    }
    let last = noting(call, session.seen())?;
    Ok(Some(last))
}

// What a call is noted by, of a client that has seen this stamp.
fn noting(call: &Call, seen: u64) -> Result<LastCall, NoMemory>
    ensures { IfOk result (λ last. last ≡ record { call = call.now; seen = seen }) }
{
    let call = call.duplicate()?;
    Ok(LastCall { call, seen })
}

// What a client sends on its turn; `NoMemory` comes also if no call is outstanding.
fn turn(session: &mut Session) -> Result<Message, NoMemory>
    ensures ok { IfOk result (λ message. session_turn session.old ≡ Some (record { session = session.new; message = message })) }
    ensures err { OnErr result (MayHaveTurned session.old session.new) }
{
    let message = session.turn()?;
    message.ok_or(NoMemory)
}

// A message, if it is a request.
fn request_in(message: Message) -> Option<Message>
    ensures { result ≡ request_told message message.body }
{
    match &message.body {
        Body::Request(_) => Some(message),
        _ => None,
    }
}

// Puts a message on the wire, and answers its number. After `NoMemory`, which comes also if the message is too long for a
// frame, the wire is as it was.
fn send_one(wire: &mut Wire, message: &Message) -> Result<u64, NoMemory>
    requires { IsFitToSend wire.old (message.now ∷ []) }
    ensures number { IfOk result (λ number. number ≡ wire.old.sent + 1) }
    ensures sent { OnOk result (wire.new ≡ with_message message.now wire.old) }
    ensures err { OnErr result (wire.new ≡ wire.old) }
{
    if !is_short(&message.body) {
        return Err(NoMemory);
    }
    wire.send(message)
}

// Notes a call as its client's last, if there is one to note. Takes no memory.
fn note(ledger: &mut LedgerLane, client: u32, last: Option<LastCall>)
    requires added { is_added ledger.old client ≡ true }
    requires room { IfSome last (λ _. ledger.old.asked < 2 ^ 64 - 1) }
    ensures { ledger.new ≡ noted ledger.old client last }
{
    let Some(last) = last else {
        return;
    };
    ledger.ask(client, last);
}

// Saves a request as its client's last, if there is one. Takes no memory.
fn save(ledger: &mut LedgerLane, client: u32, request: Option<Message>)
    requires { is_added ledger.old client ≡ true }
    ensures { ledger.new ≡ saved ledger.old client request }
{
    let Some(request) = request else {
        return;
    };
    ledger.save(client, request);
}

// What is seen when one message was sent, under this number.
fn one_sent(number: u64) -> Seen
    ensures { result ≡ record { first = number; sent = 1; lost = false; taken = None } }
{
    Seen {
        first: number,
        sent: 1,
        lost: false,
        taken: None,
    }
}

// A client takes a message; if that answers its call, the record is accepted. Takes no memory.
fn take_message(ledger: &mut LedgerLane, session: &mut Session, message: Message) -> Taken
    ensures taken { result ≡ (session_accept session.old message.body).taken }
    ensures session { session.new ≡ (session_accept session.old message.body).session }
    ensures ledger { ledger.new ≡ calls.ledger_taken ledger.old message.body (session_accept session.old message.body).taken }
{
    let place = place_in(&message.body);
    let taken = session.accept(message);
    accept_record(ledger, place, &taken);
    taken
}

// The place of the record, as a reply gives it.
fn place_in(body: &Body) -> Option<u64>
    ensures { result ≡ place_told body.now }
{
    match body {
        Body::Reply(reply) => Some(reply.place),
        _ => None,
    }
}

// The record at the place that a reply gave is accepted, if the client took the reply for the answer to its call. Takes no memory.
fn accept_record(ledger: &mut LedgerLane, place: Option<u64>, taken: &Taken)
    ensures { ledger.new ≡ accepted_by ledger.old place taken.now }
{
    let Some(place) = place else {
        return;
    };
    let Taken::Done = taken else {
        return;
    };
    ledger.accept(place);
}

// What is seen when a client took a message.
fn took(taken: Taken) -> Seen
    ensures { result ≡ record { first = 0; sent = 0; lost = false; taken = Some taken } }
{
    Seen {
        first: 0,
        sent: 0,
        lost: false,
        taken: Some(taken),
    }
}
