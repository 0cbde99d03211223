// What requests and choices are made into: the call, its entry, and the answer to its client.
ghost use Rattle.std.specs.Prelude.{◌≡◌, IfOk};
ghost use Rattle.rk_world.specs.Master.{Master};
ghost use Rattle.rk_world.specs.Requests as requests;

use rk_entry::{Entry, Refused};
use rk_message::{Body, Message, Reply, Request};
use rk_types::{Answer, Call, Held, NoMemory, Node, Op, Value};

/// The call that a request of a client asks.
pub(crate) fn call_of(client: u32, request: Request) -> Call
    ensures { result ≡ requests.call_of client request }
{
    Call {
        client,
        seq: request.seq,
        table: request.table,
        key: request.key,
        op: request.op,
    }
}

/// An answer of the master of this number to the client of a call; stamp and place are filled in where the call's record
/// is made.
pub(crate) fn answering(number: u8, call: &Call, answer: Answer) -> Message
    ensures { (master : Master) → master.number ≡ number → result ≡ requests.answering master call.now answer }
{
    Message {
        from: Node::Master(number),
        to: Node::Client(call.client),
        body: Body::Reply(Reply {
            seq: call.seq,
            stamp: 0,
            place: 0,
            answer,
        }),
    }
}

// The value that an operation writes, in a copy of its own.
fn value_written(op: &Op) -> Result<Option<Value>, NoMemory>
    ensures { IfOk result (λ value. value ≡ requests.value_written op.now) }
{
    match op {
        Op::Put(value) | Op::CondPut(_, value) => Ok(Some(value.duplicate()?)),
        Op::Get | Op::Delete => Ok(None),
    }
}

/// The item that a write or a removal leaves.
pub(crate) fn item_of(call: &Call, version: u64) -> Result<Held, NoMemory>
    ensures { IfOk result (λ item. item ≡ requests.item_of call.now version (requests.value_written call.now.op)) }
{
    Ok(Held {
        table: call.table,
        version,
        client: call.client,
        seq: call.seq,
        key: call.key.duplicate()?,
        value: value_written(&call.op)?,
    })
}

/// The refusal that a mutation leaves.
pub(crate) fn refusal_of(call: &Call, found: u64, absent: bool) -> Result<Entry, NoMemory>
    ensures { IfOk result (λ entry. entry ≡ requests.refusal_of call.now found absent) }
{
    Ok(Entry::Refused(Refused {
        table: call.table,
        found,
        client: call.client,
        seq: call.seq,
        absent,
        key: call.key.duplicate()?,
    }))
}
