// The calls of a drive.
ghost use Rattle.std.specs.Prelude.{◌≡◌, ◌<◌, ◌≤◌, ◌-◌, ◌%◌, ◌^◌, IfOk};
ghost use Rattle.rk_workload.specs.Workload.{call_of, key_of, op_at, value_of};

use crate::words::push_numbered;
use rk_types::{Call, Key, NoMemory, Op, TextError, Value};
use std::alloc::Global;

/// The one table of a drive.
pub const TABLE: u64 = 1;

/// The one tablet of that table.
pub const TABLET: u32 = 1;

/// A client's call of this number, the first of which is 1, if the clients use so many keys.
pub fn call(alloc: Global, keys: u32, client: u32, seq: u32) -> Result<Call, NoMemory>
    requires keys { 0 < keys }
    requires seq { 1 ≤ seq }
    ensures { IfOk result (λ call. call ≡ call_of keys client seq) }
{
    let seq = u64::from(seq);
    Ok(Call {
        client,
        seq,
        table: TABLE,
        key: key(alloc, keys, client, seq)?,
        op: op(alloc, client, seq)?,
    })
}

// The key of a call.
fn key(alloc: Global, keys: u32, client: u32, seq: u64) -> Result<Key, NoMemory>
    requires keys { 0 < keys }
    requires seq { seq < 2 ^ 32 }
    ensures { IfOk result (λ key. key ≡ key_of keys client seq) }
{
    let number = (7 * seq + 13 * u64::from(client)) % u64::from(keys);
    let mut text = Vec::new(alloc);
    push_numbered(&mut text, b"k", number)?;
    Key::new(alloc, text.as_slice()).map_err(|_: TextError| NoMemory)
}

// The value of a call that writes.
fn value(alloc: Global, client: u32, seq: u64) -> Result<Value, NoMemory>
    ensures { IfOk result (λ value. value ≡ value_of client seq) }
{
    let mut text = Vec::new(alloc);
    push_numbered(&mut text, b"v", u64::from(client))?;
    push_numbered(&mut text, b"_", seq)?;
    Value::new(alloc, text.as_slice()).map_err(|_: TextError| NoMemory)
}

// What a call asks.
fn op(alloc: Global, client: u32, seq: u64) -> Result<Op, NoMemory>
    requires { 1 ≤ seq }
    ensures { IfOk result (λ op. op ≡ op_at ((seq - 1) % 8) client seq) }
{
    Ok(match (seq - 1) % 8 {
        0 | 3 | 6 => Op::Put(value(alloc, client, seq)?),
        2 => Op::CondPut(seq % 3, value(alloc, client, seq)?),
        5 => Op::Delete,
        _ => Op::Get,
    })
}
