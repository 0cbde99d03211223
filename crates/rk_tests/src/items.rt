ghost use Rattle.std.specs.Prelude.{◌≤◌, ◌+◌, length, IfOk};
ghost use Rattle.rk_entry.specs.Lawful.{IsLawfulHeld};
ghost use Rattle.rk_message.specs.Calls.{IsLawfulOp};
ghost use Rattle.rk_table.specs.Sorted.{items_of};

use rk_table::{RecordTable, SortedTable};
use rk_types::{
    Call, End, Ended, Held, Key, Listed, NoMemory, Op, Outcome, Range, TextError, Value,
};
use std::alloc::Global;

/// All of table 1.
pub const WHOLE: Range = Range {
    table: 1,
    first: 0,
    last: u64::MAX,
};

/// An item of table 1, made by client 1 with its version as the seq; it is a tombstone if the value has no bytes.
pub fn item(alloc: Global, key: &[u8], version: u64, value: &[u8]) -> Result<Held, TextError>
    ensures lawful { 1 ≤ version → IfOk result IsLawfulHeld }
{
    let value = if value.is_empty() {
        None
    } else {
        Some(Value::new(alloc, value)?)
    };
    Ok(Held {
        table: 1,
        version,
        client: 1,
        seq: version,
        key: Key::new(alloc, key)?,
        value,
    })
}

/// An operation, with its value as text.
#[derive(Clone, Copy)]
pub enum Asked {
    Get,
    Put(&'static [u8]),
    CondPut(u64, &'static [u8]),
    Delete,
}

/// The operation that is asked.
pub fn op_of(alloc: Global, asked: Asked) -> Result<Op, TextError>
    ensures { IfOk result IsLawfulOp }
{
    Ok(match asked {
        Asked::Get => Op::Get,
        Asked::Put(value) => Op::Put(Value::new(alloc, value)?),
        Asked::CondPut(version, value) => Op::CondPut(version, Value::new(alloc, value)?),
        Asked::Delete => Op::Delete,
    })
}

/// An outcome, with its value as text.
#[derive(Clone, Copy)]
pub enum Told {
    Found(u64, &'static [u8]),
    Absent,
    Written(u64),
    Deleted(u64),
    Mismatch(u64),
}

/// The outcome that is given with its value as text.
pub fn outcome_of(alloc: Global, told: Told) -> Result<Outcome, TextError> {
    Ok(match told {
        Told::Found(version, value) => Outcome::Found(version, Value::new(alloc, value)?),
        Told::Absent => Outcome::Absent,
        Told::Written(version) => Outcome::Written(version),
        Told::Deleted(version) => Outcome::Deleted(version),
        Told::Mismatch(version) => Outcome::Mismatch(version),
    })
}

/// The call of client 1 with this seq for the key `a` of table 1.
pub fn call(alloc: Global, seq: u64, asked: Asked) -> Result<Call, TextError> {
    Ok(Call {
        client: 1,
        seq,
        table: 1,
        key: Key::new(alloc, b"a")?,
        op: op_of(alloc, asked)?,
    })
}

/// The ends of these calls: client, seq and end of each.
pub fn ends(alloc: Global, rows: &[(u32, u64, End)]) -> Result<Listed<Ended>, NoMemory> {
    let mut ends = Listed::new(alloc);
    for (client, seq, end) in rows {
        ends.push(Ended {
            client: *client,
            seq: *seq,
            end: *end,
        })?;
    }
    Ok(ends)
}

/// Puts the item into the table, and answers whether it was newer.
#[tactic(auto, using(rk_table::proofs::Changes::length_after))]
pub fn put(table: &mut SortedTable, item: Held) -> Result<bool, NoMemory>
    ensures { length (items_of table.new) ≤ length (items_of table.old) + 1 }
{
    table.reserve(1)?;
    Ok(table.put_if_newer(item))
}

/// Bytes with some of them spoilt: the place of each, and what is put there.
pub fn spoilt(alloc: Global, bytes: &[u8], rows: &[(usize, u8)]) -> Result<Vec<u8>, NoMemory> {
    let mut bytes = Vec::from_slice(alloc, bytes)?;
    for (place, byte) in rows {
        if let Some(spoilt) = bytes.get_mut(*place) {
            *spoilt = *byte;
        }
    }
    Ok(bytes)
}

/// The first of rows that come one after the other, each behind a byte that gives its length, and the rest.
pub fn split_row(rows: &[u8]) -> Option<(&[u8], &[u8])> {
    let (count, rest) = rows.split_first()?;
    rest.split_at_checked(usize::from(*count))
}
