ghost use Rattle.std.specs.Prelude.{◌≡◌};
ghost use Rattle.rk_types.specs.declared.call.Op.TheVariants.{Get, Delete};
ghost use Rattle.rk_entry.specs.Steps.{Gives};
ghost use Rattle.rk_message.specs.Calls.{read_op_number, read_bare, read_put, read_cond_put, read_op, read_asked, read_request, read_found, read_absent, read_told, read_answer, read_reply, read_lookup, read_owner, read_located};

use crate::calls::{
    ABSENT, Asked, COND_PUT, DELETE, DELETED, FOUND, GET, Located, Lookup, MISMATCH, MOVED,
    NOT_YET, PUT, REPLY_BYTES, REQUEST_BYTES, Reply, Request, WRITTEN,
};
use crate::fields::read_any_range;
use crate::texts::{read_any_key, read_last_key, read_last_u32, read_last_u64, read_last_value};
use rk_entry::fields::{read_u8, read_u32, read_u64};
use rk_entry::{BAD_BODY_LENGTH, BAD_CHOICE, DecodeError};
use rk_types::{Answer, Op, Outcome};
use std::alloc::Global;

// The number of an operation.
#[tactic(auto, unfolding(crate::specs::Calls::read_op_number))]
fn read_op_number(bytes: &[u8]) -> Result<(u8, &[u8]), DecodeError>
    ensures { Gives (λ x. (x.0, x.1.now)) result (read_op_number bytes.now) }
{
    let (number, rest) = read_u8(bytes)?;
    if number < GET || number > DELETE {
        return Err(DecodeError::Bad(BAD_CHOICE));
    }
    Ok((number, rest))
}

// A key alone, of which a get or a delete is asked.
#[tactic(auto, unfolding(crate::specs::Calls::read_bare))]
fn read_bare(
    alloc: Global,
    op: Op,
    table: u64,
    size: u32,
    bytes: &[u8],
) -> Result<(Asked, &[u8]), DecodeError>
    ensures { Gives (λ x. (x.0, x.1.now)) result (read_bare op table size bytes.now) }
{
    let (key, rest) = read_last_key(alloc, REQUEST_BYTES, size, bytes)?;
    Ok((Asked { table, key, op }, rest))
}

// A key and the value to write.
#[tactic(auto, unfolding(crate::specs::Calls::read_put))]
fn read_put(
    alloc: Global,
    table: u64,
    size: u32,
    bytes: &[u8],
) -> Result<(Asked, &[u8]), DecodeError>
    ensures { Gives (λ x. (x.0, x.1.now)) result (read_put table size bytes.now) }
{
    let (key, rest) = read_any_key(alloc, bytes)?;
    let first = REQUEST_BYTES + key.bytes().len() as u32 + 4;
    let (value, rest) = read_last_value(alloc, first, size, rest)?;
    let op = Op::Put(value);
    Ok((Asked { table, key, op }, rest))
}

// A key, the version that is expected and the value to write.
#[tactic(auto, unfolding(crate::specs::Calls::read_cond_put))]
fn read_cond_put(
    alloc: Global,
    table: u64,
    size: u32,
    bytes: &[u8],
) -> Result<(Asked, &[u8]), DecodeError>
    ensures { Gives (λ x. (x.0, x.1.now)) result (read_cond_put table size bytes.now) }
{
    let (key, rest) = read_any_key(alloc, bytes)?;
    let first = REQUEST_BYTES + key.bytes().len() as u32 + 12;
    let (expected, rest) = read_u64(rest)?;
    let (value, rest) = read_last_value(alloc, first, size, rest)?;
    let op = Op::CondPut(expected, value);
    Ok((Asked { table, key, op }, rest))
}

// What the operation of this number asks of a record of the table.
#[tactic(auto, unfolding(crate::specs::Calls::read_op))]
fn read_op(
    alloc: Global,
    number: u8,
    table: u64,
    size: u32,
    bytes: &[u8],
) -> Result<(Asked, &[u8]), DecodeError>
    ensures { Gives (λ x. (x.0, x.1.now)) result (read_op number table size bytes.now) }
{
    match number {
        GET => read_bare(alloc, Op::Get, table, size, bytes),
        PUT => read_put(alloc, table, size, bytes),
        COND_PUT => read_cond_put(alloc, table, size, bytes),
        DELETE => read_bare(alloc, Op::Delete, table, size, bytes),
        _ => Err(DecodeError::Bad(BAD_CHOICE)),
    }
}

// What is asked of which record.
#[tactic(auto, unfolding(crate::specs::Calls::read_asked))]
fn read_asked(alloc: Global, size: u32, bytes: &[u8]) -> Result<(Asked, &[u8]), DecodeError>
    ensures { Gives (λ x. (x.0, x.1.now)) result (read_asked size bytes.now) }
{
    let (number, rest) = read_op_number(bytes)?;
    let (table, rest) = read_u64(rest)?;
    read_op(alloc, number, table, size, rest)
}

/// A Request of `size` bytes, and the bytes after it.
#[tactic(auto, unfolding(crate::specs::Calls::read_request))]
pub fn read_request(alloc: Global, size: u32, bytes: &[u8]) -> Result<(Request, &[u8]), DecodeError>
    ensures { Gives (λ x. (x.0, x.1.now)) result (read_request size bytes.now) }
{
    let (tablet, rest) = read_u32(bytes)?;
    let (seq, rest) = read_u64(rest)?;
    let (seen, rest) = read_u64(rest)?;
    let (asked, rest) = read_asked(alloc, size, rest)?;
    let request = Request {
        tablet,
        seq,
        seen,
        table: asked.table,
        key: asked.key,
        op: asked.op,
    };
    Ok((request, rest))
}

// The version and the value of a record.
#[tactic(auto, unfolding(crate::specs::Calls::read_found))]
fn read_found(alloc: Global, size: u32, bytes: &[u8]) -> Result<(Answer, &[u8]), DecodeError>
    ensures { Gives (λ x. (x.0, x.1.now)) result (read_found size bytes.now) }
{
    let (version, rest) = read_u64(bytes)?;
    let (value, rest) = read_last_value(alloc, REPLY_BYTES + 12, size, rest)?;
    Ok((Answer::Done(Outcome::Found(version, value)), rest))
}

// Nothing more after the number of the answer that no record was there.
#[tactic(auto, unfolding(crate::specs::Calls::read_absent))]
fn read_absent(size: u32, bytes: &[u8]) -> Result<(Answer, &[u8]), DecodeError>
    ensures { Gives (λ x. (x.0, x.1.now)) result (read_absent size bytes.now) }
{
    if size != REPLY_BYTES {
        return Err(DecodeError::Bad(BAD_BODY_LENGTH));
    }
    Ok((Answer::Done(Outcome::Absent), bytes))
}

// The answer of this number.
#[tactic(auto, unfolding(crate::specs::Calls::read_told, crate::specs::Calls::read_version, crate::specs::Calls::read_moved, crate::specs::Calls::read_not_yet))]
fn read_told(
    alloc: Global,
    number: u8,
    size: u32,
    bytes: &[u8],
) -> Result<(Answer, &[u8]), DecodeError>
    ensures { Gives (λ x. (x.0, x.1.now)) result (read_told number size bytes.now) }
{
    match number {
        FOUND => read_found(alloc, size, bytes),
        ABSENT => read_absent(size, bytes),
        WRITTEN => {
            let (version, rest) = read_last_u64(REPLY_BYTES + 8, size, bytes)?;
            Ok((Answer::Done(Outcome::Written(version)), rest))
        }
        DELETED => {
            let (version, rest) = read_last_u64(REPLY_BYTES + 8, size, bytes)?;
            Ok((Answer::Done(Outcome::Deleted(version)), rest))
        }
        MISMATCH => {
            let (version, rest) = read_last_u64(REPLY_BYTES + 8, size, bytes)?;
            Ok((Answer::Done(Outcome::Mismatch(version)), rest))
        }
        MOVED => {
            let (tablet, rest) = read_last_u32(REPLY_BYTES + 4, size, bytes)?;
            Ok((Answer::Moved(tablet), rest))
        }
        NOT_YET => {
            let (key, rest) = read_last_key(alloc, REPLY_BYTES + 1, size, bytes)?;
            Ok((Answer::NotYet(key), rest))
        }
        _ => Err(DecodeError::Bad(BAD_CHOICE)),
    }
}

// An answer.
#[tactic(auto, unfolding(crate::specs::Calls::read_answer))]
fn read_answer(alloc: Global, size: u32, bytes: &[u8]) -> Result<(Answer, &[u8]), DecodeError>
    ensures { Gives (λ x. (x.0, x.1.now)) result (read_answer size bytes.now) }
{
    let (number, rest) = read_u8(bytes)?;
    read_told(alloc, number, size, rest)
}

/// A Reply of `size` bytes, and the bytes after it.
#[tactic(auto, unfolding(crate::specs::Calls::read_reply))]
pub fn read_reply(alloc: Global, size: u32, bytes: &[u8]) -> Result<(Reply, &[u8]), DecodeError>
    ensures { Gives (λ x. (x.0, x.1.now)) result (read_reply size bytes.now) }
{
    let (seq, rest) = read_u64(bytes)?;
    let (stamp, rest) = read_u64(rest)?;
    let (place, rest) = read_u64(rest)?;
    let (answer, rest) = read_answer(alloc, size, rest)?;
    let reply = Reply {
        seq,
        stamp,
        place,
        answer,
    };
    Ok((reply, rest))
}

/// A Lookup, and the bytes after it.
#[tactic(auto, unfolding(crate::specs::Calls::read_lookup))]
pub fn read_lookup(bytes: &[u8]) -> Result<(Lookup, &[u8]), DecodeError>
    ensures { Gives (λ x. (x.0, x.1.now)) result (read_lookup bytes.now) }
{
    let (table, rest) = read_u64(bytes)?;
    let (hash, rest) = read_u64(rest)?;
    Ok((Lookup { table, hash }, rest))
}

// The owner of a tablet, none if the number is 0.
#[tactic(auto, unfolding(crate::specs::Calls::read_owner))]
fn read_owner(bytes: &[u8]) -> Result<(Option<u8>, &[u8]), DecodeError>
    ensures { Gives (λ x. (x.0, x.1.now)) result (read_owner bytes.now) }
{
    match read_u8(bytes)? {
        (0, rest) => Ok((None, rest)),
        (owner, rest) => Ok((Some(owner), rest)),
    }
}

/// A Located, and the bytes after it.
#[tactic(auto, unfolding(crate::specs::Calls::read_located))]
pub fn read_located(bytes: &[u8]) -> Result<(Located, &[u8]), DecodeError>
    ensures { Gives (λ x. (x.0, x.1.now)) result (read_located bytes.now) }
{
    let (tablet, rest) = read_u32(bytes)?;
    let (range, rest) = read_any_range(rest)?;
    let (owner, rest) = read_owner(rest)?;
    let located = Located {
        tablet,
        range,
        owner,
    };
    Ok((located, rest))
}
