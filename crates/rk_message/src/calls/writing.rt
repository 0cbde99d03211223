ghost use Rattle.std.specs.Prelude.{◌≡◌, ◌<◌, ◌+◌, ◌++◌, ◌^◌, length};
ghost use Rattle.std.specs.Int.{w8, w64};
ghost use Rattle.rk_entry.specs.Texts.{value_bytes};
ghost use Rattle.rk_entry.specs.Numbers.{number_bytes, HasRoom, Gains};
ghost use Rattle.rk_message.specs.Calls.{op_number, op_bytes, op_count, answer_bytes, told_count, request_bytes, request_count, reply_bytes, reply_count, lookup_bytes, located_bytes};

use crate::calls::{
    ABSENT, COND_PUT, DELETE, DELETED, FOUND, GET, LOCATED_BYTES, LOOKUP_BYTES, Located, Lookup,
    MISMATCH, MOVED, NOT_YET, PUT, REPLY_BYTES, REQUEST_BYTES, Reply, Request, WRITTEN,
};
use rk_entry::fields::{put_key, put_range, put_u8, put_u32, put_u64, put_value};
use rk_types::{Answer, Op, Outcome, Value};

// The number of an operation.
fn op_number(op: &Op) -> u8
    ensures { result ≡ op_number op.now }
{
    match op {
        Op::Get => GET,
        Op::Put(_) => PUT,
        Op::CondPut(_, _) => COND_PUT,
        Op::Delete => DELETE,
    }
}

// Puts what follows the key of a request at the end.
fn put_op(into: &mut Vec<u8>, op: &Op)
    requires { HasRoom into.old (op_count op.now) }
    ensures { Gains into.old into.new (op_bytes op.now) (op_count op.now) }
{
    match op {
        Op::Get | Op::Delete => {}
        Op::Put(value) => put_value(into, value),
        Op::CondPut(expected, value) => {
            put_u64(into, *expected);
            put_value(into, value);
        }
    }
}

/// Puts a Request at the end.
#[tactic(auto, unfolding(crate::specs::Calls::request_bytes, crate::specs::Calls::asked_bytes))]
pub fn put_request(into: &mut Vec<u8>, request: &Request)
    requires { HasRoom into.old (request_count request.now) }
    ensures { Gains into.old into.new (request_bytes request.now) (request_count request.now) }
{
    put_u32(into, request.tablet);
    put_u64(into, request.seq);
    put_u64(into, request.seen);
    put_u8(into, op_number(&request.op));
    put_u64(into, request.table);
    put_key(into, &request.key);
    put_op(into, &request.op);
}

// Puts the version and the value of a record at the end.
fn put_found(into: &mut Vec<u8>, version: u64, value: &Value)
    requires { HasRoom into.old (8 + (4 + length value.now)) }
    ensures { Gains into.old into.new (number_bytes w64 version ++ value_bytes value.now) (8 + (4 + length value.now)) }
{
    put_u64(into, version);
    put_value(into, value);
}

// Puts the number of an answer and a version at the end.
fn put_version(into: &mut Vec<u8>, number: u8, version: u64)
    requires { HasRoom into.old 9 }
    ensures { Gains into.old into.new (number_bytes w8 number ++ number_bytes w64 version) 9 }
{
    put_u8(into, number);
    put_u64(into, version);
}

// Puts an answer at the end.
#[tactic(auto, unfolding(crate::specs::Calls::answer_bytes))]
fn put_answer(into: &mut Vec<u8>, answer: &Answer)
    requires { HasRoom into.old (1 + told_count answer.now) }
    ensures { Gains into.old into.new (answer_bytes answer.now) (1 + told_count answer.now) }
{
    match answer {
        Answer::Done(Outcome::Found(version, value)) => {
            put_u8(into, FOUND);
            put_found(into, *version, value);
        }
        Answer::Done(Outcome::Absent) => put_u8(into, ABSENT),
        Answer::Done(Outcome::Written(version)) => put_version(into, WRITTEN, *version),
        Answer::Done(Outcome::Deleted(version)) => put_version(into, DELETED, *version),
        Answer::Done(Outcome::Mismatch(version)) => put_version(into, MISMATCH, *version),
        Answer::Moved(tablet) => {
            put_u8(into, MOVED);
            put_u32(into, *tablet);
        }
        Answer::NotYet(key) => {
            put_u8(into, NOT_YET);
            put_key(into, key);
        }
    }
}

/// Puts a Reply at the end.
#[tactic(auto, unfolding(crate::specs::Calls::reply_bytes))]
pub fn put_reply(into: &mut Vec<u8>, reply: &Reply)
    requires { HasRoom into.old (reply_count reply.now) }
    ensures { Gains into.old into.new (reply_bytes reply.now) (reply_count reply.now) }
{
    put_u64(into, reply.seq);
    put_u64(into, reply.stamp);
    put_u64(into, reply.place);
    put_answer(into, &reply.answer);
}

/// Puts a Lookup at the end.
#[tactic(auto, unfolding(crate::specs::Calls::lookup_bytes))]
pub fn put_lookup(into: &mut Vec<u8>, lookup: &Lookup)
    requires { HasRoom into.old LOOKUP_BYTES }
    ensures { Gains into.old into.new (lookup_bytes lookup.now) LOOKUP_BYTES }
{
    put_u64(into, lookup.table);
    put_u64(into, lookup.hash);
}

/// Puts a Located at the end.
#[tactic(auto, unfolding(crate::specs::Calls::located_bytes, crate::specs::Calls::owner_bytes))]
pub fn put_located(into: &mut Vec<u8>, located: &Located)
    requires { HasRoom into.old LOCATED_BYTES }
    ensures { Gains into.old into.new (located_bytes located.now) LOCATED_BYTES }
{
    put_u32(into, located.tablet);
    put_range(into, &located.range);
    put_u8(into, located.owner.unwrap_or(0));
}

// How many bytes follow the key of a request.
fn op_len(op: &Op) -> u32
    requires { op_count op.now < 2 ^ 32 }
    ensures { result ≡ op_count op.now }
{
    match op {
        Op::Get | Op::Delete => 0,
        Op::Put(value) => 4 + value.bytes().len() as u32,
        Op::CondPut(_, value) => 12 + value.bytes().len() as u32,
    }
}

/// How many bytes the fields of a Request take.
pub fn request_len(request: &Request) -> u32
    requires { request_count request.now < 2 ^ 32 }
    ensures { result ≡ request_count request.now }
{
    REQUEST_BYTES + request.key.bytes().len() as u32 + op_len(&request.op)
}

// How many bytes follow the number of an answer.
fn told_len(answer: &Answer) -> u32
    requires { told_count answer.now < 2 ^ 32 }
    ensures { result ≡ told_count answer.now }
{
    match answer {
        Answer::Done(Outcome::Found(_, value)) => 12 + value.bytes().len() as u32,
        Answer::Done(Outcome::Absent) => 0,
        Answer::Done(Outcome::Written(_) | Outcome::Deleted(_) | Outcome::Mismatch(_)) => 8,
        Answer::Moved(_) => 4,
        Answer::NotYet(key) => 1 + key.bytes().len() as u32,
    }
}

/// How many bytes the fields of a Reply take.
pub fn reply_len(reply: &Reply) -> u32
    requires { reply_count reply.now < 2 ^ 32 }
    ensures { result ≡ reply_count reply.now }
{
    REPLY_BYTES + told_len(&reply.answer)
}
