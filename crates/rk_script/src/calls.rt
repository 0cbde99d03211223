ghost use Rattle.std.specs.Prelude.{◌≡◌, map, IfErr, IfOk, length};
ghost use Rattle.rk_script.specs.Commands.{asked, call_of, call_with, key_of, last_value, op_of, takes, value_of};
ghost use Rattle.rk_script.specs.Refusals.{IsRefusalOf};

use crate::code::Code;
use crate::command::Command;
use crate::names::{Operation, read_operation};
use crate::numbers;
use crate::refusal::LineError;
use rk_types::{Key, Op, TextError, Value};
use std::alloc::Global;

// The key with these bytes.
fn key(alloc: Global, word: &[u8]) -> Result<Key, LineError>
    ensures ok { IfOk result (λ key. key_of word.now ≡ Ok key) }
    ensures err { IfErr result (λ e. IsRefusalOf e (key_of word.now)) }
{
    match Key::new(alloc, word) {
        Ok(key) => Ok(key),
        Err(TextError::Length(_)) => Err(LineError::Refused(Code::KeyLength)),
        Err(TextError::Byte(_)) => Err(LineError::Refused(Code::BadByte)),
        Err(TextError::NoMemory) => Err(LineError::NoMemory),
    }
}

// The value with these bytes.
fn value(alloc: Global, word: &[u8]) -> Result<Value, LineError>
    ensures ok { IfOk result (λ value. value_of word.now ≡ Ok value) }
    ensures err { IfErr result (λ e. IsRefusalOf e (value_of word.now)) }
{
    match Value::new(alloc, word) {
        Ok(value) => Ok(value),
        Err(TextError::Length(_)) => Err(LineError::Refused(Code::ValueLength)),
        Err(TextError::Byte(_)) => Err(LineError::Refused(Code::BadByte)),
        Err(TextError::NoMemory) => Err(LineError::NoMemory),
    }
}

// The value that these words begin with, empty if there is none.
fn value_or_empty(alloc: Global, words: &[&[u8]]) -> Result<Value, LineError>
    ensures ok { IfOk result (λ value. last_value (map (λ word. word.now) words.now) ≡ Ok value) }
    ensures err { IfErr result (λ e. IsRefusalOf e (last_value (map (λ word. word.now) words.now))) }
{
    match words {
        [] => value(alloc, b""),
        [word, ..] => value(alloc, word),
    }
}

// Whether an operation takes so many words after the key.
fn is_count(operation: Operation, count: usize) -> bool
    ensures { result ≡ takes operation count }
{
    match operation {
        Operation::Get | Operation::Delete => count == 0,
        Operation::Put => count <= 1,
        Operation::CondPut => count == 1 || count == 2,
    }
}

// A conditional put, of a version and a value.
fn conditional_put(alloc: Global, words: &[&[u8]]) -> Result<Op, LineError>
    ensures ok { IfOk result (λ op. op_of Operation.CondPut (map (λ word. word.now) words.now) ≡ Ok op) }
    ensures err { IfErr result (λ e. IsRefusalOf e (op_of Operation.CondPut (map (λ word. word.now) words.now))) }
{
    let [version, rest @ ..] = words else {
        return Err(LineError::Refused(Code::WordCount));
    };
    let version = numbers::version(version)?;
    let value = value_or_empty(alloc, rest)?;
    Ok(Op::CondPut(version, value))
}

// An operation with the words after the key.
fn op(alloc: Global, operation: Operation, words: &[&[u8]]) -> Result<Op, LineError>
    ensures ok { IfOk result (λ op. op_of operation (map (λ word. word.now) words.now) ≡ Ok op) }
    ensures err { IfErr result (λ e. IsRefusalOf e (op_of operation (map (λ word. word.now) words.now))) }
{
    match operation {
        Operation::Get => Ok(Op::Get),
        Operation::Put => Ok(Op::Put(value_or_empty(alloc, words)?)),
        Operation::CondPut => conditional_put(alloc, words),
        Operation::Delete => Ok(Op::Delete),
    }
}

// A call, its words read from the left.
fn ask(
    alloc: Global,
    operation: Operation,
    client: &[u8],
    table: &[u8],
    key_word: &[u8],
    words: &[&[u8]],
) -> Result<Command, LineError>
    ensures ok { IfOk result (λ command. asked operation client.now table.now key_word.now (map (λ word. word.now) words.now) ≡ Ok command) }
    ensures err { IfErr result (λ e. IsRefusalOf e (asked operation client.now table.now key_word.now (map (λ word. word.now) words.now))) }
{
    let client = numbers::client(client)?;
    let table = numbers::table(table)?;
    let key = key(alloc, key_word)?;
    let op = op(alloc, operation, words)?;
    Ok(Command::Call {
        client,
        table,
        key,
        op,
    })
}

// The words of a call after its operation.
fn call_after(
    alloc: Global,
    operation: Operation,
    client: &[u8],
    words: &[&[u8]],
) -> Result<Command, LineError>
    ensures ok { IfOk result (λ command. call_with operation client.now (map (λ word. word.now) words.now) ≡ Ok command) }
    ensures err { IfErr result (λ e. IsRefusalOf e (call_with operation client.now (map (λ word. word.now) words.now))) }
{
    let [table, key, rest @ ..] = words else {
        return Err(LineError::Refused(Code::WordCount));
    };
    if !is_count(operation, rest.len()) {
        return Err(LineError::Refused(Code::WordCount));
    }
    ask(alloc, operation, client, table, key, rest)
}

/// The command that `call` says with these words after it.
pub fn call(alloc: Global, words: &[&[u8]]) -> Result<Command, LineError>
    ensures ok { IfOk result (λ command. call_of (map (λ word. word.now) words.now) ≡ Ok command) }
    ensures err { IfErr result (λ e. IsRefusalOf e (call_of (map (λ word. word.now) words.now))) }
{
    let [client, name, rest @ ..] = words else {
        return Err(LineError::Refused(Code::WordCount));
    };
    let operation = read_operation(name)?;
    call_after(alloc, operation, client, rest)
}
