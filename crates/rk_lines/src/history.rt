// The history of a cluster, in lines.
ghost use Rattle.std.specs.Prelude.{◌≡◌, ◌++◌, OnOk};
ghost use Rattle.rk_lines.specs.History.{asked_text, entry_line, history_lines, name_text};

use crate::words::{push_call_name, push_numbered, push_outcome, push_value, push_words};
use rk_model::Line;
use rk_types::{Key, NoMemory, Op};

/// Adds a line for each record of a history, in their order. After `NoMemory` a part of the lines may have been written.
pub fn push_history(text: &mut Vec<u8>, history: &[Line]) -> Result<(), NoMemory>
    ensures { OnOk result (text.new.items ≡ text.old.items ++ history_lines history.now) }
{
    for line in history {
        push_entry(text, line)?;
    }
    Ok(())
}

/// Adds the line of a record of the history. After `NoMemory` a part of it may have been written.
pub fn push_entry(text: &mut Vec<u8>, line: &Line) -> Result<(), NoMemory>
    ensures { OnOk result (text.new.items ≡ text.old.items ++ entry_line line.now) }
{
    let placed = &line.placed;
    push_numbered(text, b"entry ", placed.stamp)?;
    push_numbered(text, b" ", u64::from(line.lane))?;
    push_call_name(text, b" ", placed.call.client, placed.call.seq)?;
    text.push(b' ')?;
    push_asked(text, &placed.call.op, placed.call.table, &placed.call.key)?;
    text.extend_from_slice(b" gives ")?;
    push_outcome(text, &placed.outcome)?;
    text.push(b'\n')?;
    Ok(())
}

/// Adds what is asked of a record.
pub fn push_asked(text: &mut Vec<u8>, op: &Op, table: u64, key: &Key) -> Result<(), NoMemory>
    ensures { OnOk result (text.new.items ≡ text.old.items ++ asked_text op.now table key.now) }
{
    match op {
        Op::Get => push_name(text, b"get ", table, key),
        Op::Put(value) => {
            push_name(text, b"put ", table, key)?;
            push_value(text, value)
        }
        Op::CondPut(expected, value) => {
            push_name(text, b"cput ", table, key)?;
            push_numbered(text, b" ", *expected)?;
            push_value(text, value)
        }
        Op::Delete => push_name(text, b"del ", table, key),
    }
}

// Adds some words, and a record by its table and its key.
fn push_name(text: &mut Vec<u8>, words: &[u8], table: u64, key: &Key) -> Result<(), NoMemory>
    ensures { OnOk result (text.new.items ≡ text.old.items ++ (words.now ++ name_text table key.now)) }
{
    push_numbered(text, words, table)?;
    push_words(text, b" ", key.bytes())
}
