// A receipt that no record bears out, in a line.
ghost use Rattle.std.specs.Prelude.{◌≡◌, ◌++◌, OnOk};
ghost use Rattle.std.specs.Option.{option_copied};
ghost use Rattle.rk_lines.specs.Differences.{answer_text, difference_line, kept_text, place_text};

use crate::history::push_asked;
use crate::words::{push_call_name, push_numbered, push_outcome};
use rk_types::{Call, NoMemory, Outcome, Placed, Receipt};

/// Adds the line of a receipt beside the record at its lane and place, if there is one. After `NoMemory` a part of it may have been
/// written.
pub fn push_difference(
    text: &mut Vec<u8>,
    receipt: &Receipt,
    kept: Option<&Placed>,
) -> Result<(), NoMemory>
    ensures { OnOk result (text.new.items ≡ text.old.items ++ difference_line receipt.now (option_copied kept.entry)) }
{
    push_place(text, u64::from(receipt.lane), receipt.place)?;
    text.extend_from_slice(b" receipt ")?;
    push_answer(text, receipt.stamp, &receipt.call, &receipt.outcome)?;
    text.extend_from_slice(b" kept ")?;
    push_kept(text, kept)?;
    text.push(b'\n')?;
    Ok(())
}

// Adds where a receipt says that its record is.
fn push_place(text: &mut Vec<u8>, lane: u64, place: u64) -> Result<(), NoMemory>
    ensures { OnOk result (text.new.items ≡ text.old.items ++ place_text lane place) }
{
    text.extend_from_slice(b"audit differs ")?;
    push_numbered(text, b"", lane)?;
    push_numbered(text, b" ", place)?;
    Ok(())
}

// Adds a call with its stamp, and what it gave.
fn push_answer(
    text: &mut Vec<u8>,
    stamp: u64,
    call: &Call,
    outcome: &Outcome,
) -> Result<(), NoMemory>
    ensures { OnOk result (text.new.items ≡ text.old.items ++ answer_text stamp call.now outcome.now) }
{
    push_numbered(text, b"", stamp)?;
    push_call_name(text, b" ", call.client, call.seq)?;
    text.push(b' ')?;
    push_asked(text, &call.op, call.table, &call.key)?;
    text.extend_from_slice(b" gives ")?;
    push_outcome(text, outcome)
}

// Adds a record, if there is an accepted one.
fn push_kept(text: &mut Vec<u8>, kept: Option<&Placed>) -> Result<(), NoMemory>
    ensures { OnOk result (text.new.items ≡ text.old.items ++ kept_text (option_copied kept.entry)) }
{
    if let Some(placed) = kept {
        if placed.accepted {
            return push_answer(text, placed.stamp, &placed.call, &placed.outcome);
        }
    }
    text.extend_from_slice(b"none")?;
    Ok(())
}
