// What clients say, and refusals, in lines.
ghost use Rattle.std.specs.Prelude.{◌≡◌, ◌++◌, OnOk};
ghost use Rattle.rk_lines.specs.Lines.{refused_line, said_line, said_lines, said_text};

use crate::words::{push_call_name, push_numbered, push_outcome, push_words};
use rk_types::{NoMemory, Said};

// Adds what a client was told about its call.
fn push_said_text(text: &mut Vec<u8>, said: &Said) -> Result<(), NoMemory>
    ensures { OnOk result (text.new.items ≡ text.old.items ++ said_text said.now) }
{
    match said {
        Said::Reply(client, seq, outcome) => {
            push_call_name(text, b"reply ", *client, *seq)?;
            text.push(b' ')?;
            push_outcome(text, outcome)
        }
        Said::Moved(client, seq, tablet) => {
            push_call_name(text, b"again ", *client, *seq)?;
            push_numbered(text, b" moved ", u64::from(*tablet))
        }
        Said::NotYet(client, seq, key) => {
            push_call_name(text, b"again ", *client, *seq)?;
            push_words(text, b" notyet ", key.bytes())
        }
    }
}

/// Adds the line for what a client was told about its call. After `NoMemory` a part of it may have been written.
pub fn push_said(text: &mut Vec<u8>, said: &Said) -> Result<(), NoMemory>
    ensures { OnOk result (text.new.items ≡ text.old.items ++ said_line said.now) }
{
    push_said_text(text, said)?;
    text.push(b'\n')?;
    Ok(())
}

/// Adds a line for each thing that was said, in their order. After `NoMemory` a part of the lines may have been written.
pub fn push_all_said(text: &mut Vec<u8>, said: &[Said]) -> Result<(), NoMemory>
    ensures { OnOk result (text.new.items ≡ text.old.items ++ said_lines said.now) }
{
    for answer in said {
        push_said(text, answer)?;
    }
    Ok(())
}

/// Adds the last line of a refused run: the number of the line that is refused, and the code. After `NoMemory` a part of
/// it may have been written.
pub fn push_refused(text: &mut Vec<u8>, line: u32, code: u8) -> Result<(), NoMemory>
    ensures { OnOk result (text.new.items ≡ text.old.items ++ refused_line line code) }
{
    push_numbered(text, b"refused ", u64::from(line))?;
    push_numbered(text, b" ", u64::from(code))?;
    text.push(b'\n')?;
    Ok(())
}
