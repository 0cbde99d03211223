// Numbers, values and outcomes, of which lines are made.
ghost use Rattle.std.specs.Prelude.{◌≡◌, ◌++◌, OnOk, decimal};
ghost use Rattle.rk_lines.specs.Lines.{call_name, outcome_text, value_text};

use itoa::Buffer;
use rk_types::{NoMemory, Outcome, Value};

/// Adds two texts, one after the other.
pub fn push_words(text: &mut Vec<u8>, words: &[u8], more: &[u8]) -> Result<(), NoMemory>
    ensures { OnOk result (text.new.items ≡ text.old.items ++ (words.now ++ more.now)) }
{
    text.extend_from_slice(words)?;
    text.extend_from_slice(more)?;
    Ok(())
}

/// Adds a number in decimal digits.
pub fn push_number(text: &mut Vec<u8>, number: u64) -> Result<(), NoMemory>
    ensures { OnOk result (text.new.items ≡ text.old.items ++ decimal number) }
{
    let mut digits = Buffer::new();
    text.extend_from_slice(digits.format(number).as_bytes())?;
    Ok(())
}

/// Adds some words and a number.
pub fn push_numbered(text: &mut Vec<u8>, words: &[u8], number: u64) -> Result<(), NoMemory>
    ensures { OnOk result (text.new.items ≡ text.old.items ++ (words.now ++ decimal number)) }
{
    text.extend_from_slice(words)?;
    push_number(text, number)
}

/// Adds some words, and a call by its client and its number there.
pub fn push_call_name(
    text: &mut Vec<u8>,
    words: &[u8],
    client: u32,
    seq: u64,
) -> Result<(), NoMemory>
    ensures { OnOk result (text.new.items ≡ text.old.items ++ (words.now ++ call_name client seq)) }
{
    push_numbered(text, words, u64::from(client))?;
    push_numbered(text, b" ", seq)
}

/// Adds a blank and a value, or nothing for an empty one.
pub fn push_value(text: &mut Vec<u8>, value: &Value) -> Result<(), NoMemory>
    ensures { OnOk result (text.new.items ≡ text.old.items ++ value_text value.now) }
{
    let bytes = value.bytes();
    if bytes.is_empty() {
        return Ok(());
    }
    text.push(b' ')?;
    text.extend_from_slice(bytes)?;
    Ok(())
}

/// Adds the words for an outcome.
pub fn push_outcome(text: &mut Vec<u8>, outcome: &Outcome) -> Result<(), NoMemory>
    ensures { OnOk result (text.new.items ≡ text.old.items ++ outcome_text outcome.now) }
{
    match outcome {
        Outcome::Found(version, value) => {
            push_numbered(text, b"found ", *version)?;
            push_value(text, value)
        }
        Outcome::Absent => {
            text.extend_from_slice(b"absent")?;
            Ok(())
        }
        Outcome::Written(version) => push_numbered(text, b"written ", *version),
        Outcome::Deleted(version) => push_numbered(text, b"deleted ", *version),
        Outcome::Mismatch(version) => push_numbered(text, b"mismatch ", *version),
    }
}
