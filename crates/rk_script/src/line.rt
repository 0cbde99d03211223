ghost use Rattle.std.specs.Prelude.{◌≡◌, ◌==◌, ◌||◌, map, take, slice_index, IfErr, IfOk, bytes_eq};
ghost use Rattle.std.specs.List.{list_any};
ghost use Rattle.rk_script.specs.Commands.{command_of};
ghost use Rattle.rk_script.specs.Lines.{is_bad, said_by, said_in, words_of};
ghost use Rattle.rk_script.specs.Refusals.{IsRefusalOf};

use crate::code::Code;
use crate::command::Command;
use crate::names::{is, read_keyword};
use crate::refusal::LineError;
use crate::{arguments, calls};
use arrayvec::ArrayVec;
use rk_types::NoMemory;
use std::alloc::Global;

/// A byte that parts words.
pub const BLANK: u8 = b' ';

/// The other byte that parts words.
pub const TAB: u8 = b'\t';

/// The byte with which a line of comment begins.
pub const COMMENT: u8 = b'#';

/// The least byte of a word, `!`.
pub const FIRST_PRINTED: u8 = 0x21;

/// The greatest byte of a word, `~`.
pub const LAST_PRINTED: u8 = 0x7e;

/// The most words that are read of a line: one more than any command has.
pub const MOST_WORDS: usize = 8;

// The first words of a line, at most `MOST_WORDS`.
fn words(line: &[u8]) -> Result<ArrayVec<&[u8], MOST_WORDS>, NoMemory>
    ensures { IfOk result (λ words. map (λ word. word.now) words.items ≡ take MOST_WORDS (words_of line.now)) }
{
    let mut words = ArrayVec::new();
    let parts = line
        .split(|byte| *byte == BLANK || *byte == TAB)
        .filter(|word| !word.is_empty())
        .take(MOST_WORDS);
    words.extend(parts)?;
    Ok(words)
}

// Whether some byte neither parts words nor is a printed character.
fn has_bad_byte(line: &[u8]) -> bool
    ensures { result ≡ list_any is_bad line.now }
{
    line.iter().any(|byte| {
        *byte != BLANK && *byte != TAB && (*byte < FIRST_PRINTED || LAST_PRINTED < *byte)
    })
}

// Whether a first word begins a comment.
fn is_comment(word: &[u8]) -> bool
    ensures { result ≡ (slice_index word.now 0 == COMMENT) }
{
    !word.is_empty() && word[0] == COMMENT
}

// The command that a first word and those after it say.
fn command(alloc: Global, name: &[u8], words: &[&[u8]]) -> Result<Command, LineError>
    ensures ok { IfOk result (λ command. command_of name.now (map (λ word. word.now) words.now) ≡ Ok command) }
    ensures err { IfErr result (λ e. IsRefusalOf e (command_of name.now (map (λ word. word.now) words.now))) }
{
    if is(name, b"call") {
        return calls::call(alloc, words);
    }
    if is(name, b"advance") {
        return Ok(arguments::advance(words)?);
    }
    let keyword = read_keyword(name)?;
    Ok(arguments::plain(keyword, words)?)
}

// The command that a line with these words says; none if it is empty or a comment.
fn read_words(alloc: Global, line: &[u8], words: &[&[u8]]) -> Result<Option<Command>, LineError>
    ensures ok { IfOk result (λ said. said_in line.now (map (λ word. word.now) words.now) ≡ Ok said) }
    ensures err { IfErr result (λ e. IsRefusalOf e (said_in line.now (map (λ word. word.now) words.now))) }
{
    let [name, rest @ ..] = words else {
        return Ok(None);
    };
    if is_comment(name) {
        return Ok(None);
    }
    if has_bad_byte(line) {
        return Err(LineError::Refused(Code::BadByte));
    }
    Ok(Some(command(alloc, name, rest)?))
}

/// The command that a line says; none if it is empty or a comment. `Refused` gives the first code that the line
/// meets.
pub fn read_line(alloc: Global, line: &[u8]) -> Result<Option<Command>, LineError>
    ensures ok { IfOk result (λ said. said_by line.now ≡ Ok said) }
    ensures err { IfErr result (λ e. IsRefusalOf e (said_by line.now)) }
{
    let words = words(line)?;
    read_words(alloc, line, words.as_slice())
}
