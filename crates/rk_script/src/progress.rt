// The lines of a script, read as they become complete.
ghost use Rattle.std.specs.Prelude.{◌≡◌, ◌==◌, ◌+◌, ◌≤◌, ◌<◌, ◌∷◌, ◌++◌, [], ℕ, List, length, position, IfOk, IfErr, IfSome, IfNone, OnOk, vec_len};
ghost use Rattle.std.specs.Str.Lines.{strip_carriage_return};
ghost use Rattle.rk_script.specs.Lines.{said_by};
ghost use Rattle.rk_script.specs.Reading.{AddsLine, IsLineRefusal, IsScriptRefusal, IsWithinLine, Settles, answer_of};

use crate::command::Numbered;
use crate::line::read_line;
use crate::refusal::LineError;
use crate::script::{CARRIAGE_RETURN, LINE_FEED, LONGEST_SCRIPT, ParseError};
use memchr::memchr;
use std::alloc::Global;

/// How far a script is read: of its complete lines there are the commands alone.
#[derive(Drop)]
pub struct Progress {
    /// The commands of the complete lines.
    pub commands: Vec<Numbered>,
    /// The number of the line that is not complete.
    pub line: u32,
    /// What that line has so far.
    pub last: Vec<u8>,
}

// The place of the first line feed.
#[tactic(auto, using(crate::proofs::Cuts::place_found))]
fn line_end(bytes: &[u8]) -> Option<usize>
    ensures place { result ≡ position (λ byte. byte == LINE_FEED) bytes.now }
    ensures within { IfSome result (λ place. place < length bytes.now) }
{
    memchr(LINE_FEED, bytes)
}

// What comes before the first line feed, and what comes after it.
#[tactic(auto, using(crate::proofs::Cuts::cut_at_position, crate::proofs::Cuts::line_before_position, crate::proofs::Cuts::line_without_position))]
fn cut_line(bytes: &[u8]) -> Option<(&[u8], &[u8])>
    ensures whole { IfNone result (IsWithinLine bytes.now) }
    ensures cut { IfSome result (λ cut. bytes.now ≡ cut.0.now ++ LINE_FEED ∷ cut.1.now) }
    ensures line { IfSome result (λ cut. IsWithinLine cut.0.now) }
{
    match line_end(bytes) {
        None => None,
        Some(place) => {
            let (front, _) = bytes.split_at(place);
            let (_, back) = bytes.split_at(place + 1);
            Some((front, back))
        }
    }
}

// A line without the one carriage return at its end, if it has one.
fn without_return(text: &[u8]) -> &[u8]
    ensures { result.now ≡ strip_carriage_return text.now }
{
    if text.is_empty() || text[text.len() - 1] != CARRIAGE_RETURN {
        return text;
    }
    let (front, _) = text.split_at(text.len() - 1);
    front
}

// Puts the command of a line, if it says one, behind the others.
fn add_line(
    alloc: Global,
    commands: &mut Vec<Numbered>,
    line: u32,
    text: &[u8],
) -> Result<(), ParseError>
    ensures ok { OnOk result (AddsLine commands.old.items commands.new.items line text.now) }
    ensures few { OnOk result (length commands.new.items ≤ length commands.old.items + 1) }
    ensures err { IfErr result (λ e. IsLineRefusal e line (said_by text.now)) }
{
    match read_line(alloc, text) {
        Ok(None) => Ok(()),
        Ok(Some(command)) => {
            commands.push(Numbered { line, command })?;
            Ok(())
        }
        Err(LineError::Refused(code)) => Err(ParseError::Refused { line, code }),
        Err(LineError::NoMemory) => Err(ParseError::NoMemory),
    }
}

// Puts the command of the line that ends with this text behind the others, and forgets the line. A line that came in one piece
// is read in place.
fn end_line(
    alloc: Global,
    commands: &mut Vec<Numbered>,
    line: u32,
    last: &mut Vec<u8>,
    text: &[u8],
) -> Result<(), ParseError>
    ensures ok { OnOk result (AddsLine commands.old.items commands.new.items line (strip_carriage_return (last.old.items ++ text.now))) }
    ensures few { OnOk result (length commands.new.items ≤ length commands.old.items + 1) }
    ensures last { OnOk result (last.new.items ≡ []) }
    ensures err { IfErr result (λ e. IsLineRefusal e line (said_by (strip_carriage_return (last.old.items ++ text.now)))) }
{
    if last.is_empty() {
        return add_line(alloc, commands, line, without_return(text));
    }
    last.extend_from_slice(text)?;
    add_line(alloc, commands, line, without_return(last.as_slice()))?;
    last.clear();
    Ok(())
}

/// A script of which nothing is read.
pub fn start(alloc: Global) -> Progress
    ensures commands { result.commands.items ≡ [] }
    ensures line { result.line ≡ 1 }
    ensures last { result.last.items ≡ [] }
{
    Progress {
        commands: Vec::new(alloc),
        line: 1,
        last: Vec::new(alloc),
    }
}

/// Reads on: the lines that these bytes complete, and what they have of the next one.
pub fn read_on(alloc: Global, progress: Progress, piece: &[u8]) -> Result<Progress, ParseError>
    requires within { IsWithinLine progress.last.items }
    requires room { progress.line + length progress.last.items + length piece.now ≤ LONGEST_SCRIPT + 1 }
    ensures settles { (more : List ℕ) → Settles result more (answer_of progress (piece.now ++ more)) }
    ensures within { IfOk result (λ next. IsWithinLine next.last.items) }
    ensures lines { IfOk result (λ next. next.line + length next.last.items ≤ progress.line + length progress.last.items + length piece.now) }
    ensures commands { IfOk result (λ next. length next.commands.items + length next.last.items
        ≤ length progress.commands.items + length progress.last.items + length piece.now) }
{
    let mut next = progress;
    let mut rest = piece;
    'lines: while let Some((text, after)) = cut_line(rest) {
        end_line(alloc, &mut next.commands, next.line, &mut next.last, text)?;
        next.line += 1;
        rest = after;
    }
    next.last.extend_from_slice(rest)?;
    Ok(next)
}

/// The commands of a script that has come to its end: what is left of it is its last line, unless it is empty.
pub fn read_end(alloc: Global, progress: Progress) -> Result<Vec<Numbered>, ParseError>
    requires { IsWithinLine progress.last.items }
    ensures ok { IfOk result (λ commands. answer_of progress [] ≡ Ok commands.items) }
    ensures few { IfOk result (λ commands. vec_len commands ≤ length progress.commands.items + length progress.last.items) }
    ensures err { IfErr result (λ e. IsScriptRefusal e (answer_of progress [])) }
{
    let mut commands = progress.commands;
    if progress.last.is_empty() {
        return Ok(commands);
    }
    add_line(
        alloc,
        &mut commands,
        progress.line,
        progress.last.as_slice(),
    )?;
    Ok(commands)
}
