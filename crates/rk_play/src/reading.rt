// A script read from its source, and forgotten as it is read.
ghost use Rattle.std.specs.Prelude.{◌≡◌, ◌+◌, ◌≤◌, ℕ, All, Ok, Err, IfOk, OnOk, IsErrOf, vec_len};
ghost use Rattle.std.specs.Io.KnownBytes.{IsAtEnd};
ghost use Rattle.rk_outside.specs.Faults.{Rose};
ghost use Rattle.rk_outside.specs.Parts.{ConsumesBetween};
ghost use Rattle.rk_script.specs.Lawful.{IsLawful};
ghost use Rattle.rk_script.specs.declared.code.Code.{Code as Reason};
ghost use Rattle.rk_script.specs.declared.script.ParseError.TheVariants.{Refused as refused_by};
ghost use Rattle.rk_play.specs.Reading.{Says, script_error_by};
ghost use Rattle.rk_play.specs.declared.reading.ScriptError.TheVariants.{Failed as failed, NoMemory as no_memory, Refused as refused};

use rk_outside::{Failed, PIECE, Source};
use rk_script::{Code, LONGEST_SCRIPT, Numbered, ParseError, ScriptReader};
use std::alloc::{AllocError, Global};
use thiserror::Error;

/// Why a script that a source has is not played.
#[derive(Clone, Copy, Debug, PartialEq, Eq, Error)]
pub(crate) enum ScriptError {
    /// This is the first refusal of the script.
    #[error("line {line} is refused with code {code:?}")]
    Refused { line: u32, code: Code },
    /// The source failed. Its count of faults rose in the call that answers this.
    #[error("the source failed")]
    Failed,
    /// Memory ran out.
    #[error("out of memory")]
    NoMemory,
}

impl From<ParseError> for ScriptError {
    ghost from_gives = { λ error e. e ≡ script_error_by error };

    fn from(error: ParseError) -> ScriptError {
        match error {
            ParseError::Refused { line, code } => ScriptError::Refused { line, code },
            ParseError::NoMemory => ScriptError::NoMemory,
        }
    }
}

impl From<Failed> for ScriptError {
    ghost from_gives = { λ _ e. e ≡ failed };

    fn from(_error: Failed) -> ScriptError {
        ScriptError::Failed
    }
}

impl From<AllocError> for ScriptError {
    ghost from_gives = { λ _ e. e ≡ no_memory };

    fn from(_error: AllocError) -> ScriptError {
        ScriptError::NoMemory
    }
}

// So many zeros, for a source to write over.
fn zeros(alloc: Global, count: usize) -> Result<Vec<u8>, AllocError>
    ensures { IfOk result (λ zeros. vec_len zeros ≡ count) }
{
    vec![in alloc; 0; count]
}

/// The commands of the script that the source has, which is read in pieces of at most `PIECE` bytes. Of its bytes never more than
/// a piece and one line are held. `Refused` gives the first refusal of the script, and comes at its end; a script that is too
/// long is read up to one piece past the longest. `Failed` comes only if the source's count of faults rose, and else the count
/// stays.
pub(crate) fn read_script<S: Source>(
    alloc: Global,
    source: &mut S,
) -> Result<Vec<Numbered>, ScriptError>
    ensures ok { IfOk result (λ commands. Says (S.left source.old) (S.left source.new) (Ok commands.items)) }
    ensures lawful { IfOk result (λ commands. All IsLawful commands.items) }
    ensures end { OnOk result (IsAtEnd (S.left source.new)) }
    ensures refused { (line : ℕ) (code : Reason) → result ≡ Err (refused line code)
        → Says (S.left source.old) (S.left source.new) (Err (refused_by line code)) }
    ensures front { ConsumesBetween (S.left source.old) (S.left source.new) 0 (LONGEST_SCRIPT + PIECE) }
    ensures failed { IsErrOf result failed → Rose (S.faults source.old) (S.faults source.new) }
    ensures later { S.faults source.old ≤ S.faults source.new }
    ensures kept { (IsErrOf result failed → ⊥) → S.faults source.new ≡ S.faults source.old }
{
    let mut buffer = zeros(alloc, PIECE)?;
    let piece = buffer.as_mut_slice();
    let mut reader = ScriptReader::new(alloc);
    'pieces: loop {
        let count = source.next(piece)?;
        if count == 0 {
            return Ok(reader.finish()?);
        }
        reader.feed(&piece[..count])?;
    }
}
