ghost use Rattle.std.specs.Prelude.{◌≡◌, ◌≢◌, ◌≤◌, All, IfOk, IfErr, vec_len};
ghost use Rattle.rk_script.specs.Lawful.{IsLawful};
ghost use Rattle.rk_script.specs.Script.{script_of};
ghost use Rattle.rk_script.specs.declared.script.ParseError.TheVariants.{NoMemory as no_memory};

use crate::code::Code;
use crate::command::Numbered;
use crate::reader::ScriptReader;
use std::alloc::{AllocError, AllocFailed, Global};
use thiserror::Error;

/// The most bytes that a script has.
pub const LONGEST_SCRIPT: usize = 16_777_216;

/// The byte that ends a line.
pub const LINE_FEED: u8 = b'\n';

/// The byte that is dropped if it comes before a line feed.
pub const CARRIAGE_RETURN: u8 = b'\r';

/// Why a script is refused before any line of it runs.
#[derive(Clone, Copy, Debug, PartialEq, Eq, Error)]
pub enum ParseError {
    /// This line, counted from 1, is the first that meets a code, and this is the first code that it meets; 0 means the
    /// script as a whole.
    #[error("line {line} is refused with code {code:?}")]
    Refused { line: u32, code: Code },
    /// Memory ran out.
    #[error("out of memory")]
    NoMemory,
}

impl From<AllocError> for ParseError {
    ghost from_gives = { λ _ e. e ≡ no_memory };

    fn from(_error: AllocError) -> ParseError {
        ParseError::NoMemory
    }
}

impl<T: Drop> From<AllocFailed<T>> for ParseError {
    ghost from_gives = { λ _ e. e ≡ no_memory };

    fn from(_error: AllocFailed<T>) -> ParseError {
        ParseError::NoMemory
    }
}

/// The commands of a script, each with the number of its line, counted from 1; what a command names is in its range.
/// Empty lines and comments are passed over. `Refused` gives line 0 and the code `ScriptLength` if the script has more
/// than `LONGEST_SCRIPT` bytes, and else the first line that meets a code. It takes time and memory in proportion to
/// the script.
pub fn parse(alloc: Global, script: &[u8]) -> Result<Vec<Numbered>, ParseError>
    ensures ok { IfOk result (λ commands. script_of script.now ≡ Ok commands.items) }
    ensures err { IfErr result (λ e. e ≢ ParseError.NoMemory → script_of script.now ≡ Err e) }
    ensures few { IfOk result (λ commands. vec_len commands ≤ LONGEST_SCRIPT) }
    ensures lawful { IfOk result (λ commands. All IsLawful commands.items) }
{
    let mut reader = ScriptReader::new(alloc);
    reader.feed(script)?;
    reader.finish()
}
