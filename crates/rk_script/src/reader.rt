// A script read in pieces.
ghost use Rattle.std.specs.Prelude.{◌≡◌, ◌≢◌, ◌+◌, ◌-◌, ◌^◌, ◌≤◌, ◌<◌, ◌↔◌, ◌++◌, ℕ, List, [], length, min, All, Err, IfOk, IfErr, IsErr, IsErrOf, vec_len};
ghost use Rattle.rk_script.specs.declared.code.Code.TheVariants.{ScriptLength as script_length};
ghost use Rattle.rk_script.specs.declared.script.ParseError.TheVariants.{NoMemory as no_memory, Refused as refused};
ghost use Rattle.rk_script.specs.Feeding.{IsWanting, WasFed};
ghost use Rattle.rk_script.specs.Lawful.{IsLawful};
ghost use Rattle.rk_script.specs.Reading.{GoesOn, IsProgress};
ghost use Rattle.rk_script.specs.Script.{script_of};

use crate::code::Code;
use crate::command::Numbered;
use crate::progress::{Progress, read_end, read_on, start};
use crate::script::{LONGEST_SCRIPT, ParseError};
use std::alloc::Global;
use std::marker::Model;
use std::mem;

/// Why a script of more than `LONGEST_SCRIPT` bytes is refused.
const TOO_LONG: ParseError = ParseError::Refused {
    line: 0,
    code: Code::ScriptLength,
};

/// Reads a script that comes in pieces, however it is cut. It keeps the commands of the complete lines and the bytes of the last
/// one, and nothing else of the text; of a script that is refused it keeps the refusal alone.
#[derive(Drop)]
pub struct ScriptReader {
    alloc: Global,
    count: usize,
    read: Result<Progress, ParseError>,
}

impl Model for ScriptReader {
    ghost use Rattle.std.specs.Prelude.{IfOk};
    ghost use Rattle.rk_script.specs.Feeding.{Reader};
    ghost use Rattle.rk_script.specs.Reading.{IsProgress};

    ghost Value = { Reader };

    ghost view = { λ reader. record {
      count = reader.count;
      read = reader.read;
    } };

    ghost invariant = { λ reader. IfOk reader.read (λ progress. IsProgress progress reader.count) };
}

// Reads on, unless reading has come to its end already.
fn go_on(
    alloc: Global,
    read: Result<Progress, ParseError>,
    count: usize,
    piece: &[u8],
) -> Result<Progress, ParseError>
    requires progress { IfOk read (λ progress. IsProgress progress count) }
    requires room { count + length piece.now ≤ LONGEST_SCRIPT }
    ensures progress { IfOk result (λ progress. IsProgress progress (count + length piece.now)) }
    ensures goes_on { GoesOn read result piece.now }
    ensures wanting { read ≡ Err no_memory → result ≡ Err no_memory }
{
    read_on(alloc, read?, piece)
}

impl ScriptReader {
    /// A reader that was fed nothing. Takes no memory.
    pub fn new(alloc: Global) -> ScriptReader
        ensures fed { WasFed result [] }
        ensures memory { IsWanting result → ⊥ }
    {
        ScriptReader {
            alloc,
            count: 0,
            read: Ok(start(alloc)),
        }
    }

    /// Reads the next piece of the script, in time in proportion to it. `Refused` gives line 0 and the code `ScriptLength`
    /// exactly if the pieces so far have more than `LONGEST_SCRIPT` bytes; the refusal of a single line is answered at the
    /// end. After `NoMemory` each call fails.
    pub fn feed(&mut self, piece: &[u8]) -> Result<(), ParseError>
        ensures fed { (fed : List ℕ) → WasFed self.old fed → WasFed self.new (fed ++ piece.now) }
        ensures count { self.new.count ≡ min (self.old.count + length piece.now) (2 ^ 64 - 1) }
        ensures long { IsErrOf result (refused 0 script_length) ↔ (LONGEST_SCRIPT < self.new.count) }
        ensures memory { IsErrOf result no_memory → IsWanting self.new }
        ensures err { IfErr result (λ e. e ≢ no_memory → e ≡ refused 0 script_length) }
        ensures wanting { IsWanting self.old → IsErr result × IsWanting self.new }
    {
        let before = self.count;
        self.count = before.saturating_add(piece.len());
        if self.count > LONGEST_SCRIPT {
            return Err(TOO_LONG);
        }
        let read = mem::replace(&mut self.read, Err(ParseError::NoMemory));
        self.read = go_on(self.alloc, read, before, piece);
        match self.read {
            Err(ParseError::NoMemory) => Err(ParseError::NoMemory),
            _ => Ok(()),
        }
    }

    /// The commands of the script, as `parse` answers them for the pieces joined.
    pub fn finish(self) -> Result<Vec<Numbered>, ParseError>
        ensures ok { IfOk result (λ commands. (fed : List ℕ) → WasFed self fed → script_of fed ≡ Ok commands.items) }
        ensures err { IfErr result (λ e. e ≢ no_memory → (fed : List ℕ) → WasFed self fed → script_of fed ≡ Err e) }
        ensures few { IfOk result (λ commands. vec_len commands ≤ LONGEST_SCRIPT) }
        ensures lawful { IfOk result (λ commands. (fed : List ℕ) → WasFed self fed → All IsLawful commands.items) }
        ensures wanting { IsWanting self → IsErr result }
    {
        if LONGEST_SCRIPT < self.count {
            return Err(TOO_LONG);
        }
        read_end(self.alloc, self.read?)
    }
}
