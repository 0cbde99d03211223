ghost use Rattle.std.specs.Prelude.{◌≡◌};
ghost use Rattle.rk_script.specs.declared.refusal.LineError.TheVariants.{NoMemory as no_memory, Refused as refused};

use crate::code::Code;
use rk_types::NoMemory;
use thiserror::Error;

/// Why a line, or a part of one, is no command.
#[derive(Clone, Copy, Debug, PartialEq, Eq, Error)]
pub enum LineError {
    /// It is refused with this code.
    #[error("refused with code {0:?}")]
    Refused(Code),
    /// Memory ran out.
    #[error("out of memory")]
    NoMemory,
}

impl From<Code> for LineError {
    ghost from_gives = { λ code e. e ≡ refused code };

    fn from(code: Code) -> LineError {
        LineError::Refused(code)
    }
}

impl From<NoMemory> for LineError {
    ghost from_gives = { λ _ e. e ≡ no_memory };

    fn from(_error: NoMemory) -> LineError {
        LineError::NoMemory
    }
}
