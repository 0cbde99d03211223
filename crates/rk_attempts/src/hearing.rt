ghost use Rattle.std.specs.Prelude.{◌≡◌, None, Some, IfErr, OnOk};
ghost use Rattle.rk_attempts.specs.Shorts.{short_of};

use crate::attempt::Short;
use rk_world::{Seen, StepError};

/// What work makes of a lane's answer: want of memory and a worn lane end it, and every other refusal is passed over.
pub fn heard(answer: &Result<Seen, StepError>) -> Result<(), Short>
    ensures ok { OnOk result (short_of answer.now ≡ None) }
    ensures err { IfErr result (λ e. short_of answer.now ≡ Some e) }
{
    match answer {
        Err(StepError::NoMemory) => Err(Short::NoMemory),
        Err(StepError::Worn(number)) => Err(Short::Worn(*number)),
        _ => Ok(()),
    }
}
